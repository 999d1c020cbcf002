//! The stop flag of a server.

use std::sync::atomic::{AtomicBool, Ordering};

/// A flag that tells a server to shut down. A server that waits for a connection checks it ten times a second.
#[derive(Drop)]
pub struct StopSign {
    is_set: AtomicBool,
}

impl StopSign {
    /// Returns a flag that is not set.
    pub fn new() -> StopSign {
        StopSign {
            is_set: AtomicBool::new(false),
        }
    }

    /// Sets the flag for good.
    pub fn set(&self) {
        self.is_set.store(true, Ordering::SeqCst);
    }

    /// Returns whether the flag is set.
    pub fn is_set(&self) -> bool {
        self.is_set.load(Ordering::SeqCst)
    }
}
