//! Reasons why no history is built.

use std::alloc::{AllocError, AllocFailed};

/// A reason why no history is built.
#[derive(Clone, Copy)]
pub(crate) enum Unbuilt {
    /// Memory ran out.
    OutOfMemory,
    /// The attempt failed, or would take too long.
    GivenUp,
}

impl From<AllocError> for Unbuilt {
    fn from(_e: AllocError) -> Unbuilt {
        Unbuilt::OutOfMemory
    }
}

impl<T: Drop> From<AllocFailed<T>> for Unbuilt {
    fn from(_e: AllocFailed<T>) -> Unbuilt {
        Unbuilt::OutOfMemory
    }
}
