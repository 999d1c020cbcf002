//! The reasons why no lines are found.

use std::alloc::{AllocError, AllocFailed};

/// The reason why no lines are found.
#[derive(Clone, Copy, Debug)]
pub(crate) enum Stop {
    /// An allocation failed.
    OutOfMemory,
    /// The rules refuse a line, or the lines lead to another world.
    GivenUp,
}

impl From<AllocError> for Stop {
    fn from(_e: AllocError) -> Stop {
        Stop::OutOfMemory
    }
}

impl<T: Drop> From<AllocFailed<T>> for Stop {
    fn from(_e: AllocFailed<T>) -> Stop {
        Stop::OutOfMemory
    }
}
