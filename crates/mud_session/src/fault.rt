//! The faults of a session.

use thiserror::Error;

/// The reason why a session did not consume all of its input.
#[derive(Clone, Copy, PartialEq, Eq, Debug, Drop, Error)]
pub enum SessionFault {
    /// An allocation failed for the state or the output of the session itself. The session has ended.
    #[error("out of memory")]
    OutOfMemory,
    /// The session had already ended.
    #[error("the session has ended")]
    Ended,
}
