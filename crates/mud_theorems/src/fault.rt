//! Faults of players who type at once.

use mud_hall::{CloseFault, Fault};
use std::alloc::{AllocError, AllocFailed};
use thiserror::Error;

/// A reason why players did not play, or their hall was not settled.
#[derive(Clone, Copy, PartialEq, Eq, Debug, Drop, Error)]
pub enum PlayFault {
    /// Memory ran out for a desk, a session, a list or the settlement.
    #[error("out of memory")]
    OutOfMemory,
    /// The hall has no desk left for one of them.
    #[error("no desk is left")]
    DesksFull,
    /// Their desks alone did not make the history: somebody else has a desk of the hall.
    #[error("{0}")]
    Close(CloseFault),
}

impl From<Fault> for PlayFault {
    fn from(fault: Fault) -> PlayFault {
        match fault {
            Fault::DesksFull => PlayFault::DesksFull,
            _ => PlayFault::OutOfMemory,
        }
    }
}

impl From<CloseFault> for PlayFault {
    fn from(fault: CloseFault) -> PlayFault {
        match fault {
            CloseFault::OutOfMemory => PlayFault::OutOfMemory,
            fault => PlayFault::Close(fault),
        }
    }
}

impl From<AllocError> for PlayFault {
    fn from(_e: AllocError) -> PlayFault {
        PlayFault::OutOfMemory
    }
}

impl<T: Drop> From<AllocFailed<T>> for PlayFault {
    fn from(_e: AllocFailed<T>) -> PlayFault {
        PlayFault::OutOfMemory
    }
}

/// A reason why connections were not served, or their hall was not settled.
#[derive(Clone, Copy, PartialEq, Eq, Debug, Drop, Error)]
pub enum ServeFault {
    /// Memory ran out for a desk, a client, a list or the settlement.
    #[error("out of memory")]
    OutOfMemory,
    /// The hall has no desk left for one of them.
    #[error("no desk is left")]
    DesksFull,
    /// Their desks alone did not make the history: somebody else has a desk of the hall.
    #[error("{0}")]
    Close(CloseFault),
    /// The history has entries that none of their desks has seen.
    #[error("entries of others")]
    Others,
}

impl From<Fault> for ServeFault {
    fn from(fault: Fault) -> ServeFault {
        match fault {
            Fault::DesksFull => ServeFault::DesksFull,
            _ => ServeFault::OutOfMemory,
        }
    }
}

impl From<CloseFault> for ServeFault {
    fn from(fault: CloseFault) -> ServeFault {
        match fault {
            CloseFault::OutOfMemory => ServeFault::OutOfMemory,
            fault => ServeFault::Close(fault),
        }
    }
}

impl From<AllocError> for ServeFault {
    fn from(_e: AllocError) -> ServeFault {
        ServeFault::OutOfMemory
    }
}

impl<T: Drop> From<AllocFailed<T>> for ServeFault {
    fn from(_e: AllocFailed<T>) -> ServeFault {
        ServeFault::OutOfMemory
    }
}
