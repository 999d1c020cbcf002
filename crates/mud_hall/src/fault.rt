//! The faults of a hall.

use std::alloc::{AllocError, AllocFailed};
use thiserror::Error;

/// The reason why a line was not acted on, or a desk not given. The history has no entry of the call then.
#[derive(Clone, Copy, PartialEq, Eq, Debug, Drop, Error)]
pub enum Fault {
    /// An allocation failed.
    #[error("out of memory")]
    OutOfMemory,
    /// The line is a change, and the history is full.
    #[error("history full")]
    HistoryFull,
    /// The line is a change, and the history did not take it.
    #[error("not stored")]
    Unpublished,
    /// All 64 desks were given.
    #[error("no desk is left")]
    DesksFull,
}

impl From<AllocError> for Fault {
    ghost use Rattle.std.specs.Prelude.{◌≡◌};
    ghost use Rattle.mud_hall.specs.declared.fault.Fault.TheVariants.{OutOfMemory};

    ghost from_gives = { λ _ e. e ≡ OutOfMemory };

    fn from(_e: AllocError) -> Fault {
        Fault::OutOfMemory
    }
}

impl<T: Drop> From<AllocFailed<T>> for Fault {
    ghost use Rattle.std.specs.Prelude.{◌≡◌};
    ghost use Rattle.mud_hall.specs.declared.fault.Fault.TheVariants.{OutOfMemory};

    ghost from_gives = { λ _ e. e ≡ OutOfMemory };

    fn from(_e: AllocFailed<T>) -> Fault {
        Fault::OutOfMemory
    }
}

/// The reason why a hall does not continue a history.
#[derive(PartialEq, Eq, Debug, Drop, Error)]
pub enum LoadFault {
    /// An allocation failed.
    #[error("out of memory")]
    OutOfMemory,
    /// The change of this entry, counted from 1, is illegal where it occurs.
    #[error("change {0} is not legal")]
    BadChange(usize),
    /// There are more entries than the history can have.
    #[error("more entries than the capacity")]
    OverCapacity,
    /// The history did not take an entry.
    #[error("not stored")]
    NotStored,
}

impl From<AllocError> for LoadFault {
    ghost use Rattle.std.specs.Prelude.{◌≡◌};
    ghost use Rattle.mud_hall.specs.declared.fault.LoadFault.TheVariants.{OutOfMemory};

    ghost from_gives = { λ _ e. e ≡ OutOfMemory };

    fn from(_e: AllocError) -> LoadFault {
        LoadFault::OutOfMemory
    }
}

/// The reason why a single-user desk does not continue a history.
#[derive(Clone, Copy, PartialEq, Eq, Debug, Drop, Error)]
pub enum ResumeFault {
    /// An allocation failed.
    #[error("out of memory")]
    OutOfMemory,
    /// The change of this entry, counted from 1, is illegal where it occurs.
    #[error("change {0} is not legal")]
    BadChange(usize),
    /// There are more entries than the history can have.
    #[error("more entries than the capacity")]
    OverCapacity,
    /// The word means no player, or several.
    #[error("no such player")]
    NoPlayer,
}

/// The reason why a hall was not closed.
#[derive(Clone, Copy, PartialEq, Eq, Debug, Drop, Error)]
pub enum CloseFault {
    /// An allocation failed.
    #[error("out of memory")]
    OutOfMemory,
    /// Two of the desks have this number; it is the least with this property.
    #[error("two desks have the number {0}")]
    SameNumber(u32),
    /// The desk with this number was given and is missing; it is the least with this property.
    #[error("desk {0} is missing")]
    Missing(u32),
    /// The entry with this version differs from the calls of the desks; it is the least with this property.
    #[error("version {0} is nobody's call")]
    Mismatch(u32),
}

impl From<AllocError> for CloseFault {
    ghost use Rattle.std.specs.Prelude.{◌≡◌};
    ghost use Rattle.mud_hall.specs.declared.fault.CloseFault.TheVariants.{OutOfMemory};

    ghost from_gives = { λ _ e. e ≡ OutOfMemory };

    fn from(_e: AllocError) -> CloseFault {
        CloseFault::OutOfMemory
    }
}
