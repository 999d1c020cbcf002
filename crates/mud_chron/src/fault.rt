//! The faults of history texts and of replays.

use std::alloc::{AllocError, AllocFailed};
use thiserror::Error;

/// The reason why bytes are not a history, or a history can't be replayed (docs/HISTORY.md, "Faults"). Lines and
/// entries are counted from 1.
#[derive(PartialEq, Eq, Debug, Drop, Error)]
pub enum ChronFault {
    /// An allocation failed.
    #[error("out of memory")]
    OutOfMemory,
    /// The bytes do not begin with a first line.
    #[error("not a history")]
    NotHistory,
    /// This line is neither the line of the next entry nor the last line, or bytes follow the last line.
    #[error("line {0} is bad")]
    BadLine(usize),
    /// The change of this entry is illegal where it occurs. Only `replay` returns it.
    #[error("entry {0} isn't legal")]
    BadChange(usize),
    /// There are more than 65,536 entries.
    #[error("more than 65536 entries")]
    TooLong,
    /// The bytes end before the last line does.
    #[error("no end")]
    NoEnd,
}

impl From<AllocError> for ChronFault {
    ghost use Rattle.std.specs.Prelude.{◌≡◌};
    ghost use Rattle.mud_chron.specs.declared.fault.ChronFault.TheVariants.{OutOfMemory};

    ghost from_gives = { λ _ e. e ≡ OutOfMemory };

    fn from(_e: AllocError) -> ChronFault {
        ChronFault::OutOfMemory
    }
}

impl<T: Drop> From<AllocFailed<T>> for ChronFault {
    ghost use Rattle.std.specs.Prelude.{◌≡◌};
    ghost use Rattle.mud_chron.specs.declared.fault.ChronFault.TheVariants.{OutOfMemory};

    ghost from_gives = { λ _ e. e ≡ OutOfMemory };

    fn from(_e: AllocFailed<T>) -> ChronFault {
        ChronFault::OutOfMemory
    }
}
