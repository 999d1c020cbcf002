//! The reasons why entries are not published.

use std::alloc::AllocFailed;
use thiserror::Error;

/// The reason why an entry was not published. The entry comes back with it, and nothing changed.
#[derive(Clone, Copy, PartialEq, Eq, Debug, Drop, Error)]
pub enum RowFault {
    /// The pass knows every cell: the log is full.
    #[error("the history is full")]
    HistoryFull,
    /// The first cell that the pass does not know did not take the entry: another thread was first.
    #[error("another entry was there first")]
    Unpublished,
}

/// The reason why a row was not filled.
#[derive(Clone, Copy, PartialEq, Eq, Debug, Drop, Error)]
pub enum FillFault {
    /// An allocation failed.
    #[error("out of memory")]
    OutOfMemory,
    /// There are more entries than cells that the pass does not know.
    #[error("the history is full")]
    HistoryFull,
    /// A cell did not take its entry: another thread was first.
    #[error("another entry was there first")]
    Unpublished,
}

impl<T: Drop> From<AllocFailed<T>> for FillFault {
    ghost use Rattle.std.specs.Prelude.{◌≡◌};
    ghost use Rattle.mud_row.specs.declared.fault.FillFault.TheVariants.{OutOfMemory};

    ghost from_gives = { λ _ e. e ≡ OutOfMemory };

    fn from(_e: AllocFailed<T>) -> FillFault {
        FillFault::OutOfMemory
    }
}
