//! The reasons why changes can't be left out.

use std::alloc::AllocError;
use thiserror::Error;

/// The reason why there is no history without the chosen changes.
#[derive(Debug, Drop, Error)]
pub enum UndoFault {
    /// An allocation failed.
    #[error("out of memory")]
    OutOfMemory,
    /// The change of this version is the first that is illegal without the chosen changes.
    #[error("change {0} stands on what is left out")]
    StandsOn(u32),
}

impl From<AllocError> for UndoFault {
    ghost use Rattle.std.specs.Prelude.{◌≡◌};
    ghost use Rattle.mud_undo.specs.declared.fault.UndoFault.TheVariants.{OutOfMemory};

    ghost from_gives = { λ _ e. e ≡ OutOfMemory };

    fn from(_e: AllocError) -> UndoFault {
        UndoFault::OutOfMemory
    }
}
