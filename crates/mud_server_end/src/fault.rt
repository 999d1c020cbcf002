//! The faults of a server.

use mud_hall::{CloseFault, LoadFault};
use mud_journal::{JournalFault, OpenFault};
use std::alloc::AllocError;
use thiserror::Error;

/// The reason why a server ended.
#[derive(PartialEq, Eq, Debug, Drop, Error)]
pub enum ServerFault {
    /// An allocation failed for the state or the output of the server itself.
    #[error("out of memory")]
    OutOfMemory,
    /// A write failed.
    #[error("write fault")]
    Write,
    /// No connection can be accepted.
    #[error("cannot listen")]
    Accept,
    /// The desks made no history, or none that can be loaded again.
    #[error("cannot settle")]
    Settle(CloseFault),
    /// The hall can't continue the loaded entries.
    #[error("cannot load: {0}")]
    Load(LoadFault),
    /// The journal can't be rewritten: it has its old contents, or all loaded entries.
    #[error("cannot open journal: {0}")]
    Open(OpenFault),
    /// The journal has failed, or differs from the history of the desks.
    #[error("journal fault: {0}")]
    Journal(JournalFault),
}

impl From<JournalFault> for ServerFault {
    ghost use Rattle.std.specs.Prelude.{◌≡◌};
    ghost use Rattle.mud_server_end.specs.declared.fault.ServerFault.TheVariants.{Journal};

    ghost from_gives = { λ f e. e ≡ Journal f };

    fn from(f: JournalFault) -> ServerFault {
        ServerFault::Journal(f)
    }
}

impl<D: Drop> From<(D, OpenFault)> for ServerFault {
    ghost use Rattle.std.specs.Prelude.{◌≡◌};
    ghost use Rattle.mud_server_end.specs.declared.fault.ServerFault.TheVariants.{Open};

    ghost from_gives = { λ f e. e ≡ Open f.1 };

    fn from(f: (D, OpenFault)) -> ServerFault {
        ServerFault::Open(f.1)
    }
}

impl From<AllocError> for ServerFault {
    ghost use Rattle.std.specs.Prelude.{◌≡◌};
    ghost use Rattle.mud_server_end.specs.declared.fault.ServerFault.TheVariants.{OutOfMemory};

    ghost from_gives = { λ _ e. e ≡ OutOfMemory };

    fn from(_e: AllocError) -> ServerFault {
        ServerFault::OutOfMemory
    }
}
