//! The reasons why the program stopped.

use mud_hall::ResumeFault;
use mud_history_file::Unloaded;
use mud_host::HostFault;
use mud_journal::OpenFault;
use mud_server_end::ServerFault;
use mud_session::{ContinueFault, ScriptFault};
use std::alloc::AllocError;
use std::io::ErrorKind;
use thiserror::Error;

/// The reason why the program stopped.
#[derive(Clone, Copy, Debug, Error)]
pub enum Stop {
    /// An allocation failed.
    #[error("out of memory")]
    OutOfMemory,
    /// Standard input can't be read.
    #[error("read fault")]
    Read,
    /// Standard output can't be written.
    #[error("write fault")]
    Write,
    /// Standard input needed too many reads.
    #[error("too many reads")]
    TooManyReads,
    /// The host lacks something, for this reason.
    #[error("{0}")]
    Host(HostFault),
    /// No further connection can be accepted.
    #[error("cannot listen")]
    Listen,
    /// The desks of the sessions did not make one history.
    #[error("cannot settle")]
    Settle,
    /// The journal failed.
    #[error("journal fault")]
    Journal,
    /// The world can't continue the file.
    #[error("cannot load: {0}")]
    Load(Unloaded),
    /// The world can't continue the file of the journal, or another server uses it.
    #[error("cannot open journal: {0}")]
    Open(OpenFault),
    /// The settings file can't be read.
    #[error("cannot read the settings: {0}")]
    Settings(ErrorKind),
    /// A history was to be loaded, and the journal already has one.
    #[error("journal is not empty")]
    NotEmpty,
    /// The script can't continue the file.
    #[error("cannot load: {0}")]
    NotContinued(Unloaded),
    /// The word for the script's player means no player, or several.
    #[error("no such player")]
    NoPlayer,
    /// The file that the script would make exists.
    #[error("cannot make history: file exists")]
    Exists,
    /// The file with the script's history can't be made.
    #[error("cannot make history")]
    NotMade,
}

impl From<AllocError> for Stop {
    fn from(_: AllocError) -> Stop {
        Stop::OutOfMemory
    }
}

impl From<HostFault> for Stop {
    fn from(fault: HostFault) -> Stop {
        match fault {
            HostFault::OutOfMemory => Stop::OutOfMemory,
            fault => Stop::Host(fault),
        }
    }
}

impl Stop {
    /// Returns the reason why a script stopped.
    pub fn of_script(fault: ScriptFault) -> Stop {
        match fault {
            ScriptFault::OutOfMemory => Stop::OutOfMemory,
            ScriptFault::Read => Stop::Read,
            ScriptFault::Write => Stop::Write,
            ScriptFault::TooManyReads => Stop::TooManyReads,
        }
    }

    /// Returns the reason why a script has no history.
    pub fn of_continuing(fault: ContinueFault) -> Stop {
        match fault {
            ContinueFault::Stopped(fault) => Stop::of_script(fault),
            ContinueFault::NotResumed(ResumeFault::OutOfMemory) => Stop::OutOfMemory,
            ContinueFault::NotResumed(ResumeFault::BadChange(entry)) => {
                Stop::NotContinued(Unloaded::Change(entry))
            }
            ContinueFault::NotResumed(ResumeFault::OverCapacity) => {
                Stop::NotContinued(Unloaded::OverCapacity)
            }
            ContinueFault::NotResumed(ResumeFault::NoPlayer) => Stop::NoPlayer,
        }
    }

    /// Returns the reason why a script did not load its file.
    pub fn of_script_file(fault: Unloaded) -> Stop {
        match fault {
            Unloaded::OutOfMemory => Stop::OutOfMemory,
            fault => Stop::NotContinued(fault),
        }
    }

    /// Returns the reason why nothing was loaded.
    pub fn of_load(fault: Unloaded) -> Stop {
        match fault {
            Unloaded::OutOfMemory => Stop::OutOfMemory,
            Unloaded::NotEmpty => Stop::NotEmpty,
            fault => Stop::Load(fault),
        }
    }

    /// Returns the reason why there is no journal.
    pub fn of_opening(fault: OpenFault) -> Stop {
        match fault {
            OpenFault::OutOfMemory => Stop::OutOfMemory,
            fault => Stop::Open(fault),
        }
    }

    /// Returns the reason why a server ended.
    pub fn of_listening(fault: &ServerFault) -> Stop {
        match fault {
            ServerFault::OutOfMemory => Stop::OutOfMemory,
            ServerFault::Write => Stop::Write,
            ServerFault::Accept => Stop::Listen,
            ServerFault::Settle(_) => Stop::Settle,
            ServerFault::Load(fault) => Stop::of_load(Unloaded::of_entries(fault)),
            ServerFault::Open(fault) => Stop::of_opening(*fault),
            ServerFault::Journal(_) => Stop::Journal,
        }
    }

    /// Returns the exit status of the program.
    pub fn status(self) -> u8 {
        match self {
            Stop::OutOfMemory => 4,
            Stop::NotContinued(_) | Stop::NoPlayer | Stop::Exists => 2,
            _ => 3,
        }
    }
}
