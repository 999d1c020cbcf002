//! The reasons why a host lacks something.

use crate::bans::NoBans;
use crate::ports::NoPort;
use std::alloc::AllocError;
use std::io::ErrorKind;
use thiserror::Error;

/// The reason why there is no socket for consoles.
#[derive(Clone, Copy, Debug, Error)]
pub enum NoControl {
    /// Another server uses it.
    #[error("in use")]
    InUse,
    /// The path has a file that is not a socket.
    #[error("not a socket")]
    NotSocket,
    /// Any other reason of the system.
    #[error("{0}")]
    Other(ErrorKind),
}

impl NoControl {
    /// Returns the reason why the system did not give a socket.
    pub(crate) fn of(kind: ErrorKind) -> NoControl {
        match kind {
            ErrorKind::AddrInUse => NoControl::InUse,
            ErrorKind::AlreadyExists => NoControl::NotSocket,
            kind => NoControl::Other(kind),
        }
    }
}

/// The reason why a host lacks something that the command line asks for.
#[derive(Clone, Copy, Debug, Error)]
pub enum HostFault {
    /// An allocation failed.
    #[error("out of memory")]
    OutOfMemory,
    /// A port is not available, for this reason.
    #[error("cannot listen on port {0}: {1}")]
    Port(u16, NoPort),
    /// The file of the bans can't be read.
    #[error("cannot read the bans: {0}")]
    Bans(NoBans),
    /// The log file can't be opened.
    #[error("cannot open the log: {0}")]
    Log(ErrorKind),
    /// The socket for consoles can't be made.
    #[error("cannot open the control socket: {0}")]
    Control(NoControl),
}

impl From<AllocError> for HostFault {
    fn from(_: AllocError) -> HostFault {
        HostFault::OutOfMemory
    }
}

impl From<NoBans> for HostFault {
    fn from(fault: NoBans) -> HostFault {
        match fault {
            NoBans::OutOfMemory => HostFault::OutOfMemory,
            fault => HostFault::Bans(fault),
        }
    }
}
