//! The faults of a turn.

use mud_journal::OpenFault;
use thiserror::Error;

/// The reason why a journal does not turn to its next volume.
#[derive(Clone, Copy, Debug, PartialEq, Eq, Error)]
pub enum TurnFault {
    /// There is no next volume, whatever a crash leaves. The old one may be continued.
    #[error("turn called off: {0}")]
    CalledOff(OpenFault),
    /// A crash may leave the next volume or not. No more may be told, because a crash may lose what is added to either.
    #[error("turn unknown: {0}")]
    Unknown(OpenFault),
}
