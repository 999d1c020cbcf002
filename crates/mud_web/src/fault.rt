//! The faults of a channel.

use std::alloc::AllocError;
use thiserror::Error;
use websocket::error;

/// The reason why a channel accepts no more bytes.
#[derive(Clone, Copy, Debug, PartialEq, Eq, Error)]
pub enum Fault {
    /// An allocation failed.
    #[error("out of memory")]
    OutOfMemory,
    /// The other side closed the web socket, or broke a rule of the protocol or a limit.
    #[error("the web socket has ended")]
    Over(error::Error),
    /// The channel had already ended.
    #[error("ended already")]
    Ended,
}

impl From<AllocError> for Fault {
    ghost use Rattle.std.specs.Prelude.{◌≡◌};
    ghost use Rattle.mud_web.specs.declared.fault.Fault.TheVariants.{OutOfMemory};

    ghost from_gives = { λ _ f. f ≡ OutOfMemory };

    fn from(_error: AllocError) -> Fault {
        Fault::OutOfMemory
    }
}

/// The reason why a text is not sent.
#[derive(Clone, Copy, Debug, PartialEq, Eq, Error)]
pub enum SendFault {
    /// An allocation failed.
    #[error("out of memory")]
    OutOfMemory,
    /// The text is not ASCII. A text message is UTF-8 (RFC 6455, section 5.6), and only ASCII may be cut anywhere.
    #[error("not ASCII")]
    NotText,
    /// A close was sent or received. No message may follow it (RFC 6455, section 5.5.1).
    #[error("closed")]
    Closed,
}
