//! The endings of a web socket.

ghost use Rattle.std.specs.Prelude.{◌≡◌, ◌++◌, [], true, Some, OnOk};
ghost use Rattle.websocket.specs.Handshake.{response_bytes};
ghost use Rattle.websocket.specs.Headers.{is_graphic_text};
ghost use Rattle.mud_web.specs.Close.{code_of, reason_of, ending_of, close_frame};

use crate::asking::write_accept;
use crate::channel::Channel;
use std::alloc::AllocError;
use websocket::error::Error;
use websocket::protocol::CloseCode;

/// The reason why the server closes a web socket. The codes are those of RFC 6455, section 7.4.1, and 1013 ("try again
/// later") of the registry that section 11.7 sets up.
#[derive(Clone, Copy, Debug, PartialEq, Eq)]
pub enum Ending {
    /// 1000: `quit` ended the session.
    Normal,
    /// 1001: the server is shutting down.
    GoingAway,
    /// 1002: the client broke a rule of the protocol, for example by a frame without a mask.
    ProtocolError,
    /// 1007: the text of a message is not UTF-8.
    InvalidData,
    /// 1009: a message or a frame is over the limit.
    TooBig,
    /// 1011: the server is out of memory, or can't continue for another reason of its own.
    InternalError,
    /// 1013, `server full`: no place is free.
    ServerFull,
    /// 1013, `too many sessions`: the address has reached its limit of sessions.
    TooManySessions,
}

impl Ending {
    /// Returns the close code.
    pub fn code(self) -> CloseCode
        ensures { result ≡ code_of self }
    {
        match self {
            Ending::Normal => CloseCode::Normal,
            Ending::GoingAway => CloseCode::Away,
            Ending::ProtocolError => CloseCode::Protocol,
            Ending::InvalidData => CloseCode::Invalid,
            Ending::TooBig => CloseCode::Size,
            Ending::InternalError => CloseCode::Error,
            Ending::ServerFull | Ending::TooManySessions => CloseCode::Again,
        }
    }

    /// Returns the reason that is sent with the code, for people to read. It is empty if the code says everything.
    pub fn reason(self) -> &'static str
        ensures { result.now ≡ reason_of self }
    {
        match self {
            Ending::ServerFull => "server full",
            Ending::TooManySessions => "too many sessions",
            _ => "",
        }
    }

    /// Returns the ending that a protocol error calls for. It returns `None` after the other side's close.
    pub fn of(error: Error) -> Option<Ending>
        ensures { result ≡ ending_of error }
    {
        match error {
            Error::Protocol(_) => Some(Ending::ProtocolError),
            Error::Utf8 => Some(Ending::InvalidData),
            Error::Capacity(_) => Some(Ending::TooBig),
            Error::OutOfMemory => Some(Ending::InternalError),
            Error::ConnectionClosed | Error::AlreadyClosed => None,
        }
    }
}

/// Appends the answer to a head that asks to play, and right after it the close frame of an ending. A script in the
/// page can read the reason of a close, but not the status of a failed handshake. The only error is out of memory.
pub fn write_turned_away(
    accept: &[u8; 28],
    ending: Ending,
    out: &mut Vec<u8>,
) -> Result<(), AllocError>
    requires { is_graphic_text accept.now ≡ true }
    ensures { OnOk result (out.new.items ≡ out.old.items ++ response_bytes accept.now [] ++ close_frame ending) }
{
    write_accept(accept, out)?;
    let mut channel = Channel::new(*out.allocator())?;
    channel.close(ending, out)
}
