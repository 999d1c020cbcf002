//! The ends of a session.

ghost use Rattle.std.specs.Prelude.{◌≡◌, option_map};
ghost use Rattle.mud_socket.specs.Parting.{parting_of, parting_of_error, ending_line, line_of, close_of};

use mud_web::Ending as Close;
use thiserror::Error;
use websocket::error;

/// The reason why a session is ended from outside: all sessions end, or the host ends this one.
#[derive(Clone, Copy, Debug, PartialEq, Eq)]
pub enum Ending {
    /// The server is shutting down.
    Stop,
    /// The journal has failed.
    JournalFault,
    /// The host ends this session.
    ByHost,
}

impl Ending {
    /// Returns the last line of each session.
    pub fn line(self) -> &'static str
        ensures { result.now ≡ ending_line self }
    {
        match self {
            Ending::Stop => "(server stops)\r\n",
            Ending::JournalFault => "(journal fault)\r\n",
            Ending::ByHost => "(ended by the host)\r\n",
        }
    }
}

/// The reason why a session ended, as the log names it.
#[derive(Clone, Copy, Debug, PartialEq, Eq, Error)]
pub enum Parting {
    /// The player typed `quit`, or the other side closed or reset the connection.
    #[error("left")]
    Left,
    /// The other side sent no line for the time of the limit.
    #[error("idle")]
    Idle,
    /// The session had no player for the time of the limit.
    #[error("unnamed")]
    Unnamed,
    /// The other side was too slow to take the output.
    #[error("write-timeout")]
    WriteTimeout,
    /// A frame of the web socket broke a rule of the protocol, or a limit.
    #[error("broken-frame")]
    BrokenFrame,
    /// The first input of a Telnet session was a browser's request.
    #[error("request")]
    Request,
    /// An allocation failed for the session itself.
    #[error("out-of-memory")]
    OutOfMemory,
    /// The server is shutting down.
    #[error("server-stops")]
    ServerStops,
    /// The journal has failed.
    #[error("journal-fault")]
    JournalFault,
    /// The host ended the session.
    #[error("ended")]
    Ended,
}

impl Parting {
    /// Returns the reason of a session that is ended from outside.
    pub fn of_ending(ending: Ending) -> Parting
        ensures { result ≡ parting_of ending }
    {
        match ending {
            Ending::Stop => Parting::ServerStops,
            Ending::JournalFault => Parting::JournalFault,
            Ending::ByHost => Parting::Ended,
        }
    }

    /// Returns the reason of a session whose web socket ended with this error.
    pub fn of_error(error: &error::Error) -> Parting
        ensures { result ≡ parting_of_error error.now }
    {
        match error {
            error::Error::Protocol(_) | error::Error::Utf8 | error::Error::Capacity(_) => {
                Parting::BrokenFrame
            }
            error::Error::OutOfMemory => Parting::OutOfMemory,
            error::Error::ConnectionClosed | error::Error::AlreadyClosed => Parting::Left,
        }
    }

    /// Returns the last line for the other side, if the session is ended from outside.
    pub fn line(self) -> Option<&'static str>
        ensures { option_map (λ line. line.now) result ≡ line_of self }
    {
        match self {
            Parting::ServerStops => Some(Ending::Stop.line()),
            Parting::JournalFault => Some(Ending::JournalFault.line()),
            Parting::Ended => Some(Ending::ByHost.line()),
            _ => None,
        }
    }

    /// Returns the close of a web socket at the end. It returns `None` after a text that was not taken whole, because
    /// no frame can follow it, and after a broken frame, which was already answered by a close. A browser's request
    /// ends only Telnet sessions.
    pub fn close(self) -> Option<Close>
        ensures { result ≡ close_of self }
    {
        match self {
            Parting::Left | Parting::Idle | Parting::Unnamed | Parting::Ended => Some(
                Close::Normal,
            ),
            Parting::WriteTimeout | Parting::BrokenFrame | Parting::Request => None,
            Parting::OutOfMemory => Some(Close::InternalError),
            Parting::ServerStops | Parting::JournalFault => Some(Close::GoingAway),
        }
    }
}
