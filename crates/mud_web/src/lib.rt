//! The web protocol of the server, without a socket: requests of browsers, and the frames of web sockets.
#![tactic(auto)]

mod asking;
mod body;
mod channel;
mod closing;
mod fault;
mod fields;
mod first_line;
mod host;
pub mod laws;
mod messages;
mod refusal;
mod upgrade;

pub use asking::{Asked, MOST_FIELDS, MOST_HEAD, asks, write_accept};
pub use body::Body;
pub use channel::{Channel, MOST_MESSAGE};
pub use closing::{Ending, write_turned_away};
pub use fault::{Fault, SendFault};
pub use first_line::{FirstLine, Verdict, is_request_line};
pub use messages::MOST_SENT;
pub use refusal::Refusal;
