//! The threads of a server, except the accepting one.
//!
//! Each thread that starts others has a [`Server`]. It admits a Telnet connection (`welcome`), or has a browser's
//! request read, which may play (`receive`). A session has two threads that share one connection: the reader thread,
//! which serves the input, and the notice thread, which sends the changes of others. They know the connection and the
//! server's state only by the trait `Converses` of `mud_server_session`. At a turn all sessions rest, and sit down in
//! the next volume ([`Server::seat`]). docs/SERVER.md has their locks, and says which thread wakes which.
//!
//! Memory: a reader thread blocks on its socket with no lock held, and on the journal's sync before it sends; under the
//! session's lock it may block on the hall. A notice thread sleeps until it is woken. Each read and write waits for a
//! fifth of a second at most, so that no session holds up a turn.
//!
//! No contract states what a thread does; tests show it. Proved: no thread can fault.
#![tactic(auto)]

mod browsers;
mod closing;
mod ending;
mod notice;
mod reader;
mod server;
mod telnet;

pub use closing::{Remaining, begin_rest, look_at_rest, shut_late};
pub use server::{Seated, Server};
