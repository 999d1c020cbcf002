//! The socket of a connection: reads and writes with time limits, and the reason why its session ended.
//!
//! A [`Socket`] reads as long as a [`Patience`] allows, and writes whole texts, each with a time limit. It knows
//! neither sessions nor the journal: the caller first waits until the versions in a text are durable. A browser's head
//! is read first ([`hear`]): the server sends it the page, refuses it, or admits it to play.
//!
//! Threads: any number may share a socket. One thread reads, any may write, and `shut` ends both. A read blocks until
//! bytes arrive or the patience ends, and a write until the other side takes the text or its time is over.
#![tactic(auto)]

mod head;
mod options;
mod parting;
mod patience;
mod socket;
mod time;

pub use head::{HEAD_SECONDS, HeadReader, Heard, hear, refuse};
pub use parting::{Ending, Parting};
pub use patience::Patience;
pub use socket::{Entrance, Socket, canonical, set_up};
pub use time::{give_way, now, rest, unix_seconds};
