//! The connection of a session: its socket, and its client at a desk of the hall.
//!
//! The threads of a session know a [`Connection`], and the state of its hall, by the trait `Converses` of
//! `mud_server_session`.
//!
//! Memory: only the two threads of a session share a `Connection`. It owns the socket and, under the session's lock,
//! the client; its end returns the desk to the shared state. A write blocks for a minute at most on a player who reads
//! nothing, and then ends the session.
//!
//! No contract states what a session does; tests show it. Proved: no thread can fault here, and by the types a text
//! that names a version waits for its sync. The contracts of `mud_client` state the output for an input.
#![tactic(auto)]

mod connection;

pub use connection::Connection;
