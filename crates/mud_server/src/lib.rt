//! A server with volumes: many sessions at a time, in one hall after another.
//!
//! [`listen_volumes`] serves connections like `listen_on` of `mud_server_accept`, and keeps the history in volumes:
//! before one is full, all sessions rest, and sit down in the hall of the next one. docs/SERVER.md has the steps of a
//! turn. Between two volumes there is only the caller's thread.
//!
//! Proved: volumes are a chain. Each later one begins in the world in which the one before it ended, and the file of
//! each has its whole history. With Ok the output is the lines that name the ports, and the text of the last volume;
//! after a fault it is a prefix of such a text. No contract states that a session outlives a turn; tests show it.
#![tactic(auto)]

mod beginning;
mod continued;
mod volumes;

pub use beginning::Volumes;
pub use volumes::{FirstVolume, LastJournal, listen_volumes};
