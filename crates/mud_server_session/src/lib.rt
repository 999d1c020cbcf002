//! The sessions of a server, as its threads know them.
//!
//! The two threads of a session use the server's state and the session's connection by the trait [`Converses`], which
//! names no hall. At the end of a volume a session rests as a [`Guest`] on the [`Quay`], and sits down in the next one.
//! docs/SERVER.md has the steps of a turn.
//!
//! No contract states what a session does; tests show it.
#![tactic(auto)]

mod habits;
mod log_lines;
mod quay;
mod session;

pub use habits::Habits;
pub use log_lines::{
    log_begin, log_end, log_end_of, log_number, log_player, log_refusal, log_wait,
};
pub use quay::{Came, Guest, Quay};
pub use session::{CLOSE_MILLISECONDS, CLOSE_TRIES, Converses, Follows, Stepped, ending_of};
