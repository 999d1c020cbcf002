//! A client of the server: a session at its desk, and the framing of its bytes.
//!
//! A [`Client`] consumes input by `feed`, looks for changes of others by `nudge`, and returns its output as an
//! [`Outgoing`]. It behaves alike for Telnet and for a web socket, except for the frames. It has no socket, and starts
//! no thread.
//!
//! Threads: a client belongs to one thread at a time; the threads of a session share it under a lock of their own. It
//! owns its session, the unanswered input, and the desk with its replica of the world, until `into_desk` returns the
//! desk. `feed` answers one line, and may block on the hall's lock and on workers of a route; `nudge` never blocks.
//!
//! Proved: after each step the session has received exactly the typed text of all input so far. All output so far is
//! the greeting and the text of the turns played at the desk, framed, and the replies to the frames received, each once
//! and in order. There is no other output, and none is missing.
#![tactic(auto)]

mod client;
mod framing;
mod outgoing;
mod resting;
mod step;

pub use client::Client;
pub use framing::Framing;
pub use outgoing::{End, Outgoing, Sayings};
pub use resting::RestingClient;
