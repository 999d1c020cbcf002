//! The state that the threads of a server share.
//!
//! A [`ServerState`] has the hall, and the places for its sessions with their desks. It also has the lobby of browsers
//! without a session, the limits, and the gate that makes changes durable ([`Commits`]). Its `control` is what the
//! host's threads share.
//!
//! Threads: each thread of a server has a reference. Each place and the lobby have a lock of their own, which is held
//! for a moment, and under which no other lock is taken. Choosing a desk takes one more lock, which comes before those
//! of places. Counters are atomic. A free desk belongs to its place, and any other to the client that took it. A commit
//! may block on a disk. Nothing else here blocks on a player, a listener or a disk.
#![tactic(auto)]

mod commits;
mod limits;
mod lobby;
mod place;
mod state;

pub use commits::Commits;
pub use limits::Limits;
pub use lobby::Lobby;
pub use place::NoPlace;
pub use state::{Places, Reads, ServerState, Shared, Shares, StateOf};
