//! The accepting thread of a server: it serves many sessions at a time, over connections, in one hall.
//!
//! [`listen_on`] serves Telnet connections and browsers, each with a session of its own at a desk of one hall. At the
//! end it closes the hall and writes its history. For a server with volumes, [`serve_volume`] serves one of them with
//! a journal on a disk, and ends early if it is time to turn to the next. docs/SERVER.md has the threads, their locks,
//! which thread wakes which, and how all of them end.
//!
//! Threads: the caller's thread accepts connections, and owns the listeners and the shared state. It starts the threads
//! of `mud_server_threads`, which write the journal, and the search for a shorter history. All of them end before the
//! volume does, and none outlives the shared state.
//!
//! ```
//! let doors = Doors { telnet: TcpListener::bind(&rt, ("127.0.0.1", 4000))?, web: None };
//! let limits = Limits {
//!     sessions: 64, per_address: 0, total: 2, counts_players: false, workers: 0, capacity: 1000, idle: 0, unnamed: 0,
//! };
//! let control = Control::alone(rt.alloc(), 64)?;
//! let hosting = Hosting { stop: None, control: &control };
//! let mut sink = Sink::new(io::writer(&rt));
//! listen_on(&rt, doors, limits, Vec::new(rt.alloc()), hosting, &mut sink)?;
//! ```
//!
//! Proved: the output. With Ok it is the lines that name the ports, and the text of a history. That history can be
//! loaded again, begins with the loaded entries, and has no more desks after them than simultaneous sessions. After a
//! fault the output is a prefix of such a text. No contract states that the history is that of the sessions, that any
//! session is served, that a change wakes a thread, or that a desk is returned; tests show it.
#![tactic(auto)]

mod accepting;
mod listen;
mod searching;
mod seating;
mod volume;

pub use listen::listen_on;
pub use mud_control::{Hosting, StopSign};
pub use mud_listeners::Doors;
pub use mud_server_state::Limits;
pub use volume::serve_volume;
