//! Theorems about many sessions at one hall, and about its journal after a crash, for which no crate below is enough.
//!
//! - [`laws::one_run`]: the calls of any threads at the desks of a hall are one run of the hall.
//! - [`play_together`] lets players type at once, each in a thread of its own. The input and output of each player are
//!   a part of one run of the hall.
//! - [`serve_together`] serves connections at once, with a journal: what each is sent is a prefix of its part of one
//!   run, and a crash leaves each version that it was told.
//! - [`laws::survival`]: each reply and answer up to the last synced version still holds after a crash.
//! - [`laws::owners`], [`laws::texts`]: only its owner changes an object, and the text of a route names one walk.
//!
//! No server calls [`play_together`] or [`serve_together`]: they show what the contracts of a hall, a session, a client
//! and a journal give for running threads.
#![tactic(auto)]

mod durable;
mod fault;
mod gathering;
mod keeper;
pub mod laws;
mod peer;
mod played;
mod playing;
mod serving;
mod step;
mod talk;
mod transcript;

pub use fault::{PlayFault, ServeFault};
pub use peer::{Arrival, Peer};
pub use playing::play_together;
pub use serving::{Served, serve_together};
pub use transcript::Transcript;
