//! The keeper's operations on the history of a world.
//!
//! | Calls | Result |
//! |---|---|
//! | `read_kept` | the entries of a history, or of a journal that was cut at any byte |
//! | `recover` | the text of the history in a journal, and the number of torn bytes |
//! | `save_front` | the text of the history in the longest readable prefix of a damaged journal, and what is left out |
//! | `shorten` | a history of the same world that is no longer, and has no talk |
//! | `show` | the world as a table |
//! | `recovered_text`, `front_text`, `shorter_text`, `world_table` | the same from bytes to a text and its notes |
//!
//! Proved: each call returns the value of its definition. The contract of [`laws`] states that talk never changes a
//! world. The choices of `shorten` are not proved: `mud_compact_plan` rebuilds a world, and the two worlds are compared
//! here. If they differ, or nothing is gained, only talk is left out.
#![tactic(auto)]

mod answering;
mod comparing;
mod fault;
pub mod laws;
mod reading;
mod saving;
mod shortening;
mod showing;
mod talk;

pub use answering::{Answer, Note, front_text, recovered_text, shorter_text, world_table};
pub use fault::KeptFault;
pub use reading::{Kept, Recovered, TextKind, read_kept, recover};
pub use saving::{Saved, save_front};
pub use shortening::shorten;
pub use showing::show;
