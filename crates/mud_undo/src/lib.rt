//! A history without some of its changes.
//!
//! | Calls | Result |
//! |---|---|
//! | `without` | the entries without the chosen ones, or the first that is illegal without them |
//! | `without_changes` | the history of a text without the changes of some versions |
//! | `without_since` | the history of a text without the changes of a player, or of all, from a version on |
//!
//! Proved: exactly the chosen entries are left out; all others are legal and in order; each object keeps its number;
//! and the note has the differences of the worlds, by `mud_diff`.
#![tactic(auto)]

mod answering;
mod choice;
mod fault;
mod leaving;
mod site;

pub use answering::{NoUndo, Undone, without_changes, without_since};
pub use choice::Choice;
pub use fault::UndoFault;
pub use leaving::without;
