//! Loads histories from files.
//!
//! [`load`] reads the file and its text, and [`load_journal`] the copy of a journal. [`entries_to_continue`] chooses
//! between a file and a journal. [`Unloaded`] is the reason why a hall does not continue a file: a fault of the file,
//! of its text, or of the hall itself, which returns a `LoadFault`.
//!
//! Memory: the file is read whole before its text is, and dropped once its entries are made. The call blocks on the
//! file and starts no thread.
#![tactic(auto)]

mod reading;
mod unloaded;

pub use reading::{entries_to_continue, load, load_journal};
pub use unloaded::Unloaded;
