//! History texts: the accepted changes of a world as text, one line each.
//!
//! An [`Entry`] is an accepted change and the desk that made it. docs/HISTORY.md describes the text in plain words, and
//! specs/Text.antt as one spelling for each value.
//!
//! | Calls | Result |
//! |---|---|
//! | `write_entry`, `write_history` | append the line of an entry, or the text of a history |
//! | `write_names` | append names in quotes |
//! | `read_history` | the entries of a text, or the fault of other bytes |
//! | `read_front` | the entries with complete lines in a journal that was cut at any byte |
//! | `replay` | the world of the entries, or the first entry with an illegal change |
//!
//! ```text
//! let entries = read_history(alloc, bytes)?;
//! let world = replay(alloc, &entries)?;
//! ```
//!
//! Proved: the writers append exactly the text of the definition; the readers accept exactly such texts; a returned
//! fault is the fault of the bytes; and `replay` returns the world of the history. The contracts of [`laws`] state that
//! bytes have at most one reading, or one fault, and that recovery loses no synced entry.
#![tactic(auto)]

pub mod codes;
mod copying;
mod entry;
mod fault;
mod fields;
mod format;
mod front;
mod guess;
mod holes;
pub mod laws;
pub mod limits;
mod line;
mod parts;
mod reading;
mod replaying;
mod verb;
mod writing;

pub use entry::Entry;
pub use fault::ChronFault;
pub use format::Format;
pub use front::{Front, read_front};
pub use holes::before_zero;
pub use reading::read_history;
pub use replaying::replay;
pub use writing::{write_entry, write_history, write_names};
