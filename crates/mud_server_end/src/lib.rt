//! The output of a server: its ports, its journal, and at its end the history of its hall.
//!
//! A [`JournalWriter`] appends the new entries of the hall to the journal and syncs them. The sessions share it by a
//! [`GroupCommit`]: one writes for all that wait. At the end the hall is settled ([`settle`], [`settle_group`]): its
//! desks make the history, which is checked like a load and then written. [`ServerFault`] is the reason why a server
//! ended.
//!
//! Threads: the journal writer and its file have a lock. A thread takes it only if no other has it, and blocks on the
//! disk under it. The rest runs after all other threads have ended, and owns the hall and its desks.
#![tactic(auto)]

mod ending;
mod fault;
mod group;
mod writer;
mod writing;

pub use ending::{settle, settle_group};
pub use fault::ServerFault;
pub use group::GroupCommit;
pub use writer::JournalWriter;
pub use writing::{write_entries, write_ports};
