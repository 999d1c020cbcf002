//! A write-ahead journal: the text of a history without its last line, append-only and synced.
//!
//! [`find_journal`] opens the journal's file and reads it without changing it. [`found_in`] does the same over any disk
//! that can be read, and [`recover`] for the bytes of a disk. [`Found::begin`] rewrites the text that was found,
//! without torn bytes, and continues the journal. [`Journal::commit`] appends entries with one write and one sync, and
//! returns a [`Receipt`]. A [`Gate`] is the commit barrier: it keeps the last receipt, and releases the threads that
//! wait for one. A [`Held`] text is released only by a receipt for its version. A receipt, a gate and a held text
//! belong to one journal, by their type: a journal gets its name by [`Journal::with_name`], and those of another name
//! are of another type.
//!
//! Threads: a journal belongs to one thread at a time, which blocks on the disk in `commit`. All threads share the
//! gate, whose calls never wait. A thread that announced a wait there (`Gate::prepare_wait`) waits until
//! `Gate::notify_all`. This crate starts no thread.
//!
//! Memory: a journal owns its disk, and a held text its bytes. Reading a disk reads its whole text into memory.
//!
//! Proved, over every [`Appends`] and [`Disk`]: all bytes of a disk are read, and the contents after each call are as
//! stated. A crash at any moment of a call leaves the bytes that were synced before it. By [`laws`] no synced entry is
//! lost, whatever a crash leaves. It is an assumption that a file is such a disk.
#![tactic(auto)]

mod disk;
mod fault;
mod file;
mod gate;
mod held;
mod journal;
pub mod laws;
mod names;
mod recovery;

pub use disk::{Appends, Disk, DiskFault};
pub use fault::{JournalFault, OpenFault};
pub use file::{JournalFile, find_journal};
pub use gate::Gate;
pub use held::{Anything, Held, Telling};
pub use journal::{Found, Journal, Nameless, Receipt};
pub use names::NamedFiles;
pub use recovery::{found_in, recover};
