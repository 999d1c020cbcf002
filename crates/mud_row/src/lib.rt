//! An append-only log that threads share without a lock, cursors into it, and replicas that follow it.
//!
//! A [`Row`] is a log with a fixed number of write-once cells. The first thread that sets a cell decides its entry, and
//! the entry never changes, so all readers see one sequence. Each reader has a [`Pass`], a cursor: the prefix of the
//! log that the reader knows. A [`Replica`] is a pass and the world after applying a prefix of its entries. An entry
//! whose change is illegal where it occurs has no effect on that world.
//!
//! | Calls | Result |
//! |---|---|
//! | `Row::new`, `Row::capacity` | a log of empty cells, and their number |
//! | `Row::pass`, `Pass::again` | a pass that knows no cell; a copy of a pass |
//! | `Pass::known` | the number of known entries |
//! | `Row::publish` | sets the first unknown cell, or returns the entry: [`RowFault`] |
//! | `Row::next` | the entry of the first unknown cell, which becomes known |
//! | `Row::fill` | sets the first unknown cells to entries in order: [`FillFault`] |
//! | `Row::entry` | a known entry, counted from 1 |
//! | `Pass::learn`, `Pass::agree` | the longer prefix of two; that one is a prefix of the other |
//! | `Replica::new`, `known`, `at`, `world` | a replica, the lengths of its known and applied prefixes, and its world |
//! | `Replica::extend`, `extend_to`, `publish`, `learn` | make more entries known; the world is unchanged |
//! | `Replica::peek`, `step`, `catch_up` | the next known entry; apply that one, or all |
//! | `Replica::see` | `extend`, then `catch_up` |
//! | `Replica::entry`, `tell`, `hear` | a known entry; hand the known prefix to a pass, or take it from one |
//! | `Replica::copy` | an equal replica, with a copy of the world |
//! | `Replica::write_text` | appends the text of the known history |
//! | `History::new`, `len` | the known prefix of a log that is no longer shared |
//! | `History::write_line`, `write_text` | append the line of an entry, or the text of the history |
//! | `History::replay` | the world of its entries, or the first entry with an illegal change |
//! | `write_end` | appends the last line of a history's text |
//!
//! ```text
//! let row = Row::new(alloc, 65536)?;
//! let mut replica = Replica::new(alloc, &row)?;
//! match replica.publish(&row, Box::new(alloc, entry)?) {
//!     Ok(n) => {} // it is entry n of the history
//!     Err((entry, RowFault::Unpublished)) => replica.see(&row)?, // and decide anew
//!     Err((entry, RowFault::HistoryFull)) => {} // the history takes no more
//! }
//! ```
//!
//! A pass or a replica is used with the row that made it: contracts require that it has the names of that row's cells.
//! `Row::new`, `Row::pass`, `Row::fill`, `Pass::again`, `Replica::new`, `copy`, `step`, `catch_up` and `see` allocate,
//! and so do the calls of a `History` that write or replay. Reading through a note takes a `&mut`. So `entry`, `learn`,
//! `agree`, `again`, `peek`, `tell` and the calls of a `History` take their inputs by `&mut`, and promise that these
//! are unchanged.
//!
//! Threads: threads share a row, and each pass and replica belongs to one thread at a time. A cell is written once, by
//! an atomic operation. No call waits for another thread, and this crate starts none.
//!
//! Memory: a row allocates all its cells at once, and owns the entries in them. A replica owns a pass and a world, and
//! the world is most of its memory.
//!
//! Proved:
//!
//! - A known entry never changes.
//! - Of two passes of one row, one knows a prefix of the other's entries.
//! - A fault leaves the pass unchanged, and returns the entry.
//! - The world of a replica is the world of the entries that it applied.
//!
//! No contract claims that `next`, `extend` and `see` find the entries that another thread has set.
#![tactic(auto)]

mod fault;
mod history;
mod pass;
mod replica;
mod row;
mod writing;

pub use fault::{FillFault, RowFault};
pub use history::History;
pub use pass::Pass;
pub use replica::Replica;
pub use row::Row;
pub use writing::write_end;
