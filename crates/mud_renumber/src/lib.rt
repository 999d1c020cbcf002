//! A history of the same world but for its numbers: objects are numbered anew, in their old order.
//!
//! | Calls | Result |
//! |---|---|
//! | `renumber` | entries of the same world but for its numbers, and the new number of each object |
//! | `compact` | the same from bytes to a text, with the numbers as another text |
//!
//! Proved: the entries are legal, no more than before, and lead to a world with exactly the old objects. Each has its
//! old record, with the new number in place of each old one; objects stay in order; and no more numbers were given than
//! before. The choice of the numbers and of the entries is not proved: they are replayed, and the two worlds are
//! compared here. If they differ, the history is only shortened, and all numbers stay.
#![tactic(auto)]

mod answering;
mod column;
mod comparing;
mod needs;
mod numbers;
mod renumbering;
mod spelling;
mod telling;

pub use answering::{Compacted, compact};
pub use numbers::Numbers;
pub use renumbering::{Renumbered, renumber};
