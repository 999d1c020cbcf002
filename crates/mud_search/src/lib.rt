//! Computes the least labels of a party: for each traveller and each room, the cost and the number of exits of a least
//! walk there.
//!
//! | Call | Result |
//! |---|---|
//! | [`labels_alone`] | the least labels of up to eight travellers, computed on the caller's thread |
//! | [`labels_counted`] | the same, with a count of the rooms that the search takes, for contracts only |
//! | [`Steps`] | such a count |
//! | [`labels`] | the least labels, computed by several workers that pass a [`Gate`] with each room |
//! | [`last_share`] | the share of members, or of workers, that the last of several parts gets |
//! | [`Labels::get`] | the least label of a member at a room |
//! | [`Labels::below`] | all least labels of a member below a number, sorted by number |
//! | [`Frontier`] | the rooms of all members during a search: waiting, held or finished |
//!
//! The search repeatedly takes the waiting room with the least label, and relaxes its open exits (E. W. Dijkstra, "A
//! note on two problems in connexion with graphs", 1959). A [`Frontier`] is correct for any interleaving of workers
//! that take and return rooms: a task whose room has got a lesser label since is stale, and has no effect.
//!
//! Proved: the labels are the least (`AreLeast` in specs/Least.antt, over the walks of mud_roads) and bounded. The
//! invariant of a frontier holds after every call, and each call has the stated effect. A search on one thread
//! terminates, and takes each room at most once for each traveller (`labels_counted`).
//!
//! ```text
//! let traveller = Traveller::of(alloc, &world, 1)?;
//! let labels = labels_alone(alloc, &world, &[traveller])?;
//! if let Some(label) = labels.get(0, 2) {
//!     // #2 is reached at label.cost, through label.exits exits
//! }
//! ```
#![tactic(auto)]

mod alone;
mod board;
mod found;
mod frontier;
mod gate;
mod job;
pub mod laws;
pub mod limits;
mod part;
mod pool;
mod queue;
mod share;
mod shared;
mod slot;
mod steps;
mod task;
mod workers;

pub use alone::{labels_alone, labels_counted};
pub use found::Labels;
pub use frontier::Frontier;
pub use gate::{Gate, OpenGate};
pub use job::Job;
pub use share::last_share;
pub use shared::labels;
pub use slot::Slot;
pub use steps::Steps;
pub use task::{Put, Rest, Task};
