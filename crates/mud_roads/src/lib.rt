//! Travellers, the roads that are open to them, and the definitions of least walks, routes and meetings.
//!
//! | Call | Result |
//! |---|---|
//! | [`Traveller::of`] | a player of a world, with everything that is unlocked for the player |
//! | [`Traveller::follow`] | the same traveller after talk or a walk of any player |
//! | [`Traveller::passes`] | whether an exit is open to the traveller |
//! | [`Traveller::step_by`] | the step of an exit, if it is open to the traveller |
//! | [`Traveller::leave`] | the open exits of a room, sorted by number |
//! | [`Traveller::steps_from`] | the same, as computed before; it does not allocate |
//!
//! specs/Walks.antt defines walks without labels, queues or searches, so the guide and the checker of its answers share
//! one meaning. The contracts of [`laws`] are the laws of the definitions. docs/ROADS.md has the rules in plain words.
//!
//! ```text
//! let traveller = Traveller::of(alloc, &world, 1)?;
//! for step in traveller.steps_from(0) {
//!     // step.exit leads from #0 to step.to, at step.cost
//! }
//! ```
#![tactic(auto)]

mod access;
mod label;
pub mod laws;
mod table;
mod traveller;

pub use label::{Label, Step};
pub use traveller::Traveller;
