//! Sorted lists of numbers, one for each holder, and a case-insensitive map from texts to owners.
//!
//! [`Lists`] has a sorted list of numbers for each number: the contents of each object, the exits of each room, and so
//! on. A number without an entry has the empty list, so a failed allocation leaves equal lists. [`Owners`] maps a text,
//! ignoring ASCII case, to a number: the player with that name.
#![tactic(auto)]

mod lists;
mod numbers;
mod owners;

pub use lists::Lists;
pub use owners::Owners;
