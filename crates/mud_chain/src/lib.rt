//! Decides whether a history continues another one: it begins with a shorter history of the same world.
//!
//! [`chain_of`] reads the bytes of two histories or journals, and returns the version of the second one at which it
//! continues the first one. [`is_same`] compares two worlds.
//!
//! Proved: the version is the least one whose world is the last world of the first history, among those that are no
//! longer than it. If there is no version, no such prefix leads to this world. Bytes without a world have the fault of
//! their definition.
#![tactic(auto)]

mod chain;
mod sameness;
mod searching;

pub use chain::{Chain, NoChain, chain_of};
pub use sameness::is_same;
