//! The world: objects, their places, the keys that lock them, and the twelve kinds of change.
//!
//! A [`World`] is a list of objects, sorted by number. It begins as `World::opening`, and only `World::apply` changes
//! it, by one legal [`Change`] at a time. So every world is sound (`IsSound` in specs/Sound.antt), and no call can make
//! an unsound one. docs/WORLD.md has the rules in plain words.
//!
//! | Calls | Result |
//! |---|---|
//! | `get`, `exists`, `is_room` and so on, `place`, `passage`, `owns` | the facts about one object |
//! | `contents`, `player_named` | the objects inside it; the player with a name |
//! | `leaving`, `arriving` | the exits that leave it; the exits that lead to it |
//! | `holds`, `carried`, `in_reach` | containment; everything inside an object; what an actor reaches |
//! | `unlocked`, `is_unlocked` | whether an object is unlocked for a holder, or for the holder with a number |
//! | `judge` | whether each object is unlocked for a holder, by an index of the keys (`KeyIndex`) |
//! | `legal` | the refusal with the least number, or none |
//! | `apply` | the world after a legal change |
//! | `copy` | an equal world |
//!
//! ```text
//! let mut world = World::opening(alloc)?;
//! let change = Change { actor: 1, deed: Deed::Make(Names::read(alloc, "box")?) };
//! if world.legal(&change).is_ok() {
//!     world.apply(&change)?;
//! }
//! ```
//!
//! Proved: each call returns the value of its definition; `apply` makes the world after the change, and leaves the
//! world unchanged if an allocation fails; every world is sound. The contracts of [`laws`] are the laws of the
//! definitions.
#![tactic(auto)]

mod apply;
mod askers;
mod change;
mod dig;
mod holding;
mod judged;
mod key_index;
pub mod laws;
mod legal;
pub mod limits;
mod links;
mod locks;
mod maps;
mod marks;
mod nesting;
mod questions;
mod reach;
mod record;
mod refusal;
mod slots;
mod speech;
mod world;

pub use change::{Change, Deed, Doors, Target};
pub use holding::Holding;
pub use key_index::KeyIndex;
pub use limits::MOST_COST;
pub use mud_key::limits::LAST_NUMBER;
pub use record::{Kind, Passage, Record};
pub use refusal::{Refusal, lesser, refused_if};
pub use speech::Speech;
pub use world::World;
