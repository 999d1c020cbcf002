//! The reasons why a task is refused.

use thiserror::Error;

/// The reason why a task is refused, although its files could be read.
#[derive(Clone, Copy, Debug, Error)]
pub enum Refused<'a> {
    /// The word means no player, or several.
    #[error("no such player: {0}")]
    Player(&'a str),
    /// The word means no room, or several.
    #[error("no such room: {0}")]
    Room(&'a str),
    /// The history has no change of the first number; the second number is the count of its changes.
    #[error("no change {0}, the history has {1}")]
    Change(u32, usize),
    /// The change of this version is not legal without the changes that are left out. The second number is its line.
    #[error("change {0}, line {1}, needs a change that is left out")]
    StandsOn(u32, u32),
    /// The rest has more changes than a history holds.
    #[error("the rest has more than 65536 changes")]
    TooLong,
    /// The search found no lines that build the world.
    #[error("no lines are found")]
    Untyped,
    /// The key of the first object names the second, which is not built.
    #[error("the key of #{0} names #{1}, which is not built")]
    Names(u32, u32),
    /// No world has the numbers of the start, or none is left there for the last object.
    #[error("the numbers of --here and --next do not fit")]
    Start,
}
