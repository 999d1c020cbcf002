//! Changes of a world.

use crate::speech::Speech;
use mud_key::{Key, Name, Names};

/// The target of a dig.
#[derive(Drop)]
pub enum Target {
    /// A new room with these names.
    New(Names),
    /// The existing room with this number.
    Old(u32),
}

/// The names of an exit, and of the exit back if there is to be one.
#[derive(Drop)]
pub struct Doors {
    /// The names of the exit from the actor's room to the target.
    pub out: Names,
    /// The names of the exit back.
    pub back: Option<Names>,
}

/// The deed of an actor: one of twelve kinds of change (this project's profile, after the commands of LambdaCore).
/// docs/WORLD.md has a table with the refusals and the result of each.
pub enum Deed {
    /// Digs a new room, or an exit to an existing room: the target, and the names of the exits. A dig to an existing
    /// room has an exit; a new room may have none.
    Dig(Target, Option<Doors>),
    /// Makes a thing with these names, carried by the actor.
    Make(Names),
    /// Gives the object this key, in place of any earlier key.
    Lock { object: u32, key: Key },
    /// Removes the key of the object.
    Unlock { object: u32 },
    /// Moves the thing to a room, a player or a thing (LambdaMOO Programmer's Manual, "Object Movement").
    Move { thing: u32, to: u32 },
    /// Moves the actor to the destination of the exit, which leaves the actor's room.
    Walk { exit: u32 },
    /// Sets the cost of the exit, 0 to 10,000.
    Cost { exit: u32, cost: u32 },
    /// Adds a player with this name to the hall. The actor is the new player, with the next number.
    Player(Name),
    /// Gives the object these names.
    Rename { object: u32, names: Names },
    /// Removes the object (LambdaMOO Programmer's Manual, "Fundamental Operations on Objects": `recycle`).
    Recycle { object: u32 },
    /// The actor says a text. The world does not change.
    Say(Speech),
    /// The actor emotes a text. The world does not change.
    Emote(Speech),
}

// Written out, so that a proof about dropping a deed has one step instead of several for each kind.
impl Drop for Deed {
    fn drop(self) {
        match self {
            Deed::Dig(target, doors) => {
                drop(target);
                drop(doors);
            }
            Deed::Make(names) | Deed::Rename { object: _, names } => drop(names),
            Deed::Lock { object: _, key } => drop(key),
            Deed::Player(name) => drop(name),
            Deed::Say(speech) | Deed::Emote(speech) => drop(speech),
            Deed::Unlock { object: _ }
            | Deed::Move { thing: _, to: _ }
            | Deed::Walk { exit: _ }
            | Deed::Cost { exit: _, cost: _ }
            | Deed::Recycle { object: _ } => {}
        }
    }
}

/// A change: an actor and a deed.
#[derive(Drop)]
pub struct Change {
    /// The number of the acting player.
    pub actor: u32,
    /// The deed.
    pub deed: Deed,
}
