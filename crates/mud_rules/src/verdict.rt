//! The results of a line.

use crate::Party;
use mud_world::{Change, Refusal};

/// A question that [`show`](crate::show) answers.
#[derive(Drop)]
pub enum View {
    /// The player's room.
    Look,
    /// The object of this number.
    LookAt(u32),
    /// The things that lie directly in the player.
    Inventory,
    /// The key of the object of this number.
    KeyOf(u32),
    /// The version that the answer is about.
    Version,
    /// Leaving.
    Quit,
}

/// A journey that a player may ask for.
#[derive(Drop)]
pub enum Journey {
    /// The player's own journey to this room.
    Route { to: u32 },
    /// The journeys of these players to a meeting room.
    Meet(Party),
}

/// A question of a player. It changes nothing.
pub enum Query {
    /// A question about the world alone.
    View(View),
    /// A question for a journey.
    Journey(Journey),
    /// A question for the proof of a journey.
    Proof(Journey),
    /// A question for the history.
    History,
}

// Written out, so that a proof about dropping a question has one step instead of one for each kind.
impl Drop for Query {
    fn drop(self) {
        match self {
            Query::View(view) => drop(view),
            Query::Journey(journey) | Query::Proof(journey) => drop(journey),
            Query::History => {}
        }
    }
}

/// The meaning of a line.
#[derive(Drop)]
pub enum Verdict {
    /// A change that is legal in the given world.
    Change(Change),
    /// A question. Its room and its players are objects of the given world.
    Ask(Query),
    /// The session becomes this player's, a player of the given world.
    Become(u32),
    /// The refusal with the least number.
    Refused(Refusal),
}
