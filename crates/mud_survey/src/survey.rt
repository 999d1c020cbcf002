//! The findings of a survey.

/// A player in a room that the player reaches, and from which no walk of the player leads to #0.
#[derive(Clone, Copy, Debug, PartialEq, Eq)]
pub struct Stranded {
    /// The number of the player.
    pub player: u32,
    /// The number of the room.
    pub room: u32,
}

/// The findings in a world for some of its players (docs/KEEPING.md, "Survey"). Numbers rise in each list.
#[derive(Debug, Drop)]
pub struct Survey {
    /// Rooms to which no walk of these players leads.
    pub rooms: Vec<u32>,
    /// Exits through which no walk of these players goes.
    pub exits: Vec<u32>,
    /// Exits without an exit back, open or not.
    pub one_way: Vec<u32>,
    /// Players in rooms that they reach, without a way back to #0.
    pub no_way_back: Vec<Stranded>,
    /// Objects whose keys name an object that is gone.
    pub keys: Vec<u32>,
    /// Things that lie where none of these players comes, and that none of them has.
    pub things: Vec<u32>,
}
