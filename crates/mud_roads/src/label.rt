//! Steps and labels of walks.

/// The cost of a walk, and its number of exits. Labels are ordered by cost, then by exits.
#[derive(Clone, Copy, Debug, PartialEq, Eq, PartialOrd, Ord, Drop)]
pub struct Label {
    /// The sum of the costs of the exits.
    pub cost: u32,
    /// The number of exits, or 0 if only costs count.
    pub exits: u32,
}

/// An exit that is open to a player: its number, its destination, and its cost.
#[derive(Clone, Copy, Debug, PartialEq, Eq, Drop)]
pub struct Step {
    /// The number of the exit.
    pub exit: u32,
    /// The number of its destination, a room.
    pub to: u32,
    /// The cost, 0 to 10,000.
    pub cost: u32,
}
