//! Differences between two worlds.

/// A field in which an object differs between an old world and a new one (docs/KEEPING.md, "Diff").
#[derive(Clone, Copy, Debug, PartialEq, Eq)]
pub enum What {
    /// Only the new world has it.
    Added,
    /// Only the old world has it.
    Removed,
    /// Its names.
    Names,
    /// Its owner.
    Owner,
    /// Its kind: a room, an exit, a thing or a player.
    Kind,
    /// The place of a thing or a player.
    Place,
    /// Returns the source of an exit.
    Source,
    /// Returns the destination of an exit.
    Destination,
    /// Returns the cost of an exit.
    Cost,
    /// Its key.
    Key,
}

/// A difference of two worlds: the number of an object, and the field in which it differs.
#[derive(Clone, Copy, Debug, PartialEq, Eq)]
pub struct Difference {
    /// The number of the object.
    pub number: u32,
    /// The field.
    pub what: What,
}
