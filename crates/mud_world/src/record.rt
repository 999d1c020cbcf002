//! The record of an object.

ghost use Rattle.std.specs.Prelude.{◌≡◌};
ghost use Rattle.mud_world.specs.Kinds.{kind_costing, kind_needs, kind_at, kind_place, kind_passage, is_room_kind};
ghost use Rattle.mud_world.specs.Kinds.{is_exit_kind, is_thing_kind, is_player_kind};

use mud_key::{Key, Names};

/// The two ends of an exit, and the cost of walking through it.
#[derive(Clone, Copy, Debug, PartialEq, Eq)]
pub struct Passage {
    /// The room that the exit leaves.
    pub source: u32,
    /// The room that the exit leads to.
    pub destination: u32,
    /// The cost, 0 to 10,000; 1 at first.
    pub cost: u32,
}

/// The kind of an object, with its place or its ends (this project's profile; place is the location of the LambdaMOO
/// Programmer's Manual, "Fundamental Object Attributes").
#[derive(Clone, Copy, Debug, PartialEq, Eq)]
pub enum Kind {
    /// A room contains players and things.
    Room,
    /// An exit leads from a room to a room.
    Exit(Passage),
    /// A thing lies in a room, a player or a thing.
    Thing { place: u32 },
    /// A player stands in a room.
    Player { place: u32 },
}

impl Kind {
    /// Returns the place of a thing or a player; rooms and exits have none.
    pub fn place(self) -> Option<u32>
        ensures { result ≡ kind_place self }
    {
        match self {
            Kind::Thing { place } | Kind::Player { place } => Some(place),
            Kind::Room | Kind::Exit(_) => None,
        }
    }

    /// Returns the kind moved to this place. A room or an exit has no place, and is returned unchanged.
    pub fn at(self, place: u32) -> Kind
        ensures { result ≡ kind_at place self }
    {
        match self {
            Kind::Room => Kind::Room,
            Kind::Exit(passage) => Kind::Exit(passage),
            Kind::Thing { .. } => Kind::Thing { place },
            Kind::Player { .. } => Kind::Player { place },
        }
    }

    /// Returns the kind with this cost if it is an exit, and unchanged otherwise.
    pub fn with_cost(self, cost: u32) -> Kind
        ensures { result ≡ kind_costing cost self }
    {
        match self {
            Kind::Room => Kind::Room,
            Kind::Exit(passage) => Kind::Exit(Passage { cost, ..passage }),
            Kind::Thing { place } => Kind::Thing { place },
            Kind::Player { place } => Kind::Player { place },
        }
    }

    /// Returns whether an object of this kind lies in the object, or has it as an end.
    pub fn needs(self, number: u32) -> bool
        ensures { result ≡ kind_needs number self }
    {
        match self {
            Kind::Room => false,
            Kind::Exit(passage) => number == passage.source || number == passage.destination,
            Kind::Thing { place } | Kind::Player { place } => number == place,
        }
    }

    /// Returns the ends and the cost of an exit; other kinds have none.
    pub fn passage(self) -> Option<Passage>
        ensures { result ≡ kind_passage self }
    {
        match self {
            Kind::Exit(passage) => Some(passage),
            Kind::Room | Kind::Thing { .. } | Kind::Player { .. } => None,
        }
    }

    /// Returns whether it is a room.
    pub fn is_room(self) -> bool
        ensures { result ≡ is_room_kind self }
    {
        matches!(self, Kind::Room)
    }

    /// Returns whether it is an exit.
    pub fn is_exit(self) -> bool
        ensures { result ≡ is_exit_kind self }
    {
        matches!(self, Kind::Exit(_))
    }

    /// Returns whether it is a thing.
    pub fn is_thing(self) -> bool
        ensures { result ≡ is_thing_kind self }
    {
        matches!(self, Kind::Thing { .. })
    }

    /// Returns whether it is a player.
    pub fn is_player(self) -> bool
        ensures { result ≡ is_player_kind self }
    {
        matches!(self, Kind::Player { .. })
    }
}

/// The record of an object (LambdaMOO Programmer's Manual, "Fundamental Object Attributes"; the key is this project's
/// profile).
#[derive(Drop)]
pub struct Record {
    /// 1 to 4 names; the first is shown.
    pub names: Names,
    /// The number of the player who made the object. A player owns itself.
    pub owner: u32,
    /// The kind, with its place or its ends.
    pub kind: Kind,
    /// The key that locks the object; a player has none.
    pub key: Option<Key>,
}
