//! Simple queries about one or two objects.

ghost use Rattle.std.specs.Prelude.{◌≡◌};
ghost use Rattle.mud_world.specs.State.{exists, is_player, is_room, is_exit, is_thing, passage_of, is_number, place_of};
ghost use Rattle.mud_world.specs.Legal.{owns};
ghost use Rattle.mud_world.specs.inner.Fields.{leaves_from};

use crate::Passage;
use crate::world::World;

impl World {
    /// Returns whether an object has this number. A number that was never given names no object, and neither does the
    /// number of a recycled object (LambdaMOO Programmer's Manual, "Fundamental Operations on Objects": `valid`).
    pub fn exists(&self, number: u32) -> bool
        ensures { result ≡ exists self.now number }
    {
        self.get(number).is_some()
    }

    /// Returns whether the object exists and is a room.
    pub fn is_room(&self, number: u32) -> bool
        ensures { result ≡ is_room self.now number }
    {
        match self.get(number) {
            Some(record) => record.kind.is_room(),
            None => false,
        }
    }

    /// Returns whether the object exists and is an exit.
    pub fn is_exit(&self, number: u32) -> bool
        ensures { result ≡ is_exit self.now number }
    {
        match self.get(number) {
            Some(record) => record.kind.is_exit(),
            None => false,
        }
    }

    /// Returns whether the object exists and is a thing.
    pub fn is_thing(&self, number: u32) -> bool
        ensures { result ≡ is_thing self.now number }
    {
        match self.get(number) {
            Some(record) => record.kind.is_thing(),
            None => false,
        }
    }

    /// Returns whether the object exists and is a player (LambdaMOO Programmer's Manual, "Fundamental Operations on
    /// Objects": `is_player`).
    pub fn is_player(&self, number: u32) -> bool
        ensures { result ≡ is_player self.now number }
    {
        match self.get(number) {
            Some(record) => record.kind.is_player(),
            None => false,
        }
    }

    /// Returns the place of an object. Things and players have a place, rooms and exits have none (LambdaMOO
    /// Programmer's Manual, "Fundamental Object Attributes": location).
    pub fn place(&self, number: u32) -> Option<u32>
        ensures { result ≡ place_of self.now number }
    {
        self.get(number)?.kind.place()
    }

    /// Returns whether the object's place is this one.
    pub fn is_in(&self, object: u32, place: u32) -> bool
        ensures { result ≡ is_number place (place_of self.now object) }
    {
        match self.place(object) {
            Some(at) => at == place,
            None => false,
        }
    }

    /// Returns the ends and the cost of an exit, and `None` for any other object.
    pub fn passage(&self, number: u32) -> Option<Passage>
        ensures { result ≡ passage_of self.now number }
    {
        self.get(number)?.kind.passage()
    }

    // Returns whether the exit leaves the actor's room.
    pub(crate) fn leaves_from(&self, actor: u32, exit: u32) -> bool
        ensures { result ≡ leaves_from self.now actor exit }
    {
        match (self.place(actor), self.passage(exit)) {
            (Some(room), Some(passage)) => passage.source == room,
            _ => false,
        }
    }

    /// Returns whether the actor owns the object, or is #1, the only wizard (LambdaMOO Programmer's Manual,
    /// "Fundamental Object Attributes": owner, wizard).
    pub fn owns(&self, actor: u32, object: u32) -> bool
        ensures { result ≡ owns self.now actor object }
    {
        actor == 1
            || match self.get(object) {
                Some(record) => actor == record.owner,
                None => false,
            }
    }
}
