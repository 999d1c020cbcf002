//! Follows places upwards: containment, and reach.

ghost use Rattle.std.specs.Prelude.{◌≡◌, IsTrue, ◌↔◌};
ghost use Rattle.mud_world.specs.State.{Within, within, comes_to};
ghost use Rattle.mud_world.specs.Legal.{shares_room, in_reach, InReach, is_offered};

use crate::world::World;

impl World {
    // Returns whether following places from one object gives the other.
    fn comes_to(&self, from: u32, to: u32) -> bool
        ensures { result ≡ comes_to self.now self.now.next from to }
    {
        let mut at = from;
        for _step in 0..self.next {
            if at == to {
                return true;
            }
            match self.place(at) {
                Some(place) => at = place,
                None => return false,
            }
        }
        false
    }

    /// Returns whether an object is the holder, or inside it at any depth (LambdaMOO Programmer's Manual, "Fundamental
    /// Object Attributes": contents). It makes one look-up for each place on the way up.
    pub fn holds(&self, holder: u32, object: u32) -> bool
        ensures holds { result ≡ within self.now object holder }
        ensures follows { IsTrue result ↔ Within self.now object holder }
    {
        // for the prover: the world is sound
        self.know_sound();
        self.exists(object) && self.comes_to(object, holder)
    }

    // Returns whether an object is in the actor's room.
    fn shares_room(&self, actor: u32, object: u32) -> bool
        ensures { result ≡ shares_room self.now actor object }
    {
        match self.place(actor) {
            Some(room) => self.is_in(object, room),
            None => false,
        }
    }

    // Tests reach by following places upwards.
    fn arrives(&self, actor: u32, object: u32) -> bool
        ensures { result ≡ in_reach self.now actor object }
    {
        let mut at = object;
        for _step in 0..self.next {
            let Some(place) = self.place(at) else {
                return false;
            };
            if place == actor || self.is_in(actor, place) {
                return true;
            }
            if !self.is_thing(place) {
                return false;
            }
            at = place;
        }
        false
    }

    /// Returns whether following places from the object, passing only things, arrives at the actor or at the actor's
    /// room. A thing that another player carries is out of reach.
    pub fn in_reach(&self, actor: u32, object: u32) -> bool
        ensures reach { result ≡ in_reach self.now actor object }
        ensures reaches { IsTrue result ↔ InReach self.now actor object }
    {
        // for the prover: the world is sound
        self.know_sound();
        self.arrives(actor, object)
    }

    // Returns whether the actor may put something into the object.
    pub(crate) fn is_offered(&self, actor: u32, to: u32) -> bool
        ensures { result ≡ is_offered self.now actor to }
    {
        to == actor
            || self.is_in(actor, to)
            || self.is_thing(to) && self.in_reach(actor, to)
            || self.is_player(to) && self.shares_room(actor, to)
    }
}
