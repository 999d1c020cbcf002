//! Travellers.

ghost use Rattle.std.specs.Prelude.{◌≡◌, ◌&&◌, map, if◌then◌else◌, IfOk, OnOk, OnErr, IsTrue};
ghost use Rattle.std.specs.Option.{option_map_or};
ghost use Rattle.mud_world.specs.State.{State, exists, is_player, place_of, passage_of};
ghost use Rattle.mud_world.specs.KeyIndex.{IsKeyIndex};
ghost use Rattle.mud_world.specs.Sound.{IsSound};
ghost use Rattle.mud_world.specs.History.{step_or_same};
ghost use Rattle.mud_roads.specs.Passable.{passable, open_step, roads_of, known_roads, keeps_locks};
ghost use Rattle.mud_roads.specs.Passable.{IsTraveller, IsFollower};
ghost use Rattle.mud_roads.specs.inner.Growing.{heeding, moved_to, forgetting, adjusted, IsGrown};
ghost use Rattle.mud_roads.specs.inner.Tables.{costing};

use crate::Step;
use crate::access::Access;
use crate::table::Table;
use mud_world::{Change, Deed, KeyIndex, World};
use std::alloc::{AllocError, Global};
use std::marker::Model;

/// A player of a world, with its place and everything that is open to it. A traveller is a snapshot of one world, and
/// follows each later change. After a change that may open or close something that was there, it is
/// no longer current, until it is refreshed. Making one evaluates each key of the world once, and each exit once.
/// Following a change evaluates new objects only. Refreshing one evaluates the keys, and the exits only if something
/// was opened or closed.
pub struct Traveller {
    access: Access,
    place: u32,
    is_current: bool,
    keys: KeyIndex,
    roads: Table,
}

// Written out, so that a proof about dropping a traveller has one step instead of one for each list.
impl Drop for Traveller {
    fn drop(self) {
        let Traveller {
            access,
            place: _,
            is_current: _,
            keys,
            roads,
        } = self;
        drop(access);
        drop(keys);
        drop(roads);
    }
}

impl Model for Traveller {
    ghost use Rattle.mud_roads.specs.Passable.{Knowledge, knowledge_of, knowledge_code};

    ghost Value = { Knowledge };

    ghost coded = { knowledge_code };

    ghost view = { λ t. knowledge_of t.access.player t.place t.is_current t.keys t.access.marks.items t.roads };
}

// Returns whether a change opens and closes nothing that was there.
fn keeps_locks(change: &Change) -> bool
    ensures { result ≡ keeps_locks change.now.deed }
{
    !matches!(
        &change.deed,
        Deed::Lock { .. } | Deed::Unlock { .. } | Deed::Move { .. } | Deed::Recycle { .. }
    )
}

impl Traveller {
    /// Returns this player as a traveller. The only error is out of memory.
    pub fn of(alloc: Global, world: &World, player: u32) -> Result<Traveller, AllocError>
        requires { IsTrue (is_player world.now player) }
        ensures traveller { IfOk result (IsTraveller world.now) }
        ensures keys { IfOk result (λ t. IsKeyIndex world.now t.keys) }
        ensures player { IfOk result (λ t. t.player ≡ player) }
        ensures current { IfOk result (λ t. IsTrue t.current) }
    {
        let keys = KeyIndex::of(alloc, world)?;
        let access = Access::of(alloc, world, &keys, player)?;
        let roads = access.roads(alloc, world)?;
        match world.place(player) {
            Some(place) => Ok(Traveller {
                access,
                place,
                is_current: true,
                keys,
                roads,
            }),
            None => unreachable!(),
        }
    }

    /// Returns the number of the player.
    pub fn player(&self) -> u32
        ensures { result ≡ self.now.player }
    {
        self.access.player
    }

    /// Returns whether no change that the traveller followed may have opened or closed something.
    pub fn is_current(&self) -> bool
        ensures { result ≡ self.now.current }
    {
        self.is_current
    }

    /// Follows a change. `world` is the world after the change. The only error is out of memory; then nothing is known
    /// of the traveller but its player.
    pub fn follow(&mut self, world: &World, change: &Change) -> Result<(), AllocError>
        ensures player { self.new.player ≡ self.old.player }
        ensures current { OnOk result (self.new.current ≡ (self.old.current && keeps_locks change.now.deed)) }
        ensures follower { (was : State) → IsSound was → IsFollower was self.old
            → world.now ≡ step_or_same was change.now → OnOk result (IsFollower world.now self.new) }
    {
        self.heed(change);
        self.move_along(world);
        self.adjust(world, change);
        self.follow_keys(world, change)?;
        self.grow(world)
    }

    /// Makes the traveller current. It looks at each exit again only if something was opened or closed. The only error
    /// is out of memory; the traveller stays as it was then.
    pub fn refresh(&mut self, alloc: Global, world: &World) -> Result<(), AllocError>
        requires { IsFollower world.now self.old }
        ensures player { self.new.player ≡ self.old.player }
        ensures current { OnOk result (IsTrue self.new.current) }
        ensures traveller { OnOk result (IsTraveller world.now self.new) }
        ensures keys { self.new.keys ≡ self.old.keys }
        ensures err { OnErr result (self.new ≡ self.old) }
    {
        if self.is_current {
            return Ok(());
        }
        let access = Access::of(alloc, world, &self.keys, self.access.player)?;
        if !self.access.has_marks_of(&access) {
            self.roads = access.roads(alloc, world)?;
        }
        self.access = access;
        self.is_current = true;
        Ok(())
    }

    // Notes whether a change may open or close something.
    fn heed(&mut self, change: &Change)
        ensures { self.new ≡ heeding change.now.deed self.old }
    {
        self.is_current = self.is_current && keeps_locks(change);
    }

    // Follows the player to its place.
    fn move_along(&mut self, world: &World)
        ensures { self.new ≡ moved_to self.old (place_of world.now self.old.player) }
    {
        if let Some(place) = world.place(self.access.player) {
            self.place = place;
        }
    }

    // Takes over the cost of an exit, or drops an object, if the change sets the one or recycles the other.
    fn adjust(&mut self, world: &World, change: &Change)
        ensures { self.new ≡ adjusted world.now change.now.deed self.old }
    {
        match &change.deed {
            Deed::Cost { exit, .. } => self.take_cost(world, *exit),
            Deed::Recycle { object } => self.drop_object(world, *object),
            _ => {}
        }
    }

    // Takes over the cost that an exit has.
    fn take_cost(&mut self, world: &World, exit: u32)
        ensures { self.new ≡ option_map_or
            (λ a. record self.old { rows = map (map (costing exit a.cost)) self.old.rows }) (passage_of world.now exit)
            self.old }
    {
        if let Some(passage) = world.passage(exit) {
            self.roads.set_cost(exit, passage.cost);
        }
    }

    // Drops an object, if it is gone.
    fn drop_object(&mut self, world: &World, object: u32)
        ensures { self.new ≡ (if exists world.now object then self.old else forgetting object self.old) }
    {
        if !world.exists(object) {
            self.access.unmark(object);
            self.roads.remove(object);
        }
    }

    // Has the index of keys follow a change. An error leaves the player as it was.
    fn follow_keys(&mut self, world: &World, change: &Change) -> Result<(), AllocError>
        ensures player { self.new.player ≡ self.old.player }
        ensures rest { OnOk result (self.new ≡ record self.old { keys = self.new.keys }) }
        ensures keys { (was : State) → IsSound was → IsKeyIndex was self.old.keys
            → world.now ≡ step_or_same was change.now → OnOk result (IsKeyIndex world.now self.new.keys) }
    {
        self.keys.follow(world, change)
    }

    // Learns of the objects that the world has beyond the marked ones. An error leaves the player as it was.
    fn grow(&mut self, world: &World) -> Result<(), AllocError>
        ensures player { self.new.player ≡ self.old.player }
        ensures keys { self.new.keys ≡ self.old.keys }
        ensures grown { OnOk result (IsGrown world.now self.old self.new) }
    {
        let known = self.access.count();
        self.access.grow(world)?;
        self.roads
            .grow_by((world.next_number() as usize).saturating_sub(known))?;
        self.access.add_exits(world, known, &mut self.roads)
    }

    /// Returns the room where the traveller stands.
    pub fn place(&self) -> u32
        ensures { result ≡ self.now.place }
    {
        self.place
    }

    /// Returns whether the number is an exit that is open to the traveller: the exit and its destination are unlocked
    /// for the player. The place of the player does not matter. The traveller must be of this world.
    pub fn passes(&self, world: &World, exit: u32) -> bool
        requires { IsTraveller world.now self.now }
        ensures { result ≡ passable world.now self.now.player exit }
    {
        self.access.passes(world, exit)
    }

    /// Returns the step of an exit, if it is open to the traveller. The traveller must be of this world.
    pub fn step_by(&self, world: &World, exit: u32) -> Option<Step>
        requires { IsTraveller world.now self.now }
        ensures { result ≡ open_step world.now self.now.player exit }
    {
        self.access.step_by(world, exit)
    }

    /// Returns the open exits that leave a room, sorted by number. The traveller must be of this world. The only error
    /// is out of memory.
    pub fn leave(&self, alloc: Global, world: &World, room: u32) -> Result<Vec<Step>, AllocError>
        requires { IsTraveller world.now self.now }
        ensures { IfOk result (λ steps. steps.items ≡ roads_of world.now self.now.player room) }
    {
        let exits = world.leaving(room);
        let mut steps = Vec::with_capacity(alloc, exits.len())?;
        self.access.add_steps(world, room, &mut steps)?;
        Ok(steps)
    }

    /// Returns the open exits that leave a room, as they were when the traveller was made. It neither allocates nor
    /// looks at the world.
    pub fn steps_from(&self, room: u32) -> &[Step]
        ensures { result.now ≡ known_roads self.now room }
    {
        self.roads.row(room)
    }
}
