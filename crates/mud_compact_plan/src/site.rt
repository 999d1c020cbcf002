//! A world that is built: the places of players and things, and the acts so far.

use crate::column::{Column, Lists};
use crate::erasing::Eraser;
use crate::makings::{Making, Numbers, Work};
use crate::nests::Nests;
use crate::packs::Packs;
use crate::queues::Queues;
use crate::roads::{Heading, NONE, Roads, Tree};
use crate::stops::{Delivery, Stop};
use crate::story::{FIRST, Story};
use crate::unbuilt::Unbuilt;
use mud_world::World;
use std::alloc::Global;

// The number of rooms that a search for a shorter walk may look at, and how many more for each step of the known walk.
const FEW_LOOKS: usize = 64;

const LOOKS_A_STEP: usize = 16;

// The fewest exits of a walk for which a shorter one is searched.
const LONG: usize = 3;

/// An act.
#[derive(Clone, Copy)]
pub(crate) enum Act {
    Make(Making),
    Walk { player: u32, exit: u32 },
    Move { actor: u32, thing: u32, to: u32 },
    Recycle { object: u32 },
}

// The last stop of a player.
#[derive(Clone, Copy)]
struct Halt {
    room: u32,
    // before the entry of this time
    time: usize,
}

// The state of a parcel.
enum Parceled {
    // It is not made yet.
    Unmade,
    // Its maker has it.
    Kept,
    // It is in its room, or was given away.
    Left,
}

/// A world that is built.
pub(crate) struct Site<'a> {
    pub(crate) alloc: Global,
    pub(crate) story: &'a Story,
    pub(crate) goal: &'a World,
    pub(crate) nests: &'a Nests,
    pub(crate) numbers: &'a Numbers<'a>,
    pub(crate) packs: &'a Packs,
    pub(crate) stops: &'a Lists<Stop>,
    pub(crate) roads: Roads,
    eraser: Eraser,
    tree: Tree,
    /// The room of each player.
    pub(crate) rooms: Column<u32>,
    /// The place of each thing, or `NONE` before it is made.
    pub(crate) places: Column<u32>,
    // true if a thing that belongs in a room, at any depth, has come to its place
    settled: Column<bool>,
    // at the place of a player's first parcel for a room: how many of these are delivered, from the first on
    delivered: Vec<usize>,
    // the things that wait on the floor for the thing around them, or for the player to whom they go
    waiting: Queues,
    halts: Column<Halt>,
    passed: Column<usize>,
    // the next number
    next: u32,
    pub(crate) acts: Vec<Act>,
}

// Written out, so that a proof about dropping a site has one step instead of one for each list.
impl Drop for Site<'_> {
    fn drop(self) {
        let Site {
            alloc: _,
            story: _,
            goal: _,
            nests: _,
            numbers: _,
            packs: _,
            stops: _,
            roads,
            eraser,
            tree,
            rooms,
            places,
            settled,
            delivered,
            waiting,
            halts,
            passed,
            next: _,
            acts,
        } = self;
        drop(roads);
        drop(eraser);
        drop(tree);
        drop(rooms);
        drop(places);
        drop(settled);
        drop(delivered);
        drop(waiting);
        drop(halts);
        drop(passed);
        drop(acts);
    }
}

impl<'a> Site<'a> {
    pub(crate) fn new(
        alloc: Global,
        goal: &'a World,
        nests: &'a Nests,
        numbers: &'a Numbers<'a>,
        packs: &'a Packs,
        stops: &'a Lists<Stop>,
    ) -> Result<Site<'a>, Unbuilt> {
        let story = numbers.story;
        let count = story.count;
        let halt = Halt { room: 0, time: 0 };
        let mut delivered = Vec::new(alloc);
        delivered.resize(packs.count_parcels(), 0)?;
        Ok(Site {
            alloc,
            story,
            goal,
            nests,
            numbers,
            packs,
            stops,
            roads: Roads::new(alloc, count)?,
            eraser: Eraser::new(alloc, count)?,
            tree: Tree::new(alloc, Heading::Back, count)?,
            rooms: Column::new(alloc, count, 0)?,
            places: Column::new(alloc, count, NONE)?,
            settled: Column::new(alloc, count, false)?,
            delivered,
            waiting: Queues::new(alloc, count)?,
            halts: Column::new(alloc, count, halt)?,
            passed: Column::new(alloc, count, 0)?,
            next: FIRST,
            acts: Vec::new(alloc),
        })
    }

    // Returns the player's final room.
    fn home(&self, player: u32) -> u32 {
        self.goal.place(player).unwrap_or(0)
    }

    /// Returns the thing's final place.
    pub(crate) fn place(&self, thing: u32) -> u32 {
        self.goal.place(thing).unwrap_or(0)
    }

    /// Has the actor move the thing. Both the thing and its target are in reach.
    pub(crate) fn carry(&mut self, actor: u32, thing: u32, to: u32) -> Result<(), Unbuilt> {
        self.acts.push(Act::Move { actor, thing, to })?;
        self.places.set(thing, to);
        Ok(())
    }

    /// Has the maker pack the thing, each of its contents before the one around it.
    pub(crate) fn pack(&mut self, maker: u32, top: u32) -> Result<(), Unbuilt> {
        for inner in self.packs.inner(top) {
            if self.places.get(inner.thing) == maker {
                let place = self.place(inner.thing);
                self.carry(maker, inner.thing, place)?;
            }
        }
        Ok(())
    }

    // Returns the exits from the player's last stop to a room, before an entry: the walk of the history without its
    // cycles, or a shorter one.
    fn exits_to(&mut self, player: u32, room: u32, until: usize) -> Result<Vec<u32>, Unbuilt> {
        let halt = self.halts.get(player);
        let steps = self.story.steps_between(player, halt.time, until);
        let exits = self.eraser.erase(self.story, halt.room, steps)?;
        if exits.len() < LONG {
            return Ok(exits);
        }
        let looks = FEW_LOOKS.saturating_add(LOOKS_A_STEP.saturating_mul(steps.len()));
        self.roads.grow(&mut self.tree, room, halt.room, looks)?;
        if !self.tree.has(halt.room) {
            return Ok(exits);
        }
        let way = self.roads.exits_inwards(&self.tree, halt.room)?;
        Ok(if way.len() < exits.len() { way } else { exits })
    }

    /// Has the player walk through these exits, and leave their parcels in each room.
    pub(crate) fn walk(&mut self, player: u32, exits: &[u32]) -> Result<(), Unbuilt> {
        for exit in exits {
            self.leave_parcels(player)?;
            self.acts.push(Act::Walk {
                player,
                exit: *exit,
            })?;
            self.rooms.set(player, self.roads.destination(*exit));
        }
        Ok(())
    }

    // Has the player leave their parcels in this room, as far as their contents are complete.
    fn leave_parcels(&mut self, player: u32) -> Result<(), Unbuilt> {
        let (start, count) = self.packs.parcels(player, self.rooms.get(player));
        let Some(mut done) = self.delivered.get(start).copied() else {
            return Ok(());
        };
        for place in done..count {
            match self.leave_parcel(player, start.saturating_add(place))? {
                Parceled::Unmade => break,
                Parceled::Kept => {}
                Parceled::Left if place == done => done = place.saturating_add(1),
                Parceled::Left => {}
            }
        }
        if let Some(delivered) = self.delivered.get_mut(start) {
            *delivered = done;
        }
        Ok(())
    }

    // Has the player leave a parcel in this room, if they have it and its contents are complete.
    fn leave_parcel(&mut self, player: u32, place: usize) -> Result<Parceled, Unbuilt> {
        let Some(parcel) = self.packs.parcel(place) else {
            return Ok(Parceled::Left);
        };
        let thing = parcel.thing;
        match self.places.get(thing) {
            NONE => Ok(Parceled::Unmade),
            holder if holder != player => Ok(Parceled::Left),
            _ if self.packs.ready.get(thing) >= self.next => Ok(Parceled::Kept),
            _ => {
                self.pack(player, thing)?;
                self.arrive(player, thing)?;
                Ok(Parceled::Left)
            }
        }
    }

    /// Has the actor bring the thing to its place. The actor is in its room, or in a room to which the player comes for
    /// whom it is. The thing waits, if its place is not there yet.
    pub(crate) fn arrive(&mut self, actor: u32, thing: u32) -> Result<(), Unbuilt> {
        let root = self.nests.roots.get(thing);
        if self.story.is_player(root) {
            return self.arrive_at(actor, thing, root);
        }
        let place = self.place(thing);
        if place == root || self.settled.get(place) {
            self.carry(actor, thing, place)?;
            return self.settle(actor, thing);
        }
        if self.places.get(thing) != root {
            self.carry(actor, thing, root)?;
        }
        self.waiting.push(place, thing);
        Ok(())
    }

    // Has the actor bring the thing to the player, or leave it in the room to which the player comes.
    fn arrive_at(&mut self, actor: u32, thing: u32, player: u32) -> Result<(), Unbuilt> {
        let room = self.rooms.get(actor);
        if self.rooms.get(player) != room {
            self.waiting.push(player, thing);
            return self.carry(actor, thing, room);
        }
        if self.places.get(thing) != player {
            self.carry(actor, thing, player)?;
        }
        Ok(())
    }

    // Notes that the thing has come to its place. The actor puts into it, and into its contents, what waits for these.
    fn settle(&mut self, actor: u32, thing: u32) -> Result<(), Unbuilt> {
        let mut open = Vec::new(self.alloc);
        open.push(thing)?;
        for _ in 0..self.story.count {
            let Some(at) = open.pop() else {
                break;
            };
            self.settled.set(at, true);
            self.put_waiting(actor, at)?;
            self.add_contents(at, &mut open)?;
        }
        Ok(())
    }

    // Has the actor put into the thing what waits for it.
    fn put_waiting(&mut self, actor: u32, thing: u32) -> Result<(), Unbuilt> {
        let waiting = self.waiting.take(self.alloc, thing)?;
        for other in waiting.iter() {
            self.carry(actor, *other, thing)?;
        }
        Ok(())
    }

    // Adds the contents of the thing that are in their place.
    fn add_contents(&self, thing: u32, open: &mut Vec<u32>) -> Result<(), Unbuilt> {
        for inner in self.goal.contents(thing) {
            if self.places.get(*inner) == thing {
                open.push(*inner)?;
            }
        }
        Ok(())
    }

    // Has the player, who has come home, leave the parcels for the room, and take what waits for them.
    fn come_home(&mut self, player: u32) -> Result<(), Unbuilt> {
        self.leave_parcels(player)?;
        let waiting = self.waiting.take(self.alloc, player)?;
        for thing in waiting.iter() {
            self.arrive(player, *thing)?;
        }
        Ok(())
    }

    /// Has the player go home.
    pub(crate) fn go_home(&mut self, player: u32) -> Result<(), Unbuilt> {
        let exits = self.exits_to(player, self.home(player), self.story.end)?;
        self.walk(player, &exits)?;
        self.come_home(player)
    }

    // Has the player come to their next stop, which is before the entry of this time.
    fn come(&mut self, player: u32, time: usize) -> Result<(), Unbuilt> {
        let place = self.passed.get(player);
        let stop = match self.stops.get(player).get(place) {
            Some(stop) if stop.time == time => *stop,
            _ => return Err(Unbuilt::GivenUp),
        };
        self.passed.set(player, place.saturating_add(1));
        let exits = self.exits_to(player, stop.room, time)?;
        self.walk(player, &exits)?;
        let room = stop.room;
        self.halts.set(player, Halt { room, time });
        Ok(())
    }

    /// Has a player move a hauled thing.
    pub(crate) fn haul(&mut self, step: Delivery) -> Result<(), Unbuilt> {
        let Delivery {
            actor,
            thing,
            to,
            ..
        } = step;
        self.come(actor, step.time)?;
        if self.story.is_player(to) && to != actor {
            self.come(to, step.time)?;
        }
        if self.places.get(thing) == actor && self.story.origin(thing).maker == actor {
            self.pack(actor, thing)?;
        }
        if to == self.nests.roots.get(thing) {
            return self.arrive(actor, thing);
        }
        self.carry(actor, thing, to)
    }

    /// Makes objects.
    pub(crate) fn make(&mut self, making: Making) -> Result<(), Unbuilt> {
        if making.room.is_some() {
            self.come(making.actor, making.time)?;
        }
        self.acts.push(Act::Make(making))?;
        self.open(making)?;
        self.next = making.first.saturating_add(making.count);
        self.recycle_spares(making)
    }

    // Notes the objects of a making.
    fn open(&mut self, making: Making) -> Result<(), Unbuilt> {
        let here = self.rooms.get(making.actor);
        let first = making.first;
        match making.work {
            Work::Thing => self.places.set(first, making.actor),
            Work::Player => {
                let time = making.time;
                self.halts.set(first, Halt { room: 0, time });
            }
            Work::Room => {
                let exits = making.count.saturating_sub(1);
                self.join(first.saturating_add(1), exits, here, first)?;
            }
            Work::Exit => {
                let there = self.story.origin(first).destination;
                self.join(first, making.count, here, there)?;
            }
            Work::Spare => {}
        }
        Ok(())
    }

    // Adds up to two exits: there, and back.
    fn join(&mut self, first: u32, count: u32, here: u32, there: u32) -> Result<(), Unbuilt> {
        if count > 0 {
            self.roads.add(first, here, there)?;
        }
        if count > 1 {
            self.roads.add(first.saturating_add(1), there, here)?;
        }
        Ok(())
    }

    // Recycles spare objects, the exits before the room, unless a key of the final world names one.
    fn recycle_spares(&mut self, making: Making) -> Result<(), Unbuilt> {
        if making.work != Work::Spare || self.is_named(making) {
            return Ok(());
        }
        for back in 1..=making.count {
            let object = making
                .first
                .saturating_add(making.count)
                .saturating_sub(back);
            self.acts.push(Act::Recycle { object })?;
        }
        Ok(())
    }

    // Returns whether a key of the final world names one of the objects.
    fn is_named(&self, making: Making) -> bool {
        for place in 0..making.count {
            if self.numbers.named.get(making.first.saturating_add(place)) {
                return true;
            }
        }
        false
    }
}
