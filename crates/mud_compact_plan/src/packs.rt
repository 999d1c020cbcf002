//! The things that travel in others, and those that travel alone.

use crate::column::Column;
use crate::nests::Nests;
use crate::story::Story;
use mud_world::World;
use std::alloc::{AllocError, Global};

/// A thing that travels in others, and the outermost of these, which is carried.
#[derive(Clone, Copy)]
pub(crate) struct Inner {
    pub(crate) top: u32,
    pub(crate) thing: u32,
}

/// A thing that its maker leaves in its room on the way.
#[derive(Clone, Copy)]
pub(crate) struct Parcel {
    pub(crate) maker: u32,
    pub(crate) room: u32,
    pub(crate) thing: u32,
}

/// The things that are packed in others.
#[derive(Drop)]
pub(crate) struct Packs {
    /// True if its maker puts the thing in its place, which is another of their things.
    pub(crate) packed: Column<bool>,
    /// For each thing the outermost one in which its maker puts it, or the thing itself.
    pub(crate) tops: Column<u32>,
    /// The highest number of a thing and of its packed contents.
    pub(crate) ready: Column<u32>,
    /// The packed things, sorted by top, and each before the one around it.
    inner: Vec<Inner>,
    /// The things in rooms that are not packed, sorted by maker and room.
    parcels: Vec<Parcel>,
}

/// The things that travel in another way than on the walks of their makers.
#[derive(Drop)]
pub(crate) struct Special {
    /// Hauled things, which are not packed in others.
    pub(crate) hauled: Column<bool>,
    /// Things in which others are not packed.
    pub(crate) opened: Column<bool>,
}

// Returns the larger of two numbers.
fn larger(number: u32, other: u32) -> u32 {
    if number < other { other } else { number }
}

impl Packs {
    // Returns packs without a thing.
    fn empty(alloc: Global, count: u32) -> Result<Packs, AllocError> {
        Ok(Packs {
            packed: Column::new(alloc, count, false)?,
            tops: Column::new(alloc, count, 0)?,
            ready: Column::new(alloc, count, 0)?,
            inner: Vec::new(alloc),
            parcels: Vec::new(alloc),
        })
    }

    // Notes whether the thing is packed, after the one around it.
    fn note(&mut self, story: &Story, world: &World, special: &Special, thing: u32) {
        let place = world.place(thing).unwrap_or(0);
        let is_packed = world.is_thing(place)
            && !special.hauled.get(thing)
            && !special.opened.get(place)
            && story.origin(place).maker == story.origin(thing).maker;
        let top = if is_packed {
            self.tops.get(place)
        } else {
            thing
        };
        self.packed.set(thing, is_packed);
        self.tops.set(thing, top);
    }

    fn note_all(&mut self, story: &Story, world: &World, special: &Special, things: &[u32]) {
        for thing in things {
            self.note(story, world, special, *thing);
        }
    }

    // Adds a thing, after its contents.
    fn add_inner(&mut self, world: &World, thing: u32) -> Result<(), AllocError> {
        let ready = larger(self.ready.get(thing), thing);
        self.ready.set(thing, ready);
        if self.packed.get(thing) {
            let place = world.place(thing).unwrap_or(0);
            self.ready.set(place, larger(self.ready.get(place), ready));
            let top = self.tops.get(thing);
            self.inner.push(Inner { top, thing })?;
        }
        Ok(())
    }

    fn add_all_inner(&mut self, world: &World, things: &[u32]) -> Result<(), AllocError> {
        for thing in things.iter().rev() {
            self.add_inner(world, *thing)?;
        }
        self.inner.sort_by_key(|inner: &Inner| -> u32 { inner.top })
    }

    fn add_parcels(
        &mut self,
        story: &Story,
        nests: &Nests,
        special: &Special,
    ) -> Result<(), AllocError> {
        for thing in nests.things.iter() {
            let room = nests.roots.get(*thing);
            if story.is_room(room) && !self.packed.get(*thing) && !special.hauled.get(*thing) {
                self.parcels.push(Parcel {
                    maker: story.origin(*thing).maker,
                    room,
                    thing: *thing,
                })?;
            }
        }
        self.parcels.sort_by_key(|parcel: &Parcel| -> (u32, u32) { (parcel.maker, parcel.room) })
    }

    /// Returns what is packed in what.
    pub(crate) fn of(
        alloc: Global,
        story: &Story,
        nests: &Nests,
        world: &World,
        special: &Special,
    ) -> Result<Packs, AllocError> {
        let mut packs = Packs::empty(alloc, story.count)?;
        packs.note_all(story, world, special, &nests.things);
        packs.add_all_inner(world, &nests.things)?;
        packs.add_parcels(story, nests, special)?;
        Ok(packs)
    }

    /// Returns what is packed in the thing, each before the one around it.
    pub(crate) fn inner(&self, top: u32) -> &[Inner] {
        let inner = self.inner.as_slice();
        let (_, from) = inner.split_at(inner.partition_point(|it: &Inner| it.top < top));
        let (own, _) = from.split_at(from.partition_point(|it: &Inner| it.top == top));
        own
    }

    /// Returns the parcel at this place in the list of all parcels.
    pub(crate) fn parcel(&self, place: usize) -> Option<Parcel> {
        self.parcels.get(place).copied()
    }

    /// Returns the start of the player's parcels for the room in the list of all parcels, and their number.
    pub(crate) fn parcels(&self, maker: u32, room: u32) -> (usize, usize) {
        let parcels = self.parcels.as_slice();
        let start = parcels.partition_point(|it: &Parcel| {
            it.maker < maker || (it.maker == maker && it.room < room)
        });
        let (_, from) = parcels.split_at(start);
        let count = from.partition_point(|it: &Parcel| it.maker == maker && it.room == room);
        (start, count)
    }

    /// Returns the number of all parcels.
    pub(crate) fn count_parcels(&self) -> usize {
        self.parcels.len()
    }
}
