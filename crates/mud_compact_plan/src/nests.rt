//! The things of the final world, and the things around them.

use crate::column::Column;
use mud_world::World;
use std::alloc::{AllocError, Global};

/// The things of a world, and their places.
#[derive(Drop)]
pub(crate) struct Nests {
    /// The things, each after the one around it.
    pub(crate) things: Vec<u32>,
    /// The room or the player around each thing, at any depth. Other objects have #0.
    pub(crate) roots: Column<u32>,
}

// Adds the things in the object.
fn add_things(world: &World, number: u32, things: &mut Vec<u32>) -> Result<(), AllocError> {
    for inner in world.contents(number) {
        if world.is_thing(*inner) {
            things.push(*inner)?;
        }
    }
    Ok(())
}

// Returns the things that are not in another.
fn outer_things(alloc: Global, world: &World) -> Result<Vec<u32>, AllocError> {
    let mut things = Vec::new(alloc);
    for number in 0..world.next_number() {
        if !world.is_thing(number) {
            add_things(world, number, &mut things)?;
        }
    }
    Ok(things)
}

// Returns the things of a world, each after the one around it.
fn things_by_depth(alloc: Global, world: &World) -> Result<Vec<u32>, AllocError> {
    let mut things = outer_things(alloc, world)?;
    for at in 0..world.next_number() as usize {
        let Some(thing) = things.get(at).copied() else {
            break;
        };
        add_things(world, thing, &mut things)?;
    }
    Ok(things)
}

impl Nests {
    // Notes the place of a thing, after the one around it.
    fn note(&mut self, world: &World, thing: u32) {
        let place = world.place(thing).unwrap_or(0);
        if world.is_thing(place) {
            self.roots.set(thing, self.roots.get(place));
        } else {
            self.roots.set(thing, place);
        }
    }

    pub(crate) fn of(alloc: Global, world: &World) -> Result<Nests, AllocError> {
        let count = world.next_number();
        let things = things_by_depth(alloc, world)?;
        let mut nests = Nests {
            things: Vec::new(alloc),
            roots: Column::new(alloc, count, 0)?,
        };
        for thing in things.iter() {
            nests.note(world, *thing);
        }
        nests.things = things;
        Ok(nests)
    }
}
