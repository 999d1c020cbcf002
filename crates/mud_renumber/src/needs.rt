//! The objects that a history has to make, if it is to lead to the same world.

use crate::column::Column;
use mud_chron::Entry;
use mud_key::Node;
use mud_world::{Deed, World};
use std::alloc::{AllocError, Global};

/// The number of no object.
pub(crate) const NONE: u32 = u32::MAX;

// How often the moves of things are looked through for places that are needed.
const ROUNDS: usize = 8;

/// The origin of an object.
#[derive(Clone, Copy)]
pub(crate) struct Origin {
    // the room that an exit leaves, and the room that it leads to; otherwise `NONE`
    source: u32,
    destination: u32,
    // the exit there, for the exit back of a dig; otherwise `NONE`
    out: u32,
}

/// Which objects a history has to make.
#[derive(Drop)]
pub(crate) struct Needs {
    alloc: Global,
    count: u32,
    origins: Column<Origin>,
    needed: Column<bool>,
}

// Returns the origin of an object of the world that the change of this deed made, the first one with number `first`.
fn origin_of(world: &World, deed: &Deed, first: u32, number: u32) -> Origin {
    let Some(passage) = world.passage(number) else {
        return Origin {
            source: NONE,
            destination: NONE,
            out: NONE,
        };
    };
    let is_back = match deed {
        Deed::Dig(_, Some(doors)) => doors.back.is_some()
            && number.saturating_add(1) == world.next_number(),
        _ => false,
    };
    Origin {
        source: passage.source,
        destination: passage.destination,
        out: if is_back && number > first {
            number.saturating_sub(1)
        } else {
            NONE
        },
    }
}

impl Needs {
    // Returns the needs of a history that leads to this world, before it is read: only what exists there.
    fn new(alloc: Global, goal: &World) -> Result<Needs, AllocError> {
        let count = goal.next_number();
        let nothing = Origin {
            source: NONE,
            destination: NONE,
            out: NONE,
        };
        let mut needed = Column::new(alloc, count, false)?;
        for number in 0..count {
            needed.set(number, goal.exists(number));
        }
        Ok(Needs {
            alloc,
            count,
            origins: Column::new(alloc, count, nothing)?,
            needed,
        })
    }

    /// Returns the needs of these entries, which lead to this world. A careful history makes each object that a change
    /// names, other than the one that recycles it. It returns `None` if a change is illegal.
    pub(crate) fn of(
        alloc: Global,
        entries: &[Entry],
        goal: &World,
        is_careful: bool,
    ) -> Result<Option<Needs>, AllocError> {
        let mut needs = Needs::new(alloc, goal)?;
        if !needs.read(entries)? {
            return Ok(None);
        }
        if is_careful {
            needs.add_all_named(entries);
        }
        for _ in 0..ROUNDS {
            needs.add_all_ways(entries);
        }
        needs.close();
        Ok(Some(needs))
    }

    fn add_all_named(&mut self, entries: &[Entry]) {
        for entry in entries {
            self.add_named(&entry.change().deed);
        }
    }

    fn add_all_ways(&mut self, entries: &[Entry]) {
        for entry in entries {
            self.add_ways(&entry.change().deed);
        }
    }

    // Reads the origins of all objects. Returns whether all changes are legal.
    fn read(&mut self, entries: &[Entry]) -> Result<bool, AllocError> {
        let mut world = World::opening(self.alloc)?;
        for entry in entries {
            let change = entry.change();
            let first = world.next_number();
            match world.legal(change) {
                Ok(()) => {}
                Err(_) => return Ok(false),
            }
            world.apply(change)?;
            self.note(&world, &change.deed, first);
        }
        Ok(true)
    }

    // Notes the origins of the objects that the change of this deed made, the first one with number `first`.
    fn note(&mut self, world: &World, deed: &Deed, first: u32) {
        for number in first..world.next_number() {
            self.origins
                .set(number, origin_of(world, deed, first, number));
        }
    }

    // Adds the objects of a key.
    fn add_key(&mut self, node: &Node<u32>) {
        match node {
            Node::Has(object) | Node::Asks(object) => self.needed.set(*object, true),
            Node::Not(key) => self.add_key(key),
            Node::Join(_, left, right) => {
                self.add_key(left);
                self.add_key(right);
            }
        }
    }

    // Adds the objects that the deed names, unless it recycles one.
    fn add_named(&mut self, deed: &Deed) {
        match deed {
            Deed::Lock { object, key } => {
                self.needed.set(*object, true);
                self.add_key(key.node());
            }
            Deed::Unlock { object }
            | Deed::Cost { exit: object, .. }
            | Deed::Rename { object, .. } => self.needed.set(*object, true),
            Deed::Move { thing, to } => {
                self.needed.set(*thing, true);
                self.needed.set(*to, true);
            }
            _ => {}
        }
    }

    // Adds the exit of a walk, and the place to which a needed thing is moved.
    fn add_ways(&mut self, deed: &Deed) {
        match deed {
            Deed::Walk { exit } => self.needed.set(*exit, true),
            Deed::Move { thing, to } if self.needed.get(*thing) => self.needed.set(*to, true),
            _ => {}
        }
    }

    // Adds what needed exits need: their rooms, and the exit there of an exit back.
    fn close(&mut self) {
        for number in (0..self.count).rev() {
            if self.needed.get(number) {
                let origin = self.origins.get(number);
                self.needed.set(origin.source, true);
                self.needed.set(origin.destination, true);
                self.needed.set(origin.out, true);
            }
        }
    }

    /// Returns whether the object has to be made.
    pub(crate) fn has(&self, number: u32) -> bool {
        self.needed.get(number)
    }

    /// Returns the next number of the history.
    pub(crate) fn count(&self) -> u32 {
        self.count
    }
}
