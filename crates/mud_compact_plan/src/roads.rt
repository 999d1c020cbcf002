//! The exits of a world that is built, and ways through them. Locks are ignored.

use crate::column::{Column, Lists};
use mud_key::limits::LAST_NUMBER;
use std::alloc::{AllocError, Global};

// The number of object numbers.
const NUMBERS: usize = LAST_NUMBER as usize + 1;

/// A mark in place of a number: no exit, no place.
pub(crate) const NONE: u32 = u32::MAX;

/// The direction in which exits are followed: from their source, or back from their destination.
#[derive(Clone, Copy)]
pub(crate) enum Heading {
    There,
    Back,
}

// The rooms that an exit joins.
#[derive(Clone, Copy)]
struct Ends {
    source: u32,
    destination: u32,
}

/// The ways from one room, or to it, with the fewest exits.
#[derive(Drop)]
pub(crate) struct Tree {
    heading: Heading,
    pub(crate) root: u32,
    /// The rooms that are reached, each after the next one towards the root.
    pub(crate) rooms: Vec<u32>,
    // the exit of each reached room on its side towards the root
    by: Column<u32>,
}

impl Tree {
    /// Returns an empty tree, which `grow` fills.
    pub(crate) fn new(alloc: Global, heading: Heading, count: u32) -> Result<Tree, AllocError> {
        Ok(Tree {
            heading,
            root: NONE,
            rooms: Vec::new(alloc),
            by: Column::new(alloc, count, NONE)?,
        })
    }

    /// Returns whether the room is reached.
    pub(crate) fn has(&self, room: u32) -> bool {
        room == self.root || self.by.get(room) != NONE
    }

    // Removes all rooms.
    fn clear(&mut self) {
        for room in self.rooms.iter() {
            self.by.set(*room, NONE);
        }
        self.rooms.clear();
    }

    // Reaches a room through an exit, if it is not reached yet.
    fn reach(&mut self, room: u32, exit: u32) -> Result<(), AllocError> {
        if !self.has(room) {
            self.by.set(room, exit);
            self.rooms.push(room)?;
        }
        Ok(())
    }
}

/// The exits of a world that is built.
#[derive(Drop)]
pub(crate) struct Roads {
    alloc: Global,
    leaving: Lists<u32>,
    arriving: Lists<u32>,
    ends: Column<Ends>,
}

impl Roads {
    /// Returns roads without an exit, for numbers below the count.
    pub(crate) fn new(alloc: Global, count: u32) -> Result<Roads, AllocError> {
        let nowhere = Ends {
            source: 0,
            destination: 0,
        };
        Ok(Roads {
            alloc,
            leaving: Lists::new(alloc, count)?,
            arriving: Lists::new(alloc, count)?,
            ends: Column::new(alloc, count, nowhere)?,
        })
    }

    /// Adds an exit.
    pub(crate) fn add(
        &mut self,
        exit: u32,
        source: u32,
        destination: u32,
    ) -> Result<(), AllocError> {
        let ends = Ends {
            source,
            destination,
        };
        self.ends.set(exit, ends);
        self.leaving.push(source, exit)?;
        self.arriving.push(destination, exit)
    }

    /// Returns the room that the exit leads to.
    pub(crate) fn destination(&self, exit: u32) -> u32 {
        self.ends.get(exit).destination
    }

    // Returns the exits at the room.
    fn exits(&self, heading: Heading, room: u32) -> &[u32] {
        match heading {
            Heading::There => self.leaving.get(room),
            Heading::Back => self.arriving.get(room),
        }
    }

    // Returns the room beyond the exit.
    fn beyond(&self, heading: Heading, exit: u32) -> u32 {
        let ends = self.ends.get(exit);
        match heading {
            Heading::There => ends.destination,
            Heading::Back => ends.source,
        }
    }

    // Returns the room on this side of the exit.
    fn before(&self, heading: Heading, exit: u32) -> u32 {
        let ends = self.ends.get(exit);
        match heading {
            Heading::There => ends.source,
            Heading::Back => ends.destination,
        }
    }

    /// Replaces the ways of a tree with those from the room, or to it, until it has the target. It gives up after this
    /// many rooms.
    pub(crate) fn grow(
        &self,
        tree: &mut Tree,
        root: u32,
        target: u32,
        most: usize,
    ) -> Result<(), AllocError> {
        tree.clear();
        tree.root = root;
        tree.rooms.push(root)?;
        for at in 0..most {
            let Some(room) = tree.rooms.get(at).copied() else {
                break;
            };
            if tree.has(target) {
                break;
            }
            self.branch(tree, room)?;
        }
        Ok(())
    }

    /// Replaces the ways of a tree with all of those from the room, or to it.
    pub(crate) fn grow_all(&self, tree: &mut Tree, root: u32) -> Result<(), AllocError> {
        self.grow(tree, root, NONE, NUMBERS)
    }

    // Adds the rooms beyond the exits of a room to the tree.
    fn branch(&self, tree: &mut Tree, room: u32) -> Result<(), AllocError> {
        for exit in self.exits(tree.heading, room) {
            tree.reach(self.beyond(tree.heading, *exit), *exit)?;
        }
        Ok(())
    }

    /// Returns the next room towards the root of the tree, or the root itself for the root.
    pub(crate) fn inwards(&self, tree: &Tree, room: u32) -> u32 {
        match tree.by.get(room) {
            NONE => tree.root,
            exit => self.before(tree.heading, exit),
        }
    }

    /// Returns the exits from the room, which the tree has, up to the root.
    pub(crate) fn exits_inwards(&self, tree: &Tree, room: u32) -> Result<Vec<u32>, AllocError> {
        let mut exits = Vec::new(self.alloc);
        let mut at = room;
        for _ in 0..tree.rooms.len() {
            if at == tree.root {
                break;
            }
            exits.push(tree.by.get(at))?;
            at = self.inwards(tree, at);
        }
        Ok(exits)
    }
}
