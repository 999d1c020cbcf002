//! The contents of a history: the origin of each object, the walks of players, and the moves of things.

use crate::column::{Column, Lists};
use mud_chron::Entry;
use mud_world::{Deed, Doors, Target};
use std::alloc::{AllocError, Global};

/// The number of the first object that a history makes: the opening world has #0 and #1.
pub(crate) const FIRST: u32 = 2;

/// The kind of an object. Objects that are gone have one, too.
#[derive(Clone, Copy, PartialEq, Eq)]
pub(crate) enum Sort {
    Room,
    Exit,
    Thing,
    Player,
}

/// The origin of an object.
#[derive(Clone, Copy)]
pub(crate) struct Origin {
    pub(crate) sort: Sort,
    /// The room that an exit leaves, otherwise #0.
    pub(crate) source: u32,
    /// The room that an exit leads to, otherwise #0.
    pub(crate) destination: u32,
    /// True for the exit back of a dig. The exit there has the number before.
    pub(crate) is_back: bool,
    /// The player who made it. A player is their own maker.
    pub(crate) maker: u32,
    /// The desk of the entry that made it.
    pub(crate) desk: u32,
    /// The entry that made it, counted from 0.
    pub(crate) time: usize,
}

/// A player's walk, by the entry of this time.
#[derive(Clone, Copy)]
pub(crate) struct Step {
    pub(crate) time: usize,
    pub(crate) exit: u32,
}

/// A player's move of a thing, by the entry of this time.
#[derive(Clone, Copy)]
pub(crate) struct Lift {
    pub(crate) time: usize,
    pub(crate) actor: u32,
    /// The actor's room.
    pub(crate) room: u32,
    pub(crate) to: u32,
}

/// The contents of a history.
#[derive(Drop)]
pub(crate) struct Story {
    /// The number of the next object.
    pub(crate) count: u32,
    /// The number of entries.
    pub(crate) end: usize,
    origins: Column<Origin>,
    steps: Lists<Step>,
    lifts: Lists<Lift>,
    /// The exits through which players walked.
    pub(crate) walked: Column<bool>,
    // the rooms of players, and the next number, as far as the history is read
    rooms: Column<u32>,
    next: u32,
}

// Returns the origin of an object of the opening world.
fn opening(sort: Sort) -> Origin {
    Origin {
        sort,
        source: 0,
        destination: 0,
        is_back: false,
        maker: 1,
        desk: 1,
        time: 0,
    }
}

impl Story {
    /// Returns the contents of these entries, which are legal and lead to a world with this next number.
    pub(crate) fn of(alloc: Global, entries: &[Entry], count: u32) -> Result<Story, AllocError> {
        let mut story = Story {
            count,
            end: entries.len(),
            origins: Column::new(alloc, count, opening(Sort::Room))?,
            steps: Lists::new(alloc, count)?,
            lifts: Lists::new(alloc, count)?,
            walked: Column::new(alloc, count, false)?,
            rooms: Column::new(alloc, count, 0)?,
            next: FIRST,
        };
        story.origins.set(1, opening(Sort::Player));
        for (time, entry) in entries.iter().enumerate() {
            story.take_in(time, entry)?;
        }
        Ok(story)
    }

    // Reads an entry.
    fn take_in(&mut self, time: usize, entry: &Entry) -> Result<(), AllocError> {
        let actor = entry.change().actor;
        let thing = Origin {
            maker: actor,
            desk: entry.desk(),
            time,
            ..opening(Sort::Thing)
        };
        match &entry.change().deed {
            Deed::Walk { exit } => self.walk(actor, Step { time, exit: *exit })?,
            Deed::Move { thing, to } => self.lift(time, actor, *thing, *to)?,
            Deed::Make(_) => self.add(thing),
            Deed::Player(_) => self.add(Origin {
                sort: Sort::Player,
                ..thing
            }),
            Deed::Dig(target, doors) => self.dig(thing, target, doors),
            _ => {}
        }
        Ok(())
    }

    fn walk(&mut self, player: u32, step: Step) -> Result<(), AllocError> {
        self.steps.push(player, step)?;
        self.walked.set(step.exit, true);
        let room = self.origin(step.exit).destination;
        self.rooms.set(player, room);
        Ok(())
    }

    fn lift(&mut self, time: usize, actor: u32, thing: u32, to: u32) -> Result<(), AllocError> {
        let room = self.rooms.get(actor);
        let lift = Lift {
            time,
            actor,
            room,
            to,
        };
        self.lifts.push(thing, lift)
    }

    // Adds the next object.
    fn add(&mut self, origin: Origin) {
        self.origins.set(self.next, origin);
        self.next = self.next.saturating_add(1);
    }

    // Adds the objects of a dig. `thing` is the origin of a thing that the actor would make.
    fn dig(&mut self, thing: Origin, target: &Target, doors: &Option<Doors>) {
        let here = self.rooms.get(thing.maker);
        let there = match target {
            Target::Old(room) => *room,
            Target::New(_) => self.next,
        };
        if matches!(target, Target::New(_)) {
            self.add(Origin {
                sort: Sort::Room,
                ..thing
            });
        }
        let Some(doors) = doors else {
            return;
        };
        let out = Origin {
            sort: Sort::Exit,
            source: here,
            destination: there,
            ..thing
        };
        self.add(out);
        if doors.back.is_some() {
            self.add(Origin {
                source: there,
                destination: here,
                is_back: true,
                ..out
            });
        }
    }

    /// Returns the origin of an object.
    pub(crate) fn origin(&self, number: u32) -> Origin {
        self.origins.get(number)
    }

    /// Returns whether it is or was a room.
    pub(crate) fn is_room(&self, number: u32) -> bool {
        number < self.count && self.origins.get(number).sort == Sort::Room
    }

    /// Returns whether it is or was an exit.
    pub(crate) fn is_exit(&self, number: u32) -> bool {
        self.origins.get(number).sort == Sort::Exit
    }

    /// Returns whether it is or was a thing.
    pub(crate) fn is_thing(&self, number: u32) -> bool {
        self.origins.get(number).sort == Sort::Thing
    }

    /// Returns whether it is a player.
    pub(crate) fn is_player(&self, number: u32) -> bool {
        self.origins.get(number).sort == Sort::Player
    }

    /// Returns the moves of a thing, sorted by time.
    pub(crate) fn lifts(&self, thing: u32) -> &[Lift] {
        self.lifts.get(thing)
    }

    /// Returns the walk of a player from one entry on up to before another.
    pub(crate) fn steps_between(&self, player: u32, from: usize, to: usize) -> &[Step] {
        let steps = self.steps.get(player);
        let (_, late) = steps.split_at(steps.partition_point(|step: &Step| step.time < from));
        let (between, _) = late.split_at(late.partition_point(|step: &Step| step.time < to));
        between
    }
}
