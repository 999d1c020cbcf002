//! Walks without their cycles.

use crate::column::Column;
use crate::story::{Step, Story};
use std::alloc::{AllocError, Global};

/// Removes the cycles from walks (loop erasure): if a walk comes back to a room, everything since then is left out.
#[derive(Drop)]
pub(crate) struct Eraser {
    alloc: Global,
    // for each room the last walk that reached it, and after how many exits
    rounds: Column<u32>,
    places: Column<usize>,
    round: u32,
}

// A walk so far, and its start.
#[derive(Drop)]
struct Line {
    start: u32,
    exits: Vec<u32>,
}

impl Line {
    // Returns the room after this many of its exits.
    fn room(&self, story: &Story, count: usize) -> u32 {
        match self.exits.get(count.wrapping_sub(1)) {
            Some(exit) => story.origin(*exit).destination,
            None => self.start,
        }
    }
}

impl Eraser {
    pub(crate) fn new(alloc: Global, count: u32) -> Result<Eraser, AllocError> {
        Ok(Eraser {
            alloc,
            rounds: Column::new(alloc, count, 0)?,
            places: Column::new(alloc, count, 0)?,
            round: 0,
        })
    }

    fn mark(&mut self, room: u32, place: usize) {
        self.rounds.set(room, self.round);
        self.places.set(room, place);
    }

    // Returns after how many exits the walk was in the room, if it was there.
    fn place(&self, story: &Story, line: &Line, room: u32) -> Option<usize> {
        let place = self.places.get(room);
        let is_there = self.rounds.get(room) == self.round
            && place <= line.exits.len()
            && line.room(story, place) == room;
        if is_there { Some(place) } else { None }
    }

    /// Returns the exits of this walk, which begins in the room, without its cycles.
    pub(crate) fn erase(
        &mut self,
        story: &Story,
        start: u32,
        steps: &[Step],
    ) -> Result<Vec<u32>, AllocError> {
        self.round = self.round.saturating_add(1);
        self.mark(start, 0);
        let mut line = Line {
            start,
            exits: Vec::new(self.alloc),
        };
        for step in steps {
            let room = story.origin(step.exit).destination;
            match self.place(story, &line, room) {
                Some(place) => line.exits.truncate(place),
                None => {
                    line.exits.push(step.exit)?;
                    self.mark(room, line.exits.len());
                }
            }
        }
        let Line { exits, .. } = line;
        Ok(exits)
    }
}
