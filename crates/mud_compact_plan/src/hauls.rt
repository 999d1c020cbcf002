//! The original paths of things that nobody can bring at the end.

use crate::nests::Nests;
use crate::stops::Delivery;
use crate::story::{Lift, Story};
use crate::unbuilt::Unbuilt;
use std::alloc::Global;

/// The search for paths of things.
#[derive(Drop)]
pub(crate) struct Hauls<'a> {
    pub(crate) alloc: Global,
    pub(crate) story: &'a Story,
    pub(crate) nests: &'a Nests,
    /// The number of places that may still be looked at.
    pub(crate) budget: usize,
}

// A move of a thing, or of one around it.
#[derive(Clone, Copy)]
struct Change {
    moved: u32,
    lift: Lift,
}

impl Hauls<'_> {
    // Counts a look.
    fn look(&mut self) -> Result<(), Unbuilt> {
        if self.budget == 0 {
            return Err(Unbuilt::GivenUp);
        }
        self.budget -= 1;
        Ok(())
    }

    // Returns the last move of a thing before an entry.
    fn last_lift(&self, thing: u32, time: usize) -> Option<Lift> {
        let lifts = self.story.lifts(thing);
        let (earlier, _) = lifts.split_at(lifts.partition_point(|lift: &Lift| lift.time < time));
        earlier.last().copied()
    }

    // Returns the place of the thing before an entry.
    fn place(&self, thing: u32, time: usize) -> u32 {
        match self.last_lift(thing, time) {
            Some(lift) => lift.to,
            None => self.story.origin(thing).maker,
        }
    }

    // Returns the room or the player around the thing before an entry, at any depth.
    fn root(&mut self, thing: u32, time: usize) -> Result<u32, Unbuilt> {
        let mut at = thing;
        for _ in 0..self.story.count {
            if !self.story.is_thing(at) {
                break;
            }
            self.look()?;
            at = self.place(at, time);
        }
        Ok(at)
    }

    // Returns the last move, before an entry, of the thing or of one around it.
    fn last_change(&mut self, thing: u32, time: usize) -> Result<Option<Change>, Unbuilt> {
        let mut last: Option<Change> = None;
        let mut at = thing;
        for _ in 0..self.story.count {
            if !self.story.is_thing(at) {
                break;
            }
            self.look()?;
            if let Some(lift) = self.last_lift(at, time) {
                if !matches!(last, Some(change) if lift.time <= change.lift.time) {
                    last = Some(Change { moved: at, lift });
                }
            }
            at = self.place(at, time);
        }
        Ok(last)
    }

    // Returns the last move, before an entry, that brought the thing to the holder, and the holder before.
    fn coming(&mut self, thing: u32, holder: u32, time: usize) -> Result<(Lift, u32), Unbuilt> {
        let mut time = time;
        for _ in 0..self.story.end {
            let Some(change) = self.last_change(thing, time)? else {
                break;
            };
            time = change.lift.time;
            let before = self.root(change.moved, time)?;
            if before != holder {
                return Ok((change.lift, before));
            }
        }
        Err(Unbuilt::GivenUp)
    }

    /// Returns the original path of the thing to its root, without cycles. It returns `None` if the thing moved before
    /// its contents were complete, after the entry `ready`.
    pub(crate) fn haul(
        &mut self,
        thing: u32,
        ready: usize,
    ) -> Result<Option<Vec<Delivery>>, Unbuilt> {
        let maker = self.story.origin(thing).maker;
        let mut holder = self.nests.roots.get(thing);
        let mut time = self.story.end;
        let mut path = Vec::new(self.alloc);
        for _ in 0..self.story.end {
            if holder == maker {
                break;
            }
            let (lift, before) = self.coming(thing, holder, time)?;
            if lift.time <= ready {
                return Ok(None);
            }
            path.push(Delivery {
                time: lift.time,
                actor: lift.actor,
                room: lift.room,
                thing,
                to: holder,
            })?;
            cut_cycle(&mut path, before);
            holder = before;
            time = lift.time;
        }
        path.reverse();
        Ok(Some(path))
    }
}

// Cuts a cycle: if the thing comes to the holder later, the steps up to then are left out. The last step is the first.
fn cut_cycle(path: &mut Vec<Delivery>, holder: u32) {
    if let Some(at) = path.iter().position(|step| step.to == holder) {
        path.truncate(at);
    }
}
