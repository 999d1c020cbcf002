//! The changes that make the objects of a world. One change makes several numbers, if the rules allow it.

use crate::column::Column;
use crate::story::{FIRST, Origin, Sort, Story};
use std::alloc::{AllocError, Global};

/// The player who may change and recycle all objects.
pub(crate) const WIZARD: u32 = 1;

/// The kind of a change that makes objects.
#[derive(Clone, Copy, PartialEq, Eq)]
pub(crate) enum Work {
    /// A room, maybe with exits to it and back.
    Room,
    /// An exit to an old room, maybe with one back.
    Exit,
    Thing,
    Player,
    /// Up to three numbers that only have to be taken.
    Spare,
}

/// A change that makes objects.
#[derive(Clone, Copy)]
pub(crate) struct Making {
    pub(crate) work: Work,
    /// The number of the first object.
    pub(crate) first: u32,
    /// The number of objects, 1 to 3.
    pub(crate) count: u32,
    pub(crate) actor: u32,
    /// The room in which the actor has to be, if any.
    pub(crate) room: Option<u32>,
    /// The entry of the history that made the object for which the actor has to be there, or else the first one.
    pub(crate) time: usize,
}

/// The numbers of a world that is built.
#[derive(Drop)]
pub(crate) struct Numbers<'a> {
    pub(crate) story: &'a Story,
    /// The objects that are made as in the history. All other numbers are spare: they only have to be taken.
    pub(crate) kept: Column<bool>,
    /// The objects that keys of the final world name.
    pub(crate) named: &'a Column<bool>,
}

impl Numbers<'_> {
    // Keeps the objects that a kept exit needs: its rooms, and the exit before an exit back.
    fn close(&mut self, number: u32) {
        let origin = self.story.origin(number);
        if !self.kept.get(number) || origin.sort != Sort::Exit {
            return;
        }
        self.kept.set(origin.source, true);
        self.kept.set(origin.destination, true);
        if origin.is_back {
            self.kept.set(number.saturating_sub(1), true);
        }
    }

    /// Keeps the objects that kept exits need.
    pub(crate) fn close_all(&mut self) {
        for number in (FIRST..self.story.count).rev() {
            self.close(number);
        }
    }

    // Returns whether any exit may take the number.
    fn is_free(&self, number: u32) -> bool {
        number < self.story.count && !self.kept.get(number)
    }

    // Returns the kept exit with this number, if this player made it.
    fn exit(&self, number: u32, maker: u32) -> Option<Origin> {
        if !self.kept.get(number) || !self.story.is_exit(number) {
            return None;
        }
        let origin = self.story.origin(number);
        if origin.maker == maker {
            Some(origin)
        } else {
            None
        }
    }

    // Returns whether it is a kept exit between these rooms that may be the exit back of another. An exit with its own
    // exit back stays with that.
    fn is_way_back(&self, number: u32, maker: u32, source: u32, destination: u32) -> bool {
        let Some(exit) = self.exit(number, maker) else {
            return false;
        };
        if exit.source != source || exit.destination != destination {
            return false;
        }
        let next = number.saturating_add(1);
        exit.is_back || !self.kept.get(next) || !self.story.origin(next).is_back
    }

    // Returns how many numbers from this one on are free, up to a limit.
    fn count_free(&self, first: u32, most: u32) -> u32 {
        for count in 0..most {
            if !self.is_free(first.saturating_add(count)) {
                return count;
            }
        }
        most
    }

    // Returns the change that makes the room with this number, its exit there and its exit back, if these follow
    // directly.
    fn room(&self, room: Making) -> Making {
        let next = room.first.saturating_add(1);
        let last = room.first.saturating_add(2);
        match self.exit(next, room.actor) {
            Some(out) if out.destination == room.first && !out.is_back => {
                let takes_last = self.is_free(last)
                    || self.is_way_back(last, room.actor, room.first, out.source);
                Making {
                    count: if takes_last { 3 } else { 2 },
                    room: Some(out.source),
                    time: out.time,
                    ..room
                }
            }
            _ => Making {
                count: self.count_free(next, 2).saturating_add(1),
                ..room
            },
        }
    }

    // Returns the change that makes the exit with this number, and its exit back, if that follows directly.
    fn way(&self, exit: Making) -> Making {
        let origin = self.story.origin(exit.first);
        let next = exit.first.saturating_add(1);
        let takes_next = self.is_free(next)
            || self.is_way_back(next, exit.actor, origin.destination, origin.source);
        Making {
            count: if takes_next { 2 } else { 1 },
            room: Some(origin.source),
            ..exit
        }
    }

    // Returns the change that takes this spare number.
    fn spare(&self, spare: Making) -> Making {
        let next = spare.first.saturating_add(1);
        Making {
            count: self.count_free(next, 2).saturating_add(1),
            ..spare
        }
    }

    // Returns the change that makes the object with this number.
    fn making(&self, number: u32) -> Making {
        let origin = self.story.origin(number);
        let thing = Making {
            work: Work::Thing,
            first: number,
            count: 1,
            actor: origin.maker,
            room: None,
            time: origin.time,
        };
        if !self.kept.get(number) {
            return self.spare(Making {
                work: Work::Spare,
                actor: WIZARD,
                ..thing
            });
        }
        match origin.sort {
            Sort::Room => self.room(Making {
                work: Work::Room,
                ..thing
            }),
            Sort::Exit => self.way(Making {
                work: Work::Exit,
                ..thing
            }),
            Sort::Thing => thing,
            Sort::Player => Making {
                work: Work::Player,
                ..thing
            },
        }
    }

    /// Returns the changes that make all objects, sorted by number.
    pub(crate) fn makings(&self, alloc: Global) -> Result<Vec<Making>, AllocError> {
        let mut makings = Vec::new(alloc);
        let mut number = FIRST;
        for _ in FIRST..self.story.count {
            if number >= self.story.count {
                break;
            }
            let making = self.making(number);
            number = number.saturating_add(making.count);
            makings.push(making)?;
        }
        Ok(makings)
    }
}
