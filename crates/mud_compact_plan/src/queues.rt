//! Things that wait, by the number that they wait for.

use crate::column::Column;
use crate::roads::NONE;
use std::alloc::{AllocError, Global};

/// For each number the things that wait for it. A thing waits for at most one.
#[derive(Drop)]
pub(crate) struct Queues {
    firsts: Column<u32>,
    nexts: Column<u32>,
    count: u32,
}

impl Queues {
    pub(crate) fn new(alloc: Global, count: u32) -> Result<Queues, AllocError> {
        Ok(Queues {
            firsts: Column::new(alloc, count, NONE)?,
            nexts: Column::new(alloc, count, NONE)?,
            count,
        })
    }

    /// Adds a thing that waits for nothing else.
    pub(crate) fn push(&mut self, number: u32, thing: u32) {
        self.nexts.set(thing, self.firsts.get(number));
        self.firsts.set(number, thing);
    }

    /// Returns what waits for the number, and removes it.
    pub(crate) fn take(&mut self, alloc: Global, number: u32) -> Result<Vec<u32>, AllocError> {
        let mut things = Vec::new(alloc);
        let mut at = self.firsts.get(number);
        for _ in 0..self.count {
            if at == NONE {
                break;
            }
            things.push(at)?;
            at = self.nexts.get(at);
        }
        self.firsts.set(number, NONE);
        Ok(things)
    }
}
