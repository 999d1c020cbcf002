//! Parts of a search.

use crate::gate::Gate;
use crate::task::Task;

/// A range of workers and a range of members to search for. Inside a part both are counted from 0.
#[derive(Clone, Copy, Debug, Drop)]
pub(crate) struct Part {
    pub(crate) workers: usize,
    first_worker: usize,
    first_member: usize,
}

impl Part {
    /// Returns the part with all members and `workers` workers.
    pub(crate) fn whole(workers: usize) -> Part {
        Part {
            workers,
            first_worker: 0,
            first_member: 0,
        }
    }

    /// Returns the part with the first members, and all workers but the last N.
    pub(crate) fn front(self, workers_behind: usize) -> Part {
        Part {
            workers: self.workers.saturating_sub(workers_behind),
            ..self
        }
    }

    /// Returns the part with the members after the first M, and the last N workers.
    pub(crate) fn back(self, members: usize, workers_behind: usize) -> Part {
        let before = self.workers.saturating_sub(workers_behind);
        Part {
            workers: workers_behind,
            first_worker: self.first_worker.saturating_add(before),
            first_member: self.first_member.saturating_add(members),
        }
    }

    /// Calls the gate for a worker with a room. Without workers it is not called.
    pub(crate) fn pass<G: Gate>(self, gate: &G, worker: usize, task: &Task) {
        if self.workers > 0 {
            let worker = self.first_worker.saturating_add(worker);
            let member = self.first_member.saturating_add(task.member);
            gate.between(worker, member, task.room);
        }
    }
}
