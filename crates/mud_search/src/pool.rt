//! A frontier that workers share.

ghost use Rattle.std.specs.Prelude.{◌≡◌, ◌<◌, Some, length, slice_get};
ghost use Rattle.mud_search.specs.declared.task.Task.{Task};
ghost use Rattle.mud_roads.specs.Passable.{Knowledge, roads_of};

use crate::frontier::Frontier;
use crate::job::Job;
use crate::task::Task;
use mud_roads::Step;
use std::sync::atomic::{AtomicBool, Ordering};
use std::sync::{Condvar, Mutex, Wait};
use std::time::Duration;

// A frontier under a lock. Only the frontier's own calls are made while the lock is held.
pub(crate) struct Pool<J: Job> {
    frontier: Mutex<Frontier<J>>,
    // wakes the resting workers at the end
    news: Condvar,
    // true once a worker has seen the end
    ended: AtomicBool,
}

// The next action of a worker.
#[derive(Clone, Copy, Drop)]
pub(crate) enum Next {
    // Relax a room.
    Room(Task),
    // Rest: no room waits, or another worker has the lock.
    Rest,
    // End: no room waits, and none is held.
    End,
}

impl<J: Job> Pool<J> {
    pub(crate) fn new(frontier: Frontier<J>) -> Pool<J> {
        Pool {
            frontier: Mutex::new(frontier),
            news: Condvar::new(),
            ended: AtomicBool::new(false),
        }
    }

    // Takes a room, if there is one and no other worker has the lock.
    pub(crate) fn take(&self) -> Next
        ensures { (t : Task) → result ≡ Next.Room t → t.member < length J.travellers }
    {
        let Some(mut frontier) = self.frontier.try_lock() else {
            return Next::Rest;
        };
        next_of(&mut frontier)
    }

    // Returns a room, and takes the next one, if there is one and no other worker has the lock.
    pub(crate) fn exchange<R: Wait>(&self, rt: &R, task: &Task, steps: &[Step]) -> Next
        requires steps { (t : Knowledge) → slice_get J.travellers task.now.member ≡ Some t
            → steps.now ≡ roads_of J.world t.player task.now.room }
        ensures { (t : Task) → result ≡ Next.Room t → t.member < length J.travellers }
    {
        if let Some(mut frontier) = self.frontier.try_lock() {
            let _ = frontier.put(task, steps);
            return next_of(&mut frontier);
        }
        let _ = self.frontier.lock(rt).put(task, steps);
        self.take()
    }

    // Rests for `pause` microseconds, or until the end.
    pub(crate) fn rest<R: Wait>(&self, rt: &R, pause: u64) {
        let seen = self.news.notifications();
        if !self.has_ended() {
            self.news.sleep(rt, seen, Duration::from_micros(pause));
        }
    }

    // Tells all workers that the end was seen.
    pub(crate) fn end(&self) {
        self.ended.store(true, Ordering::SeqCst);
        self.news.notify_all();
    }

    // Returns whether the end was seen.
    pub(crate) fn has_ended(&self) -> bool {
        self.ended.load(Ordering::SeqCst)
    }

    // Returns the frontier once it is no longer shared.
    pub(crate) fn into_frontier(self) -> Frontier<J> {
        let Pool {
            frontier,
            news: _,
            ended: _,
        } = self;
        frontier.into_inner()
    }
}

// Takes a room, if there is one.
fn next_of<J: Job>(frontier: &mut Frontier<J>) -> Next
    ensures { (t : Task) → result ≡ Next.Room t → t.member < length J.travellers }
{
    match frontier.take() {
        Some(task) => Next::Room(task),
        None if frontier.rest().held > 0 => Next::Rest,
        None => Next::End,
    }
}
