//! Several workers on one frontier.

ghost use Rattle.std.specs.Prelude.{◌≡◌, ◌<◌, All};
ghost use Rattle.mud_roads.specs.Passable.{IsTraveller};

use crate::frontier::Frontier;
use crate::gate::Gate;
use crate::job::Job;
use crate::part::Part;
use crate::pool::{Next, Pool};
use mud_roads::Traveller;
use std::sync::Wait;
use std::thread;
use std::thread::Threads;

// The shortest and the longest rest of an idle worker, in microseconds.
const SHORT_REST: u64 = 100;

const LONG_REST: u64 = 1600;

// Returns a shorter rest, after a room. About twenty rooms compensate for one rest.
fn shorter(pause: u64) -> u64 {
    pause.saturating_sub(pause / 32).max(SHORT_REST)
}

// Returns a rest twice as long.
fn longer(pause: u64) -> u64 {
    pause.saturating_mul(2).min(LONG_REST)
}

// Takes rooms and returns them with their steps, until none waits and none is held.
fn work<J: Job, R: Wait, G: Gate>(
    rt: &R,
    travellers: &[Traveller],
    pool: &Pool<J>,
    part: Part,
    gate: &G,
    worker: usize,
)
    requires travellers { travellers.now ≡ J.travellers }
    requires these { All (IsTraveller J.world) J.travellers }
{
    let mut next = pool.take();
    let mut pause = SHORT_REST;
    for _ in rt.forever() {
        next = match next {
            Next::Room(task) => {
                part.pass(gate, worker, &task);
                let steps = travellers[task.member].steps_from(task.room);
                pause = shorter(pause);
                pool.exchange(rt, &task, steps)
            }
            Next::Rest => {
                pool.rest(rt, pause);
                pause = longer(pause);
                pool.take()
            }
            Next::End => {
                pool.end();
                return;
            }
        };
    }
}

// Runs all workers but the first. This thread is the second, and the others are new threads, started one after another
// as long as the search has not ended.
fn work_beside<'a, J: Job + Send + Sync, R: Threads + Wait + Sync, G: Gate + Sync>(
    rt: &'a R,
    travellers: &'a [Traveller],
    pool: &'a Pool<J>,
    part: Part,
    gate: &'a G,
)
    requires travellers { travellers.now ≡ J.travellers }
    requires these { All (IsTraveller J.world) J.travellers }
{
    thread::scope(
        thread::scope_env(),
        rt,
        |scope|
            requires { (travellers.now ≡ J.travellers) × All (IsTraveller J.world) J.travellers }
        {
            for worker in 2..part.workers {
                pool.rest(rt, SHORT_REST);
                if pool.has_ended() {
                    break;
                }
                let _ = scope.spawn(
                    move ||
                        requires { (travellers.now ≡ J.travellers) × All (IsTraveller J.world) J.travellers }
                    { work(rt, travellers, pool, part, gate, worker) },
                );
            }
            work(rt, travellers, pool, part, gate, 1);
        },
    );
}

// Runs all workers. The caller's thread is the first. A new thread, if it can be started, is the second and starts the
// others.
fn work_all<'a, J: Job + Send + Sync, R: Threads + Wait + Sync, G: Gate + Sync>(
    rt: &'a R,
    travellers: &'a [Traveller],
    pool: &'a Pool<J>,
    part: Part,
    gate: &'a G,
)
    requires travellers { travellers.now ≡ J.travellers }
    requires these { All (IsTraveller J.world) J.travellers }
{
    thread::scope(
        thread::scope_env(),
        rt,
        |scope|
            requires { (travellers.now ≡ J.travellers) × All (IsTraveller J.world) J.travellers }
        {
            let _ = scope.spawn(
                move ||
                    requires { (travellers.now ≡ J.travellers) × All (IsTraveller J.world) J.travellers }
                { work_beside(rt, travellers, pool, part, gate) },
            );
            work(rt, travellers, pool, part, gate, 0);
        },
    );
}

/// Runs all workers of a part on the frontier until none finds work. The caller finishes the rest.
pub(crate) fn work_together<J: Job + Send + Sync, R: Threads + Wait + Sync, G: Gate + Sync>(
    rt: &R,
    travellers: &[Traveller],
    frontier: Frontier<J>,
    part: Part,
    gate: &G,
) -> Frontier<J>
    requires travellers { travellers.now ≡ J.travellers }
    requires these { All (IsTraveller J.world) J.travellers }
{
    let pool = Pool::new(frontier);
    work_all(rt, travellers, &pool, part, gate);
    pool.into_frontier()
}
