//! Walks that are given by exit numbers.

ghost use Rattle.std.specs.Prelude.{◌≡◌, ℕ};
ghost use Rattle.mud_roads.specs.Passable.{passable};
ghost use Rattle.mud_roads.specs.Walks.{total};
ghost use Rattle.mud_world.specs.State.{IsHolding};
ghost use Rattle.mud_cert.specs.inner.Ways.{step_of, steps_of, end_of, arrival_of};
ghost use Rattle.mud_cert.specs.Certificate.{hop_of};
ghost use Rattle.mud_cert.specs.inner.Tests.{leaves, first_break, first_lock};

use crate::{Form, Member};
use mud_roads::Step;
use mud_world::{Holding, World};

/// The end of a walk, its cost, and the number of exits that count. The sums are wider than the numbers of a label, so
/// no walk that fits in memory makes them overflow.
#[derive(Clone, Copy, Drop)]
pub(crate) struct Progress {
    pub(crate) end: u32,
    pub(crate) cost: u128,
    pub(crate) exits: usize,
}

// Returns what an exit counts in a label.
pub(crate) fn hop_of(form: Form) -> u32
    ensures { result ≡ hop_of form }
{
    match form {
        Form::One => 0,
        Form::Two => 1,
    }
}

// Returns whether the number is an exit that leaves the room.
pub(crate) fn leaves(world: &World, room: u32, exit: u32) -> bool
    ensures { result ≡ leaves world.now room exit }
{
    match world.passage(exit) {
        Some(passage) => passage.source == room,
        None => false,
    }
}

// Returns the step of an exit. The result is meaningless if the number is not an exit.
pub(crate) fn step_of(world: &World, exit: u32) -> Step
    ensures { result ≡ step_of world.now exit }
{
    match world.passage(exit) {
        Some(passage) => Step {
            exit,
            to: passage.destination,
            cost: passage.cost,
        },
        None => Step {
            exit,
            to: 0,
            cost: 0,
        },
    }
}

// Returns the place, counted from 1, of the first exit that does not leave the room where the walk has arrived.
pub(crate) fn first_break(world: &World, from: u32, walk: &[u32]) -> Option<usize>
    ensures { result ≡ first_break world.now from 1 walk.now }
{
    let mut at = from;
    for (i, exit) in walk.iter().enumerate() {
        if !leaves(world, at, *exit) {
            return Some(i + 1);
        }
        at = step_of(world, *exit).to;
    }
    None
}

// Returns whether the number is an exit that is open to the holder: the exit and its destination are unlocked for the
// holder.
pub(crate) fn passes(world: &World, holding: &Holding, exit: u32) -> bool
    ensures { (p : ℕ) → IsHolding world.now p holding.now → result ≡ passable world.now p exit }
{
    match world.passage(exit) {
        Some(passage) => {
            world.unlocked(holding, exit) && world.unlocked(holding, passage.destination)
        }
        None => false,
    }
}

// Returns the place, counted from 1, of the first exit that is not open to the holder.
pub(crate) fn first_lock(world: &World, holding: &Holding, walk: &[u32]) -> Option<usize>
    ensures { (p : ℕ) → IsHolding world.now p holding.now → result ≡ first_lock world.now p 1 walk.now }
{
    for (i, exit) in walk.iter().enumerate() {
        if !passes(world, holding, *exit) {
            return Some(i + 1);
        }
    }
    None
}

// Returns the end of the walk, and its label.
pub(crate) fn progress_of(world: &World, form: Form, from: u32, walk: &[u32]) -> Progress
    ensures end { result.end ≡ end_of from (steps_of world.now walk.now) }
    ensures cost { result.cost ≡ (total (hop_of form) (steps_of world.now walk.now)).cost }
    ensures exits { result.exits ≡ (total (hop_of form) (steps_of world.now walk.now)).exits }
{
    let hop = hop_of(form) as usize;
    let mut all = Progress {
        end: from,
        cost: 0,
        exits: 0,
    };
    for exit in walk {
        let step = step_of(world, *exit);
        all = Progress {
            end: step.to,
            cost: all.cost + u128::from(step.cost),
            exits: all.exits + hop,
        };
    }
    all
}

// Returns the end and the cost of the member's walk, if one is given.
pub(crate) fn arrival_of(world: &World, member: &Member) -> Option<(u32, u128)>
    ensures { result ≡ arrival_of world.now member.now }
{
    match member.walk() {
        Some(walk) => {
            let progress = progress_of(world, Form::One, member.from(), walk);
            Some((progress.end, progress.cost))
        }
        None => None,
    }
}
