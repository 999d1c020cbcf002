//! The objects that are unlocked for a player.

ghost use Rattle.std.specs.Prelude.{◌≡◌, ◌↔◌, ℕ, ◌<◌, [], ◌++◌, length, map, IfOk, OnOk, IsTrue, slice_index_or};
ghost use Rattle.std.specs.Prelude.{slice_set, false};
ghost use Rattle.std.specs.List.{filter_map, cons_option};
ghost use Rattle.mud_world.specs.KeyIndex.{IsKeyIndex};
ghost use Rattle.mud_world.specs.State.{unlocked};
ghost use Rattle.mud_roads.specs.Passable.{passable, open_step, roads_of, tested_step};
ghost use Rattle.mud_roads.specs.inner.Tables.{Knows};
ghost use Rattle.mud_roads.specs.inner.Growing.{step_from, numbers_from, is_marked};

use crate::Step;
use crate::table::Table;
use mud_world::{KeyIndex, World};
use std::alloc::{AllocError, Global};

// A player, and for each number whether the object is unlocked for the player.
#[derive(Drop)]
pub(crate) struct Access {
    pub(crate) player: u32,
    marks: Vec<bool>,
}

// Returns whether both lists of marks are the same. It looks at all of them, so that the compiler compares several at
// once.
fn are_same(marks: &[bool], others: &[bool]) -> bool
    ensures { IsTrue result ↔ (marks.now ≡ others.now) }
{
    if marks.len() != others.len() {
        return false;
    }
    let mut differ = false;
    for at in 0..marks.len() {
        differ |= marks[at] != others[at];
    }
    !differ
}

// Returns for each number whether the object is unlocked for the player.
fn unlocked_for(
    alloc: Global,
    world: &World,
    keys: &KeyIndex,
    player: u32,
) -> Result<Vec<bool>, AllocError>
    requires { IsKeyIndex world.now keys.now }
    ensures count { IfOk result (λ marks. length marks.items ≡ world.now.next) }
    ensures knows { IfOk result (λ marks. Knows world.now player marks.items) }
{
    let holding = world.carried(player)?;
    world.judge(alloc, keys, &holding)
}

impl Access {
    // Computes the objects that are unlocked for the player.
    pub(crate) fn of(
        alloc: Global,
        world: &World,
        keys: &KeyIndex,
        player: u32,
    ) -> Result<Access, AllocError>
        requires { IsKeyIndex world.now keys.now }
        ensures count { IfOk result (λ a. length a.marks.items ≡ world.now.next) }
        ensures knows { IfOk result (λ a. Knows world.now player a.marks.items) }
        ensures player { IfOk result (λ a. a.player ≡ player) }
    {
        let marks = unlocked_for(alloc, world, keys, player)?;
        Ok(Access { player, marks })
    }

    // Returns whether the object is unlocked for the player.
    fn is_unlocked(&self, number: u32) -> bool
        ensures { result ≡ is_marked self.now.marks.items number }
    {
        match self.marks.get(number as usize) {
            Some(open) => *open,
            None => false,
        }
    }

    // Returns whether both have the same marks.
    pub(crate) fn has_marks_of(&self, other: &Access) -> bool
        ensures { IsTrue result ↔ (self.now.marks.items ≡ other.now.marks.items) }
    {
        are_same(&self.marks, &other.marks)
    }

    // Takes the mark of an object away.
    pub(crate) fn unmark(&mut self, number: u32)
        ensures player { self.new.player ≡ self.old.player }
        ensures marks { self.new.marks.items ≡ slice_set self.old.marks.items number false }
    {
        if let Some(mark) = self.marks.get_mut(number as usize) {
            *mark = false;
        }
    }

    // Returns the number of objects that are known.
    pub(crate) fn count(&self) -> usize
        ensures { result ≡ length self.now.marks.items }
    {
        self.marks.len()
    }

    // Judges the objects that the world has beyond the known ones. An error leaves the player as it was.
    pub(crate) fn grow(&mut self, world: &World) -> Result<(), AllocError>
        ensures player { self.new.player ≡ self.old.player }
        ensures marks { OnOk result (self.new.marks.items ≡ self.old.marks.items
            ++ map (unlocked world.now self.old.player) (numbers_from world.now (length self.old.marks.items))) }
    {
        for number in self.marks.len()..world.next_number() as usize {
            let is_unlocked = world.is_unlocked(self.player, number as u32);
            self.marks.push(is_unlocked)?;
        }
        Ok(())
    }

    // Returns the step of an exit, if the exit is open to the player.
    pub(crate) fn step_by(&self, world: &World, exit: u32) -> Option<Step>
        requires { Knows world.now self.now.player self.now.marks.items }
        ensures { result ≡ open_step world.now self.now.player exit }
    {
        self.marked_step(world, exit)
    }

    // Returns the step of an exit, if the exit and its destination are marked.
    fn marked_step(&self, world: &World, exit: u32) -> Option<Step>
        ensures { result ≡ tested_step world.now (is_marked self.now.marks.items) exit }
    {
        let passage = world.passage(exit)?;
        if self.is_unlocked(exit) && self.is_unlocked(passage.destination) {
            Some(Step {
                exit,
                to: passage.destination,
                cost: passage.cost,
            })
        } else {
            None
        }
    }

    // Returns whether the number is an exit that is open to the player.
    pub(crate) fn passes(&self, world: &World, exit: u32) -> bool
        requires { Knows world.now self.now.player self.now.marks.items }
        ensures { result ≡ passable world.now self.now.player exit }
    {
        match world.passage(exit) {
            Some(passage) => self.is_unlocked(exit) && self.is_unlocked(passage.destination),
            None => false,
        }
    }

    // Appends the open exits that leave a room, sorted by number.
    #[tactic(auto, unfolding(crate::specs::Passable::roads_of))]
    pub(crate) fn add_steps(
        &self,
        world: &World,
        room: u32,
        steps: &mut Vec<Step>,
    ) -> Result<(), AllocError>
        requires { Knows world.now self.now.player self.now.marks.items }
        ensures { OnOk result (steps.new.items ≡ steps.old.items ++ roads_of world.now self.now.player room) }
    {
        for exit in world.leaving(room) {
            if let Some(step) = self.step_by(world, *exit) {
                steps.push(step)?;
            }
        }
        Ok(())
    }

    // Appends the step of an exit, if the exit and its destination are marked, to the row of its room.
    fn add_exit(&self, world: &World, exit: u32, roads: &mut Table) -> Result<(), AllocError>
        ensures count { OnOk result (length roads.new ≡ length roads.old) }
        ensures rows { OnOk result ((room : ℕ) → room < length roads.old → slice_index_or roads.new room []
            ≡ slice_index_or roads.old room []
            ++ cons_option (step_from world.now (is_marked self.now.marks.items) room exit) []) }
    {
        match (world.passage(exit), self.marked_step(world, exit)) {
            (Some(passage), Some(step)) if (passage.source as usize) < roads.count() => {
                roads.add(passage.source, step)
            }
            _ => Ok(()),
        }
    }

    // Appends the steps of such exits from this number on to the rows of their rooms.
    pub(crate) fn add_exits(
        &self,
        world: &World,
        from: usize,
        roads: &mut Table,
    ) -> Result<(), AllocError>
        ensures count { OnOk result (length roads.new ≡ length roads.old) }
        ensures rows { OnOk result ((room : ℕ) → room < length roads.old → slice_index_or roads.new room []
            ≡ slice_index_or roads.old room []
            ++ filter_map (step_from world.now (is_marked self.now.marks.items) room) (numbers_from world.now from)) }
    {
        for number in from..world.next_number() as usize {
            self.add_exit(world, number as u32, roads)?;
        }
        Ok(())
    }

    // Returns the player's roads: for each number the open exits that leave the room.
    pub(crate) fn roads(&self, alloc: Global, world: &World) -> Result<Table, AllocError>
        requires { Knows world.now self.now.player self.now.marks.items }
        ensures count { IfOk result (λ t. length t ≡ world.now.next) }
        ensures roads { IfOk result (λ t. (room : ℕ)
            → slice_index_or t room [] ≡ roads_of world.now self.now.player room) }
    {
        let count = world.next_number();
        let mut steps = Vec::with_capacity(alloc, count as usize)?;
        let mut ends = Vec::with_capacity(alloc, count as usize)?;
        for room in 0..count {
            self.add_steps(world, room, &mut steps)?;
            ends.push(steps.len())?;
        }
        Ok(Table::of(steps, ends))
    }
}
