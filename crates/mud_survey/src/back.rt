//! From which rooms a player comes to #0.

ghost use Rattle.std.specs.Prelude.{◌≡◌, ◌≤◌, ◌⊎◌, ◌∷◌, [], false, List, ℕ, IfOk, OnOk, IsTrue, MatchBool};
ghost use Rattle.mud_roads.specs.Passable.{IsTraveller, roads_of};
ghost use Rattle.mud_survey.specs.Ways.{IsLinked};
ghost use Rattle.mud_survey.specs.inner.Marks.{mark_at, Marks, IsFlood, work_left};

use crate::marks::{mark, mark_at};
use mud_roads::Traveller;
use mud_world::{Passage, World};
use std::alloc::{AllocError, Global};

// Rooms that are marked from #0 on, against the exits, and those to which no exit was looked at yet.
#[derive(Drop)]
struct Flood {
    marks: Vec<bool>,
    waiting: Vec<u32>,
}

impl Flood {
    // #0 is marked, and waits.
    fn new(alloc: Global, world: &World, player: u32) -> Result<Flood, AllocError>
        ensures { IfOk result (λ f. IsFlood world.now player f.marks.items f.waiting.items []) }
    {
        let mut marks = vec![in alloc; false; world.next_number() as usize]?;
        mark(&mut marks, 0);
        let mut waiting = Vec::new(alloc);
        waiting.push(0)?;
        Ok(Flood { marks, waiting })
    }

    // Returns whether the passage leads from a room without a mark to a marked one.
    fn leads_on(&self, passage: Passage) -> bool
        ensures { MatchBool result ((mark_at self.now.marks.items passage.source ≡ false)
            × IsTrue (mark_at self.now.marks.items passage.destination))
            (IsTrue (mark_at self.now.marks.items passage.source)
            ⊎ (mark_at self.now.marks.items passage.destination ≡ false)) }
    {
        mark_at(&self.marks, passage.destination) && !mark_at(&self.marks, passage.source)
    }

    // Marks the room that an exit leaves, if it is open to the traveller and leads to a marked room.
    fn follow(&mut self, world: &World, traveller: &Traveller, exit: u32) -> Result<(), AllocError>
        requires { IsTraveller world.now traveller.now }
        ensures flood { OnOk result ((left : List ℕ)
            → IsFlood world.now traveller.now.player self.old.marks.items self.old.waiting.items (exit ∷ left)
            → IsFlood world.now traveller.now.player self.new.marks.items self.new.waiting.items left) }
        ensures work { OnOk result ((left : List ℕ)
            → IsFlood world.now traveller.now.player self.old.marks.items self.old.waiting.items (exit ∷ left)
            → work_left self.new.marks.items self.new.waiting.items
            ≤ work_left self.old.marks.items self.old.waiting.items) }
    {
        // for the prover: `next_number` shows that the world is sound
        let _known = world.next_number();
        if !traveller.passes(world, exit) {
            return Ok(());
        }
        let Some(passage) = world.passage(exit) else {
            return Ok(());
        };
        if !self.leads_on(passage) {
            return Ok(());
        }
        self.waiting.push(passage.source)?;
        mark(&mut self.marks, passage.source);
        Ok(())
    }

    // Follows all these exits.
    fn follow_all(
        &mut self,
        world: &World,
        traveller: &Traveller,
        exits: &[u32],
    ) -> Result<(), AllocError>
        requires traveller { IsTraveller world.now traveller.now }
        requires flood { IsFlood world.now traveller.now.player self.old.marks.items self.old.waiting.items exits.now }
        ensures flood { OnOk result
            (IsFlood world.now traveller.now.player self.new.marks.items self.new.waiting.items []) }
        ensures work { OnOk result (work_left self.new.marks.items self.new.waiting.items
            ≤ work_left self.old.marks.items self.old.waiting.items) }
    {
        for exit in exits {
            self.follow(world, traveller, *exit)?;
        }
        Ok(())
    }
}

/// For each number whether a walk of the traveller leads from the room of that number to #0. The only error is out of
/// memory.
pub(crate) fn rooms_back(
    alloc: Global,
    world: &World,
    traveller: &Traveller,
) -> Result<Vec<bool>, AllocError>
    requires { IsTraveller world.now traveller.now }
    ensures { IfOk result (λ marks.
        Marks (λ room. IsLinked (roads_of world.now traveller.now.player) room 0) marks.items) }
{
    // for the prover: `next_number` shows that the world is sound
    let _known = world.next_number();
    let mut flood = Flood::new(alloc, world, traveller.player())?;
    while let Some(room) = flood.waiting.pop() {
        flood.follow_all(world, traveller, world.arriving(room))?;
    }
    let Flood { marks, .. } = flood;
    Ok(marks)
}
