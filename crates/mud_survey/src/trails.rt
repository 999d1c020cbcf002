//! The rooms that players reach, and the exits that they pass.

ghost use Rattle.std.specs.Prelude.{◌≡◌, ℕ, ◌<◌, ◌↔◌, [], ◌∷◌, ◌++◌, length, map, All, List, IfOk, OnOk, IsTrue};
ghost use Rattle.std.specs.Prelude.{◌&&◌, not, is_some};
ghost use Rattle.std.specs.List.{range_with_len};
ghost use Rattle.mud_world.specs.State.{is_player};
ghost use Rattle.mud_roads.specs.Passable.{passable, IsTraveller};
ghost use Rattle.mud_search.specs.Least.{label_in, AreLeast};
ghost use Rattle.mud_survey.specs.Ways.{Comes, Passes};
ghost use Rattle.mud_survey.specs.inner.Marks.{mark_at, Marks};
ghost use Rattle.mud_survey.specs.inner.Trailed.{strandings, IsTrailed};

use crate::back::rooms_back;
use crate::marks::{mark_all, mark_at};
use crate::survey::Stranded;
use mud_roads::Traveller;
use mud_search::{Labels, labels_alone};
use mud_world::World;
use std::alloc::{AllocError, Global};
use std::slice;

/// The rooms that some players reach, and the exits that they pass.
#[derive(Drop)]
pub(crate) struct Trails {
    /// For each number: true if one of them comes to its room.
    pub(crate) comes: Vec<bool>,
    /// For each number: true if one of them passes its exit.
    pub(crate) passes: Vec<bool>,
    /// Players in rooms that they reach, without a way back to #0.
    pub(crate) stranded: Vec<Stranded>,
}

// Returns the marks of the numbers below the next that have a label.
fn labelled(alloc: Global, next: u32, labels: &Labels) -> Result<Vec<bool>, AllocError>
    ensures { IfOk result (λ marks. marks.items
        ≡ map (λ room. is_some (label_in labels.now 0 room)) (range_with_len 0 next)) }
{
    (0..next)
        .map(|room| labels.get(0, room).is_some())
        .collect(alloc)
}

// Returns the marks of the rooms that the traveller with these labels reaches.
fn rooms_reached(
    alloc: Global,
    world: &World,
    traveller: &Traveller,
    labels: &Labels,
) -> Result<Vec<bool>, AllocError>
    requires traveller { IsTraveller world.now traveller.now }
    requires least { AreLeast world.now (traveller.now ∷ []) (label_in labels.now) }
    ensures marks { IfOk result (λ marks. Marks (λ room. Comes world.now traveller.now.player room) marks.items) }
    ensures size { IfOk result (λ marks. length marks.items ≡ world.now.next) }
{
    let marks = labelled(alloc, world.next_number(), labels)?;
    Ok(marks)
}

// Returns whether the traveller reaches the room, and the exit is open to the traveller.
fn is_passed(world: &World, traveller: &Traveller, reached: &[bool], room: u32, exit: u32) -> bool
    requires { IsTraveller world.now traveller.now }
    ensures { result ≡ (mark_at reached.now room && passable world.now traveller.now.player exit) }
{
    mark_at(reached, room) && traveller.passes(world, exit)
}

// Returns whether the traveller, who reaches these rooms, passes the exit.
fn passes(world: &World, traveller: &Traveller, reached: &[bool], exit: u32) -> bool
    requires traveller { IsTraveller world.now traveller.now }
    requires reached { Marks (λ room. Comes world.now traveller.now.player room) reached.now }
    ensures { IsTrue result ↔ Passes world.now traveller.now.player exit }
{
    match world.passage(exit) {
        Some(passage) => is_passed(world, traveller, reached, passage.source, exit),
        None => false,
    }
}

// Returns the marks of the exits that the traveller, who reaches these rooms, passes.
fn exits_passed(
    alloc: Global,
    world: &World,
    traveller: &Traveller,
    reached: &[bool],
) -> Result<Vec<bool>, AllocError>
    requires traveller { IsTraveller world.now traveller.now }
    requires reached { Marks (λ room. Comes world.now traveller.now.player room) reached.now }
    ensures marks { IfOk result (λ marks. Marks (λ exit. Passes world.now traveller.now.player exit) marks.items) }
    ensures size { IfOk result (λ marks. length marks.items ≡ world.now.next) }
{
    let next = world.next_number();
    let mut marks = Vec::with_capacity(alloc, next as usize)?;
    for exit in 0..next {
        marks.push(passes(world, traveller, reached, exit))?;
    }
    Ok(marks)
}

// Returns whether the room is reached, and not back.
fn is_stranded(reached: &[bool], back: &[bool], room: u32) -> bool
    ensures { result ≡ (mark_at reached.now room && not (mark_at back.now room)) }
{
    mark_at(reached, room) && !mark_at(back, room)
}

// Adds the room if the player reaches it without a way back.
fn push_if_stranded(
    player: u32,
    room: u32,
    reached: &[bool],
    back: &[bool],
    stranded: &mut Vec<Stranded>,
) -> Result<(), AllocError>
    ensures { OnOk result (stranded.new.items
        ≡ stranded.old.items ++ strandings player reached.now back.now (room ∷ [])) }
{
    if !is_stranded(reached, back, room) {
        return Ok(());
    }
    stranded.push(Stranded { player, room })?;
    Ok(())
}

// Adds the rooms below this number that the player reaches without a way back.
fn push_stranded(
    next: u32,
    player: u32,
    reached: &[bool],
    back: &[bool],
    stranded: &mut Vec<Stranded>,
) -> Result<(), AllocError>
    ensures { OnOk result (stranded.new.items
        ≡ stranded.old.items ++ strandings player reached.now back.now (range_with_len 0 next)) }
{
    for room in 0..next {
        push_if_stranded(player, room, reached, back, stranded)?;
    }
    Ok(())
}

impl Trails {
    /// Returns those of no player.
    pub(crate) fn new(alloc: Global, world: &World) -> Result<Trails, AllocError>
        ensures { IfOk result (IsTrailed world.now []) }
    {
        let count = world.next_number() as usize;
        let comes = vec![in alloc; false; count]?;
        let passes = vec![in alloc; false; count]?;
        let stranded = Vec::new(alloc);
        Ok(Trails {
            comes,
            passes,
            stranded,
        })
    }

    /// Adds those of a player with a higher number.
    pub(crate) fn add(
        &mut self,
        alloc: Global,
        world: &World,
        player: u32,
    ) -> Result<(), AllocError>
        requires player { IsTrue (is_player world.now player) }
        requires comes { length self.old.comes.items ≡ world.now.next }
        requires passes { length self.old.passes.items ≡ world.now.next }
        ensures { OnOk result ((before : List ℕ) → All (λ p. p < player) before → IsTrailed world.now before self.old
            → IsTrailed world.now (before ++ player ∷ []) self.new) }
    {
        let traveller = Traveller::of(alloc, world, player)?;
        let labels = labels_alone(alloc, world, slice::from_ref(&traveller))?;
        let reached = rooms_reached(alloc, world, &traveller, &labels)?;
        let passed = exits_passed(alloc, world, &traveller, &reached)?;
        let back = rooms_back(alloc, world, &traveller)?;
        mark_all(&mut self.comes, &reached);
        mark_all(&mut self.passes, &passed);
        push_stranded(
            world.next_number(),
            player,
            &reached,
            &back,
            &mut self.stranded,
        )?;
        Ok(())
    }
}
