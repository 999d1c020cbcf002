//! Finds the faults of a world for some players.

ghost use Rattle.std.specs.Prelude.{◌≡◌, ◌<◌, All, AllPairs, filter, IfOk, IsTrue};
ghost use Rattle.std.specs.List.{range_with_len, list_any};
ghost use Rattle.mud_key.specs.Node.{key_of};
ghost use Rattle.mud_world.specs.State.{is_player, leaving_of};
ghost use Rattle.mud_survey.specs.Survey.{IsSurvey};
ghost use Rattle.mud_survey.specs.inner.Tests.{is_unreached, is_unpassed, leads_to, is_one_way, is_gone_in};
ghost use Rattle.mud_survey.specs.inner.Tests.{names_gone, holder_from, is_out_of_reach};
ghost use Rattle.mud_survey.specs.inner.Trailed.{IsTrailed};

use crate::marks::mark_at;
use crate::survey::Survey;
use crate::trails::Trails;
use mud_key::Node;
use mud_world::{Passage, World};
use std::alloc::{AllocError, Global};

fn is_unreached(world: &World, comes: &[bool], number: u32) -> bool
    ensures { result ≡ is_unreached world.now comes.now number }
{
    world.is_room(number) && !mark_at(comes, number)
}

// The rooms to which nobody comes.
fn unreached(alloc: Global, world: &World, comes: &[bool]) -> Result<Vec<u32>, AllocError>
    ensures { IfOk result (λ found. found.items
        ≡ filter (is_unreached world.now comes.now) (range_with_len 0 world.now.next)) }
{
    (0..world.next_number())
        .filter(|number| is_unreached(world, comes, *number))
        .collect(alloc)
}

fn is_unpassed(world: &World, passes: &[bool], number: u32) -> bool
    ensures { result ≡ is_unpassed world.now passes.now number }
{
    world.is_exit(number) && !mark_at(passes, number)
}

// The exits that nobody passes.
fn unpassed(alloc: Global, world: &World, passes: &[bool]) -> Result<Vec<u32>, AllocError>
    ensures { IfOk result (λ found. found.items
        ≡ filter (is_unpassed world.now passes.now) (range_with_len 0 world.now.next)) }
{
    (0..world.next_number())
        .filter(|number| is_unpassed(world, passes, *number))
        .collect(alloc)
}

// Returns whether the exit leads to the room.
fn leads_to(world: &World, room: u32, exit: u32) -> bool
    ensures { result ≡ leads_to world.now room exit }
{
    match world.passage(exit) {
        Some(passage) => passage.destination == room,
        None => false,
    }
}

// Returns whether an exit leads back from the end of a passage.
fn leads_back(world: &World, passage: Passage) -> bool
    ensures { result ≡ list_any (leads_to world.now passage.source) (leaving_of world.now passage.destination) }
{
    let room = passage.source;
    let leaving = world.leaving(passage.destination);
    leaving.iter().any(|other| leads_to(world, room, *other))
}

// Returns whether it is an exit and no exit leads back.
fn is_one_way(world: &World, exit: u32) -> bool
    ensures { result ≡ is_one_way world.now exit }
{
    match world.passage(exit) {
        Some(passage) => !leads_back(world, passage),
        None => false,
    }
}

// The exits from which none leads back.
fn one_way(alloc: Global, world: &World) -> Result<Vec<u32>, AllocError>
    ensures { IfOk result (λ found. found.items ≡ filter (is_one_way world.now) (range_with_len 0 world.now.next)) }
{
    (0..world.next_number())
        .filter(|exit| is_one_way(world, *exit))
        .collect(alloc)
}

// Returns whether an object of the key is gone.
fn is_gone_in(world: &World, node: &Node<u32>) -> bool
    ensures { result ≡ is_gone_in world.now (key_of node.now) }
{
    match node {
        Node::Has(object) | Node::Asks(object) => !world.exists(*object),
        Node::Not(key) => is_gone_in(world, key),
        Node::Join(_, left, right) => is_gone_in(world, left) || is_gone_in(world, right),
    }
}

// Returns whether the object has a key that names an object that is gone.
fn names_gone(world: &World, number: u32) -> bool
    ensures { result ≡ names_gone world.now number }
{
    let Some(kept) = world.get(number) else {
        return false;
    };
    match &kept.key {
        Some(key) => is_gone_in(world, key.node()),
        None => false,
    }
}

// The objects with a key that names what is gone.
fn gone_keys(alloc: Global, world: &World) -> Result<Vec<u32>, AllocError>
    ensures { IfOk result (λ found. found.items ≡ filter (names_gone world.now) (range_with_len 0 world.now.next)) }
{
    (0..world.next_number())
        .filter(|number| names_gone(world, *number))
        .collect(alloc)
}

// The room or the player that has a thing, with all things in which it lies.
fn holder_of(world: &World, thing: u32) -> Option<u32>
    ensures { result ≡ holder_from world.now world.now.next thing }
{
    let mut at = thing;
    for _passed in 0..world.next_number() {
        let place = world.place(at)?;
        if !world.is_thing(place) {
            return Some(place);
        }
        at = place;
    }
    None
}

// Returns whether it is a thing that lies where nobody comes and that no player of the survey has.
fn is_out_of_reach(world: &World, comes: &[bool], players: &[u32], number: u32) -> bool
    ensures { result ≡ is_out_of_reach world.now comes.now players.now number }
{
    if !world.is_thing(number) {
        return false;
    }
    match holder_of(world, number) {
        Some(holder) => !mark_at(comes, holder) && !players.contains(&holder),
        None => true,
    }
}

// The things that nobody gets.
fn out_of_reach(
    alloc: Global,
    world: &World,
    comes: &[bool],
    players: &[u32],
) -> Result<Vec<u32>, AllocError>
    ensures { IfOk result (λ found. found.items
        ≡ filter (is_out_of_reach world.now comes.now players.now) (range_with_len 0 world.now.next)) }
{
    (0..world.next_number())
        .filter(|number| is_out_of_reach(world, comes, players, *number))
        .collect(alloc)
}

// Where the players come, and what they pass.
fn trails_of(alloc: Global, world: &World, players: &[u32]) -> Result<Trails, AllocError>
    requires players { All (λ p. IsTrue (is_player world.now p)) players.now }
    requires rising { AllPairs ◌<◌ players.now }
    ensures { IfOk result (IsTrailed world.now players.now) }
{
    let mut trails = Trails::new(alloc, world)?;
    for player in players {
        trails.add(alloc, world, *player)?;
    }
    Ok(trails)
}

/// Returns the findings in the world for these players, whose numbers rise (docs/KEEPING.md, "Survey"). Each list has
/// exactly the members of its definition. The only error is out of memory.
pub fn survey_world(alloc: Global, world: &World, players: &[u32]) -> Result<Survey, AllocError>
    requires players { All (λ p. IsTrue (is_player world.now p)) players.now }
    requires rising { AllPairs ◌<◌ players.now }
    ensures { IfOk result (IsSurvey world.now players.now) }
{
    // for the prover: `next_number` shows that the world is sound
    let _known = world.next_number();
    let Trails {
        comes,
        passes,
        stranded,
    } = trails_of(alloc, world, players)?;
    Ok(Survey {
        rooms: unreached(alloc, world, &comes)?,
        exits: unpassed(alloc, world, &passes)?,
        one_way: one_way(alloc, world)?,
        no_way_back: stranded,
        keys: gone_keys(alloc, world)?,
        things: out_of_reach(alloc, world, &comes, players)?,
    })
}
