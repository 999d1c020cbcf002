//! Questions to the guide, answered by several workers.

ghost use Rattle.std.specs.Prelude.{◌≢◌, ◌≤◌, All, AllPairs, IfOk, IsTrue, length};
ghost use Rattle.std.specs.Thread.{IsSync};
ghost use Rattle.mud_world.specs.State.{is_player, is_room};
ghost use Rattle.mud_world.specs.declared.limits.TheConstants.{MOST_ENTRIES};
ghost use Rattle.mud_roads.specs.Passable.{IsTraveller};
ghost use Rattle.mud_guide.specs.Answers.{IsRouteAnswer, IsMeetAnswer};
ghost use Rattle.mud_guide.specs.inner.Travellers.{AreTravellers};
ghost use Rattle.mud_world.specs.declared.limits.TheConstants.{MOST_PARTY};

use crate::answer::Answer;
use crate::ask::{meet_from, route_from, travellers_of};
use crate::lister::Crew;
use mud_roads::Traveller;
use mud_search::{Gate, labels, last_share};
use mud_world::World;
use std::alloc::{AllocError, Global};
use std::slice;
use std::sync::Wait;
use std::thread::{Threads, join};

/// The workers: the handle that starts their threads, their number including the caller's thread, and the gate that
/// each passes with each room.
#[derive(Drop)]
pub struct Workers<'a, R, G> {
    pub rt: &'a R,
    pub count: usize,
    pub gate: &'a G,
}

/// Answers like [`route_alone`](crate::route_alone), by workers that share the rooms (see [`labels`]). It may block,
/// and returns if the gate lets all pass. The only error is out of memory.
pub fn route<R: Threads + Wait + Sync, G: Gate + Sync>(
    by: &Workers<'_, R, G>,
    alloc: Global,
    world: &World,
    version: u32,
    player: u32,
    room: u32,
) -> Result<Answer, AllocError>
    requires player { IsTrue (is_player world.now player) }
    requires room { IsTrue (is_room world.now room) }
    requires version { version ≤ MOST_ENTRIES }
    ensures { IfOk result (IsRouteAnswer world.now version player room) }
{
    let traveller = Traveller::of(alloc, world, player)?;
    route_of(by, alloc, world, version, &traveller, room)
}

/// Answers like [`route`], for a traveller of this world that the caller has already.
pub fn route_of<R: Threads + Wait + Sync, G: Gate + Sync>(
    by: &Workers<'_, R, G>,
    alloc: Global,
    world: &World,
    version: u32,
    traveller: &Traveller,
    room: u32,
) -> Result<Answer, AllocError>
    requires traveller { IsTraveller world.now traveller.now }
    requires room { IsTrue (is_room world.now room) }
    requires version { version ≤ MOST_ENTRIES }
    ensures { IfOk result (IsRouteAnswer world.now version traveller.now.player room) }
{
    let party = slice::from_ref(traveller);
    let labels = labels(by.rt, alloc, world, party, by.count, by.gate)?;
    route_from(alloc, world, version, traveller, &labels, room)
}

/// Answers like [`meet_alone`](crate::meet_alone), by workers that search for the members separately (see [`labels`]).
/// It may block, and returns if the gate lets all pass. The only error is out of memory.
pub fn meet<R: Threads + Wait + Sync, G: Gate + Sync>(
    by: &Workers<'_, R, G>,
    alloc: Global,
    world: &World,
    version: u32,
    party: &[u32],
) -> Result<Answer, AllocError>
    requires players { All (λ p. IsTrue (is_player world.now p)) party.now }
    requires distinct { AllPairs (λ p q. p ≢ q) party.now }
    requires two { 2 ≤ length party.now }
    requires few { length party.now ≤ MOST_PARTY }
    requires version { version ≤ MOST_ENTRIES }
    ensures { IfOk result (IsMeetAnswer world.now version party.now) }
{
    let travellers = party_with(by.rt, alloc, world, party, by.count)?;
    let labels = labels(
        by.rt,
        alloc,
        world,
        travellers.as_slice(),
        by.count,
        by.gate,
    )?;
    let crew = Crew {
        rt: by.rt,
        workers: by.count,
    };
    meet_from(&crew, alloc, world, version, travellers.as_slice(), &labels)
}

// Returns these players as travellers. While there are two players and two workers, the last players are split off for
// the last workers. So the caller's thread starts all threads.
fn party_with<R: Threads + Sync>(
    rt: &R,
    alloc: Global,
    world: &World,
    party: &[u32],
    workers: usize,
) -> Result<Vec<Traveller>, AllocError>
    requires { All (λ p. IsTrue (is_player world.now p)) party.now }
    ensures { IfOk result (λ ts. AreTravellers world.now party.now ts.items) }
{
    let members = party.len();
    if members < 2 || workers < 2 {
        return travellers_of(alloc, world, party);
    }
    let (front, back) = party.split_at(members - last_share(members, workers));
    let after = last_share(workers, members);
    let before = workers - after;
    let (others, travellers) = join(
        rt,
        || -> Result<Vec<Traveller>, AllocError>
            requires { IsSync R.row × All (λ p. IsTrue (is_player world.now p)) back.now }
            ensures { IfOk result (λ ts. AreTravellers world.entry.now back.entry.now ts.items) }
        { party_with(rt, alloc, world, back, after) },
        || -> Result<Vec<Traveller>, AllocError>
            requires { IsSync R.row × All (λ p. IsTrue (is_player world.now p)) front.now }
            ensures { IfOk result (λ ts. AreTravellers world.entry.now front.entry.now ts.items) }
        { party_with(rt, alloc, world, front, before) },
    );
    let mut travellers = travellers?;
    let mut others = others?;
    travellers.append(&mut others)?;
    Ok(travellers)
}
