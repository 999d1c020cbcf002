//! Interface to the guide: on the caller's thread, or with workers.

ghost use Rattle.std.specs.Prelude.{◌≡◌, ◌≤◌, ⊤, ℕ, Some, IfOk, IfSome, IsTrue};
ghost use Rattle.mud_world.specs.State.{is_player};
ghost use Rattle.mud_rules.specs.inner.Outcome.{IsJourney};
ghost use Rattle.mud_world.specs.declared.limits.TheConstants.{MOST_ENTRIES};
ghost use Rattle.mud_hall.specs.Answers.{IsGuided};
ghost use Rattle.mud_hall.specs.inner.Desks.{Travels};

use mud_guide::{Answer, Workers, meet, meet_alone, route, route_alone, route_of, route_of_alone};
use mud_roads::Traveller;
use mud_rules::Journey;
use mud_search::Gate;
use mud_world::World;
use std::alloc::{AllocError, Global};
use std::sync::Wait;
use std::thread::Threads;

/// A way to compute the guide's answers.
pub(crate) trait Guide {
    /// The precondition of a call.
    ghost ready: { Self → Type 0 } = { λ _. ⊤ };

    /// Returns the guide's answer to a player's question for a journey. The traveller, if given, is that player.
    fn journey(
        &self,
        alloc: Global,
        world: &World,
        version: u32,
        player: u32,
        traveller: Option<&Traveller>,
        journey: &Journey,
    ) -> Result<Answer, AllocError>
        requires ready { Self.ready self.now }
        requires version { version ≤ MOST_ENTRIES }
        requires player { IsTrue (is_player world.now player) }
        requires traveller { IfSome traveller (λ t. Travels world.now player t.now) }
        requires journey { IsJourney world.now journey.now }
        ensures version { IfOk result (λ a. a.version ≡ version) }
        ensures guided { IfOk result (IsGuided world.now version (Some player) journey.now) };
}

/// The caller's thread without workers.
#[derive(Clone, Copy, Drop)]
pub(crate) struct Alone;

impl Guide for Alone {
    fn journey(
        &self,
        alloc: Global,
        world: &World,
        version: u32,
        player: u32,
        traveller: Option<&Traveller>,
        journey: &Journey,
    ) -> Result<Answer, AllocError> {
        match journey {
            Journey::Route { to } => match traveller {
                Some(traveller) => route_of_alone(alloc, world, version, traveller, *to),
                None => route_alone(alloc, world, version, player, *to),
            },
            Journey::Meet(party) => meet_alone(alloc, world, version, party.members()),
        }
    }
}

/// The workers that a closure has. A method of a trait can't start threads, and a closure can.
#[derive(Drop)]
pub(crate) struct Through<
    F: Fn(Global, &World, u32, u32, Option<&Traveller>, &Journey) -> Result<Answer, AllocError>,
> {
    pub(crate) find: F,
}

impl<
    F: Fn(Global, &World, u32, u32, Option<&Traveller>, &Journey) -> Result<Answer, AllocError>,
> Guide for Through<F> {
    ghost ready = { λ s. (a : _) (w : _) (v p : ℕ) (t : _) (j : _)
        → v ≤ MOST_ENTRIES → IsTrue (is_player w.now p) → IfSome t (λ k. Travels w.now p k.now)
        → IsJourney w.now j.now → F.pre s.find a w v p t j
        × ((r : _) → F.post s.find a w v p t j r
        → IfOk r (λ a. a.version ≡ v) × IfOk r (IsGuided w.now v (Some p) j.now)) };

    fn journey(
        &self,
        alloc: Global,
        world: &World,
        version: u32,
        player: u32,
        traveller: Option<&Traveller>,
        journey: &Journey,
    ) -> Result<Answer, AllocError> {
        (self.find)(alloc, world, version, player, traveller, journey)
    }
}

/// Returns the guide's answer to a player's question for a journey, computed by workers. The traveller, if given, is
/// that player.
pub(crate) fn by_workers<R: Threads + Wait + Sync, G: Gate + Sync>(
    by: &Workers<'_, R, G>,
    alloc: Global,
    world: &World,
    version: u32,
    player: u32,
    traveller: Option<&Traveller>,
    journey: &Journey,
) -> Result<Answer, AllocError>
    requires version { version ≤ MOST_ENTRIES }
    requires player { IsTrue (is_player world.now player) }
    requires traveller { IfSome traveller (λ t. Travels world.now player t.now) }
    requires journey { IsJourney world.now journey.now }
    ensures version { IfOk result (λ a. a.version ≡ version) }
    ensures guided { IfOk result (IsGuided world.now version (Some player) journey.now) }
{
    match journey {
        Journey::Route { to } => match traveller {
            Some(traveller) => route_of(by, alloc, world, version, traveller, *to),
            None => route(by, alloc, world, version, player, *to),
        },
        Journey::Meet(party) => meet(by, alloc, world, version, party.members()),
    }
}
