//! Travellers, computed once for each world and player.

ghost use Rattle.std.specs.Prelude.{◌≡◌, IfSome, IsTrue};
ghost use Rattle.mud_world.specs.State.{State, is_player};
ghost use Rattle.mud_world.specs.Sound.{IsSound};
ghost use Rattle.mud_world.specs.History.{step_or_same};
ghost use Rattle.mud_roads.specs.Passable.{IsFollower};
ghost use Rattle.mud_hall.specs.inner.Desks.{Travels};

use mud_roads::Traveller;
use mud_rules::{Journey, Query, Verdict};
use mud_world::{Change, World};
use std::alloc::{AllocError, Global};

/// Computes the traveller of the player who asks for a route, or makes the known one current. If an allocation fails,
/// the known one stays.
pub(crate) fn find_traveller(
    alloc: Global,
    world: &World,
    player: Option<u32>,
    traveller: &mut Option<Traveller>,
    verdict: &Verdict,
) -> Result<(), AllocError>
    requires seated { IfSome player (λ p. IsTrue (is_player world.now p)) }
    requires known { IfSome traveller.old (IsFollower world.now) }
    ensures { IfSome traveller.new (IsFollower world.now) }
{
    match player {
        Some(player) if asks_route(verdict) => renew(alloc, world, player, traveller),
        _ => Ok(()),
    }
}

// Makes the known traveller current if it is this player, and a new one otherwise.
fn renew(
    alloc: Global,
    world: &World,
    player: u32,
    traveller: &mut Option<Traveller>,
) -> Result<(), AllocError>
    requires seated { IsTrue (is_player world.now player) }
    requires known { IfSome traveller.old (IsFollower world.now) }
    ensures { IfSome traveller.new (IsFollower world.now) }
{
    match traveller {
        Some(known) if known.player() == player => known.refresh(alloc, world),
        _ => {
            *traveller = Some(Traveller::of(alloc, world, player)?);
            Ok(())
        }
    }
}

/// Returns the traveller, if it is this player and current.
pub(crate) fn traveller_of<'a>(
    world: &World,
    traveller: &'a Option<Traveller>,
    player: u32,
) -> Option<&'a Traveller>
    requires { IfSome traveller.now (IsFollower world.now) }
    ensures { IfSome result (λ t. Travels world.now player t.now) }
{
    match traveller {
        Some(traveller) if traveller.player() == player && traveller.is_current() => {
            Some(traveller)
        }
        _ => None,
    }
}

/// Has a known traveller follow a change. `world` is the world after the change. If an allocation fails, the traveller
/// is forgotten.
pub(crate) fn follow_change(traveller: &mut Option<Traveller>, world: &World, change: &Change)
    ensures { (was : State) → IsSound was → IfSome traveller.old (IsFollower was)
        → world.now ≡ step_or_same was change.now → IfSome traveller.new (IsFollower world.now) }
{
    let follows = match traveller {
        Some(known) => known.follow(world, change).is_ok(),
        None => true,
    };
    if !follows {
        *traveller = None;
    }
}

// Returns whether a line asks for a route, or for the proof of one.
fn asks_route(verdict: &Verdict) -> bool {
    match verdict {
        Verdict::Ask(Query::Journey(Journey::Route { .. })) => true,
        Verdict::Ask(Query::Proof(Journey::Route { .. })) => true,
        _ => false,
    }
}
