//! Makes the claims of a certificate for each member.

ghost use Rattle.std.specs.Prelude.{◌≡◌, ◌+◌, ◌≤◌, All, IfOk, length};
ghost use Rattle.std.specs.Option.{option_map};
ghost use Rattle.mud_world.specs.declared.limits.TheConstants.{NUMBERS, MOST_PARTY};
ghost use Rattle.mud_cert.specs.Certificate.{IsAccount};
ghost use Rattle.mud_search.specs.Least.{label_in, AreBounded};
ghost use Rattle.mud_guide.specs.Ways.{exits_of};
ghost use Rattle.mud_guide.specs.inner.Listings.{IsInside, IsListed, AreListed};

use crate::leg::Leg;
use crate::way::Way;
use mud_cert::Member;
use mud_roads::Step;
use mud_search::Labels;
use std::alloc::{AllocError, Global};

// Returns the exits of a walk.
fn exits_of(alloc: Global, steps: &[Step]) -> Result<Vec<u32>, AllocError>
    ensures { IfOk result (λ exits. exits.items ≡ exits_of steps.now) }
{
    let mut exits = Vec::with_capacity(alloc, steps.len())?;
    for step in steps {
        exits.push(step.exit)?;
    }
    Ok(exits)
}

// Returns the exits of a way, if there is one.
fn walk_of(alloc: Global, way: &Option<Way>) -> Result<Option<Vec<u32>>, AllocError>
    ensures { IfOk result (λ walk. option_map (λ exits. exits.items) walk ≡ option_map exits_of way.now) }
{
    match way {
        Some(way) => Ok(Some(exits_of(alloc, way.steps())?)),
        None => Ok(None),
    }
}

// Returns the claims about the member of a leg.
fn account_of(
    alloc: Global,
    next: u32,
    leg: &Leg,
    labels: &Labels,
    member: usize,
) -> Result<Member, AllocError>
    requires few { next ≤ NUMBERS }
    requires inside { IsInside next leg.now }
    requires bounded { AreBounded (label_in labels.now) }
    ensures account { IfOk result (IsListed (label_in labels.now member) next leg.now) }
    ensures limits { IfOk result IsAccount }
{
    let entries = labels.below(alloc, member, next)?;
    let walk = walk_of(alloc, &leg.way)?;
    Ok(Member::new(leg.player, leg.from, entries, walk))
}

/// Returns the claims about all members of these legs. They are the members from a number on.
pub(crate) fn accounts_of(
    alloc: Global,
    next: u32,
    legs: &[Leg],
    labels: &Labels,
    first: usize,
) -> Result<Vec<Member>, AllocError>
    requires few { next ≤ NUMBERS }
    requires members { first + length legs.now ≤ MOST_PARTY }
    requires inside { All (IsInside next) legs.now }
    requires bounded { AreBounded (label_in labels.now) }
    ensures accounts { IfOk result (λ ms.
        AreListed (λ m. label_in labels.now (first + m)) next legs.now ms.items) }
    ensures limits { IfOk result (λ ms. All IsAccount ms.items) }
{
    let mut accounts = Vec::with_capacity(alloc, legs.len())?;
    for member in 0..legs.len() {
        accounts.push(account_of(alloc, next, &legs[member], labels, first + member)?)?;
    }
    Ok(accounts)
}
