//! Computes the least labels on the caller's thread.

ghost use Rattle.std.specs.Prelude.{◌≡◌, ◌+◌, ◌*◌, ◌<◌, ◌≤◌, ℕ, All, None, IfOk, length};
ghost use Rattle.mud_roads.specs.Passable.{IsTraveller};
ghost use Rattle.mud_search.specs.Least.{label_in, AreLeast, AreBounded};
ghost use Rattle.mud_world.specs.declared.limits.TheConstants.{MOST_PARTY};

use crate::found::Labels;
use crate::frontier::Frontier;
use crate::job::Job;
use crate::steps::Steps;
use mud_roads::Traveller;
use mud_world::World;
use std::alloc::{AllocError, Global};
use std::marker::Brand;
use std::sync::ledger::{Blank, Ledger};

/// Returns the least labels of up to eight travellers of this world, computed on the caller's thread. Each cost is at
/// most 81,910,000, and each number of exits at most 8,191. The only error is out of memory.
pub fn labels_alone(
    alloc: Global,
    world: &World,
    travellers: &[Traveller],
) -> Result<Labels, AllocError>
    requires travellers { All (IsTraveller world.now) travellers.now }
    requires few { length travellers.now ≤ MOST_PARTY }
    ensures least { IfOk result (λ labels. AreLeast world.now travellers.now (label_in labels)) }
    ensures members { IfOk result (λ labels. (m room : ℕ) → length travellers.now ≤ m → label_in labels m room ≡ None) }
    ensures bounded { IfOk result (λ labels. AreBounded (label_in labels)) }
{
    labels_uncounted::<Brand>(alloc, world, travellers, Blank::new(1))
}

/// Returns what [`labels_alone`] returns, and counts the rooms that it takes: each at most once for each traveller.
pub fn labels_counted<L: Ledger>(
    alloc: Global,
    world: &World,
    travellers: &[Traveller],
    taken: &mut Steps<L>,
) -> Result<Labels, AllocError>
    requires travellers { All (IsTraveller world.now) travellers.now }
    requires few { length travellers.now ≤ MOST_PARTY }
    ensures least { IfOk result (λ labels. AreLeast world.now travellers.now (label_in labels)) }
    ensures members { IfOk result (λ labels. (m room : ℕ) → length travellers.now ≤ m → label_in labels m room ≡ None) }
    ensures bounded { IfOk result (λ labels. AreBounded (label_in labels)) }
    ensures cost { taken.new ≤ taken.old + length travellers.now * world.now.next }
{
    counted_for::<Brand, L>(alloc, world, travellers, taken)
}

// Returns the least labels, with a count in the ledger of this blank that no caller reads.
fn labels_uncounted<L: Ledger>(
    alloc: Global,
    world: &World,
    travellers: &[Traveller],
    blank: Blank,
) -> Result<Labels, AllocError>
    requires travellers { All (IsTraveller world.now) travellers.now }
    requires few { length travellers.now ≤ MOST_PARTY }
    requires name { blank.name ≡ L.name }
    requires parts { blank.parts ≡ L.parts }
    requires some { 0 < blank.parts }
    ensures least { IfOk result (λ labels. AreLeast world.now travellers.now (label_in labels)) }
    ensures members { IfOk result (λ labels. (m room : ℕ) → length travellers.now ≤ m → label_in labels m room ≡ None) }
    ensures bounded { IfOk result (λ labels. AreBounded (label_in labels)) }
{
    let mut taken = Steps::<L>::new(blank);
    labels_counted(alloc, world, travellers, &mut taken)
}

// Returns the least labels of a job's travellers, and counts the rooms that it takes.
fn counted_for<J: Job, L: Ledger>(
    alloc: Global,
    world: &World,
    travellers: &[Traveller],
    taken: &mut Steps<L>,
) -> Result<Labels, AllocError>
    requires world { world.now ≡ J.world }
    requires travellers { travellers.now ≡ J.travellers }
    requires these { All (IsTraveller J.world) J.travellers }
    requires few { length J.travellers ≤ MOST_PARTY }
    ensures least { IfOk result (λ labels. AreLeast J.world J.travellers (label_in labels)) }
    ensures members { IfOk result (λ labels. (m room : ℕ) → length J.travellers ≤ m → label_in labels m room ≡ None) }
    ensures bounded { IfOk result (λ labels. AreBounded (label_in labels)) }
    ensures cost { taken.new ≤ taken.old + length J.travellers * J.world.next }
{
    let mut frontier = Frontier::<J>::new(alloc, world, travellers)?;
    frontier.finish_counted(travellers, taken);
    Ok(frontier.into_labels())
}
