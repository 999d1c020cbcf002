//! Computes the least labels by several workers.

ghost use Rattle.std.specs.Prelude.{◌≡◌, ◌≤◌, ℕ, All, None, IfOk, length};
ghost use Rattle.std.specs.Thread.{IsSync};
ghost use Rattle.mud_roads.specs.Passable.{IsTraveller};
ghost use Rattle.mud_search.specs.Least.{label_in, AreLeast, AreBounded};
ghost use Rattle.mud_search.specs.inner.Travellers.{AreFound};
ghost use Rattle.mud_world.specs.declared.limits.TheConstants.{MOST_PARTY};

use crate::found::Labels;
use crate::frontier::Frontier;
use crate::gate::Gate;
use crate::job::Job;
use crate::part::Part;
use crate::share::last_share;
use crate::workers::work_together;
use mud_roads::Traveller;
use mud_world::World;
use std::alloc::{AllocError, Global};
use std::marker::Brand;
use std::sync::Wait;
use std::thread::{Threads, join};

/// Returns the least labels of up to eight travellers of this world, computed by N workers; with none it is
/// [`labels_alone`](crate::labels_alone). The caller's thread is the first worker, and the others are new threads. If a
/// thread can't be started, the others do its work. Members are searched separately as far as there are workers, and
/// several workers for one member share that member's rooms. The labels do not depend on the number of workers or on
/// the gate. It may block, and returns if the gate lets all workers pass. The only error is out of memory.
pub fn labels<R: Threads + Wait + Sync, G: Gate + Sync>(
    rt: &R,
    alloc: Global,
    world: &World,
    travellers: &[Traveller],
    workers: usize,
    gate: &G,
) -> Result<Labels, AllocError>
    requires travellers { All (IsTraveller world.now) travellers.now }
    requires few { length travellers.now ≤ MOST_PARTY }
    ensures least { IfOk result (λ labels. AreLeast world.now travellers.now (label_in labels)) }
    ensures members { IfOk result (λ labels. (m room : ℕ) → length travellers.now ≤ m → label_in labels m room ≡ None) }
    ensures bounded { IfOk result (λ labels. AreBounded (label_in labels)) }
{
    labels_apart(rt, alloc, world, travellers, Part::whole(workers), gate)
}

// Returns the labels of a part. While the part has two members and two workers, its last members are split off for the
// last workers. So the caller's thread starts all threads, and is the first worker.
fn labels_apart<R: Threads + Wait + Sync, G: Gate + Sync>(
    rt: &R,
    alloc: Global,
    world: &World,
    travellers: &[Traveller],
    part: Part,
    gate: &G,
) -> Result<Labels, AllocError>
    requires travellers { All (IsTraveller world.now) travellers.now }
    requires few { length travellers.now ≤ MOST_PARTY }
    ensures { IfOk result (AreFound world.now travellers.now) }
{
    let members = travellers.len();
    if members < 2 || part.workers < 2 {
        return labels_together(rt, alloc, world, travellers, part, gate);
    }
    let before = members - last_share(members, part.workers);
    let behind = last_share(part.workers, members);
    let (front, back) = travellers.split_at(before);
    let (others, labels) = join(
        rt,
        || -> Result<Labels, AllocError>
            requires { IsSync R.row × IsSync G.row × All (IsTraveller world.now) back.now
                × (length back.now ≤ MOST_PARTY) }
            ensures { IfOk result (AreFound world.entry.now back.entry.now) }
        { labels_apart(rt, alloc, world, back, part.back(before, behind), gate) },
        || -> Result<Labels, AllocError>
            requires { IsSync R.row × IsSync G.row × All (IsTraveller world.now) front.now
                × (length front.now ≤ MOST_PARTY) }
            ensures { IfOk result (AreFound world.entry.now front.entry.now) }
        { labels_apart(rt, alloc, world, front, part.front(behind), gate) },
    );
    let mut labels = labels?;
    labels.append(others?)?;
    Ok(labels)
}

// Returns the labels of a part, computed from one frontier.
fn labels_together<R: Threads + Wait + Sync, G: Gate + Sync>(
    rt: &R,
    alloc: Global,
    world: &World,
    travellers: &[Traveller],
    part: Part,
    gate: &G,
) -> Result<Labels, AllocError>
    requires travellers { All (IsTraveller world.now) travellers.now }
    requires few { length travellers.now ≤ MOST_PARTY }
    ensures { IfOk result (AreFound world.now travellers.now) }
{
    together_for::<Brand, R, G>(rt, alloc, world, travellers, part, gate)
}

// Returns the labels of a job's travellers.
fn together_for<J: Job + Send + Sync, R: Threads + Wait + Sync, G: Gate + Sync>(
    rt: &R,
    alloc: Global,
    world: &World,
    travellers: &[Traveller],
    part: Part,
    gate: &G,
) -> Result<Labels, AllocError>
    requires world { world.now ≡ J.world }
    requires travellers { travellers.now ≡ J.travellers }
    requires these { All (IsTraveller J.world) J.travellers }
    requires few { length J.travellers ≤ MOST_PARTY }
    ensures { IfOk result (AreFound J.world J.travellers) }
{
    let mut frontier = Frontier::<J>::new(alloc, world, travellers)?;
    if part.workers > 1 {
        frontier = work_together(rt, travellers, frontier, part, gate);
    }
    frontier.finish_by(travellers, part, gate);
    Ok(frontier.into_member_labels())
}
