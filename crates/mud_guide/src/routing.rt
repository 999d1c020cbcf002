//! Builds routes.

ghost use Rattle.std.specs.Prelude.{IfOk, IsSome};
ghost use Rattle.mud_roads.specs.Walks.{IsRoute};
ghost use Rattle.mud_roads.specs.Passable.{IsTraveller, roads_of};
ghost use Rattle.mud_search.specs.Least.{label_in};
ghost use Rattle.mud_guide.specs.inner.Arrivals.{Labelled};
ghost use Rattle.mud_guide.specs.inner.Members.{IsWay};

use crate::arrivals::last_step;
use crate::way::Way;
use mud_roads::{Step, Traveller};
use mud_search::Labels;
use mud_world::World;
use std::alloc::{AllocError, Global};

// Returns the route of a member to a room that it reaches. It goes back from the room, each time by the lowest exit
// that ends a least walk.
fn walk_to(
    alloc: Global,
    world: &World,
    traveller: &Traveller,
    labels: &Labels,
    member: usize,
    to: u32,
) -> Result<Vec<Step>, AllocError>
    requires traveller { IsTraveller world.now traveller.now }
    requires least { Labelled (roads_of world.now traveller.now.player) traveller.now.place
        (label_in labels.now member) }
    requires reached { IsSome (label_in labels.now member to) }
    ensures { IfOk result (λ ss. IsRoute 1 (roads_of world.now traveller.now.player) traveller.now.place to ss.items) }
{
    let mut steps = Vec::new(alloc);
    let mut at = to;
    while let Some(arrival) = last_step(world, traveller, labels, member, at) {
        steps.push(arrival.step)?;
        at = arrival.by;
    }
    steps.as_mut_slice().reverse();
    Ok(steps)
}

/// Returns the route of a member to a room, if it reaches the room.
pub(crate) fn way_to(
    alloc: Global,
    world: &World,
    traveller: &Traveller,
    labels: &Labels,
    member: usize,
    to: u32,
) -> Result<Option<Way>, AllocError>
    requires traveller { IsTraveller world.now traveller.now }
    requires least { Labelled (roads_of world.now traveller.now.player) traveller.now.place
        (label_in labels.now member) }
    ensures { IfOk result (λ way. IsWay (roads_of world.now traveller.now.player) traveller.now.place to way) }
{
    match labels.get(member, to) {
        Some(label) => {
            let steps = walk_to(alloc, world, traveller, labels, member, to)?;
            Ok(Some(Way::new(label.cost, steps)))
        }
        None => Ok(None),
    }
}
