//! The last step of a route.

ghost use Rattle.std.specs.Prelude.{◌≡◌};
ghost use Rattle.mud_roads.specs.Passable.{IsTraveller, roads_of};
ghost use Rattle.mud_search.specs.Least.{label_in};
ghost use Rattle.mud_guide.specs.inner.Arrivals.{IsLast, IsBy, ends};

use mud_roads::{Label, Step, Traveller};
use mud_search::Labels;
use mud_world::World;

/// The last step of a walk, and the room that it leaves.
#[derive(Clone, Copy, Debug, PartialEq, Eq, Drop)]
pub(crate) struct Arrival {
    pub(crate) by: u32,
    pub(crate) step: Step,
}

/// Returns the step of the lowest exit that ends a least walk to the room, if there is one. It does not allocate.
pub(crate) fn last_step(
    world: &World,
    traveller: &Traveller,
    labels: &Labels,
    member: usize,
    to: u32,
) -> Option<Arrival>
    requires { IsTraveller world.now traveller.now }
    ensures { IsLast (roads_of world.now traveller.now.player) (label_in labels.now member) to result }
{
    // for the prover: `next_number` shows that the world is sound
    let _known = world.next_number();
    for exit in world.arriving(to) {
        let arrival = arrival_by(world, traveller, labels, member, *exit);
        if arrival.is_some() {
            return arrival;
        }
    }
    None
}

// Returns the step of the exit, if it is open to the traveller and ends a least walk.
fn arrival_by(
    world: &World,
    traveller: &Traveller,
    labels: &Labels,
    member: usize,
    exit: u32,
) -> Option<Arrival>
    requires { IsTraveller world.now traveller.now }
    ensures { IsBy (roads_of world.now traveller.now.player) (label_in labels.now member) exit result }
{
    // for the prover: `next_number` shows that the world is sound
    let _known = world.next_number();
    let passage = world.passage(exit)?;
    let label = labels.get(member, passage.source)?;
    if !ends(label, passage.cost, labels.get(member, passage.destination)) {
        return None;
    }
    let step = traveller.step_by(world, exit)?;
    Some(Arrival {
        by: passage.source,
        step,
    })
}

// Returns whether the label there is the label before it, after a step of this cost.
fn ends(label: Label, cost: u32, there: Option<Label>) -> bool
    ensures { result ≡ ends label cost there }
{
    match there {
        None => false,
        Some(next) => {
            u64::from(label.cost) + u64::from(cost) == u64::from(next.cost)
                && u64::from(label.exits) + 1 == u64::from(next.exits)
        }
    }
}
