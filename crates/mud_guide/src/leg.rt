//! Legs: the parts of an answer, one for each player.

ghost use Rattle.std.specs.Prelude.{IfOk};
ghost use Rattle.std.specs.List.{AllZip};
ghost use Rattle.mud_roads.specs.Passable.{IsTraveller, roads_of};
ghost use Rattle.mud_search.specs.Least.{label_in};
ghost use Rattle.mud_guide.specs.inner.Arrivals.{Labelled};
ghost use Rattle.mud_guide.specs.Legs.{IsLeg};
ghost use Rattle.mud_guide.specs.inner.Travellers.{AreMembers};

use crate::routing::way_to;
use crate::way::Way;
use mud_roads::Traveller;
use mud_search::Labels;
use mud_world::World;
use std::alloc::{AllocError, Global};
use std::marker::Model;

/// A player, the room where it starts, and its way. There is no way if no walk leads to the target, or if there is no
/// target.
#[derive(Drop)]
pub(crate) struct Leg {
    pub(crate) player: u32,
    pub(crate) from: u32,
    pub(crate) way: Option<Way>,
}

impl Model for Leg {
    ghost use Rattle.mud_guide.specs.Legs.{Leg};

    ghost Value = { Leg };

    ghost view = { λ j. record { player = j.player; from = j.from; way = j.way } };
}

/// Returns the leg of a member to a room, if there is one to go to.
pub(crate) fn leg_to(
    alloc: Global,
    world: &World,
    traveller: &Traveller,
    labels: &Labels,
    member: usize,
    to: Option<u32>,
) -> Result<Leg, AllocError>
    requires traveller { IsTraveller world.now traveller.now }
    requires least { Labelled (roads_of world.now traveller.now.player) traveller.now.place
        (label_in labels.now member) }
    ensures { IfOk result (IsLeg world.now to traveller.now.player) }
{
    let way = match to {
        Some(room) => way_to(alloc, world, traveller, labels, member, room)?,
        None => None,
    };
    Ok(Leg {
        player: traveller.player(),
        from: traveller.place(),
        way,
    })
}

/// Returns the legs of all members to a room, if there is one to go to. The members are those from a number on.
pub(crate) fn legs_to(
    alloc: Global,
    world: &World,
    travellers: &[Traveller],
    labels: &Labels,
    first: usize,
    to: Option<u32>,
) -> Result<Vec<Leg>, AllocError>
    requires members { AreMembers world.now (label_in labels.now) first travellers.now }
    ensures { IfOk result (λ js. AllZip (λ t j. IsLeg world.now to t.player j) travellers.now js.items) }
{
    let mut legs = Vec::with_capacity(alloc, travellers.len())?;
    for member in 0..travellers.len() {
        let traveller = &travellers[member];
        legs.push(leg_to(alloc, world, traveller, labels, first + member, to)?)?;
    }
    Ok(legs)
}
