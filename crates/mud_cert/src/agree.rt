//! Checks that a conclusion agrees with the walks and the labels of the members.

ghost use Rattle.std.specs.Prelude.{◌≡◌, is_none};
ghost use Rattle.std.specs.List.{list_any, list_all};
ghost use Rattle.mud_cert.specs.inner.Ways.{arrival_of};
ghost use Rattle.mud_cert.specs.inner.Agreement.{greatest_cost};
ghost use Rattle.mud_cert.specs.inner.Tests.{is_there_within, is_there_at, is_no_worse, first_labels};
ghost use Rattle.mud_cert.specs.inner.Tests.{stays, misses, concludes};

use crate::look::label_at;
use crate::steps::arrival_of;
use crate::{Conclusion, Member};
use mud_roads::Label;
use mud_world::World;

// Returns whether a walk ends at the room and has exactly this cost.
fn is_there_at(world: &World, room: u32, cost: u32, member: &Member) -> bool
    ensures { result ≡ is_there_at room cost (arrival_of world.now member.now) }
{
    match arrival_of(world, member) {
        Some((end, paid)) => end == room && paid == u128::from(cost),
        None => false,
    }
}

// Returns whether a walk ends at the room and has at most this cost.
fn is_there_within(world: &World, room: u32, cost: u32, member: &Member) -> bool
    ensures { result ≡ is_there_within room cost (arrival_of world.now member.now) }
{
    match arrival_of(world, member) {
        Some((end, paid)) => end == room && paid <= u128::from(cost),
        None => false,
    }
}

// Returns whether no walk is given.
fn stays(member: &Member) -> bool
    ensures { result ≡ stays member.now }
{
    member.walk().is_none()
}

// Returns whether no walk is given and the room has no label.
fn misses(member: &Member, room: u32) -> bool
    ensures { result ≡ misses room member.now }
{
    stays(member) && label_at(member, room).is_none()
}

// Returns the greatest cost of the members' labels of the room, if all have one.
fn greatest_cost(members: &[Member], room: u32) -> Option<u32>
    ensures { result ≡ greatest_cost members.now room }
{
    let mut greatest = 0;
    for member in members {
        let Some(label) = label_at(member, room) else {
            return None;
        };
        greatest = label.cost.max(greatest);
    }
    Some(greatest)
}

// Returns whether the cost and the room do not come after the other ones.
fn is_no_worse(cost: u32, room: u32, other: u32, gathered: Option<u32>) -> bool
    ensures { result ≡ is_no_worse cost room other gathered }
{
    match gathered {
        Some(found) => cost < found || (cost == found && room <= other),
        None => true,
    }
}

// Returns whether no room that is labelled for all members comes before this one.
fn is_best(members: &[Member], cost: u32, room: u32, labels: &[(u32, Label)]) -> bool
    ensures { result ≡ list_all (λ e. is_no_worse cost room e.0 (greatest_cost members.now e.0)) labels.now }
{
    labels.iter().all(|entry| is_no_worse(cost, room, entry.0, greatest_cost(members, entry.0)))
}

// Returns whether none of the rooms is labelled for all members.
fn is_apart(members: &[Member], labels: &[(u32, Label)]) -> bool
    ensures { result ≡ list_all (λ e. is_none (greatest_cost members.now e.0)) labels.now }
{
    labels
        .iter()
        .all(|entry| greatest_cost(members, entry.0).is_none())
}

// Returns the labels of the first member.
fn first_labels(members: &[Member]) -> &[(u32, Label)]
    ensures { result.now ≡ first_labels members.now }
{
    match members {
        [first, ..] => first.labels(),
        [] => &[],
    }
}

// Returns whether all members have walks that end at the room with exactly this cost.
fn are_all_at(world: &World, members: &[Member], room: u32, cost: u32) -> bool
    ensures { result ≡ list_all (λ m. is_there_at room cost (arrival_of world.now m)) members.now }
{
    members.iter().all(|m| is_there_at(world, room, cost, m))
}

// Returns whether some member has a walk that ends at the room with exactly this cost.
fn is_one_at(world: &World, members: &[Member], room: u32, cost: u32) -> bool
    ensures { result ≡ list_any (λ m. is_there_at room cost (arrival_of world.now m)) members.now }
{
    members.iter().any(|m| is_there_at(world, room, cost, m))
}

// Returns whether all members have walks that end at the room with at most this cost.
fn are_all_within(world: &World, members: &[Member], room: u32, cost: u32) -> bool
    ensures { result ≡ list_all (λ m. is_there_within room cost (arrival_of world.now m)) members.now }
{
    members
        .iter()
        .all(|m| is_there_within(world, room, cost, m))
}

// Returns whether no member has a walk, and none a label of the room.
fn do_all_miss(members: &[Member], room: u32) -> bool
    ensures { result ≡ list_all (misses room) members.now }
{
    members.iter().all(|m| misses(m, room))
}

// Returns whether no member has a walk.
fn do_all_stay(members: &[Member]) -> bool
    ensures { result ≡ list_all stays members.now }
{
    members.iter().all(|m| stays(m))
}

// Returns whether the conclusion agrees with the walks and the labels.
pub(crate) fn concludes(world: &World, members: &[Member], conclusion: Conclusion) -> bool
    ensures { result ≡ concludes world.now members.now conclusion }
{
    match conclusion {
        Conclusion::Route {
            to,
            cost: Some(cost),
        } => world.is_room(to) && are_all_at(world, members, to, cost),
        Conclusion::Route { to, cost: None } => world.is_room(to) && do_all_miss(members, to),
        Conclusion::Meet(Some(place)) => {
            world.is_room(place.room)
                && are_all_within(world, members, place.room, place.cost)
                && is_one_at(world, members, place.room, place.cost)
                && is_best(members, place.cost, place.room, first_labels(members))
        }
        Conclusion::Meet(None) => do_all_stay(members) && is_apart(members, first_labels(members)),
    }
}
