//! Finds the meeting room of a party.

ghost use Rattle.std.specs.Prelude.{◌≡◌, ◌<◌, ℕ, All, IfSome, IfNone, IsTrue, length, map};
ghost use Rattle.mud_world.specs.State.{is_room};
ghost use Rattle.mud_world.specs.Sound.{IsSound};
ghost use Rattle.mud_roads.specs.Walks.{HasLeast};
ghost use Rattle.mud_roads.specs.Passable.{IsTraveller};
ghost use Rattle.mud_roads.specs.inner.Goer.{goer};
ghost use Rattle.mud_cert.specs.Valid.{IsPlace};
ghost use Rattle.mud_search.specs.Least.{label_in, AreLeast};
ghost use Rattle.mud_guide.specs.inner.Gatherings.{IsGreatest, IsBest, NoneGather, lesser};

use mud_cert::Meeting;
use mud_roads::Traveller;
use mud_search::Labels;
use mud_world::World;

// Returns the greatest cost of the members at a room, if all reach it.
fn greatest(labels: &Labels, members: usize, room: u32) -> Option<u32>
    ensures some { IfSome result (λ cost. IsGreatest (λ m. label_in labels.now m room) members cost) }
    ensures none { IfNone result ((cost : ℕ) → IsGreatest (λ m. label_in labels.now m room) members cost → ⊥) }
{
    let mut cost = 0;
    for member in 0..members {
        let Some(label) = labels.get(member, room) else {
            return None;
        };
        if label.cost > cost {
            cost = label.cost;
        }
    }
    Some(cost)
}

// Returns the room with the least greatest cost, then with the lowest number, among those that all members reach.
fn best(labels: &Labels, members: usize, next: u32) -> Option<Meeting>
    ensures some { IfSome result (IsBest (label_in labels.now) members next) }
    ensures none { IfNone result (NoneGather (label_in labels.now) members next) }
{
    let mut best: Option<Meeting> = None;
    for room in 0..next {
        if let Some(cost) = greatest(labels, members, room) {
            best = lesser(best, room, cost);
        }
    }
    best
}

// Returns the place with the lesser cost; among equals, the earlier one.
fn lesser(best: Option<Meeting>, room: u32, cost: u32) -> Option<Meeting>
    ensures { result ≡ lesser best room cost }
{
    match best {
        Some(place) if place.cost <= cost => best,
        _ => Some(Meeting { room, cost }),
    }
}

/// Returns the meeting room of a party, given the least labels of its members.
pub(crate) fn meeting_place(world: &World, party: &[Traveller], labels: &Labels) -> Option<Meeting>
    requires travellers { All (IsTraveller world.now) party.now }
    requires some { 0 < length party.now }
    requires least { AreLeast world.now party.now (label_in labels.now) }
    ensures sound { IsSound world.now }
    ensures place { IsPlace (HasLeast 1) (map (goer world.now) party.now) result }
    ensures room { IfSome result (λ p. IsTrue (is_room world.now p.room)) }
    ensures greatest { IfSome result (λ p. IsGreatest (λ m. label_in labels.now m p.room) (length party.now) p.cost) }
{
    best(labels, party.len(), world.next_number())
}
