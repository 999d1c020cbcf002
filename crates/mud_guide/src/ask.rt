//! The questions to the guide.

ghost use Rattle.std.specs.Prelude.{◌≡◌, ◌≢◌, ◌≤◌, [], ◌∷◌, All, AllPairs, IfOk, IsTrue, length, map};
ghost use Rattle.std.specs.Option.{option_map};
ghost use Rattle.mud_world.specs.State.{is_player, is_room};
ghost use Rattle.mud_world.specs.declared.limits.TheConstants.{MOST_ENTRIES};
ghost use Rattle.mud_roads.specs.Passable.{IsTraveller};
ghost use Rattle.mud_cert.specs.Certificate.{IsAccount, IsCertificate, IsConclusion};
ghost use Rattle.mud_cert.specs.declared.cert.Form.TheVariants.{Two};
ghost use Rattle.mud_search.specs.Least.{label_in, AreLeast, AreBounded};
ghost use Rattle.mud_guide.specs.Ways.{cost_of};
ghost use Rattle.mud_guide.specs.Answers.{IsRouteAnswer, IsMeetAnswer};
ghost use Rattle.mud_world.specs.declared.limits.TheConstants.{MOST_PARTY};

use crate::accounts::accounts_of;
use crate::answer::Answer;
use crate::leg::leg_to;
use crate::lister::{Alone, Lister};
use crate::meeting::meeting_place;
use crate::texts::{meet_text, route_text};
use crate::way::Way;
use mud_cert::{Cert, Conclusion, Form, Meeting, Member};
use mud_roads::Traveller;
use mud_search::{Labels, labels_alone};
use mud_world::World;
use std::alloc::{AllocError, Global};
use std::slice;

/// Returns the canonical route of a player from its place to a room, or that no walk leads there. The certificate has
/// the least label of every room that the player reaches. `version` is the number of changes of the world, at most
/// 65,536. The only error is out of memory.
pub fn route_alone(
    alloc: Global,
    world: &World,
    version: u32,
    player: u32,
    room: u32,
) -> Result<Answer, AllocError>
    requires player { IsTrue (is_player world.now player) }
    requires room { IsTrue (is_room world.now room) }
    requires version { version ≤ MOST_ENTRIES }
    ensures { IfOk result (IsRouteAnswer world.now version player room) }
{
    let traveller = Traveller::of(alloc, world, player)?;
    route_of_alone(alloc, world, version, &traveller, room)
}

/// Answers like [`route_alone`], for a traveller of this world that the caller has already.
pub fn route_of_alone(
    alloc: Global,
    world: &World,
    version: u32,
    traveller: &Traveller,
    room: u32,
) -> Result<Answer, AllocError>
    requires traveller { IsTraveller world.now traveller.now }
    requires room { IsTrue (is_room world.now room) }
    requires version { version ≤ MOST_ENTRIES }
    ensures { IfOk result (IsRouteAnswer world.now version traveller.now.player room) }
{
    let labels = labels_alone(alloc, world, slice::from_ref(traveller))?;
    route_from(alloc, world, version, traveller, &labels, room)
}

// Returns the route of a traveller, given its least labels.
pub(crate) fn route_from(
    alloc: Global,
    world: &World,
    version: u32,
    traveller: &Traveller,
    labels: &Labels,
    room: u32,
) -> Result<Answer, AllocError>
    requires traveller { IsTraveller world.now traveller.now }
    requires room { IsTrue (is_room world.now room) }
    requires version { version ≤ MOST_ENTRIES }
    requires least { AreLeast world.now (traveller.now ∷ []) (label_in labels.now) }
    requires bounded { AreBounded (label_in labels.now) }
    ensures { IfOk result (IsRouteAnswer world.now version traveller.now.player room) }
{
    let next = world.next_number();
    let leg = leg_to(alloc, world, traveller, labels, 0, Some(room))?;
    let text = route_text(alloc, room, &leg)?;
    let conclusion = Conclusion::Route {
        to: room,
        cost: cost_of(&leg.way),
    };
    let accounts = accounts_of(alloc, next, slice::from_ref(&leg), labels, 0)?;
    let cert = certificate(version, accounts, conclusion);
    Ok(Answer {
        version,
        text,
        cert: Some(cert),
    })
}

/// Returns the room where a party meets and the canonical route of each member to it, or that no room can be reached by
/// all. The certificate has the least label of every room for each member. `version` is the number of changes of the
/// world, at most 65,536. The only error is out of memory.
pub fn meet_alone(
    alloc: Global,
    world: &World,
    version: u32,
    party: &[u32],
) -> Result<Answer, AllocError>
    requires players { All (λ p. IsTrue (is_player world.now p)) party.now }
    requires distinct { AllPairs (λ p q. p ≢ q) party.now }
    requires two { 2 ≤ length party.now }
    requires few { length party.now ≤ MOST_PARTY }
    requires version { version ≤ MOST_ENTRIES }
    ensures { IfOk result (IsMeetAnswer world.now version party.now) }
{
    let travellers = travellers_of(alloc, world, party)?;
    let labels = labels_alone(alloc, world, travellers.as_slice())?;
    meet_from(
        &Alone,
        alloc,
        world,
        version,
        travellers.as_slice(),
        &labels,
    )
}

// Returns these players as travellers.
pub(crate) fn travellers_of(
    alloc: Global,
    world: &World,
    party: &[u32],
) -> Result<Vec<Traveller>, AllocError>
    requires { All (λ p. IsTrue (is_player world.now p)) party.now }
    ensures travellers { IfOk result (λ ts. All (IsTraveller world.now) ts.items) }
    ensures players { IfOk result (λ ts. map (λ t. t.player) ts.items ≡ party.now) }
{
    let mut travellers = Vec::with_capacity(alloc, party.len())?;
    for player in party {
        travellers.push(Traveller::of(alloc, world, *player)?)?;
    }
    Ok(travellers)
}

// Returns the meeting of travellers, given their least labels.
pub(crate) fn meet_from<L: Lister>(
    lister: &L,
    alloc: Global,
    world: &World,
    version: u32,
    party: &[Traveller],
    labels: &Labels,
) -> Result<Answer, AllocError>
    requires ready { L.ready lister.now }
    requires travellers { All (IsTraveller world.now) party.now }
    requires distinct { AllPairs (λ p q. p ≢ q) (map (λ t. t.player) party.now) }
    requires two { 2 ≤ length party.now }
    requires few { length party.now ≤ MOST_PARTY }
    requires version { version ≤ MOST_ENTRIES }
    requires least { AreLeast world.now party.now (label_in labels.now) }
    requires bounded { AreBounded (label_in labels.now) }
    ensures { IfOk result (IsMeetAnswer world.now version (map (λ t. t.player) party.now)) }
{
    let place = meeting_place(world, party, labels);
    let listing = lister.list(alloc, world, party, labels, room_of(place))?;
    let text = meet_text(alloc, place, listing.legs.as_slice())?;
    let cert = certificate(version, listing.accounts, Conclusion::Meet(place));
    Ok(Answer {
        version,
        text,
        cert: Some(cert),
    })
}

// Returns the cost of a way, if there is one.
fn cost_of(way: &Option<Way>) -> Option<u32>
    ensures { result ≡ option_map cost_of way.now }
{
    match way {
        Some(way) => Some(way.cost()),
        None => None,
    }
}

// Returns the room of a meeting, if there is one.
fn room_of(place: Option<Meeting>) -> Option<u32>
    ensures { result ≡ option_map (λ p. p.room) place }
{
    match place {
        Some(place) => Some(place.room),
        None => None,
    }
}

// Returns the certificate with these members and this conclusion.
fn certificate(version: u32, accounts: Vec<Member>, conclusion: Conclusion) -> Cert
    requires version { version ≤ MOST_ENTRIES }
    requires accounts { All IsAccount accounts.items }
    requires conclusion { IsConclusion (length accounts.items) conclusion }
    ensures is { result ≡ record {
      version = version;
      form = Two;
      members = accounts.items;
      conclusion = conclusion;
    } }
    ensures limits { IsCertificate result }
{
    Cert::new(version, Form::Two, accounts, conclusion)
}
