//! Routes and meetings.

ghost use Rattle.std.specs.Prelude.{◌≡◌, map, IfOk};
ghost use Rattle.mud_key.specs.Commas.{parts_of};
ghost use Rattle.mud_world.specs.State.{is_room};
ghost use Rattle.mud_rules.specs.Matches.{match_among};
ghost use Rattle.mud_rules.specs.Party.{all_distinct, is_party};
ghost use Rattle.mud_rules.specs.Outcome.{object_meant, of_kind};
ghost use Rattle.mud_rules.specs.Journeys.{player_meant, meeting, least_refusal, route, members, meet};
ghost use Rattle.mud_rules.specs.inner.Bars.{unfit};

use crate::actor::Actor;
use crate::matching::{player_match, room_match};
use crate::outcome::object_meant;
use crate::{Journey, Party};
use mud_key::parts;
use mud_world::limits::MOST_PARTY;
use mud_world::{Refusal, lesser, refused_if};
use std::alloc::{AllocError, Global};

impl Actor<'_> {
    // Returns the room that a text means.
    fn room_meant(&self, text: &str) -> Result<u32, Refusal>
        ensures { result ≡ of_kind (is_room self.now.world.now)
            (object_meant Refusal.NoSuch
            (match_among (is_room self.now.world.now) self.now.world.now self.now.player text.now)) }
    {
        match object_meant(room_match(self.world, self.player, text)) {
            Ok(room) if !self.world.is_room(room) => Err(Refusal::WrongKind),
            other => other,
        }
    }

    // Returns the journey to the room that a text means.
    pub(crate) fn route_to(&self, text: &str) -> Result<Journey, Refusal>
        ensures { result ≡ route self.now.world.now self.now.player text.now }
    {
        let to = self.room_meant(text)?;
        Ok(Journey::Route { to })
    }

    // Returns the player that a text means.
    fn player_meant(&self, text: &str) -> Result<u32, Refusal>
        ensures { result ≡ player_meant self.now.world.now self.now.player text.now }
    {
        match object_meant(player_match(self.world, self.player, text)) {
            Ok(member) if !self.world.is_player(member) => Err(Refusal::WrongKind),
            other => other,
        }
    }

    // Returns the players that the parts of a text mean.
    fn players_meant(&self, text: &str) -> Result<Vec<Result<u32, Refusal>>, AllocError>
        ensures { IfOk result (λ found. found.items
            ≡ map (player_meant self.now.world.now self.now.player) (parts_of text.now)) }
    {
        let parts = parts(self.alloc, text)?;
        let mut found = Vec::new(self.alloc);
        for part in &parts {
            found.push(self.player_meant(part))?;
        }
        Ok(found)
    }

    // Returns the meeting of the players that the parts of a text mean.
    pub(crate) fn meeting_of(&self, text: &str) -> Result<Result<Journey, Refusal>, AllocError>
        ensures { IfOk result (λ journey. journey ≡ meet self.now.world.now self.now.player text.now) }
    {
        let found = self.players_meant(text)?;
        meeting(self.alloc, &found)
    }
}

// Returns the players that were found.
fn members(alloc: Global, found: &[Result<u32, Refusal>]) -> Result<Vec<u32>, AllocError>
    ensures { IfOk result (λ party. party.items ≡ members found.now) }
{
    let mut party = Vec::new(alloc);
    for one in found {
        if let Ok(member) = one {
            party.push(*member)?;
        }
    }
    Ok(party)
}

// Returns the least refusal of all parts.
fn least_refusal(found: &[Result<u32, Refusal>]) -> Option<Refusal>
    ensures { result ≡ least_refusal found.now }
{
    let mut least = None;
    for one in found {
        match one {
            Ok(_) => {}
            Err(refusal) => least = lesser(least, Some(*refusal)),
        }
    }
    least
}

fn all_distinct(party: &[u32]) -> bool
    ensures { result ≡ all_distinct party.now }
{
    for (index, member) in party.iter().enumerate() {
        if party[index + 1..].contains(member) {
            return false;
        }
    }
    true
}

// Returns whether there are 2 to 8 players, and none occurs twice.
fn is_party(party: &[u32]) -> bool
    ensures { result ≡ is_party party.now }
{
    2 <= party.len() && party.len() <= MOST_PARTY && all_distinct(party)
}

// Returns the refusal of a list that is not a party.
fn unfit(party: &[u32]) -> Option<Refusal>
    ensures { result ≡ unfit party.now }
{
    refused_if(!is_party(party), Refusal::PartyBad)
}

fn meeting(
    alloc: Global,
    found: &[Result<u32, Refusal>],
) -> Result<Result<Journey, Refusal>, AllocError>
    ensures { IfOk result (λ journey. journey ≡ meeting found.now) }
{
    let party = members(alloc, found)?;
    match lesser(unfit(&party), least_refusal(found)) {
        Some(refusal) => Ok(Err(refusal)),
        None => Ok(Ok(Journey::Meet(Party::of(party)))),
    }
}
