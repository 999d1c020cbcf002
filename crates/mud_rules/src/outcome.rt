//! Combines the refusals of a line.

ghost use Rattle.std.specs.Prelude.{◌≡◌, nat_lt, unwrap_or, if◌then◌else◌};
ghost use Rattle.mud_world.specs.Refusals.{number};
ghost use Rattle.mud_rules.specs.Outcome.{object_meant, on_found, both, if_shaped};
ghost use Rattle.mud_rules.specs.Commands.{kind_then_here};

use crate::matching::Match;
use crate::{Journey, Query, Verdict};
use mud_world::{Refusal, lesser, refused_if};

// Returns refusal 4 or 5, by their conditions.
pub(crate) fn kind_then_here(kind: bool, here: bool) -> Option<Refusal>
    ensures { result ≡ kind_then_here kind here }
{
    lesser(
        refused_if(kind, Refusal::WrongKind),
        refused_if(here, Refusal::NotHere),
    )
}

// Returns the object that was found, or the refusal of a text that means none.
pub(crate) fn object_meant(answer: Result<u32, Match>) -> Result<u32, Refusal>
    ensures { result ≡ object_meant Refusal.NoSuch answer }
{
    match answer {
        Ok(object) => Ok(object),
        Err(Match::Nothing | Match::NoSuch) => Err(Refusal::NoSuch),
        Err(Match::Ambiguous) => Err(Refusal::Ambiguous),
    }
}

fn lower(first: Refusal, second: Refusal) -> Refusal
    ensures { result ≡ (if nat_lt (number second) (number first) then second else first) }
{
    if second.number() < first.number() {
        second
    } else {
        first
    }
}

// Returns two objects, if both were found.
pub(crate) fn both(
    first: Result<u32, Refusal>,
    second: Result<u32, Refusal>,
) -> Result<(u32, u32), Refusal>
    ensures { result ≡ both first second }
{
    match (first, second) {
        (Ok(one), Ok(other)) => Ok((one, other)),
        (Ok(_), Err(refusal)) | (Err(refusal), Ok(_)) => Err(refusal),
        (Err(first), Err(second)) => Err(lower(first, second)),
    }
}

// Returns a question if the line has the right shape.
pub(crate) fn if_shaped(fits: bool, query: Query) -> Verdict
    ensures { result ≡ if_shaped fits (Verdict.Ask query) }
{
    if fits {
        Verdict::Ask(query)
    } else {
        Verdict::Refused(Refusal::NotUnderstood)
    }
}

// Returns the question for a journey, or its refusal.
pub(crate) fn asked_journey(found: Result<Journey, Refusal>) -> Verdict
    ensures { result ≡ on_found found (λ journey. Verdict.Ask (Query.Journey journey)) }
{
    match found {
        Ok(journey) => Verdict::Ask(Query::Journey(journey)),
        Err(refusal) => Verdict::Refused(refusal),
    }
}

// Returns the question for the proof of a journey, or its refusal.
pub(crate) fn asked_proof(found: Result<Journey, Refusal>) -> Verdict
    ensures { result ≡ on_found found (λ journey. Verdict.Ask (Query.Proof journey)) }
{
    match found {
        Ok(journey) => Verdict::Ask(Query::Proof(journey)),
        Err(refusal) => Verdict::Refused(refusal),
    }
}

// Continues with the value that was found, or returns its refusal.
macro_rules! on_found {
    ($found:expr, $object:ident => $meaning:expr) => {
        match $found {
            Ok($object) => $meaning,
            Err(refusal) => Ok(Verdict::Refused(refusal)),
        }
    };
}

// Continues with the value that a line gives, or returns its refusal, or out of memory.
macro_rules! on_given {
    ($given:expr, $object:ident => $meaning:expr) => {
        match $given {
            Ok(Ok($object)) => $meaning,
            Ok(Err(refusal)) => Ok(Verdict::Refused(refusal)),
            Err(AllocError) => Err(AllocError),
        }
    };
}

pub(crate) use on_found;
pub(crate) use on_given;

// Returns the refusal of an unreadable text: a refusal that stops the player already, or its own.
pub(crate) fn refuse_unreadable(bar: Option<Refusal>, own: Refusal) -> Verdict
    ensures { result ≡ Verdict.Refused (unwrap_or bar own) }
{
    Verdict::Refused(bar.unwrap_or(own))
}
