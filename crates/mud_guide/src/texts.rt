//! The texts of the guide.

ghost use Rattle.std.specs.Prelude.{◌≡◌, ◌++◌, OnOk, IfOk, Some, string_bytes, codes, decimal};
ghost use Rattle.std.specs.List.{flat_map};
ghost use Rattle.mud_cert.specs.Text.{exits_text};
ghost use Rattle.mud_guide.specs.Ways.{exits_of};
ghost use Rattle.mud_guide.specs.Texts.{object, way_text, place_text, route_text};
ghost use Rattle.mud_guide.specs.inner.Members.{member_text};
ghost use Rattle.mud_guide.specs.Texts.{meet_text};

use crate::leg::Leg;
use crate::way::Way;
use mud_cert::Meeting;
use mud_roads::Step;
use std::alloc::{AllocError, Global};

// Appends words and an object.
fn push_object(
    alloc: Global,
    text: &mut String,
    before: &str,
    number: u32,
) -> Result<(), AllocError>
    ensures { OnOk result (string_bytes text.new ≡ string_bytes text.old ++ (before.now ++ object number)) }
{
    let object = format!(in alloc; "#{number}")?;
    text.push_str(before)?;
    text.push_str(object.as_str())
}

// Appends the exits of a walk.
fn push_exits(alloc: Global, text: &mut String, steps: &[Step]) -> Result<(), AllocError>
    ensures { OnOk result (string_bytes text.new ≡ string_bytes text.old
        ++ flat_map (λ exit. codes " #" ++ decimal exit) (exits_of steps.now)) }
{
    for step in steps {
        push_object(alloc, text, " ", step.exit)?;
    }
    Ok(())
}

// Appends a walk as its exits.
#[tactic(auto, using(crate::proofs::Walked::exits_none, crate::proofs::Walked::exits_some))]
fn push_walk(alloc: Global, text: &mut String, steps: &[Step]) -> Result<(), AllocError>
    ensures { OnOk result (string_bytes text.new
        ≡ string_bytes text.old ++ (codes "by" ++ exits_text (exits_of steps.now))) }
{
    if steps.is_empty() {
        text.push_str("by nothing")
    } else {
        text.push_str("by")?;
        push_exits(alloc, text, steps)
    }
}

// Appends the cost of a walk, and the walk.
fn push_cost(alloc: Global, text: &mut String, way: &Way) -> Result<(), AllocError>
    ensures { OnOk result (string_bytes text.new ≡ string_bytes text.old ++ way_text (Some way.now)) }
{
    let cost = way.cost();
    let number = format!(in alloc; " cost {cost} ")?;
    text.push_str(number.as_str())?;
    push_walk(alloc, text, way.steps())
}

// Appends a way, or that there is none.
fn push_way(alloc: Global, text: &mut String, way: &Option<Way>) -> Result<(), AllocError>
    ensures { OnOk result (string_bytes text.new ≡ string_bytes text.old ++ way_text way.now) }
{
    match way {
        Some(way) => push_cost(alloc, text, way),
        None => text.push_str(" no way"),
    }
}

/// Returns the text of a route to a room: `route #0 to #2 cost 7 by #5 #6`, or `route #0 to #2 no way`.
pub(crate) fn route_text(alloc: Global, to: u32, leg: &Leg) -> Result<String, AllocError>
    ensures { IfOk result (λ text. string_bytes text ≡ route_text to leg.now) }
{
    let mut text = String::new(alloc);
    push_object(alloc, &mut text, "route ", leg.from)?;
    push_object(alloc, &mut text, " to ", to)?;
    push_way(alloc, &mut text, &leg.way)?;
    Ok(text)
}

// Appends the players of a party.
fn push_players(alloc: Global, text: &mut String, legs: &[Leg]) -> Result<(), AllocError>
    ensures { OnOk result (string_bytes text.new ≡ string_bytes text.old
        ++ flat_map (λ j. codes " " ++ object j.player) legs.now) }
{
    for leg in legs {
        push_object(alloc, text, " ", leg.player)?;
    }
    Ok(())
}

// Appends the line of a member.
fn push_member(alloc: Global, text: &mut String, leg: &Leg) -> Result<(), AllocError>
    ensures { OnOk result (string_bytes text.new ≡ string_bytes text.old ++ member_text leg.now) }
{
    push_object(alloc, text, "\n  ", leg.player)?;
    push_object(alloc, text, " from ", leg.from)?;
    push_way(alloc, text, &leg.way)
}

// Appends a line for each member.
fn push_members(alloc: Global, text: &mut String, legs: &[Leg]) -> Result<(), AllocError>
    ensures { OnOk result (string_bytes text.new ≡ string_bytes text.old ++ flat_map member_text legs.now) }
{
    for leg in legs {
        push_member(alloc, text, leg)?;
    }
    Ok(())
}

// Appends a place and its cost, and a line for each member.
fn push_place(
    alloc: Global,
    text: &mut String,
    place: Meeting,
    legs: &[Leg],
) -> Result<(), AllocError>
    ensures { OnOk result (string_bytes text.new ≡ string_bytes text.old ++ place_text (Some place) legs.now) }
{
    let cost = place.cost;
    let number = format!(in alloc; " cost {cost}")?;
    push_object(alloc, text, " at ", place.room)?;
    text.push_str(number.as_str())?;
    push_members(alloc, text, legs)
}

/// Returns the text of a meeting: `meet #1 #6 at #0 cost 3` and a line for each member, or `meet #1 #6 no meeting`.
pub(crate) fn meet_text(
    alloc: Global,
    place: Option<Meeting>,
    legs: &[Leg],
) -> Result<String, AllocError>
    ensures { IfOk result (λ text. string_bytes text ≡ meet_text place legs.now) }
{
    let mut text = String::from_str(alloc, "meet")?;
    push_players(alloc, &mut text, legs)?;
    match place {
        Some(place) => push_place(alloc, &mut text, place, legs)?,
        None => text.push_str(" no meeting")?,
    }
    Ok(text)
}
