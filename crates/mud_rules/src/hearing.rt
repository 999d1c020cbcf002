//! Notices: the lines by which players hear of the changes of others.

ghost use Rattle.std.specs.Prelude.{◌≡◌, ◌++◌, IfOk, OnOk, Some, codes, decimal, false, if◌then◌else◌, string_bytes};
ghost use Rattle.std.specs.Prelude.{None, is_some};
ghost use Rattle.std.specs.Option.{option_map, option_map_or};
ghost use Rattle.mud_world.specs.State.{is_number, place_of, destination_of};
ghost use Rattle.mud_rules.specs.HeardLine.{moved_line, heard_deed, heard_line, notice_text};
ghost use Rattle.mud_rules.specs.ObjectLists.{first_name};

use crate::listing::{first_name, push_about};
use crate::moving::together;
use mud_world::{Change, Deed, World};
use std::alloc::AllocError;

// The capacity for most notices.
const NOTICE_BYTES: usize = 80;

/// Appends the notice that a player gets of another's change, given the change's version and the world before it.
/// Returns whether the player gets one; if not, the text is unchanged. A player gets no notice of a change out of
/// hearing, and none of its own changes (docs/COMMANDS.md, "What others hear"). The only error is out of memory.
pub fn push_notice(
    out: &mut String,
    version: u32,
    world: &World,
    change: &Change,
    player: u32,
) -> Result<bool, AllocError>
    ensures hears { IfOk result (λ hears. (if hears then Some (string_bytes out.new) else None)
        ≡ option_map (λ line. string_bytes out.old ++ notice_text version line)
        (heard_line world.now change.now player)) }
    ensures silent { IfOk result (λ hears. hears ≡ false → string_bytes out.new ≡ string_bytes out.old) }
{
    let actor = change.actor;
    if player == actor {
        return Ok(false);
    }
    if !is_heard(world, change, player) {
        return Ok(false);
    }
    push_version(out, version)?;
    let who = first_name(world, actor);
    match &change.deed {
        Deed::Say(text) => push_line(out, who, " says, \"", text.as_str(), "\"")?,
        Deed::Emote(text) => push_line(out, who, " ", text.as_str(), "")?,
        Deed::Move { thing, to } => push_moved(out, world, player, actor, *thing, *to)?,
        Deed::Walk { exit } if together(world, actor, player) => {
            push_line(out, who, " leaves by ", first_name(world, *exit), ".")?;
        }
        Deed::Walk { .. } => push_arrival(out, who)?,
        Deed::Player(name) => push_arrival(out, name.as_str())?,
        _ => {}
    }
    Ok(true)
}

// Returns whether a player hears of another's change, given the world before it.
fn is_heard(world: &World, change: &Change, player: u32) -> bool
    ensures { result ≡ is_some (heard_deed world.now player change.now.actor change.now.deed) }
{
    match &change.deed {
        Deed::Say(_) | Deed::Emote(_) | Deed::Move { .. } => together(world, change.actor, player),
        Deed::Walk { exit } => {
            together(world, change.actor, player) || comes_to(world, player, *exit)
        }
        Deed::Player(_) => world.is_in(player, 0),
        _ => false,
    }
}

// Appends the version of a notice.
fn push_version(out: &mut String, version: u32) -> Result<(), AllocError>
    ensures { OnOk result (string_bytes out.new ≡ string_bytes out.old ++ codes "(" ++ decimal version ++ codes ") ") }
{
    out.reserve(NOTICE_BYTES)?;
    push_about(out, "(", version)?;
    out.push_str(") ")
}

// Appends a name, words, and another name.
fn push_line(
    out: &mut String,
    who: &str,
    does: &str,
    what: &str,
    end: &str,
) -> Result<(), AllocError>
    ensures { OnOk result (string_bytes out.new
        ≡ string_bytes out.old ++ who.now ++ does.now ++ what.now ++ end.now) }
{
    let front = who.len().saturating_add(does.len());
    let back = what.len().saturating_add(end.len());
    out.reserve(front.saturating_add(back))?;
    out.push_str(who)?;
    out.push_str(does)?;
    out.push_str(what)?;
    out.push_str(end)
}

// Appends a name, words, a second name, more words, a third name and a full stop.
fn push_said_of(
    out: &mut String,
    who: &str,
    does: &str,
    what: &str,
    end: &str,
    whom: &str,
) -> Result<(), AllocError>
    ensures { OnOk result (string_bytes out.new
        ≡ string_bytes out.old ++ who.now ++ does.now ++ what.now ++ end.now ++ whom.now ++ codes ".") }
{
    push_line(out, who, does, what, end)?;
    out.push_str(whom)?;
    out.push_str(".")
}

// Appends the line of a thing that goes from the actor to the actor itself, to its room, to a thing or to a player.
fn push_moved(
    out: &mut String,
    world: &World,
    player: u32,
    actor: u32,
    thing: u32,
    to: u32,
) -> Result<(), AllocError>
    ensures { OnOk result (string_bytes out.new
        ≡ string_bytes out.old ++ moved_line world.now player actor thing to) }
{
    let who = first_name(world, actor);
    let what = first_name(world, thing);
    if to == actor {
        push_line(out, who, " takes ", what, ".")
    } else if world.is_in(actor, to) {
        push_line(out, who, " drops ", what, ".")
    } else if world.is_thing(to) {
        push_said_of(out, who, " puts ", what, " in ", first_name(world, to))
    } else if to == player {
        push_line(out, who, " gives ", what, " to you.")
    } else {
        push_said_of(out, who, " gives ", what, " to ", first_name(world, to))
    }
}

// Returns whether the player is in the room that the exit leads to.
fn comes_to(world: &World, player: u32, exit: u32) -> bool
    ensures { result
        ≡ option_map_or (λ r. is_number r (place_of world.now player)) (destination_of world.now exit) false }
{
    match world.passage(exit) {
        Some(passage) => world.is_in(player, passage.destination),
        None => false,
    }
}

// Appends the line of a player who arrives.
fn push_arrival(out: &mut String, name: &str) -> Result<(), AllocError>
    ensures { OnOk result (string_bytes out.new ≡ string_bytes out.old ++ name.now ++ codes " arrives.") }
{
    out.push_str(name)?;
    out.push_str(" arrives.")
}
