//! Replies to accepted and refused lines.

ghost use Rattle.std.specs.Prelude.{◌≡◌, ◌++◌, ◌<◌, ◌^◌, IfOk, codes, decimal, unwrap_or, string_bytes};
ghost use Rattle.mud_key.specs.Printed.{printed, by_text};
ghost use Rattle.mud_world.specs.State.{destination_of};
ghost use Rattle.mud_rules.specs.Replies.{refusal_text, welcome_text, exits_text, dug_text, move_text};
ghost use Rattle.mud_rules.specs.Replies.{reply_text};
ghost use Rattle.std.specs.Cow.{cow_str_bytes};

use crate::listing::push_about;
use mud_key::{Key, print};
use mud_world::{Change, Deed, Doors, Refusal, Target, World};
use std::alloc::{AllocError, Global};
use std::borrow::CowStr;

// The capacity for the longest reply with two numbers.
const REPLY: usize = 40;

/// Returns the reply to a refused line (docs/COMMANDS.md, "Refusals").
pub fn refusal_text(refusal: Refusal) -> &'static str
    ensures { result.now ≡ refusal_text refusal }
{
    match refusal {
        Refusal::NotUnderstood => "I couldn't understand that.",
        Refusal::NoSuch => "There is no such thing.",
        Refusal::Ambiguous => "Which one do you mean?",
        Refusal::WrongKind => "That is the wrong kind of thing.",
        Refusal::NotHere => "That is not here.",
        Refusal::Denied => "That is not yours.",
        Refusal::BadName => "That text is not allowed.",
        Refusal::NameTaken => "That name is taken.",
        Refusal::BadKey => "That key is not understood.",
        Refusal::KeyNesting => "That key nests too deep.",
        Refusal::BadCost => "That cost is not allowed.",
        Refusal::RecursiveMove => "It can't hold itself.",
        Refusal::LockedExit => "That exit is locked.",
        Refusal::LockedRoom => "That place is locked.",
        Refusal::LockedThing => "That thing is locked.",
        Refusal::InUse => "That is in use.",
        Refusal::WorldFull => "The world is full.",
        Refusal::PartyBad => "That party is not allowed.",
    }
}

/// Returns the reply to an accepted change (docs/COMMANDS.md, "Answers"). The world is the one before the
/// change, because the numbers of new objects are its next numbers. The reply to talk takes no memory.
pub fn reply_text(
    alloc: Global,
    world: &World,
    change: &Change,
) -> Result<CowStr<'static, Global>, AllocError>
    ensures { IfOk result (λ text. cow_str_bytes text ≡ reply_text world.now change.now) }
{
    let text = match &change.deed {
        Deed::Dig(target, doors) => dig_text(alloc, world, target, doors)?,
        Deed::Make(_) => make_text(alloc, world)?,
        Deed::Player(_) => welcome_text(alloc, change.actor)?,
        Deed::Lock { object, key } => lock_text(alloc, *object, key)?,
        Deed::Unlock { object } => about(alloc, "unlocked #", *object)?,
        Deed::Move { thing, to } => move_text(alloc, world, change.actor, *thing, *to)?,
        Deed::Walk { exit } => walk_text(alloc, world, *exit)?,
        Deed::Cost { exit, cost } => about_two(alloc, "cost of #", *exit, " is ", *cost)?,
        Deed::Rename { object, .. } => about(alloc, "renamed #", *object)?,
        Deed::Recycle { object } => about(alloc, "recycled #", *object)?,
        Deed::Say(_) => return Ok(CowStr::Borrowed("said")),
        Deed::Emote(_) => return Ok(CowStr::Borrowed("done")),
    };
    Ok(CowStr::Owned(text))
}

/// Returns the reply to a player who comes in: for [`Verdict::Become`](crate::Verdict), and for the change that makes a
/// new player.
pub fn welcome_text(alloc: Global, player: u32) -> Result<String, AllocError>
    ensures { IfOk result (λ text. string_bytes text ≡ welcome_text player) }
{
    about(alloc, "welcome #", player)
}

// Returns words and the number of an object.
fn about(alloc: Global, words: &str, number: u32) -> Result<String, AllocError>
    ensures { IfOk result (λ text. string_bytes text ≡ words.now ++ decimal number) }
{
    let mut text = String::with_capacity(alloc, REPLY)?;
    push_about(&mut text, words, number)?;
    Ok(text)
}

// Returns words and a number, and again words and a number.
fn about_two(
    alloc: Global,
    words: &str,
    number: u32,
    more: &str,
    other: u32,
) -> Result<String, AllocError>
    ensures { IfOk result (λ text. string_bytes text
        ≡ words.now ++ decimal number ++ more.now ++ decimal other) }
{
    let mut text = about(alloc, words, number)?;
    push_about(&mut text, more, other)?;
    Ok(text)
}

fn exits_text(alloc: Global, number: u32, doors: &Doors) -> Result<String, AllocError>
    requires { number < 2 ^ 31 }
    ensures { IfOk result (λ text. string_bytes text ≡ exits_text number doors.now) }
{
    match &doors.back {
        Some(_) => about_two(alloc, "exit #", number, ", exit back #", number + 1),
        None => about(alloc, "exit #", number),
    }
}

// Returns the reply about a new room and its exits.
fn room_and_text(alloc: Global, room: u32, exits: &str) -> Result<String, AllocError>
    ensures { IfOk result (λ text. string_bytes text
        ≡ codes "room #" ++ decimal room ++ codes ", " ++ exits.now) }
{
    Ok(format!(in alloc; "room #{room}, {exits}")?)
}

fn dug_text(
    alloc: Global,
    number: u32,
    target: &Target,
    doors: &Option<Doors>,
) -> Result<String, AllocError>
    requires { number < 2 ^ 30 }
    ensures { IfOk result (λ text. string_bytes text ≡ dug_text number target.now doors.now) }
{
    match (target, doors) {
        (Target::New(_), None) => about(alloc, "room #", number),
        (Target::New(_), Some(doors)) => {
            let exits = exits_text(alloc, number + 1, doors)?;
            room_and_text(alloc, number, &exits)
        }
        (Target::Old(_), None) => Ok(String::new(alloc)),
        (Target::Old(_), Some(doors)) => exits_text(alloc, number, doors),
    }
}

fn dig_text(
    alloc: Global,
    world: &World,
    target: &Target,
    doors: &Option<Doors>,
) -> Result<String, AllocError>
    ensures { IfOk result (λ text. string_bytes text
        ≡ codes "dug " ++ dug_text world.now.next target.now doors.now) }
{
    let dug = dug_text(alloc, world.next_number(), target, doors)?;
    format!(in alloc; "dug {dug}")
}

fn make_text(alloc: Global, world: &World) -> Result<String, AllocError>
    ensures { IfOk result (λ text. string_bytes text ≡ codes "made #" ++ decimal world.now.next) }
{
    about(alloc, "made #", world.next_number())
}

fn lock_text(alloc: Global, object: u32, key: &Key) -> Result<String, AllocError>
    ensures { IfOk result (λ text. string_bytes text
        ≡ codes "locked #" ++ decimal object ++ codes " with " ++ printed (by_text key.now)) }
{
    let mut text = format!(in alloc; "locked #{object} with ")?;
    text.push_str(&print(alloc, key)?)?;
    Ok(text)
}

fn move_text(
    alloc: Global,
    world: &World,
    actor: u32,
    thing: u32,
    to: u32,
) -> Result<String, AllocError>
    ensures { IfOk result (λ text. string_bytes text ≡ move_text world.now actor thing to) }
{
    if to == actor {
        about(alloc, "taken #", thing)
    } else if world.is_in(actor, to) {
        about(alloc, "dropped #", thing)
    } else if world.is_thing(to) {
        about_two(alloc, "put #", thing, " in #", to)
    } else {
        about_two(alloc, "gave #", thing, " to #", to)
    }
}

fn walk_text(alloc: Global, world: &World, exit: u32) -> Result<String, AllocError>
    ensures { IfOk result (λ text. string_bytes text
        ≡ codes "went by #" ++ decimal exit ++ codes " to #"
        ++ decimal (unwrap_or (destination_of world.now exit) 0)) }
{
    let room = match world.passage(exit) {
        Some(passage) => passage.destination,
        None => 0,
    };
    about_two(alloc, "went by #", exit, " to #", room)
}
