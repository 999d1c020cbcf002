//! Guesses the entry whose line is given.

ghost use Rattle.std.specs.Prelude.{◌≤◌, ◌<◌, Option, None, Some, IfOk};
ghost use Rattle.mud_key.specs.declared.limits.TheConstants.{LAST_NUMBER};
ghost use Rattle.mud_chron.specs.Entry.{Entry, IsInRange};
ghost use Rattle.mud_chron.specs.inner.Reader.{Tells, quoted_in, quoted_name_in, back_in, doors_in, new_in, old_in};
ghost use Rattle.mud_chron.specs.inner.Reader.{dig_in, make_in, player_in, lock_in, unlock_in, move_in, walk_in};
ghost use Rattle.mud_chron.specs.inner.Reader.{cost_in, rename_in, recycle_in, say_in, emote_in, deed_in, change_in};
ghost use Rattle.mud_chron.specs.inner.Reader.{desk_in, entry_in};

use crate::entry::Entry;
use crate::fields::{Unread, cut, key, name, names, number, object, object_before, speech};
use crate::limits::MOST_DESKS;
use crate::verb::{Verb, verb_of};
use mud_key::{Name, Names};
use mud_world::{Change, Deed, Doors, MOST_COST, Target};
use std::alloc::Global;

// Returns the names between the first two quotes, and the text after them.
#[tactic(auto, unfolding(crate::specs::inner::Reader::quoted_in, crate::specs::inner::Reader::names_before))]
fn names_between_quotes(alloc: Global, text: &str) -> Result<(Names, &str), Unread>
    ensures { Tells (λ p. (p.0, p.1.now)) result (quoted_in text.now) }
{
    let (_, rest) = cut(text, '"')?;
    let (inside, rest) = cut(rest, '"')?;
    Ok((names(alloc, inside)?, rest))
}

// Returns the name between the first two quotes.
#[tactic(auto, unfolding(crate::specs::inner::Reader::quoted_name_in))]
fn quoted_name(alloc: Global, text: &str) -> Result<Name, Unread>
    ensures { Tells (λ x. x) result (quoted_name_in text.now) }
{
    let (_, rest) = cut(text, '"')?;
    let (inside, _) = cut(rest, '"')?;
    name(alloc, inside)
}

// Returns the names of the exit back, or none if no text is left.
#[tactic(auto, unfolding(crate::specs::inner::Reader::back_in))]
fn back_of(alloc: Global, text: &str) -> Result<Option<Names>, Unread>
    ensures { Tells (λ x. x) result (back_in text.now) }
{
    if text.is_empty() {
        return Ok(None);
    }
    let (names, _) = names_between_quotes(alloc, text)?;
    Ok(Some(names))
}

// Returns the exits of a dig, or none if no text is left.
#[tactic(auto, unfolding(crate::specs::inner::Reader::doors_in))]
fn doors_of(alloc: Global, text: &str) -> Result<Option<Doors>, Unread>
    ensures { Tells (λ x. x) result (doors_in text.now) }
{
    if text.is_empty() {
        return Ok(None);
    }
    let (out, rest) = names_between_quotes(alloc, text)?;
    let back = back_of(alloc, rest)?;
    Ok(Some(Doors { out, back }))
}

// Reads a dig of a new room.
#[tactic(auto, unfolding(crate::specs::inner::Reader::new_in))]
fn dig_new(alloc: Global, text: &str) -> Result<Deed, Unread>
    ensures means { Tells (λ x. x) result (new_in text.now) }
    ensures range { IfOk result (λ d. IsInRange d) }
{
    let (names, rest) = names_between_quotes(alloc, text)?;
    let doors = doors_of(alloc, rest)?;
    Ok(Deed::Dig(Target::New(names), doors))
}

// Reads a dig to an existing room.
#[tactic(auto, unfolding(crate::specs::inner::Reader::old_in))]
fn dig_old(alloc: Global, text: &str) -> Result<Deed, Unread>
    ensures means { Tells (λ x. x) result (old_in text.now) }
    ensures range { IfOk result (λ d. IsInRange d) }
{
    let (room, rest) = object_before(text)?;
    match doors_of(alloc, rest)? {
        Some(doors) => Ok(Deed::Dig(Target::Old(room), Some(doors))),
        None => Err(Unread::NoEntry),
    }
}

// Reads a dig.
#[tactic(auto, unfolding(crate::specs::inner::Reader::dig_in))]
fn dig(alloc: Global, text: &str) -> Result<Deed, Unread>
    ensures means { Tells (λ x. x) result (dig_in text.now) }
    ensures range { IfOk result (λ d. IsInRange d) }
{
    let (word, rest) = cut(text, ' ')?;
    if word == "new" {
        dig_new(alloc, rest)
    } else {
        dig_old(alloc, rest)
    }
}

// Reads a Make.
#[tactic(auto, unfolding(crate::specs::inner::Reader::make_in))]
fn make(alloc: Global, text: &str) -> Result<Deed, Unread>
    ensures means { Tells (λ x. x) result (make_in text.now) }
    ensures range { IfOk result (λ d. IsInRange d) }
{
    let (names, _) = names_between_quotes(alloc, text)?;
    Ok(Deed::Make(names))
}

// Reads a new player.
#[tactic(auto, unfolding(crate::specs::inner::Reader::player_in))]
fn player(alloc: Global, text: &str) -> Result<Deed, Unread>
    ensures means { Tells (λ x. x) result (player_in text.now) }
    ensures range { IfOk result (λ d. IsInRange d) }
{
    Ok(Deed::Player(quoted_name(alloc, text)?))
}

// Reads a lock.
#[tactic(auto, unfolding(crate::specs::inner::Reader::lock_in))]
fn lock(alloc: Global, text: &str) -> Result<Deed, Unread>
    ensures means { Tells (λ x. x) result (lock_in text.now) }
    ensures range { IfOk result (λ d. IsInRange d) }
{
    let (object, rest) = object_before(text)?;
    let key = key(alloc, rest)?;
    Ok(Deed::Lock { object, key })
}

// Reads an unlocking.
#[tactic(auto, unfolding(crate::specs::inner::Reader::unlock_in))]
fn unlock(text: &str) -> Result<Deed, Unread>
    ensures means { Tells (λ x. x) result (unlock_in text.now) }
    ensures range { IfOk result (λ d. IsInRange d) }
{
    let object = object(text)?;
    Ok(Deed::Unlock { object })
}

// Reads a move.
#[tactic(auto, unfolding(crate::specs::inner::Reader::move_in))]
fn carry(text: &str) -> Result<Deed, Unread>
    ensures means { Tells (λ x. x) result (move_in text.now) }
    ensures range { IfOk result (λ d. IsInRange d) }
{
    let (thing, rest) = object_before(text)?;
    let to = object(rest)?;
    Ok(Deed::Move { thing, to })
}

// Reads a walk.
#[tactic(auto, unfolding(crate::specs::inner::Reader::walk_in))]
fn walk(text: &str) -> Result<Deed, Unread>
    ensures means { Tells (λ x. x) result (walk_in text.now) }
    ensures range { IfOk result (λ d. IsInRange d) }
{
    let exit = object(text)?;
    Ok(Deed::Walk { exit })
}

// Reads a cost.
#[tactic(auto, unfolding(crate::specs::inner::Reader::cost_in))]
fn cost(text: &str) -> Result<Deed, Unread>
    ensures means { Tells (λ x. x) result (cost_in text.now) }
    ensures range { IfOk result (λ d. IsInRange d) }
{
    let (exit, rest) = object_before(text)?;
    let cost = number(rest, MOST_COST)?;
    Ok(Deed::Cost { exit, cost })
}

// Reads new names.
#[tactic(auto, unfolding(crate::specs::inner::Reader::rename_in))]
fn rename(alloc: Global, text: &str) -> Result<Deed, Unread>
    ensures means { Tells (λ x. x) result (rename_in text.now) }
    ensures range { IfOk result (λ d. IsInRange d) }
{
    let (object, rest) = object_before(text)?;
    let (names, _) = names_between_quotes(alloc, rest)?;
    Ok(Deed::Rename { object, names })
}

// Reads a recycling.
#[tactic(auto, unfolding(crate::specs::inner::Reader::recycle_in))]
fn recycle(text: &str) -> Result<Deed, Unread>
    ensures means { Tells (λ x. x) result (recycle_in text.now) }
    ensures range { IfOk result (λ d. IsInRange d) }
{
    let object = object(text)?;
    Ok(Deed::Recycle { object })
}

// Reads a speech.
#[tactic(auto, unfolding(crate::specs::inner::Reader::say_in))]
fn say(alloc: Global, text: &str) -> Result<Deed, Unread>
    ensures means { Tells (λ x. x) result (say_in text.now) }
    ensures range { IfOk result (λ d. IsInRange d) }
{
    Ok(Deed::Say(speech(alloc, text)?))
}

// Reads an emote.
#[tactic(auto, unfolding(crate::specs::inner::Reader::emote_in))]
fn emote(alloc: Global, text: &str) -> Result<Deed, Unread>
    ensures means { Tells (λ x. x) result (emote_in text.now) }
    ensures range { IfOk result (λ d. IsInRange d) }
{
    Ok(Deed::Emote(speech(alloc, text)?))
}

// Reads the deed after a verb.
#[tactic(auto, unfolding(crate::specs::inner::Reader::deed_in))]
fn deed_of(alloc: Global, verb: Verb, text: &str) -> Result<Deed, Unread>
    ensures means { Tells (λ x. x) result (deed_in verb text.now) }
    ensures range { IfOk result (λ d. IsInRange d) }
{
    match verb {
        Verb::Dig => dig(alloc, text),
        Verb::Make => make(alloc, text),
        Verb::Player => player(alloc, text),
        Verb::Lock => lock(alloc, text),
        Verb::Unlock => unlock(text),
        Verb::Move => carry(text),
        Verb::Walk => walk(text),
        Verb::Cost => cost(text),
        Verb::Rename => rename(alloc, text),
        Verb::Recycle => recycle(text),
        Verb::Say => say(alloc, text),
        Verb::Emote => emote(alloc, text),
    }
}

// Reads a change.
#[tactic(auto, unfolding(crate::specs::inner::Reader::change_in))]
fn change_of(alloc: Global, text: &str) -> Result<Change, Unread>
    ensures means { Tells (λ x. x) result (change_in text.now) }
    ensures actor { IfOk result (λ c. c.actor ≤ LAST_NUMBER) }
    ensures range { IfOk result (λ c. IsInRange c.deed) }
{
    let (word, rest) = cut(text, ' ')?;
    let verb = verb_of(word)?;
    let (actor, rest) = object_before(rest)?;
    let deed = deed_of(alloc, verb, rest)?;
    Ok(Change { actor, deed })
}

// Reads a desk.
#[tactic(auto, unfolding(crate::specs::inner::Reader::desk_in))]
fn desk_of(text: &str) -> Result<u32, Unread>
    ensures means { Tells (λ x. x) result (desk_in text.now) }
    ensures from { IfOk result (λ n. 1 ≤ n) }
    ensures to { IfOk result (λ n. n ≤ MOST_DESKS) }
{
    let desk = number(text, MOST_DESKS)?;
    if 1 <= desk {
        Ok(desk)
    } else {
        Err(Unread::NoEntry)
    }
}

// Reads the entry of a line, whatever its version.
#[tactic(auto, unfolding(crate::specs::inner::Reader::entry_in))]
pub(crate) fn guess(alloc: Global, line: &str) -> Result<Entry, Unread>
    ensures { Tells (λ x. x) result (entry_in line.now) }
{
    let (_, rest) = cut(line, ' ')?;
    let (desk, rest) = cut(rest, ' ')?;
    let desk = desk_of(desk)?;
    let change = change_of(alloc, rest)?;
    Ok(Entry::new(desk, change))
}
