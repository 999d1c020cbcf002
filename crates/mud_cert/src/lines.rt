//! Reads each kind of line, given the bytes between two LFs.

ghost use Rattle.std.specs.Prelude.{◌≡◌, IfOk, length, option_map};
ghost use Rattle.std.specs.Str.{bytes_eq};
ghost use Rattle.mud_cert.specs.inner.Reader.{after, whole, entry_at, exit_at, exits_at, exits_of, pieces_at};
ghost use Rattle.mud_cert.specs.inner.Reader.{rises, head_at, version_at, member_at, labels_at, walk_at};
ghost use Rattle.mud_cert.specs.inner.Reader.{cost_at, way_at, route_at, meeting_at, conclusion_at};

use crate::cert::{Conclusion, Form, Meeting};
use crate::numbers::{number_at, object_at};
use mud_roads::Label;
use std::alloc::{AllocError, Global};

/// Returns the bytes after the literal text.
fn after<'a>(literal: &[u8], bytes: &'a [u8]) -> Option<&'a [u8]>
    ensures { option_map (λ x. x.now) result ≡ after literal.now bytes.now }
{
    bytes.strip_prefix(literal)
}

/// Returns whether the bytes are the literal text.
pub fn says(bytes: &[u8], literal: &[u8]) -> bool
    ensures { result ≡ bytes_eq bytes.now literal.now }
{
    bytes == literal
}

/// Returns the number if no bytes follow it.
#[tactic(auto, unfolding(crate::specs::inner::Reader::whole))]
fn whole(number: u32, rest: &[u8]) -> Option<u32>
    ensures { result ≡ whole (number, rest.now) }
{
    match rest {
        [] => Some(number),
        [_, ..] => None,
    }
}

/// Returns the form, from the first line.
#[tactic(auto, unfolding(crate::specs::inner::Reader::head_at))]
pub fn head_of(line: &[u8]) -> Option<Form>
    ensures { result ≡ head_at line.now }
{
    if says(line, b"mud proof 1") {
        Some(Form::One)
    } else if says(line, b"mud proof 2") {
        Some(Form::Two)
    } else {
        None
    }
}

/// Returns the version, from the second line.
#[tactic(auto, unfolding(crate::specs::inner::Reader::version_at))]
pub fn version_of(line: &[u8]) -> Option<u32>
    ensures { result ≡ version_at line.now }
{
    let (version, rest) = number_at(after(b"version ", line)?)?;
    whole(version, rest)
}

/// Returns a player and its place, from a member's first line.
#[tactic(auto, unfolding(crate::specs::inner::Reader::member_at, crate::specs::inner::Reader::whole))]
pub fn member_of(line: &[u8]) -> Option<(u32, u32)>
    ensures { result ≡ member_at line.now }
{
    let (player, rest) = object_at(after(b"member #", line)?)?;
    let (from, rest) = object_at(after(b" from #", rest)?)?;
    match rest {
        [] => Some((player, from)),
        [_, ..] => None,
    }
}

/// Returns the number of exits of a label, which form one leaves out, and the bytes after it.
#[tactic(auto, unfolding(crate::specs::inner::Reader::exits_at))]
fn exits_at(form: Form, bytes: &[u8]) -> Option<(u32, &[u8])>
    ensures { option_map (λ x. (x.0, x.1.now)) result ≡ exits_at form bytes.now }
{
    match form {
        Form::One => Some((0, bytes)),
        Form::Two => number_at(after(b"/", bytes)?),
    }
}

/// Returns a room and its label, and the bytes after them.
#[tactic(auto, unfolding(crate::specs::inner::Reader::entry_at))]
fn entry_at(form: Form, bytes: &[u8]) -> Option<((u32, Label), &[u8])>
    ensures { option_map (λ x. (x.0, x.1.now)) result ≡ entry_at form bytes.now }
{
    let (room, rest) = object_at(after(b" #", bytes)?)?;
    let (cost, rest) = number_at(after(b":", rest)?)?;
    let (exits, rest) = exits_at(form, rest)?;
    Some(((room, Label { cost, exits }), rest))
}

/// Returns an exit of a walk, and the bytes after it.
#[tactic(auto, unfolding(crate::specs::inner::Reader::exit_at))]
fn exit_at(bytes: &[u8]) -> Option<(u32, &[u8])>
    ensures { option_map (λ x. (x.0, x.1.now)) result ≡ exit_at bytes.now }
{
    object_at(after(b" #", bytes)?)
}

/// Returns whether the rooms are strictly increasing.
fn rises(entries: &[(u32, Label)]) -> bool
    ensures { result ≡ rises None entries.now }
{
    let mut last: Option<u32> = None;
    for entry in entries {
        if let Some(room) = last {
            if entry.0 <= room {
                return false;
            }
        }
        last = Some(entry.0);
    }
    true
}

/// Returns the rooms with their labels, to the end of the bytes.
fn entries_of(
    alloc: Global,
    form: Form,
    bytes: &[u8],
) -> Result<Option<Vec<(u32, Label)>>, AllocError>
    ensures { IfOk result (λ o. option_map (λ v. v.items) o ≡ pieces_at (entry_at form) (length bytes.now) bytes.now) }
{
    let mut entries = Vec::new(alloc);
    let mut rest = bytes;
    while !rest.is_empty() {
        let Some((entry, behind)) = entry_at(form, rest) else {
            return Ok(None);
        };
        entries.push(entry)?;
        rest = behind;
    }
    Ok(Some(entries))
}

/// Returns the sorted labels, from a member's second line.
#[tactic(auto, unfolding(crate::specs::inner::Reader::labels_at))]
pub fn labels_of(
    alloc: Global,
    form: Form,
    line: &[u8],
) -> Result<Option<Vec<(u32, Label)>>, AllocError>
    ensures { IfOk result (λ o. option_map (λ v. v.items) o ≡ labels_at form line.now) }
{
    let Some(rest) = after(b"labels", line) else {
        return Ok(None);
    };
    match entries_of(alloc, form, rest)? {
        Some(labels) => {
            if rises(&labels) {
                Ok(Some(labels))
            } else {
                Ok(None)
            }
        }
        None => Ok(None),
    }
}

/// Returns the exits, to the end of the bytes.
fn exits_of(alloc: Global, bytes: &[u8]) -> Result<Option<Vec<u32>>, AllocError>
    ensures { IfOk result (λ o. option_map (λ v. v.items) o ≡ pieces_at exit_at (length bytes.now) bytes.now) }
{
    let mut exits = Vec::new(alloc);
    let mut rest = bytes;
    while !rest.is_empty() {
        let Some((exit, behind)) = exit_at(rest) else {
            return Ok(None);
        };
        exits.push(exit)?;
        rest = behind;
    }
    Ok(Some(exits))
}

/// Returns the end of a route's line.
#[tactic(auto, unfolding(crate::specs::inner::Reader::cost_at))]
fn cost_at(bytes: &[u8]) -> Option<u32>
    ensures { result ≡ cost_at bytes.now }
{
    let (cost, rest) = number_at(after(b" cost ", bytes)?)?;
    whole(cost, rest)
}

/// Returns the cost of a route to a room, or that there is no way.
#[tactic(auto, unfolding(crate::specs::inner::Reader::way_at))]
fn way_at(to: u32, bytes: &[u8]) -> Option<Conclusion>
    ensures { result ≡ way_at to bytes.now }
{
    if says(bytes, b" no way") {
        return Some(Conclusion::Route { to, cost: None });
    }
    let cost = cost_at(bytes)?;
    Some(Conclusion::Route {
        to,
        cost: Some(cost),
    })
}

/// Returns the target and the cost of a route.
#[tactic(auto, unfolding(crate::specs::inner::Reader::route_at))]
fn route_of(line: &[u8]) -> Option<Conclusion>
    ensures { result ≡ route_at line.now }
{
    let (to, rest) = object_at(after(b"route #", line)?)?;
    way_at(to, rest)
}

/// Returns the room and the cost of a meeting.
#[tactic(auto, unfolding(crate::specs::inner::Reader::meeting_at))]
fn meeting_of(line: &[u8]) -> Option<Conclusion>
    ensures { result ≡ meeting_at line.now }
{
    let (room, rest) = object_at(after(b"meet #", line)?)?;
    let cost = cost_at(rest)?;
    Some(Conclusion::Meet(Some(Meeting { room, cost })))
}

/// Returns the conclusion, from the last line but one.
#[tactic(auto, unfolding(crate::specs::inner::Reader::conclusion_at))]
pub fn conclusion_of(line: &[u8]) -> Option<Conclusion>
    ensures { result ≡ conclusion_at line.now }
{
    if says(line, b"meet none") {
        return Some(Conclusion::Meet(None));
    }
    match route_of(line) {
        Some(conclusion) => Some(conclusion),
        None => meeting_of(line),
    }
}

/// Returns the exits of a non-empty walk.
#[tactic(auto, unfolding(crate::specs::inner::Reader::exits_of))]
fn walk_behind(alloc: Global, bytes: &[u8]) -> Result<Option<Option<Vec<u32>>>, AllocError>
    ensures { IfOk result (λ o. option_map (λ w. option_map (λ v. v.items) w) o ≡ exits_of bytes.now) }
{
    if bytes.is_empty() {
        return Ok(None);
    }
    match exits_of(alloc, bytes)? {
        Some(exits) => Ok(Some(Some(exits))),
        None => Ok(None),
    }
}

/// Returns the walk, if one is given, from a member's third line.
#[tactic(auto, unfolding(crate::specs::inner::Reader::walk_at))]
pub fn walk_of(alloc: Global, line: &[u8]) -> Result<Option<Option<Vec<u32>>>, AllocError>
    ensures { IfOk result (λ o. option_map (λ w. option_map (λ v. v.items) w) o ≡ walk_at line.now) }
{
    if says(line, b"walk none") {
        return Ok(Some(None));
    }
    if says(line, b"walk nothing") {
        return Ok(Some(Some(Vec::new(alloc))));
    }
    match after(b"walk", line) {
        Some(rest) => walk_behind(alloc, rest),
        None => Ok(None),
    }
}
