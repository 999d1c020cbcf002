//! Classifies one line of a history.

ghost use Rattle.std.specs.Prelude.{◌≡◌, ◌≤◌, ◌<◌, ◌^◌, ◌+◌, ◌↔◌, ℕ, true, IfOk, MatchOption, MatchBool};
ghost use Rattle.mud_world.specs.declared.limits.TheConstants.{MOST_ENTRIES};
ghost use Rattle.mud_chron.specs.Text.{entry_line, end_line};
ghost use Rattle.mud_chron.specs.Entry.{Entry, IsEntry};
ghost use Rattle.mud_chron.specs.inner.Fields.{Finds};
ghost use Rattle.mud_chron.specs.History.{HasLine, IsEntryOf};
ghost use Rattle.mud_chron.specs.Faults.{IsNoEntryLine};
ghost use Rattle.mud_chron.specs.inner.Lines.{IsLine};

use crate::entry::Entry;
use crate::fields::Unread;
use crate::format::Format;
use crate::guess::guess;
use crate::writing::{push_end, push_line};
use mud_world::Deed;
use std::alloc::{AllocError, Global};

/// The role of a line that follows the lines of some entries.
#[derive(Drop)]
pub(crate) enum Line {
    /// The line of the next entry.
    Entry(Entry),
    /// The last line.
    End,
    /// Neither of these.
    Bad,
}

// Returns whether the deed has a line in the format.
fn has_line(format: Format, deed: &Deed) -> bool
    ensures { MatchBool result (HasLine format deed.now) (¬ HasLine format deed.now) }
{
    match (format, deed) {
        (Format::One, Deed::Cost { cost, .. }) => 1 <= *cost,
        _ => true,
    }
}

// Returns the only entry that may have the line, without checking the spelling.
fn candidate(alloc: Global, line: &[u8]) -> Result<Entry, Unread>
    ensures { (version : ℕ) (e : Entry) → version < 2 ^ 32 → IsEntry e → line.now ≡ entry_line version e
        → Finds (λ found. found ≡ e) result }
{
    match str::from_utf8(line) {
        Ok(text) => guess(alloc, text),
        Err(_) => Err(Unread::NoEntry),
    }
}

// Returns whether the entry has this line.
fn is_line_of(alloc: Global, version: u32, entry: &Entry, line: &[u8]) -> Result<bool, AllocError>
    ensures { IfOk result (λ b. (b ≡ true) ↔ (line.now ≡ entry_line version entry.now)) }
{
    let mut text = String::new(alloc);
    push_line(alloc, version, entry, &mut text)?;
    Ok(text.as_bytes() == line)
}

// Returns whether the entry has this line in the format.
fn is_allowed_line(
    alloc: Global,
    format: Format,
    version: u32,
    entry: &Entry,
    line: &[u8],
) -> Result<bool, AllocError>
    ensures { IfOk result (λ b. (b ≡ true)
        ↔ (HasLine format entry.now.change.deed × (line.now ≡ entry_line version entry.now))) }
{
    let is_allowed = has_line(format, &entry.change().deed);
    Ok(is_allowed && is_line_of(alloc, version, entry, line)?)
}

// Returns the entry with this line and version.
fn entry_of(
    alloc: Global,
    format: Format,
    version: u32,
    line: &[u8],
) -> Result<Option<Entry>, AllocError>
    ensures { IfOk result (λ found. MatchOption found (IsNoEntryLine format version line.now)
        (λ e. IsEntryOf format e × (line.now ≡ entry_line version e))) }
{
    match candidate(alloc, line) {
        Ok(entry) => match is_allowed_line(alloc, format, version, &entry, line) {
            Ok(true) => Ok(Some(entry)),
            Ok(false) => Ok(None),
            Err(AllocError) => Err(AllocError),
        },
        Err(Unread::NoEntry) => Ok(None),
        Err(Unread::OutOfMemory) => Err(AllocError),
    }
}

// Returns whether it is the last line after this many entries.
fn is_end(alloc: Global, count: usize, line: &[u8]) -> Result<bool, AllocError>
    requires { count ≤ MOST_ENTRIES }
    ensures { IfOk result (λ b. (b ≡ true) ↔ (line.now ≡ end_line count)) }
{
    let mut text = String::new(alloc);
    push_end(&mut text, count)?;
    Ok(text.as_bytes() == line)
}

// Returns the role of the line after this many entries.
pub(crate) fn line_of(
    alloc: Global,
    format: Format,
    count: usize,
    line: &[u8],
) -> Result<Line, AllocError>
    requires { count ≤ MOST_ENTRIES }
    ensures { IfOk result (IsLine format count line.now) }
{
    if is_end(alloc, count, line)? {
        return Ok(Line::End);
    }
    match entry_of(alloc, format, count as u32 + 1, line)? {
        Some(entry) => Ok(Line::Entry(entry)),
        None => Ok(Line::Bad),
    }
}
