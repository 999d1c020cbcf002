//! Writes entries and histories as text.

ghost use Rattle.std.specs.Prelude.{◌≡◌, ◌≤◌, ◌+◌, ◌<◌, ◌++◌, [], ◌∷◌, codes, length, map, OnOk};
ghost use Rattle.std.specs.Prelude.{OnErr, string_bytes};
ghost use Rattle.std.specs.Fmt.{decimal};
ghost use Rattle.std.specs.List.{flat_map};
ghost use Rattle.mud_key.specs.Printed.{number_text, by_text, printed};
ghost use Rattle.mud_chron.specs.declared.format.Format.TheVariants.{Two};
ghost use Rattle.mud_world.specs.declared.limits.TheConstants.{MOST_ENTRIES};
ghost use Rattle.mud_chron.specs.Text.{in_quotes, target_text, deed_text, entry_line, line_feed};
ghost use Rattle.mud_chron.specs.inner.Fields.{with_commas};
ghost use Rattle.mud_chron.specs.Text.{entries_text, end_line, history_text};
ghost use Rattle.mud_chron.specs.inner.Texts.{back_text, doors_text};

use crate::entry::Entry;
use crate::format::Format;
use itoa::Buffer;
use mud_key::{Key, Name, Names, print};
use mud_world::{Deed, Doors, Speech, Target};
use std::alloc::{AllocError, Global};

fn push_decimal(out: &mut String, number: u32) -> Result<(), AllocError>
    ensures { OnOk result (string_bytes out.new ≡ string_bytes out.old ++ decimal number) }
{
    out.push_str(Buffer::new().format(number))
}

fn push_number(out: &mut String, number: u32) -> Result<(), AllocError>
    ensures { OnOk result (string_bytes out.new ≡ string_bytes out.old ++ number_text number) }
{
    out.push_str("#")?;
    push_decimal(out, number)
}

fn push_object(out: &mut String, word: &str, actor: u32, object: u32) -> Result<(), AllocError>
    ensures { OnOk result (string_bytes out.new
        ≡ string_bytes out.old ++ word.now ++ number_text actor ++ codes " " ++ number_text object) }
{
    out.push_str(word)?;
    push_number(out, actor)?;
    out.push_str(" ")?;
    push_number(out, object)
}

fn push_object_before(
    out: &mut String,
    word: &str,
    actor: u32,
    object: u32,
) -> Result<(), AllocError>
    ensures { OnOk result (string_bytes out.new
        ≡ string_bytes out.old ++ word.now ++ number_text actor ++ codes " " ++ number_text object ++ codes " ") }
{
    push_object(out, word, actor, object)?;
    out.push_str(" ")
}

fn push_others(out: &mut String, names: &[String]) -> Result<(), AllocError>
    ensures { OnOk result (string_bytes out.new
        ≡ string_bytes out.old ++ flat_map (λ name. codes "," ++ name) (map string_bytes names.now)) }
{
    for name in names {
        out.push_str(",")?;
        out.push_str(name.as_str())?;
    }
    Ok(())
}

fn push_listed(out: &mut String, names: &[String]) -> Result<(), AllocError>
    ensures { OnOk result (string_bytes out.new ≡ string_bytes out.old ++ with_commas (map string_bytes names.now)) }
{
    match names {
        [first, others @ ..] => {
            out.push_str(first.as_str())?;
            push_others(out, others)
        }
        [] => Ok(()),
    }
}

fn push_names(out: &mut String, names: &Names) -> Result<(), AllocError>
    ensures { OnOk result (string_bytes out.new ≡ string_bytes out.old ++ in_quotes names.now) }
{
    out.push_str("\"")?;
    push_listed(out, names.list())?;
    out.push_str("\"")
}

fn push_name(out: &mut String, name: &Name) -> Result<(), AllocError>
    ensures { OnOk result (string_bytes out.new ≡ string_bytes out.old ++ in_quotes (name.now ∷ [])) }
{
    out.push_str("\"")?;
    out.push_str(name.as_str())?;
    out.push_str("\"")
}

fn push_target(out: &mut String, target: &Target) -> Result<(), AllocError>
    ensures { OnOk result (string_bytes out.new ≡ string_bytes out.old ++ target_text target.now) }
{
    match target {
        Target::New(names) => {
            out.push_str("new ")?;
            push_names(out, names)
        }
        Target::Old(room) => {
            out.push_str("old ")?;
            push_number(out, *room)
        }
    }
}

fn push_back(out: &mut String, back: &Option<Names>) -> Result<(), AllocError>
    ensures { OnOk result (string_bytes out.new ≡ string_bytes out.old ++ back_text back.now) }
{
    match back {
        Some(names) => {
            out.push_str(" back ")?;
            push_names(out, names)
        }
        None => Ok(()),
    }
}

fn push_doors(out: &mut String, doors: &Option<Doors>) -> Result<(), AllocError>
    ensures { OnOk result (string_bytes out.new ≡ string_bytes out.old ++ doors_text doors.now) }
{
    match doors {
        Some(doors) => {
            out.push_str(" out ")?;
            push_names(out, &doors.out)?;
            push_back(out, &doors.back)
        }
        None => Ok(()),
    }
}

fn push_key(alloc: Global, out: &mut String, key: &Key) -> Result<(), AllocError>
    ensures { OnOk result (string_bytes out.new ≡ string_bytes out.old ++ printed (by_text key.now)) }
{
    let text = print(alloc, key)?;
    out.push_str(text.as_str())
}

fn push_word(out: &mut String, word: &str, actor: u32) -> Result<(), AllocError>
    ensures { OnOk result (string_bytes out.new ≡ string_bytes out.old ++ word.now ++ number_text actor ++ codes " ") }
{
    out.push_str(word)?;
    push_number(out, actor)?;
    out.push_str(" ")
}

fn push_speech(out: &mut String, word: &str, actor: u32, speech: &Speech) -> Result<(), AllocError>
    ensures { OnOk result (string_bytes out.new
        ≡ string_bytes out.old ++ word.now ++ number_text actor ++ codes " " ++ speech.now) }
{
    push_word(out, word, actor)?;
    out.push_str(speech.as_str())
}

fn push_deed(alloc: Global, out: &mut String, actor: u32, deed: &Deed) -> Result<(), AllocError>
    ensures { OnOk result (string_bytes out.new ≡ string_bytes out.old ++ deed_text (number_text actor) deed.now) }
{
    match deed {
        Deed::Dig(target, doors) => {
            push_word(out, "dig ", actor)?;
            push_target(out, target)?;
            push_doors(out, doors)
        }
        Deed::Make(names) => {
            push_word(out, "make ", actor)?;
            push_names(out, names)
        }
        Deed::Player(name) => {
            push_word(out, "player ", actor)?;
            push_name(out, name)
        }
        Deed::Lock { object, key } => {
            push_object_before(out, "lock ", actor, *object)?;
            push_key(alloc, out, key)
        }
        Deed::Unlock { object } => push_object(out, "unlock ", actor, *object),
        Deed::Move { thing, to } => {
            push_object_before(out, "move ", actor, *thing)?;
            push_number(out, *to)
        }
        Deed::Walk { exit } => push_object(out, "walk ", actor, *exit),
        Deed::Cost { exit, cost } => {
            push_object_before(out, "cost ", actor, *exit)?;
            push_decimal(out, *cost)
        }
        Deed::Rename { object, names } => {
            push_object_before(out, "rename ", actor, *object)?;
            push_names(out, names)
        }
        Deed::Recycle { object } => push_object(out, "recycle ", actor, *object),
        Deed::Say(text) => push_speech(out, "say ", actor, text),
        Deed::Emote(text) => push_speech(out, "emote ", actor, text),
    }
}

// Returns the line of the entry, without its end.
#[tactic(auto, unfolding(crate::specs::Text::entry_line))]
pub(crate) fn push_line(
    alloc: Global,
    version: u32,
    entry: &Entry,
    out: &mut String,
) -> Result<(), AllocError>
    ensures { OnOk result (string_bytes out.new ≡ string_bytes out.old ++ entry_line version entry.now) }
{
    push_decimal(out, version)?;
    out.push_str(" ")?;
    push_decimal(out, entry.desk())?;
    out.push_str(" ")?;
    let change = entry.change();
    push_deed(alloc, out, change.actor, &change.deed)
}

/// Appends names as a history has them: in double quotes, separated by commas (docs/HISTORY.md, "Entries"). The only
/// error is out of memory, and it leaves the text unchanged.
pub fn write_names(alloc: Global, names: &Names, out: &mut String) -> Result<(), AllocError>
    ensures ok { OnOk result (string_bytes out.new ≡ string_bytes out.old ++ in_quotes names.now) }
    ensures err { OnErr result (string_bytes out.new ≡ string_bytes out.old) }
{
    let mut text = String::new(alloc);
    push_names(&mut text, names)?;
    out.push_str(text.as_str())
}

/// Appends the line of the entry with its line end: the version that its change makes, 1 to 65,536, the desk, and the
/// change (docs/HISTORY.md, "Entries"). The only error is out of memory, and it leaves the text unchanged.
pub fn write_entry(
    alloc: Global,
    version: u32,
    entry: &Entry,
    out: &mut String,
) -> Result<(), AllocError>
    requires from { 1 ≤ version }
    requires to { version ≤ MOST_ENTRIES }
    ensures ok { OnOk result (string_bytes out.new ≡ string_bytes out.old
        ++ entry_line version entry.now ++ line_feed) }
    ensures err { OnErr result (string_bytes out.new ≡ string_bytes out.old) }
{
    let mut text = String::new(alloc);
    push_line(alloc, version, entry, &mut text)?;
    text.push_str("\n")?;
    out.push_str(text.as_str())
}

// Appends the lines of entries, the first with version 1.
fn push_entries(alloc: Global, entries: &[Entry], out: &mut String) -> Result<(), AllocError>
    requires { length entries.now ≤ MOST_ENTRIES }
    ensures { OnOk result (string_bytes out.new ≡ string_bytes out.old ++ entries_text 1 entries.now) }
{
    let mut version = 0;
    for entry in entries {
        version += 1;
        push_line(alloc, version, entry, out)?;
        out.push_str("\n")?;
    }
    Ok(())
}

// Returns the last line after this many entries, without its end.
#[tactic(auto, unfolding(crate::specs::Text::end_line))]
pub(crate) fn push_end(out: &mut String, count: usize) -> Result<(), AllocError>
    requires { count ≤ MOST_ENTRIES }
    ensures { OnOk result (string_bytes out.new ≡ string_bytes out.old ++ end_line count) }
{
    out.push_str("end ")?;
    push_decimal(out, count as u32)
}

/// Appends the text of the history of these entries, at most 65,536, in format 2 (docs/HISTORY.md). The only error is
/// out of memory, and it leaves the text unchanged.
pub fn write_history(alloc: Global, entries: &[Entry], out: &mut String) -> Result<(), AllocError>
    requires { length entries.now ≤ MOST_ENTRIES }
    ensures ok { OnOk result (string_bytes out.new ≡ string_bytes out.old ++ history_text Two entries.now) }
    ensures err { OnErr result (string_bytes out.new ≡ string_bytes out.old) }
{
    let mut text = String::from_str(alloc, Format::Two.first_line())?;
    push_entries(alloc, entries, &mut text)?;
    push_end(&mut text, entries.len())?;
    text.push_str("\n")?;
    out.push_str(text.as_str())?;
    Ok(())
}
