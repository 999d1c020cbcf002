//! The world as a table.

ghost use Rattle.std.specs.Prelude.{◌≡◌, ◌++◌, [], string_bytes, IfOk, OnOk};
ghost use Rattle.std.specs.Option.{option_map_or};
ghost use Rattle.mud_key.specs.Printed.{number_text};
ghost use Rattle.mud_world.specs.State.{record_at};
ghost use Rattle.mud_compact.specs.Rows.{kind_word, head_text, where_text, lock_text, row, shown_text};

use mud_chron::write_names;
use mud_key::{Key, print};
use mud_world::{Kind, Record, World};
use std::alloc::{AllocError, Global};

fn push_number(out: &mut String, number: u32) -> Result<(), AllocError>
    ensures { OnOk result (string_bytes out.new ≡ string_bytes out.old ++ number_text number) }
{
    write!(out, "#{number}")
}

// Appends a word and the number of an object.
fn push_object(out: &mut String, word: &str, number: u32) -> Result<(), AllocError>
    ensures { OnOk result (string_bytes out.new ≡ string_bytes out.old ++ word.now ++ number_text number) }
{
    out.push_str(word)?;
    push_number(out, number)
}

fn word_of(kind: Kind) -> &'static str
    ensures { result.now ≡ kind_word kind }
{
    match kind {
        Kind::Room => " room ",
        Kind::Exit(_) => " exit ",
        Kind::Thing { .. } => " thing ",
        Kind::Player { .. } => " player ",
    }
}

// Appends the place, or the ends and the cost.
fn push_where(out: &mut String, kind: Kind) -> Result<(), AllocError>
    ensures { OnOk result (string_bytes out.new ≡ string_bytes out.old ++ where_text kind) }
{
    match kind {
        Kind::Room => Ok(()),
        Kind::Exit(passage) => {
            push_object(out, " from ", passage.source)?;
            push_object(out, " to ", passage.destination)?;
            write!(out, " cost {}", passage.cost)
        }
        Kind::Thing { place } => push_object(out, " in ", place),
        Kind::Player { place } => push_object(out, " in ", place),
    }
}

// Appends the key, if there is one.
fn push_lock(alloc: Global, out: &mut String, key: &Option<Key>) -> Result<(), AllocError>
    ensures { OnOk result (string_bytes out.new ≡ string_bytes out.old ++ lock_text key.now) }
{
    let Some(key) = key else {
        return Ok(());
    };
    let text = print(alloc, key)?;
    out.push_str(" key ")?;
    out.push_str(text.as_str())
}

// Appends the number of an object, its kind, its names and its owner.
fn push_head(alloc: Global, out: &mut String, number: u32, kept: &Record) -> Result<(), AllocError>
    ensures { OnOk result (string_bytes out.new ≡ string_bytes out.old ++ head_text number kept.now) }
{
    push_number(out, number)?;
    out.push_str(word_of(kept.kind))?;
    write_names(alloc, &kept.names, out)?;
    push_object(out, " owner ", kept.owner)
}

// Appends the row of an object, with its line end.
fn push_row(alloc: Global, out: &mut String, number: u32, kept: &Record) -> Result<(), AllocError>
    ensures { OnOk result (string_bytes out.new ≡ string_bytes out.old ++ row number kept.now) }
{
    push_head(alloc, out, number, kept)?;
    push_where(out, kept.kind)?;
    push_lock(alloc, out, &kept.key)?;
    out.push_str("\n")
}

// Appends the row of an object, if it exists.
fn push_row_at(
    alloc: Global,
    out: &mut String,
    world: &World,
    number: u32,
) -> Result<(), AllocError>
    ensures { OnOk result (string_bytes out.new
        ≡ string_bytes out.old ++ option_map_or (row number) (record_at world.now number) []) }
{
    match world.get(number) {
        Some(record) => push_row(alloc, out, number, record),
        None => Ok(()),
    }
}

/// Returns the world as a table, with a row for each object, sorted by number, and the next number at the end. A row
/// has the object's kind, its names, its owner, its place or its ends and cost, and its key (docs/KEEPING.md, "Show").
/// The only error is out of memory.
pub fn show(alloc: Global, world: &World) -> Result<String, AllocError>
    ensures { IfOk result (λ text. string_bytes text ≡ shown_text world.now) }
{
    let mut out = String::new(alloc);
    for number in 0..world.next_number() {
        push_row_at(alloc, &mut out, world, number)?;
    }
    push_object(&mut out, "next ", world.next_number())?;
    out.push_str("\n")?;
    Ok(out)
}
