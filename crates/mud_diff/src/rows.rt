//! Writes the differences of two worlds as a text.

ghost use Rattle.std.specs.Prelude.{◌≡◌, ◌++◌, codes, string_bytes, option_copied, IfOk, OnOk};
ghost use Rattle.std.specs.Fmt.{decimal};
ghost use Rattle.std.specs.List.{flat_map};
ghost use Rattle.std.specs.Option.{option_map_or};
ghost use Rattle.mud_key.specs.Printed.{number_text, by_text, printed};
ghost use Rattle.mud_diff.specs.Rows.{kind_text, object_or_nothing, word_of, value_text, change_text, row, next_row};
ghost use Rattle.mud_diff.specs.Rows.{rows, diff_text};

use crate::difference::{Difference, What};
use crate::fields::{cost_in, destination_in, source_in};
use mud_chron::write_names;
use mud_key::{Key, print};
use mud_world::{Kind, Record, World};
use std::alloc::{AllocError, Global};

fn push_number(out: &mut String, number: u32) -> Result<(), AllocError>
    ensures { OnOk result (string_bytes out.new ≡ string_bytes out.old ++ number_text number) }
{
    write!(out, "#{number}")
}

// Appends the number of an object, or `nothing`.
fn push_object(out: &mut String, object: Option<u32>) -> Result<(), AllocError>
    ensures { OnOk result (string_bytes out.new ≡ string_bytes out.old ++ object_or_nothing object) }
{
    match object {
        Some(number) => push_number(out, number),
        None => out.push_str("nothing"),
    }
}

// Appends a cost, or `nothing`.
fn push_cost(out: &mut String, cost: Option<u32>) -> Result<(), AllocError>
    ensures { OnOk result (string_bytes out.new
        ≡ string_bytes out.old ++ option_map_or decimal cost (codes "nothing")) }
{
    match cost {
        Some(cost) => write!(out, "{cost}"),
        None => out.push_str("nothing"),
    }
}

// Appends a key, or `nothing`.
fn push_key(alloc: Global, out: &mut String, key: &Option<Key>) -> Result<(), AllocError>
    ensures { OnOk result (string_bytes out.new
        ≡ string_bytes out.old ++ option_map_or (λ key. printed (by_text key)) key.now (codes "nothing")) }
{
    let Some(key) = key else {
        return out.push_str("nothing");
    };
    let text = print(alloc, key)?;
    out.push_str(text.as_str())
}

fn kind_word(kind: Kind) -> &'static str
    ensures { result.now ≡ kind_text kind }
{
    match kind {
        Kind::Room => "room",
        Kind::Exit(_) => "exit",
        Kind::Thing { .. } => "thing",
        Kind::Player { .. } => "player",
    }
}

fn word_of(what: What) -> &'static str
    ensures { result.now ≡ word_of what }
{
    match what {
        What::Added => " added ",
        What::Removed => " removed ",
        What::Names => " names ",
        What::Owner => " owner ",
        What::Kind => " kind ",
        What::Place => " place ",
        What::Source => " from ",
        What::Destination => " to ",
        What::Cost => " cost ",
        What::Key => " key ",
    }
}

// Appends the kind and the names of an object.
fn push_title(alloc: Global, out: &mut String, kept: &Record) -> Result<(), AllocError>
    ensures { OnOk result (string_bytes out.new
        ≡ string_bytes out.old ++ value_text What.Added kept.now) }
{
    out.push_str(kind_word(kept.kind))?;
    out.push_str(" ")?;
    write_names(alloc, &kept.names, out)
}

// Appends the value of a field of an object.
fn push_value(alloc: Global, out: &mut String, what: What, kept: &Record) -> Result<(), AllocError>
    ensures { OnOk result (string_bytes out.new ≡ string_bytes out.old ++ value_text what kept.now) }
{
    match what {
        What::Added | What::Removed => push_title(alloc, out, kept),
        What::Names => write_names(alloc, &kept.names, out),
        What::Owner => push_number(out, kept.owner),
        What::Kind => out.push_str(kind_word(kept.kind)),
        What::Place => push_object(out, kept.kind.place()),
        What::Source => push_object(out, source_in(kept)),
        What::Destination => push_object(out, destination_in(kept)),
        What::Cost => push_cost(out, cost_in(kept)),
        What::Key => push_key(alloc, out, &kept.key),
    }
}

// Appends the values of a field of an object that both worlds have.
fn push_change(
    alloc: Global,
    out: &mut String,
    what: What,
    old: Option<&Record>,
    new: Option<&Record>,
) -> Result<(), AllocError>
    ensures { OnOk result (string_bytes out.new
        ≡ string_bytes out.old ++ change_text what (option_copied old.entry) (option_copied new.entry)) }
{
    match (old, new) {
        (Some(old), Some(new)) => {
            push_value(alloc, out, what, old)?;
            out.push_str(" -> ")?;
            push_value(alloc, out, what, new)
        }
        (Some(only), None) | (None, Some(only)) => push_value(alloc, out, what, only),
        (None, None) => Ok(()),
    }
}

// Appends the row of a difference, with its end.
fn push_row(
    alloc: Global,
    out: &mut String,
    old: &World,
    new: &World,
    difference: Difference,
) -> Result<(), AllocError>
    ensures { OnOk result (string_bytes out.new ≡ string_bytes out.old ++ row old.now new.now difference) }
{
    let Difference { number, what } = difference;
    push_number(out, number)?;
    out.push_str(word_of(what))?;
    push_change(alloc, out, what, old.get(number), new.get(number))?;
    out.push_str("\n")
}

// Appends the row of the next numbers, if they differ.
fn push_next(out: &mut String, old: u32, new: u32) -> Result<(), AllocError>
    ensures { OnOk result (string_bytes out.new ≡ string_bytes out.old ++ next_row old new) }
{
    if old == new {
        return Ok(());
    }
    write!(out, "next #{old} -> #{new}\n")
}

// Returns a row for each difference, and then that of the next numbers.
fn rows_of(
    alloc: Global,
    old: &World,
    new: &World,
    differences: &[Difference],
) -> Result<String, AllocError>
    ensures { IfOk result (λ text. string_bytes text ≡ rows old.now new.now differences.now) }
{
    let mut out = String::new(alloc);
    for difference in differences {
        push_row(alloc, &mut out, old, new, *difference)?;
    }
    push_next(&mut out, old.next_number(), new.next_number())?;
    Ok(out)
}

/// Returns the differences of an old world and a new one as a text: a row for each, and one if the next numbers differ;
/// or `the worlds are the same` (docs/KEEPING.md, "Diff"). The only error is out of memory.
pub fn diff_text(
    alloc: Global,
    old: &World,
    new: &World,
    differences: &[Difference],
) -> Result<String, AllocError>
    ensures { IfOk result (λ text. string_bytes text ≡ diff_text old.now new.now differences.now) }
{
    let rows = rows_of(alloc, old, new, differences)?;
    if rows.is_empty() {
        return String::from_str(alloc, "the worlds are the same\n");
    }
    Ok(rows)
}
