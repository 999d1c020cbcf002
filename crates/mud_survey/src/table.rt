//! Writes a survey as a table for people.

ghost use Rattle.std.specs.Prelude.{◌≡◌, ◌++◌, codes, not, filter, string_bytes, IfOk, OnOk};
ghost use Rattle.std.specs.List.{flat_map};
ghost use Rattle.mud_key.specs.Printed.{number_text};
ghost use Rattle.mud_world.specs.State.{exists};
ghost use Rattle.mud_survey.specs.Table.{title, ends_text, gone_text, words_of, more_text, row_text, stranded_text};
ghost use Rattle.mud_survey.specs.Table.{rows, table_text};

use crate::row::Row;
use crate::survey::{Stranded, Survey};
use mud_chron::write_names;
use mud_key::atoms;
use mud_world::World;
use std::alloc::{AllocError, Global};

fn push_number(out: &mut String, number: u32) -> Result<(), AllocError>
    ensures { OnOk result (string_bytes out.new ≡ string_bytes out.old ++ number_text number) }
{
    write!(out, "#{number}")
}

// Appends the number of an object and its names.
fn push_title(alloc: Global, out: &mut String, world: &World, number: u32) -> Result<(), AllocError>
    ensures { OnOk result (string_bytes out.new ≡ string_bytes out.old ++ title world.now number) }
{
    push_number(out, number)?;
    match world.get(number) {
        Some(kept) => {
            out.push_str(" ")?;
            write_names(alloc, &kept.names, out)
        }
        None => Ok(()),
    }
}

// Appends words, and the number and the names of an object.
fn push_words(
    alloc: Global,
    out: &mut String,
    words: &str,
    world: &World,
    number: u32,
) -> Result<(), AllocError>
    ensures { OnOk result (string_bytes out.new ≡ string_bytes out.old ++ (words.now ++ title world.now number)) }
{
    out.push_str(words)?;
    push_title(alloc, out, world, number)
}

// Appends the ends of an exit.
fn push_ends(alloc: Global, out: &mut String, world: &World, exit: u32) -> Result<(), AllocError>
    ensures { OnOk result (string_bytes out.new ≡ string_bytes out.old ++ ends_text world.now exit) }
{
    match world.passage(exit) {
        Some(passage) => {
            push_words(alloc, out, " from ", world, passage.source)?;
            push_words(alloc, out, " to ", world, passage.destination)
        }
        None => Ok(()),
    }
}

// Appends those of the objects that are gone.
fn push_gone_of(out: &mut String, world: &World, objects: &[u32]) -> Result<(), AllocError>
    ensures { OnOk result (string_bytes out.new ≡ string_bytes out.old
        ++ flat_map (λ a. codes " " ++ number_text a) (filter (λ a. not (exists world.now a)) objects.now)) }
{
    for object in objects {
        if !world.exists(*object) {
            write!(out, " #{}", *object)?;
        }
    }
    Ok(())
}

// Appends the objects that the key of an object names and that are gone.
fn push_gone(alloc: Global, out: &mut String, world: &World, number: u32) -> Result<(), AllocError>
    ensures { OnOk result (string_bytes out.new ≡ string_bytes out.old ++ gone_text world.now number) }
{
    let Some(kept) = world.get(number) else {
        return Ok(());
    };
    match &kept.key {
        Some(key) => push_gone_of(out, world, &atoms(alloc, key)?),
        None => Ok(()),
    }
}

fn words_of(row: Row) -> &'static str
    ensures { result.now ≡ words_of row }
{
    match row {
        Row::Room => "nobody comes to room ",
        Row::Exit => "nobody passes exit ",
        Row::OneWay => "no exit leads back from exit ",
        Row::Key => "what is gone is named in the key of ",
        Row::Thing => "nobody gets thing ",
    }
}

// Appends the rest of an object's row.
fn push_more(
    alloc: Global,
    out: &mut String,
    row: Row,
    world: &World,
    number: u32,
) -> Result<(), AllocError>
    ensures { OnOk result (string_bytes out.new ≡ string_bytes out.old ++ more_text row world.now number) }
{
    match row {
        Row::Key => {
            out.push_str(":")?;
            push_gone(alloc, out, world, number)
        }
        Row::Room | Row::Exit | Row::OneWay | Row::Thing => Ok(()),
    }
}

// Appends the row of a number, with its end.
fn push_row(
    alloc: Global,
    out: &mut String,
    row: Row,
    world: &World,
    number: u32,
) -> Result<(), AllocError>
    ensures { OnOk result (string_bytes out.new ≡ string_bytes out.old ++ row_text row world.now number) }
{
    push_words(alloc, out, words_of(row), world, number)?;
    push_ends(alloc, out, world, number)?;
    push_more(alloc, out, row, world, number)?;
    out.push_str("\n")
}

// Appends a row for each number.
fn push_rows(
    alloc: Global,
    out: &mut String,
    row: Row,
    world: &World,
    numbers: &[u32],
) -> Result<(), AllocError>
    ensures { OnOk result (string_bytes out.new
        ≡ string_bytes out.old ++ flat_map (row_text row world.now) numbers.now) }
{
    for number in numbers {
        push_row(alloc, out, row, world, *number)?;
    }
    Ok(())
}

// Appends the row of a player without a way back, with its end.
fn push_stranded(
    alloc: Global,
    out: &mut String,
    world: &World,
    stranded: Stranded,
) -> Result<(), AllocError>
    ensures { OnOk result (string_bytes out.new ≡ string_bytes out.old ++ stranded_text world.now stranded) }
{
    push_words(
        alloc,
        out,
        "no way back to #0 from room ",
        world,
        stranded.room,
    )?;
    push_words(alloc, out, " for player ", world, stranded.player)?;
    out.push_str("\n")
}

// Appends a row for each player and room.
fn push_all_stranded(
    alloc: Global,
    out: &mut String,
    world: &World,
    all: &[Stranded],
) -> Result<(), AllocError>
    ensures { OnOk result (string_bytes out.new
        ≡ string_bytes out.old ++ flat_map (stranded_text world.now) all.now) }
{
    for stranded in all {
        push_stranded(alloc, out, world, *stranded)?;
    }
    Ok(())
}

// Returns a row for each finding.
fn rows_of(alloc: Global, world: &World, survey: &Survey) -> Result<String, AllocError>
    ensures { IfOk result (λ text. string_bytes text ≡ rows world.now survey.now) }
{
    let mut out = String::new(alloc);
    push_rows(alloc, &mut out, Row::Room, world, &survey.rooms)?;
    push_rows(alloc, &mut out, Row::Exit, world, &survey.exits)?;
    push_rows(alloc, &mut out, Row::OneWay, world, &survey.one_way)?;
    push_all_stranded(alloc, &mut out, world, &survey.no_way_back)?;
    push_rows(alloc, &mut out, Row::Key, world, &survey.keys)?;
    push_rows(alloc, &mut out, Row::Thing, world, &survey.things)?;
    Ok(out)
}

/// Returns a survey of the world as a table: a row for each finding, or `nothing found` (docs/KEEPING.md, "Survey").
/// The only error is out of memory.
pub fn table_text(alloc: Global, world: &World, survey: &Survey) -> Result<String, AllocError>
    ensures { IfOk result (λ text. string_bytes text ≡ table_text world.now survey.now) }
{
    let rows = rows_of(alloc, world, survey)?;
    if rows.is_empty() {
        return String::from_str(alloc, "nothing found\n");
    }
    Ok(rows)
}
