//! The new numbers as a text.

ghost use Rattle.std.specs.Prelude.{◌≡◌, ◌++◌, [], codes, string_bytes, IfOk, OnOk};
ghost use Rattle.std.specs.Option.{option_map_or};
ghost use Rattle.mud_key.specs.Printed.{number_text};
ghost use Rattle.mud_world.specs.State.{record_at};
ghost use Rattle.mud_renumber.specs.Numbers.{number_in, map_row, map_text};

use crate::numbers::Numbers;
use mud_world::World;
use std::alloc::{AllocError, Global};

fn push_number(out: &mut String, number: u32) -> Result<(), AllocError>
    ensures { OnOk result (string_bytes out.new ≡ string_bytes out.old ++ number_text number) }
{
    write!(out, "#{number}")
}

// Appends the line of an object.
fn push_row(out: &mut String, number: u32, new: u32) -> Result<(), AllocError>
    ensures { OnOk result (string_bytes out.new ≡ string_bytes out.old ++ map_row number new) }
{
    push_number(out, number)?;
    out.push_str(" ")?;
    push_number(out, new)?;
    out.push_str("\n")
}

// Appends the line of an object, if it exists.
fn push_row_at(
    out: &mut String,
    numbers: &Numbers,
    world: &World,
    number: u32,
) -> Result<(), AllocError>
    ensures { OnOk result (string_bytes out.new ≡ string_bytes out.old
        ++ option_map_or (λ _. map_row number (number_in numbers.now number)) (record_at world.now number) []) }
{
    match world.get(number) {
        Some(_) => push_row(out, number, numbers.of(number)),
        None => Ok(()),
    }
}

/// Returns a line for each object, by rising numbers: its old number and its new one. The only error is out of memory.
pub(crate) fn tell(alloc: Global, numbers: &Numbers, world: &World) -> Result<String, AllocError>
    ensures { IfOk result (λ text. string_bytes text ≡ map_text (number_in numbers.now) world.now) }
{
    let mut out = String::new(alloc);
    for number in 0..world.next_number() {
        push_row_at(&mut out, numbers, world, number)?;
    }
    Ok(out)
}
