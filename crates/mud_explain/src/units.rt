//! Writes the units of a Telnet stream as lines.

ghost use Rattle.std.specs.Prelude.{◌≡◌, ◌++◌, ◌<◌, ◌+◌, IfOk, OnOk, string_bytes};
ghost use Rattle.std.specs.List.{flat_map};
ghost use Rattle.mud_nvt.specs.UnitViews.{all_shown, unit_shown};
ghost use Rattle.mud_nvt.specs.Units.{units};
ghost use Rattle.mud_explain.specs.Units.{hex_digit, unit_text};
ghost use Rattle.mud_explain.specs.inner.Texts.{byte_text, units_text};

use mud_nvt::{Nvt, Unit};
use std::alloc::{AllocError, Global};

// The first letter among the hexadecimal digits.
const LETTER_A: u8 = b'A';

// Returns the units of the bytes, from the initial state on.
fn units_of(alloc: Global, input: &[u8]) -> Result<Vec<Unit>, AllocError>
    ensures { IfOk result (λ given. all_shown given.items ≡ units input.now) }
{
    let mut terminal = Nvt::new(alloc);
    let mut given = Vec::new(alloc);
    match terminal.feed(input, &mut given) {
        Ok(()) => Ok(given),
        Err(_) => Err(AllocError),
    }
}

// Returns a hexadecimal digit.
fn hex_digit(value: u8) -> char
    requires { value < 16 }
    ensures { result ≡ hex_digit value }
{
    if value < 10 {
        char::from(b'0' + value)
    } else {
        char::from(LETTER_A - 10 + value)
    }
}

// Appends each byte as two digits, after a space.
fn push_bytes(out: &mut String, bytes: &[u8]) -> Result<(), AllocError>
    ensures { OnOk result (string_bytes out.new ≡ string_bytes out.old ++ flat_map byte_text bytes.now) }
{
    for byte in bytes {
        out.push(' ')?;
        out.push(hex_digit(*byte / 16))?;
        out.push(hex_digit(*byte % 16))?;
    }
    Ok(())
}

// Appends the line of a unit, without its end.
fn push_unit(out: &mut String, unit: &Unit) -> Result<(), AllocError>
    ensures { OnOk result (string_bytes out.new ≡ string_bytes out.old ++ unit_text (unit_shown unit.now)) }
{
    match unit {
        Unit::Text(text) => {
            out.push_str("text ")?;
            out.push_str(text.as_str())
        }
        Unit::TooLong => out.push_str("too long"),
        Unit::Ayt => out.push_str("ayt"),
        Unit::Answer(bytes) => {
            out.push_str("answer")?;
            push_bytes(out, bytes.as_slice())
        }
    }
}

// Appends the lines of units.
fn push_units(out: &mut String, given: &[Unit]) -> Result<(), AllocError>
    ensures { OnOk result (string_bytes out.new ≡ string_bytes out.old ++ units_text (all_shown given.now)) }
{
    for unit in given {
        push_unit(out, unit)?;
        out.push('\n')?;
    }
    Ok(())
}

/// A line for each unit of the stream, in order (docs/EXPLAIN.md, "units").
pub(crate) fn explained_units(alloc: Global, input: &[u8]) -> Result<String, AllocError>
    ensures { IfOk result (λ out. string_bytes out ≡ units_text (units input.now)) }
{
    let given = units_of(alloc, input)?;
    let mut out = String::new(alloc);
    push_units(&mut out, given.as_slice())?;
    Ok(out)
}
