//! Writes double-quoted texts.

ghost use Rattle.std.specs.Prelude.{◌≡◌, ◌++◌, OnOk};
ghost use Rattle.mud_map.specs.Quotes.{escaped_byte, escape, in_quotes};

use crate::codes::BACKSLASH;
use mud_chron::codes::QUOTE;
use mud_key::codes::LF;
use std::alloc::AllocError;

// Appends a byte with its escape.
fn push_byte(out: &mut Vec<u8>, byte: u8) -> Result<(), AllocError>
    ensures { OnOk result (out.new.items ≡ out.old.items ++ escaped_byte byte) }
{
    if byte == LF {
        return out.extend_from_slice(b"\\n");
    }
    if byte == QUOTE || byte == BACKSLASH {
        out.push(BACKSLASH)?;
    }
    out.push(byte)?;
    Ok(())
}

// Appends a text with its escapes.
fn push_escaped(out: &mut Vec<u8>, text: &[u8]) -> Result<(), AllocError>
    ensures { OnOk result (out.new.items ≡ out.old.items ++ escape text.now) }
{
    for byte in text {
        push_byte(out, *byte)?;
    }
    Ok(())
}

/// Appends a text in quotes. The only error is out of memory.
pub(crate) fn push_quoted(out: &mut Vec<u8>, text: &[u8]) -> Result<(), AllocError>
    ensures { OnOk result (out.new.items ≡ out.old.items ++ in_quotes text.now) }
{
    out.extend_from_slice(b"\"")?;
    push_escaped(out, text)?;
    out.extend_from_slice(b"\"")
}
