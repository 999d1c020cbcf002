//! Writes the verdict.

ghost use Rattle.mud_check.specs.Judgement.{Says};

use mud_io::Sink;
use std::io::Write;

/// Writes the line, and returns its exit status, or 2 if the line can't be written.
pub fn write_outcome<W: Write>(sink: &mut Sink<W>, text: &str, code: u8) -> u8
    ensures { Says sink.old.holds sink.new.holds text.now code sink.new.has_failed result }
{
    if sink.write_all(text.as_bytes()) && sink.write_all(b"\n") {
        code
    } else {
        2
    }
}
