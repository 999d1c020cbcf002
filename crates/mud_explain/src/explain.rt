//! Explains an input.

ghost use Rattle.std.specs.Prelude.{◌≡◌, ◌↔◌, ◌⊎◌, Err, true, false, IfOk, IfSome, OnOk, string_bytes};
ghost use Rattle.std.specs.Io.KnownBytes.{IsAtEnd, Keeps};
ghost use Rattle.mud_explain.specs.Explanation.{Explains, Writes, WritesFront};

use crate::lines::explained_lines;
use crate::units::explained_units;
use mud_cli::Subject;
use mud_history_file::Unloaded;
use mud_io::{Sink, Source};
use std::alloc::{AllocError, Global};
use std::io::{ErrorKind, Read, Write};
use thiserror::Error;

/// The reason why an input was not explained.
#[derive(Clone, Copy, Debug, Error)]
pub enum ExplainFault {
    /// An allocation failed.
    #[error("out of memory")]
    OutOfMemory,
    /// The input can't be read.
    #[error("read fault")]
    Read,
    /// The lines can't be written.
    #[error("write fault")]
    Write,
    /// There is no hall to play in.
    #[error("cannot load: {0}")]
    Unloaded(Unloaded),
}

// Returns the rest of the source.
pub(crate) fn input_of<R: Read>(
    alloc: Global,
    source: &mut Source<R>,
) -> Result<Vec<u8>, ExplainFault>
    requires no_end { source.old.at_end ≡ false }
    ensures bytes { IfOk result (λ input. IfSome source.old.left (λ bytes. input.items ≡ bytes)) }
    ensures end { OnOk result (IsAtEnd source.new.left) }
    ensures read { result ≡ Err ExplainFault.Read ↔ source.new.has_failed ≡ true }
    ensures not_write { ¬ (result ≡ Err ExplainFault.Write) }
{
    let mut input = Vec::new(alloc);
    match source.read_to_end(&mut input) {
        Ok(_) => Ok(input),
        Err(error) => Err(match error.kind() {
            ErrorKind::OutOfMemory => ExplainFault::OutOfMemory,
            _ => ExplainFault::Read,
        }),
    }
}

// Returns the explanation of an input.
fn explain_input(alloc: Global, subject: Subject, input: &[u8]) -> Result<String, AllocError>
    ensures { IfOk result (λ out. Explains subject input.now (string_bytes out)) }
{
    match subject {
        Subject::Units => explained_units(alloc, input),
        Subject::Lines(reading) => explained_lines(alloc, reading, input),
    }
}

/// Reads to the source's end, and writes a line for each thing read. It writes nothing before everything is read and
/// explained. If a write fails, a prefix of the lines is written. The error is `Read` exactly if the source failed, and
/// `Write` only if the sink failed.
pub(crate) fn explain<R: Read, W: Write>(
    alloc: Global,
    subject: Subject,
    source: &mut Source<R>,
    sink: &mut Sink<W>,
) -> Result<(), ExplainFault>
    requires no_end { source.old.at_end ≡ false }
    ensures ok { OnOk result
        (IfSome source.old.left (λ input. Writes subject input sink.old.holds sink.new.holds)) }
    ensures end { OnOk result (IsAtEnd source.new.left) }
    ensures read { result ≡ Err ExplainFault.Read ↔ source.new.has_failed ≡ true }
    ensures write { result ≡ Err ExplainFault.Write → sink.new.has_failed ≡ true }
    ensures front { result ≡ Err ExplainFault.Write →
        IfSome source.old.left (λ input. WritesFront subject input sink.old.holds sink.new.holds) }
    ensures nothing { result ≡ Err ExplainFault.Read ⊎ result ≡ Err ExplainFault.OutOfMemory →
        Keeps sink.old.holds sink.new.holds }
{
    let input = input_of(alloc, source)?;
    let out = match explain_input(alloc, subject, &input) {
        Ok(out) => out,
        Err(_) => return Err(ExplainFault::OutOfMemory),
    };
    if sink.write_all(out.as_bytes()) {
        Ok(())
    } else {
        Err(ExplainFault::Write)
    }
}
