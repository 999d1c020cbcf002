//! Plays the desks of a hall.

ghost use Rattle.std.specs.Prelude.{◌≡◌, ◌⊎◌, ◌≤◌, Err, true, false, OnOk};
ghost use Rattle.std.specs.Io.KnownBytes.{IsAtEnd, Keeps};
ghost use Rattle.mud_world.specs.declared.limits.TheConstants.{MOST_ENTRIES};

use crate::explain::{ExplainFault, input_of};
use crate::opening::open_hall;
use crate::play::Play;
use memchr::memchr;
use mud_cli::Opening;
use mud_hall::{HallName, NewHall};
use mud_history_file::Unloaded;
use mud_io::{Sink, Source};
use std::alloc::{AllocError, Global};
use std::io::{Read, Write};
use std::marker::Brand;
use std::rt::Files;
use std::sync::Wait;

// Plays the lines of an input, and appends the result of each.
fn play_all<J: HallName, R: Wait>(
    play: &mut Play<J>,
    rt: &R,
    input: &[u8],
    out: &mut String,
) -> Result<(), AllocError> {
    let mut rest = input;
    while let Some(at) = memchr(b'\n', rest) {
        let (line, ended) = rest.split_at(at);
        play.play_line(rt, line, out)?;
        rest = &ended[1..];
    }
    if rest.is_empty() {
        return Ok(());
    }
    play.play_line(rt, rest, out)
}

// Returns the results of an input's lines, which are steps of this hall's desks.
fn told_in<J: HallName, R: Wait>(
    rt: &R,
    alloc: Global,
    hall: NewHall,
    input: &[u8],
) -> Result<String, AllocError>
    requires cells { hall.cells ≡ J.cells }
    requires loaded { hall.loaded ≡ J.loaded }
{
    let mut play = Play::<J>::new(alloc, hall);
    let mut out = String::new(alloc);
    play_all(&mut play, rt, input, &mut out)?;
    Ok(out)
}

// Returns the results of an input's lines, in a hall that gets its name here.
fn play_unnamed<R: Wait>(
    rt: &R,
    alloc: Global,
    hall: NewHall,
    input: &[u8],
) -> Result<String, AllocError> {
    told_in::<Brand, R>(rt, alloc, hall, input)
}

// Returns the results of all lines that the source has left.
fn told_input<R: Wait, S: Read>(
    rt: &R,
    alloc: Global,
    hall: NewHall,
    source: &mut Source<S>,
) -> Result<String, ExplainFault>
    requires no_end { source.old.at_end ≡ false }
    ensures end { OnOk result (IsAtEnd source.new.left) }
    ensures read { result ≡ Err ExplainFault.Read → source.new.has_failed ≡ true }
    ensures not_write { ¬ (result ≡ Err ExplainFault.Write) }
{
    let input = input_of(alloc, source)?;
    match play_unnamed(rt, alloc, hall, &input) {
        Ok(out) => Ok(out),
        Err(_) => Err(ExplainFault::OutOfMemory),
    }
}

/// Opens the hall, reads to the source's end, and writes the result of each line, a step of a desk (docs/EXPLAIN.md,
/// "hall"). It writes nothing before everything is read and played. The error is `Read` only if the source failed, and
/// `Write` only if the sink failed.
pub(crate) fn explain_hall<H: Wait + Files + AllocGlobal, R: Read, W: Write>(
    rt: &H,
    opening: Opening<'_>,
    source: &mut Source<R>,
    sink: &mut Sink<W>,
) -> Result<(), ExplainFault>
    requires from { 1 ≤ opening.capacity }
    requires to { opening.capacity ≤ MOST_ENTRIES }
    requires no_end { source.old.at_end ≡ false }
    ensures end { OnOk result (IsAtEnd source.new.left) }
    ensures read { result ≡ Err ExplainFault.Read → source.new.has_failed ≡ true }
    ensures write { result ≡ Err ExplainFault.Write → sink.new.has_failed ≡ true }
    ensures nothing { result ≡ Err ExplainFault.Read ⊎ result ≡ Err ExplainFault.OutOfMemory →
        Keeps sink.old.holds sink.new.holds }
{
    let hall = match open_hall(rt, opening) {
        Ok(hall) => hall,
        Err(Unloaded::OutOfMemory) => return Err(ExplainFault::OutOfMemory),
        Err(fault) => return Err(ExplainFault::Unloaded(fault)),
    };
    let out = told_input(rt, rt.alloc(), hall, source)?;
    if sink.write_all(out.as_bytes()) {
        Ok(())
    } else {
        Err(ExplainFault::Write)
    }
}
