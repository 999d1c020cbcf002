//! Checks two texts.

ghost use Rattle.std.specs.Prelude.{◌≡◌, ◌≢◌, false, IfErr, IfOk, IfSome, OnOk};
ghost use Rattle.std.specs.Io.KnownBytes.{IsAtEnd};
ghost use Rattle.std.specs.IoError.{error_kind};
ghost use Rattle.mud_check.specs.Judgement.{IsJudged, IsInputFault, IsFileFault};

use crate::input::split;
use mud_checker::{Outcome, verdict};
use mud_io::Source;
use std::alloc::{AllocError, Global};
use std::fs;
use std::io::{self, ErrorKind, Read};
use std::rt::Files;
use thiserror::Error;

/// The reason why there is no verdict.
#[derive(Clone, Copy, Debug, Error)]
pub enum Unread<'a> {
    /// An allocation failed.
    #[error("unreadable: out of memory")]
    OutOfMemory,
    /// The file with this name can't be read; `-` is standard input.
    #[error("unreadable: file {0}")]
    File(&'a str),
}

// Returns the reason why the file with this name was not read.
fn reason_of<'a>(name: &'a str, error: &io::Error) -> Unread<'a>
    ensures memory { error_kind error.now ≡ ErrorKind.OutOfMemory → result ≡ Unread.OutOfMemory }
    ensures file { error_kind error.now ≢ ErrorKind.OutOfMemory → result ≡ Unread.File name.entry }
{
    match error.kind() {
        ErrorKind::OutOfMemory => Unread::OutOfMemory,
        _ => Unread::File(name),
    }
}

// Returns the bytes of the file with this name.
fn file<'a, R: Files + AllocGlobal>(rt: &R, name: &'a str) -> Result<Vec<u8>, Unread<'a>>
    ensures { IfErr result (IsFileFault name.now name.now) }
{
    match fs::read(rt, name) {
        Ok(bytes) => Ok(bytes),
        Err(error) => Err(reason_of(name, &error)),
    }
}

/// Reads the two files, the history first, and checks their texts. The fault names the file that can't be read.
pub fn judge_files<'a, R: Files + AllocGlobal>(
    rt: &R,
    history: &'a str,
    proof: &'a str,
) -> Result<Outcome, Unread<'a>>
    ensures { IfErr result (IsFileFault history.now proof.now) }
{
    let history = file(rt, history)?;
    let proof = file(rt, proof)?;
    match verdict(rt.alloc(), &history, &proof) {
        Ok(outcome) => Ok(outcome),
        Err(AllocError) => Err(Unread::OutOfMemory),
    }
}

// Returns the rest of the source.
fn input<R: Read>(alloc: Global, source: &mut Source<R>) -> Result<Vec<u8>, Unread<'static>>
    requires no_end { source.old.at_end ≡ false }
    ensures bytes { IfOk result (λ input. IfSome source.old.left (λ bytes. input.items ≡ bytes)) }
    ensures end { OnOk result (IsAtEnd source.new.left) }
    ensures read { OnOk result (source.new.has_failed ≡ false) }
    ensures fault { IfErr result (IsInputFault source.new.has_failed) }
{
    let mut bytes = Vec::new(alloc);
    match source.read_to_end(&mut bytes) {
        Ok(_) => Ok(bytes),
        Err(error) => Err(reason_of("-", &error)),
    }
}

/// Reads a history's text and a proof's text, one after the other, to the source's end, and checks them. The fault
/// names the file `-` exactly if the source failed.
pub fn judge_input<R: Read>(
    alloc: Global,
    source: &mut Source<R>,
) -> Result<Outcome, Unread<'static>>
    requires no_end { source.old.at_end ≡ false }
    ensures ok { IfOk result (λ outcome. IfSome source.old.left (λ bytes. IsJudged bytes outcome)) }
    ensures end { OnOk result (IsAtEnd source.new.left) }
    ensures read { OnOk result (source.new.has_failed ≡ false) }
    ensures fault { IfErr result (IsInputFault source.new.has_failed) }
{
    let bytes = input(alloc, source)?;
    let (history, proof) = split(&bytes);
    match verdict(alloc, history, proof) {
        Ok(outcome) => Ok(outcome),
        Err(AllocError) => Err(Unread::OutOfMemory),
    }
}
