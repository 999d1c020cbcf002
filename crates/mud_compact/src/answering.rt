//! The answers to a world's keeper.

ghost use Rattle.std.specs.Prelude.{IfOk, IfErr, string_bytes};
ghost use Rattle.mud_compact.specs.declared.reading.TextKind.TheVariants.{Journal};
ghost use Rattle.mud_compact.specs.Recovery.{HasKeptFault};
ghost use Rattle.mud_compact.specs.Front.{IsUnsaved};
ghost use Rattle.mud_compact.specs.Answer.{IsRecovery, IsFrontAnswer, IsShorterAnswer, IsTable, KeepsNoWorld};

use crate::fault::KeptFault;
use crate::reading::{TextKind, read_kept, recover};
use crate::saving::save_front;
use crate::shortening::shorten;
use crate::showing::show;
use mud_chron::{replay, write_history};
use std::alloc::Global;
use thiserror::Error;

/// A note beside a text.
#[derive(Clone, Copy, Debug, PartialEq, Eq, Error)]
pub enum Note {
    /// There is no note.
    #[error("")]
    Nothing,
    /// The first number of bytes of a damaged journal, beginning with the second number's line, were left out.
    #[error("left out: {0} bytes from line {1} on")]
    LeftOut(usize, usize),
    /// A history with the first number of changes has the second number left.
    #[error("changes: {0} before, {1} after\nversions begin anew: check older certificates with the older history")]
    Shortened(usize, usize),
}

/// A text, and the notes beside it.
#[derive(Drop)]
pub struct Answer {
    /// The text.
    pub text: String,
    /// The number of torn bytes at the end of a journal, if it is reported.
    pub torn: Option<usize>,
    /// A further note.
    pub note: Note,
}

/// Returns the text of the history in a journal's bytes. Other bytes have a fault; the only other error is out of
/// memory (docs/KEEPING.md).
pub fn recovered_text(alloc: Global, bytes: &[u8]) -> Result<Answer, KeptFault>
    ensures ok { IfOk result (λ a. IsRecovery bytes.now (string_bytes a.text) a.torn a.note) }
    ensures err { IfErr result (HasKeptFault Journal bytes.now) }
{
    let recovered = recover(alloc, bytes)?;
    Ok(Answer {
        text: recovered.text,
        torn: Some(recovered.torn),
        note: Note::Nothing,
    })
}

/// Returns the text of the history in the longest readable prefix of a damaged journal. Bytes without a first line have
/// a fault; the only other error is out of memory.
pub fn front_text(alloc: Global, bytes: &[u8]) -> Result<Answer, KeptFault>
    ensures ok { IfOk result (λ a. IsFrontAnswer bytes.now (string_bytes a.text) a.torn a.note) }
    ensures err { IfErr result (IsUnsaved bytes.now) }
{
    let saved = save_front(alloc, bytes)?;
    Ok(Answer {
        text: saved.text,
        torn: None,
        note: Note::LeftOut(saved.left, saved.line),
    })
}

/// Returns the text of a shorter history of the same world, for the bytes of a history or a journal, as `kind` says.
/// Other bytes, and illegal changes, have a fault; the only other error is out of memory.
pub fn shorter_text(alloc: Global, kind: TextKind, bytes: &[u8]) -> Result<Answer, KeptFault>
    ensures ok { IfOk result (λ a. IsShorterAnswer kind bytes.now (string_bytes a.text) a.torn a.note) }
    ensures err { IfErr result (KeepsNoWorld kind bytes.now) }
{
    let kept = read_kept(alloc, kind, bytes)?;
    let shorter = shorten(alloc, &kept.entries)?;
    let mut text = String::new(alloc);
    write_history(alloc, &shorter, &mut text)?;
    Ok(Answer {
        text,
        torn: kept.torn,
        note: Note::Shortened(kept.entries.len(), shorter.len()),
    })
}

/// Returns the world of a history or a journal, as `kind` says, as a table. Its faults are those of `shorter_text`.
pub fn world_table(alloc: Global, kind: TextKind, bytes: &[u8]) -> Result<Answer, KeptFault>
    ensures ok { IfOk result (λ a. IsTable kind bytes.now (string_bytes a.text) a.torn a.note) }
    ensures err { IfErr result (KeepsNoWorld kind bytes.now) }
{
    let kept = read_kept(alloc, kind, bytes)?;
    let world = replay(alloc, &kept.entries)?;
    let text = show(alloc, &world)?;
    Ok(Answer {
        text,
        torn: kept.torn,
        note: Note::Nothing,
    })
}
