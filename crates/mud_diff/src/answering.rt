//! Compares two histories.

ghost use Rattle.std.specs.Prelude.{◌≡◌, IfOk, IfErr, string_bytes};
ghost use Rattle.mud_diff.specs.Answer.{IsDiffText, IsDiff, HasNoDiff};
ghost use Rattle.mud_compact.specs.Answer.{KeepsWorld, KeepsNoWorld};

use crate::comparing::differences;
use crate::rows::diff_text;
use mud_chron::replay;
use mud_compact::{KeptFault, TextKind, read_kept};
use mud_world::World;
use std::alloc::{AllocError, Global};

/// The reason why two texts are not compared.
#[derive(Debug, Drop)]
pub enum NoDiff {
    /// The old text has no world, or an allocation failed.
    Old(KeptFault),
    /// The new text has no world, or an allocation failed.
    New(KeptFault),
}

/// The differences of the worlds of two texts.
#[derive(Drop)]
pub struct DiffText {
    /// The differences.
    pub comparison: Comparison,
    /// The number of torn bytes at the end of each journal; `None` for a history.
    pub torn: (Option<usize>, Option<usize>),
}

// Returns the world of the bytes, and the number of torn bytes.
fn world_in(
    alloc: Global,
    kind: TextKind,
    bytes: &[u8],
) -> Result<(World, Option<usize>), KeptFault>
    ensures ok { IfOk result (λ kept. KeepsWorld kind bytes.now kept.1 kept.0) }
    ensures err { IfErr result (KeepsNoWorld kind bytes.now) }
{
    let kept = read_kept(alloc, kind, bytes)?;
    let world = replay(alloc, &kept.entries)?;
    Ok((world, kept.torn))
}

/// The differences of two worlds as a text.
#[derive(Drop)]
pub struct Comparison {
    /// The rows, or that the worlds are the same.
    pub text: String,
    /// True if the worlds are the same.
    pub is_same: bool,
}

/// Returns the differences of an old world and a new one as a text, and a flag that is true if they are equal
/// (docs/KEEPING.md, "Diff"). The only error is out of memory.
pub fn compare(alloc: Global, old: &World, new: &World) -> Result<Comparison, AllocError>
    ensures { IfOk result (λ c. IsDiffText old.now new.now (string_bytes c.text) c.is_same) }
{
    let found = differences(alloc, old, new)?;
    let text = diff_text(alloc, old, new, &found)?;
    let is_same = found.is_empty() && old.next_number() == new.next_number();
    Ok(Comparison { text, is_same })
}

/// Returns the differences of the worlds of two texts of a kind, histories or journals (docs/KEEPING.md, "Diff"). A
/// text without a world has a fault. The only other error is out of memory, which is reported as a fault of the old
/// text.
pub fn diff_of(alloc: Global, kind: TextKind, old: &[u8], new: &[u8]) -> Result<DiffText, NoDiff>
    ensures ok { IfOk result (λ d. IsDiff kind old.now new.now (string_bytes d.comparison.text)
        d.comparison.is_same d.torn) }
    ensures err { IfErr result (HasNoDiff kind old.now new.now) }
{
    let (before, torn_before) = match world_in(alloc, kind, old) {
        Ok(kept) => kept,
        Err(fault) => return Err(NoDiff::Old(fault)),
    };
    let (after, torn_after) = match world_in(alloc, kind, new) {
        Ok(kept) => kept,
        Err(fault) => return Err(NoDiff::New(fault)),
    };
    match compare(alloc, &before, &after) {
        Ok(comparison) => Ok(DiffText {
            comparison,
            torn: (torn_before, torn_after),
        }),
        Err(error) => Err(NoDiff::Old(KeptFault::from(error))),
    }
}
