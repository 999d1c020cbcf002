//! The answer to a world's keeper.

ghost use Rattle.std.specs.Prelude.{IfOk, IfErr, string_bytes};
ghost use Rattle.mud_compact.specs.Answer.{KeepsNoWorld};
ghost use Rattle.mud_renumber.specs.Answer.{IsCompactText};

use crate::renumbering::renumber;
use crate::telling::tell;
use mud_chron::{replay, write_history};
use mud_compact::{KeptFault, TextKind, read_kept};
use std::alloc::Global;

/// A history of the same world but for its numbers.
#[derive(Drop)]
pub struct Compacted {
    /// Its text, in format 2.
    pub text: String,
    /// A line for each object, by rising numbers: its old number and its new one.
    pub map: String,
    /// The number of torn bytes at the end of a journal; `None` for a history.
    pub torn: Option<usize>,
    /// How many numbers were given before.
    pub before: u32,
    /// How many numbers are given after.
    pub after: u32,
}

/// Returns the text of a history of the same world but for its numbers, with the old and the new number of each object.
/// The bytes are those of a history or a journal, as `kind` says. Other bytes, and illegal changes, have a fault; the
/// only other error is out of memory.
pub fn compact(alloc: Global, kind: TextKind, bytes: &[u8]) -> Result<Compacted, KeptFault>
    ensures ok { IfOk result (λ c. IsCompactText kind bytes.now (string_bytes c.text) (string_bytes c.map) c.torn
        c.before c.after) }
    ensures err { IfErr result (KeepsNoWorld kind bytes.now) }
{
    let kept = read_kept(alloc, kind, bytes)?;
    let world = replay(alloc, &kept.entries)?;
    let renumbered = renumber(alloc, &kept.entries)?;
    let map = tell(alloc, &renumbered.numbers, &world)?;
    let mut text = String::new(alloc);
    write_history(alloc, &renumbered.entries, &mut text)?;
    Ok(Compacted {
        text,
        map,
        torn: kept.torn,
        before: world.next_number(),
        after: renumbered.next,
    })
}
