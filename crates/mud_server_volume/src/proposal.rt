//! A proposal for the beginning of the next volume.

ghost use Rattle.std.specs.Prelude.{◌≡◌, IfOk};

use mud_chron::Entry;
use std::alloc::{AllocError, Global};

/// A shorter history of the world after a prefix of a volume. It is not trusted: the turn compares the worlds.
#[derive(Drop)]
pub struct Proposal {
    /// The length of the prefix.
    pub up_to: usize,
    /// The shorter history.
    pub entries: Vec<Entry>,
}

/// Returns copies of the entries.
pub fn copies(alloc: Global, entries: &[Entry]) -> Result<Vec<Entry>, AllocError>
    ensures { IfOk result (λ v. v.items ≡ entries.now) }
{
    let mut copies = Vec::new(alloc);
    for entry in entries {
        copies.push(entry.copy(alloc)?)?;
    }
    Ok(copies)
}
