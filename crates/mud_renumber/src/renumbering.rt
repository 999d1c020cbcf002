//! Finds a history of the same world but for its numbers.

ghost use Rattle.std.specs.Prelude.{◌≡◌, IfOk, IfErr, IfSome};
ghost use Rattle.mud_world.specs.History.{world_of};
ghost use Rattle.mud_chron.specs.Replay.{changes_of, HasIllegal};
ghost use Rattle.mud_renumber.specs.Numbers.{number_at, number_in};
ghost use Rattle.mud_renumber.specs.Renumbered.{LeadsToRenumbered};
ghost use Rattle.mud_renumber.specs.inner.Checked.{IsFound};

use crate::comparing::is_renumbered;
use crate::needs::Needs;
use crate::numbers::Numbers;
use crate::spelling::{Draft, spell};
use mud_chron::{ChronFault, Entry, replay};
use mud_compact::shorten;
use mud_world::World;
use std::alloc::{AllocError, Global};

/// A history of the same world but for its numbers.
#[derive(Drop)]
pub struct Renumbered {
    /// Its entries.
    pub entries: Vec<Entry>,
    /// The new numbers.
    pub numbers: Numbers,
    /// The next number of its world.
    pub next: u32,
}

// Returns the draft if it leads to the world but for its numbers, with fewer numbers and at most this many entries.
fn checked(
    alloc: Global,
    draft: Draft,
    world: &World,
    most: usize,
) -> Result<Option<Renumbered>, AllocError>
    ensures { IfOk result (λ found. IfSome found (λ r. IsFound (number_in r.numbers) world.now r.next r.entries.items
        most)) }
{
    let Draft {
        entries,
        numbers,
        backs,
    } = draft;
    if entries.len() > most {
        return Ok(None);
    }
    let other = match replay(alloc, &entries) {
        Ok(other) => other,
        Err(ChronFault::OutOfMemory) => return Err(AllocError),
        Err(_) => return Ok(None),
    };
    if other.next_number() >= world.next_number() {
        return Ok(None);
    }
    if !is_renumbered(&numbers, &backs, world, &other) {
        return Ok(None);
    }
    Ok(Some(Renumbered {
        entries,
        numbers: Numbers::Moved(numbers),
        next: other.next_number(),
    }))
}

// Returns a history that leads to the world but for its numbers, with fewer numbers and at most this many entries, if
// one is found. It has the changes of these entries that it needs; a careful one needs more.
fn found(
    alloc: Global,
    entries: &[Entry],
    world: &World,
    most: usize,
    is_careful: bool,
) -> Result<Option<Renumbered>, AllocError>
    ensures { IfOk result (λ found. IfSome found (λ r. IsFound (number_in r.numbers) world.now r.next r.entries.items
        most)) }
{
    let Some(needs) = Needs::of(alloc, entries, world, is_careful)? else {
        return Ok(None);
    };
    match spell(alloc, entries, &needs, world)? {
        Some(draft) => checked(alloc, draft, world, most),
        None => Ok(None),
    }
}

/// Returns a history of the same world but for its numbers, which rise in the old order, with no more numbers and no
/// more entries (docs/KEEPING.md, "Compact"). If none with fewer numbers is found, all numbers stay. `BadChange` names
/// the first entry whose change is illegal where it occurs. The only other error is out of memory.
pub fn renumber(alloc: Global, entries: &[Entry]) -> Result<Renumbered, ChronFault>
    ensures ok { IfOk result (λ r. LeadsToRenumbered (number_in r.numbers) entries.now r.entries.items) }
    ensures next { IfOk result (λ r. r.next ≡ (world_of (changes_of r.entries.items)).next) }
    ensures err { IfErr result (HasIllegal entries.now) }
{
    let world = replay(alloc, entries)?;
    let shorter = shorten(alloc, entries)?;
    if let Some(renumbered) = found(alloc, &shorter, &world, entries.len(), false)? {
        return Ok(renumbered);
    }
    if let Some(renumbered) = found(alloc, &shorter, &world, entries.len(), true)? {
        return Ok(renumbered);
    }
    Ok(Renumbered {
        entries: shorter,
        numbers: Numbers::Same,
        next: world.next_number(),
    })
}
