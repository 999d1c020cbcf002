//! Finds shorter histories of the same world, repeatedly.

ghost use Rattle.std.specs.Prelude.{◌≡◌, true, IfOk, IfErr, IfSome};
ghost use Rattle.mud_chron.specs.Replay.{HasIllegal};
ghost use Rattle.mud_compact.specs.Shorter.{IsShortened};
ghost use Rattle.mud_compact.specs.inner.ShorterHistory.{LeadsTo, IsShorter};

use crate::comparing::same_worlds;
use crate::talk::{count_work, has_talk, without_talk};
use mud_chron::{ChronFault, Entry, replay};
use mud_compact_plan::build_again;
use mud_world::World;
use std::alloc::{AllocError, Global};

// Up to this many changes, any shorter history is taken. A longer history must save enough, so that the search ends
// soon.
const FEW: usize = 1_024;

// The part of a long history's changes that has to be saved, as a divisor.
const WORTH: usize = 64;

// Returns how many changes are too many to replace this many.
fn too_many(kept: usize) -> usize {
    if kept <= FEW {
        kept
    } else {
        kept - kept / WORTH
    }
}

// Returns whether these entries are legal and lead to this world.
fn leads_to(alloc: Global, entries: &[Entry], world: &World) -> Result<bool, AllocError>
    ensures { IfOk result (λ leads. leads ≡ true → LeadsTo entries.now world.now) }
{
    match replay(alloc, entries) {
        Ok(other) => Ok(same_worlds(&other, world)),
        Err(ChronFault::OutOfMemory) => Err(AllocError),
        Err(_) => Ok(false),
    }
}

// Returns the history that was found, if it is shorter than these entries, has no talk, and leads to this world.
fn shorter_of(
    alloc: Global,
    found: Vec<Entry>,
    entries: &[Entry],
    world: &World,
) -> Result<Option<Vec<Entry>>, AllocError>
    ensures { IfOk result (λ s. IfSome s (λ s. IsShorter entries.now world.now s.items)) }
{
    if found.len() >= entries.len() || has_talk(&found) {
        return Ok(None);
    }
    if !leads_to(alloc, &found, world)? {
        return Ok(None);
    }
    Ok(Some(found))
}

// Returns a history of this world that is shorter than these entries, if one is found.
fn shorter(
    alloc: Global,
    entries: &[Entry],
    world: &World,
) -> Result<Option<Vec<Entry>>, AllocError>
    ensures { IfOk result (λ found. IfSome found (λ s. IsShorter entries.now world.now s.items)) }
{
    let most = too_many(count_work(entries));
    match build_again(alloc, entries, world, most)? {
        Some(built) => shorter_of(alloc, built, entries, world),
        None => Ok(None),
    }
}

/// Returns a history of the same world that is no longer, and has no talk (docs/KEEPING.md, "Shorten"). It repeats as
/// long as the history gets shorter, so it is idempotent. `BadChange` names the first entry whose change is illegal
/// where it occurs. The only other error is out of memory.
pub fn shorten(alloc: Global, entries: &[Entry]) -> Result<Vec<Entry>, ChronFault>
    ensures ok { IfOk result (λ s. IsShortened entries.now s.items) }
    ensures err { IfErr result (HasIllegal entries.now) }
{
    let world = replay(alloc, entries)?;
    let Some(mut kept) = shorter(alloc, entries, &world)? else {
        return Ok(without_talk(alloc, entries)?);
    };
    for _ in 0..kept.len() {
        match shorter(alloc, &kept, &world)? {
            Some(found) => kept = found,
            None => break,
        }
    }
    Ok(kept)
}
