//! Searches a history for the first version with a given world.

ghost use Rattle.std.specs.Prelude.{◌≡◌, ◌+◌, ℕ, length, IfOk, IfErr};
ghost use Rattle.mud_world.specs.State.{State};
ghost use Rattle.mud_chron.specs.Replay.{changes_of, world_at, AreLegal, HasIllegal};
ghost use Rattle.mud_chain.specs.inner.Searched.{IsSearched};

use crate::sameness::is_same;
use mud_chron::{ChronFault, Entry};
use mud_world::World;
use std::alloc::{AllocError, Global};

// Returns the version found so far, or this one if it has the world `end`.
fn look_at(
    alloc: Global,
    found: Option<usize>,
    version: usize,
    most: usize,
    world: &World,
    end: &World,
) -> Result<Option<usize>, AllocError>
    ensures { (worlds : ℕ → State) → worlds version ≡ world.now → IsSearched worlds end.now most version found
        → IfOk result (IsSearched worlds end.now most (version + 1)) }
{
    match found {
        Some(_) => return Ok(found),
        None => {}
    }
    if version > most {
        return Ok(None);
    }
    if is_same(alloc, world, end)? {
        Ok(Some(version))
    } else {
        Ok(None)
    }
}

// Returns the least version, up to `most`, at which these entries have the world `end`, if there is one. `BadChange`
// names the first entry whose change is illegal where it occurs. The only other error is out of memory.
pub(crate) fn version_in(
    alloc: Global,
    entries: &[Entry],
    most: usize,
    end: &World,
) -> Result<Option<usize>, ChronFault>
    ensures legal { IfOk result (λ found. AreLegal (changes_of entries.now)) }
    ensures found { IfOk result (λ found. IsSearched (world_at entries.now) end.now most (length entries.now + 1)
        found) }
    ensures err { IfErr result (HasIllegal entries.now) }
{
    let mut world = World::opening(alloc)?;
    let mut found = None;
    for (i, entry) in entries.iter().enumerate() {
        found = look_at(alloc, found, i, most, &world, end)?;
        let change = entry.change();
        match world.legal(change) {
            Ok(()) => {}
            Err(_) => return Err(ChronFault::BadChange(i + 1)),
        }
        world.apply(change)?;
    }
    Ok(look_at(alloc, found, entries.len(), most, &world, end)?)
}
