//! Replays a history.

ghost use Rattle.std.specs.Prelude.{◌≡◌, IfOk, IfErr};
ghost use Rattle.mud_world.specs.History.{world_of};
ghost use Rattle.mud_chron.specs.Replay.{changes_of, AreLegal, HasIllegal};

use crate::entry::Entry;
use crate::fault::ChronFault;
use mud_world::World;
use std::alloc::Global;

/// Applies the changes of the entries to the initial world, in order. `BadChange` names the first entry whose change is
/// illegal where it occurs (docs/HISTORY.md, "Replay"). The only other error is out of memory.
pub fn replay(alloc: Global, entries: &[Entry]) -> Result<World, ChronFault>
    ensures legal { IfOk result (λ w. AreLegal (changes_of entries.now)) }
    ensures world { IfOk result (λ w. w ≡ world_of (changes_of entries.now)) }
    ensures err { IfErr result (HasIllegal entries.now) }
{
    let mut world = World::opening(alloc)?;
    for (i, entry) in entries.iter().enumerate() {
        let change = entry.change();
        match world.legal(change) {
            Ok(()) => {}
            Err(_) => return Err(ChronFault::BadChange(i + 1)),
        }
        world.apply(change)?;
    }
    Ok(world)
}
