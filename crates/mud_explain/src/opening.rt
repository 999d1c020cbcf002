//! Opens the hall in which steps are played.

ghost use Rattle.std.specs.Prelude.{◌≤◌};
ghost use Rattle.mud_world.specs.declared.limits.TheConstants.{MOST_ENTRIES};

use mud_chron::Entry;
use mud_cli::Opening;
use mud_hall::NewHall;
use mud_history_file::{Unloaded, load};
use std::alloc::Global;
use std::rt::Files;

// Returns a hall that continues these entries.
fn resume_hall(alloc: Global, capacity: u32, entries: Vec<Entry>) -> Result<NewHall, Unloaded>
    requires from { 1 ≤ capacity }
    requires to { capacity ≤ MOST_ENTRIES }
{
    match NewHall::resume(alloc, capacity, entries) {
        Ok(hall) => Ok(hall),
        Err(fault) => Err(Unloaded::of_entries(&fault)),
    }
}

/// Returns the requested hall. It reads the file first, then its text, and then continues it.
pub(crate) fn open_hall<R: Files + AllocGlobal>(
    rt: &R,
    opening: Opening<'_>,
) -> Result<NewHall, Unloaded>
    requires from { 1 ≤ opening.capacity }
    requires to { opening.capacity ≤ MOST_ENTRIES }
{
    match opening.load {
        Some(name) => resume_hall(rt.alloc(), opening.capacity, load(rt, name)?),
        None => match NewHall::open(rt.alloc(), opening.capacity) {
            Ok(hall) => Ok(hall),
            Err(_) => Err(Unloaded::OutOfMemory),
        },
    }
}
