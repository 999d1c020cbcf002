//! Counts the objects of the world, for the host.

use mud_chron::Entry;
use mud_control::Tally;
use mud_server_state::Reads;
use mud_world::{Deed, Target};
use std::alloc::Global;

// The greatest number of entries that are read at once.
const MOST_READ: u32 = 1_024;

// Returns the number of objects that a deed adds (docs/WORLD.md, "Changes"). Numbers of recycled objects stay in use.
fn new_objects(deed: &Deed) -> u64 {
    match deed {
        Deed::Player(_) | Deed::Make(_) => 1,
        Deed::Dig(target, doors) => {
            let exits = match doors {
                Some(doors) if doors.back.is_some() => 2,
                Some(_) => 1,
                None => 0,
            };
            match target {
                Target::New(_) => exits + 1,
                Target::Old(_) => exits,
            }
        }
        _ => 0,
    }
}

/// Counts the new objects of these entries.
pub fn count_objects(tally: &Tally, entries: &[Entry]) {
    for entry in entries {
        tally.count_objects(new_objects(&entry.change().deed));
    }
}

/// Counts the objects of entries that were not counted yet. If an allocation fails, some are not counted.
pub fn count_new<S: Reads<K>, K>(alloc: Global, state: &S, reader: &mut K) {
    if let Some(entries) = state.read(alloc, reader, MOST_READ) {
        count_objects(&state.control().tally, &entries);
    }
}
