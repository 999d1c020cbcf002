//! Worlds and entries for tests, read from history texts.

use mud_chron::{ChronFault, Entry, read_history, replay};
use mud_world::World;
use std::alloc::Global;

/// Returns the world of a history. Each of its changes must be legal.
pub(crate) fn world(alloc: Global, history: &str) -> Result<World, ChronFault> {
    replay(alloc, &read_history(alloc, history.as_bytes())?)
}

/// Returns the entry of a change.
pub(crate) fn entry(alloc: Global, change: &str) -> Result<Entry, ChronFault> {
    let lines = ["mud history 2\n1 1 ", change, "\nend 1\n"];
    let text = lines.as_slice().join(alloc, "")?;
    match read_history(alloc, text.as_bytes())?.pop() {
        Some(entry) => Ok(entry),
        None => Err(ChronFault::NoEnd),
    }
}
