//! The hall with which a server begins, and its ports.

ghost use Rattle.std.specs.Prelude.{◌≡◌, ◌≤◌, IfOk, IfErr, is_some};
ghost use Rattle.mud_io.specs.Streams.{Writer};
ghost use Rattle.mud_world.specs.declared.limits.TheConstants.{MOST_ENTRIES};
ghost use Rattle.mud_server_end.specs.Server.{IsServerFault};

use mud_chron::Entry;
use mud_hall::{LoadFault, NewHall};
use mud_listeners::{Doors, Ports};
use mud_server_end::ServerFault;
use std::alloc::Global;

/// Returns the hall that continues the loaded entries.
pub fn resume_hall(alloc: Global, capacity: u32, loaded: Vec<Entry>) -> Result<NewHall, ServerFault>
    requires from { 1 ≤ capacity }
    requires to { capacity ≤ MOST_ENTRIES }
    ensures loaded { IfOk result (λ hall. hall.loaded ≡ loaded.items) }
    ensures fault { IfErr result (λ f. (writer : Writer) → IsServerFault capacity loaded.items writer writer f) }
{
    match NewHall::resume(alloc, capacity, loaded) {
        Ok(hall) => Ok(hall),
        Err(LoadFault::OutOfMemory) => Err(ServerFault::OutOfMemory),
        Err(fault) => Err(ServerFault::Load(fault)),
    }
}

/// Returns the ports of the listeners. A listener without a port is closed, and accepts nobody: then it returns
/// `Accept`.
pub fn ports_of(doors: &Doors) -> Result<Ports, ServerFault>
    ensures named { IfOk result (λ ports. is_some ports.web ≡ is_some doors.now.web) }
    ensures fault { IfErr result (λ f. f ≡ ServerFault.Accept) }
{
    match doors.ports() {
        Some(ports) => Ok(ports),
        None => Err(ServerFault::Accept),
    }
}

/// Returns an error if a server could not continue these entries. It serves nothing.
pub fn try_entries(alloc: Global, capacity: u32, loaded: Vec<Entry>) -> Result<(), ServerFault>
    requires from { 1 ≤ capacity }
    requires to { capacity ≤ MOST_ENTRIES }
    ensures fault { IfErr result (λ f. (writer : Writer) → IsServerFault capacity loaded.items writer writer f) }
{
    resume_hall(alloc, capacity, loaded)?;
    Ok(())
}
