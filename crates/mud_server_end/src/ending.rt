//! The final history of a server.

ghost use Rattle.std.specs.Prelude.{◌≡◌, ◌≤◌, ◌+◌, false, length, IfOk, IfErr, OnOk};
ghost use Rattle.mud_world.specs.declared.limits.TheConstants.{MOST_ENTRIES};
ghost use Rattle.mud_hall.specs.Settlement.{IsSettled};
ghost use Rattle.mud_hall.specs.Steps.{AreLoadable};
ghost use Rattle.mud_journal.specs.Disk.{Holds};
ghost use Rattle.mud_server_end.specs.Server.{MayEnd, IsInnerFault};

use crate::fault::ServerFault;
use crate::group::GroupCommit;
use mud_chron::ChronFault;
use mud_hall::{CloseFault, Desk, Hall, HallName};
use mud_journal::{Disk, Journal, JournalFault, Nameless};
use mud_row::History;
use mud_server_state::Limits;
use std::alloc::Global;
use std::sync::Wait;

/// Settles the hall of these desks. Returns its history, which can be loaded again. The hall and its desks are dropped
/// before memory is allocated.
pub fn settle<J: HallName, R: Wait>(
    rt: &R,
    alloc: Global,
    limits: Limits,
    hall: Hall<J>,
    desks: Vec<Desk<J>>,
) -> Result<History, ServerFault>
    requires few { length desks.items ≤ limits.sessions }
    requires capacity { limits.capacity ≤ MOST_ENTRIES }
    ensures ends { IfOk result (λ history. MayEnd limits J.loaded history) }
    ensures settled { IfOk result (λ history. IsSettled J.loaded desks.items history) }
    ensures fault { IfErr result IsInnerFault }
{
    match hall.close(rt, desks) {
        Ok(settled) => {
            let mut history = settled.history;
            try_history(alloc, limits.capacity, &mut history)?;
            Ok(history)
        }
        Err((_, _, fault)) => Err(of_close(fault)),
    }
}

/// Writes the remaining entries to the journal that the sessions wrote, and settles the hall. The journal then has its
/// whole history, and can take further entries. If it has failed before, its fault is returned.
pub fn settle_group<J: HallName, D: Disk + Drop, R: Wait>(
    rt: &R,
    alloc: Global,
    limits: Limits,
    hall: Hall<J>,
    desks: Vec<Desk<J>>,
    group: GroupCommit<J, D>,
) -> Result<(History, Journal<Nameless, D>), ServerFault>
    requires few { length desks.items ≤ limits.sessions }
    requires capacity { limits.capacity ≤ MOST_ENTRIES }
    ensures ends { IfOk result (λ s. MayEnd limits J.loaded s.0) }
    ensures journaled { IfOk result (λ s. Holds (D.kept s.1.disk) s.0) }
    ensures count { IfOk result (λ s. s.1.count ≡ length s.0) }
    ensures going { IfOk result (λ s. s.1.has_failed ≡ false) }
    ensures fault { IfErr result IsInnerFault }
{
    let mut desks = desks;
    let mut writer = group.into_writer()?;
    writer.finish(&hall, &mut desks)?;
    let history = settle(rt, alloc, limits, hall, desks)?;
    if history.len() as usize != writer.len() {
        return Err(ServerFault::Journal(JournalFault::Mismatch));
    }
    Ok((history, writer.into_journal()))
}

// Returns the reason why the desks made no history.
fn of_close(fault: CloseFault) -> ServerFault
    ensures { IsInnerFault result }
{
    match fault {
        CloseFault::OutOfMemory => ServerFault::OutOfMemory,
        fault => ServerFault::Settle(fault),
    }
}

// Checks that a hall of this capacity can begin with the history, like a load; the history is unchanged. A settlement
// does not promise that each entry is legal where it occurs.
fn try_history(alloc: Global, capacity: u32, history: &mut History) -> Result<(), ServerFault>
    requires { capacity ≤ MOST_ENTRIES }
    ensures same { history.new ≡ history.old }
    ensures loadable { OnOk result (AreLoadable capacity history.old) }
    ensures fault { IfErr result IsInnerFault }
{
    if history.len() > capacity {
        return Err(at_odds(capacity as usize + 1));
    }
    match history.replay(alloc) {
        Ok(_) => Ok(()),
        Err(ChronFault::BadChange(version)) => Err(at_odds(version)),
        Err(_) => Err(ServerFault::OutOfMemory),
    }
}

// Returns the fault that the entry with this version can't occur there.
fn at_odds(version: usize) -> ServerFault
    requires { version ≤ MOST_ENTRIES + 1 }
    ensures { IsInnerFault result }
{
    ServerFault::Settle(CloseFault::Mismatch(version as u32))
}
