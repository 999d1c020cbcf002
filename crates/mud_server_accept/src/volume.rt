//! Serves one volume with its journal: a hall, and the sessions that come from the volume before it.

ghost use Rattle.std.specs.Prelude.{◌≡◌, ◌≤◌, length, IfOk, IfErr, false};
ghost use Rattle.mud_world.specs.declared.limits.TheConstants.{MOST_ENTRIES};
ghost use Rattle.mud_search.specs.declared.limits.TheConstants.{MOST_WORKERS};
ghost use Rattle.mud_journal.specs.Disk.{Holds};
ghost use Rattle.mud_server_end.specs.Server.{MayEnd, IsInnerFault};

use crate::accepting::serve_sessions;
use log::Log;
use mud_hall::HallName;
use mud_journal::Disk;
use mud_server_end::{GroupCommit, JournalWriter, ServerFault};
use mud_server_session::Quay;
use mud_server_volume::{Beginning, Company, Course, Ended, Left, Terms, settle_volume, state_of};
use std::alloc::Global;
use std::marker::Brand;
use std::sync::Wait;
use std::thread::Threads;
use std::time::Clock;

// Serves one volume in the hall, which J names, and settles it. The journal has the initial entries of the hall.
fn serve_one<
    J: HallName + Send + Sync,
    D: Disk + Drop + Send,
    R: Threads + Wait + Log + Clock + Sync,
>(
    rt: &R,
    alloc: Global,
    company: Company,
    beginning: Beginning<D>,
    terms: Terms<'_>,
) -> Result<Ended<D>, ServerFault>
    requires cells { beginning.hall.cells ≡ J.cells }
    requires loaded { beginning.hall.loaded ≡ J.loaded }
    requires workers { terms.limits.workers ≤ MOST_WORKERS }
    requires capacity { terms.limits.capacity ≤ MOST_ENTRIES }
    requires holds { Holds (D.kept beginning.journal.disk) J.loaded }
    requires count { beginning.journal.count ≡ length J.loaded }
    requires going { beginning.journal.has_failed ≡ false }
    ensures ends { IfOk result (λ e. MayEnd terms.entry.limits J.loaded e.history) }
    ensures journaled { IfOk result (λ e. Holds (D.kept e.journal.disk) e.history) }
    ensures count { IfOk result (λ e. e.journal.count ≡ length e.history) }
    ensures going { IfOk result (λ e. e.journal.has_failed ≡ false) }
    ensures fault { IfErr result IsInnerFault }
{
    let limits = terms.limits;
    let Beginning {
        hall,
        journal,
        volume,
        came,
        turning,
    } = beginning;
    let hall = hall.with_name::<J>();
    let reader = hall.reader(rt)?;
    let writer = JournalWriter::new(alloc, journal, reader);
    let gate = GroupCommit::new(writer);
    let (state, comers) = state_of(rt, alloc, hall, gate, company, terms, volume)?;
    let quay = Quay::new(alloc, volume, came, limits.sessions)?;
    let course = Course {
        quay: &quay,
        turning: &turning,
        limits,
        stop: terms.stop,
    };
    let (arrivals, served) = serve_sessions(rt, alloc, &state, course, comers);
    let left = Left {
        arrivals,
        served,
        guests: quay.into_guests(),
        proposal: turning.into_proposal(),
    };
    settle_volume(rt, alloc, limits, state, left)
}

/// Serves one volume in a hall that has no name yet: this call picks the name. So a loop may call it, and each volume
/// is a hall of its own.
pub fn serve_volume<D: Disk + Drop + Send, R: Threads + Wait + Log + Clock + Sync>(
    rt: &R,
    alloc: Global,
    company: Company,
    beginning: Beginning<D>,
    terms: Terms<'_>,
) -> Result<Ended<D>, ServerFault>
    requires workers { terms.limits.workers ≤ MOST_WORKERS }
    requires capacity { terms.limits.capacity ≤ MOST_ENTRIES }
    requires holds { Holds (D.kept beginning.journal.disk) beginning.hall.loaded }
    requires count { beginning.journal.count ≡ length beginning.hall.loaded }
    requires going { beginning.journal.has_failed ≡ false }
    ensures ends { IfOk result (λ e. MayEnd terms.entry.limits beginning.hall.loaded e.history) }
    ensures journaled { IfOk result (λ e. Holds (D.kept e.journal.disk) e.history) }
    ensures count { IfOk result (λ e. e.journal.count ≡ length e.history) }
    ensures going { IfOk result (λ e. e.journal.has_failed ≡ false) }
    ensures fault { IfErr result IsInnerFault }
{
    serve_one::<Brand, D, R>(rt, alloc, company, beginning, terms)
}
