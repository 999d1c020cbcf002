//! A server without a journal: it serves one volume, and settles.

ghost use Rattle.std.specs.Prelude.{◌≡◌, ◌≤◌, ◌<◌, IfOk, IfErr, IfNone, IsTrue, OnOk, OnErr, is_some};
ghost use Rattle.mud_world.specs.declared.limits.TheConstants.{MOST_ENTRIES};
ghost use Rattle.mud_chron.specs.declared.limits.TheConstants.{MOST_DESKS};
ghost use Rattle.mud_server_end.specs.Server.{MayEnd, Settles, SettlesInPart, IsServerFault, IsInnerFault};
ghost use Rattle.mud_search.specs.declared.limits.TheConstants.{MOST_WORKERS};

use crate::accepting::serve_sessions;
use log::Log;
use mud_chron::Entry;
use mud_control::{Hosting, StopSign};
use mud_hall::{HallName, NewHall};
use mud_io::Sink;
use mud_journal::Gate;
use mud_listeners::{Arrivals, Doors, Listeners};
use mud_row::History;
use mud_server_end::{ServerFault, settle, write_entries, write_ports};
use mud_server_session::Quay;
use mud_server_state::{Commits, Limits, Lobby, ServerState, StateOf};
use mud_server_volume::{
    Comers, Course, Served, Turning, count_objects, is_well_ended, ports_of, resume_hall,
};
use std::alloc::Global;
use std::io::Write;
use std::marker::Brand;
use std::sync::{Arc, Wait};
use std::thread::Threads;
use std::time::Clock;

// Serves the connections of the listeners in one volume. Returns whether all sessions were served that should be.
fn serve_connections<
    J: HallName + Send + Sync,
    G: Commits<J> + Sync,
    R: Threads + Wait + Log + Clock + Sync,
>(
    rt: &R,
    alloc: Global,
    state: &StateOf<J, G>,
    listeners: Listeners,
    limits: Limits,
    stop: Option<&StopSign>,
) -> Result<bool, ServerFault>
    ensures total { IfOk result (λ b. IsTrue b → IfNone stop.entry (0 < limits.total)) }
    ensures fault { IfErr result IsInnerFault }
{
    let Some(arrivals) = Arrivals::new(listeners) else {
        return Ok(false);
    };
    let quay = Quay::new(alloc, 1, None, 0)?;
    let turning = Turning::never(alloc);
    let course = Course {
        quay: &quay,
        turning: &turning,
        limits,
        stop,
    };
    let comers = Comers {
        guests: Vec::new(alloc),
        arrivals: Some(arrivals),
    };
    let (_, served) = serve_sessions(rt, alloc, state, course, comers);
    Ok(is_well_ended(served == Served::All, stop, limits.total))
}

// Serves in the hall, which J names, and settles it. Returns the history, and whether all sessions were served that
// should be.
fn serve_all<J: HallName + Send + Sync, R: Threads + Wait + Log + Clock + Sync>(
    rt: &R,
    alloc: Global,
    hall: NewHall,
    doors: Doors,
    limits: Limits,
    hosting: Hosting<'_>,
) -> Result<(History, bool), ServerFault>
    requires cells { hall.cells ≡ J.cells }
    requires loaded { hall.loaded ≡ J.loaded }
    requires workers { limits.workers ≤ MOST_WORKERS }
    requires capacity { limits.capacity ≤ MOST_ENTRIES }
    ensures ends { IfOk result (λ s. MayEnd limits J.loaded s.0) }
    ensures total { IfOk result (λ s. IsTrue s.1 → IfNone hosting.entry.stop (0 < limits.total)) }
    ensures fault { IfErr result IsInnerFault }
{
    let (listeners, site) = doors.into_parts();
    let Hosting { stop, control } = hosting;
    let hall = hall.with_name::<J>();
    let lobby = Lobby::new(alloc, site)?;
    let control = Arc::try_clone(control)?;
    let state = ServerState::new(alloc, hall, limits, Gate::open(), lobby, control)?;
    state.begin(rt, 1);
    let is_served = serve_connections(rt, alloc, &state, listeners, limits, stop)?;
    let Ok((hall, desks, _, _)) = state.into_parts(alloc) else {
        return Err(ServerFault::OutOfMemory);
    };
    let history = settle(rt, alloc, limits, hall, desks)?;
    Ok((history, is_served))
}

// Serves in a hall that has no name yet, like `serve_all`: this call picks the name.
fn serve<R: Threads + Wait + Log + Clock + Sync>(
    rt: &R,
    alloc: Global,
    hall: NewHall,
    doors: Doors,
    limits: Limits,
    hosting: Hosting<'_>,
) -> Result<(History, bool), ServerFault>
    requires workers { limits.workers ≤ MOST_WORKERS }
    requires capacity { limits.capacity ≤ MOST_ENTRIES }
    ensures ends { IfOk result (λ s. MayEnd limits hall.loaded s.0) }
    ensures total { IfOk result (λ s. IsTrue s.1 → IfNone hosting.entry.stop (0 < limits.total)) }
    ensures fault { IfErr result IsInnerFault }
{
    serve_all::<Brand, R>(rt, alloc, hall, doors, limits, hosting)
}

/// Serves connections, each with a session of its own at a desk of one hall, which continues the loaded entries.
///
/// First it writes `listening on` and the port, and with a web listener `web on` and its port. A connection without a
/// place gets `(server full)`, or `(too many sessions)` if its address has reached its limit, and is closed; the web
/// socket of a browser is closed with 1013.
///
/// If `limits.total` is above 0, the listeners are closed once that many sessions have begun, or became a player's if
/// only those count. The server ends once all sessions have ended. A connection without a place does not count, and
/// neither does one whose session does not begin for lack of memory or threads. An HTTP request at the Telnet port does
/// not count, nor a browser that only gets the page.
///
/// The stop flag ends the server too: the listeners are closed, each session gets `(server stops)`, and its socket is
/// shut within five seconds. At its end the server settles the hall, checks the history like a load, and writes it in
/// format 2 (docs/HISTORY.md).
///
/// `Load` comes before anything is written. So does `Accept` if a listener has no port. Otherwise `Accept` means that a
/// listener can never give a connection again; then the running sessions end in their own way, and the history is
/// written before the error is returned. Any other fault of an `accept` is logged once, and skipped. `Settle` means
/// that the desks made no history that can be loaded again.
pub fn listen_on<R: Threads + Wait + Log + Clock + Sync + AllocGlobal, W: Write>(
    rt: &R,
    doors: Doors,
    limits: Limits,
    loaded: Vec<Entry>,
    hosting: Hosting<'_>,
    out: &mut Sink<W>,
) -> Result<(), ServerFault>
    requires sessions { limits.sessions ≤ MOST_DESKS }
    requires workers { limits.workers ≤ MOST_WORKERS }
    requires from { 1 ≤ limits.capacity }
    requires to { limits.capacity ≤ MOST_ENTRIES }
    ensures ok { OnOk result (Settles limits (is_some doors.web) loaded.items out.old.holds out.new.holds) }
    ensures front { OnErr result (SettlesInPart limits (is_some doors.web) loaded.items
        out.old.holds out.new.holds) }
    ensures fault { IfErr result (IsServerFault limits.capacity loaded.items out.old out.new) }
    ensures total { OnOk result (IfNone hosting.entry.stop (0 < limits.total)) }
{
    let alloc = rt.alloc();
    count_objects(&hosting.control.tally, &loaded);
    let hall = resume_hall(alloc, limits.capacity, loaded)?;
    let ports = ports_of(&doors)?;
    write_ports(alloc, out, ports)?;
    let (mut history, is_served) = serve(rt, alloc, hall, doors, limits, hosting)?;
    write_entries(alloc, out, &mut history)?;
    if is_served {
        Ok(())
    } else {
        Err(ServerFault::Accept)
    }
}
