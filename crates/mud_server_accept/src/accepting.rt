//! The accepting thread of a volume.

ghost use Rattle.std.specs.Prelude.{◌≡◌, ◌<◌, ◌⊎◌, IfNone, IfSome, IsSome, IsTrue};

use crate::searching::is_due;
use crate::seating::seat_all;
use log::Log;
use mud_control::StopSign;
use mud_hall::{HallName, Reader};
use mud_listeners::{Arrival, Arrivals};
use mud_server_connection::Connection;
use mud_server_session::Converses;
use mud_server_state::{Commits, Reads, Shares, StateOf};
use mud_server_threads::{Remaining, Server, begin_rest, look_at_rest, shut_late};
use mud_server_volume::{Comers, Course, Served, count_new};
use mud_socket::now;
use std::alloc::Global;
use std::marker::PhantomData;
use std::sync::Wait;
use std::thread;
use std::thread::Threads;
use std::time::Clock;

// Returns whether there is a stop flag, and it is set.
fn is_set(stop: Option<&StopSign>) -> bool
    ensures { IsTrue result → IsSome stop.entry }
{
    match stop {
        Some(sign) => sign.is_set(),
        None => false,
    }
}

// Returns whether no further session may begin: the stop flag is set, or the total is reached.
fn is_done(stop: Option<&StopSign>, total: u32, count: u32) -> bool
    ensures { IsTrue result → IfNone stop.entry (0 < total) }
{
    match stop {
        Some(sign) if sign.is_set() => true,
        _ => 0 < total && total <= count,
    }
}

// Accepts connections and begins their sessions until no further session may begin, or the server turns. A connection
// that is accepted after the stop flag was set gets no session. If the listeners were closed in an earlier volume, it
// returns the reason for that.
fn accept_all<'s, E, S, C, K, R>(
    server: &Server<'s, E, S, C, R>,
    arrivals: &mut Option<Arrivals>,
    course: Course<'s>,
) -> Served
where
    S: Converses<C> + Reads<K> + Sync + 's,
    C: Drop + Send + Sync + 's,
    K: Drop + Send + 's,
    R: Threads + Wait + Log + Clock + Sync + 's,
    ensures { result ≡ Served.All → IfNone course.entry.stop (0 < course.entry.limits.total) }
{
    let mut reader = server.state.reader(server.rt);
    for _ in server.rt.forever() {
        let control = server.state.control();
        control.tick(server.rt, now(server.rt));
        if let Some(reader) = &mut reader {
            count_new(server.alloc, server.state, reader);
        }
        if let Some(served) = accept_one::<E, S, C, K, R>(server, arrivals, course) {
            return served;
        }
    }
    unreachable!()
}

// Accepts a connection, if there is one, and begins its session. Returns the reason if no further one is accepted.
fn accept_one<'s, E, S, C, K, R>(
    server: &Server<'s, E, S, C, R>,
    arrivals: &mut Option<Arrivals>,
    course: Course<'s>,
) -> Option<Served>
where
    S: Converses<C> + Reads<K> + Sync + 's,
    C: Drop + Send + Sync + 's,
    K: Drop + Send + 's,
    R: Threads + Wait + Log + Clock + Sync + 's,
    ensures { IfSome result
        (λ served. served ≡ Served.All → IfNone course.entry.stop (0 < course.entry.limits.total)) }
{
    let (total, stop) = (course.limits.total, course.stop);
    if is_done(stop, total, server.counted_sessions()) {
        return Some(Served::All);
    }
    let Some(arrivals) = arrivals else {
        return Some(Served::Failed);
    };
    if is_due::<E, S, C, K, R>(server, course.turning) {
        return Some(Served::Due);
    }
    match arrivals.next(server.rt) {
        Arrival::Never => return Some(Served::Failed),
        _ if server.state.has_failed() => return Some(Served::Failed),
        Arrival::Telnet(stream, peer) if !is_set(stop) => server.welcome(stream, peer),
        Arrival::Web(stream, peer) if !is_set(stop) => server.receive(stream, peer),
        _ => {}
    }
    None
}

// Waits until no session is left, or it is time to turn: then it returns `Due`, and otherwise the reason why no further
// connection was accepted. Once the server is shutting down or the journal has failed, the sessions should end too; a
// socket that is not shut within five seconds is shut then.
fn see_out<'s, E, S, C, K, R>(
    server: &Server<'s, E, S, C, R>,
    course: Course<'s>,
    served: Served,
) -> Served
where
    S: Converses<C> + Reads<K> + Sync + 's,
    C: Drop + Send + Sync + 's,
    K: Drop + Send + 's,
    R: Threads + Wait + Log + Clock + Sync + 's,
    ensures { (result ≡ Served.Due) ⊎ (result ≡ served) }
{
    if course.stop.is_none() && server.state.lacks_journal() {
        return served;
    }
    for _ in server.rt.forever() {
        match look_at_rest(server.rt, server.state, course.stop) {
            Remaining::Some if is_due::<E, S, C, K, R>(server, course.turning) =>
                return Served::Due,
            Remaining::Some => {}
            Remaining::Nobody => return served,
            Remaining::Ends(ending) => {
                shut_late(server.rt, server.state, ending);
                return served;
            }
        }
    }
    unreachable!()
}

// Seats the sessions that rested, accepts connections as long as it may, and waits for the sessions to rest or to end.
// The caller's scope ends once they do.
fn take_and_see_out<'s, E, S, C, K, R>(
    server: &Server<'s, E, S, C, R>,
    course: Course<'s>,
    comers: Comers,
) -> (Option<Arrivals>, Served)
where
    S: Converses<C> + Reads<K> + Sync + 's,
    C: Drop + Send + Sync + 's,
    K: Drop + Send + 's,
    R: Threads + Wait + Log + Clock + Sync + 's,
    ensures { result.1 ≡ Served.All → IfNone course.entry.stop (0 < course.entry.limits.total) }
{
    let Comers { guests, arrivals } = comers;
    let mut arrivals = arrivals;
    course.turning.begin(server.rt, server.state);
    seat_all(server, guests);
    let mut served = accept_all::<E, S, C, K, R>(server, &mut arrivals, course);
    if served != Served::Due {
        arrivals = None;
        server.state.shared().lobby.close(server.rt);
        served = see_out::<E, S, C, K, R>(server, course, served);
    }
    if served == Served::Due {
        served = Served::Turns(begin_rest(server.rt, server.state));
    }
    (arrivals, served)
}

/// Serves the sessions that rested, and the connections of the listeners, until no further session may begin, or the
/// server turns, and waits until all sessions have ended, or rest. Returns the listeners, unless they were closed, and
/// the reason why no further connection was accepted.
pub(crate) fn serve_sessions<
    J: HallName + Send + Sync,
    G: Commits<J> + Sync,
    R: Threads + Wait + Log + Clock + Sync,
>(
    rt: &R,
    alloc: Global,
    state: &StateOf<J, G>,
    course: Course<'_>,
    comers: Comers,
) -> (Option<Arrivals>, Served) {
    thread::scope(thread::scope_env(), rt, move |scope| {
        let server = Server {
            scope,
            rt,
            alloc,
            state,
            quay: course.quay,
            of: PhantomData::<Connection<J>>,
        };
        take_and_see_out::<_, _, _, Reader<J>, _>(&server, course, comers)
    })
}
