//! The search for a shorter history, beside play.

use log::Log;
use mud_server_session::Converses;
use mud_server_state::Reads;
use mud_server_threads::Server;
use mud_server_volume::Turning;
use mud_server_volume::marks::Step;
use std::sync::Wait;
use std::thread::Threads;
use std::time::Clock;

/// Starts the search if it is time for it. Returns whether the server should turn now.
pub(crate) fn is_due<'s, E, S, C, K, R>(
    server: &Server<'s, E, S, C, R>,
    turning: &'s Turning,
) -> bool
where
    S: Converses<C> + Reads<K> + Sync + 's,
    C: Drop + Send + Sync + 's,
    K: Drop + Send + 's,
    R: Threads + Wait + Log + Clock + Sync + 's,
{
    match turning.next_step(server.rt, server.state) {
        Step::Turn => true,
        Step::Search => {
            begin_search::<E, S, C, K, R>(server, turning);
            false
        }
        Step::Wait | Step::Drop => false,
    }
}

// Starts the thread that searches for a proposal.
fn begin_search<'s, E, S, C, K, R>(server: &Server<'s, E, S, C, R>, turning: &'s Turning)
where
    S: Converses<C> + Reads<K> + Sync + 's,
    C: Drop + Send + Sync + 's,
    K: Drop + Send + 's,
    R: Threads + Wait + Log + Clock + Sync + 's,
{
    let other = server.again();
    let searching = server
        .scope
        .spawn(move || search::<E, S, C, K, R>(&other, turning));
    if searching.is_err() {
        turning.give_up(server.rt, server.state);
    }
}

// Runs the search.
fn search<'s, E, S, C, K, R>(server: &Server<'s, E, S, C, R>, turning: &Turning)
where
    S: Converses<C> + Reads<K> + Sync + 's,
    C: Drop + Send + Sync + 's,
    K: Drop + Send + 's,
    R: Threads + Wait + Log + Clock + Sync + 's,
{
    turning.search::<S, K, R>(server.rt, server.alloc, server.state);
}
