//! Seats the sessions that rested.

use log::Log;
use mud_server_session::{Converses, Guest};
use mud_server_threads::{Seated, Server};
use std::alloc::AllocFailed;
use std::sync::Wait;
use std::thread::Threads;
use std::time::Clock;

// Seats the sessions that rested. One that can't sit again ends.
fn seat_each<'s, E, S, C, R>(server: &Server<'s, E, S, C, R>, guests: Vec<Guest>) -> Vec<Seated<C>>
where
    S: Converses<C> + Sync + 's,
    C: Drop + Send + Sync + 's,
    R: Threads + Wait + Log + Clock + Sync + 's,
{
    let mut all = Vec::new(server.alloc);
    for guest in guests {
        if let Some(seated) = server.seat(guest)
            && let Err(AllocFailed { value }) = all.push(seated)
        {
            server.unseat(value);
        }
    }
    all
}

/// Seats the sessions that rested, and only then starts their threads: so nobody misses what others say.
pub(crate) fn seat_all<'s, E, S, C, R>(server: &Server<'s, E, S, C, R>, guests: Vec<Guest>)
where
    S: Converses<C> + Sync + 's,
    C: Drop + Send + Sync + 's,
    R: Threads + Wait + Log + Clock + Sync + 's,
{
    let mut count = 0u32;
    for seated in seat_each(server, guests) {
        server.go_on(seated);
        count = count.saturating_add(1);
    }
    let (control, begun) = (server.state.control(), server.state.loaded_count());
    server
        .quay
        .tell_turn(server.rt, &control.tally, begun, count);
}
