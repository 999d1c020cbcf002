//! Ends the sessions of a volume, or lets them rest.

use mud_control::StopSign;
use mud_server_state::Shares;
use mud_socket::{Ending, now, rest};
use std::sync::Wait;
use std::time::{Clock, Duration};

// How long the server waits between two checks of its sessions.
const LOOK_MILLISECONDS: u64 = 50;

// The number of checks, five seconds in all, before it shuts the sockets of sessions that should end.
const LAST_LOOKS: u32 = 100;

// The wait between two checks whether the lobby is empty, and the number of checks, half a second in all, before its
// browsers are sent away.
const LOBBY_MILLISECONDS: u64 = 10;

const LOBBY_LOOKS: u32 = 50;

/// The sessions of a server that accepts no more connections.
#[derive(Clone, Copy, Debug, PartialEq, Eq)]
pub enum Remaining {
    /// None is left.
    Nobody,
    /// Some play.
    Some,
    /// Some should end for this reason.
    Ends(Ending),
}

/// Waits a moment, and looks which sessions are left. If the stop flag is set, they should end.
pub fn look_at_rest<S: Shares, R: Wait + Clock>(
    rt: &R,
    state: &S,
    stop: Option<&StopSign>,
) -> Remaining {
    state.control().tick(rt, now(rt));
    if let Some(sign) = stop
        && sign.is_set()
    {
        state.shared().stop_sessions();
        state.control().roster.wake_all(rt);
    }
    if let Some(ending) = state.ending() {
        return Remaining::Ends(ending);
    }
    if is_empty(rt, state) {
        return Remaining::Nobody;
    }
    rest(rt, Duration::from_millis(LOOK_MILLISECONDS));
    Remaining::Some
}

// Returns whether no session is left, and no browser in the lobby can begin one: a browser takes its place before it
// leaves the lobby.
fn is_empty<S: Shares, R: Wait>(rt: &R, state: &S) -> bool {
    state.shared().lobby.is_empty() && state.is_empty(rt)
}

/// Waits five seconds until no session is left, and then shuts the sockets of the others, which ends the reads and
/// writes of their threads.
pub fn shut_late<S: Shares, R: Wait>(rt: &R, state: &S, ending: Ending) {
    for _ in 0..LAST_LOOKS {
        if is_empty(rt, state) {
            return;
        }
        rest(rt, Duration::from_millis(LOOK_MILLISECONDS));
    }
    state.control().roster.shut_all(rt, ending);
}

/// Makes all sessions rest, once no browser in the lobby can begin one any more. A browser has half a second to finish
/// its request, while play goes on; then its socket is shut, and it has to ask again. Returns the time at which the
/// sessions began to rest.
pub fn begin_rest<S: Shares, R: Wait + Clock>(rt: &R, state: &S) -> Duration {
    for look in 0..u32::MAX {
        if state.shared().lobby.is_empty() {
            break;
        }
        if look >= LOBBY_LOOKS || state.shared().is_held() {
            state.shared().lobby.send_away(rt);
        }
        rest(rt, Duration::from_millis(LOBBY_MILLISECONDS));
    }
    let since = now(rt);
    state.shared().turn();
    state.control().roster.begin_rest(rt);
    since
}
