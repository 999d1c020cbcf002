//! Runs the notice thread of a session.

use crate::ending::{is_ending, tell_ending};
use crossbeam_utils::sync::Parker;
use mud_server_session::{CLOSE_MILLISECONDS, CLOSE_TRIES, Converses, ending_of};
use mud_socket::{Ending, Parting, now, rest};
use std::sync::Wait;
use std::time::{Clock, Duration};

// The longest wait of a notice thread while its player is typing.
const LONGEST_MILLISECONDS: u64 = 8;

/// The parker on which a notice thread sleeps until its waker wakes it, and the place and the visit of its session.
///
/// A proof of its own shows the prover that this struct may cross threads. For the bare `Parker`, whose type names an
/// allocator, the prover's search does not find that.
#[derive(Drop)]
pub(crate) struct Sleeper {
    pub(crate) parker: Parker,
    pub(crate) at: usize,
    pub(crate) visit: u64,
}

// Waits while the player is typing, or until the session should end. The replies carry the changes of others meanwhile,
// which saves texts. The first wait is the remainder of the typing time. Each further one is twice as long, because the
// next change wakes this thread once the player is not typing any more.
fn leave_to_replies<S: Converses<C>, C, R: Wait + Clock>(
    rt: &R,
    state: &S,
    connection: &C,
    sleeper: &Sleeper,
) {
    let (roster, at, visit) = (&state.control().roster, sleeper.at, sleeper.visit);
    let longest = Duration::from_millis(LONGEST_MILLISECONDS);
    let mut wait = Duration::ZERO;
    for _ in rt.forever() {
        let left = state
            .shared()
            .typing_time()
            .saturating_sub(roster.silence(at, now(rt)));
        if left.is_zero() || is_ending(state, connection) {
            break;
        }
        roster.leave_to_replies(at, visit, true);
        wait = left.max(wait.saturating_mul(2)).min(longest);
        sleeper.parker.park_timeout(rt, wait);
    }
    roster.leave_to_replies(at, visit, false);
}

// Gives the other side of a web socket four seconds to close it, after the host ended the session.
fn see_off<S: Converses<C>, C, R: Wait>(rt: &R, state: &S, connection: &C) {
    for _ in 0..CLOSE_TRIES {
        if state.is_hanging_up(connection) {
            return;
        }
        rest(rt, Duration::from_millis(CLOSE_MILLISECONDS));
    }
    state.socket(connection).shut();
}

/// Runs the notice thread of a session: each time it is woken, the session looks for changes of others, and gets the
/// announcements of the host. If that fails, the shut socket ends the reader thread, unless that is already ending.
///
/// It checks whether the session should end before the first sleep too, because the wake-up for that may have come
/// already. While it rests, a wake-up is kept and costs the waking thread no system call. So in a busy world several
/// changes are sent together.
pub(crate) fn tell_all<S: Converses<C>, C, R: Wait + Clock>(
    rt: &R,
    state: &S,
    connection: &C,
    sleeper: &Sleeper,
) {
    for _ in rt.forever() {
        if ending_of(state, state.socket(connection)).is_none() && !state.shared().is_turning() {
            sleeper.parker.park(rt);
        }
        leave_to_replies(rt, state, connection, sleeper);
        if state.shared().is_turning() {
            return;
        }
        if let Some(ending) = ending_of(state, state.socket(connection)) {
            tell_ending(rt, state, connection, ending);
            if let Ending::ByHost = ending {
                see_off(rt, state, connection);
            }
            return;
        }
        if !state.look(rt, connection) {
            if state.shared().is_turning() {
                return;
            }
            state.part(rt, connection, Parting::Left);
            break;
        }
        rest(rt, state.shared().notice_rest());
    }
    if !state.is_hanging_up(connection) {
        state.socket(connection).shut();
    }
}
