//! How a thread ends its session.

use mud_server_session::{Converses, ending_of};
use mud_socket::{Ending, Entrance, Parting};
use std::sync::Wait;

/// Returns whether a notice thread has to stop: the session ends or should end, or the server turns.
pub(crate) fn is_ending<S: Converses<C>, C>(state: &S, connection: &C) -> bool {
    ending_of(state, state.socket(connection)).is_some()
        || state.shared().is_turning()
        || state.is_hanging_up(connection)
}

/// Ends a session: stores its desk for the next one, and frees its place. The socket is shut first, which ends a write
/// of the other thread under the lock.
pub(crate) fn leave<S: Converses<C>, C, R: Wait>(rt: &R, state: &S, connection: &C, at: usize) {
    state.socket(connection).shut();
    state.give_back(rt, connection, at);
}

/// Sends why a session is ended from outside. With Telnet the socket is then shut; on the web the other side closes the
/// web socket.
pub(crate) fn tell_ending<S: Converses<C>, C, R: Wait>(
    rt: &R,
    state: &S,
    connection: &C,
    ending: Ending,
) {
    let socket = state.socket(connection);
    match socket.entrance() {
        Entrance::Telnet => {
            state.say_ending(rt, connection, ending);
            socket.shut();
        }
        Entrance::Web => {
            state.part(rt, connection, Parting::of_ending(ending));
        }
    }
}
