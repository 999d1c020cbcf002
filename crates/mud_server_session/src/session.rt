//! A session as its two threads use it.

ghost use Rattle.std.specs.Thread.{IsSync};

use crate::quay::Quay;
use mud_client::RestingClient;
use mud_server_state::Shares;
use mud_socket::{Ending, Parting, Socket};
use std::alloc::Global;
use std::sync::{Arc, Wait};
use std::thread::Threads;
use std::time::{Clock, Duration};

/// The number of attempts, four seconds in all, to send the last line to a busy session.
pub const CLOSE_TRIES: u32 = 80;

/// The pause between two of them.
pub const CLOSE_MILLISECONDS: u64 = 50;

/// The results of a step of a session, and the times at which it began and ended.
#[derive(Clone, Copy)]
pub struct Stepped {
    /// True if a line ended in the answered input.
    pub has_line: bool,
    /// True if more lines wait.
    pub has_more: bool,
    /// True if the session has a player now.
    pub has_player: bool,
    /// True if it has no output.
    pub is_silent: bool,
    /// The least number of entries in the history, if a change was accepted.
    pub accepted: Option<usize>,
    pub begun: Duration,
    pub ended: Duration,
}

/// The work after each step of a session, before its output is sent.
pub trait Follows {
    /// Follows a step.
    fn follow(&mut self, stepped: Stepped);
}

/// A server's state as the two threads of a session use it with the session's connection, whose type is `C`. Only these
/// two threads take the session's lock.
pub trait Converses<C>: Shares {
    /// Returns a connection whose session has not begun. It does not get the first `told` announcements.
    fn connection(&self, socket: Arc<Socket>, told: u64) -> C;

    /// Returns its socket.
    fn socket<'a>(&self, connection: &'a C) -> &'a Socket;

    /// Records that the reader thread ends the session.
    fn hang_up(&self, connection: &C);

    /// Returns whether the reader thread ends the session.
    fn is_hanging_up(&self, connection: &C) -> bool;

    /// Begins the session at a place. Returns the number of its desk, or `None` if an allocation fails or no desk is
    /// left.
    fn start<R: Wait>(&self, rt: &R, alloc: Global, connection: &C, at: usize) -> Option<u32>;

    /// Makes the session look for all changes of its volume, in which no session changes anything any more. Returns
    /// whether the session continues.
    fn look_at_all<R: Wait + Clock>(&self, rt: &R, connection: &C) -> bool;

    /// Returns the parts that outlive the volume: the socket, the client without the desk, and the number of
    /// announcements that the session was told. The desk is stored. Returns `None` if the session has ended; one whose
    /// output waits ends.
    fn rest<R: Wait>(
        &self,
        rt: &R,
        connection: &C,
        at: usize,
    ) -> Option<(Arc<Socket>, RestingClient, u64)>;

    /// Continues a session that rested, at a new desk. Returns the number of the desk, or `None` if an allocation fails
    /// or no desk is left. A session that comes from an earlier volume is told the number of this one. If its player
    /// can't sit down, it is a guest's, and is told so.
    fn go_on<R: Wait>(
        &self,
        rt: &R,
        alloc: Global,
        connection: &C,
        at: usize,
        resting: RestingClient,
        quay: &Quay,
    ) -> Option<u32>;

    /// Returns the desk to its place and leaves the socket open, for a web socket that was closed already.
    fn give_back<R: Wait>(&self, rt: &R, connection: &C, at: usize);

    /// Feeds bytes to the session, under its lock. `follows` asks for the sync of an accepted change before the output
    /// is sent, because a send may wait for the other side. A question is answered by the synced entries, so it waits
    /// for no sync. Returns whether the session continues, and `None` if it has ended.
    ///
    /// If the session should end, it sends that in place of an answer. It sends the host's announcements first, because
    /// a player who types without a pause leaves the notice thread no moment in which the lock is free.
    fn feed<R: Threads + Wait + Sync, K: Wait + Clock, F: Follows>(
        &self,
        rt: &R,
        clock: &K,
        connection: &C,
        bytes: &[u8],
        follows: &mut F,
    ) -> Option<(Stepped, bool)>
        requires { IsSync R.row };

    /// Ends the session for this reason, unless it has ended for another. It closes a web socket if the session's lock
    /// becomes free within four seconds; a thread that holds it longer waits for the other side. Returns whether it was
    /// closed.
    fn part<R: Wait>(&self, rt: &R, connection: &C, parting: Parting) -> bool;

    /// Sends to a Telnet session why it is ended from outside, if the session's lock becomes free within four seconds.
    /// Otherwise the line would be inside a text that is being sent.
    fn say_ending<R: Wait>(&self, rt: &R, connection: &C, ending: Ending);

    /// Sends the text that was kept while the session rested. Returns whether the session continues.
    fn send_kept<R: Wait + Clock>(&self, rt: &R, connection: &C) -> bool;

    /// Tells a session that begins in a later volume the volume's number. Returns whether the session continues.
    fn tell_volume<R: Wait + Clock>(
        &self,
        rt: &R,
        alloc: Global,
        connection: &C,
        quay: &Quay,
    ) -> bool;

    /// Makes the session look for changes of others, under its lock, as far as they are synced, and sends its output.
    /// Returns whether the session continues. The number of synced entries is read first, so that under the lock the
    /// thread waits only for the other side. The hall's lock is not taken, however many changes there are.
    fn look<R: Wait + Clock>(&self, rt: &R, connection: &C) -> bool;

    /// Returns the player of the session and the player's first name, if there is one.
    fn who<R: Wait>(&self, rt: &R, connection: &C) -> Option<(u32, String)>;
}

/// Returns the reason why a session should end from outside, if it should: all sessions end, or the host ends this one.
pub fn ending_of<S: Shares>(state: &S, socket: &Socket) -> Option<Ending> {
    match state.ending() {
        Some(ending) => Some(ending),
        None => socket.dismissal(),
    }
}
