//! Runs the reader thread of a session.

use crate::ending::leave;
use crate::server::Server;
use log::Log;
use mud_control::{Pace, Refusal};
use mud_server_session::{
    Converses, Follows, Guest, Habits, Quay, Stepped, ending_of, log_begin, log_end, log_end_of,
    log_player, log_refusal, log_wait,
};
use mud_socket::{Entrance, Parting, Patience, give_way, now, rest, unix_seconds};
use mud_web::{FirstLine, Verdict};
use std::alloc::Global;
use std::sync::Wait;
use std::thread::Threads;
use std::time::{Clock, Duration};

const BUFFER_LEN: usize = 4096;

// The longest wait between two checks whether the session should end.
const SLICE_MILLISECONDS: u64 = 100;

// The wait between two checks whether the server turns, or all sessions rest.
const REST_MILLISECONDS: u64 = 1;

// The number of seconds without a wait after which the log names the next wait.
const EPISODE_SECONDS: u64 = 60;

// The number of seconds after which the log names a Telnet session that has sent nothing to distinguish it from a
// browser.
const SILENT_SECONDS: u32 = 1;

// The state of a reader thread: the connection, the place of its session, the number of its desk, and what it knows of
// the session.
#[derive(Drop)]
struct Reading<'a, S, C, R> {
    rt: &'a R,
    state: &'a S,
    connection: &'a C,
    at: usize,
    number: u32,
    habits: Habits,
}

// The reason why a reader thread stops.
enum Stopped {
    // The session has ended for this reason.
    Parted(Parting),
    // The session rests.
    Rests,
}

impl<'a, S: Converses<C>, C, R: Threads + Wait + Log + Clock + Sync> Reading<'a, S, C, R> {
    // Returns the state for the session at the place, whose time limit for a player begins now.
    fn new(
        rt: &'a R,
        alloc: Global,
        state: &'a S,
        connection: &'a C,
        at: usize,
        number: u32,
    ) -> Reading<'a, S, C, R> {
        let (socket, start) = (state.socket(connection), now(rt));
        let (peer, limits) = (socket.peer(), &state.shared().limits);
        let control = state.control();
        let shared = control.crowd.begin(rt, peer.ip(), start);
        let habits = Habits {
            peer,
            since: start,
            since_seconds: unix_seconds(rt),
            moment: Patience::new(0, SILENT_SECONDS, start),
            patience: Patience::new(limits.idle, limits.unnamed, start),
            first_line: FirstLine::new(),
            has_begun: socket.entrance() == Entrance::Web,
            is_named: false,
            is_counted: false,
            pace: Pace::new(&control.rates, shared, start),
            has_player: false,
            player: None,
            last_wait: None,
            unread: Vec::new(alloc),
            has_more: false,
        };
        Reading {
            rt,
            state,
            connection,
            at,
            number,
            habits,
        }
    }

    // Names the session in the log, if it was not named yet.
    fn name(&mut self) {
        if !self.habits.is_named {
            self.habits.is_named = true;
            self.state.control().tally.count_session();
            let by = self.state.socket(self.connection).entrance().word();
            log_begin(self.rt, self.number, self.habits.peer, by);
        }
    }

    // Begins the session: it counts for the total, and the log names it.
    fn begin(&mut self) {
        if !self.habits.has_begun {
            self.habits.has_begun = true;
            let shared = self.state.shared();
            shared.lobby.settle_ticket(&shared.limits, true);
        }
        self.name();
    }

    // Returns whether the first input of a Telnet session, continued by this piece, is a browser's request. Once it is
    // known not to be, the session has begun. While it may still become one, only blank lines of it are complete, so
    // the session may have them (the law `undecided_ends_no_line` of `mud_web`).
    fn is_request(&mut self, bytes: &[u8]) -> bool {
        if self.habits.has_begun {
            return false;
        }
        match self.habits.first_line.feed(bytes) {
            Verdict::Request => true,
            Verdict::Undecided => false,
            Verdict::NoRequest => {
                self.begin();
                false
            }
        }
    }

    // Records that a line came now.
    fn hear(&mut self) {
        let now = now(self.rt);
        self.habits.patience.hear(now);
        self.state.control().roster.hear(self.at, now);
    }

    // Counts a wait. The log names it, unless the session waited less than a minute ago.
    fn note_wait(&mut self, now: Duration) {
        self.state.control().tally.count_wait();
        let is_new = match self.habits.last_wait {
            Some(last) => now.saturating_sub(last) > Duration::from_secs(EPISODE_SECONDS),
            None => true,
        };
        self.habits.last_wait = Some(now);
        if is_new {
            log_wait(self.rt, self.number, self.habits.peer);
        }
    }

    // Waits until the rate limits allow one more line, or the session should end. Meanwhile no lock is held, and
    // nothing is read. Returns false if the session should rest before that.
    fn keep_pace(&mut self) -> bool {
        let (rt, state) = (self.rt, self.state);
        for round in 0..u64::MAX {
            let moment = now(rt);
            let Some(wait) = self
                .habits
                .pace
                .take_line(rt, &state.control().excess, moment)
            else {
                return true;
            };
            if ending_of(state, state.socket(self.connection)).is_some() {
                return true;
            }
            if state.shared().is_turning() {
                return false;
            }
            if round == 0 {
                self.note_wait(moment);
            }
            rest(rt, wait.min(Duration::from_millis(SLICE_MILLISECONDS)));
        }
        true
    }

    // Waits while the volume is so full that the server has to turn first, which it does soon. Returns false if the
    // session should rest.
    fn wait_for_turn(&self) -> bool {
        let (rt, state) = (self.rt, self.state);
        for _ in rt.forever() {
            if !state.shared().is_held()
                || ending_of(state, state.socket(self.connection)).is_some()
            {
                return true;
            }
            if state.shared().is_turning() {
                return false;
            }
            rest(rt, Duration::from_millis(REST_MILLISECONDS));
        }
        unreachable!()
    }

    // Puts input off to the next volume. The session can rest then, as if a line waited.
    fn put_off(&mut self, bytes: &[u8]) -> Option<bool> {
        if self.habits.unread.extend_from_slice(bytes).is_err() {
            self.state
                .socket(self.connection)
                .part(self.rt, Parting::OutOfMemory);
            return None;
        }
        Some(true)
    }

    // Names the session's player in the log and for the host, once there is one.
    fn learn_player(&mut self) {
        if !self.habits.has_player || self.habits.player.is_some() {
            return;
        }
        let (rt, state) = (self.rt, self.state);
        let Some((player, name)) = state.who(rt, self.connection) else {
            return;
        };
        log_player(rt, self.number, player, name.as_str());
        if let Ok(copy) = name.clone() {
            state.control().roster.name(rt, self.at, player, copy);
        }
        self.habits.player = Some((player, name));
    }

    // Serves bytes, or puts them off. Returns whether lines wait, or `None` if the session does not continue.
    fn step(&mut self, bytes: &[u8]) -> Option<bool> {
        if !self.wait_for_turn() || !self.keep_pace() {
            return self.put_off(bytes);
        }
        let (rt, state, connection) = (self.rt, self.state, self.connection);
        let (stepped, goes_on) = state.feed(rt, rt, connection, bytes, self)?;
        if stepped.has_line {
            self.hear();
        }
        self.learn_player();
        if goes_on {
            Some(stepped.has_more)
        } else {
            None
        }
    }

    // Serves these bytes, unless they are a browser's request: then the session ends.
    fn take_in(&mut self, bytes: &[u8]) -> Option<bool> {
        if self.is_request(bytes) {
            self.state
                .socket(self.connection)
                .part(self.rt, Parting::Request);
            return None;
        }
        self.step(bytes)
    }

    // Sends the greeting, and serves the input, beginning with `first`. Returns the reason for the end.
    fn greet_and_converse(&mut self, alloc: Global, first: &[u8], quay: &Quay) -> Stopped {
        if self.habits.has_begun {
            self.name();
        }
        let (rt, state, connection) = (self.rt, self.state, self.connection);
        if !state.look(rt, connection) || !state.tell_volume(rt, alloc, connection, quay) {
            return Stopped::Parted(Parting::Left);
        }
        let waits = self.take_in(first);
        self.converse(waits)
    }

    // Continues a session that rested: sends what was kept for it, and serves its input, beginning with the input and
    // the lines that wait. Returns the reason for the end.
    fn go_on(&mut self) -> Stopped {
        let (rt, state, connection) = (self.rt, self.state, self.connection);
        if !state.send_kept(rt, connection) || !state.look(rt, connection) {
            return Stopped::Parted(Parting::Left);
        }
        let empty = Vec::new(*Vec::allocator(&self.habits.unread));
        let unread = std::mem::replace(&mut self.habits.unread, empty);
        let waits = if unread.is_empty() {
            Some(self.habits.has_more)
        } else {
            self.step(&unread)
        };
        self.converse(waits)
    }

    // Serves the input to the end of the input or of the session, or until the session should rest. First come the
    // lines that wait, if `waits` says so. The answer to a line is sent before the next line is read, so no more than
    // one answer is kept.
    fn converse(&mut self, waits: Option<bool>) -> Stopped {
        let mut buffer = [0u8; BUFFER_LEN];
        let mut waits = waits;
        for _ in self.rt.forever() {
            let Some(has_more) = waits else {
                return Stopped::Parted(Parting::Left);
            };
            if self.state.shared().is_turning() {
                self.habits.has_more = has_more;
                return Stopped::Rests;
            }
            if has_more {
                waits = self.step(&[]);
                continue;
            }
            if self.state.shared().gives_way() {
                give_way();
            }
            let socket = self.state.socket(self.connection);
            match socket.read(self.rt, self.patience(), &mut buffer) {
                Ok(0) => {}
                Ok(count) => waits = self.take_in(&buffer[..count]),
                Err(Parting::Unnamed) if !self.habits.is_named => self.name(),
                Err(parting) => return Stopped::Parted(parting),
            }
        }
        unreachable!()
    }

    // Returns the patience with which the next bytes are read: a short one until the log names the session.
    fn patience(&self) -> &Patience {
        if self.habits.is_named {
            &self.habits.patience
        } else {
            &self.habits.moment
        }
    }

    // Tells the host again who plays at this place.
    fn tell_player(&self) {
        if let Some((player, name)) = &self.habits.player
            && let Ok(copy) = name.clone()
        {
            let roster = &self.state.control().roster;
            roster.name(self.rt, self.at, *player, copy);
        }
    }

    // Ends the session, or lets it rest.
    fn stop(self, quay: &Quay, stopped: Stopped) {
        let mut reading = self;
        let parting = match stopped {
            Stopped::Parted(parting) => parting,
            Stopped::Rests if reading.see_all() => {
                reading.land(quay);
                return;
            }
            Stopped::Rests => Parting::Left,
        };
        reading.hang_up(parting);
    }

    // Waits until all sessions rest, and tells the session what is left of the volume. Returns whether it continues.
    fn see_all(&self) -> bool {
        let (rt, state) = (self.rt, self.state);
        state.shared().count_resting();
        for _ in rt.forever() {
            if state.shared().all_rest() {
                break;
            }
            rest(rt, Duration::from_millis(REST_MILLISECONDS));
        }
        state.look_at_all(rt, self.connection)
    }

    // Leaves the session on the quay, and returns its desk and its place.
    fn land(self, quay: &Quay) {
        let Reading {
            rt,
            state,
            connection,
            at,
            number,
            habits,
        } = self;
        let Some((socket, client, told)) = state.rest(rt, connection, at) else {
            leave(rt, state, connection, at);
            return;
        };
        let guest = Guest {
            socket,
            client,
            told,
            number,
            habits,
        };
        quay.land(rt, guest);
        state.release_place(rt, at);
    }

    // Ends the session for this reason, unless it has ended for another, and releases its place. Then it drains a web
    // socket that was closed.
    fn hang_up(&mut self, parting: Parting) {
        let (rt, state, connection) = (self.rt, self.state, self.connection);
        state.hang_up(connection);
        if self.habits.pace.is_shared() {
            state.control().crowd.end(rt, self.habits.peer.ip());
        }
        if state.part(rt, connection, parting) {
            state.give_back(rt, connection, self.at);
            self.tell_end();
            state.socket(connection).drain(rt);
            state.socket(connection).shut();
        } else {
            leave(rt, state, connection, self.at);
            self.tell_end();
        }
    }

    // Logs the end of the session. A browser's request was no session: the log names one at most once a second.
    fn tell_end(&mut self) {
        let (rt, state) = (self.rt, self.state);
        let parting = self.state.socket(self.connection).part(rt, Parting::Left);
        if parting == Parting::Request {
            let shared = state.shared();
            shared.lobby.settle_ticket(&shared.limits, false);
        } else {
            self.begin();
        }
        if self.habits.is_named {
            self.log_end(parting);
        } else {
            let address = self.habits.peer.ip();
            log_refusal(rt, &state.control().tally, address, Refusal::Request);
        }
    }

    // Logs the end reason of the session, and its player.
    fn log_end(&self, parting: Parting) {
        let (rt, number, peer) = (self.rt, self.number, self.habits.peer);
        match &self.habits.player {
            Some((player, name)) => log_end_of(rt, number, peer, parting, *player, name.as_str()),
            None => log_end(rt, number, peer, parting),
        }
    }
}

impl<'a, S: Converses<C>, C, R: Wait + Log + Clock> Reading<'a, S, C, R> {
    // Counts an answered line for the rate limits and for the host. A line end without an answer, such as the second
    // one of CR LF, keeps its token for the next line.
    fn spend(&mut self, stepped: Stepped) {
        let (rt, control) = (self.rt, self.state.control());
        if stepped.has_line && stepped.is_silent {
            self.habits.pace.give_back();
        } else if stepped.has_line {
            control.tally.count_line();
        }
        let (now, has_changed) = (stepped.ended, stepped.accepted.is_some());
        let took = now.saturating_sub(stepped.begun);
        self.habits
            .pace
            .spend(rt, &control.excess, now, took, has_changed);
    }

    // Announces a change of the session to the others. With its first change it counts as a player's.
    fn tell_change(&mut self, stepped: Stepped) {
        let Some(version) = stepped.accepted else {
            return;
        };
        self.state
            .announce_change(self.rt, self.at, version, stepped.ended);
        let shared = self.state.shared();
        shared.control().tally.count_change(version as u64);
        shared.warn_if_nearly_full(self.rt, version);
        if !self.habits.is_counted {
            self.habits.is_counted = true;
            shared.count_player();
        }
    }

    // Ends the time limit for a player, once there is one.
    fn learn(&mut self, stepped: Stepped) {
        if stepped.has_player {
            self.habits.has_player = true;
            self.habits.patience.name();
        }
    }
}

impl<'a, S: Converses<C>, C, R: Wait + Log + Clock> Follows for Reading<'a, S, C, R> {
    fn follow(&mut self, stepped: Stepped) {
        self.tell_change(stepped);
        self.learn(stepped);
        self.spend(stepped);
    }
}

/// Runs the reader thread of the session at a place, at the desk with this number. It sends the greeting, and serves
/// the input, beginning with `first`. Then it ends the session, or leaves it on the quay.
pub(crate) fn read_all<'s, E, S: Converses<C>, C, R: Threads + Wait + Log + Clock + Sync>(
    server: &Server<'s, E, S, C, R>,
    connection: &C,
    at: usize,
    number: u32,
    first: &[u8],
) {
    let mut reading = Reading::new(
        server.rt,
        server.alloc,
        server.state,
        connection,
        at,
        number,
    );
    let stopped = reading.greet_and_converse(server.alloc, first, server.quay);
    reading.stop(server.quay, stopped);
}

/// Runs the reader thread of a session that rested, at its new place and desk.
pub(crate) fn read_on<'s, E, S: Converses<C>, C, R: Threads + Wait + Log + Clock + Sync>(
    server: &Server<'s, E, S, C, R>,
    connection: &C,
    at: usize,
    number: u32,
    habits: Habits,
) {
    let mut reading = Reading {
        rt: server.rt,
        state: server.state,
        connection,
        at,
        number,
        habits,
    };
    reading.tell_player();
    let stopped = reading.go_on();
    reading.stop(server.quay, stopped);
}
