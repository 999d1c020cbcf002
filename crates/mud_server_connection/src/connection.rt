//! The connection of a session, and what its two threads do with it.

use mud_client::{Client, End, Framing, Outgoing, RestingClient, Sayings};
use mud_hall::HallName;
use mud_journal::Held;
use mud_server_session::{
    CLOSE_MILLISECONDS, CLOSE_TRIES, Converses, Follows, Quay, Stepped, ending_of,
};
use mud_server_state::{Commits, Shared, Shares, StateOf};
use mud_socket::{Ending, Entrance, Parting, Socket, now, rest};
use std::alloc::Global;
use std::sync::atomic::{AtomicBool, AtomicU64, Ordering};
use std::sync::{Arc, Mutex, Wait};
use std::thread::Threads;
use std::time::{Clock, Duration};

/// A connection: its socket, and its client during the session.
#[derive(Drop)]
pub struct Connection<J: HallName> {
    socket: Arc<Socket>,
    client: Mutex<Option<Client<J>>>,
    // True once the reader thread ends the session and owns the socket.
    hangs_up: AtomicBool,
    // The number of the host's announcements that came before the session, or were sent to it.
    told: AtomicU64,
}

// Returns the number of synced entries, as far as sessions count.
fn synced_entries<J: HallName, G: Commits<J>>(gate: &G) -> u32 {
    u32::try_from(gate.synced_count()).unwrap_or(u32::MAX)
}

// Returns the reason of a session whose client has this end.
fn parting_of(end: End) -> Parting {
    match end {
        End::Quit | End::NotText | End::Earlier => Parting::Left,
        End::OutOfMemory => Parting::OutOfMemory,
        End::Over(error) => Parting::of_error(&error),
    }
}

impl<J: HallName> Connection<J> {
    // Feeds bytes to the session, under its lock (`Converses::feed`).
    fn step<G: Commits<J>, R: Threads + Wait + Sync, K: Wait + Clock, F: Follows>(
        &self,
        rt: &R,
        clock: &K,
        state: &StateOf<J, G>,
        client: &mut Option<Client<J>>,
        bytes: &[u8],
        follows: &mut F,
    ) -> Option<(Stepped, bool)> {
        if let Some(ending) = ending_of(state, &self.socket) {
            self.end(clock, client, ending);
            return None;
        }
        if !self.tell_news(clock, &state.shared, client) {
            return None;
        }
        let before = client.take()?;
        let begun = now(clock);
        let (workers, most) = (
            state.shared.limits.workers,
            synced_entries::<J, G>(&state.gate),
        );
        let (after, outgoing) = before.feed(rt, &state.hall, workers, most, bytes);
        let ended = now(clock);
        *client = Some(after);
        let stepped = Stepped {
            has_line: outgoing.has_line,
            has_more: outgoing.has_more,
            has_player: outgoing.has_player,
            is_silent: outgoing.text.is_empty(),
            accepted: outgoing.accepted,
            begun,
            ended,
        };
        follows.follow(stepped);
        Some((stepped, self.send(clock, state, client, outgoing)))
    }

    // Sends a text after the versions that it can name are synced; an empty text names none. The client uses the memory
    // of the text again.
    fn send_text<G: Commits<J>, R: Wait + Clock>(
        &self,
        rt: &R,
        state: &StateOf<J, G>,
        client: &mut Option<Client<J>>,
        text: Held<J, Sayings>,
    ) -> Result<(), Parting> {
        if text.is_empty() {
            return Ok(());
        }
        let Some(receipt) = state.commit(rt, text.version()) else {
            return Err(Parting::JournalFault);
        };
        let sent = text.open(&receipt);
        self.socket.send(rt, sent.as_slice())?;
        if let Some(client) = client {
            client.reuse(sent);
        }
        Ok(())
    }

    // Sends the output of a step, under the session's lock, after the versions that it can name are synced. Returns
    // whether the session continues. If frames have ended it, that is the first reason, whether or not the other side
    // takes the close.
    fn send<G: Commits<J>, R: Wait + Clock>(
        &self,
        rt: &R,
        state: &StateOf<J, G>,
        client: &mut Option<Client<J>>,
        outgoing: Outgoing<J>,
    ) -> bool {
        let Outgoing { text, end, .. } = outgoing;
        if let Some(End::Over(error)) = end {
            self.socket.part(rt, Parting::of_error(&error));
        }
        let parting = match self.send_text(rt, state, client, text) {
            Ok(()) => end.map(parting_of),
            Err(parting) => Some(parting),
        };
        match parting {
            None => true,
            Some(Parting::JournalFault) => {
                self.end(rt, client, Ending::JournalFault);
                false
            }
            Some(parting) => {
                self.socket.part(rt, parting);
                false
            }
        }
    }

    // Sends why the session is ended from outside, under the session's lock.
    fn end<R: Wait>(&self, rt: &R, client: &mut Option<Client<J>>, ending: Ending) {
        match self.socket.entrance() {
            Entrance::Telnet => self.socket.tell_ending(rt, ending),
            Entrance::Web => self.close(rt, client, Parting::of_ending(ending)),
        }
    }

    // Closes the web socket, under the session's lock, for this reason or for the one for which the session has ended.
    fn close<R: Wait>(&self, rt: &R, client: &mut Option<Client<J>>, parting: Parting) {
        let first = self.socket.part(rt, parting);
        if let Some(before) = client.take() {
            let (after, text) = before.part(first.line().unwrap_or(""), first.close());
            *client = Some(after);
            self.socket.say_last(rt, &text);
        }
        self.socket.end_writing();
    }

    // Sends the host's announcements that the session did not get yet, under the session's lock, each once and between
    // two texts. Returns whether the session continues.
    fn tell_news<R: Wait + Clock>(
        &self,
        rt: &R,
        shared: &Shared,
        client: &mut Option<Client<J>>,
    ) -> bool {
        for _ in rt.forever() {
            let told = self.told.load(Ordering::SeqCst);
            if shared.control().news.count() <= told {
                return true;
            }
            let Some((line, count)) = shared.control().news.after(rt, told) else {
                return true;
            };
            self.told.store(count, Ordering::SeqCst);
            if !self.send_line(rt, client, line.as_str()) {
                return false;
            }
        }
        unreachable!()
    }

    // Sends a line of the server's own, under the session's lock. Returns whether the session continues.
    fn send_line<R: Wait + Clock>(
        &self,
        rt: &R,
        client: &mut Option<Client<J>>,
        line: &str,
    ) -> bool {
        let Some(client) = client else {
            return false;
        };
        let text = client.announce(line);
        if text.is_empty() {
            return true;
        }
        match self.socket.send(rt, text.as_slice()) {
            Ok(()) => true,
            Err(parting) => {
                self.socket.part(rt, parting);
                false
            }
        }
    }
}

impl<J: HallName, G: Commits<J>> Converses<Connection<J>> for StateOf<J, G> {
    fn connection(&self, socket: Arc<Socket>, told: u64) -> Connection<J> {
        Connection {
            socket,
            client: Mutex::new(None),
            hangs_up: AtomicBool::new(false),
            told: AtomicU64::new(told),
        }
    }

    fn socket<'a>(&self, connection: &'a Connection<J>) -> &'a Socket {
        &connection.socket
    }

    fn hang_up(&self, connection: &Connection<J>) {
        connection.hangs_up.store(true, Ordering::SeqCst);
    }

    fn is_hanging_up(&self, connection: &Connection<J>) -> bool {
        connection.hangs_up.load(Ordering::SeqCst)
    }

    fn start<R: Wait>(
        &self,
        rt: &R,
        alloc: Global,
        connection: &Connection<J>,
        at: usize,
    ) -> Option<u32> {
        let framing = match connection.socket.entrance() {
            Entrance::Telnet => Framing::telnet(),
            Entrance::Web => Framing::web(alloc).ok()?,
        };
        let desk = self.take_desk(rt, at).ok()?;
        let number = desk.number();
        match Client::new(alloc, framing, desk) {
            Ok(client) => {
                *connection.client.lock(rt) = Some(client);
                Some(number)
            }
            Err(desk) => {
                self.keep_desk(rt, at, desk);
                None
            }
        }
    }

    fn look_at_all<R: Wait + Clock>(&self, rt: &R, connection: &Connection<J>) -> bool {
        let all = self.shared.control().tally.changes() as usize;
        if self.commit(rt, all).is_some() {
            return self.look(rt, connection);
        }
        let mut guard = connection.client.lock(rt);
        connection.end(rt, &mut guard, Ending::JournalFault);
        false
    }

    fn rest<R: Wait>(
        &self,
        rt: &R,
        connection: &Connection<J>,
        at: usize,
    ) -> Option<(Arc<Socket>, RestingClient, u64)> {
        let socket = Arc::try_clone(&connection.socket).ok()?;
        let client = connection.client.lock(rt).take()?;
        match client.rest() {
            Ok((resting, desk)) => {
                self.keep_desk(rt, at, desk);
                Some((socket, resting, connection.told.load(Ordering::SeqCst)))
            }
            Err(client) => {
                self.keep_desk(rt, at, client.into_desk());
                None
            }
        }
    }

    fn go_on<R: Wait>(
        &self,
        rt: &R,
        alloc: Global,
        connection: &Connection<J>,
        at: usize,
        resting: RestingClient,
        quay: &Quay,
    ) -> Option<u32> {
        let line = quay.line(alloc).ok()?;
        let desk = self.take_desk(rt, at).ok()?;
        let number = desk.number();
        let (mut client, sits) = Client::again(resting, rt, &self.hall, desk);
        if quay.is_next() {
            connection.socket.keep(rt, &client.announce(line.as_str()));
        }
        if !sits {
            connection
                .socket
                .keep(rt, &client.announce("(you are a guest)\r\n"));
        }
        *connection.client.lock(rt) = Some(client);
        Some(number)
    }

    fn give_back<R: Wait>(&self, rt: &R, connection: &Connection<J>, at: usize) {
        let client = connection.client.lock(rt).take();
        if let Some(client) = client {
            self.keep_desk(rt, at, client.into_desk());
        }
        self.release_place(rt, at);
    }

    fn feed<R: Threads + Wait + Sync, K: Wait + Clock, F: Follows>(
        &self,
        rt: &R,
        clock: &K,
        connection: &Connection<J>,
        bytes: &[u8],
        follows: &mut F,
    ) -> Option<(Stepped, bool)> {
        let mut guard = connection.client.lock(rt);
        connection.step(rt, clock, self, &mut guard, bytes, follows)
    }

    fn part<R: Wait>(&self, rt: &R, connection: &Connection<J>, parting: Parting) -> bool {
        connection.socket.part(rt, parting);
        if connection.socket.entrance() == Entrance::Telnet {
            return false;
        }
        for _ in 0..CLOSE_TRIES {
            if let Some(mut guard) = connection.client.try_lock() {
                connection.close(rt, &mut guard, parting);
                return true;
            }
            rest(rt, Duration::from_millis(CLOSE_MILLISECONDS));
        }
        false
    }

    fn say_ending<R: Wait>(&self, rt: &R, connection: &Connection<J>, ending: Ending) {
        for _ in 0..CLOSE_TRIES {
            if let Some(_guard) = connection.client.try_lock() {
                connection.socket.tell_ending(rt, ending);
                return;
            }
            rest(rt, Duration::from_millis(CLOSE_MILLISECONDS));
        }
    }

    fn send_kept<R: Wait + Clock>(&self, rt: &R, connection: &Connection<J>) -> bool {
        let _guard = connection.client.lock(rt);
        match connection.socket.send(rt, &[]) {
            Ok(()) => true,
            Err(parting) => {
                connection.socket.part(rt, parting);
                false
            }
        }
    }

    fn tell_volume<R: Wait + Clock>(
        &self,
        rt: &R,
        alloc: Global,
        connection: &Connection<J>,
        quay: &Quay,
    ) -> bool {
        if quay.volume < 2 {
            return true;
        }
        let mut guard = connection.client.lock(rt);
        match quay.line(alloc) {
            Ok(line) => connection.send_line(rt, &mut guard, line.as_str()),
            Err(_) => {
                connection.socket.part(rt, Parting::OutOfMemory);
                false
            }
        }
    }

    fn look<R: Wait + Clock>(&self, rt: &R, connection: &Connection<J>) -> bool {
        let most = synced_entries::<J, G>(&self.gate);
        let mut guard = connection.client.lock(rt);
        let Some(before) = guard.take() else {
            return false;
        };
        let (after, outgoing) = before.nudge(&self.hall, self.shared.limits.workers, most);
        *guard = Some(after);
        connection.send(rt, self, &mut guard, outgoing)
            && connection.tell_news(rt, &self.shared, &mut guard)
    }

    fn who<R: Wait>(&self, rt: &R, connection: &Connection<J>) -> Option<(u32, String)> {
        let mut guard = connection.client.lock(rt);
        let answer = guard.as_mut()?.look_at_me(&self.hall)?;
        player_in(*answer.text.allocator(), answer.text.as_str())
    }
}

// Returns the player whom the answer to `look me` names, and the player's first name.
fn player_in(alloc: Global, answer: &str) -> Option<(u32, String)> {
    let (name, number) = answer.lines().next()?.rsplit_once(" #")?;
    let player = number.parse::<u32>().ok()?;
    let name = String::from_str(alloc, name).ok()?;
    Some((player, name))
}
