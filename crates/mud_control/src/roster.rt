//! The sessions of a server, for the host and for the threads that wake them.

use crossbeam_utils::sync::Unparker;
use mud_bans::Network;
use mud_socket::{Ending, Entrance, Parting, Socket};
use std::alloc::{AllocError, Global};
use std::net::SocketAddr;
use std::sync::atomic::{AtomicU64, AtomicUsize, Ordering};
use std::sync::{Arc, Mutex, Wait};
use std::time::Duration;

/// A session: the waker of its notice thread, its socket, and its player.
#[derive(Drop)]
pub struct Member {
    unparker: Unparker,
    socket: Arc<Socket>,
    peer: SocketAddr,
    // The number of its desk; 0 before it has one.
    number: u32,
    // The time when it began, in seconds since 1970.
    since_seconds: u64,
    // Its player and the player's name, if it has one.
    player: Option<(u32, String)>,
}

// A place of the roster. Threads that wake others read its atomics without its lock.
#[derive(Drop)]
struct RosterPlace {
    member: Mutex<Option<Member>>,
    // The time of the last line, in microseconds, or of the session's beginning.
    heard: AtomicU64,
    // The visit of the session, from 1 on; 0 before the first one.
    visit: AtomicU64,
    // The visit whose notice thread leaves the notices to the replies; 0 if no thread does. It can be an earlier visit,
    // whose thread is about to end.
    left_by: AtomicU64,
}

/// The description of a session for the host.
#[derive(Drop)]
pub struct Row {
    /// The number of the session.
    pub number: u32,
    /// The entrance of the session.
    pub entrance: Entrance,
    /// The address of the other side.
    pub peer: SocketAddr,
    /// The time when it began, in seconds since 1970.
    pub since_seconds: u64,
    /// The time since its last line.
    pub idle: Duration,
    /// Its player and the player's name, if it has one.
    pub player: Option<(u32, String)>,
}

/// The session at each place. Each place has a lock of its own, under which only a socket's lock is taken.
#[derive(Drop)]
pub struct Roster {
    list: Vec<RosterPlace>,
    // The number of places up to the last one that ever had a session. It is set before a session enters, so a change
    // that a session has not seen when it enters wakes it.
    used: AtomicUsize,
    // The number of sessions that ever entered, the last one's visit. Its lock is held while `used` is set.
    visits: Mutex<u64>,
}

// Returns a time in microseconds.
fn micros(time: Duration) -> u64 {
    u64::try_from(time.as_micros()).unwrap_or(u64::MAX)
}

impl Member {
    /// Returns a session that began at this time, in seconds since 1970.
    pub fn new(unparker: Unparker, socket: Arc<Socket>, since_seconds: u64) -> Member {
        let peer = socket.peer();
        Member {
            unparker,
            socket,
            peer,
            number: 0,
            since_seconds,
            player: None,
        }
    }

    // Returns its description, if no line came for the time `idle`. The only error is out of memory.
    fn row(&self, idle: Duration) -> Result<Row, AllocError> {
        let player = match &self.player {
            Some((number, name)) => Some((*number, name.clone()?)),
            None => None,
        };
        Ok(Row {
            number: self.number,
            entrance: self.socket.entrance(),
            peer: self.peer,
            since_seconds: self.since_seconds,
            idle,
            player,
        })
    }

    // Ends the session: its notice thread tells the player.
    fn dismiss(&self) {
        self.socket.dismiss();
        self.unparker.unpark();
    }
}

impl RosterPlace {
    // Returns a place without a session.
    fn new() -> RosterPlace {
        RosterPlace {
            member: Mutex::new(None),
            heard: AtomicU64::new(0),
            visit: AtomicU64::new(0),
            left_by: AtomicU64::new(0),
        }
    }

    // Returns how long no line came.
    fn silence(&self, now: Duration) -> Duration {
        let heard = self.heard.load(Ordering::SeqCst);
        Duration::from_micros(micros(now).saturating_sub(heard))
    }

    // Returns whether the replies carry the notices: the notice thread leaves them to the replies, and a line came
    // within this time.
    fn is_carried(&self, now: Duration, time: Duration) -> bool {
        let is_left = self.left_by.load(Ordering::SeqCst) == self.visit.load(Ordering::SeqCst);
        is_left && self.silence(now) < time
    }
}

impl Roster {
    /// Returns this number of places without a session. The only error is out of memory.
    pub fn new(alloc: Global, places: u32) -> Result<Roster, AllocError> {
        let mut list = Vec::new(alloc);
        for _ in 0..places {
            list.push(RosterPlace::new())?;
        }
        Ok(Roster {
            list,
            used: AtomicUsize::new(0),
            visits: Mutex::new(0),
        })
    }

    // Counts this place as used, and returns the number of a new visit.
    fn use_place<R: Wait>(&self, rt: &R, at: usize) -> u64 {
        let mut visits = self.visits.lock(rt);
        if self.used() <= at {
            self.used.store(at.saturating_add(1), Ordering::SeqCst);
        }
        *visits = visits.saturating_add(1);
        *visits
    }

    // Returns the number of places up to the last one that ever had a session.
    fn used(&self) -> usize {
        self.used.load(Ordering::SeqCst)
    }

    /// Adds a session at a place. Its last line came at the time `heard`, by the clock that waits, or it began then.
    /// Returns the number of its visit.
    pub fn enter<R: Wait>(&self, rt: &R, at: usize, new: Member, heard: Duration) -> u64 {
        let visit = self.use_place(rt, at);
        if let Some(place) = self.list.get(at) {
            place.heard.store(micros(heard), Ordering::SeqCst);
            place.visit.store(visit, Ordering::SeqCst);
            *place.member.lock(rt) = Some(new);
        }
        visit
    }

    /// Records that a line of the session at a place was answered now.
    pub fn hear(&self, at: usize, now: Duration) {
        if let Some(place) = self.list.get(at) {
            place.heard.store(micros(now), Ordering::SeqCst);
        }
    }

    /// Returns how long no line of the session at a place was answered.
    pub fn silence(&self, at: usize, now: Duration) -> Duration {
        match self.list.get(at) {
            Some(place) => place.silence(now),
            None => now,
        }
    }

    /// Records that the notice thread of this visit at a place leaves the notices to the replies, or that it does not
    /// any more.
    pub fn leave_to_replies(&self, at: usize, visit: u64, leaves: bool) {
        if let Some(place) = self.list.get(at) {
            let left_by = if leaves { visit } else { 0 };
            place.left_by.store(left_by, Ordering::SeqCst);
        }
    }

    /// Sets the number of the session at a place.
    pub fn number<R: Wait>(&self, rt: &R, at: usize, number: u32) {
        if let Some(place) = self.list.get(at)
            && let Some(member) = &mut *place.member.lock(rt)
        {
            member.number = number;
        }
    }

    /// Sets the player of the session at a place.
    pub fn name<R: Wait>(&self, rt: &R, at: usize, player: u32, name: String) {
        if let Some(place) = self.list.get(at)
            && let Some(member) = &mut *place.member.lock(rt)
        {
            member.player = Some((player, name));
        }
    }

    /// Removes the session at a place, and wakes its notice thread, so that it ends.
    pub fn leave<R: Wait>(&self, rt: &R, at: usize) {
        if let Some(place) = self.list.get(at)
            && let Some(member) = place.member.lock(rt).take()
        {
            member.unparker.unpark();
        }
    }

    /// Wakes the notice threads of all sessions but the one at the place `speaker`. It wakes no thread that leaves the
    /// notices to the replies of a player who is typing: the last line was answered within this time before `now`.
    pub fn wake_hearers<R: Wait>(
        &self,
        rt: &R,
        speaker: Option<usize>,
        now: Duration,
        typing_time: Duration,
    ) {
        for (at, place) in self.list.iter().take(self.used()).enumerate() {
            if speaker != Some(at)
                && !place.is_carried(now, typing_time)
                && let Some(member) = &*place.member.lock(rt)
            {
                member.unparker.unpark();
            }
        }
    }

    /// Wakes the notice threads of all sessions.
    pub fn wake_all<R: Wait>(&self, rt: &R) {
        for place in self.list.iter().take(self.used()) {
            if let Some(member) = &*place.member.lock(rt) {
                member.unparker.unpark();
            }
        }
    }

    /// Makes all sessions rest, and wakes their notice threads.
    pub fn begin_rest<R: Wait>(&self, rt: &R) {
        for place in &self.list {
            if let Some(member) = &*place.member.lock(rt) {
                member.socket.begin_rest();
                member.unparker.unpark();
            }
        }
    }

    /// Shuts the sockets of all sessions, for this reason.
    pub fn shut_all<R: Wait>(&self, rt: &R, ending: Ending) {
        for place in &self.list {
            if let Some(member) = &*place.member.lock(rt) {
                member.socket.part(rt, Parting::of_ending(ending));
                member.socket.shut();
            }
        }
    }

    /// Ends the session with this number. Returns whether there is one.
    pub fn end<R: Wait>(&self, rt: &R, number: u32) -> bool {
        let mut is_found = false;
        for place in &self.list {
            if let Some(member) = &*place.member.lock(rt)
                && member.number == number
            {
                member.dismiss();
                is_found = true;
            }
        }
        is_found
    }

    /// Ends the sessions of a network. Returns their number.
    pub fn end_network<R: Wait>(&self, rt: &R, network: Network) -> u32 {
        let mut count = 0u32;
        for place in &self.list {
            if let Some(member) = &*place.member.lock(rt)
                && network.covers(member.peer.ip())
            {
                member.dismiss();
                count = count.saturating_add(1);
            }
        }
        count
    }

    /// Returns the description of each session, by place. The only error is out of memory.
    pub fn rows<R: Wait>(
        &self,
        rt: &R,
        alloc: Global,
        now: Duration,
    ) -> Result<Vec<Row>, AllocError> {
        let mut rows = Vec::new(alloc);
        for place in &self.list {
            if let Some(member) = &*place.member.lock(rt) {
                rows.push(member.row(place.silence(now))?)?;
            }
        }
        Ok(rows)
    }

    /// Returns the number of sessions, and the number of those with a player.
    pub fn counts<R: Wait>(&self, rt: &R) -> (u32, u32) {
        let (mut sessions, mut players) = (0u32, 0u32);
        for place in &self.list {
            if let Some(member) = &*place.member.lock(rt) {
                sessions = sessions.saturating_add(1);
                players = players.saturating_add(u32::from(member.player.is_some()));
            }
        }
        (sessions, players)
    }
}
