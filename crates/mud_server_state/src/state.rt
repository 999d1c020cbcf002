//! The shared state: the hall, and the places for its sessions.

ghost use Rattle.std.specs.Prelude.{◌≡◌, ◌≤◌, IfOk, IfSome, false, length};
ghost use Rattle.mud_search.specs.declared.limits.TheConstants.{MOST_WORKERS};

use crate::commits::Commits;
use crate::limits::Limits;
use crate::lobby::Lobby;
use crate::place::{NoPlace, Place};
use log::{Log, warn};
use mud_chron::Entry;
use mud_control::{Control, host_of};
use mud_hall::{Desk, Fault, Hall, HallName, Reader};
use mud_journal::Receipt;
use mud_socket::Ending;
use std::alloc::{AllocError, Global};
use std::net::IpAddr;
use std::sync::atomic::{AtomicBool, AtomicU32, AtomicU64, Ordering};
use std::sync::{Arc, Mutex, Wait};
use std::time::Duration;

// The number of sessions from which a notice thread takes the longest rest after each look.
const MOST_BUSY: u32 = 32;

// The number of microseconds that each session adds to the rest.
const SHARE_MICROSECONDS: u64 = 16;

// The number of rests for which a player counts as typing, and the shortest such time.
const TYPING_RESTS: u32 = 2;

const LEAST_TYPING_MICROSECONDS: u64 = 256;

// The greatest number of sessions with which a reader thread lets other threads run before it reads.
const MOST_GIVING_WAY: u32 = 16;

/// Places for sessions. Each has a lock of its own, under which no other lock is taken.
#[derive(Drop)]
pub struct Places<J: HallName> {
    list: Vec<Mutex<Place<J>>>,
}

/// The part of a server's state that names no hall: what its host controls, the lobby, the limits, and the counters and
/// flags of its sessions.
#[derive(Drop)]
pub struct Shared {
    // The state that the server shares with the threads of its host.
    control: Arc<Control>,
    pub lobby: Lobby,
    pub limits: Limits,
    // The number of places taken.
    taken: AtomicU32,
    // The number of sessions that became a player's.
    players: AtomicU32,
    is_stopping: AtomicBool,
    // True once the host was warned that the history is nearly full.
    was_warned: AtomicBool,
    // True once all sessions should rest, because the server turns to its next volume.
    is_turning: AtomicBool,
    // The number of sessions that rest.
    resting: AtomicU32,
    // The number of changes from which a line waits for the turn.
    held_from: AtomicU64,
    ghost few: { limits.workers ≤ MOST_WORKERS },
}

/// The state that all threads of a server share.
///
/// [`StateOf`] has its types. The hall, the places and the gate are type parameters, because the
/// prover finds that threads may share the state only by a lemma about its parts.
#[derive(Drop)]
pub struct ServerState<H, P, G> {
    pub hall: H,
    places: P,
    pub gate: G,
    pub shared: Shared,
    // Held while a desk is chosen; the locks of places come after it.
    choosing: Mutex<()>,
}

/// The state of the hall that `J` names, whose changes `G` makes durable.
pub type StateOf<J, G> = ServerState<Hall<J>, Places<J>, G>;

/// A server's state as its threads use it, without the types of its hall. A proof spells out all types that its values
/// reach, so the proofs of functions over this trait cost a fraction (docs/DECISIONS.md, "The cost of a proof").
pub trait Shares {
    /// Returns the part that names no hall.
    fn shared(&self) -> &Shared;

    /// Returns the state that the server shares with the threads of its host.
    fn control(&self) -> &Control;

    /// Returns the number of entries that the hall began with.
    fn loaded_count(&self) -> u32;

    /// Returns whether there is no journal.
    fn lacks_journal(&self) -> bool;

    /// Returns whether the journal has failed.
    fn has_failed(&self) -> bool;

    /// Returns the reason why all sessions should end, if they should.
    fn ending(&self) -> Option<Ending>;

    /// Takes the free place with the lowest number for a session of this address. The session itself counts for the
    /// host of its address. So there are never too many sessions, but two connections racing for a host's last place
    /// may both be refused.
    fn take_place<R: Wait>(&self, rt: &R, address: IpAddr) -> Result<usize, NoPlace>;

    /// Takes the free place with the lowest number, if there is one, whatever the limit of the address is.
    fn take_free<R: Wait>(&self, rt: &R, address: IpAddr) -> Option<usize>;

    /// Returns whether no place is taken.
    fn is_empty<R: Wait>(&self, rt: &R) -> bool;

    /// Announces at the time `now` that the hall has at least this many entries, the last one by the session at this
    /// place. With a journal it makes them durable first. Then it wakes the notice threads of all other sessions, but
    /// no thread that leaves the notices to the replies of a player who is typing.
    fn announce_change<R: Wait>(&self, rt: &R, at: usize, version: usize, now: Duration);

    /// Releases a place; a stored desk stays. The notice thread of its session is woken, so that it ends.
    fn release_place<R: Wait>(&self, rt: &R, at: usize);
}

/// The entries of a server's hall, by readers of the type `K`. That is a type parameter, because the prover takes the
/// bounds of an associated type to hold for one thread alone.
pub trait Reads<K>: Shares {
    /// Returns a reader of the hall's new entries, or `None` if an allocation fails.
    fn reader<R: Wait>(&self, rt: &R) -> Option<K>;

    /// Returns the next new entries, at most this many, or `None` if an allocation fails.
    fn read(&self, alloc: Global, reader: &mut K, most: u32) -> Option<Vec<Entry>>;
}

// Returns this many free places.
fn free_places<J: HallName>(alloc: Global, sessions: u32) -> Result<Places<J>, AllocError>
    ensures { IfOk result (λ places. length places.list.items ≡ sessions) }
{
    let mut list = Vec::new(alloc);
    for _ in 0..sessions {
        list.push(Mutex::new(Place::new()))?;
    }
    Ok(Places { list })
}

impl Shared {
    // Returns the state of a server without sessions.
    fn new(limits: Limits, lobby: Lobby, control: Arc<Control>) -> Shared
        requires { limits.workers ≤ MOST_WORKERS }
    {
        Shared {
            control,
            lobby,
            limits,
            taken: AtomicU32::new(0),
            players: AtomicU32::new(0),
            is_stopping: AtomicBool::new(false),
            was_warned: AtomicBool::new(false),
            is_turning: AtomicBool::new(false),
            resting: AtomicU32::new(0),
            held_from: AtomicU64::new(u64::MAX),
        }
    }

    /// Returns the state that the server shares with the threads of its host.
    pub fn control(&self) -> &Control {
        &self.control
    }

    /// Returns the number of places taken.
    pub fn session_count(&self) -> u32 {
        self.taken.load(Ordering::SeqCst)
    }

    /// Returns how long a notice thread rests after each look. It is proportional to the number of sessions, so up to
    /// `MOST_BUSY` sessions all notice threads together look at most some 62,000 times a second.
    pub fn notice_rest(&self) -> Duration {
        let busy = u64::from(self.session_count().min(MOST_BUSY));
        Duration::from_micros(busy * SHARE_MICROSECONDS)
    }

    /// Returns how long a player counts as typing after an answered line. Meanwhile the replies carry the notices.
    pub fn typing_time(&self) -> Duration {
        self.notice_rest()
            .saturating_mul(TYPING_RESTS)
            .max(Duration::from_micros(LEAST_TYPING_MICROSECONDS))
    }

    /// Returns whether a reader thread lets the other threads run before it reads. With few sessions the next line has
    /// often come by then, and the thread need not sleep. With many the thread would wait for too many others.
    pub fn gives_way(&self) -> bool {
        self.session_count() <= MOST_GIVING_WAY
    }

    /// Counts a session that became a player's.
    pub fn count_player(&self) {
        self.players.fetch_add(1, Ordering::SeqCst);
    }

    /// Returns the number of sessions that became a player's, modulo 4,294,967,296.
    pub fn player_count(&self) -> u32 {
        self.players.load(Ordering::SeqCst)
    }

    /// Makes all sessions end, because the server is shutting down.
    pub fn stop_sessions(&self) {
        self.is_stopping.store(true, Ordering::SeqCst);
    }

    /// Logs a warning, once in each hall, if the history has at least nine tenths of the changes that it can hold.
    pub fn warn_if_nearly_full<R: Log>(&self, rt: &R, changes: usize) {
        let most = self.limits.capacity as usize;
        if changes < most - most / 10 || self.was_warned.swap(true, Ordering::SeqCst) {
            return;
        }
        warn!(rt; "nearly-full changes={changes} most={most}");
    }

    /// Makes all sessions rest, because the server turns to its next volume.
    pub fn turn(&self) {
        self.is_turning.store(true, Ordering::SeqCst);
    }

    /// Returns whether all sessions should rest.
    pub fn is_turning(&self) -> bool {
        self.is_turning.load(Ordering::SeqCst)
    }

    /// Sets the number of changes from which a line waits for the turn.
    pub fn hold_from(&self, changes: u64) {
        self.held_from.store(changes, Ordering::SeqCst);
    }

    /// Returns whether a line has to wait, because the server has to turn first.
    pub fn is_held(&self) -> bool {
        self.held_from.load(Ordering::SeqCst) <= self.control().tally.changes()
    }

    /// Counts one more session that rests.
    pub fn count_resting(&self) {
        self.resting.fetch_add(1, Ordering::SeqCst);
    }

    /// Returns whether as many sessions rest as have a place. A session that ends gives up its place, and once the
    /// server turns none takes one. So in the end all rest.
    pub fn all_rest(&self) -> bool {
        self.taken.load(Ordering::SeqCst) <= self.resting.load(Ordering::SeqCst)
    }

    /// Sets the number of sessions that became a player's, in earlier volumes.
    pub fn set_player_count(&self, count: u32) {
        self.players.store(count, Ordering::SeqCst);
    }

    // Returns whether all sessions should end, because the server is shutting down.
    fn is_stopping(&self) -> bool {
        self.is_stopping.load(Ordering::SeqCst)
    }

    // Wakes the notice threads of all sessions but the one at this place, which made a change at the time `now`.
    fn wake_hearers<R: Wait>(&self, rt: &R, at: usize, now: Duration) {
        self.control()
            .roster
            .wake_hearers(rt, Some(at), now, self.typing_time());
    }

    // Tells the host that the journal has failed, and wakes all notice threads.
    fn tell_failure<R: Wait>(&self, rt: &R) {
        self.control().tally.note_failure();
        self.control().roster.wake_all(rt);
    }

    // Returns the lobby.
    fn into_lobby(self) -> Lobby {
        let Shared { lobby, .. } = self;
        lobby
    }
}

impl<J: HallName, G: Commits<J>> Shares for ServerState<Hall<J>, Places<J>, G> {
    fn shared(&self) -> &Shared {
        &self.shared
    }

    fn control(&self) -> &Control {
        self.shared.control()
    }

    fn loaded_count(&self) -> u32 {
        self.hall.loaded_count()
    }

    fn lacks_journal(&self) -> bool {
        self.gate.is_open()
    }

    fn has_failed(&self) -> bool {
        self.gate.has_failed()
    }

    fn ending(&self) -> Option<Ending> {
        if self.gate.has_failed() {
            Some(Ending::JournalFault)
        } else if self.shared.is_stopping() {
            Some(Ending::Stop)
        } else {
            None
        }
    }

    fn take_place<R: Wait>(&self, rt: &R, address: IpAddr) -> Result<usize, NoPlace> {
        let address = host_of(address);
        let Some(at) = self.take_free(rt, address) else {
            return Err(NoPlace::Full);
        };
        let most = self.shared.limits.per_address;
        if 0 < most && most < self.places.sessions_of(rt, address) {
            self.release_place(rt, at);
            return Err(NoPlace::TooMany);
        }
        Ok(at)
    }

    fn take_free<R: Wait>(&self, rt: &R, address: IpAddr) -> Option<usize> {
        let at = self.places.take_free(rt, address)?;
        self.shared.taken.fetch_add(1, Ordering::SeqCst);
        Some(at)
    }

    fn is_empty<R: Wait>(&self, rt: &R) -> bool {
        self.places.are_free(rt)
    }

    fn announce_change<R: Wait>(&self, rt: &R, at: usize, version: usize, now: Duration) {
        if self.commit(rt, version).is_none() {
            return;
        }
        if !self.gate.is_open() {
            self.note_synced();
        }
        self.shared.wake_hearers(rt, at, now);
    }

    fn release_place<R: Wait>(&self, rt: &R, at: usize) {
        self.shared.control().roster.leave(rt, at);
        if self.places.release(rt, at) {
            self.shared.taken.fetch_sub(1, Ordering::SeqCst);
        }
    }
}

impl<J: HallName, G: Commits<J>> Reads<Reader<J>> for ServerState<Hall<J>, Places<J>, G> {
    fn reader<R: Wait>(&self, rt: &R) -> Option<Reader<J>> {
        self.hall.reader(rt).ok()
    }

    fn read(&self, alloc: Global, reader: &mut Reader<J>, most: u32) -> Option<Vec<Entry>> {
        reader.read(alloc, &self.hall, most).ok()
    }
}

impl<J: HallName> Places<J> {
    // Takes the free place with the lowest number for a session of this address.
    fn take_free<R: Wait>(&self, rt: &R, address: IpAddr) -> Option<usize> {
        for (at, place) in self.list.iter().enumerate() {
            let mut place = place.lock(rt);
            if place.address().is_none() {
                place.take(address);
                return Some(at);
            }
        }
        None
    }

    // Returns the number of sessions of this address.
    fn sessions_of<R: Wait>(&self, rt: &R, address: IpAddr) -> u32 {
        let mut count = 0u32;
        for place in &self.list {
            if place.lock(rt).address() == Some(address) {
                count = count.saturating_add(1);
            }
        }
        count
    }

    // Returns whether no place is taken.
    fn are_free<R: Wait>(&self, rt: &R) -> bool {
        for place in &self.list {
            if place.lock(rt).address().is_some() {
                return false;
            }
        }
        true
    }

    // Releases a place, if there is one with this number. A stored desk stays.
    fn release<R: Wait>(&self, rt: &R, at: usize) -> bool {
        match self.list.get(at) {
            Some(place) => {
                place.lock(rt).release();
                true
            }
            None => false,
        }
    }

    // Takes the free desk with the lowest number, if there is one. A desk stored at this place moves to the place of
    // that desk, so a place whose session has a desk stores none.
    fn take_lowest<R: Wait>(&self, rt: &R, at: usize) -> Option<Desk<J>> {
        let lowest = self.place_of_lowest(rt)?;
        let desk = self.take_kept(rt, lowest);
        if lowest != at
            && let Some(own) = self.take_kept(rt, at)
        {
            self.keep_desk(rt, lowest, own);
        }
        desk
    }

    // Returns the place that stores the free desk with the lowest number, if there is one.
    fn place_of_lowest<R: Wait>(&self, rt: &R) -> Option<usize> {
        let mut found = None;
        let mut least = u32::MAX;
        for (at, place) in self.list.iter().enumerate() {
            if let Some(number) = place.lock(rt).desk_number()
                && number < least
            {
                found = Some(at);
                least = number;
            }
        }
        found
    }

    // Takes the desk stored at a place.
    fn take_kept<R: Wait>(&self, rt: &R, at: usize) -> Option<Desk<J>> {
        self.list.get(at)?.lock(rt).take_desk()
    }

    // Stores a desk at a place.
    fn keep_desk<R: Wait>(&self, rt: &R, at: usize, desk: Desk<J>) {
        if let Some(place) = self.list.get(at) {
            place.lock(rt).keep(desk);
        }
    }

    // Returns the stored desks.
    fn into_desks(self, alloc: Global) -> Result<Vec<Desk<J>>, AllocError>
        ensures { IfOk result (λ desks. length desks.items ≤ length self.list.items) }
    {
        let mut desks = Vec::new(alloc);
        for place in self.list {
            if let Some(desk) = place.into_inner().into_desk() {
                desks.push(desk)?;
            }
        }
        Ok(desks)
    }
}

impl<J: HallName, G: Commits<J>> ServerState<Hall<J>, Places<J>, G> {
    /// Returns the state of a new server, with as many free places as there may be sessions.
    pub fn new(
        alloc: Global,
        hall: Hall<J>,
        limits: Limits,
        gate: G,
        lobby: Lobby,
        control: Arc<Control>,
    ) -> Result<ServerState<Hall<J>, Places<J>, G>, AllocError>
        requires { limits.workers ≤ MOST_WORKERS }
        ensures { IfOk result (λ state. length state.places.list.items ≡ limits.sessions) }
    {
        Ok(ServerState {
            hall,
            places: free_places(alloc, limits.sessions)?,
            gate,
            shared: Shared::new(limits, lobby, control),
            choosing: Mutex::new(()),
        })
    }

    /// Records for the host how many entries the journal has synced.
    pub fn note_synced(&self) {
        let synced = self.gate.synced_count() as u64;
        self.shared.control().tally.note_synced(synced);
    }

    /// Records for the host which volume the server continues or begins, and logs a warning if the history is nearly
    /// full.
    pub fn begin<R: Wait + Log>(&self, rt: &R, volume: u32) {
        let loaded = self.hall.loaded_count();
        self.shared
            .control()
            .tally
            .begin_volume(volume, u64::from(loaded));
        if !self.gate.is_open() {
            self.note_synced();
        }
        self.shared.warn_if_nearly_full(rt, loaded as usize);
    }

    /// Takes the free desk with the lowest number for the session at a place, or a new one if none is free.
    pub fn take_desk<R: Wait>(&self, rt: &R, at: usize) -> Result<Desk<J>, Fault> {
        let _choice = self.choosing.lock(rt);
        match self.places.take_lowest(rt, at) {
            Some(desk) => Ok(desk),
            None => self.hall.desk(rt),
        }
    }

    /// Makes this many entries of the hall durable, or waits until another thread has done so. Returns no receipt if
    /// the journal fails before that: then it tells the host, and wakes all notice threads, so that all sessions end.
    /// The receipt is free only if there is no journal.
    pub fn commit<R: Wait>(&self, rt: &R, version: usize) -> Option<Receipt<J>>
        ensures up_to { IfSome result (λ r. version ≤ r.up_to) }
        ensures of_journal { G.lacks_journal self.now.gate ≡ false → IfSome result (λ r. r.is_free ≡ false) }
    {
        let receipt = self.gate.commit(rt, &self.hall, version);
        if receipt.is_none() {
            self.shared.tell_failure(rt);
        }
        receipt
    }

    /// Stores the desk of a session that has ended, for another session.
    pub fn keep_desk<R: Wait>(&self, rt: &R, at: usize, desk: Desk<J>) {
        self.places.keep_desk(rt, at, desk);
    }

    /// Returns the hall, the stored desks, the lobby, and the gate.
    pub fn into_parts(self, alloc: Global) -> Result<(Hall<J>, Vec<Desk<J>>, Lobby, G), AllocError>
        ensures { IfOk result (λ parts. length parts.1.items ≤ length self.places.list.items) }
    {
        let ServerState {
            hall,
            places,
            gate,
            shared,
            choosing: _,
        } = self;
        let desks = places.into_desks(alloc)?;
        Ok((hall, desks, shared.into_lobby(), gate))
    }
}
