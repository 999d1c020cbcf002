//! The counts of a server.

ghost use Rattle.std.specs.Prelude.{◌≡◌};
ghost use Rattle.mud_control.specs.Refusals.{refusal_word};

use std::sync::atomic::{AtomicBool, AtomicU64, Ordering};
use std::time::Duration;

/// The reason why a connection is refused.
#[derive(Clone, Copy, Debug, PartialEq, Eq)]
pub enum Refusal {
    /// There is no free place.
    Full,
    /// Its address has reached its limit of sessions.
    Address,
    /// Its address is banned.
    Banned,
    /// Its address connects too often.
    Often,
    /// It sent a browser's request to the Telnet port.
    Request,
}

impl Refusal {
    /// Returns its word in the log.
    pub fn word(self) -> &'static str
        ensures { result.now ≡ refusal_word self }
    {
        match self {
            Refusal::Full => "full",
            Refusal::Address => "address",
            Refusal::Banned => "banned",
            Refusal::Often => "often",
            Refusal::Request => "request",
        }
    }
}

// The number of objects in a new world: the hall and the Wizard (docs/WORLD.md).
const FIRST_OBJECTS: u64 = 2;

/// The counts of a server since its start. Each count is read by itself, so two counts that belong together may be a
/// moment apart.
#[derive(Drop)]
pub struct Tally {
    begun: AtomicU64,
    full: AtomicU64,
    address: AtomicU64,
    banned: AtomicU64,
    often: AtomicU64,
    request: AtomicU64,
    lines: AtomicU64,
    made: AtomicU64,
    waited: AtomicU64,
    changes: AtomicU64,
    synced: AtomicU64,
    objects: AtomicU64,
    volume: AtomicU64,
    // The number of changes that the world takes by itself, if it takes most of a volume; otherwise 0.
    taken: AtomicU64,
    turns: AtomicU64,
    calls_off: AtomicU64,
    // The milliseconds of the last turn's pause.
    pause: AtomicU64,
    has_failed: AtomicBool,
    // The second in which the log last named a refused connection, plus one; 0 means never.
    logged: AtomicU64,
}

impl Tally {
    /// Returns the counts of a server that starts, with a new world.
    pub fn new() -> Tally {
        Tally {
            begun: AtomicU64::new(0),
            full: AtomicU64::new(0),
            address: AtomicU64::new(0),
            banned: AtomicU64::new(0),
            often: AtomicU64::new(0),
            request: AtomicU64::new(0),
            lines: AtomicU64::new(0),
            made: AtomicU64::new(0),
            waited: AtomicU64::new(0),
            changes: AtomicU64::new(0),
            synced: AtomicU64::new(0),
            objects: AtomicU64::new(FIRST_OBJECTS),
            volume: AtomicU64::new(1),
            taken: AtomicU64::new(0),
            turns: AtomicU64::new(0),
            calls_off: AtomicU64::new(0),
            pause: AtomicU64::new(0),
            has_failed: AtomicBool::new(false),
            logged: AtomicU64::new(0),
        }
    }

    // Returns the count of refusals for this reason.
    fn refusals(&self, refusal: Refusal) -> &AtomicU64 {
        match refusal {
            Refusal::Full => &self.full,
            Refusal::Address => &self.address,
            Refusal::Banned => &self.banned,
            Refusal::Often => &self.often,
            Refusal::Request => &self.request,
        }
    }

    /// Counts a session that began.
    pub fn count_session(&self) {
        self.begun.fetch_add(1, Ordering::Relaxed);
    }

    /// Counts a refused connection. Returns the new count for this reason.
    pub fn count_refusal(&self, refusal: Refusal) -> u64 {
        self.refusals(refusal)
            .fetch_add(1, Ordering::Relaxed)
            .saturating_add(1)
    }

    /// Returns whether the log may name a refused connection now: at most once in each second.
    pub fn may_log(&self, now: Duration) -> bool {
        let second = now.as_secs().saturating_add(1);
        self.logged.swap(second, Ordering::Relaxed) != second
    }

    /// Counts an answered line.
    pub fn count_line(&self) {
        self.lines.fetch_add(1, Ordering::Relaxed);
    }

    /// Counts a line that had to wait.
    pub fn count_wait(&self) {
        self.waited.fetch_add(1, Ordering::Relaxed);
    }

    /// Counts a change. After it the history has at least this many.
    pub fn count_change(&self, changes: u64) {
        self.made.fetch_add(1, Ordering::Relaxed);
        self.note_changes(changes);
    }

    /// Records that the volume with this number goes on, or begins, with this many changes. Its journal has noted no
    /// sync yet.
    pub fn begin_volume(&self, volume: u32, changes: u64) {
        self.volume.store(u64::from(volume), Ordering::Relaxed);
        self.changes.store(changes, Ordering::Relaxed);
        self.synced.store(0, Ordering::Relaxed);
    }

    /// Counts a turn to the next volume, with its pause.
    pub fn count_turn(&self, pause: Duration) {
        let millis = u64::try_from(pause.as_millis()).unwrap_or(u64::MAX);
        self.pause.store(millis, Ordering::Relaxed);
        self.taken.store(0, Ordering::Relaxed);
        self.turns.fetch_add(1, Ordering::Relaxed);
    }

    /// Counts a turn that was called off.
    pub fn count_call_off(&self) {
        self.calls_off.fetch_add(1, Ordering::Relaxed);
    }

    /// Records that the world takes this many changes of a volume by itself. Returns whether that was recorded already.
    pub fn note_large_world(&self, changes: u64) -> bool {
        self.taken.swap(changes, Ordering::Relaxed) != 0
    }

    // Records that the history has at least this many changes.
    fn note_changes(&self, changes: u64) {
        self.changes.fetch_max(changes, Ordering::Relaxed);
    }

    /// Counts this many new objects of the world.
    pub fn count_objects(&self, new: u64) {
        self.objects.fetch_add(new, Ordering::Relaxed);
    }

    /// Records that the volume's journal has synced at least this many changes.
    pub fn note_synced(&self, changes: u64) {
        self.synced.fetch_max(changes, Ordering::Relaxed);
    }

    /// Records that the journal has failed.
    pub fn note_failure(&self) {
        self.has_failed.store(true, Ordering::SeqCst);
    }

    /// Returns the number of sessions that have begun.
    pub fn begun(&self) -> u64 {
        self.begun.load(Ordering::Relaxed)
    }

    /// Returns the number of connections that were refused for this reason.
    pub fn refused(&self, refusal: Refusal) -> u64 {
        self.refusals(refusal).load(Ordering::Relaxed)
    }

    /// Returns the number of answered lines.
    pub fn lines(&self) -> u64 {
        self.lines.load(Ordering::Relaxed)
    }

    /// Returns the number of changes made since the start.
    pub fn made(&self) -> u64 {
        self.made.load(Ordering::Relaxed)
    }

    /// Returns the number of lines that had to wait.
    pub fn waited(&self) -> u64 {
        self.waited.load(Ordering::Relaxed)
    }

    /// Returns the number of changes in the history.
    pub fn changes(&self) -> u64 {
        self.changes.load(Ordering::Relaxed)
    }

    /// Returns the number of changes that the journal has synced.
    pub fn synced(&self) -> u64 {
        self.synced.load(Ordering::Relaxed)
    }

    /// Returns the number of objects in the world.
    pub fn objects(&self) -> u64 {
        self.objects.load(Ordering::Relaxed)
    }

    /// Returns the number of the volume.
    pub fn volume(&self) -> u64 {
        self.volume.load(Ordering::Relaxed)
    }

    /// Returns the number of changes that the world takes by itself, if it takes most of a volume; otherwise 0.
    pub fn taken(&self) -> u64 {
        self.taken.load(Ordering::Relaxed)
    }

    /// Returns the number of turns.
    pub fn turns(&self) -> u64 {
        self.turns.load(Ordering::Relaxed)
    }

    /// Returns the number of turns that were called off.
    pub fn calls_off(&self) -> u64 {
        self.calls_off.load(Ordering::Relaxed)
    }

    /// Returns the milliseconds of the last turn's pause.
    pub fn pause_millis(&self) -> u64 {
        self.pause.load(Ordering::Relaxed)
    }

    /// Returns whether the journal has failed.
    pub fn has_failed(&self) -> bool {
        self.has_failed.load(Ordering::SeqCst)
    }
}
