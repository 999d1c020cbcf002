//! The plan for the turn of a volume, and the search for a shorter history, which runs beside play.

use crate::marks::{Fill, Progress, Step, last_mark, retry_step};
use crate::proposal::{Proposal, copies};
use log::{Log, warn};
use mud_chron::Entry;
use mud_compact::shorten;
use mud_control::Tally;
use mud_server_state::{Reads, Shares};
use std::alloc::{AllocError, Global};
use std::sync::{Mutex, Wait};

/// The result of a search.
#[derive(Drop)]
enum Searched {
    Idle,
    Runs,
    Found(Proposal),
}

/// The plan for a turn, under a lock: the search, and the number of changes below which the server does not turn by
/// itself. The flags are true if the host requested the next volume, and if the world takes most of a volume by itself.
#[derive(Drop)]
struct Plan {
    searched: Searched,
    least: usize,
    is_requested: bool,
    is_large: bool,
}

/// The turn of a volume: its number, the entries that it began with, and its plan; `None` if the server never turns.
#[derive(Drop)]
pub struct Turning {
    volume: u32,
    loaded: Vec<Entry>,
    plan: Option<Mutex<Plan>>,
}

impl Plan {
    // Returns how far the search is, in a history with this many changes.
    fn progress(&self, changes: usize) -> Progress {
        match &self.searched {
            Searched::Idle => Progress::Idle,
            Searched::Runs => Progress::Runs,
            Searched::Found(found) => {
                let more = changes.saturating_sub(found.up_to);
                Progress::Found(found.entries.len().saturating_add(more))
            }
        }
    }

    // Returns the number of changes from which lines wait for the turn. In a large world they never do.
    fn held_from(&self, capacity: usize) -> u64 {
        if self.is_large {
            return u64::MAX;
        }
        last_mark(capacity).max(self.least) as u64
    }

    // Drops what the search found, and searches again only after some more changes. Returns the number of changes that
    // the world takes by itself.
    fn drop_found(&mut self, capacity: usize) -> usize {
        let (mut taken, mut up_to) = (0, 0);
        if let Searched::Found(found) = &self.searched {
            (taken, up_to) = (found.entries.len(), found.up_to);
        }
        self.searched = Searched::Idle;
        self.least = up_to.saturating_add(retry_step(capacity));
        self.is_requested = false;
        self.is_large = true;
        taken
    }
}

impl Turning {
    /// Returns the state of a server that never turns.
    pub fn never(alloc: Global) -> Turning {
        Turning {
            volume: 1,
            loaded: Vec::new(alloc),
            plan: None,
        }
    }

    /// Returns the state of a volume with this number, which began with these entries. It does not turn by itself below
    /// `least` changes.
    pub fn new(volume: u32, loaded: Vec<Entry>, least: usize, is_large: bool) -> Turning {
        Turning {
            volume,
            loaded,
            plan: Some(Mutex::new(Plan {
                searched: Searched::Idle,
                least,
                is_requested: false,
                is_large,
            })),
        }
    }

    /// Returns what the search proposes.
    pub fn into_proposal(self) -> Option<Proposal> {
        match self.plan?.into_inner().searched {
            Searched::Found(found) => Some(found),
            _ => None,
        }
    }

    /// Tells the sessions from when on their lines wait for the turn.
    pub fn begin<S: Shares, R: Wait>(&self, rt: &R, state: &S) {
        if let Some(plan) = &self.plan {
            let shared = state.shared();
            let from = plan.lock(rt).held_from(shared.limits.capacity as usize);
            shared.hold_from(from);
        }
    }

    /// Returns the next step about the turn. If that is to search, the caller begins [`Turning::search`] in a thread of
    /// its own, or gives it up. A history that the search found is dropped here if it is too long.
    pub fn next_step<S: Shares, R: Wait + Log>(&self, rt: &R, state: &S) -> Step {
        let Some(plan) = &self.plan else {
            return Step::Wait;
        };
        let shared = state.shared();
        let control = shared.control();
        let mut plan = plan.lock(rt);
        plan.is_requested = control.take_request() || plan.is_requested;
        let fill = Fill {
            capacity: shared.limits.capacity as usize,
            changes: control.tally.changes() as usize,
            least: plan.least,
            is_requested: plan.is_requested,
        };
        let step = fill.step(plan.progress(fill.changes), plan.is_large);
        match step {
            Step::Turn | Step::Wait => {}
            Step::Search => plan.searched = Searched::Runs,
            Step::Drop => {
                let taken = plan.drop_found(fill.capacity);
                shared.hold_from(plan.held_from(fill.capacity));
                drop(plan);
                let (tally, most) = (&control.tally, fill.capacity);
                tell_large(rt, tally, self.volume, taken, most, fill.is_requested);
            }
        }
        step
    }

    // Records what the search found. If it found nothing, because memory or a thread lacks, it is tried again later.
    fn end_search<S: Shares, R: Wait>(&self, rt: &R, state: &S, found: Option<Proposal>) {
        let Some(plan) = &self.plan else {
            return;
        };
        let mut plan = plan.lock(rt);
        match found {
            Some(found) => plan.searched = Searched::Found(found),
            None => {
                let shared = state.shared();
                let changes = shared.control().tally.changes() as usize;
                let capacity = shared.limits.capacity as usize;
                plan.searched = Searched::Idle;
                plan.is_requested = false;
                plan.least = changes.saturating_add(retry_step(capacity));
                shared.hold_from(plan.held_from(capacity));
            }
        }
    }

    /// Records that no thread for the search could be started.
    pub fn give_up<S: Shares, R: Wait>(&self, rt: &R, state: &S) {
        self.end_search(rt, state, None);
    }

    /// Searches for a shorter history of the present world, and records what it found.
    pub fn search<S: Reads<K>, K: Drop, R: Wait>(&self, rt: &R, alloc: Global, state: &S) {
        let found = match self.read::<S, K, R>(rt, alloc, state) {
            Some(entries) => propose(alloc, &entries),
            None => None,
        };
        self.end_search(rt, state, found);
    }

    // Returns the present history, or `None` if an allocation fails.
    fn read<S: Reads<K>, K: Drop, R: Wait>(
        &self,
        rt: &R,
        alloc: Global,
        state: &S,
    ) -> Option<Vec<Entry>> {
        let mut reader = state.reader(rt)?;
        let mut entries = copies(alloc, &self.loaded).ok()?;
        let more = state.read(alloc, &mut reader, state.shared().limits.capacity)?;
        for entry in more {
            entries.push(entry).ok()?;
        }
        Some(entries)
    }
}

// Returns a shorter history of the world of these entries, or `None` if an allocation fails.
fn propose(alloc: Global, entries: &[Entry]) -> Option<Proposal> {
    match shorten(alloc, entries) {
        Ok(shorter) => Some(Proposal {
            up_to: entries.len(),
            entries: shorter,
        }),
        Err(_) => None,
    }
}

/// Records that the world of a volume takes this many changes by itself, most of the volume. The log says so once until
/// the next turn, and, if a turn was due, that there is no turn.
pub fn tell_large<R: Log>(
    rt: &R,
    tally: &Tally,
    volume: u32,
    taken: usize,
    most: usize,
    is_due: bool,
) {
    if !tally.note_large_world(taken as u64) {
        warn!(rt; "large-world volume={volume} takes={taken} most={most}");
    }
    if is_due {
        warn!(rt; "no-turn volume={volume} why=\"the world takes most of a volume\"");
    }
}
