//! Announcements of the host to all players.

use std::alloc::Global;
use std::collections::VecDeque;
use std::sync::atomic::{AtomicU64, Ordering};
use std::sync::{Mutex, Wait};

// The number of announcements that are kept for busy sessions.
const MOST_KEPT: usize = 64;

/// The latest announcements, and the number of those before them.
#[derive(Drop)]
struct Kept {
    lines: VecDeque<String>,
    before: u64,
}

/// Announcements to all players: whole lines, numbered from 0. A session sends each once. A busy session sends those
/// that it missed later, if they are still kept.
#[derive(Drop)]
pub struct News {
    kept: Mutex<Kept>,
    count: AtomicU64,
}

impl News {
    /// Returns a list without announcements.
    pub fn new(alloc: Global) -> News {
        News {
            kept: Mutex::new(Kept {
                lines: VecDeque::new(alloc),
                before: 0,
            }),
            count: AtomicU64::new(0),
        }
    }

    /// Returns the number of announcements so far.
    pub fn count(&self) -> u64 {
        self.count.load(Ordering::SeqCst)
    }

    /// Adds an announcement. Returns false if an allocation failed.
    pub fn post<R: Wait>(&self, rt: &R, line: String) -> bool {
        let mut kept = self.kept.lock(rt);
        if kept.lines.push_back(line).is_err() {
            return false;
        }
        if kept.lines.len() > MOST_KEPT {
            let _ = kept.lines.pop_front();
            kept.before = kept.before.saturating_add(1);
        }
        self.count.fetch_add(1, Ordering::SeqCst);
        true
    }

    /// Returns the next announcement after the first `told` ones, and the number of announcements up to it.
    /// Announcements that are not kept are skipped. Returns `None` if there is no next one, or an allocation fails.
    pub fn after<R: Wait>(&self, rt: &R, told: u64) -> Option<(String, u64)> {
        let kept = self.kept.lock(rt);
        let at = told.max(kept.before);
        let place = usize::try_from(at.saturating_sub(kept.before)).ok()?;
        let line = kept.lines.get(place)?;
        Some((line.clone().ok()?, at.saturating_add(1)))
    }
}
