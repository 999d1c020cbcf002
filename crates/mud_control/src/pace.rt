//! Rate limits of sessions.

use crate::address::AddressMeters;
use crate::excess::Excess;
use crate::rates::{CHANGES_AT_ONCE, LINES_AT_ONCE, MINUTE, Rates, WORK_AT_ONCE};
use mud_meter::{Debt, Meter};
use std::sync::{Arc, Wait};
use std::time::Duration;

// The number of seconds for which a session is beyond its limits after it had to wait for a change. So a question
// between two changes makes no difference, and a player who pauses gets the whole limit back.
const BEYOND_SECONDS: u64 = 10;

// Returns the time until which a session that has to wait now is beyond its limits.
fn beyond_from(now: Duration) -> Duration {
    now.saturating_add(Duration::from_secs(BEYOND_SECONDS))
}

/// The rate limits of a session. The server reads the lines beyond them later.
#[derive(Drop)]
pub struct Pace {
    lines: Meter,
    changes: Meter,
    // In milliseconds.
    work: Debt,
    shared: Option<Arc<AddressMeters>>,
    // Until then the session is beyond its limits: it had to wait for a change a moment ago.
    beyond_until: Duration,
    // Until then a change leaves no token: the session had to wait for the excess a moment ago.
    drains_until: Duration,
    // True if the session's own token for the next line was taken already, and that of its address.
    has_token: bool,
    has_shared: bool,
}

impl Pace {
    /// Returns the limits of a session that begins now, with the meters that it shares with others of its address.
    pub fn new(rates: &Rates, shared: Option<Arc<AddressMeters>>, now: Duration) -> Pace {
        let (lines, changes, work) = (
            rates.lines_per_second,
            rates.changes_per_minute,
            rates.work_per_second,
        );
        Pace {
            lines: Meter::new(
                lines.saturating_mul(MINUTE),
                lines.saturating_mul(LINES_AT_ONCE),
                now,
            ),
            changes: Meter::new(changes, changes.saturating_mul(CHANGES_AT_ONCE), now),
            work: Debt::new(
                work.saturating_mul(MINUTE),
                work.saturating_mul(WORK_AT_ONCE),
                now,
            ),
            shared,
            beyond_until: Duration::ZERO,
            drains_until: Duration::ZERO,
            has_token: false,
            has_shared: false,
        }
    }

    /// Returns true if the session shares meters with others of its address.
    pub fn is_shared(&self) -> bool {
        self.shared.is_some()
    }

    // Returns the time to wait for a change, if a token of the session or of its address is missing. A session that is
    // beyond its limits waits for the excess of all sessions as well.
    fn wait_for_change<R: Wait>(
        &mut self,
        rt: &R,
        excess: &Excess,
        now: Duration,
    ) -> Option<Duration> {
        if let Some(wait) = self.changes.wait(now) {
            return Some(wait);
        }
        if let Some(shared) = &self.shared
            && let Some(wait) = shared.wait_for_change(rt, now)
        {
            return Some(wait);
        }
        if now >= self.beyond_until {
            return None;
        }
        let wait = excess.wait(rt, now);
        if wait.is_some() {
            self.drains_until = beyond_from(now);
        }
        wait
    }

    // Takes a token of the session. Returns the time to wait if the session has no token.
    fn wait_for_own(&mut self, now: Duration) -> Option<Duration> {
        if let Some(wait) = self.work.wait(now) {
            return Some(wait);
        }
        if self.has_token {
            return None;
        }
        let wait = self.lines.take(now, 1);
        self.has_token = wait.is_none();
        wait
    }

    /// Takes the tokens for the next line. Returns the time to wait if one is missing; then the caller tries again.
    pub fn take_line<R: Wait>(
        &mut self,
        rt: &R,
        excess: &Excess,
        now: Duration,
    ) -> Option<Duration> {
        if let Some(wait) = self.wait_for_change(rt, excess, now) {
            self.beyond_until = beyond_from(now);
            return Some(wait);
        }
        if let Some(wait) = self.wait_for_own(now) {
            return Some(wait);
        }
        if !self.has_shared
            && let Some(shared) = &self.shared
            && let Some(wait) = shared.take_line(rt, now)
        {
            return Some(wait);
        }
        self.has_token = false;
        self.has_shared = false;
        None
    }

    /// Keeps the tokens of a line that needed none for the next line.
    pub fn give_back(&mut self) {
        self.has_token = true;
        self.has_shared = true;
    }

    // Counts a change that was made. One beyond the limits counts for the excess of all sessions. Where the session had
    // to wait for the excess, the change leaves no token, so the session gains nothing while it waits.
    fn spend_change<R: Wait>(&mut self, rt: &R, excess: &Excess, now: Duration) {
        let is_drained = now < self.drains_until;
        self.changes.spend(now, 1);
        if is_drained {
            self.changes.drain(now);
        }
        if now < self.beyond_until {
            excess.spend(rt);
        }
        if let Some(shared) = &self.shared {
            shared.spend_change(rt, now, is_drained);
        }
    }

    /// Counts an answered line: the time that it took, and whether it made a change.
    pub fn spend<R: Wait>(
        &mut self,
        rt: &R,
        excess: &Excess,
        now: Duration,
        work: Duration,
        has_changed: bool,
    ) {
        let millis = u32::try_from(work.as_millis()).unwrap_or(u32::MAX);
        self.work.owe(millis);
        if has_changed {
            self.spend_change(rt, excess, now);
        }
    }
}
