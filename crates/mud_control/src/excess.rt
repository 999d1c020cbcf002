//! The rate limit of changes beyond the limits of their sessions.

use crate::rates::Rates;
use mud_meter::Debt;
use std::sync::{Mutex, Wait};
use std::time::Duration;

/// The rate limit of all sessions together for changes that had to wait for a limit. However many clients send without
/// end, and from however many addresses, they make few of a busy world's changes.
#[derive(Drop)]
pub struct Excess {
    changes: Mutex<Debt>,
}

impl Excess {
    /// Returns the limit of a server that starts.
    pub fn new(rates: &Rates) -> Excess {
        let rate = rates.excess_changes_per_minute;
        Excess {
            changes: Mutex::new(Debt::new(rate, rate, Duration::ZERO)),
        }
    }

    /// Returns the time to wait if no such change may be made now; then the caller tries again.
    pub(crate) fn wait<R: Wait>(&self, rt: &R, now: Duration) -> Option<Duration> {
        self.changes.lock(rt).wait(now)
    }

    /// Counts such a change.
    pub(crate) fn spend<R: Wait>(&self, rt: &R) {
        self.changes.lock(rt).owe(1);
    }
}
