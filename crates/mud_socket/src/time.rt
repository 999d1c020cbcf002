//! The clock and the sleep of a thread.

use libc::sched_yield;
use std::sync::Wait;
use std::sync::atomic::AtomicU64;
use std::time::{Clock, Duration, SystemTime, UNIX_EPOCH};

/// Returns the time since the clock's start. A clock that can't be read stays at zero, so no limit ends.
pub fn now<C: Clock>(clock: &C) -> Duration {
    clock.monotonic().unwrap_or(Duration::ZERO)
}

/// Sleeps for this time. No other thread changes the word that it waits on.
pub fn rest<R: Wait>(rt: &R, time: Duration) {
    AtomicU64::new(0).park_timeout(rt, 0, time);
}

/// Lets the other threads run once. The system may ignore it.
pub fn give_way() {
    let _ = sched_yield();
}

/// Returns the seconds since 1970 (POSIX: seconds since the Epoch), or 0 if the clock can't be read.
pub fn unix_seconds<C: Clock>(clock: &C) -> u64 {
    match SystemTime::now(clock) {
        Ok(time) => match time.duration_since(UNIX_EPOCH) {
            Ok(since) => since.as_secs(),
            Err(_) => 0,
        },
        Err(_) => 0,
    }
}
