//! The countdown to an announced stop.

ghost use Rattle.std.specs.Prelude.{◌≡◌, ◌+◌};
ghost use Rattle.std.specs.Duration.{as_nanos};
ghost use Rattle.mud_console.specs.Countdown.{nanos, mark_of, due_of, after_due};

use std::marker::Model;
use std::time::Duration;

// The number of nanoseconds in a second.
const NANOS: u128 = 1_000_000_000;

/// The action that a countdown asks for.
#[derive(Clone, Copy, Debug, PartialEq, Eq)]
pub enum Due {
    /// No action now.
    Nothing,
    /// Announce that this many seconds are left.
    Tell(u32),
    /// Stop the server.
    Stop,
}

/// A countdown: the time of the stop, and the number of seconds in the latest announcement. All times come from one
/// clock.
#[derive(Drop)]
pub struct Countdown {
    end_nanos: u128,
    told: u32,
}

impl Model for Countdown {
    ghost use Rattle.mud_console.specs.Countdown.{Counting};

    ghost Value = { Counting };

    ghost view = { λ c. record { end = c.end_nanos; told = c.told } };
}

// Returns a number of seconds in nanoseconds.
fn nanos(seconds: u32) -> u128
    ensures { result ≡ nanos seconds }
{
    u128::from(seconds) * NANOS
}

// Returns the mark that was passed last if this many nanoseconds are left.
fn mark_of(left: u128) -> Option<u32>
    ensures { result ≡ mark_of left }
{
    if left <= nanos(10) {
        Some(10)
    } else if left <= nanos(60) {
        Some(60)
    } else if left <= nanos(300) {
        Some(300)
    } else {
        None
    }
}

impl Countdown {
    /// Returns a countdown of this many seconds, which the caller announces now.
    pub fn new(now: Duration, seconds: u32) -> Countdown
        ensures { result ≡ record { end = as_nanos now + nanos seconds; told = seconds } }
    {
        Countdown {
            end_nanos: now.as_nanos() + nanos(seconds),
            told: seconds,
        }
    }

    /// Returns the action that is due now. Each mark is announced at most once, and a mark that was passed together
    /// with a later one is left out.
    pub fn due(&mut self, now: Duration) -> Due
        ensures due { result ≡ due_of self.old (as_nanos now) }
        ensures after { self.new ≡ after_due self.old (as_nanos now) }
    {
        let now = now.as_nanos();
        if self.end_nanos <= now {
            return Due::Stop;
        }
        match mark_of(self.end_nanos - now) {
            Some(mark) if mark < self.told => {
                self.told = mark;
                Due::Tell(mark)
            }
            _ => Due::Nothing,
        }
    }
}
