//! The time limits of a session.

ghost use Rattle.std.specs.Prelude.{◌≡◌, ◌≢◌, false, Some, None, min, option_map, IfOk, IfErr};
ghost use Rattle.std.specs.Result.{result_map_both};
ghost use Rattle.std.specs.Duration.{as_nanos};
ghost use Rattle.mud_socket.specs.Patience.{limit_of, left_of, shorter_of, wait_of};

use crate::parting::Parting;
use std::marker::Model;
use std::time::Duration;

/// The time limits of a session: for a line, and for its player, each with the time at which it began.
#[derive(Drop)]
pub struct Patience {
    idle: Option<Duration>,
    unnamed: Option<Duration>,
    is_limited: bool,
    last_line: Duration,
    start: Duration,
}

impl Model for Patience {
    ghost use Rattle.std.specs.Prelude.{◌≡◌, false, None, option_map};
    ghost use Rattle.std.specs.Duration.{as_nanos};
    ghost use Rattle.mud_socket.specs.Patience.{Waiting};

    ghost Value = { Waiting };

    ghost view = { λ p. record {
      idle = option_map as_nanos p.idle;
      unnamed = option_map as_nanos p.unnamed;
      last_line = as_nanos p.last_line;
      start = as_nanos p.start;
    } };

    ghost invariant = { λ p. p.is_limited ≡ false → (p.idle ≡ None) × (p.unnamed ≡ None) };
}

// Returns a limit of this many seconds; 0 means no limit.
fn limit(seconds: u32) -> Option<Duration>
    ensures { option_map as_nanos result ≡ limit_of seconds }
{
    match seconds {
        0 => None,
        seconds => Some(Duration::from_secs(u64::from(seconds))),
    }
}

// Returns the shorter of two waits; each may be endless.
fn shorter(one: Option<Duration>, other: Option<Duration>) -> Option<Duration>
    ensures { option_map as_nanos result ≡ shorter_of (option_map as_nanos one) (option_map as_nanos other) }
{
    match (one, other) {
        (Some(one), Some(other)) => Some(sooner(one, other)),
        (None, other) => other,
        (one, None) => one,
    }
}

// Returns the shorter of two times.
fn sooner(one: Duration, other: Duration) -> Duration
    ensures { as_nanos result ≡ min (as_nanos one) (as_nanos other) }
{
    if other.as_nanos() < one.as_nanos() {
        other
    } else {
        one
    }
}

impl Patience {
    /// Returns the limits of a session that begins now and has no player. It ends after `idle` seconds without a line,
    /// and after `unnamed` seconds without a player; 0 means no limit.
    pub fn new(idle: u32, unnamed: u32, now: Duration) -> Patience
        ensures { result ≡ record {
          idle = limit_of idle;
          unnamed = limit_of unnamed;
          last_line = as_nanos now;
          start = as_nanos now;
        } }
    {
        Patience {
            idle: limit(idle),
            unnamed: limit(unnamed),
            is_limited: 0 < idle || 0 < unnamed,
            last_line: now,
            start: now,
        }
    }

    /// Records that a line came now.
    pub fn hear(&mut self, now: Duration)
        ensures { self.new ≡ record self.old { last_line = as_nanos now } }
    {
        self.last_line = now;
    }

    /// Returns the time of the last line, or of the start if there was none.
    pub fn last_line(&self) -> Duration
        ensures { as_nanos result ≡ self.now.last_line }
    {
        self.last_line
    }

    /// Returns whether there was a limit at the start.
    pub fn is_limited(&self) -> bool
        ensures { result ≡ false → (self.now.idle ≡ None) × (self.now.unnamed ≡ None) }
    {
        self.is_limited
    }

    /// Records that the session has a player from now on.
    pub fn name(&mut self)
        ensures { self.new ≡ record self.old { unnamed = None } }
    {
        self.unnamed = None;
    }

    /// Returns how long the next read may wait, `None` for no limit. The error is the reason why the session ends now.
    #[tactic(auto, using(crate::proofs::Waits::silent, crate::proofs::Waits::late, crate::proofs::Waits::goes))]
    pub fn wait(&self, now: Duration) -> Result<Option<Duration>, Parting>
        ensures { result_map_both (option_map as_nanos) (λ p. p) result ≡ wait_of self.now (as_nanos now) }
    {
        let idle = time_left(self.idle, self.last_line, now, Parting::Idle)?;
        let unnamed = time_left(self.unnamed, self.start, now, Parting::Unnamed)?;
        Ok(shorter(idle, unnamed))
    }
}

// Returns the time left of a limit that began at a time. No time left ends the session.
fn time_left(
    limit: Option<Duration>,
    since: Duration,
    now: Duration,
    parting: Parting,
) -> Result<Option<Duration>, Parting>
    ensures ok { IfOk result (λ wait. (option_map as_nanos wait
        ≡ left_of (option_map as_nanos limit) (as_nanos since) (as_nanos now)) × (option_map as_nanos wait ≢ Some 0)) }
    ensures err { IfErr result (λ p. (p ≡ parting)
        × (left_of (option_map as_nanos limit) (as_nanos since) (as_nanos now) ≡ Some 0)) }
{
    let Some(limit) = limit else {
        return Ok(None);
    };
    let left = limit.saturating_sub(now.saturating_sub(since));
    if left.is_zero() {
        Err(parting)
    } else {
        Ok(Some(left))
    }
}
