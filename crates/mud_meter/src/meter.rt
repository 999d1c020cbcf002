//! The token bucket.

ghost use Rattle.std.specs.Prelude.{◌≡◌, ◌*◌, max, option_map};
ghost use Rattle.std.specs.Duration.{as_nanos};
ghost use Rattle.mud_meter.specs.Bucket.{micros, in_nanos, payable, cost, refilled, wait_for, without, after_take};

use std::marker::Model;
use std::time::Duration;

/// The number of units in a token.
pub const TOKEN: u64 = 60_000_000;

/// A token bucket. It gains tokens at its rate, up to its burst.
#[derive(Debug, Drop)]
pub struct Meter {
    rate: u32,
    burst: u32,
    level: u64,
    last: u128,
}

impl Model for Meter {
    ghost use Rattle.std.specs.Prelude.{◌≤◌, ◌*◌};
    ghost use Rattle.mud_meter.specs.declared.meter.TheConstants.{TOKEN};
    ghost use Rattle.mud_meter.specs.Bucket.{Bucket};

    ghost Value = { Bucket };

    ghost view = { λ m. record {
      rate = m.rate;
      burst = m.burst;
      level = m.level;
      last = m.last;
    } };

    ghost invariant = { λ m. m.level ≤ m.burst * TOKEN };
}

impl Meter {
    /// Returns a full meter. It gains `rate_per_minute` tokens a minute, where 0 means no limit, and holds at most
    /// `burst` tokens. A burst of 0 counts as 1.
    pub fn new(rate_per_minute: u32, burst: u32, now: Duration) -> Meter
        ensures { result ≡ record {
          rate = rate_per_minute;
          burst = max burst 1;
          level = max burst 1 * TOKEN;
          last = micros now;
        } }
    {
        let burst = burst.max(1);
        Meter {
            rate: rate_per_minute,
            burst,
            level: u64::from(burst) * TOKEN,
            last: now.as_micros(),
        }
    }

    /// Takes `tokens` tokens. If there are too few, takes none and returns the time after which there will be enough.
    /// More tokens than the burst count as the burst. A time before the last one counts as the last one.
    pub fn take(&mut self, now: Duration, tokens: u32) -> Option<Duration>
        ensures wait { let asked = refilled self.old (micros now) in
            option_map as_nanos result ≡ option_map in_nanos (wait_for asked tokens) }
        ensures state { self.new ≡ after_take (refilled self.old (micros now)) tokens }
    {
        *self = self.refilled(now);
        let wait = self.wait_for(tokens);
        if wait.is_none() {
            self.remove(tokens);
        }
        wait
    }

    /// Takes `tokens` tokens after the fact, or all tokens if there are fewer.
    pub fn spend(&mut self, now: Duration, tokens: u32)
        ensures { self.new ≡ without (refilled self.old (micros now)) tokens }
    {
        *self = self.refilled(now);
        self.remove(tokens);
    }

    /// Removes all tokens.
    pub fn drain(&mut self, now: Duration)
        ensures { self.new ≡ (let asked = refilled self.old (micros now) in without asked asked.burst) }
    {
        let all = self.burst;
        self.spend(now, all);
    }

    /// Returns the time until there is a token, if there is none now.
    pub fn wait(&self, now: Duration) -> Option<Duration>
        ensures { let asked = refilled self.now (micros now) in
            option_map as_nanos result ≡ option_map in_nanos (wait_for asked 1) }
    {
        self.refilled(now).wait_for(1)
    }

    // Returns the meter with its gain since the last time.
    fn refilled(&self, now: Duration) -> Meter
        ensures { result ≡ refilled self.now (micros now) }
    {
        let now = now.as_micros();
        let gained = now.saturating_sub(self.last) * u128::from(self.rate);
        let full = u64::from(self.burst) * TOKEN;
        Meter {
            level: (u128::from(self.level) + gained).min(u128::from(full)) as u64,
            last: self.last.max(now),
            ..*self
        }
    }

    /// Returns the time until there are `tokens` tokens, if there are too few now.
    pub(crate) fn wait_for(&self, tokens: u32) -> Option<Duration>
        ensures { option_map as_nanos result ≡ option_map in_nanos (wait_for self.now tokens) }
    {
        let missing = self.cost(tokens).saturating_sub(self.level);
        if missing == 0 {
            return None;
        }
        let micros = missing.div_ceil(u64::from(self.rate));
        Some(Duration::from_micros(micros))
    }

    /// Returns the number of tokens that can be taken at once: at most `tokens`, and the burst if there is a limit.
    pub(crate) fn payable(&self, tokens: u32) -> u32
        ensures { result ≡ payable self.now tokens }
    {
        match self.rate {
            0 => tokens,
            _ => tokens.min(self.burst),
        }
    }

    // Takes `tokens` tokens, or all if there are fewer.
    fn remove(&mut self, tokens: u32)
        ensures { self.new ≡ without self.old tokens }
    {
        self.level = self.level.saturating_sub(self.cost(tokens));
    }

    // Returns the cost of `tokens` tokens, in units.
    fn cost(&self, tokens: u32) -> u64
        ensures { result ≡ cost self.now tokens }
    {
        if self.rate == 0 {
            return 0;
        }
        u64::from(tokens.min(self.burst)) * TOKEN
    }
}
