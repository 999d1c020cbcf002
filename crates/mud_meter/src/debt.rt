//! A limit on a cost that is known only afterwards.

ghost use Rattle.std.specs.Prelude.{◌≡◌, ◌*◌, max, option_map};
ghost use Rattle.std.specs.Duration.{as_nanos};
ghost use Rattle.mud_meter.specs.declared.meter.TheConstants.{TOKEN};
ghost use Rattle.mud_meter.specs.Bucket.{micros, in_nanos};
ghost use Rattle.mud_meter.specs.Debt.{due, after_ask, wait_of, after_owe, drained};

use crate::meter::Meter;
use std::marker::Model;
use std::time::Duration;

/// The greatest debt, in tokens. A debt grows no further.
pub const MOST_OWED: u32 = u32::MAX;

/// A meter whose callers act first and pay later. Several callers may act at once, so they may owe more than it has.
/// Then nobody acts until all is paid. So in any period they spend at most the burst, the gain of the period, and what
/// each of them did last.
#[derive(Debug, Drop)]
pub struct Debt {
    meter: Meter,
    owed: u32,
}

impl Model for Debt {
    ghost use Rattle.mud_meter.specs.Debt.{Owing};
    ghost use Rattle.mud_meter.specs.declared.debt.TheConstants.{MOST_OWED};

    ghost Value = { Owing };

    ghost view = { λ d. record {
      bucket = d.meter;
      owed = d.owed;
      most = MOST_OWED;
    } };
}

impl Debt {
    /// Returns a full meter without a debt. It gains `rate_per_minute` tokens a minute, where 0 means no limit, and
    /// holds at most `burst` tokens. A burst of 0 counts as 1.
    pub fn new(rate_per_minute: u32, burst: u32, now: Duration) -> Debt
        ensures owed { result.owed ≡ 0 }
        ensures bucket { result.bucket ≡ record {
          rate = rate_per_minute;
          burst = max burst 1;
          level = max burst 1 * TOKEN;
          last = micros now;
        } }
    {
        Debt {
            meter: Meter::new(rate_per_minute, burst, now),
            owed: 0,
        }
    }

    /// Pays what is owed, as far as the tokens reach. Returns `None` if nothing is owed any more and there is a token:
    /// the caller may act. Otherwise returns the time after which the caller should ask again.
    pub fn wait(&mut self, now: Duration) -> Option<Duration>
        ensures wait { option_map as_nanos result ≡ option_map in_nanos (wait_of self.old (micros now)) }
        ensures state { self.new ≡ after_ask self.old (micros now) }
    {
        let due = self.due();
        let wait = self.meter.take(now, due);
        if wait.is_some() {
            return wait;
        }
        self.owed = self.owed.saturating_sub(due);
        if self.owed > 0 {
            return Some(Duration::ZERO);
        }
        self.meter.wait_for(1)
    }

    /// Adds a cost to the debt, which is then at most [`MOST_OWED`].
    pub fn owe(&mut self, cost: u32)
        ensures { self.new ≡ after_owe self.old cost }
    {
        self.owed = self.owed.saturating_add(cost);
    }

    /// Removes all tokens. The debt remains.
    pub fn drain(&mut self, now: Duration)
        ensures { self.new ≡ drained self.old (micros now) }
    {
        self.meter.drain(now);
    }

    // Returns the number of tokens that are paid next.
    fn due(&self) -> u32
        ensures { result ≡ due self.now }
    {
        self.meter.payable(self.owed)
    }
}
