//! Rate limits of addresses.

ghost use Rattle.mud_control.specs.Hosts.{IsHost};

use crate::rates::{CHANGES_AT_ONCE, LINES_AT_ONCE, MINUTE, Rates};
use mud_meter::{Debt, Meter};
use std::alloc::{AllocError, Global};
use std::net::{IpAddr, Ipv6Addr};
use std::sync::{Arc, Mutex, Wait};
use std::time::Duration;

// The greatest number of addresses with meters.
const MOST_KNOWN: usize = 256;

/// The meters of an address.
#[derive(Drop)]
struct Meters {
    lines: Meter,
    changes: Debt,
    connects: Meter,
}

/// The rate limits of an address, which its sessions share.
#[derive(Drop)]
pub struct AddressMeters {
    meters: Mutex<Meters>,
}

/// An address, its meters, the number of sessions that use them, and the time of their last use.
#[derive(Drop)]
struct Known {
    address: IpAddr,
    meters: Arc<AddressMeters>,
    sessions: u32,
    last: Duration,
}

/// The addresses that were used last.
#[derive(Drop)]
pub struct Crowd {
    known: Mutex<Vec<Known>>,
    rates: Rates,
}

impl AddressMeters {
    // Returns meters that are full.
    fn new(rates: &Rates, now: Duration) -> AddressMeters {
        let lines = rates.address_lines_per_second;
        let changes = rates.address_changes_per_minute;
        let connects = rates.connects_per_minute;
        AddressMeters {
            meters: Mutex::new(Meters {
                lines: Meter::new(
                    lines.saturating_mul(MINUTE),
                    lines.saturating_mul(LINES_AT_ONCE),
                    now,
                ),
                changes: Debt::new(changes, changes.saturating_mul(CHANGES_AT_ONCE), now),
                connects: Meter::new(connects, connects, now),
            }),
        }
    }

    // Counts a connection. Returns whether it is within the limit.
    fn connect<R: Wait>(&self, rt: &R, now: Duration) -> bool {
        self.meters.lock(rt).connects.take(now, 1).is_none()
    }

    /// Returns the time to wait for a change, if there is no token.
    pub(crate) fn wait_for_change<R: Wait>(&self, rt: &R, now: Duration) -> Option<Duration> {
        self.meters.lock(rt).changes.wait(now)
    }

    /// Counts a line. If there is no token for it, counts nothing and returns the time to wait.
    pub(crate) fn take_line<R: Wait>(&self, rt: &R, now: Duration) -> Option<Duration> {
        self.meters.lock(rt).lines.take(now, 1)
    }

    /// Counts a change that was made. With `is_drained` it takes all tokens, so that the next change waits.
    pub(crate) fn spend_change<R: Wait>(&self, rt: &R, now: Duration, is_drained: bool) {
        let mut meters = self.meters.lock(rt);
        meters.changes.owe(1);
        if is_drained {
            meters.changes.drain(now);
        }
    }
}

/// Returns the address that stands for the host of an address: limits count by it. An IPv6 host usually has all
/// addresses with the same first 64 bits (RFC 4291, section 2.5.1).
pub fn host_of(address: IpAddr) -> IpAddr
    ensures { IsHost address result }
{
    match address {
        IpAddr::V4(_) => address,
        IpAddr::V6(v6) => {
            let [a, b, c, d, ..] = v6.segments();
            IpAddr::V6(Ipv6Addr::new(a, b, c, d, 0, 0, 0, 0))
        }
    }
}

// Returns the index of the address without sessions that was not used for the longest time.
fn oldest(known: &[Known]) -> Option<usize> {
    let mut found = None;
    let mut least = Duration::MAX;
    for (at, one) in known.iter().enumerate() {
        if one.sessions == 0 && one.last < least {
            found = Some(at);
            least = one.last;
        }
    }
    found
}

impl Crowd {
    /// Returns a crowd without addresses.
    pub fn new(alloc: Global, rates: Rates) -> Crowd {
        Crowd {
            known: Mutex::new(Vec::new(alloc)),
            rates,
        }
    }

    // Adds an address, in place of the oldest one if there are too many. Returns its index. The only error is out of
    // memory.
    fn learn(
        &self,
        known: &mut Vec<Known>,
        address: IpAddr,
        now: Duration,
    ) -> Result<usize, AllocError> {
        let alloc = *known.allocator();
        let new = Known {
            address,
            meters: Arc::new(alloc, AddressMeters::new(&self.rates, now))?,
            sessions: 0,
            last: now,
        };
        if known.len() >= MOST_KNOWN
            && let Some(at) = oldest(known)
            && let Some(former) = known.get_mut(at)
        {
            *former = new;
            return Ok(at);
        }
        known.push(new)?;
        Ok(known.len().saturating_sub(1))
    }

    // Returns the index of an address, and adds the address if it is new. Returns `None` if an allocation fails.
    fn place(&self, known: &mut Vec<Known>, address: IpAddr, now: Duration) -> Option<usize> {
        match known.iter().position(|one| one.address == address) {
            Some(at) => Some(at),
            None => self.learn(known, address, now).ok(),
        }
    }

    /// Counts a connection of an address. Returns whether the server may accept it. A loopback address has no limit,
    /// because a proxy uses one.
    pub fn connect<R: Wait>(&self, rt: &R, address: IpAddr, now: Duration) -> bool {
        if address.is_loopback() || self.rates.connects_per_minute == 0 {
            return true;
        }
        let mut known = self.known.lock(rt);
        let Some(at) = self.place(&mut known, host_of(address), now) else {
            return true;
        };
        match known.get_mut(at) {
            Some(one) => {
                one.last = now;
                one.meters.connect(rt, now)
            }
            None => true,
        }
    }

    /// Counts a new session of an address. Returns the meters that it shares with other sessions of its address. A
    /// loopback address has none.
    pub fn begin<R: Wait>(
        &self,
        rt: &R,
        address: IpAddr,
        now: Duration,
    ) -> Option<Arc<AddressMeters>> {
        if address.is_loopback() {
            return None;
        }
        let mut known = self.known.lock(rt);
        let at = self.place(&mut known, host_of(address), now)?;
        let one = known.get_mut(at)?;
        let meters = Arc::try_clone(&one.meters).ok()?;
        one.last = now;
        one.sessions = one.sessions.saturating_add(1);
        Some(meters)
    }

    /// Counts the end of a session that shares meters.
    pub fn end<R: Wait>(&self, rt: &R, address: IpAddr) {
        let host = host_of(address);
        let mut known = self.known.lock(rt);
        for one in known.iter_mut() {
            if one.address == host {
                one.sessions = one.sessions.saturating_sub(1);
            }
        }
    }
}
