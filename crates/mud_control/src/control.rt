//! The state that the threads of a server share with those of its host.

use crate::address::Crowd;
use crate::excess::Excess;
use crate::news::News;
use crate::rates::Rates;
use crate::roster::Roster;
use crate::sign::StopSign;
use crate::tally::Tally;
use mud_bans::{AddFault, Bans, Network};
use mud_console::{Countdown, Due};
use std::alloc::{AllocError, Global};
use std::net::IpAddr;
use std::sync::atomic::{AtomicBool, Ordering};
use std::sync::{Arc, Mutex, Wait};
use std::time::Duration;

/// The means by which a host ends and watches a server.
#[derive(Clone, Copy)]
pub struct Hosting<'s> {
    /// The stop flag, or `None` if the server ends by its total only.
    pub stop: Option<&'s StopSign>,
    /// The state that the server shares with the host's threads.
    pub control: &'s Arc<Control>,
}

/// The state that the threads of a server share with those of its host.
pub struct Control {
    alloc: Global,
    /// The stop flag.
    pub sign: StopSign,
    /// The counts for the status.
    pub tally: Tally,
    /// The sessions.
    pub roster: Roster,
    /// The announcements.
    pub news: News,
    /// The rate limits of addresses.
    pub crowd: Crowd,
    /// The rate limit of changes beyond the limits of their sessions.
    pub excess: Excess,
    /// The rates of sessions.
    pub rates: Rates,
    bans: Mutex<Bans>,
    has_bans: AtomicBool,
    countdown: Mutex<Option<Countdown>>,
    is_counting: AtomicBool,
    // True once the host requested the next volume.
    wants_volume: AtomicBool,
}

impl Drop for Control {
    fn drop(self) {
        let Control {
            alloc: _,
            sign,
            tally,
            roster,
            news,
            crowd,
            excess,
            rates: _,
            bans,
            has_bans,
            countdown,
            is_counting,
            wants_volume,
        } = self;
        drop(sign);
        drop(tally);
        drop(roster);
        drop(news);
        drop(crowd);
        drop(excess);
        drop(bans);
        drop(has_bans);
        drop(countdown);
        drop(is_counting);
        drop(wants_volume);
    }
}

impl Control {
    /// Returns the control of a server without a host: it has no rate limits. It has this number of places for
    /// sessions. The only error is out of memory.
    pub fn alone(alloc: Global, places: u32) -> Result<Arc<Control>, AllocError> {
        let control = Control::new(alloc, places, Rates::NONE, Bans::new(alloc))?;
        Ok(Arc::new(alloc, control).map_err(AllocError::from)?)
    }

    /// Returns the control of a new server with this number of places for sessions. The only error is out of memory.
    pub fn new(
        alloc: Global,
        places: u32,
        rates: Rates,
        bans: Bans,
    ) -> Result<Control, AllocError> {
        let has_bans = !bans.list().is_empty();
        Ok(Control {
            alloc,
            sign: StopSign::new(),
            tally: Tally::new(),
            roster: Roster::new(alloc, places)?,
            news: News::new(alloc),
            crowd: Crowd::new(alloc, rates),
            excess: Excess::new(&rates),
            rates,
            bans: Mutex::new(bans),
            has_bans: AtomicBool::new(has_bans),
            countdown: Mutex::new(None),
            is_counting: AtomicBool::new(false),
            wants_volume: AtomicBool::new(false),
        })
    }

    /// Requests the next volume.
    pub fn request_volume(&self) {
        self.wants_volume.store(true, Ordering::SeqCst);
    }

    /// Returns whether the next volume was requested since the last call.
    pub fn take_request(&self) -> bool {
        self.wants_volume.swap(false, Ordering::SeqCst)
    }

    /// Returns whether an address is banned.
    pub fn is_banned<R: Wait>(&self, rt: &R, address: IpAddr) -> bool {
        self.has_bans.load(Ordering::SeqCst) && self.bans.lock(rt).covers(address)
    }

    /// Bans a network, and ends its sessions. Returns whether it was not banned before.
    pub fn ban<R: Wait>(&self, rt: &R, network: Network) -> Result<bool, AddFault> {
        let mut bans = self.bans.lock(rt);
        let is_new = !bans.has(network);
        if is_new {
            bans.add(network)?;
        }
        self.has_bans.store(true, Ordering::SeqCst);
        drop(bans);
        self.roster.end_network(rt, network);
        Ok(is_new)
    }

    /// Lifts a ban. Returns whether there was one.
    pub fn unban<R: Wait>(&self, rt: &R, network: Network) -> bool {
        let mut bans = self.bans.lock(rt);
        let was_banned = bans.remove(network);
        self.has_bans
            .store(!bans.list().is_empty(), Ordering::SeqCst);
        was_banned
    }

    /// Returns the text of the bans, one a line. The only error is out of memory.
    pub fn bans_text<R: Wait>(&self, rt: &R) -> Result<String, AllocError> {
        self.bans.lock(rt).text(self.alloc)
    }

    /// Announces a line, with its line end, to all sessions. Returns false if an allocation failed.
    pub fn tell_all<R: Wait>(&self, rt: &R, line: String) -> bool {
        let was_posted = self.news.post(rt, line);
        self.roster.wake_all(rt);
        was_posted
    }

    // Announces that the server stops in this many seconds.
    fn tell_seconds<R: Wait>(&self, rt: &R, seconds: u32) {
        let line = match seconds {
            1 => format!(in self.alloc; "(server stops in 1 second)\r\n"),
            _ => format!(in self.alloc; "(server stops in {seconds} seconds)\r\n"),
        };
        if let Ok(line) = line {
            self.tell_all(rt, line);
        }
    }

    /// Begins a countdown of this many seconds to the stop of the server, and announces it.
    pub fn stop_in<R: Wait>(&self, rt: &R, now: Duration, seconds: u32) {
        *self.countdown.lock(rt) = Some(Countdown::new(now, seconds));
        self.is_counting.store(true, Ordering::SeqCst);
        self.tell_seconds(rt, seconds);
    }

    /// Cancels the countdown, and announces that. Returns whether there was one.
    pub fn stay<R: Wait>(&self, rt: &R) -> bool {
        let was_counting = self.countdown.lock(rt).take().is_some();
        self.is_counting.store(false, Ordering::SeqCst);
        if was_counting && let Ok(line) = String::from_str(self.alloc, "(server stays)\r\n") {
            self.tell_all(rt, line);
        }
        was_counting
    }

    /// Does what the countdown asks for now: announces the time that is left, or sets the stop flag.
    pub fn tick<R: Wait>(&self, rt: &R, now: Duration) {
        if !self.is_counting.load(Ordering::SeqCst) {
            return;
        }
        let due = match &mut *self.countdown.lock(rt) {
            Some(countdown) => countdown.due(now),
            None => Due::Nothing,
        };
        match due {
            Due::Nothing => {}
            Due::Tell(seconds) => self.tell_seconds(rt, seconds),
            Due::Stop => self.sign.set(),
        }
    }
}
