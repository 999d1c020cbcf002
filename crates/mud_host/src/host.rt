//! The orders of the host, and their effects.

use crate::files::HostFiles;
use crate::logbook::Logbook;
use jiff::Timestamp;
use mud_bans::Network;
use mud_console::{Answer, HELP, Order, order_of};
use mud_control::{Control, Refusal, Row};
use mud_socket::now;
use mud_status::{Health, Status, status_text};
use std::alloc::{AllocError, Global};
use std::sync::{Arc, Mutex, Wait};
use std::time::Clock;

// The greatest number of objects (docs/WORLD.md).
const MOST_OBJECTS: u64 = 8_192;

/// The facts about a server that don't change.
#[derive(Drop)]
pub(crate) struct About {
    /// The version of the program.
    pub(crate) version: &'static str,
    /// The time of its start, in seconds since 1970.
    pub(crate) since_seconds: u64,
    /// The greatest number of changes in its history.
    pub(crate) capacity: u32,
    /// The greatest number of sessions.
    pub(crate) sessions: u32,
    /// True if it keeps its history in a journal.
    pub(crate) has_journal: bool,
    /// The file of its bans, if they are kept.
    pub(crate) bans: Option<String>,
    /// Its log file, if it has one.
    pub(crate) log: Option<String>,
}

/// The state of the host's threads.
#[derive(Drop)]
pub struct Host<R> {
    pub(crate) rt: R,
    control: Arc<Control>,
    book: Arc<Logbook<R>>,
    about: About,
    // The lock of the current order, so that two consoles don't write the same file at once.
    obeying: Mutex<()>,
}

// The reason why an order failed.
enum Refused {
    OutOfMemory,
    // This reason.
    Because(String),
}

impl From<AllocError> for Refused {
    fn from(_: AllocError) -> Refused {
        Refused::OutOfMemory
    }
}

/// Returns a time, in seconds since 1970, in the format of RFC 3339. The only error is out of memory.
pub(crate) fn time_text(alloc: Global, seconds: u64) -> Result<String, AllocError> {
    let instant = match i64::try_from(seconds) {
        Ok(seconds) => Timestamp::from_second(seconds).unwrap_or(Timestamp::UNIX_EPOCH),
        Err(_) => Timestamp::UNIX_EPOCH,
    };
    format!(in alloc; "{instant}")
}

// Appends the lines of `help`.
fn tell_help(answer: &mut Answer) -> Result<(), AllocError> {
    for line in HELP {
        answer.line(line)?;
    }
    Ok(())
}

// Returns the line of a session.
fn row_text(alloc: Global, row: &Row) -> Result<String, AllocError> {
    let (number, by, from) = (row.number, row.entrance.word(), row.peer);
    let (since, idle) = (time_text(alloc, row.since_seconds)?, row.idle.as_secs());
    match &row.player {
        Some((player, name)) => {
            format!(in alloc;
                "session {number} {by} {from} since {since} idle {idle} #{player} \"{name}\""
            )
        }
        None => format!(in alloc; "session {number} {by} {from} since {since} idle {idle} guest"),
    }
}

impl<R> Host<R> {
    /// Returns the state of the host's threads.
    pub(crate) fn new(
        rt: R,
        control: Arc<Control>,
        book: Arc<Logbook<R>>,
        about: About,
    ) -> Host<R> {
        Host {
            rt,
            control,
            book,
            about,
            obeying: Mutex::new(()),
        }
    }

    /// Returns the state that the server shares with its host.
    pub(crate) fn control(&self) -> &Control {
        &self.control
    }
}

impl<R: AllocGlobal + Wait + Clock> Host<R> {
    // Returns the health of the server.
    fn health(&self) -> Health {
        let tally = &self.control().tally;
        if tally.has_failed() {
            Health::JournalFault
        } else if self.control().sign.is_set() {
            Health::Stopping
        } else if u64::from(self.about.capacity) <= tally.changes() {
            Health::Full
        } else {
            Health::Well
        }
    }

    /// Returns the status of the server. The text is the time of its start.
    pub(crate) fn status<'a>(&'a self, since: &'a str) -> Status<'a> {
        let (tally, about) = (&self.control().tally, &self.about);
        let (sessions, players) = self.control().roster.counts(&self.rt);
        Status {
            version: about.version,
            since,
            since_seconds: about.since_seconds,
            health: self.health(),
            changes: tally.changes(),
            most_changes: u64::from(about.capacity),
            synced: tally.synced(),
            objects: tally.objects(),
            most_objects: MOST_OBJECTS,
            sessions: u64::from(sessions),
            most_sessions: u64::from(about.sessions),
            players: u64::from(players),
            begun: tally.begun(),
            refused_full: tally.refused(Refusal::Full),
            refused_address: tally.refused(Refusal::Address),
            refused_banned: tally.refused(Refusal::Banned),
            refused_often: tally.refused(Refusal::Often),
            refused_request: tally.refused(Refusal::Request),
            lines: tally.lines(),
            made: tally.made(),
            waited: tally.waited(),
            volume: tally.volume(),
            taken: tally.taken(),
            turns: tally.turns(),
            calls_off: tally.calls_off(),
            pause_millis: tally.pause_millis(),
        }
    }

    /// Returns the time of the server's start as a text.
    pub(crate) fn since(&self) -> Result<String, AllocError> {
        time_text(self.rt.alloc(), self.about.since_seconds)
    }

    // Appends the status.
    fn tell_status(&self, answer: &mut Answer) -> Result<(), AllocError> {
        let since = self.since()?;
        let text = status_text(self.rt.alloc(), &self.status(since.as_str()))?;
        for line in text.as_str().lines() {
            answer.line(line)?;
        }
        Ok(())
    }

    // Appends the sessions.
    fn tell_sessions(&self, answer: &mut Answer) -> Result<(), AllocError> {
        let alloc = self.rt.alloc();
        for row in &self.control().roster.rows(&self.rt, alloc, now(&self.rt))? {
            answer.line(row_text(alloc, row)?.as_str())?;
        }
        Ok(())
    }

    // Appends the bans.
    fn tell_bans(&self, answer: &mut Answer) -> Result<(), AllocError> {
        let text = self.control().bans_text(&self.rt)?;
        for network in text.as_str().lines() {
            let line = format!(in self.rt.alloc(); "ban {network}")?;
            answer.line(line.as_str())?;
        }
        Ok(())
    }

    // Returns an error with this reason.
    fn refuse<T>(&self, why: &str, what: &str) -> Result<T, Refused> {
        Err(Refused::Because(format!(in self.rt.alloc(); "{why}{what}")?))
    }

    // Ends the session with this number.
    fn end(&self, number: u32) -> Result<(), Refused> {
        if self.control().roster.end(&self.rt, number) {
            return Ok(());
        }
        let text = format!(in self.rt.alloc(); "{number}")?;
        self.refuse("no session ", text.as_str())
    }

    // Announces a text to each player.
    fn tell(&self, text: &str) -> Result<(), Refused> {
        let line = format!(in self.rt.alloc(); "(host: {text})\r\n")?;
        if self.control().tell_all(&self.rt, line) {
            Ok(())
        } else {
            Err(Refused::OutOfMemory)
        }
    }

    // Cancels an announced stop.
    fn stay(&self) -> Result<(), Refused> {
        if self.control().stay(&self.rt) {
            return Ok(());
        }
        self.refuse("no stop was announced", "")
    }

    // Requests the next volume, if there is a journal.
    fn request_volume(&self) -> Result<(), Refused> {
        if !self.about.has_journal {
            return self.refuse("there is no journal", "");
        }
        self.control().request_volume();
        Ok(())
    }

    // Parses a network.
    fn network(&self, text: &str) -> Result<Network, Refused> {
        match Network::read(text) {
            Some(network) => Ok(network),
            None => self.refuse("no address or network: ", text),
        }
    }
}

impl<R: HostFiles + AllocGlobal + Wait + Clock> Host<R> {
    // Writes the bans to their file, if they are kept.
    fn keep_bans(&self) -> Result<(), Refused> {
        let Some(name) = &self.about.bans else {
            return Ok(());
        };
        let text = self.control().bans_text(&self.rt)?;
        match self.rt.replace_bans(name.as_str(), text.as_str()) {
            Ok(()) => Ok(()),
            Err(error) => {
                let kind = error.kind();
                let why = format!(in self.rt.alloc();
                    "it holds until the end, but {name} can't be written: {kind}"
                )?;
                Err(Refused::Because(why))
            }
        }
    }

    // Bans a network.
    fn ban(&self, text: &str) -> Result<(), Refused> {
        let network = self.network(text)?;
        match self.control().ban(&self.rt, network) {
            Ok(_) => self.keep_bans(),
            Err(fault) => {
                let why = format!(in self.rt.alloc(); "{fault}")?;
                Err(Refused::Because(why))
            }
        }
    }

    // Lifts a ban.
    fn unban(&self, text: &str) -> Result<(), Refused> {
        let network = self.network(text)?;
        if self.control().unban(&self.rt, network) {
            self.keep_bans()
        } else {
            self.refuse("not banned: ", text)
        }
    }

    // Opens the log file again.
    fn reopen(&self) -> Result<(), Refused> {
        let Some(name) = &self.about.log else {
            return self.refuse("there is no file of the log", "");
        };
        match self.book.open(name.as_str()) {
            Ok(()) => Ok(()),
            Err(error) => {
                let kind = error.kind();
                let why = format!(in self.rt.alloc(); "{name} can't be opened: {kind}")?;
                Err(Refused::Because(why))
            }
        }
    }

    // Carries out an order, and appends the lines of its answer.
    fn obey(&self, order: Order<'_>, answer: &mut Answer) -> Result<(), Refused> {
        let (rt, control) = (&self.rt, self.control());
        match order {
            Order::Status => self.tell_status(answer)?,
            Order::Sessions => self.tell_sessions(answer)?,
            Order::Bans => self.tell_bans(answer)?,
            Order::Help => tell_help(answer)?,
            Order::End(number) => return self.end(number),
            Order::Ban(text) => return self.ban(text),
            Order::Unban(text) => return self.unban(text),
            Order::Tell(text) => return self.tell(text),
            Order::Stop => control.sign.set(),
            Order::StopIn(seconds) => control.stop_in(rt, now(rt), seconds),
            Order::Stay => return self.stay(),
            Order::Volume => return self.request_volume(),
            Order::Reopen => return self.reopen(),
        }
        Ok(())
    }

    /// Carries out the order of a line. Returns its answer, or `None` if an allocation fails.
    pub(crate) fn answer(&self, line: &str) -> Option<String> {
        let _one = self.obeying.lock(&self.rt);
        let mut answer = Answer::new(self.rt.alloc());
        let done = match order_of(line) {
            Some(order) => self.obey(order, &mut answer),
            None => self.refuse("no such order: help tells them", ""),
        };
        let text = match done {
            Ok(()) => answer.ok(),
            Err(Refused::Because(why)) => answer.error(why.as_str()),
            Err(Refused::OutOfMemory) => answer.error("out of memory"),
        };
        text.ok()
    }
}
