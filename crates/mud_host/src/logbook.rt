//! The log of a server. Logging never blocks.

use crate::files::HostFiles;
use jiff::Timestamp;
use log::kv::Source;
use log::span::Spans;
use log::{LevelFilter, Log, Metadata, Record};
use std::alloc::{AllocError, Global};
use std::fmt::Display;
use std::fs::File;
use std::io::{self, Eprint, Write};
use std::sync::atomic::AtomicU64;
use std::sync::{Condvar, Mutex, Wait};
use std::time::{Clock, Duration};

// The greatest number of lines that wait for standard error.
const MOST_LINES: usize = 1024;

// After the end of the server, the number of checks whether all lines are written, and the rest between two checks.
const LAST_LOOKS: u32 = 100;

const LOOK_MILLISECONDS: u64 = 10;

/// The lines of a log that are not written yet.
#[derive(Drop)]
struct Waiting {
    // The lines in order.
    lines: Vec<String>,
    // The number of lines dropped after them.
    dropped: u64,
    // True while a thread writes lines taken from here.
    is_writing: bool,
    // The file for these lines and all later ones, if it is another than before.
    file: Option<File>,
}

/// A log whose lines a thread of its own writes to standard error, or to a file. Each line begins with its time (RFC
/// 3339, in UTC). A thread that logs waits only for the log's lock, and no thread writes while it holds that lock. If
/// too many lines wait, or an allocation fails, a line is dropped and counted, and the next line written reports the
/// count.
#[derive(Drop)]
pub struct Logbook<R> {
    rt: R,
    waiting: Mutex<Waiting>,
    work: Condvar,
}

impl Waiting {
    // Returns the empty queue.
    fn new(alloc: Global) -> Waiting {
        Waiting {
            lines: Vec::new(alloc),
            dropped: 0,
            is_writing: false,
            file: None,
        }
    }

    // Appends a line, if there is room.
    fn push(&mut self, line: Option<String>) {
        let has_room = self.dropped == 0 && self.lines.len() < MOST_LINES;
        let was_taken = match line {
            Some(line) => has_room && self.lines.push(line).is_ok(),
            None => false,
        };
        if !was_taken {
            self.dropped = self.dropped.saturating_add(1);
        }
    }

    // Returns whether there is nothing to write, and no new file.
    fn is_empty(&self) -> bool {
        self.lines.is_empty() && self.dropped == 0 && self.file.is_none()
    }
}

impl<R: AllocGlobal> Logbook<R> {
    /// Returns a log without lines.
    pub(crate) fn new(rt: R) -> Logbook<R> {
        let waiting = Waiting::new(rt.alloc());
        Logbook {
            rt,
            waiting: Mutex::new(waiting),
            work: Condvar::new(),
        }
    }
}

impl<R: HostFiles + Wait> Logbook<R> {
    /// Opens a file, which is created if it does not exist. All lines from now on are appended to it.
    pub(crate) fn open(&self, name: &str) -> io::Result<()> {
        let file = self.rt.open_log(name)?;
        self.waiting.lock(&self.rt).file = Some(file);
        self.work.notify_one();
        Ok(())
    }
}

impl<R: AllocGlobal + Wait + Clock> Logbook<R> {
    // Returns a line with its time. The only error is out of memory.
    fn text<D: Display>(&self, line: &D) -> Result<String, AllocError> {
        let alloc = self.rt.alloc();
        match Timestamp::now(&self.rt) {
            Ok(now) => format!(in alloc; "{now:.3} {line}"),
            Err(_) => format!(in alloc; "- {line}"),
        }
    }

    // Appends a line.
    fn add<D: Display>(&self, line: &D) {
        let text = self.text(line).ok();
        self.waiting.lock(&self.rt).push(text);
        self.work.notify_one();
    }
}

impl<R: AllocGlobal + Eprint + Wait + Clock> Logbook<R> {
    // Returns the next lines to write, once there are some.
    fn next(&self) -> Waiting {
        let mut waiting = self.waiting.lock(&self.rt);
        for _ in self.rt.forever() {
            if !waiting.is_empty() {
                break;
            }
            waiting.is_writing = false;
            waiting = self.work.wait(&self.rt, waiting);
        }
        let mut rest = Waiting::new(self.rt.alloc());
        rest.is_writing = true;
        std::mem::replace(&mut *waiting, rest)
    }

    // Writes a line to the file, or to standard error if there is no file or the write fails.
    fn write(&self, file: &mut Option<File>, line: &str) {
        let is_written = match file {
            Some(file) => writeln!(file, "{line}").is_ok(),
            None => false,
        };
        if !is_written {
            let _ = eprintln!(self.rt; "{line}");
        }
    }

    // Writes how many lines were dropped.
    fn write_dropped(&self, file: &mut Option<File>, dropped: u64) {
        let line = match format!(in self.rt.alloc(); "dropped lines={dropped}") {
            Ok(said) => self.text(&said).ok(),
            Err(_) => None,
        };
        match line {
            Some(line) => self.write(file, line.as_str()),
            None => {
                let _ = eprintln!(self.rt; "- dropped lines={dropped}");
            }
        }
    }

    /// Writes lines as they come. It never returns.
    pub(crate) fn write_all(&self) {
        let mut file = None;
        for _ in self.rt.forever() {
            let Waiting {
                lines,
                dropped,
                is_writing: _,
                file: new,
            } = self.next();
            if new.is_some() {
                file = new;
            }
            for line in &lines {
                self.write(&mut file, line.as_str());
            }
            if 0 < dropped {
                self.write_dropped(&mut file, dropped);
            }
        }
    }

    /// Waits until all lines are written, for at most one second.
    pub(crate) fn settle(&self) {
        for _ in 0..LAST_LOOKS {
            let waiting = self.waiting.lock(&self.rt);
            if waiting.is_empty() && !waiting.is_writing {
                return;
            }
            drop(waiting);
            let pause = Duration::from_millis(LOOK_MILLISECONDS);
            AtomicU64::new(0).park_timeout(&self.rt, 0, pause);
        }
    }
}

impl<R: AllocGlobal + Eprint + Wait + Clock> Log for Logbook<R> {
    fn enabled(&self, metadata: &Metadata<'_>) -> bool {
        LevelFilter::Info.allows(metadata.level())
    }

    fn log<D: Display, K: Source, S: Spans>(&self, record: &Record<'_, D, K, S>) {
        if LevelFilter::Info.allows(record.level()) {
            self.add(record.args());
        }
    }

    fn flush(&self) {}

    fn target(&self) -> &str {
        ""
    }
}
