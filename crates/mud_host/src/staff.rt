//! The host's threads. No thread waits for them: the program may end while they wait.

use crate::bans::read_bans;
use crate::console::{bind_control, converse, next_console};
use crate::fault::{HostFault, NoControl};
use crate::files::HostFiles;
use crate::host::{About, Host};
use crate::logbook::Logbook;
use crate::metrics::{attend, next_asker};
use crate::ports::bind;
use mud_chron::limits::MOST_DESKS;
use mud_cli::{ChosenRates, Listening, StatusListening, version};
use mud_control::{Control, Rates};
use mud_socket::unix_seconds;
use std::alloc::AllocError;
use std::fs::{self, File};
use std::io::Eprint;
use std::net::{Net, TcpListener, TcpStream};
use std::os::unix::net::UnixListener;
use std::rt::{Files, Runtime};
use std::sync::{Arc, Wait};
use std::thread::{self, Threads};
use std::time::Clock;

/// The state that a server shares with its host's threads, and the listeners of those threads.
#[derive(Drop)]
pub struct Staff<R> {
    /// The log.
    pub book: Arc<Logbook<R>>,
    /// The state that the server and its host share.
    pub control: Arc<Control>,
    host: Arc<Host<R>>,
    // The listener of the consoles, and that of requests for the status.
    consoles: Option<UnixListener>,
    askers: Option<TcpListener>,
}

// Returns the rates of the command line.
fn rates_of(chosen: ChosenRates) -> Rates {
    Rates {
        lines_per_second: chosen.lines_per_second,
        changes_per_minute: chosen.changes_per_minute,
        address_lines_per_second: chosen.address_lines_per_second,
        address_changes_per_minute: chosen.address_changes_per_minute,
        excess_changes_per_minute: chosen.excess_changes_per_minute,
        connects_per_minute: chosen.connects_per_minute,
        work_per_second: chosen.work_per_second,
    }
}

// Returns a copy of a name, if there is one. The only error is out of memory.
fn copy_of<R: AllocGlobal>(rt: &R, name: Option<&str>) -> Result<Option<String>, AllocError> {
    match name {
        Some(name) => Ok(Some(String::from_str(rt.alloc(), name)?)),
        None => Ok(None),
    }
}

// Returns the facts about the server that don't change. The only error is out of memory.
fn about<R: AllocGlobal + Clock>(rt: &R, listening: Listening<'_>) -> Result<About, AllocError> {
    Ok(About {
        version: version(),
        since_seconds: unix_seconds(rt),
        capacity: listening.limits.capacity,
        sessions: MOST_DESKS,
        has_journal: listening.journal.is_some(),
        bans: copy_of(rt, listening.bans)?,
        log: copy_of(rt, listening.log)?,
    })
}

// Returns the state that the server and its host share, with the bans of the file.
fn control_of<R: Files<File = File> + AllocGlobal>(
    rt: &R,
    listening: Listening<'_>,
) -> Result<Arc<Control>, HostFault> {
    let bans = read_bans(rt, listening.bans)?;
    let control = Control::new(rt.alloc(), MOST_DESKS, rates_of(listening.rates), bans)?;
    Ok(Arc::new(rt.alloc(), control).map_err(AllocError::from)?)
}

// Returns the log, with its file if it has one.
fn book_of<R: Files<File = File> + AllocGlobal + Wait + Copy>(
    rt: R,
    log: Option<&str>,
) -> Result<Arc<Logbook<R>>, HostFault> {
    let book = Arc::new(rt.alloc(), Logbook::new(rt)).map_err(AllocError::from)?;
    if let Some(name) = log
        && let Err(error) = book.open(name)
    {
        return Err(HostFault::Log(error.kind()));
    }
    Ok(book)
}

// Returns the state of the host's threads.
fn host_of<R: AllocGlobal + Clock + Copy>(
    rt: R,
    control: &Arc<Control>,
    book: &Arc<Logbook<R>>,
    listening: Listening<'_>,
) -> Result<Arc<Host<R>>, AllocError> {
    let alloc = rt.alloc();
    let about = about(&rt, listening)?;
    let host = Host::new(rt, Arc::try_clone(control)?, Arc::try_clone(book)?, about);
    Ok(Arc::new(alloc, host)?)
}

// Binds the port of the status, if there should be one.
fn askers_of<R: Net<Listener = TcpListener, Stream = TcpStream>>(
    rt: &R,
    status: Option<StatusListening<'_>>,
) -> Result<Option<TcpListener>, HostFault> {
    match status {
        Some(status) => Ok(Some(bind(rt, status.address, status.port)?)),
        None => Ok(None),
    }
}

// Binds the socket of the consoles, if there should be one.
fn consoles_of<R: Files<File = File> + Net + AllocGlobal>(
    rt: &R,
    name: Option<&str>,
) -> Result<Option<UnixListener>, HostFault> {
    match name {
        None => Ok(None),
        Some(name) => match bind_control(rt, name) {
            Ok(listener) => Ok(Some(listener)),
            Err(error) => Err(HostFault::Control(NoControl::of(error.kind()))),
        },
    }
}

impl<
    R: Runtime
        + AllocGlobal
        + Files<File = File>
        + Net<Listener = TcpListener, Stream = TcpStream>
        + Wait
        + Clock
        + Copy,
> Staff<R> {
    /// Reads the bans, opens the log, and binds the socket of the consoles and the port of the status.
    pub fn new(rt: R, listening: Listening<'_>) -> Result<Staff<R>, HostFault> {
        let control = control_of(&rt, listening)?;
        let book = book_of(rt, listening.log)?;
        let host = host_of(rt, &control, &book, listening)?;
        let askers = askers_of(&rt, listening.status)?;
        let consoles = consoles_of(&rt, listening.control)?;
        Ok(Staff {
            book,
            control,
            host,
            consoles,
            askers,
        })
    }

    /// Returns the port of the status, if there is one.
    pub fn status_port(&self) -> Option<u16> {
        match &self.askers {
            Some(listener) => match listener.local_addr() {
                Ok(address) => Some(address.port()),
                Err(_) => None,
            },
            None => None,
        }
    }

    /// Removes the socket of the consoles, if it has this name, and waits until the log is written.
    pub fn close(&self, rt: &R, control: Option<&str>) {
        if let Some(name) = control {
            let _ = fs::remove_file(rt, name);
        }
        self.book.settle();
    }
}

// Runs a console at each connection of the socket, in a thread of its own.
fn serve_consoles<R>(host: &Arc<Host<R>>, listener: &UnixListener)
where
    R: HostFiles + AllocGlobal + Threads + Wait + Clock + Send + Sync + Drop + 'static,
{
    for _ in host.rt.forever() {
        let stream = next_console(&host.rt, listener);
        if let Ok(theirs) = Arc::try_clone(host) {
            let _ = thread::spawn(&host.rt, move || {
                let _ = converse(&theirs, stream);
            });
        }
    }
}

// Answers each request for the status, in a thread of its own.
fn serve_askers<R>(host: &Arc<Host<R>>, listener: &TcpListener)
where
    R: HostFiles + AllocGlobal + Threads + Wait + Clock + Send + Sync + Drop + 'static,
{
    for _ in host.rt.forever() {
        let stream = next_asker(&host.rt, listener);
        if let Ok(theirs) = Arc::try_clone(host) {
            let _ = thread::spawn(&host.rt, move || attend(&theirs, stream));
        }
    }
}

impl<R> Staff<R>
where
    R: HostFiles + AllocGlobal + Eprint + Threads + Wait + Clock + Send + Sync + Drop + 'static,
{
    /// Starts the host's threads, the one of the log first, but not the one that reads standard input. Returns whether
    /// all could be started.
    pub fn begin(&mut self, rt: &R) -> bool {
        self.begin_log(rt) && self.begin_consoles(rt) && self.begin_askers(rt)
    }

    /// Returns the state of the host's threads for one more of them. The only error is out of memory.
    pub fn host(&self) -> Result<Arc<Host<R>>, AllocError> {
        Arc::try_clone(&self.host)
    }

    // Starts the thread that writes the log.
    fn begin_log(&self, rt: &R) -> bool {
        let Ok(book) = Arc::try_clone(&self.book) else {
            return false;
        };
        thread::spawn(rt, move || book.write_all()).is_ok()
    }

    // Starts the thread that accepts consoles, if there is a socket for them.
    fn begin_consoles(&mut self, rt: &R) -> bool {
        let Some(listener) = self.consoles.take() else {
            return true;
        };
        let Ok(host) = self.host() else {
            return false;
        };
        thread::spawn(rt, move || serve_consoles(&host, &listener)).is_ok()
    }

    // Starts the thread that accepts requests for the status, if there is a port for them.
    fn begin_askers(&mut self, rt: &R) -> bool {
        let Some(listener) = self.askers.take() else {
            return true;
        };
        let Ok(host) = self.host() else {
            return false;
        };
        thread::spawn(rt, move || serve_askers(&host, &listener)).is_ok()
    }
}
