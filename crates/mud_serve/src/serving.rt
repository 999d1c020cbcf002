//! Serves connections.

ghost use Rattle.std.specs.Prelude.{◌≡◌, ◌≤◌, length};
ghost use Rattle.mud_world.specs.declared.limits.TheConstants.{MOST_ENTRIES};
ghost use Rattle.mud_chron.specs.declared.format.Format.TheVariants.{Two};
ghost use Rattle.mud_chron.specs.Text.{journal_text};
ghost use Rattle.mud_cli.specs.Service.{AreWithin};
ghost use Rattle.mud_search.specs.declared.limits.TheConstants.{MOST_WORKERS};

use log::{Log, info};
use mud_chron::limits::MOST_DESKS;
use mud_cli::Listening;
use mud_history_file::entries_to_continue;
use mud_io::Sink;
use mud_journal::NamedFiles;
use mud_server::{FirstVolume, Volumes, listen_volumes};
use mud_server_accept::{Doors, Hosting, Limits, listen_on};
use mud_shelf::{FoundVolume, Shelf, find_volume, folder_of};
use mud_tasks::{Stop, doors, load_entries, tell_torn};
use std::fs::File;
use std::io;
use std::net::{Net, TcpListener, TcpStream};
use std::rt::{Files, Runtime};
use std::sync::Wait;
use std::thread::Threads;
use std::time::Clock;

// Logs the ports.
fn log_doors<R: Log>(rt: &R, doors: &Doors) {
    let Some(ports) = doors.ports() else {
        return;
    };
    let telnet = ports.telnet;
    match ports.web {
        Some(web) => info!(rt; "listen port={telnet} web={web}"),
        None => info!(rt; "listen port={telnet}"),
    }
}

/// Serves connections. It reads the files of the journal and of the history before it binds the port.
pub(crate) fn listen<
    R: Runtime
        + AllocGlobal
        + Files<File = File>
        + NamedFiles
        + Threads
        + Wait
        + Log
        + Clock
        + Sync
        + Net<Listener = TcpListener, Stream = TcpStream>,
>(rt: &R, listening: Listening<'_>, hosting: Hosting<'_>) -> Result<(), Stop>
    requires { AreWithin listening.limits }
{
    let limits = Limits {
        // Each session has a desk of its own.
        sessions: MOST_DESKS,
        per_address: listening.per_address,
        total: listening.total,
        counts_players: listening.count_players,
        workers: listening.limits.workers,
        capacity: listening.limits.capacity,
        idle: listening.idle,
        unnamed: listening.unnamed,
    };
    match listening.journal {
        None => keep_nothing(rt, listening, limits, hosting),
        Some(name) => keep_journal(rt, listening, limits, hosting, name),
    }
}

// Serves connections, and keeps the world in memory only.
fn keep_nothing<
    R: Runtime
        + AllocGlobal
        + Threads
        + Wait
        + Log
        + Clock
        + Sync
        + Net<Listener = TcpListener, Stream = TcpStream>,
>(rt: &R, listening: Listening<'_>, limits: Limits, hosting: Hosting<'_>) -> Result<(), Stop>
    requires sessions { limits.sessions ≤ MOST_DESKS }
    requires workers { limits.workers ≤ MOST_WORKERS }
    requires from { 1 ≤ limits.capacity }
    requires to { limits.capacity ≤ MOST_ENTRIES }
{
    let entries = load_entries(rt, listening.load)?;
    let doors = doors(rt, listening)?;
    log_doors(rt, &doors);
    let mut sink = Sink::new(io::writer(rt));
    match listen_on(rt, doors, limits, entries, hosting, &mut sink) {
        Ok(()) => Ok(()),
        Err(fault) => Err(Stop::of_listening(&fault)),
    }
}

// Serves connections, and keeps the world in the journal with this name.
fn keep_journal<
    R: Runtime
        + AllocGlobal
        + Files<File = File>
        + NamedFiles
        + Threads
        + Wait
        + Log
        + Clock
        + Sync
        + Net<Listener = TcpListener, Stream = TcpStream>,
>(
    rt: &R,
    listening: Listening<'_>,
    limits: Limits,
    hosting: Hosting<'_>,
    name: &str,
) -> Result<(), Stop>
    requires sessions { limits.sessions ≤ MOST_DESKS }
    requires workers { limits.workers ≤ MOST_WORKERS }
    requires from { 1 ≤ limits.capacity }
    requires to { limits.capacity ≤ MOST_ENTRIES }
{
    let Ok((folder, journal)) = folder_of(rt, name) else {
        return Err(Stop::OutOfMemory);
    };
    let found = match find_volume(rt.alloc(), &folder, journal) {
        Ok(found) => found,
        Err(fault) => return Err(Stop::of_opening(fault)),
    };
    // under the lock of the volume, so no other server is making the next one
    let _ = folder.clear(journal);
    keep_volumes(rt, listening, limits, hosting, folder, journal, found)
}

// Serves connections, beginning with the volume that was found. It is generic in the folder: the prover's borrow
// checker does not accept the journal's file beside a value that lives forever, such as the page.
fn keep_volumes<
    S: Shelf + Drop,
    R: Runtime
        + AllocGlobal
        + Threads
        + Wait
        + Log
        + Clock
        + Sync
        + Net<Listener = TcpListener, Stream = TcpStream>,
>(
    rt: &R,
    listening: Listening<'_>,
    limits: Limits,
    hosting: Hosting<'_>,
    shelf: S,
    name: &str,
    found: FoundVolume<S::Disk>,
) -> Result<(), Stop>
    requires found { found.journal.text.items ≡ journal_text Two found.entries.items }
    requires count { found.journal.count ≡ length found.entries.items }
    requires sessions { limits.sessions ≤ MOST_DESKS }
    requires workers { limits.workers ≤ MOST_WORKERS }
    requires from { 1 ≤ limits.capacity }
    requires to { limits.capacity ≤ MOST_ENTRIES }
{
    let FoundVolume {
        number,
        journal,
        entries: had,
        torn,
    } = found;
    tell_torn(rt, torn);
    let changes = had.len();
    info!(rt; "journal volume={number} changes={changes} torn={torn}");
    let loaded = match entries_to_continue(rt, listening.load, had) {
        Ok(loaded) => loaded,
        Err(fault) => return Err(Stop::of_load(fault)),
    };
    let doors = doors(rt, listening)?;
    log_doors(rt, &doors);
    let mut sink = Sink::new(io::writer(rt));
    let first = FirstVolume {
        number,
        found: journal,
        loaded,
    };
    let mut volumes = Volumes {
        shelf,
        journal: name,
    };
    match listen_volumes(rt, &mut volumes, doors, limits, first, hosting, &mut sink) {
        Ok(_) => Ok(()),
        Err(fault) => Err(Stop::of_listening(&fault)),
    }
}
