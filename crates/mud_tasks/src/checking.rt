//! The option `--check`: prints what a server would do.

ghost use Rattle.mud_cli.specs.Service.{AreWithin};

use crate::opening::{doors, load_entries, tell_torn};
use crate::stop::Stop;
use mud_chron::Entry;
use mud_cli::{ChosenRates, Listening, version};
use mud_history_file::entries_to_continue;
use mud_host::{HostFault, bind, read_bans};
use mud_journal::NamedFiles;
use mud_server_volume::try_entries;
use mud_shelf::{Shelf, find_volume, folder_of, latest_volume};
use std::fs::File;
use std::io::Print;
use std::net::{Net, TcpListener, TcpStream};
use std::rt::{Files, Runtime};

// Prints a setting and its value.
fn say<R: Print>(rt: &R, name: &str, value: &str) -> Result<(), Stop> {
    match println!(rt; "{name} {value}") {
        Ok(()) => Ok(()),
        Err(_) => Err(Stop::Write),
    }
}

// Prints a setting that is a number.
fn say_number<R: Print>(rt: &R, name: &str, value: u32) -> Result<(), Stop> {
    match println!(rt; "{name} {value}") {
        Ok(()) => Ok(()),
        Err(_) => Err(Stop::Write),
    }
}

// Prints the file of a setting, if it has one.
fn say_file<R: Print>(rt: &R, name: &str, file: Option<&str>) -> Result<(), Stop> {
    match file {
        Some(file) => say(rt, name, file),
        None => Ok(()),
    }
}

// Prints the rates.
fn say_rates<R: Print>(rt: &R, rates: ChosenRates) -> Result<(), Stop> {
    say_number(rt, "lines-per-second", rates.lines_per_second)?;
    say_number(rt, "changes-per-minute", rates.changes_per_minute)?;
    say_number(
        rt,
        "address-lines-per-second",
        rates.address_lines_per_second,
    )?;
    say_number(
        rt,
        "address-changes-per-minute",
        rates.address_changes_per_minute,
    )?;
    say_number(
        rt,
        "excess-changes-per-minute",
        rates.excess_changes_per_minute,
    )?;
    say_number(rt, "connects-per-minute", rates.connects_per_minute)?;
    say_number(rt, "work-per-second", rates.work_per_second)
}

// Prints the ports.
fn say_doors<R: Print>(rt: &R, listening: Listening<'_>) -> Result<(), Stop> {
    say(rt, "address", listening.address)?;
    say_number(rt, "port", u32::from(listening.port))?;
    if let Some(web) = listening.web {
        say(rt, "web-address", web.address)?;
        say_number(rt, "web-port", u32::from(web.port))?;
        say(rt, "web-origin", web.origin)?;
    }
    if let Some(status) = listening.status {
        say(rt, "status-address", status.address)?;
        say_number(rt, "status-port", u32::from(status.port))?;
    }
    Ok(())
}

// Prints the limits.
fn say_limits<R: Print>(rt: &R, listening: Listening<'_>) -> Result<(), Stop> {
    say_number(rt, "total", listening.total)?;
    say_number(rt, "per-address", listening.per_address)?;
    say_number(rt, "idle", listening.idle)?;
    say_number(rt, "unnamed", listening.unnamed)?;
    say_rates(rt, listening.rates)?;
    say_number(rt, "workers", listening.limits.workers)?;
    say_number(rt, "capacity", listening.limits.capacity)
}

// Prints the files.
fn say_files<R: Print>(rt: &R, listening: Listening<'_>) -> Result<(), Stop> {
    say_file(rt, "journal", listening.journal)?;
    say_file(rt, "load", listening.load)?;
    say_file(rt, "bans", listening.bans)?;
    say_file(rt, "log", listening.log)?;
    say_file(rt, "control", listening.control)
}

// Returns the entries that a server would continue: those of the last volume. It does not make a journal.
fn entries_of<R: Runtime + Files<File = File> + NamedFiles + AllocGlobal + Sync>(
    rt: &R,
    listening: Listening<'_>,
) -> Result<Vec<Entry>, Stop> {
    let Some(name) = listening.journal else {
        return load_entries(rt, listening.load);
    };
    let Ok((folder, journal)) = folder_of(rt, name) else {
        return Err(Stop::OutOfMemory);
    };
    let names = folder.names(journal).map_err(Stop::of_opening)?;
    if latest_volume(journal, &names).is_none() {
        return load_entries(rt, listening.load);
    }
    let found = find_volume(rt.alloc(), &folder, journal).map_err(Stop::of_opening)?;
    tell_torn(rt, found.torn);
    entries_to_continue(rt, listening.load, found.entries).map_err(Stop::of_load)
}

/// Prints what a server would do. It reads the files and binds the ports, but changes nothing. The last line is the
/// number of changes that the server would continue.
pub fn check<R>(rt: &R, listening: Listening<'_>) -> Result<(), Stop>
where
    R: Runtime
        + Files<File = File>
        + NamedFiles
        + AllocGlobal
        + Sync
        + Net<Listener = TcpListener, Stream = TcpStream>,
    requires { AreWithin listening.limits }
{
    say(rt, "version", version())?;
    say_doors(rt, listening)?;
    say_files(rt, listening)?;
    say_limits(rt, listening)?;
    let _ = read_bans(rt, listening.bans).map_err(HostFault::from)?;
    let entries = entries_of(rt, listening)?;
    let changes = entries.len();
    match try_entries(rt.alloc(), listening.limits.capacity, entries) {
        Ok(()) => {}
        Err(fault) => return Err(Stop::of_listening(&fault)),
    }
    let _ = doors(rt, listening)?;
    if let Some(status) = listening.status {
        let _ = bind(rt, status.address, status.port)?;
    }
    match println!(rt; "changes {changes}") {
        Ok(()) => Ok(()),
        Err(_) => Err(Stop::Write),
    }
}
