//! Scripts of one user.

ghost use Rattle.std.specs.Prelude.{◌≤◌, length};
ghost use Rattle.mud_world.specs.declared.limits.TheConstants.{MOST_ENTRIES};
ghost use Rattle.mud_cli.specs.Service.{AreWithin};

use crate::stop::Stop;
use mud_chron::{Entry, write_history};
use mud_cli::{ChosenLimits, Scripting};
use mud_history_file::{load, load_journal};
use mud_io::{Sink, Source};
use mud_session::{ScriptLimits, script, script_on};
use std::fs::{self, File};
use std::io::{self, Eprint, Write};
use std::rt::{Files, Runtime};
use std::sync::Wait;
use std::thread::Threads;

// The word for the player if the command line has none.
const WIZARD: &str = "#1";

/// Answers the lines of standard input. With a history to load, a player or a file to make, the script continues
/// entries, and its history is written at its end.
pub fn answer<R: Runtime + AllocGlobal + Files<File = File> + Threads + Wait + Sync>(
    rt: &R,
    scripting: Scripting<'_>,
) -> Result<(), Stop>
    requires { AreWithin scripting.limits }
{
    if scripting.load.is_none() && scripting.player.is_none() && scripting.history.is_none() {
        return answer_alone(rt, scripting.limits);
    }
    if is_there(rt, scripting.history) {
        return Err(Stop::Exists);
    }
    let entries = entries_of(rt, scripting)?;
    answer_on(rt, scripting, entries)
}

// Answers the lines in a new world.
fn answer_alone<R: Runtime + AllocGlobal + Threads + Wait + Sync>(
    rt: &R,
    limits: ChosenLimits,
) -> Result<(), Stop>
    requires { AreWithin limits }
{
    let mut source = Source::new(rt.reader());
    let mut sink = Sink::new(io::writer(rt));
    let limits = ScriptLimits {
        capacity: limits.capacity,
        workers: limits.workers,
    };
    match script(rt, rt.alloc(), &mut source, &mut sink, limits) {
        Ok(()) => Ok(()),
        Err(fault) => Err(Stop::of_script(fault)),
    }
}

// Returns whether the file that the script would make exists.
fn is_there<R: Files<File = File>>(rt: &R, name: Option<&str>) -> bool {
    match name {
        Some(name) => fs::symlink_metadata(rt, name).is_ok(),
        None => false,
    }
}

// Returns the entries that the script continues.
fn entries_of<R: Runtime + AllocGlobal>(
    rt: &R,
    scripting: Scripting<'_>,
) -> Result<Vec<Entry>, Stop> {
    let Some(name) = scripting.load else {
        return Ok(Vec::new(rt.alloc()));
    };
    if !scripting.is_journal {
        return match load(rt, name) {
            Ok(entries) => Ok(entries),
            Err(fault) => Err(Stop::of_script_file(fault)),
        };
    }
    match load_journal(rt, name) {
        Ok((entries, torn)) => {
            tell_torn(rt, torn);
            Ok(entries)
        }
        Err(fault) => Err(Stop::of_script_file(fault)),
    }
}

// Prints how many bytes at the end of a journal's copy the script leaves out.
fn tell_torn<R: Eprint>(rt: &R, torn: usize) {
    if torn > 0 {
        let _ = eprintln!(rt; "mud_serve: torn off: {torn} bytes");
    }
}

// Answers the lines after these entries.
fn answer_on<R: Runtime + AllocGlobal + Files<File = File> + Threads + Wait + Sync>(
    rt: &R,
    scripting: Scripting<'_>,
    entries: Vec<Entry>,
) -> Result<(), Stop>
    requires { AreWithin scripting.limits }
{
    let mut source = Source::new(rt.reader());
    let mut sink = Sink::new(io::writer(rt));
    let limits = ScriptLimits {
        capacity: scripting.limits.capacity,
        workers: scripting.limits.workers,
    };
    let word = scripting.player.unwrap_or(WIZARD);
    match script_on(
        rt,
        rt.alloc(),
        &mut source,
        &mut sink,
        limits,
        entries,
        word,
    ) {
        Ok(history) => match scripting.history {
            Some(name) => make(rt, name, &history),
            None => Ok(()),
        },
        Err(fault) => Err(Stop::of_continuing(fault)),
    }
}

// Makes the file of a history.
fn make<R: AllocGlobal + Files<File = File>>(
    rt: &R,
    name: &str,
    history: &[Entry],
) -> Result<(), Stop>
    requires { length history.now ≤ MOST_ENTRIES }
{
    let mut text = String::new(rt.alloc());
    if write_history(rt.alloc(), history, &mut text).is_err() {
        return Err(Stop::OutOfMemory);
    }
    let Ok(mut file) = File::create_new(rt, name) else {
        return Err(Stop::NotMade);
    };
    if file.write_all(text.as_bytes()).is_ok() && file.sync_all().is_ok() {
        return Ok(());
    }
    let _ = fs::remove_file(rt, name);
    Err(Stop::NotMade)
}
