//! The tasks of a builder: surveys, differences, changes left out, and lines.

use crate::input::read_input;
use crate::printing::{
    print_all, print_text, tell_refused, tell_torn, tell_unreadable, tell_unreadable_in,
};
use crate::refused::Refused;
use crate::texts::kind_of;
use crate::unkept::Unkept;
use mud_chain::{Chain, NoChain, chain_of};
use mud_cli::KeptFile;
use mud_diff::{DiffText, NoDiff, diff_of};
use mud_lines::{NoLines, Start, lines_of, part_lines_of};
use mud_survey::{Form, NoSurvey, survey_of, way_proof};
use mud_undo::{NoUndo, Undone, without_changes, without_since};
use std::process::ExitCode;

// The exit status if two worlds differ, or two histories are no chain, as of diff(1).
const DIFFERENT: u8 = 1;

/// Surveys the world for these players, or for all if there is no word. Returns the exit status.
pub fn survey(rt: &HostRuntime, file: KeptFile<'_>, players: &[&str], is_json: bool) -> ExitCode {
    let bytes = match read_input(rt, file.name) {
        Ok(bytes) => bytes,
        Err(unkept) => return tell_unreadable(rt, unkept),
    };
    let form = if is_json { Form::Json } else { Form::Table };
    match survey_of(rt.alloc(), kind_of(file), form, &bytes, players) {
        Ok(found) => print_text(rt, found.text.as_bytes(), found.torn),
        Err(NoSurvey::NoPlayer(place)) => {
            tell_refused(
                rt,
                Refused::Player(players.get(place).copied().unwrap_or("")),
            )
        }
        Err(NoSurvey::NoRoom) => tell_refused(rt, Refused::Room("")),
        Err(NoSurvey::History(fault)) => tell_unreadable(rt, Unkept::of_file(fault)),
    }
}

/// Prints the certificate of the player's way to the room. Returns the exit status.
pub fn proof(rt: &HostRuntime, file: KeptFile<'_>, player: &str, room: &str) -> ExitCode {
    let bytes = match read_input(rt, file.name) {
        Ok(bytes) => bytes,
        Err(unkept) => return tell_unreadable(rt, unkept),
    };
    match way_proof(rt.alloc(), kind_of(file), &bytes, player, room) {
        Ok(found) => print_text(rt, found.text.as_bytes(), found.torn),
        Err(NoSurvey::NoPlayer(_)) => tell_refused(rt, Refused::Player(player)),
        Err(NoSurvey::NoRoom) => tell_refused(rt, Refused::Room(room)),
        Err(NoSurvey::History(fault)) => tell_unreadable(rt, Unkept::of_file(fault)),
    }
}

/// Compares two worlds. Returns the exit status.
pub fn diff(rt: &HostRuntime, old: KeptFile<'_>, new: &str) -> ExitCode {
    let before = match read_input(rt, old.name) {
        Ok(bytes) => bytes,
        Err(unkept) => return tell_unreadable(rt, unkept),
    };
    let after = match read_input(rt, new) {
        Ok(bytes) => bytes,
        Err(unkept) => return tell_unreadable(rt, unkept),
    };
    match diff_of(rt.alloc(), kind_of(old), &before, &after) {
        Ok(found) => print_diff(rt, &found),
        Err(NoDiff::Old(fault)) => tell_unreadable_in(rt, old.name, Unkept::of_file(fault)),
        Err(NoDiff::New(fault)) => tell_unreadable_in(rt, new, Unkept::of_file(fault)),
    }
}

// Prints the differences of two worlds. Returns the exit status.
fn print_diff(rt: &HostRuntime, found: &DiffText) -> ExitCode {
    if !print_all(rt, found.comparison.text.as_bytes()) {
        return tell_unreadable(rt, Unkept::Write);
    }
    tell_torn(rt, found.torn.0);
    tell_torn(rt, found.torn.1);
    if found.comparison.is_same {
        ExitCode::SUCCESS
    } else {
        ExitCode::from(DIFFERENT)
    }
}

/// Prints whether a history continues another one, and at which version. Returns the exit status.
pub fn chain(rt: &HostRuntime, old: KeptFile<'_>, new: &str) -> ExitCode {
    let before = match read_input(rt, old.name) {
        Ok(bytes) => bytes,
        Err(unkept) => return tell_unreadable(rt, unkept),
    };
    let after = match read_input(rt, new) {
        Ok(bytes) => bytes,
        Err(unkept) => return tell_unreadable(rt, unkept),
    };
    match chain_of(rt.alloc(), kind_of(old), &before, &after) {
        Ok(found) => print_chain(rt, &found),
        Err(NoChain::Old(fault)) => tell_unreadable_in(rt, old.name, Unkept::of_file(fault)),
        Err(NoChain::New(fault)) => tell_unreadable_in(rt, new, Unkept::of_file(fault)),
    }
}

// Prints the version at which a history continues another one, or that it does not. Returns the exit status.
fn print_chain(rt: &HostRuntime, found: &Chain) -> ExitCode {
    let (told, status) = match found.version {
        Some(version) => (
            println!(rt; "goes on at version {version}"),
            ExitCode::SUCCESS,
        ),
        None => (println!(rt; "does not go on"), ExitCode::from(DIFFERENT)),
    };
    if told.is_err() {
        return tell_unreadable(rt, Unkept::Write);
    }
    tell_torn(rt, found.torn.0);
    tell_torn(rt, found.torn.1);
    status
}

/// Prints the history without the changes of these versions. Returns the exit status.
pub fn without(rt: &HostRuntime, file: KeptFile<'_>, versions: Vec<u32>) -> ExitCode {
    let bytes = match read_input(rt, file.name) {
        Ok(bytes) => bytes,
        Err(unkept) => return tell_unreadable(rt, unkept),
    };
    match without_changes(rt.alloc(), kind_of(file), &bytes, versions) {
        Ok(undone) => print_undone(rt, &undone),
        Err(fault) => tell_no_undo(rt, "", fault),
    }
}

/// Prints the history without the changes from this version on, of one player or of all. Returns the exit status.
pub fn without_from(
    rt: &HostRuntime,
    file: KeptFile<'_>,
    first: u32,
    by: Option<&str>,
) -> ExitCode {
    let bytes = match read_input(rt, file.name) {
        Ok(bytes) => bytes,
        Err(unkept) => return tell_unreadable(rt, unkept),
    };
    match without_since(rt.alloc(), kind_of(file), &bytes, first, by) {
        Ok(undone) => print_undone(rt, &undone),
        Err(fault) => tell_no_undo(rt, by.unwrap_or(""), fault),
    }
}

// Prints why there is no such history. `word` is the word that named the player. Returns the exit status.
fn tell_no_undo(rt: &HostRuntime, word: &str, fault: NoUndo) -> ExitCode {
    match fault {
        NoUndo::History(fault) => tell_unreadable(rt, Unkept::of_file(fault)),
        NoUndo::NoChange(version, count) => tell_refused(rt, Refused::Change(version, count)),
        NoUndo::NoPlayer => tell_refused(rt, Refused::Player(word)),
        NoUndo::StandsOn(version) => {
            tell_refused(rt, Refused::StandsOn(version, version.saturating_add(1)))
        }
        NoUndo::TooLong => tell_refused(rt, Refused::TooLong),
    }
}

// Prints the history, and to standard error the differences of its world. Returns the exit status.
fn print_undone(rt: &HostRuntime, undone: &Undone) -> ExitCode {
    if !print_all(rt, undone.text.as_bytes()) {
        return tell_unreadable(rt, Unkept::Write);
    }
    tell_torn(rt, undone.torn);
    let Undone { before, after, .. } = undone;
    let _ = eprintln!(rt; "changes: {before} before, {after} after");
    let _ = eprintln!(rt; "versions begin anew: check older certificates with the older history");
    let _ = eprint!(rt; "{}", undone.told);
    ExitCode::SUCCESS
}

/// Prints the lines that build the world in a new one. Returns the exit status.
pub fn lines(rt: &HostRuntime, file: KeptFile<'_>) -> ExitCode {
    let bytes = match read_input(rt, file.name) {
        Ok(bytes) => bytes,
        Err(unkept) => return tell_unreadable(rt, unkept),
    };
    match lines_of(rt.alloc(), kind_of(file), &bytes) {
        Ok(found) => print_text(rt, found.text.as_bytes(), found.torn),
        Err(fault) => tell_no_lines(rt, &[], fault),
    }
}

/// Prints the lines that build these rooms. Returns the exit status.
pub fn part_lines(rt: &HostRuntime, file: KeptFile<'_>, rooms: &[&str], start: Start) -> ExitCode {
    let bytes = match read_input(rt, file.name) {
        Ok(bytes) => bytes,
        Err(unkept) => return tell_unreadable(rt, unkept),
    };
    match part_lines_of(rt.alloc(), kind_of(file), &bytes, rooms, start) {
        Ok(found) => print_text(rt, found.text.as_bytes(), found.torn),
        Err(fault) => tell_no_lines(rt, rooms, fault),
    }
}

// Prints why there are no lines. `words` are the words that named rooms. Returns the exit status.
fn tell_no_lines(rt: &HostRuntime, words: &[&str], fault: NoLines) -> ExitCode {
    match fault {
        NoLines::History(fault) => tell_unreadable(rt, Unkept::of_file(fault)),
        NoLines::Untyped => tell_refused(rt, Refused::Untyped),
        NoLines::NoRoom(place) => {
            tell_refused(rt, Refused::Room(words.get(place).copied().unwrap_or("")))
        }
        NoLines::Names(object, named) => tell_refused(rt, Refused::Names(object, named)),
        NoLines::NoStart => tell_refused(rt, Refused::Start),
    }
}
