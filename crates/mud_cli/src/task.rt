//! The command line of `mud_explain`.

ghost use Rattle.std.specs.Prelude.{◌≤◌, IfOk, IfSome};
ghost use Rattle.mud_cli.specs.Task.{IsWithin};

use crate::argument::{CAPACITY, LOAD};
use crate::fault::CommandFault;
use crate::form::{Form, program_of};
use crate::limits::MOST_CAPACITY;
use crate::matches::{Matched, Unfit};
use crate::subject::{Subject, subject_named};
use clap::error::ErrorKind;
use clap::{ArgMatches, Command};
use std::alloc::{AllocError, Global};

/// The task of `mud_explain`.
#[derive(Clone, Copy)]
pub enum Task<'a> {
    /// Show how a text is read.
    Text(Subject),
    /// Play the steps of a hall's desks.
    Hall(Opening<'a>),
}

/// The initial state of a hall.
#[derive(Clone, Copy)]
pub struct Opening<'a> {
    /// The greatest number of changes in the history, 1 to 65,536.
    pub capacity: u32,
    /// The file of the history that the hall continues, if there is one.
    pub load: Option<&'a str>,
}

/// Reads the words of `mud_explain`. The first word is the program's name.
pub fn task_of<'a>(alloc: Global, words: &'a [String]) -> Result<Task<'a>, CommandFault>
    ensures { IfOk result IsWithin }
{
    let mut matched = Matched::new(alloc, command(alloc), words)?;
    let task = explained_in(&matched.words);
    matched.fit(alloc, ErrorKind::MissingSubcommand, task)
}

// Returns the task that the matched words name, or the message that they name none.
fn explained_in<'a>(matches: &ArgMatches<'a>) -> Result<Task<'a>, Unfit>
    ensures { IfOk result IsWithin }
{
    match task_in(matches) {
        Some(task) => Ok(task),
        None => Err(Unfit::Told("what is to be explained?")),
    }
}

// Returns the task that the matched words name.
fn task_in<'a>(matches: &ArgMatches<'a>) -> Option<Task<'a>>
    ensures { IfSome result IsWithin }
{
    match matches.subcommand_matches("hall") {
        Some(hall) => Some(Task::Hall(opening_in(hall)?)),
        None => Some(Task::Text(subject_named(matches.subcommand_name()?)?)),
    }
}

// Returns the initial state of the hall, if its number is within its range.
fn opening_in<'a>(hall: &ArgMatches<'a>) -> Option<Opening<'a>>
    ensures least { IfSome result (λ opening. 1 ≤ opening.capacity) }
    ensures most { IfSome result (λ opening. opening.capacity ≤ MOST_CAPACITY) }
{
    match hall.get_one::<u32>("capacity") {
        Some(capacity @ 1..=MOST_CAPACITY) => Some(Opening {
            capacity,
            load: hall.get_str("load"),
        }),
        _ => None,
    }
}

// Builds the `clap` command.
fn command<'a>(alloc: Global) -> Result<Command<'a>, AllocError> {
    let about = "Tells how the text of standard input is read, and what desks of a hall answer";
    program_of(alloc, "mud_explain", about, &FORMS)
}

// The forms of `mud_explain`.
static FORMS: [Form<'static>; 6] = [
    Form {
        name: "units",
        about: "The units of a Telnet stream",
        arguments: &[],
    },
    Form {
        name: "words",
        about: "The words of each line",
        arguments: &[],
    },
    Form {
        name: "parse",
        about: "The verb of each line, its objects, its preposition and its rest",
        arguments: &[],
    },
    Form {
        name: "names",
        about: "The names that each line is",
        arguments: &[],
    },
    Form {
        name: "key",
        about: "The key that each line is, with every pair of parentheses, or where it goes wrong",
        arguments: &[],
    },
    Form {
        name: "hall",
        about: "What each line, a step of a desk, comes to in one hall",
        arguments: &[CAPACITY, LOAD],
    },
];
