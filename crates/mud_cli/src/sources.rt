//! The command line of `mud_check`.

use crate::argument::{Argument, PLACE};
use crate::build::VERSION;
use crate::fault::CommandFault;
use crate::form::{Form, command_of};
use crate::matches::{Matched, Unfit};
use clap::error::ErrorKind;
use clap::{ArgMatches, Command};
use std::alloc::{AllocError, Global};

/// The places of a history's text and of a proof's text.
#[derive(Clone, Copy)]
pub enum Sources<'a> {
    /// Two files with these names.
    Files { history: &'a str, proof: &'a str },
    /// Standard input, the history first.
    Input,
}

/// Reads the words of `mud_check`. The first word is the program's name. Two more words name two files; without them
/// both texts come from standard input.
pub fn sources_of<'a>(alloc: Global, words: &'a [String]) -> Result<Sources<'a>, CommandFault> {
    let mut matched = Matched::new(alloc, command(alloc), words)?;
    let task = sources_in(&matched.words);
    matched.fit(alloc, ErrorKind::MissingRequiredArgument, task)
}

// Returns the two files, if both are named.
fn sources_in<'a>(matches: &ArgMatches<'a>) -> Result<Sources<'a>, Unfit> {
    match (matches.get_str("HISTORY"), matches.get_str("PROOF")) {
        (Some(history), Some(proof)) => Ok(Sources::Files { history, proof }),
        (None, None) => Ok(Sources::Input),
        (Some(_), None) | (None, Some(_)) => Err(Unfit::Told("a history needs a proof beside it")),
    }
}

// Builds the `clap` command.
fn command<'a>(alloc: Global) -> Result<Command<'a>, AllocError> {
    Ok(command_of(alloc, &FORM)?.version(VERSION))
}

// The form of `mud_check`.
static FORM: Form<'static> = Form {
    name: "mud_check",
    about: "Tries a certificate against a history; without files it reads the history's text and then the \
        proof's from standard input",
    arguments: &[
        Argument {
            name: "HISTORY",
            help: "The file of the history's text",
            ..PLACE
        },
        Argument {
            name: "PROOF",
            help: "The file of the proof's text",
            ..PLACE
        },
    ],
};
