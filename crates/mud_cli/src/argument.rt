//! Tables of the arguments of a command line.

use crate::limits::{MOST_CAPACITY, MOST_WORKERS};
use clap::builder::ValueParser;
use clap::{Arg, ArgAction};
use std::alloc::{AllocError, Global};

// An argument: an option, or a positional file.
#[derive(Clone, Copy)]
pub(crate) struct Argument<'a> {
    pub(crate) name: &'a str,
    // True for an option, false for a positional argument.
    pub(crate) is_option: bool,
    // The action of `clap` when the argument is present.
    pub(crate) action: ArgAction,
    // The name of the option's value in the help text, if it has a value.
    pub(crate) value: &'a [&'a str],
    // The parser of the value.
    pub(crate) parser: ValueParser<'a>,
    // True if the argument must be present.
    pub(crate) is_required: bool,
    // The default value, if there is one.
    pub(crate) default: &'a [&'a str],
    // The options that must be present whenever this one is.
    pub(crate) beside: &'a [&'a str],
    pub(crate) help: &'a str,
}

// An optional positional file.
pub(crate) const PLACE: Argument = Argument {
    name: "",
    is_option: false,
    action: ArgAction::Set,
    value: &[],
    parser: ValueParser::String,
    is_required: false,
    default: &[],
    beside: &[],
    help: "",
};

// A list of texts by position, after the other positions.
pub(crate) const PLACES: Argument = Argument {
    action: ArgAction::Append,
    ..PLACE
};

// An optional option that takes a text.
pub(crate) const OPTION: Argument = Argument {
    is_option: true,
    ..PLACE
};

// A flag without a value.
pub(crate) const FLAG: Argument = Argument {
    action: ArgAction::SetTrue,
    parser: ValueParser::Bool,
    ..OPTION
};

// An option that takes a 32-bit number.
pub(crate) const NUMBER: Argument = Argument {
    value: &["N"],
    parser: ValueParser::Signed(0, 4_294_967_295),
    ..OPTION
};

// The number of workers that answer a question.
pub(crate) const WORKERS: Argument = Argument {
    name: "workers",
    parser: ValueParser::Signed(0, MOST_WORKERS as i64),
    default: &["0"],
    help: "How many workers answer a question, 0 to 8",
    ..NUMBER
};

// The number of changes that a history can hold.
pub(crate) const CAPACITY: Argument = Argument {
    name: "capacity",
    parser: ValueParser::Signed(1, MOST_CAPACITY as i64),
    default: &["65536"],
    help: "How many changes the history holds, 1 to 65536",
    ..NUMBER
};

// The history that a hall continues.
pub(crate) const LOAD: Argument = Argument {
    name: "load",
    value: &["FILE"],
    help: "The history that the hall goes on from",
    ..OPTION
};

// Returns a `clap` argument with the name and the action of a row.
fn named<'a>(alloc: Global, argument: &Argument<'a>) -> Arg<'a> {
    let arg = Arg::new(alloc, argument.name).action(argument.action);
    if argument.is_option {
        arg.long(argument.name)
    } else {
        arg
    }
}

// Returns the `clap` argument of a row.
pub(crate) fn arg_of<'a>(alloc: Global, argument: &Argument<'a>) -> Result<Arg<'a>, AllocError> {
    named(alloc, argument)
        .value_names(argument.value)
        .value_parser(argument.parser)
        .default_values(argument.default)
        .required(argument.is_required)
        .help(argument.help)
        .requires_all(argument.beside)
}
