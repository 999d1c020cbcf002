//! Tables of the forms of a command line.

use crate::argument::{Argument, arg_of};
use crate::build::VERSION;
use clap::Command;
use std::alloc::{AllocError, Global};

// A form of a command line: its name, its description in the help text, and its arguments in the order of the help
// text.
#[derive(Clone, Copy)]
pub(crate) struct Form<'a> {
    pub(crate) name: &'a str,
    pub(crate) about: &'a str,
    pub(crate) arguments: &'a [Argument<'a>],
}

// Returns the `clap` command of a form.
pub(crate) fn command_of<'a>(alloc: Global, form: &Form<'a>) -> Result<Command<'a>, AllocError> {
    let mut args = Vec::new(alloc);
    for argument in form.arguments {
        args.push(arg_of(alloc, argument)?)?;
    }
    Command::new(alloc, form.name).about(form.about).args(args)
}

// Returns the `clap` command of a program that has these forms.
pub(crate) fn program_of<'a>(
    alloc: Global,
    name: &'a str,
    about: &'a str,
    forms: &[Form<'a>],
) -> Result<Command<'a>, AllocError> {
    let mut commands = Vec::new(alloc);
    for form in forms {
        commands.push(command_of(alloc, form)?)?;
    }
    Command::new(alloc, name)
        .version(VERSION)
        .about(about)
        .subcommand_required(true)
        .subcommands(commands)
}
