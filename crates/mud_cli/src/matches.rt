//! Reads the words of a command line with `clap`.

ghost use Rattle.std.specs.Prelude.{◌≡◌, IfOk, Ok};

use crate::fault::{CommandFault, fault_of_error};
use clap::error::ErrorKind;
use clap::{ArgMatches, Command};
use std::alloc::{AllocError, AllocFailed, Global};

// The reason why words that `clap` accepts name no task.
pub(crate) enum Unfit {
    OutOfMemory,
    Told(&'static str),
}

impl From<AllocError> for Unfit {
    fn from(_e: AllocError) -> Unfit {
        Unfit::OutOfMemory
    }
}

impl<T: Drop> From<AllocFailed<T>> for Unfit {
    fn from(_e: AllocFailed<T>) -> Unfit {
        Unfit::OutOfMemory
    }
}

// A command, and the words that it matched.
pub(crate) struct Matched<'a> {
    command: Command<'a>,
    pub(crate) words: ArgMatches<'a>,
}

impl Drop for Matched<'_> {
    fn drop(self) {
        let Matched { command, words } = self;
        drop(command);
        drop(words);
    }
}

impl<'a> Matched<'a> {
    // Matches the words against a command.
    pub(crate) fn new(
        alloc: Global,
        command: Result<Command<'a>, AllocError>,
        words: &'a [String],
    ) -> Result<Matched<'a>, CommandFault> {
        let Ok(mut command) = command else {
            return Err(CommandFault::OutOfMemory);
        };
        match command.try_get_matches_from_mut(words) {
            Ok(words) => Ok(Matched { command, words }),
            Err(error) => Err(fault_of_error(alloc, &error)),
        }
    }

    // Returns the task, or a fault with an error of this kind.
    pub(crate) fn fit<T: Drop>(
        &mut self,
        alloc: Global,
        kind: ErrorKind,
        task: Result<T, Unfit>,
    ) -> Result<T, CommandFault>
        ensures { IfOk result (λ t. task ≡ Ok t) }
    {
        match task {
            Ok(task) => Ok(task),
            Err(unfit) => Err(self.fault_of(alloc, kind, unfit)),
        }
    }

    // Returns the fault for words that `clap` accepts and the program does not.
    fn fault_of(&mut self, alloc: Global, kind: ErrorKind, unfit: Unfit) -> CommandFault {
        let error = match unfit {
            Unfit::OutOfMemory => Err(AllocError),
            Unfit::Told(message) => self.command.error(kind, message),
        };
        match error {
            Ok(error) => fault_of_error(alloc, &error),
            Err(_) => CommandFault::OutOfMemory,
        }
    }
}
