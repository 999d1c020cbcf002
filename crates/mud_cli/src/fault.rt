//! The reasons why a program has no task after its command line was read.

ghost use Rattle.std.specs.Prelude.{◌≡◌};
ghost use Rattle.clap.specs.Values.{kind_of};
ghost use Rattle.mud_cli.specs.inner.Fault.{IsOfKind};

use clap::Error;
use clap::error::ErrorKind;
use std::alloc::Global;
use std::io::Eprint;
use thiserror::Error;

/// The reason why the words of a command line give a program no task.
#[derive(Debug, Drop, Error)]
pub enum CommandFault {
    /// An allocation failed.
    #[error("out of memory")]
    OutOfMemory,
    /// The words are wrong. The text says how, in whole lines.
    #[error("{0}")]
    Told(String),
    /// The words ask for help or for the version. The text is the help or the version, in whole lines.
    #[error("{0}")]
    Asked(String),
}

// Returns an error of `clap` as a fault. Text for standard output means that help or the version was asked for.
pub(crate) fn fault_of_error(alloc: Global, error: &Error) -> CommandFault
    ensures memory { kind_of error.now ≡ ErrorKind.OutOfMemory → result ≡ CommandFault.OutOfMemory }
    ensures kind { IsOfKind (kind_of error.now) result }
{
    if error.kind() == ErrorKind::OutOfMemory {
        return CommandFault::OutOfMemory;
    }
    match format!(in alloc; "{error}") {
        Ok(text) if error.use_stderr() => CommandFault::Told(text),
        Ok(text) => CommandFault::Asked(text),
        Err(_) => CommandFault::OutOfMemory,
    }
}

/// Writes the text of a fault to standard error, ignoring a failed write. Returns 2, the exit status of a wrong command
/// line.
pub fn show<R: Eprint>(rt: &R, text: &str) -> u8
    ensures { result ≡ 2 }
{
    let _ = rt.eprint(text);
    2
}
