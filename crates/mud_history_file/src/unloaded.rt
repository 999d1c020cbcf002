//! The reasons why a hall does not continue a file.

ghost use Rattle.std.specs.Prelude.{◌≡◌, ◌≢◌};
ghost use Rattle.std.specs.IoError.{error_kind};
ghost use Rattle.mud_history_file.specs.Unloaded.{unloaded_text, unloaded_entries};

use mud_chron::ChronFault;
use mud_hall::LoadFault;
use std::io::{self, ErrorKind};
use thiserror::Error;

/// The reason why a hall does not continue a file.
#[derive(Clone, Copy, Debug, PartialEq, Eq, Error)]
pub enum Unloaded {
    /// An allocation failed.
    #[error("out of memory")]
    OutOfMemory,
    /// The file can't be read.
    #[error("file")]
    File,
    /// The text does not begin as a history.
    #[error("not a history")]
    NotHistory,
    /// This line of the text, counted from 1, is bad.
    #[error("history line {0}")]
    Line(usize),
    /// This entry, counted from 1, is illegal where it occurs.
    #[error("history change {0}")]
    Change(usize),
    /// The text has more than 65,536 entries.
    #[error("history too long")]
    TooLong,
    /// The text ends before its last line does.
    #[error("history without end")]
    NoEnd,
    /// A history was to be loaded, and the journal already has one.
    #[error("journal is not empty")]
    NotEmpty,
    /// The hall has room for fewer entries.
    #[error("over capacity")]
    OverCapacity,
    /// The hall did not take an entry.
    #[error("not stored")]
    NotStored,
}

impl Unloaded {
    /// Returns the reason why a file was not read.
    pub fn of_file(error: &io::Error) -> Unloaded
        ensures memory { error_kind error.now ≡ ErrorKind.OutOfMemory → result ≡ Unloaded.OutOfMemory }
        ensures file { error_kind error.now ≢ ErrorKind.OutOfMemory → result ≡ Unloaded.File }
    {
        match error.kind() {
            ErrorKind::OutOfMemory => Unloaded::OutOfMemory,
            _ => Unloaded::File,
        }
    }

    /// Returns the reason why a text is not a history.
    pub fn of_text(fault: ChronFault) -> Unloaded
        ensures { result ≡ unloaded_text fault }
    {
        match fault {
            ChronFault::OutOfMemory => Unloaded::OutOfMemory,
            ChronFault::NotHistory => Unloaded::NotHistory,
            ChronFault::BadLine(line) => Unloaded::Line(line),
            ChronFault::BadChange(entry) => Unloaded::Change(entry),
            ChronFault::TooLong => Unloaded::TooLong,
            ChronFault::NoEnd => Unloaded::NoEnd,
        }
    }

    /// Returns the reason why a hall does not continue these entries.
    pub fn of_entries(fault: &LoadFault) -> Unloaded
        ensures { result ≡ unloaded_entries fault.now }
    {
        match fault {
            LoadFault::OutOfMemory => Unloaded::OutOfMemory,
            LoadFault::BadChange(entry) => Unloaded::Change(*entry),
            LoadFault::OverCapacity => Unloaded::OverCapacity,
            LoadFault::NotStored => Unloaded::NotStored,
        }
    }
}
