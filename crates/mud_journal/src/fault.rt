//! The faults of opening a journal, and of writing to one.

ghost use Rattle.std.specs.Prelude.{ℕ, List, Option};
ghost use Rattle.mud_journal.specs.OpenFaults.{IsUnfoundAs};

use crate::disk::DiskFault;
use std::alloc::{AllocError, AllocFailed};
use std::io::{self, ErrorKind};
use thiserror::Error;

/// The reason why a file has no journal to continue. No byte of the file has changed; the file may be new.
#[derive(Clone, Copy, Debug, PartialEq, Eq, Error)]
pub enum OpenFault {
    /// An allocation failed.
    #[error("out of memory")]
    OutOfMemory,
    /// The file can't be opened, locked or read, or a new one can't take its place.
    #[error("file: {0}")]
    File(DiskFault),
    /// The name belongs to a folder, a device, a pipe or a socket.
    #[error("not a plain file")]
    NotPlain,
    /// Another process has locked the file.
    #[error("in use")]
    InUse,
    /// The bytes do not begin as a history, or there are more of them than a journal can have.
    #[error("not a history")]
    NotHistory,
    /// The text is a whole history: a journal has no last line.
    #[error("a whole history: load it, or take its last line off")]
    Whole,
    /// The journal has format 1, which is no longer written.
    #[error("old format")]
    Old,
    /// This line of the text, counted from 1, is not the line of the next entry.
    #[error("journal line {0}")]
    Line(usize),
    /// The text has more than 65,536 entries.
    #[error("too long")]
    TooLong,
}

impl OpenFault {
    // Returns the fault of a failed system call.
    pub(crate) fn of_file(error: &io::Error) -> OpenFault
        ensures { (known : Option (List ℕ)) → IsUnfoundAs known result }
    {
        match error.kind() {
            ErrorKind::OutOfMemory => OpenFault::OutOfMemory,
            _ => OpenFault::File(DiskFault::of(error)),
        }
    }
}

impl From<AllocError> for OpenFault {
    ghost use Rattle.std.specs.Prelude.{◌≡◌};
    ghost use Rattle.mud_journal.specs.declared.fault.OpenFault.TheVariants.{OutOfMemory};

    ghost from_gives = { λ _ e. e ≡ OutOfMemory };

    fn from(_e: AllocError) -> OpenFault {
        OpenFault::OutOfMemory
    }
}

impl From<DiskFault> for OpenFault {
    ghost use Rattle.std.specs.Prelude.{◌≡◌};
    ghost use Rattle.mud_journal.specs.declared.fault.OpenFault.TheVariants.{File};

    ghost from_gives = { λ f e. e ≡ File f };

    fn from(f: DiskFault) -> OpenFault {
        OpenFault::File(f)
    }
}

/// The reason why a journal accepts no more entries.
#[derive(Clone, Copy, Debug, PartialEq, Eq, Error)]
pub enum JournalFault {
    /// An allocation for the text to write failed.
    #[error("out of memory")]
    OutOfMemory,
    /// The disk failed.
    #[error("disk")]
    Disk,
    /// The journal would have more than 65,536 entries.
    #[error("full")]
    Full,
    /// The entries are not those that the desks made. No call of this crate returns it.
    #[error("mismatch")]
    Mismatch,
}

impl From<AllocError> for JournalFault {
    ghost use Rattle.std.specs.Prelude.{◌≡◌};
    ghost use Rattle.mud_journal.specs.declared.fault.JournalFault.TheVariants.{OutOfMemory};

    ghost from_gives = { λ _ e. e ≡ OutOfMemory };

    fn from(_e: AllocError) -> JournalFault {
        JournalFault::OutOfMemory
    }
}

impl<T: Drop> From<AllocFailed<T>> for JournalFault {
    ghost use Rattle.std.specs.Prelude.{◌≡◌};
    ghost use Rattle.mud_journal.specs.declared.fault.JournalFault.TheVariants.{OutOfMemory};

    ghost from_gives = { λ _ e. e ≡ OutOfMemory };

    fn from(_e: AllocFailed<T>) -> JournalFault {
        JournalFault::OutOfMemory
    }
}

impl From<DiskFault> for JournalFault {
    ghost use Rattle.std.specs.Prelude.{◌≡◌};
    ghost use Rattle.mud_journal.specs.declared.fault.JournalFault.TheVariants.{Disk};

    ghost from_gives = { λ _ e. e ≡ Disk };

    fn from(_e: DiskFault) -> JournalFault {
        JournalFault::Disk
    }
}
