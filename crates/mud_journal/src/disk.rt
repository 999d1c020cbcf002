//! The disk of a journal: a file that is replaced whole, and then only grows.

ghost use Rattle.std.specs.Prelude.{ℕ, List, Option, Some, OnOk, OnErr, take};
ghost use Rattle.mud_journal.specs.Disk.{Kept, Grows, Syncs, Stays, IsMade, made};
ghost use Rattle.mud_journal.specs.Crash.{IsLeft, Elapses};

use std::io::{self, ErrorKind};
use thiserror::Error;

/// The reason why a call of a disk failed.
#[derive(Clone, Copy, Debug, PartialEq, Eq, Error)]
pub enum DiskFault {
    /// There is no folder with that name.
    #[error("no such folder")]
    NoFolder,
    /// The user of this process lacks the permission.
    #[error("permission denied")]
    Denied,
    /// The file system is mounted read-only.
    #[error("read-only file system")]
    ReadOnly,
    /// The disk is full.
    #[error("no space")]
    NoSpace,
    /// The user has reached the disk quota.
    #[error("over quota")]
    OverQuota,
    /// The file would be longer than a file may be.
    #[error("file too large")]
    TooLarge,
    /// The name, or the name of the temporary file beside it, is too long.
    #[error("name too long")]
    LongName,
    /// The symbolic links of the name form a cycle.
    #[error("links in a circle")]
    LinkLoop,
    /// The name belongs to the system, such as a mount point.
    #[error("busy")]
    Busy,
    /// The file system does not support locks.
    #[error("no locks")]
    NoLocks,
    /// Any other failure of a call, such as that of a broken disk.
    #[error("input or output failed")]
    Failed,
}

impl DiskFault {
    /// Returns the fault of a failed system call.
    pub fn of(error: &io::Error) -> DiskFault {
        match error.kind() {
            ErrorKind::NotFound | ErrorKind::NotADirectory => DiskFault::NoFolder,
            ErrorKind::PermissionDenied => DiskFault::Denied,
            ErrorKind::ReadOnlyFilesystem => DiskFault::ReadOnly,
            ErrorKind::StorageFull => DiskFault::NoSpace,
            ErrorKind::QuotaExceeded => DiskFault::OverQuota,
            ErrorKind::FileTooLarge => DiskFault::TooLarge,
            ErrorKind::InvalidFilename => DiskFault::LongName,
            ErrorKind::FilesystemLoop => DiskFault::LinkLoop,
            ErrorKind::ResourceBusy | ErrorKind::ExecutableFileBusy => DiskFault::Busy,
            _ => DiskFault::Failed,
        }
    }
}

/// A file that grows. None of its calls removes a byte: so whatever is synced stays in front, at each moment of each
/// call.
pub trait Appends {
    /// The bytes that this process wrote to the file, and the synced prefix; `None` while nothing is known.
    ghost kept: { Self → Option Kept };

    /// The bytes that a crash may leave of those that were written and not synced. It is `AreThere` for a disk that
    /// leaves each of them or a zero, and `AreAny` for one that also shows the bytes of older files.
    ghost tears: { List ℕ → List ℕ → Type 0 };

    /// A number of the present moment, which no call lowers.
    ghost moment: { Self → ℕ };

    /// The contents that a crash may have left at a moment since that one, in a call or between two.
    ghost left_since: { Self → ℕ → List ℕ → Type 0 };

    /// Appends the bytes. After a fault a prefix of them was appended.
    fn append(&mut self, bytes: &[u8]) -> Result<(), DiskFault>
        ensures ok { OnOk result (Grows (kept self.old) (kept self.new) bytes.now) }
        ensures err { OnErr result ((n : ℕ) × Grows (kept self.old) (kept self.new) (take n bytes.now)) }
        ensures crash { Elapses (moment self.old) (moment self.new) (left_since self.old) (left_since self.new)
            (IsLeft tears (kept self.new)) };

    /// Waits until all appended bytes are durable. After a fault no more bytes are known to be durable, and a later
    /// call does not help.
    fn sync(&mut self) -> Result<(), DiskFault>
        ensures ok { OnOk result (Syncs (kept self.old) (kept self.new)) }
        ensures err { OnErr result (Stays (kept self.old) (kept self.new)) }
        ensures crash { Elapses (moment self.old) (moment self.new) (left_since self.old) (left_since self.new)
            (IsLeft tears (kept self.old)) };

    /// A crash at the present moment leaves the synced bytes, and after them what it may leave of the appended ones.
    ghost left: { (disk : Self) (bytes : List ℕ) → left_since disk (moment disk) bytes
        → IsLeft tears (kept disk) bytes };
}

/// A disk with one file. Bytes from before this process are not known to survive a crash, whatever a read or a sync
/// returned. So the file is first replaced whole by [`Disk::replace`], which is atomic, and then only grows.
pub trait Disk: Appends {
    /// Replaces the whole file by these bytes, and waits until they are durable. A crash meanwhile, or after a fault,
    /// leaves the old contents, or these bytes.
    fn replace(&mut self, bytes: &[u8]) -> Result<(), DiskFault>
        ensures ok { OnOk result (IsMade (Self.kept self.new) bytes.now) }
        ensures crash { Elapses (Self.moment self.old) (Self.moment self.new) (Self.left_since self.old)
            (Self.left_since self.new) (IsLeft Self.tears (Some (made bytes.now))) };
}
