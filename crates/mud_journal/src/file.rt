//! The journal's file.

ghost use Rattle.std.specs.Prelude.{◌≡◌, ◌≤◌, IfOk, length};
ghost use Rattle.mud_world.specs.declared.limits.TheConstants.{MOST_ENTRIES};
ghost use Rattle.mud_chron.specs.declared.format.Format.TheVariants.{Two};
ghost use Rattle.mud_chron.specs.Text.{journal_text};

use crate::disk::{Appends, Disk, DiskFault};
use crate::fault::OpenFault;
use crate::journal::Found;
use crate::names::NamedFiles;
use crate::recovery::found_in;
use mud_chron::Entry;
use std::fs::{self, File, Metadata, OpenOptions, TryLockError};
use std::io::{self, ErrorKind, Read, Write};
use std::os::unix::fs::{MetadataExt, OpenOptionsExt, fchown};
use std::os::unix::io::AsFd;
use std::rt::Files;

// Only the owner of a new journal may read and write it.
const NEW_MODE: u32 = 0o600;

// Greater than the length of any journal: 65,536 entries of about 1,000 bytes are half of it.
const MOST_BYTES: u64 = 134_217_728;

/// The file of a journal by its name, locked by this process.
#[derive(Drop)]
pub struct JournalFile<'r, R: NamedFiles> {
    rt: &'r R,
    file: File,
    // The name is not a symbolic link.
    name: String,
    // The temporary file for a new text, before it takes the name.
    beside: String,
}

// Returns the folder of a file.
fn folder(name: &str) -> &str {
    match name.rsplit_once('/') {
        Some(("", _)) => "/",
        Some((folder, _)) => folder,
        None => ".",
    }
}

// Checks that the kind and the length of a file are possible for a journal.
fn check_kind(about: &Metadata) -> Result<(), OpenFault> {
    if !about.is_file() {
        return Err(OpenFault::NotPlain);
    }
    if about.len() > MOST_BYTES {
        return Err(OpenFault::NotHistory);
    }
    Ok(())
}

// Checks that a file with this name, if there is one, can be a journal. It does not open the file, because that may
// block forever.
fn check_name(rt: &impl Files, name: &str) -> Result<(), OpenFault> {
    match fs::metadata(rt, name) {
        Ok(about) => check_kind(&about),
        Err(error) if error.kind() == ErrorKind::NotFound => Ok(()),
        Err(error) => Err(OpenFault::of_file(&error)),
    }
}

// Opens the file with this name, and creates it if necessary.
fn open_file<R: Files<File = File>>(rt: &R, name: &str) -> io::Result<File> {
    OpenOptions::new()
        .read(true)
        .append(true)
        .create(true)
        .mode(NEW_MODE)
        .open(rt, name)
}

// Locks the file for this process.
fn lock(file: &File) -> Result<(), OpenFault> {
    match file.try_lock() {
        Ok(()) => Ok(()),
        Err(TryLockError::WouldBlock) => Err(OpenFault::InUse),
        Err(TryLockError::Error(_)) => Err(OpenFault::File(DiskFault::NoLocks)),
    }
}

// Returns the name of the file itself if the last part of the name is a symbolic link.
fn resolved<R: Files + AllocGlobal>(rt: &R, name: &str) -> io::Result<String> {
    if fs::symlink_metadata(rt, name)?.is_symlink() {
        let path = fs::canonicalize(rt, name)?;
        return Ok(String::from_str(rt.alloc(), path.as_str())?);
    }
    Ok(String::from_str(rt.alloc(), name)?)
}

// Returns whether the name still belongs to the open file. Another process may have replaced the file between opening
// and locking.
fn is_named<R: Files<File = File>>(rt: &R, file: &File, name: &str) -> io::Result<bool> {
    let (named, opened) = (fs::symlink_metadata(rt, name)?, file.metadata()?);
    Ok(named.dev() == opened.dev() && named.ino() == opened.ino())
}

// Gives a new file the mode of an old one, and its owner if this process is allowed to.
fn take_after(old: &File, new: &File) -> io::Result<()> {
    let about = old.metadata()?;
    let _ = fchown(new.as_fd(), Some(about.uid()), Some(about.gid()));
    new.set_permissions(about.permissions())
}

impl<'r, R: Files<File = File> + AllocGlobal> JournalFile<'r, R> {
    // Returns the journal's file for an open file with this name.
    fn new(rt: &'r R, file: File, name: &str) -> io::Result<JournalFile<'r, R>> {
        let name = resolved(rt, name)?;
        let beside = format!(in rt.alloc(); "{name}.start")?;
        Ok(JournalFile {
            rt,
            file,
            name,
            beside,
        })
    }
}

impl<R: NamedFiles> JournalFile<'_, R> {
    // Writes these bytes to a temporary file, locks it as the old one is, syncs it, and renames it to the journal's
    // name.
    fn write_beside(&self, bytes: &[u8]) -> io::Result<File> {
        let (rt, beside) = (self.rt, self.beside.as_str());
        rt.remove(beside)?;
        let mut new = rt.create_new(beside)?;
        take_after(&self.file, &new)?;
        new.try_lock()?;
        new.write_all(bytes)?;
        new.sync_all()?;
        rt.rename(beside, self.name.as_str())?;
        Ok(new)
    }

    // Waits until the name of the file is durable.
    fn sync_name(&self) -> io::Result<()> {
        self.rt.sync_folder(folder(self.name.as_str()))
    }
}

impl<R: NamedFiles> Read for JournalFile<'_, R> {
    fn read(&mut self, buf: &mut [u8]) -> io::Result<usize> {
        self.file.read(buf)
    }
}

/// A file of the operating system. Nothing is claimed about its contents.
impl<R: NamedFiles> Appends for JournalFile<'_, R> {
    ghost use Rattle.std.specs.Prelude.{None};
    ghost use Rattle.mud_journal.specs.Crash.{AreAny};

    ghost kept = { λ _. None };

    ghost tears = { AreAny };

    ghost moment = { λ _. 0 };

    ghost left_since = { λ _ _ _. Unit {0} };

    ghost left = { λ _ _ _. tt };

    fn append(&mut self, bytes: &[u8]) -> Result<(), DiskFault> {
        self.file
            .write_all(bytes)
            .map_err(|error| DiskFault::of(&error))
    }

    fn sync(&mut self) -> Result<(), DiskFault> {
        self.file.sync_data().map_err(|error| DiskFault::of(&error))
    }
}

impl<R: NamedFiles> Disk for JournalFile<'_, R> {
    fn replace(&mut self, bytes: &[u8]) -> Result<(), DiskFault> {
        match self.write_beside(bytes) {
            Ok(new) => self.file = new,
            Err(error) => {
                let _ = self.rt.remove(self.beside.as_str());
                return Err(DiskFault::of(&error));
            }
        }
        self.sync_name().map_err(|error| DiskFault::of(&error))
    }
}

// Opens and locks the file with this name.
fn take_file<'r, R: Files<File = File> + AllocGlobal>(
    rt: &'r R,
    name: &str,
) -> Result<JournalFile<'r, R>, OpenFault> {
    check_name(rt, name)?;
    let taken = open_file(rt, name).map_err(|error| OpenFault::of_file(&error))?;
    let about = taken
        .metadata()
        .map_err(|error| OpenFault::of_file(&error))?;
    check_kind(&about)?;
    lock(&taken)?;
    let file = JournalFile::new(rt, taken, name).map_err(|error| OpenFault::of_file(&error))?;
    match is_named(rt, &file.file, file.name.as_str()) {
        Ok(true) => Ok(file),
        Ok(false) => Err(OpenFault::InUse),
        Err(error) => Err(OpenFault::of_file(&error)),
    }
}

/// Opens the file with this name, creating it if necessary, and locks it for this process. Returns what [`found_in`]
/// finds in it: the journal, its entries, and the number of torn bytes at its end. No byte of the file changes. A
/// symbolic link is followed.
pub fn find_journal<'r, R: Files<File = File> + AllocGlobal>(
    rt: &'r R,
    name: &str,
) -> Result<(Found<JournalFile<'r, R>>, Vec<Entry>, usize), OpenFault>
    ensures text { IfOk result (λ f. f.0.text.items ≡ journal_text Two f.1.items) }
    ensures count { IfOk result (λ f. f.0.count ≡ length f.1.items) }
    ensures few { IfOk result (λ f. length f.1.items ≤ MOST_ENTRIES) }
{
    found_in(rt.alloc(), take_file(rt, name)?)
}
