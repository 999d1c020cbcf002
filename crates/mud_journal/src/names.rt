//! The calls that a journal's file makes by name.

use std::fs::{self, File, Metadata, OpenOptions};
use std::io::{self, ErrorKind};
use std::os::unix::fs::OpenOptionsExt;
use std::rt::Files;

// Only the owner of a new journal may read and write it.
const NEW_MODE: u32 = 0o600;

/// The calls that the file of a journal makes by name, while it grows.
///
/// The prover lets a thread have a value with a bound on this trait. With one on [`Files`], which has types of its own,
/// it does not.
pub trait NamedFiles {
    /// Creates a new file to append to, which only its owner may read and write. It is an error if there is one.
    fn create_new(&self, name: &str) -> io::Result<File>;

    /// Removes a file if it exists.
    fn remove(&self, name: &str) -> io::Result<()>;

    /// Gives a file another name, in place of a file that has it.
    fn rename(&self, old: &str, new: &str) -> io::Result<()>;

    /// Returns the facts about the name itself, if it is a symbolic link, or else about the file.
    fn about(&self, name: &str) -> io::Result<Metadata>;

    /// Waits until the names in a folder are durable.
    fn sync_folder(&self, folder: &str) -> io::Result<()>;
}

impl<R: Files<File = File>> NamedFiles for R {
    fn create_new(&self, name: &str) -> io::Result<File> {
        OpenOptions::new()
            .append(true)
            .create_new(true)
            .mode(NEW_MODE)
            .open(self, name)
    }

    fn remove(&self, name: &str) -> io::Result<()> {
        match fs::remove_file(self, name) {
            Err(error) if error.kind() != ErrorKind::NotFound => Err(error),
            _ => Ok(()),
        }
    }

    fn rename(&self, old: &str, new: &str) -> io::Result<()> {
        fs::rename(self, old, new)
    }

    fn about(&self, name: &str) -> io::Result<Metadata> {
        fs::symlink_metadata(self, name)
    }

    fn sync_folder(&self, folder: &str) -> io::Result<()> {
        File::open(self, folder)?.sync_all()
    }
}
