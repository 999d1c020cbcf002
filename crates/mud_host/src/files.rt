//! The files that the host's threads write.

use std::fs::{self, File, OpenOptions};
use std::io::{self, Write};
use std::os::unix::fs::OpenOptionsExt;
use std::rt::Files;

// Only the user that runs the server may read and write the file of the bans.
const BANS_MODE: u32 = 0o600;

// The log file: its owner may write it, and the owner's group may read it.
const LOG_MODE: u32 = 0o640;

/// The files that the host's threads write.
///
/// The prover lets a thread start with a bound on this trait. With one on [`Files`], which has types of its own, it
/// does not.
pub trait HostFiles {
    /// Writes the text of the bans to a new file, syncs it, and renames it. So a crash leaves the old file, or the new
    /// one.
    fn replace_bans(&self, name: &str, text: &str) -> io::Result<()>;

    /// Opens a log file to append lines to it. It is created if it does not exist.
    fn open_log(&self, name: &str) -> io::Result<File>;
}

impl<R: Files<File = File> + AllocGlobal> HostFiles for R {
    fn replace_bans(&self, name: &str, text: &str) -> io::Result<()> {
        let beside = format!(in self.alloc(); "{name}.new")?;
        let mut file = OpenOptions::new()
            .write(true)
            .create(true)
            .truncate(true)
            .mode(BANS_MODE)
            .open(self, beside.as_str())?;
        file.write_all(text.as_bytes())?;
        file.sync_all()?;
        fs::rename(self, beside.as_str(), name)
    }

    fn open_log(&self, name: &str) -> io::Result<File> {
        OpenOptions::new()
            .append(true)
            .create(true)
            .mode(LOG_MODE)
            .open(self, name)
    }
}
