//! A folder of the operating system. Nothing is claimed about its contents.

use crate::draft::Draft;
use crate::names::volume_name;
use crate::shelf::Shelf;
use mud_chron::Entry;
use mud_journal::{
    Disk, DiskFault, Found, Journal, JournalFile, NamedFiles, Nameless, OpenFault, find_journal,
};
use std::alloc::AllocError;
use std::fs::{self, File};
use std::io::{self, ErrorKind, Write};
use std::os::unix::fs::{MetadataExt, fchown};
use std::os::unix::io::AsFd;
use std::rt::Files;

/// The folder of a journal.
#[derive(Drop)]
pub struct VolumeFolder<'r, R: Files<File = File>> {
    rt: &'r R,
    // Empty for the working folder; else it ends with a slash.
    path: String,
}

/// A file of that folder which is to be a volume, locked by this process.
#[derive(Drop)]
pub struct DraftFile<'r, R: NamedFiles> {
    rt: &'r R,
    file: File,
    folder: String,
    temporary: String,
    volume: String,
}

/// Returns the folder of the journal with this name, and the name within the folder.
pub fn folder_of<'r, 'j, R: Files<File = File> + AllocGlobal + Clone + Drop>(
    rt: &'r R,
    journal: &'j str,
) -> Result<(VolumeFolder<'r, R>, &'j str), AllocError> {
    match journal.rsplit_once('/') {
        Some((folder, name)) => {
            let path = format!(in rt.alloc(); "{folder}/")?;
            Ok((VolumeFolder { rt, path }, name))
        }
        None => {
            let path = String::new(rt.alloc());
            Ok((VolumeFolder { rt, path }, journal))
        }
    }
}

// Gives a new file the mode of the file with this name, and its owner if this process is allowed to.
fn take_after<R: Files<File = File>>(rt: &R, old: &str, new: &File) -> io::Result<()> {
    let about = fs::metadata(rt, old)?;
    let _ = fchown(new.as_fd(), Some(about.uid()), Some(about.gid()));
    new.set_permissions(about.permissions())
}

impl<'r, R: Files<File = File> + AllocGlobal + Clone + Drop> VolumeFolder<'r, R> {
    // Returns the path of the folder.
    fn folder(&self) -> &str {
        if self.path.is_empty() {
            return ".";
        }
        self.path.as_str()
    }

    // Returns the path of a file of the folder.
    fn path_of(&self, name: &str) -> Result<String, AllocError> {
        let path = self.path.as_str();
        format!(in self.rt.alloc(); "{path}{name}")
    }

    // Returns the path of the file that is to be a volume of this journal.
    fn temporary(&self, journal: &str) -> Result<String, AllocError> {
        let path = self.path.as_str();
        format!(in self.rt.alloc(); "{path}{journal}.new")
    }

    /// Removes the file that was to be a volume of this journal, if a crash left it.
    pub fn clear(&self, journal: &str) -> io::Result<()> {
        self.rt.remove(self.temporary(journal)?.as_str())
    }

    // Returns the names of the files that begin with this one.
    fn names_from(&self, front: &str) -> io::Result<Vec<String>> {
        let alloc = self.rt.alloc();
        let mut names = Vec::new(alloc);
        for entry in fs::read_dir(self.rt, self.folder())? {
            let entry = match entry {
                // a name that is no text belongs to no volume
                Err(error) if error.kind() == ErrorKind::InvalidFilename => continue,
                entry => entry?,
            };
            if entry.file_name().starts_with(front) {
                names.push(String::from_str(alloc, entry.file_name())?)?;
            }
        }
        Ok(names)
    }

    // Creates and locks an empty file that is to be the volume with this number.
    fn make(&self, journal: &str, number: u32) -> io::Result<DraftFile<'r, R>> {
        let (rt, alloc) = (self.rt, self.rt.alloc());
        let old = volume_name(alloc, journal, number.saturating_sub(1))?;
        let volume = volume_name(alloc, journal, number)?;
        let temporary = self.temporary(journal)?;
        rt.remove(temporary.as_str())?;
        let file = rt.create_new(temporary.as_str())?;
        take_after(rt, self.path_of(old.as_str())?.as_str(), &file)?;
        file.try_lock()?;
        // a sync of its data alone need not keep its owner and mode
        file.sync_all()?;
        Ok(DraftFile {
            rt,
            file,
            folder: String::from_str(alloc, self.folder())?,
            temporary,
            volume: self.path_of(volume.as_str())?,
        })
    }
}

impl<'r, R: Files<File = File> + NamedFiles + AllocGlobal + Clone + Drop + Sync> Shelf
    for VolumeFolder<'r, R> {
    type Disk = JournalFile<'r, R>;

    type Draft = DraftFile<'r, R>;

    ghost use Rattle.std.specs.Prelude.{None};

    ghost files = { λ _. None };

    ghost finished = { λ _. None };

    fn names(&self, journal: &str) -> Result<Vec<String>, OpenFault> {
        self.names_from(journal)
            .map_err(|error| OpenFault::File(DiskFault::of(&error)))
    }

    fn find(
        &self,
        name: &str,
    ) -> Result<(Found<JournalFile<'r, R>>, Vec<Entry>, usize), OpenFault> {
        let path = self.path_of(name)?;
        find_journal(self.rt, path.as_str())
    }

    fn draft(&mut self, journal: &str, number: u32) -> Result<DraftFile<'r, R>, DiskFault> {
        self.make(journal, number)
            .map_err(|error| DiskFault::of(&error))
    }

    fn finish<D: Disk + Drop>(&mut self, journal: Journal<Nameless, D>) {
        drop(journal);
    }
}

impl<R: NamedFiles> Draft for DraftFile<'_, R> {
    ghost use Rattle.std.specs.Prelude.{None};
    ghost use Rattle.mud_journal.specs.Crash.{AreAny};

    ghost stage = { λ _. None };

    ghost number = { λ _. None };

    ghost tears = { AreAny };

    ghost moment = { λ _. 0 };

    ghost left_since = { λ _ _ _. Unit {0} };

    ghost unknown = { λ _ _ _ _. tt };

    ghost left = { λ _ _ _. tt };

    fn append(&mut self, bytes: &[u8]) -> Result<(), DiskFault> {
        self.file
            .write_all(bytes)
            .map_err(|error| DiskFault::of(&error))
    }

    fn sync(&mut self) -> Result<(), DiskFault> {
        self.file.sync_data().map_err(|error| DiskFault::of(&error))
    }

    fn rename(&mut self) -> Result<(), DiskFault> {
        let volume = self.volume.as_str();
        match self.rt.about(volume) {
            Err(error) if error.kind() == ErrorKind::NotFound => {}
            Err(error) => return Err(DiskFault::of(&error)),
            Ok(_) => return Err(DiskFault::Busy),
        }
        self.rt
            .rename(self.temporary.as_str(), volume)
            .map_err(|error| DiskFault::of(&error))
    }

    fn is_renamed(&mut self) -> Result<bool, DiskFault> {
        let named = match self.rt.about(self.volume.as_str()) {
            Err(error) if error.kind() == ErrorKind::NotFound => return Ok(false),
            Err(error) => return Err(DiskFault::of(&error)),
            Ok(named) => named,
        };
        let opened = self.file.metadata().map_err(|error| DiskFault::of(&error))?;
        Ok(named.dev() == opened.dev() && named.ino() == opened.ino())
    }

    fn sync_folder(&mut self) -> Result<(), DiskFault> {
        self.rt
            .sync_folder(self.folder.as_str())
            .map_err(|error| DiskFault::of(&error))
    }

    fn discard(&mut self) {
        let _ = self.rt.remove(self.temporary.as_str());
    }
}
