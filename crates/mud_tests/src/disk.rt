//! A disk in memory whose contents a contract states. A list decides which of its calls fail, and a crash cuts its
//! contents and leaves holes.

ghost use Rattle.std.specs.Prelude.{◌≡◌, ◌<◌, ◌⊎◌, IfOk, length, get_or};
ghost use Rattle.mud_journal.specs.Crash.{AreThere, IsLeft};
ghost use Rattle.mud_tests.specs.inner.Disks.{kept_of, Remembers, LeftSince, left_now};

use mud_journal::{Appends, Disk, DiskFault};
use std::alloc::{AllocError, Global};
use std::io::{self, Read};

// The fate of a disk's call: it is done; it fails without effect; or it fails with an effect, which for an append may
// be partial.
#[derive(Clone, Copy, PartialEq, Eq)]
pub(crate) enum Fate {
    Done,
    Fails,
    Tears,
}

// The contents of a disk before one of its calls.
#[derive(Drop)]
pub(crate) struct Image {
    is_made: bool,
    synced: Vec<u8>,
    unsynced: Vec<u8>,
}

// The contents of a disk: the bytes written and synced, the bytes written since, and the earlier bytes, about which
// nothing is known. It has the contents before each call so far. The last fate is that of the next call; without fates
// calls are done.
#[derive(Drop)]
pub(crate) struct Store {
    alloc: Global,
    had: Vec<u8>,
    pub(crate) is_made: bool,
    pub(crate) synced: Vec<u8>,
    pub(crate) unsynced: Vec<u8>,
    past: Vec<Image>,
    pub(crate) fates: Vec<Fate>,
}

impl Store {
    // Returns a disk that has these bytes.
    pub(crate) fn new(alloc: Global, had: Vec<u8>) -> Store {
        Store {
            alloc,
            had,
            is_made: false,
            synced: Vec::new(alloc),
            unsynced: Vec::new(alloc),
            past: Vec::new(alloc),
            fates: Vec::new(alloc),
        }
    }

    // Returns a copy of the contents.
    fn image(&self) -> Result<Image, AllocError>
        ensures made { IfOk result (λ i. i.is_made ≡ self.now.is_made) }
        ensures synced { IfOk result (λ i. i.synced.items ≡ self.now.synced.items) }
        ensures unsynced { IfOk result (λ i. i.unsynced.items ≡ self.now.unsynced.items) }
    {
        Ok(Image {
            is_made: self.is_made,
            synced: Vec::from_slice(self.alloc, &self.synced)?,
            unsynced: Vec::from_slice(self.alloc, &self.unsynced)?,
        })
    }

    // Returns the bytes that a read returns, which a crash may lose.
    pub(crate) fn read_all(&self) -> Result<Vec<u8>, AllocError> {
        if !self.is_made {
            return Vec::from_slice(self.alloc, &self.had);
        }
        let mut bytes = Vec::from_slice(self.alloc, &self.synced)?;
        bytes.extend_from_slice(&self.unsynced)?;
        Ok(bytes)
    }

    // Returns the bytes after a crash: the synced ones, and `more` bytes after them, with holes.
    pub(crate) fn crash(&self, more: usize, hole: usize) -> Result<Vec<u8>, AllocError>
        ensures { IfOk result (λ v.
            IsLeft AreThere (kept_of self.now.is_made self.now.synced.items self.now.unsynced.items) v.items) }
    {
        if !self.is_made {
            return Vec::from_slice(self.alloc, &self.had);
        }
        let behind = holes(self.alloc, &self.unsynced, more, hole)?;
        let mut bytes = Vec::from_slice(self.alloc, &self.synced)?;
        bytes.extend_from_slice(&behind)?;
        Ok(bytes)
    }
}

// Returns the byte left at a place where these bytes were written: the byte itself, or a zero at each `hole`-th place
// and past the end.
fn byte_left(written: &[u8], at: usize, hole: usize) -> u8
    ensures { (at < length written.now) × (result ≡ get_or written.now at 0) ⊎ (result ≡ 0) }
{
    if at >= written.len() || hole > 0 && at % hole == 0 {
        return 0;
    }
    written[at]
}

// Returns the bytes left of these bytes at `count` places.
fn holes(alloc: Global, written: &[u8], count: usize, hole: usize) -> Result<Vec<u8>, AllocError>
    ensures { IfOk result (λ v. AreThere written.now v.items) }
{
    let mut bytes = Vec::new(alloc);
    for at in 0..count {
        bytes.push(byte_left(written, at, hole))?;
    }
    Ok(bytes)
}

// A disk, read from its beginning.
#[derive(Drop)]
pub(crate) struct KnownDisk<'s> {
    pub(crate) store: &'s mut Store,
    pub(crate) unread: &'s [u8],
}

impl KnownDisk<'_> {
    // Keeps a copy of the contents, and returns the fate of the next call, or `None` if an allocation fails.
    fn begin_call(&mut self) -> Option<Fate>
        ensures made { self.new.store.now.is_made ≡ self.old.store.now.is_made }
        ensures synced { self.new.store.now.synced.items ≡ self.old.store.now.synced.items }
        ensures unsynced { self.new.store.now.unsynced.items ≡ self.old.store.now.unsynced.items }
        ensures past { Remembers self.old.store.now.past.items self.new.store.now.past.items
            self.old.store.now.is_made self.old.store.now.synced.items self.old.store.now.unsynced.items }
    {
        let Ok(image) = self.store.image() else {
            return None;
        };
        if self.store.past.push(image).is_err() {
            return None;
        }
        Some(self.store.fates.pop().unwrap_or(Fate::Done))
    }
}

impl Read for KnownDisk<'_> {
    ghost use Rattle.std.specs.Prelude.{Some};

    ghost remaining = { λ d. Some d.unread.now };

    fn read(&mut self, buf: &mut [u8]) -> io::Result<usize> {
        self.unread.read(buf)
    }
}

impl Appends for KnownDisk<'_> {
    ghost kept = { λ d. kept_of d.store.now.is_made d.store.now.synced.items d.store.now.unsynced.items };

    ghost tears = { AreThere };

    ghost moment = { λ d. length d.store.now.past.items };

    ghost left_since = { λ d moment bytes. LeftSince d.store.now.is_made d.store.now.synced.items
        d.store.now.unsynced.items d.store.now.past.items moment bytes };

    ghost left = { λ d bytes since. left_now d.store.now.is_made d.store.now.synced.items
        d.store.now.unsynced.items d.store.now.past.items bytes since };

    fn append(&mut self, bytes: &[u8]) -> Result<(), DiskFault> {
        let Some(fate) = self.begin_call() else {
            return Err(DiskFault::Failed);
        };
        let count = match fate {
            Fate::Done => bytes.len(),
            Fate::Fails => 0,
            Fate::Tears => bytes.len() / 2,
        };
        if self
            .store
            .unsynced
            .extend_from_slice(&bytes[..count])
            .is_err()
        {
            return Err(DiskFault::Failed);
        }
        if fate == Fate::Done {
            Ok(())
        } else {
            Err(DiskFault::NoSpace)
        }
    }

    fn sync(&mut self) -> Result<(), DiskFault> {
        if self.begin_call() != Some(Fate::Done) {
            return Err(DiskFault::Failed);
        }
        let Store {
            synced,
            unsynced,
            ..
        } = &mut *self.store;
        if synced.extend_from_slice(unsynced).is_err() {
            return Err(DiskFault::Failed);
        }
        unsynced.clear();
        Ok(())
    }
}

impl Disk for KnownDisk<'_> {
    fn replace(&mut self, bytes: &[u8]) -> Result<(), DiskFault> {
        let Some(fate) = self.begin_call() else {
            return Err(DiskFault::Failed);
        };
        if fate == Fate::Fails {
            return Err(DiskFault::NoSpace);
        }
        let Ok(made) = Vec::from_slice(self.store.alloc, bytes) else {
            return Err(DiskFault::Failed);
        };
        self.store.is_made = true;
        self.store.synced = made;
        self.store.unsynced = Vec::new(self.store.alloc);
        if fate == Fate::Tears {
            return Err(DiskFault::Failed);
        }
        Ok(())
    }
}
