//! The journal on a disk.

ghost use Rattle.std.specs.Prelude.{◌≡◌, ◌≤◌, ◌+◌, ◌++◌, ◌<◌, ℕ, List, true, false, Err, IfOk, IfErr, OnOk, OnErr};
ghost use Rattle.std.specs.Prelude.{length, string_bytes};
ghost use Rattle.mud_chron.specs.declared.format.Format.TheVariants.{Two};
ghost use Rattle.mud_chron.specs.Entry.{Entry};
ghost use Rattle.mud_chron.specs.Text.{entries_text, journal_text};
ghost use Rattle.mud_journal.specs.Disk.{Holds, Adds, AddsInPart};
ghost use Rattle.mud_journal.specs.Crash.{LeavesAll, LeavesOldOrNew};
ghost use Rattle.mud_journal.specs.OpenFaults.{IsBeginFault};

use crate::disk::{Appends, Disk};
use crate::fault::{JournalFault, OpenFault};
use crossbeam_utils::atomic::Word;
use mud_chron::{Entry, write_entry};
use mud_world::limits::MOST_ENTRIES;
use std::alloc::{AllocError, Global};
use std::marker::PhantomData;

/// The name of a journal that has no name yet.
pub struct Nameless;

/// A proof that this many entries of the journal that `J` names are durable. Only a journal of this name makes such
/// receipts. A gate without a journal makes a free one, which no disk backs.
#[derive(Drop)]
pub struct Receipt<J> {
    up_to: usize,
    is_free: bool,
    of: PhantomData<J>,
}

impl<J> Receipt<J> {
    // Returns the receipt of a gate without a journal, at which no thread waits.
    pub(crate) fn free() -> Receipt<J>
        ensures { (result.up_to ≡ 18446744073709551615) × (result.is_free ≡ true) }
    {
        Receipt {
            up_to: usize::MAX,
            is_free: true,
            of: PhantomData,
        }
    }

    // Returns the receipt for no entries.
    pub(crate) fn of_nothing() -> Receipt<J>
        ensures { (result.up_to ≡ 0) × (result.is_free ≡ false) }
    {
        Receipt {
            up_to: 0,
            is_free: false,
            of: PhantomData,
        }
    }

    // Returns a copy.
    pub(crate) fn again(&self) -> Receipt<J>
        ensures { result ≡ self.now }
    {
        Receipt {
            up_to: self.up_to,
            is_free: self.is_free,
            of: PhantomData,
        }
    }

    // Returns a copy, or the receipt for no entries if it is free.
    pub(crate) fn of_journal(&self) -> Receipt<J>
        ensures of_journal { result.is_free ≡ false }
        ensures copy { self.now.is_free ≡ false → result ≡ self.now }
        ensures nothing { self.now.is_free ≡ true → result.up_to ≡ 0 }
    {
        if self.is_free {
            Receipt::of_nothing()
        } else {
            self.again()
        }
    }

    /// Returns the number of durable entries.
    pub fn up_to(&self) -> usize
        ensures { result ≡ self.now.up_to }
    {
        self.up_to
    }
}

/// The receipt of the last sync of a journal, or of nothing, which an atomic cell holds. It is never free. The cell
/// gives back only what was stored in it: the contract of `from_word` says so.
pub(crate) struct Synced<J> {
    up_to: usize,
    of: PhantomData<J>,
}

impl<J> Copy for Synced<J> {}

impl<J> Clone for Synced<J> {
    fn clone(&self) -> Result<Synced<J>, AllocError> {
        Ok(*self)
    }
}

impl<J> Word for Synced<J> {
    ghost word = { λ s. s.up_to };

    fn to_word(self) -> u64 {
        self.up_to as u64
    }

    fn from_word(bits: u64) -> Synced<J> {
        Synced {
            up_to: bits as usize,
            of: PhantomData,
        }
    }
}

impl<J> Synced<J> {
    // Returns what this receipt is for, or nothing if it is free.
    pub(crate) fn of_receipt(receipt: &Receipt<J>) -> Synced<J>
        ensures copy { receipt.now.is_free ≡ false → result.up_to ≡ receipt.now.up_to }
        ensures nothing { receipt.now.is_free ≡ true → result.up_to ≡ 0 }
    {
        Synced {
            up_to: receipt.of_journal().up_to,
            of: PhantomData,
        }
    }

    // Returns the receipt.
    pub(crate) fn receipt(self) -> Receipt<J>
        ensures { (result.up_to ≡ self.up_to) × (result.is_free ≡ false) }
    {
        Receipt {
            up_to: self.up_to,
            is_free: false,
            of: PhantomData,
        }
    }
}

/// A disk on which this text of a journal was found, or will be begun, and the number of entries in the text. The disk
/// was not written to yet.
#[derive(Drop)]
pub struct Found<D> {
    disk: D,
    text: Vec<u8>,
    count: usize,
}

/// A disk with the text of this many entries, all written by this process. After a fault the journal accepts no more
/// entries. `J` is its name, which its receipts carry too.
#[derive(Drop)]
pub struct Journal<J, D: Appends> {
    disk: D,
    count: usize,
    has_failed: bool,
    of: PhantomData<J>,
}

// Appends the lines of the entries, the first with this version.
fn push_entries(
    alloc: Global,
    version: usize,
    entries: &[Entry],
    text: &mut String,
) -> Result<(), AllocError>
    requires from { 1 ≤ version }
    requires to { version + length entries.now ≤ MOST_ENTRIES + 1 }
    ensures { OnOk result (string_bytes text.new ≡ string_bytes text.old ++ entries_text version entries.now) }
{
    let mut next = version as u32;
    for entry in entries {
        write_entry(alloc, next, entry, text)?;
        next += 1;
    }
    Ok(())
}

// Returns the text of more entries, the first with the version after this one.
fn append_entries(
    alloc: Global,
    count: usize,
    more: &[Entry],
    text: &mut Vec<u8>,
) -> Result<(), AllocError>
    requires { count + length more.now ≤ MOST_ENTRIES }
    ensures { OnOk result (text.new.items ≡ text.old.items ++ entries_text (count + 1) more.now) }
{
    let mut lines = String::new(alloc);
    push_entries(alloc, count + 1, more, &mut lines)?;
    text.extend_from_slice(lines.as_bytes())
}

impl<D: Drop> Found<D> {
    // Returns a disk on which this text of `count` entries was found.
    pub(crate) fn new(disk: D, text: Vec<u8>, count: usize) -> Found<D>
        ensures { result ≡ record { disk = disk; text = text; count = count } }
    {
        Found { disk, text, count }
    }

    /// Returns the number of entries that were found.
    pub fn len(&self) -> usize
        ensures { result ≡ self.now.count }
    {
        self.count
    }
}

// Replaces the file by this text of `count` entries and the lines of the further ones.
fn write_anew<D: Disk>(
    alloc: Global,
    disk: &mut D,
    text: Vec<u8>,
    count: usize,
    more: &[Entry],
) -> Result<(), OpenFault>
    ensures holds { OnOk result ((had : List Entry) → text.items ≡ journal_text Two had → length had ≡ count
        → Holds (D.kept disk.new) (had ++ more.now)) }
    ensures few { OnOk result (count + length more.now ≤ MOST_ENTRIES) }
    ensures crash { (had : List Entry) → text.items ≡ journal_text Two had → length had ≡ count
        → (bytes : List ℕ) → D.left_since disk.new (D.moment disk.old) bytes
        → LeavesOldOrNew D.tears (D.left_since disk.old (D.moment disk.old)) (had ++ more.now) bytes }
    ensures err { IfErr result (IsBeginFault (count + length more.now)) }
{
    let mut text = text;
    if count > MOST_ENTRIES || more.len() > MOST_ENTRIES - count {
        return Err(OpenFault::TooLong);
    }
    append_entries(alloc, count, more, &mut text)?;
    disk.replace(&text)?;
    Ok(())
}

impl<D: Disk + Drop> Found<D> {
    /// Replaces the file by the text that was found and the lines of these further entries, and continues the journal.
    /// It does so whatever the disk held, because a crash may lose the bytes that were read, and torn bytes have to go.
    /// A crash meanwhile leaves the disk's old contents, or all of this text. So does an error, which returns the disk.
    pub fn begin(
        self,
        alloc: Global,
        more: &[Entry],
    ) -> Result<Journal<Nameless, D>, (D, OpenFault)>
        ensures count { IfOk result (λ j. j.count ≡ self.count + length more.now) }
        ensures going { IfOk result (λ j. j.has_failed ≡ false) }
        ensures holds { IfOk result (λ j. (had : List Entry) → self.text.items ≡ journal_text Two had
            → length had ≡ self.count → Holds (D.kept j.disk) (had ++ more.now)) }
        ensures crash { IfOk result (λ j. (had : List Entry) → self.text.items ≡ journal_text Two had
            → length had ≡ self.count → (bytes : List ℕ) → D.left_since j.disk (D.moment self.disk) bytes
            → LeavesOldOrNew D.tears (D.left_since self.disk (D.moment self.disk)) (had ++ more.now) bytes) }
        ensures crash_err { IfErr result (λ e. (had : List Entry) → self.text.items ≡ journal_text Two had
            → length had ≡ self.count → (bytes : List ℕ) → D.left_since e.0 (D.moment self.disk) bytes
            → LeavesOldOrNew D.tears (D.left_since self.disk (D.moment self.disk)) (had ++ more.now) bytes) }
        ensures err { IfErr result (λ e. IsBeginFault (self.count + length more.now) e.1) }
    {
        let Found {
            mut disk,
            text,
            count,
        } = self;
        match write_anew(alloc, &mut disk, text, count, more) {
            Ok(()) => Ok(Journal {
                disk,
                count: count + more.len(),
                has_failed: false,
                of: PhantomData,
            }),
            Err(fault) => Err((disk, fault)),
        }
    }
}

impl<D: Appends + Drop> Journal<Nameless, D> {
    /// Gives the journal its name. Receipts of another name open neither its gate nor a text that is held for it.
    pub fn with_name<J>(self) -> Journal<J, D>
        ensures disk { result.disk ≡ self.disk }
        ensures count { result.count ≡ self.count }
        ensures has_failed { result.has_failed ≡ self.has_failed }
    {
        let Journal {
            disk,
            count,
            has_failed,
            of: _,
        } = self;
        Journal {
            disk,
            count,
            has_failed,
            of: PhantomData,
        }
    }
}

impl<J, D: Appends + Drop> Journal<J, D> {
    /// Takes the name from the journal, which makes no more receipts of it.
    pub fn without_name(self) -> Journal<Nameless, D>
        ensures disk { result.disk ≡ self.disk }
        ensures count { result.count ≡ self.count }
        ensures has_failed { result.has_failed ≡ self.has_failed }
    {
        let Journal {
            disk,
            count,
            has_failed,
            of: _,
        } = self;
        Journal {
            disk,
            count,
            has_failed,
            of: PhantomData,
        }
    }

    /// Returns the number of entries.
    pub fn len(&self) -> usize
        ensures { result ≡ self.now.count }
    {
        self.count
    }

    /// Returns whether the journal has failed.
    pub fn has_failed(&self) -> bool
        ensures { result ≡ self.now.has_failed }
    {
        self.has_failed
    }

    /// Appends entries with one write and one sync. A crash at any moment of the call leaves all earlier entries. After
    /// a fault they are still durable, and the journal does not touch the disk again.
    pub fn commit(&mut self, alloc: Global, entries: &[Entry]) -> Result<Receipt<J>, JournalFault>
        ensures ok { OnOk result (Adds (D.kept self.old.disk) (D.kept self.new.disk) self.old.count entries.now) }
        ensures count { IfOk result (λ r. (self.new.count ≡ self.old.count + length entries.now)
            × (r.up_to ≡ self.new.count)) }
        ensures of_journal { IfOk result (λ r. r.is_free ≡ false) }
        ensures going { OnOk result (self.new.has_failed ≡ false) }
        ensures fault { OnErr result (AddsInPart (D.kept self.old.disk) (D.kept self.new.disk)
            self.old.count entries.now) }
        ensures crash { (bytes : List ℕ) → D.left_since self.new.disk (D.moment self.old.disk) bytes
            → LeavesAll D.tears (D.kept self.old.disk) self.old.count entries.now bytes }
        ensures failed { OnErr result (self.new.has_failed ≡ true) }
        ensures same_count { OnErr result (self.new.count ≡ self.old.count) }
        ensures closed { self.old.has_failed ≡ true → (result ≡ Err JournalFault.Disk) × (self.new ≡ self.old) }
        ensures full { result ≡ Err JournalFault.Full → MOST_ENTRIES < self.old.count + length entries.now }
        ensures no_mismatch { result ≡ Err JournalFault.Mismatch → ⊥ }
    {
        if self.has_failed {
            return Err(JournalFault::Disk);
        }
        self.has_failed = true;
        if self.count > MOST_ENTRIES || entries.len() > MOST_ENTRIES - self.count {
            return Err(JournalFault::Full);
        }
        let mut text = String::new(alloc);
        push_entries(alloc, self.count + 1, entries, &mut text)?;
        self.disk.append(text.as_bytes())?;
        self.disk.sync()?;
        self.count += entries.len();
        self.has_failed = false;
        Ok(self.receipt())
    }

    /// Marks the journal as failed.
    pub fn fail(&mut self)
        ensures { self.new ≡ record self.old { has_failed = true } }
    {
        self.has_failed = true;
    }

    /// Returns the receipt for its entries.
    pub fn receipt(&self) -> Receipt<J>
        ensures up_to { result.up_to ≡ self.now.count }
        ensures of_journal { result.is_free ≡ false }
    {
        Receipt {
            up_to: self.count,
            is_free: false,
            of: PhantomData,
        }
    }
}
