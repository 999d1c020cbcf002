//! The folder of a journal, in which its volumes stand.

ghost use Rattle.std.specs.Prelude.{◌≡◌, ◌≢◌, ◌≤◌, ◌<◌, ◌+◌, ℕ, List, [], ◌∷◌, Option, None, IfOk, IfErr, IfSome};
ghost use Rattle.std.specs.Prelude.{length, map, string_bytes, Contains, unwrap_or, option_map};
ghost use Rattle.mud_world.specs.declared.limits.TheConstants.{MOST_ENTRIES};
ghost use Rattle.mud_chron.specs.declared.format.Format.TheVariants.{Two};
ghost use Rattle.mud_chron.specs.Text.{journal_text};
ghost use Rattle.mud_journal.specs.Disk.{Kept};
ghost use Rattle.mud_journal.specs.Found.{Finds};
ghost use Rattle.mud_shelf.specs.declared.names.TheConstants.{MOST_VOLUMES};
ghost use Rattle.mud_shelf.specs.Names.{HasVolume, volume_name, IsVolume};
ghost use Rattle.mud_shelf.specs.Draft.{IsFresh};
ghost use Rattle.mud_shelf.specs.Turn.{Folder, IsCurrent, IsFound, IsOfSystem, IsUnopened, IsNotFound};

use crate::draft::Draft;
use crate::names::{MOST_VOLUMES, latest_volume, volume_name};
use crate::turning::fresh_volume;
use crate::volume::Volume;
use mud_chron::Entry;
use mud_journal::{Disk, DiskFault, Found, Journal, Nameless, OpenFault};
use std::alloc::Global;

// The number of looks for the latest volume. Another process may add a volume between two.
const MOST_LOOKS: u32 = 3;

/// A folder with the volumes of a journal.
pub trait Shelf {
    /// The file of a volume, locked by this process.
    type Disk: Disk + Drop + Send;

    /// A file that is to be a volume.
    type Draft: Draft + Drop + Send;

    /// The bytes of each file by its name; `None` while nothing is known.
    ghost files: { Self → Option Folder };

    /// The bytes that the files of finished volumes keep, the last one first; `None` while nothing is known.
    ghost finished: { Self → Option (List (Option Kept)) };

    /// Returns the names of files, among them each volume of this journal.
    fn names(&self, journal: &str) -> Result<Vec<String>, OpenFault>
        ensures all { IfOk result (λ names. IfSome (files self.now) (λ folder. (n : ℕ) → IsVolume n
            → folder (volume_name journal.now n) ≢ None
            → HasVolume journal.now (map string_bytes names.items) n)) }
        ensures only { IfOk result (λ names. IfSome (files self.now) (λ folder. (name : List ℕ)
            → Contains (map string_bytes names.items) name → folder name ≢ None)) }
        ensures err { IfErr result (λ fault. IfSome (files self.now) (λ folder. IsOfSystem fault)) };

    /// Opens the file with this name, creating it if necessary, and locks it. Returns the journal in it, its entries,
    /// and the number of torn bytes at its end.
    fn find(&self, name: &str) -> Result<(Found<Self::Disk>, Vec<Entry>, usize), OpenFault>
        ensures found { IfOk result (λ f. IfSome (files self.now) (λ folder.
            Finds (unwrap_or (folder name.now) []) f.1.items f.2)) }
        ensures text { IfOk result (λ f. f.0.text.items ≡ journal_text Two f.1.items) }
        ensures count { IfOk result (λ f. f.0.count ≡ length f.1.items) }
        ensures few { IfOk result (λ f. length f.1.items ≤ MOST_ENTRIES) }
        ensures err { IfErr result (λ fault. IfSome (files self.now) (λ folder.
            IsUnopened (unwrap_or (folder name.now) []) fault)) };

    /// Creates an empty file that is to be the volume with this number, 2 or higher, in place of an earlier such file.
    /// It gets the owner and the mode of the volume before it.
    fn draft(&mut self, journal: &str, number: u32) -> Result<Self::Draft, DiskFault>
        ensures fresh { IfOk result (λ draft. IsFresh (Self.Draft.stage draft)) }
        ensures number { IfOk result (λ draft. IfSome (Self.Draft.number draft) (λ n. n ≡ number)) }
        ensures finished { finished self.new ≡ finished self.old };

    /// Closes and unlocks the file of a volume that has ended.
    fn finish<D: Disk + Drop>(&mut self, journal: Journal<Nameless, D>)
        ensures { finished self.new ≡ option_map (λ files. D.kept journal.disk ∷ files) (finished self.old) };
}

/// The volume that a start finds in a folder: its number, the journal in it, its entries, and the number of torn bytes
/// at its end.
#[derive(Drop)]
pub struct FoundVolume<D> {
    /// The number of the volume.
    pub number: u32,
    /// The journal.
    pub journal: Found<D>,
    /// The entries.
    pub entries: Vec<Entry>,
    /// The number of torn bytes.
    pub torn: usize,
}

// Returns the highest number of a volume, or 1 if there are no volumes.
fn latest<S: Shelf>(shelf: &S, journal: &str) -> Result<u32, OpenFault>
    ensures ok { IfOk result (λ n. IfSome (S.files shelf.now) (λ folder. IsCurrent journal.now folder n)) }
    ensures err { IfErr result (λ fault. IfSome (S.files shelf.now) (λ folder. IsOfSystem fault)) }
{
    let names = shelf.names(journal)?;
    Ok(latest_volume(journal, &names).unwrap_or(1))
}

// Opens the volume with the highest number. Returns `None` if there is a higher one afterwards.
fn look<S: Shelf>(
    alloc: Global,
    shelf: &S,
    journal: &str,
) -> Result<Option<FoundVolume<S::Disk>>, OpenFault>
    ensures found { IfOk result (λ o. IfSome o (λ f. IfSome (S.files shelf.now) (λ folder.
        IsFound journal.now folder f.number f.entries.items))) }
    ensures text { IfOk result (λ o. IfSome o (λ f. f.journal.text.items ≡ journal_text Two f.entries.items)) }
    ensures count { IfOk result (λ o. IfSome o (λ f. f.journal.count ≡ length f.entries.items)) }
    ensures few { IfOk result (λ o. IfSome o (λ f. length f.entries.items ≤ MOST_ENTRIES)) }
    ensures err { IfErr result (λ fault. IfSome (S.files shelf.now) (λ folder.
        IsNotFound journal.now folder fault)) }
{
    let number = latest(shelf, journal)?;
    let name = volume_name(alloc, journal, number)?;
    let (found, entries, torn) = shelf.find(name.as_str())?;
    if latest(shelf, journal)? != number {
        return Ok(None);
    }
    Ok(Some(FoundVolume {
        number,
        journal: found,
        entries,
        torn,
    }))
}

/// Opens the volume of a journal with the highest number, or creates the first one. A server that turns locks its old
/// volume until the next one is durable. So a process that gets the lock looks again for a higher number.
pub fn find_volume<S: Shelf>(
    alloc: Global,
    shelf: &S,
    journal: &str,
) -> Result<FoundVolume<S::Disk>, OpenFault>
    ensures found { IfOk result (λ f. IfSome (S.files shelf.now) (λ folder.
        IsFound journal.now folder f.number f.entries.items)) }
    ensures text { IfOk result (λ f. f.journal.text.items ≡ journal_text Two f.entries.items) }
    ensures count { IfOk result (λ f. f.journal.count ≡ length f.entries.items) }
    ensures few { IfOk result (λ f. length f.entries.items ≤ MOST_ENTRIES) }
    ensures err { IfErr result (λ fault. IfSome (S.files shelf.now) (λ folder.
        IsNotFound journal.now folder fault)) }
{
    for _ in 0..MOST_LOOKS {
        if let Some(found) = look(alloc, shelf, journal)? {
            return Ok(found);
        }
    }
    Err(OpenFault::InUse)
}

/// Creates the file that is to be the volume after the one with this number, with a journal without entries. Nothing is
/// written to the file. After the last number the result is `TooLong`.
pub fn next_volume<S: Shelf>(
    alloc: Global,
    shelf: &mut S,
    journal: &str,
    number: u32,
) -> Result<Found<Volume<S::Draft>>, OpenFault>
    ensures number { IfOk result (λ f. IfSome (S.Draft.number f.disk.draft) (λ n. n ≡ number + 1)) }
    ensures within { IfOk result (λ f. number < MOST_VOLUMES) }
    ensures fresh { IfOk result (λ f. IsFresh (S.Draft.stage f.disk.draft)) }
    ensures text { IfOk result (λ f. f.text.items ≡ journal_text Two []) }
    ensures count { IfOk result (λ f. f.count ≡ 0) }
    ensures finished { S.finished shelf.new ≡ S.finished shelf.old }
{
    if number >= MOST_VOLUMES {
        return Err(OpenFault::TooLong);
    }
    let draft = shelf.draft(journal, number + 1)?;
    fresh_volume(alloc, draft)
}
