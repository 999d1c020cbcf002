//! Leaves the chosen changes out of a history.

ghost use Rattle.std.specs.Prelude.{◌≡◌, ◌≤◌, ◌<◌, ◌+◌, ◌++◌, [], ◌∷◌, ⊤, codes, length, IfOk, IfErr, OnOk, MatchBool};
ghost use Rattle.std.specs.List.{flat_map, range_with_len};
ghost use Rattle.mud_world.specs.declared.limits.TheConstants.{MOST_ENTRIES, NUMBERS};
ghost use Rattle.mud_chron.specs.Replay.{changes_of, AreLegal};
ghost use Rattle.mud_undo.specs.inner.Building.{IsBuilt};
ghost use Rattle.mud_undo.specs.Without.{count_doors, count_made, spare, part_of, IsUndone, IsUndoFault};

use crate::choice::{Choice, leaves_out};
use crate::fault::UndoFault;
use crate::site::Site;
use mud_chron::Entry;
use mud_key::{Names, NamesFault};
use mud_world::{Change, Deed, Doors, Target};
use std::alloc::{AllocError, Global};

// The number of the first object that a history makes: the opening world has #0 and #1 (docs/WORLD.md, "Objects").
const FIRST: u32 = 2;

// The player who may make and recycle all things.
const WIZARD: u32 = 1;

// The desk of entries that the old history does not have.
const DESK: u32 = 1;

// Returns the number of exits that are dug.
fn count_doors(doors: &Option<Doors>) -> u32
    ensures count { result ≡ count_doors doors.now }
    ensures few { result ≤ 2 }
{
    match doors {
        None => 0,
        Some(Doors { back: None, .. }) => 1,
        Some(Doors { back: Some(_), .. }) => 2,
    }
}

// Returns the number of objects that a deed makes.
fn count_made(deed: &Deed) -> u32
    ensures count { result ≡ count_made deed.now }
    ensures few { result ≤ 3 }
{
    match deed {
        Deed::Dig(Target::New(_), doors) => count_doors(doors) + 1,
        Deed::Dig(Target::Old(_), doors) => count_doors(doors),
        Deed::Make(_) | Deed::Player(_) => 1,
        _ => 0,
    }
}

// Returns the names of a thing that only takes a number.
fn spare_names(alloc: Global) -> Result<Names, AllocError>
    ensures { IfOk result (λ names. names ≡ codes "gone" ∷ []) }
{
    match Names::read(alloc, "gone") {
        Ok(names) => Ok(names),
        Err(NamesFault::OutOfMemory) => Err(AllocError),
        Err(NamesFault::BadName) => unreachable!(),
    }
}

// Adds entries that make a thing with the number and recycle it.
fn push_spare(alloc: Global, number: u32, part: &mut Vec<Entry>) -> Result<(), AllocError>
    requires { number < NUMBERS }
    ensures { OnOk result (part.new.items ≡ part.old.items ++ spare number) }
{
    let made = Change {
        actor: WIZARD,
        deed: Deed::Make(spare_names(alloc)?),
    };
    let gone = Change {
        actor: WIZARD,
        deed: Deed::Recycle { object: number },
    };
    part.push(Entry::new(DESK, made))?;
    part.push(Entry::new(DESK, gone))?;
    Ok(())
}

// Returns entries that take `count` numbers from this one on.
fn spares_of(alloc: Global, first: u32, count: u32) -> Result<Vec<Entry>, AllocError>
    requires { first + count ≤ NUMBERS }
    ensures { IfOk result (λ part. part.items ≡ flat_map spare (range_with_len first count)) }
{
    let mut part = Vec::new(alloc);
    for number in first..first + count {
        push_spare(alloc, number, &mut part)?;
    }
    Ok(part)
}

// Adds the entry that makes this version, or, if it is chosen, entries that take the numbers of its objects from this
// one on. Returns whether all of them are legal.
fn put_part(
    alloc: Global,
    site: &mut Site,
    choice: &Choice,
    version: u32,
    next: u32,
    entry: &Entry,
) -> Result<bool, AllocError>
    requires numbers { next + count_made entry.now.change.deed ≤ NUMBERS }
    requires built { IsBuilt site.old.entries.items site.old.world }
    ensures put { IfOk result (λ is. MatchBool is
        (site.new.entries.items ≡ site.old.entries.items ++ part_of choice.now version next entry.now)
        (AreLegal (changes_of (site.old.entries.items ++ part_of choice.now version next entry.now)) → ⊥)) }
    ensures built { IfOk result (λ is. MatchBool is (IsBuilt site.new.entries.items site.new.world) ⊤) }
{
    if !leaves_out(choice, version, entry) {
        return site.put(alloc, entry);
    }
    let spares = spares_of(alloc, next, count_made(&entry.change().deed))?;
    site.put_all(alloc, &spares)
}

/// Returns the entries without the chosen ones: all others stay, in their order. Things of #1 that are recycled at once
/// take the numbers of the objects that a chosen change made, so each other object keeps its number (docs/KEEPING.md,
/// "Without"). The entries are legal where they occur, and at most 65,536. If a remaining change is illegal, the error
/// is `StandsOn` with the first one. The only other error is out of memory.
pub fn without(alloc: Global, choice: &Choice, entries: &[Entry]) -> Result<Vec<Entry>, UndoFault>
    requires few { length entries.now ≤ MOST_ENTRIES }
    requires legal { AreLegal (changes_of entries.now) }
    ensures ok { IfOk result (λ left. IsUndone choice.now entries.now left.items) }
    ensures err { IfErr result (IsUndoFault choice.now entries.now) }
{
    let mut site = Site::new(alloc)?;
    let mut next = FIRST;
    for (i, entry) in entries.iter().enumerate() {
        let version = i as u32 + 1;
        if !put_part(alloc, &mut site, choice, version, next, entry)? {
            return Err(UndoFault::StandsOn(version));
        }
        next += count_made(&entry.change().deed);
    }
    let Site { entries, .. } = site;
    Ok(entries)
}
