//! A journal on a disk in memory: it is found, begun, appended to, and recovered after a crash.

use crate::disk::{Fate, KnownDisk, Store};
use mud_chron::{ChronFault, Entry, read_front};
use mud_journal::found_in;
use std::alloc::{AllocError, Global};
use std::process::Abort;
use std::test::Fail;

// The text of a journal of five entries.
const TEXT: &str = "mud history 2
1 1 dig #1 new \"A\" out \"a\"
2 1 walk #1 #3
3 2 player #4 \"Bob\"
4 2 say #4 hi
5 1 emote #1 waves
";

// The number of calls that write it: one for the first line, and two for each two entries.
const CALLS: u32 = 7;

// Returns the entries of a journal's text.
fn entries_of(alloc: Global, text: &str) -> Result<Vec<Entry>, ChronFault> {
    Ok(read_front(alloc, text.as_bytes())?.entries)
}

// Recovers a disk with these bytes, and appends the further entries, two at a time, until a call fails. Returns how
// many were found, and how many are synced.
fn go_on(
    rt: &impl Abort,
    alloc: Global,
    store: &mut Store,
    unread: &[u8],
    entries: &[Entry],
) -> (usize, usize) {
    let Ok((found, _, _)) = found_in(alloc, KnownDisk { store, unread }) else {
        panic!(rt; "nothing is found");
    };
    let had = found.len();
    let Ok(mut journal) = found.begin(alloc, &[]) else {
        return (had, 0);
    };
    for batch in entries.get(had..).unwrap_or(&[]).chunks(2) {
        if journal.commit(alloc, batch).is_err() {
            break;
        }
    }
    (had, journal.receipt().up_to())
}

// Returns an empty disk after the entries were written, where this fate comes after `calls` successful calls, and the
// number of entries reported as synced.
fn played(
    rt: &impl Abort,
    alloc: Global,
    calls: u32,
    fate: Fate,
    entries: &[Entry],
) -> Result<(Store, usize), AllocError> {
    let mut store = Store::new(alloc, Vec::new(alloc));
    store.fates.push(fate)?;
    for _ in 0..calls {
        store.fates.push(Fate::Done)?;
    }
    let (_, told) = go_on(rt, alloc, &mut store, &[], entries);
    Ok((store, told))
}

// Checks that recovery after a crash finds every entry that was reported, and that the journal can be continued.
fn check_left(
    rt: &impl Abort,
    alloc: Global,
    left: Vec<u8>,
    entries: &[Entry],
    told: usize,
) -> Result<(), Fail> {
    let unread = Vec::from_slice(alloc, &left)?;
    let mut store = Store::new(alloc, left);
    let (had, synced) = go_on(rt, alloc, &mut store, &unread, entries);
    assert!(rt; told <= had && synced == entries.len());
    assert!(rt; store.is_made && store.synced.as_slice() == TEXT.as_bytes());
    Ok(())
}

// Checks this for each length and some holes that a crash may leave.
fn check_crashes(
    rt: &impl Abort,
    alloc: Global,
    store: &Store,
    entries: &[Entry],
    told: usize,
) -> Result<(), Fail> {
    for more in 0..=store.unsynced.len() + 2 {
        for hole in 0..4 {
            check_left(rt, alloc, store.crash(more, hole)?, entries, told)?;
        }
    }
    Ok(())
}

const FATES: [Fate; 3] = [Fate::Done, Fate::Fails, Fate::Tears];

// Rejects a receipt before its sync, and a reader that does not stop at a zero.
#[test]
fn what_was_told_is_found_whatever_a_crash_leaves(rt: HostRuntime) -> Result<(), Fail> {
    let alloc = rt.alloc();
    let entries = entries_of(alloc, TEXT)?;
    for calls in 0..CALLS {
        for fate in FATES {
            let (store, told) = played(&rt, alloc, calls, fate, &entries)?;
            check_crashes(&rt, alloc, &store, &entries, told)?;
        }
    }
    Ok(())
}

// Checks that a start leaves the entries that it told, after this many calls of a disk and a failed one.
fn check_unread(rt: &impl Abort, alloc: Global, calls: u32, entries: &[Entry]) -> Result<(), Fail> {
    let (store, _) = played(rt, alloc, calls, Fate::Fails, entries)?;
    let unread = store.read_all()?;
    let mut next = Store::new(alloc, store.crash(0, 0)?);
    let (_, told) = go_on(rt, alloc, &mut next, &unread, entries);
    assert!(rt; told == entries.len());
    check_left(rt, alloc, next.crash(0, 0)?, entries, told)
}

// The result of reading a disk after a failed call is not durable. Rejects a start that does not rewrite the file.
#[test]
fn what_was_only_read_is_written_anew(rt: HostRuntime) -> Result<(), Fail> {
    let alloc = rt.alloc();
    let entries = entries_of(alloc, TEXT)?;
    for calls in 1..CALLS {
        check_unread(&rt, alloc, calls, &entries)?;
    }
    Ok(())
}
