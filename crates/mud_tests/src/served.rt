//! Connections that are served at once, with a journal. Peers in memory, whose bytes a contract states, type to the
//! end. On a disk that fails, no text names a version that a crash would lose.

ghost use Rattle.std.specs.Prelude.{◌≡◌, ◌≤◌, length, false};
ghost use Rattle.mud_hall.specs.Steps.{AreLoadable};
ghost use Rattle.mud_journal.specs.Disk.{Holds};

use crate::disk::{Fate, KnownDisk, Store};
use crate::lines::script;
use mud_chron::read_front;
use mud_hall::{HallName, NewHall};
use mud_journal::{Appends, Journal, Nameless, found_in};
use mud_theorems::{Arrival, Peer, serve_together};
use std::alloc::{AllocError, Global};
use std::marker::Brand;
use std::process::Abort;
use std::sync::Wait;
use std::test::Fail;
use std::thread::Threads;

const NAMES: [&str; 3] = ["Ann", "Bob", "Cyd"];

// The number of `say` lines of each player.
const SAID: u32 = 20;

// The number of the disk's calls after which a call fails, in one test.
const CALLS: u32 = 12;

// A peer in memory: all that it sends, the number of bytes that were received, and all that it was sent.
#[derive(Drop)]
struct MemoryPeer {
    name: Vec<u8>,
    sends: Vec<u8>,
    at: usize,
    got: Vec<u8>,
    has_ended: bool,
    has_left: bool,
    ghost within: { at ≤ length sends.items },
}

impl Peer for MemoryPeer {
    ghost use Rattle.std.specs.Prelude.{Some, take};

    ghost name = { λ p. p.name.items };

    ghost traffic = { λ p. Some (record {
      came = take p.at p.sends.items;
      sent = p.got.items;
      has_ended = p.has_ended;
      has_left = p.has_left;
    }) };

    fn receive(&mut self, buffer: &mut [u8]) -> Option<usize> {
        let count = buffer.len().min(self.sends.len() - self.at);
        if count == 0 {
            self.has_ended = true;
            return None;
        }
        buffer[..count].copy_from_slice(&self.sends[self.at..self.at + count]);
        self.at += count;
        Some(count)
    }

    fn send(&mut self, bytes: &[u8]) -> bool {
        if self.got.extend_from_slice(bytes).is_ok() {
            return true;
        }
        self.has_left = true;
        false
    }
}

// Returns a peer that plays a player of this name.
fn peer(alloc: Global, name: &str) -> Result<Arrival<MemoryPeer>, AllocError> {
    let sends = script(alloc, name, SAID)?;
    let name = Vec::from_slice(alloc, name.as_bytes())?;
    Ok(Arrival::new(MemoryPeer {
        name,
        sends,
        at: 0,
        got: Vec::new(alloc),
        has_ended: false,
        has_left: false,
    }))
}

// Returns the peers.
fn arrivals(alloc: Global) -> Result<Vec<Arrival<MemoryPeer>>, AllocError> {
    let mut arrivals = Vec::new(alloc);
    for name in NAMES {
        arrivals.push(peer(alloc, name)?)?;
    }
    Ok(arrivals)
}

// Returns the greatest version of the answers in a text.
fn greatest_version(text: &str) -> usize {
    let mut greatest = 0;
    for line in text.lines() {
        if let Some((version, _)) = line.strip_prefix('[').and_then(|rest| rest.split_once(']'))
            && let Ok(version) = version.parse::<usize>()
        {
            greatest = greatest.max(version);
        }
    }
    greatest
}

// Returns the greatest version that any of the peers was told.
fn greatest_told(alloc: Global, peers: &[MemoryPeer]) -> Result<usize, AllocError> {
    let mut told = 0;
    for peer in peers {
        let text = String::from_utf8_lossy(alloc, &peer.got)?;
        told = told.max(greatest_version(text.as_str()));
    }
    Ok(told)
}

// Serves the peers at the hall that `J` names. Returns the greatest version that any of them was told.
fn serve<J: HallName + Send + Sync, D: Appends + Send + Drop, R: Threads + Wait + Sync + Abort>(
    rt: &R,
    alloc: Global,
    hall: NewHall,
    journal: Journal<Nameless, D>,
) -> Result<usize, Fail>
    requires cells { hall.cells ≡ J.cells }
    requires loaded { hall.loaded ≡ J.loaded }
    requires loadable { AreLoadable (length J.cells) J.loaded }
    requires holds { Holds (D.kept journal.disk) J.loaded }
    requires count { journal.count ≡ length J.loaded }
    requires going { journal.has_failed ≡ false }
{
    let arrivals = arrivals(alloc)?;
    let served = serve_together(rt, alloc, hall.with_name::<J>(), journal, arrivals)?;
    assert!(rt; served.journal.has_failed() || served.history.len() == 3 * (SAID + 1));
    Ok(greatest_told(alloc, &served.peers)?)
}

// Serves the peers with a journal on this disk.
fn serve_on<D: Appends + Send + Drop, R: Threads + Wait + Sync + Abort>(
    rt: &R,
    alloc: Global,
    hall: NewHall,
    journal: Journal<Nameless, D>,
) -> Result<usize, Fail>
    requires loadable { AreLoadable (length hall.cells) hall.loaded }
    requires holds { Holds (D.kept journal.disk) hall.loaded }
    requires count { journal.count ≡ length hall.loaded }
    requires going { journal.has_failed ≡ false }
{
    serve::<Brand, D, R>(rt, alloc, hall, journal)
}

// Returns an empty disk that fails after this many calls.
fn store_for(alloc: Global, calls: u32) -> Result<Store, AllocError> {
    let mut store = Store::new(alloc, Vec::new(alloc));
    store.fates.push(Fate::Tears)?;
    for _ in 0..calls {
        store.fates.push(Fate::Done)?;
    }
    Ok(store)
}

// Serves the peers with a journal on this empty disk. Returns the greatest version that any of them was told, or `None`
// if the journal can't begin.
fn told_at<R: Threads + Wait + Sync + Abort>(
    rt: &R,
    alloc: Global,
    store: &mut Store,
) -> Result<Option<usize>, Fail> {
    let disk = KnownDisk { store, unread: &[] };
    let Ok((found, entries, _)) = found_in(alloc, disk) else {
        panic!(rt; "nothing is found");
    };
    let hall = NewHall::resume(alloc, 1_024, entries)?;
    match found.begin(alloc, &[]) {
        Ok(journal) => Ok(Some(serve_on(rt, alloc, hall, journal)?)),
        Err(_) => Ok(None),
    }
}

// Checks that this version is there after a crash.
fn check_left(rt: &impl Abort, alloc: Global, store: &Store, told: usize) -> Result<(), Fail> {
    let left = store.crash(0, 0)?;
    let Ok(front) = read_front(alloc, &left) else {
        panic!(rt; "nothing is left");
    };
    assert!(rt; told <= front.entries.len());
    Ok(())
}

// Serves the peers with a journal on a disk that fails after this many calls, and checks that what they were told is
// there after a crash.
fn check_served<R: Threads + Wait + Sync + Abort>(
    rt: &R,
    alloc: Global,
    calls: u32,
) -> Result<(), Fail> {
    let mut store = store_for(alloc, calls)?;
    match told_at(rt, alloc, &mut store)? {
        Some(told) => check_left(rt, alloc, &store, told),
        None => Ok(()),
    }
}

#[test]
fn peers_are_told_what_is_durable(rt: HostRuntime) -> Result<(), Fail> {
    for calls in 1..CALLS {
        check_served(&rt, rt.alloc(), calls)?;
    }
    Ok(())
}
