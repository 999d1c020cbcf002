//! Halls with each desk on a thread of its own. No contract of a call can state what is under a lock, or that a desk
//! finds the cell that another thread has set.

ghost use Rattle.std.specs.Prelude.{◌≡◌, ◌≤◌};

use crate::lines::act;
use mud_hall::{CloseFault, Desk, Fault, Hall, HallName, NewHall};
use mud_words::parse;
use mud_world::limits::MOST_ENTRIES;
use std::alloc::{AllocError, Global};
use std::marker::{Brand, PhantomData};
use std::process::Abort;
use std::sync::Wait;
use std::test::Fail;
use std::thread;
use std::thread::Threads;

// The number of changes that a history can hold.
const MOST: u32 = MOST_ENTRIES as u32;

// Connects a desk as the wizard, and then sends a line `count` times.
fn talk<J: HallName, R: Wait + AllocGlobal>(
    rt: &R,
    hall: &Hall<J>,
    desk: &mut Desk<J>,
    line: &str,
    count: u32,
) {
    let _ = act(rt, hall, desk, "connect wizard");
    for _ in 0..count {
        let _ = act(rt, hall, desk, line);
    }
}

// The action of a thread with a hall and a desk, whatever their types are.
trait Talks<H, D> {
    fn talk<R: Wait + AllocGlobal>(rt: &R, hall: &H, desk: D, count: u32) -> D;
}

// The action with the hall that `J` names.
#[derive(Drop)]
struct OfHall<J: HallName> {
    of: PhantomData<J>,
}

impl<J: HallName> Talks<Hall<J>, Desk<J>> for OfHall<J> {
    fn talk<R: Wait + AllocGlobal>(rt: &R, hall: &Hall<J>, desk: Desk<J>, count: u32) -> Desk<J> {
        let mut desk = desk;
        talk(rt, hall, &mut desk, "say hi", count);
        desk
    }
}

// Makes each desk talk, on a thread of its own.
fn talk_all<
    H: Sync,
    D: Send + Drop,
    K: Talks<H, D> + Send + Sync,
    R: Threads + Wait + AllocGlobal + Sync,
>(rt: &R, hall: &H, desks: Vec<D>, count: u32) -> Result<Vec<D>, AllocError> {
    thread::map_vec(rt, desks, &|desk| K::talk(rt, hall, desk, count))
}

// Returns this many desks.
fn give_desks<J: HallName, R: Wait + AllocGlobal>(
    rt: &R,
    alloc: Global,
    hall: &Hall<J>,
    count: u32,
) -> Result<Vec<Desk<J>>, Fail> {
    let mut desks = Vec::new(alloc);
    for _ in 0..count {
        desks.push(hall.desk(rt)?)?;
    }
    Ok(desks)
}

// Returns this many desks after they talked at the same time.
fn crowd_desks<J: HallName + Send + Sync, R: Threads + Wait + AllocGlobal + Sync>(
    rt: &R,
    alloc: Global,
    hall: &Hall<J>,
    count: u32,
    lines: u32,
) -> Result<Vec<Desk<J>>, Fail> {
    let desks = give_desks(rt, alloc, hall, count)?;
    Ok(talk_all::<Hall<J>, Desk<J>, OfHall<J>, R>(rt, hall, desks, lines)?)
}

// Returns the number of changes accepted at these desks.
fn count_accepted<J: HallName>(desks: &[Desk<J>]) -> usize {
    let mut accepted = 0_usize;
    for desk in desks {
        accepted = accepted.saturating_add(desk.accepted_count());
    }
    accepted
}

// Returns whether a line finds the history full.
fn is_full<J: HallName, R: Wait + AllocGlobal>(rt: &R, hall: &Hall<J>, desk: &mut Desk<J>) -> bool {
    match act(rt, hall, desk, "say hi") {
        Err(fault) => fault == Fault::HistoryFull,
        Ok(_) => false,
    }
}

// Closes a hall with these desks and one more. Returns the number of entries.
fn close_hall<J: HallName, R: Wait + AllocGlobal>(
    rt: &R,
    hall: Hall<J>,
    desks: Vec<Desk<J>>,
    last: Desk<J>,
) -> Result<u32, Fail> {
    let mut desks = desks;
    desks.push(last)?;
    match hall.close(rt, desks) {
        Ok(settled) => Ok(settled.accepted),
        Err((_, _, fault)) => Err(fault.into()),
    }
}

// Checks that a hall is not closed without this desk, and whether the desk then finds the history full. Returns the
// number of entries.
fn closed_at_last<J: HallName, R: Wait + AllocGlobal + Abort>(
    rt: &R,
    hall: Hall<J>,
    desks: Vec<Desk<J>>,
    last: Desk<J>,
    full: bool,
) -> Result<u32, Fail> {
    let mut last = last;
    match hall.close(rt, desks) {
        Ok(_) => Err("closed without a desk".into()),
        Err((hall, desks, fault)) => {
            assert!(rt; fault == CloseFault::Missing(last.number()));
            assert!(rt; is_full(rt, &hall, &mut last) == full);
            close_hall(rt, hall, desks, last)
        }
    }
}

// Returns the version at which a desk answers.
fn version<J: HallName, R: AllocGlobal>(
    rt: &R,
    hall: &Hall<J>,
    desk: &mut Desk<J>,
) -> Result<u32, Fault> {
    let said = parse(rt.alloc(), "@version")?;
    Ok(desk.ask(hall, &said)?.version)
}

// Checks that a desk answers by the entries it has seen, and that a look finds all entries of another desk.
fn check_seeing<J: HallName, R: Wait + AllocGlobal + Abort>(
    rt: &R,
    hall: &Hall<J>,
    maker: &mut Desk<J>,
    other: &mut Desk<J>,
) -> Result<(), Fault> {
    talk(rt, hall, other, "", 0);
    talk(rt, hall, maker, "@create x", 7);
    assert!(rt; version(rt, hall, other)? == 0 && version(rt, hall, maker)? == 7);
    other.see(hall)?;
    assert!(rt; version(rt, hall, other)? == 7);
    Ok(())
}

// Returns the number of entries seen by a desk that is given after another desk made seven things.
fn seen_at_last<J: HallName, R: Wait + AllocGlobal + Abort>(
    rt: &R,
    hall: &Hall<J>,
) -> Result<u32, Fault> {
    let mut maker = hall.desk(rt)?;
    let mut other = hall.desk(rt)?;
    check_seeing(rt, hall, &mut maker, &mut other)?;
    Ok(hall.desk(rt)?.seen())
}

// Checks how many lines of a crowd are accepted, and whether the history is full afterwards. Returns the number of
// entries. Without a crowd, one desk sees another.
fn check_crowd_in<J: HallName + Send + Sync, R: Threads + Wait + AllocGlobal + Sync + Abort>(
    rt: &R,
    alloc: Global,
    hall: NewHall,
    count: u32,
    lines: u32,
    wanted: u32,
    full: bool,
) -> Result<u32, Fail>
    requires cells { hall.cells ≡ J.cells }
    requires loaded { hall.loaded ≡ J.loaded }
{
    let hall = hall.with_name::<J>();
    if count == 0 {
        return Ok(seen_at_last(rt, &hall)?);
    }
    let mut desks = crowd_desks(rt, alloc, &hall, count, lines)?;
    assert!(rt; count_accepted(&desks) == wanted as usize);
    match desks.pop() {
        Some(last) => closed_at_last(rt, hall, desks, last, full),
        None => Ok(0),
    }
}

// Makes a crowd play at a new hall, and checks the number of entries.
fn check_crowd<R: Threads + Wait + AllocGlobal + Sync + Abort>(
    rt: &R,
    alloc: Global,
    capacity: u32,
    count: u32,
    lines: u32,
    wanted: u32,
    entries: u32,
) -> Result<(), Fail>
    requires { (1 ≤ capacity) × (capacity ≤ MOST_ENTRIES) }
{
    let hall = NewHall::open(alloc, capacity)?;
    let full = entries == capacity;
    let found = check_crowd_in::<Brand, R>(rt, alloc, hall, count, lines, wanted, full)?;
    assert!(rt; found == entries);
    Ok(())
}

// Plays a desk that sees another, four desks at once, eight desks with enough lines for their threads to meet, and four
// desks with a history that is too short. Rejects a `see` or a new desk that never finds the entries of another.
// Rejects an `act` that publishes at the desk's own stale place or takes no lock, because a line would not be stored,
// and one that returns `HistoryFull` while there is room. Rejects a `close` that never succeeds, succeeds without a
// desk, names a desk that is present, or ends the hall after a fault.
#[test]
fn crowds(rt: HostRuntime) -> Result<(), Fail> {
    check_crowd(&rt, rt.alloc(), 16, 0, 0, 0, 7)?;
    check_crowd(&rt, rt.alloc(), 256, 4, 50, 200, 201)?;
    check_crowd(&rt, rt.alloc(), MOST, 8, 5_000, 40_000, 40_001)?;
    check_crowd(&rt, rt.alloc(), 100, 4, 50, 100, 100)
}
