//! Several workers: they work at the same time, which no contract states, and find the labels.

ghost use Rattle.std.specs.Prelude.{◌≡◌};

use crate::lines::act;
use crate::rows::same;
use crate::village::world;
use mud_chron::{ChronFault, read_history};
use mud_hall::{Desk, Hall, HallName, NewHall};
use mud_roads::{Label, Traveller};
use mud_search::{Gate, Labels, labels};
use mud_words::parse;
use mud_world::World;
use std::alloc::{AllocError, Global};
use std::fmt::Write;
use std::marker::Brand;
use std::process::Abort;
use std::slice;
use std::sync::Wait;
use std::sync::atomic::{AtomicU64, Ordering};
use std::test::Fail;
use std::thread::Threads;

// Five exits: #3 from #0 to #2 at cost 9, #5 from #0 to #4 at 3, and #6 from #4 to #2 at 4. The exits #8 to #7 and #9
// to #0 leave #2, at 1 each.
const CROSSING: &str = "mud history 2
1 1 dig #1 new \"A\" out \"a\"
2 1 cost #1 #3 9
3 1 dig #1 new \"B\" out \"b\"
4 1 cost #1 #5 3
5 1 walk #1 #5
6 1 dig #1 old #2 out \"c\"
7 1 cost #1 #6 4
8 1 walk #1 #6
9 1 dig #1 new \"D\" out \"d\"
10 1 dig #1 old #0 out \"e\"
11 1 walk #1 #9
end 11
";

// The labels of the crossing from #0: each room with its cost and its number of exits.
const LABELS: &str = "#0:0/0 #2:7/2 #4:3/1 #7:8/3 ";

// Two ways of equal cost lead from #0 to #6. The answer is the one with the lower last exit.
const TWO_WAYS: &str = "mud history 2
1 1 dig #1 new \"A\" out \"a\"
2 1 dig #1 new \"B\" out \"b\"
3 1 walk #1 #5
4 1 dig #1 new \"T\" out \"x\"
5 1 dig #1 old #0 out \"back\"
6 1 walk #1 #8
7 1 walk #1 #3
8 1 dig #1 old #6 out \"y\"
9 1 dig #1 old #0 out \"back\"
10 1 walk #1 #10
end 10
";

// A gate that holds the first room after #0 until another room has passed, or for ten million turns. Rejects work on
// the caller's thread only, workers that take turns at the gate, and a search that passes no gate.
#[derive(Drop)]
struct Barrier {
    passed: AtomicU64,
    late: AtomicU64,
    // The number of passes of each worker, in a byte each, and the number of passes by a worker or for a member outside
    // the search.
    by_worker: AtomicU64,
    strays: AtomicU64,
}

impl Barrier {
    fn new() -> Barrier {
        Barrier {
            passed: AtomicU64::new(0),
            late: AtomicU64::new(0),
            by_worker: AtomicU64::new(0),
            strays: AtomicU64::new(0),
        }
    }

    // Returns the number of workers that passed.
    fn workers(&self) -> usize {
        let by_worker = self.by_worker.load(Ordering::SeqCst);
        [0, 8, 16, 24, 32, 40, 48, 56]
            .iter()
            .filter(|at| (by_worker >> **at) & 255 != 0)
            .count()
    }

    // Returns whether at least two rooms passed, by two workers, none of them late, and all for the one member.
    fn is_met(&self) -> bool {
        self.passed.load(Ordering::SeqCst) >= 2
            && self.late.load(Ordering::SeqCst) == 0
            && self.strays.load(Ordering::SeqCst) == 0
            && self.workers() >= 2
    }

    // Returns whether no worker passed.
    fn is_untouched(&self) -> bool {
        self.workers() == 0 && self.strays.load(Ordering::SeqCst) == 0
    }
}

impl Gate for Barrier {
    fn between(&self, worker: usize, member: usize, room: u32) {
        if worker < 8 && member == 0 {
            self.by_worker
                .fetch_add(1 << (8 * worker as u32), Ordering::SeqCst);
        } else {
            self.strays.fetch_add(1, Ordering::SeqCst);
        }
        if room == 0 || self.passed.fetch_add(1, Ordering::SeqCst) > 0 {
            return;
        }
        for _ in 0..10_000_000 {
            if self.passed.fetch_add(0, Ordering::SeqCst) > 1 {
                return;
            }
        }
        self.late.store(1, Ordering::SeqCst);
    }
}

// Appends the label of a room.
fn push_label(room: u32, label: Option<Label>, out: &mut String) -> Result<(), AllocError> {
    match label {
        Some(label) => write!(out, "#{room}:{}/{} ", label.cost, label.exits),
        None => Ok(()),
    }
}

// Returns the labels of the first member at the first twenty numbers. Numbers past the last room have none.
fn text_of(alloc: Global, labels: &Labels) -> Result<String, AllocError> {
    let mut text = String::new(alloc);
    for room in 0..20 {
        push_label(room, labels.get(0, room), &mut text)?;
    }
    push_label(0, labels.get(1, 0), &mut text)?;
    push_label(u32::MAX, labels.get(0, u32::MAX), &mut text)?;
    Ok(text)
}

// Returns the labels of the wizard's rooms that workers find.
fn wizards_labels<R: Threads + Wait + AllocGlobal + Sync + Abort>(
    rt: &R,
    alloc: Global,
    world: &World,
    workers: usize,
    gate: &Barrier,
) -> Result<Labels, AllocError> {
    assert!(rt; world.is_player(1));
    let wizard = Traveller::of(alloc, world, 1)?;
    labels(rt, alloc, world, slice::from_ref(&wizard), workers, gate)
}

// Returns the labels that workers find, as a text.
fn text_by<R: Threads + Wait + AllocGlobal + Sync + Abort>(
    rt: &R,
    alloc: Global,
    world: &World,
    workers: usize,
    gate: &Barrier,
) -> Result<String, AllocError> {
    text_of(alloc, &wizards_labels(rt, alloc, world, workers, gate)?)
}

// Returns the labels that workers find in the world of a history, as a text.
fn find_labels<R: Threads + Wait + AllocGlobal + Sync + Abort>(
    rt: &R,
    alloc: Global,
    history: &str,
    workers: usize,
    gate: &Barrier,
) -> Result<String, ChronFault> {
    Ok(text_by(rt, alloc, &world(alloc, history)?, workers, gate)?)
}

// Checks the labels that workers find, and that several workers work at the same time.
fn check_labels<R: Threads + Wait + AllocGlobal + Sync + Abort>(
    rt: &R,
    alloc: Global,
    history: &str,
    workers: usize,
    wanted: &str,
) -> Result<(), Fail> {
    let gate = Barrier::new();
    same(
        rt,
        "labels",
        find_labels(rt, alloc, history, workers, &gate)?.as_str(),
        wanted,
    );
    assert!(rt; gate.is_met() == (workers > 1));
    assert!(rt; gate.is_untouched() == (workers == 0));
    Ok(())
}

// The labels of the rooms of two ways.
const OF_TWO_WAYS: &str = "#0:0/0 #2:1/1 #4:1/1 #6:2/2 ";

#[test]
fn workers_work_at_once(rt: HostRuntime) -> Result<(), Fail> {
    for workers in [0, 1, 2, 8] {
        check_labels(&rt, rt.alloc(), CROSSING, workers, LABELS)?;
        check_labels(&rt, rt.alloc(), TWO_WAYS, workers, OF_TWO_WAYS)?;
    }
    Ok(())
}

// Eight workers find the labels, or run out of memory. The gate runs this test once for each allocation, and makes that
// one fail.
#[test]
fn eight_workers_may_run_out_of_memory(rt: HostRuntime) -> Result<(), Fail> {
    let alloc = rt.alloc();
    let text = match find_labels(&rt, alloc, CROSSING, 8, &Barrier::new()) {
        Ok(text) => text,
        Err(_) => find_labels(&rt, alloc, CROSSING, 8, &Barrier::new())?,
    };
    same(&rt, "labels", text.as_str(), LABELS);
    Ok(())
}

// Returns the question for the way to a room.
fn question(room: u32) -> &'static str {
    match room {
        7 => "route to #7",
        _ => "route to #6",
    }
}

// Returns the answer to a desk that becomes the wizard's, computed by workers.
fn answer_by<J: HallName, R: Threads + Wait + AllocGlobal + Sync>(
    rt: &R,
    hall: &Hall<J>,
    desk: &mut Desk<J>,
    room: u32,
    workers: usize,
    gate: &Barrier,
) -> Result<String, Fail> {
    let _ = act(rt, hall, desk, "connect wizard");
    let said = parse(rt.alloc(), question(room))?;
    Ok(desk.ask_with(rt, hall, &said, workers, gate)?.text)
}

// Returns the answer to a new desk of the wizard, computed by workers.
fn ask_workers<J: HallName, R: Threads + Wait + AllocGlobal + Sync>(
    rt: &R,
    hall: &Hall<J>,
    room: u32,
    workers: usize,
    gate: &Barrier,
) -> Result<String, Fail> {
    let mut desk = hall.desk(rt)?;
    answer_by(rt, hall, &mut desk, room, workers, gate)
}

// Returns the answer to a new desk of a new hall, computed by workers.
fn asked_in<J: HallName, R: Threads + Wait + AllocGlobal + Sync + Abort>(
    rt: &R,
    hall: NewHall,
    room: u32,
    workers: usize,
    gate: &Barrier,
) -> Result<String, Fail>
    requires cells { hall.cells ≡ J.cells }
    requires loaded { hall.loaded ≡ J.loaded }
{
    let hall = hall.with_name::<J>();
    ask_workers(rt, &hall, room, workers, gate)
}

// Checks the answer to a desk of a hall that continues a history, computed by workers, and that several workers work at
// the same time.
fn check_desk<R: Threads + Wait + AllocGlobal + Sync + Abort>(
    rt: &R,
    alloc: Global,
    history: &str,
    workers: usize,
    room: u32,
    wanted: &str,
) -> Result<(), Fail> {
    let gate = Barrier::new();
    let entries = read_history(alloc, history.as_bytes())?;
    let hall = NewHall::resume(alloc, 16, entries)?;
    let found = asked_in::<Brand, R>(rt, hall, room, workers, &gate)?;
    same(rt, question(room), found.as_str(), wanted);
    assert!(rt; gate.is_met() == (workers > 1));
    assert!(rt; gate.is_untouched() == (workers == 0));
    Ok(())
}

// The answers in the crossing, and with two ways.
const CROSSED: &str = "route #0 to #7 cost 8 by #5 #6 #8";

const LOWER: &str = "route #0 to #6 cost 2 by #5 #7";

#[test]
fn desks_ask_workers(rt: HostRuntime) -> Result<(), Fail> {
    for workers in [0, 1, 2, 8] {
        check_desk(&rt, rt.alloc(), CROSSING, workers, 7, CROSSED)?;
        check_desk(&rt, rt.alloc(), TWO_WAYS, workers, 6, LOWER)?;
    }
    Ok(())
}
