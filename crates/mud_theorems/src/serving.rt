//! Connections that are served at once.

ghost use Rattle.std.specs.Prelude.{◌≡◌, ◌≤◌, ◌⊎◌, List, ℕ, true, false, length, map, IfOk, IfSome};
ghost use Rattle.std.specs.List.{AllZip};
ghost use Rattle.crossbeam_utils.specs.Seq.{cell_view};
ghost use Rattle.mud_world.specs.declared.limits.TheConstants.{MOST_ENTRIES};
ghost use Rattle.mud_journal.specs.Disk.{Holds};
ghost use Rattle.mud_hall.specs.Settlement.{IsSettled};
ghost use Rattle.mud_hall.specs.Steps.{AreLoadable};
ghost use Rattle.mud_theorems.specs.Serving.{AreServed, IsLeftWithTold};
ghost use Rattle.mud_theorems.specs.inner.Durable.{knower};
ghost use Rattle.mud_theorems.specs.inner.Talking.{WasServed};

use crate::durable::{Cell, Pass, Room};
use crate::fault::ServeFault;
use crate::gathering::{Plays, play_all};
use crate::keeper::Keeper;
use crate::laws::one_run;
use crate::peer::{Arrival, Peer};
use crate::talk::{Line, Shared, Talk};
use mud_hall::{Desk, Hall, HallName};
use mud_journal::{Appends, Journal, Nameless};
use mud_row::History;
use std::alloc::{AllocError, Global};
use std::marker::Brand;
use std::sync::{Mutex, Wait};
use std::thread::Threads;

/// The results of a server.
#[derive(Drop)]
pub struct Served<P, D: Appends> {
    /// The history of the hall.
    pub history: History,
    /// The peers, in their order.
    pub peers: Vec<P>,
    /// The journal. It has failed if not the whole history is durable, or a connection ended before its last text was.
    pub journal: Journal<Nameless, D>,
}

// Begins a connection with each peer, at a new desk of the hall.
fn seat_all<J: HallName, P: Peer + Drop, D: Appends + Drop, B: Room, R: Wait>(
    rt: &R,
    alloc: Global,
    hall: &Hall<J>,
    cell: &Cell,
    keeper: &mut Keeper<J, D, B>,
    arrivals: Vec<Arrival<P>>,
) -> Result<Vec<Talk<J, P, B>>, ServeFault>
    requires { cell.now.table.shared.table_id ≡ B.table }
    ensures names { IfOk result (λ talks. map (λ t. P.name t.peer) talks.items
        ≡ map (λ a. P.name a.peer) arrivals.items) }
    ensures same { keeper.new ≡ keeper.old }
{
    let mut talks = Vec::new(alloc);
    for arrival in arrivals {
        let desk = hall.desk(rt)?;
        let told = keeper.durable(cell);
        talks.push(Talk::new(alloc, desk, arrival, told)?)?;
    }
    Ok(talks)
}

/// The work of a connection's thread.
struct AtDesks;

impl<J: HallName, P: Peer + Drop, D: Appends + Drop, B: Room> Plays<
    Shared<J, D, B>,
    Talk<J, P, B>,
    Line<J, P, B>,
> for AtDesks {
    ghost to_type = { λ talk. P.name talk.peer };

    ghost typed = { λ line. P.name line.peer };

    fn play<R: Threads + Wait + Sync>(
        rt: &R,
        shared: &Shared<J, D, B>,
        talk: Talk<J, P, B>,
    ) -> Result<Line<J, P, B>, AllocError> {
        talk.serve(rt, shared)
    }
}

// Returns the desks and the peers of connections that are over, and whether one of them was cut off. The keeper learns
// that all that they were told is durable.
fn take_apart<J: HallName, P: Peer + Drop, D: Appends + Drop, B: Room, R: Wait>(
    rt: &R,
    alloc: Global,
    cell: &Cell,
    keeper: &mut Keeper<J, D, B>,
    lines: Vec<Line<J, P, B>>,
) -> Result<(Vec<Desk<J>>, Vec<P>, bool), AllocError>
    requires { cell.now.table.shared.table_id ≡ B.table }
    ensures same { keeper.new ≡ keeper.old }
    ensures names { IfOk result (λ r. map P.name r.1.items ≡ map (λ line. P.name line.peer) lines.items) }
    ensures served { IfOk result (λ r. ∥ AllZip (λ desk peer. WasServed (length J.cells) J.loaded (P.traffic peer)
        keeper.old.count r.2 desk.state) r.0.items r.1.items ∥₁) }
{
    let mut desks = Vec::new(alloc);
    let mut peers = Vec::new(alloc);
    let mut is_any_cut = false;
    for line in lines {
        let Line {
            desk,
            peer,
            told,
            is_cut,
        } = line;
        keeper.compare(rt, cell, told);
        is_any_cut |= is_cut;
        desks.push(desk)?;
        peers.push(peer)?;
    }
    Ok((desks, peers, is_any_cut))
}

// Writes what is left to the journal, and settles the hall of these desks. If a connection was cut off, the journal has
// failed.
fn settle<J: HallName, D: Appends + Drop, B: Room, R: Wait>(
    rt: &R,
    cell: &Cell,
    hall: Hall<J>,
    desks: Vec<Desk<J>>,
    keeper: &mut Keeper<J, D, B>,
    is_any_cut: bool,
) -> Result<History, ServeFault>
    requires { cell.now.table.shared.table_id ≡ B.table }
    ensures settled { IfOk result (λ history. IsSettled J.loaded desks.items history) }
    ensures same { IfOk result (λ history. keeper.new.entries ≡ history) }
    ensures limit { IfOk result (λ history. length history ≤ MOST_ENTRIES) }
    ensures more { keeper.old.count ≤ keeper.new.count }
    ensures failed { IfOk result (λ history. (keeper.new.has_failed ≡ true) ⊎ (is_any_cut ≡ false)) }
{
    let mut desks = desks;
    let _ = keeper.write(rt, cell, &hall);
    let count = keeper.gather(&mut desks);
    let settled = match hall.close(rt, desks) {
        Ok(settled) => settled,
        Err((_hall, _desks, fault)) => return Err(fault.into()),
    };
    if settled.history.len() != count {
        return Err(ServeFault::Others);
    }
    if !is_any_cut {
        return Ok(settled.history);
    }
    keeper.fail();
    Ok(settled.history)
}

// Serves all peers at the hall. The name of the cell is picked by the caller.
fn serve_all<
    J: HallName + Send + Sync,
    P: Peer + Send + Drop,
    D: Appends + Send + Drop,
    B: Room + Send + Sync,
    R: Threads + Wait + Sync,
>(
    rt: &R,
    alloc: Global,
    cell: Cell,
    first: Pass,
    hall: Hall<J>,
    journal: Journal<Nameless, D>,
    arrivals: Vec<Arrival<P>>,
) -> Result<Served<P, D>, ServeFault>
    requires cell { cell.table.shared.table_id ≡ B.table }
    requires first { (first.table_id ≡ B.table) × (cell_view first ≡ knower 0) }
    requires loadable { AreLoadable (length J.cells) J.loaded }
    requires holds { Holds (D.kept journal.disk) J.loaded }
    requires count { journal.count ≡ length J.loaded }
    requires going { journal.has_failed ≡ false }
    ensures peers { IfOk result (λ s. map P.name s.peers.items ≡ map (λ a. P.name a.peer) arrivals.items) }
    ensures run { IfOk result (λ s. ∥ AreServed (length J.cells) J.loaded s.history s.journal.has_failed
        (map P.traffic s.peers.items) ∥₁) }
    ensures whole { IfOk result (λ s. s.journal.has_failed ≡ false → Holds (D.kept s.journal.disk) s.history) }
    ensures crash { IfOk result (λ s. (bytes : List ℕ)
        → D.left_since s.journal.disk (D.moment s.journal.disk) bytes → IfSome (D.kept s.journal.disk) (λ disk.
        ∥ IsLeftWithTold D.tears s.history (map P.traffic s.peers.items) bytes ∥₁)) }
{
    let reader = hall.reader(rt)?;
    let mut keeper = Keeper::<J, D, B>::new(
        rt,
        alloc,
        &cell,
        first,
        journal.with_name::<J>(),
        reader,
    );
    let talks = seat_all(rt, alloc, &hall, &cell, &mut keeper, arrivals)?;
    let shared = Shared {
        hall,
        cell,
        keeper: Mutex::new(keeper),
    };
    let lines = play_all::<Shared<J, D, B>, Talk<J, P, B>, Line<J, P, B>, AtDesks, R>(
        rt, alloc, &shared, talks,
    )?;
    let Shared { hall, cell, keeper } = shared;
    let mut keeper = keeper.into_inner();
    let (desks, peers, is_any_cut) = take_apart(rt, alloc, &cell, &mut keeper, lines)?;
    // for the prover: the law that the calls at settled desks are one run
    one_run();
    let history = settle(rt, &cell, hall, desks, &mut keeper, is_any_cut)?;
    Ok(Served {
        history,
        peers,
        journal: keeper.into_journal(),
    })
}

/// Serves all peers at once: each at a new desk of the hall, with a client of its own, in a thread of its own. Then it
/// settles the hall. The journal holds the loaded entries of the hall. A text waits until the versions that it can name
/// are durable: the thread that needs one first appends and syncs all entries of the hall so far.
///
/// One run of the hall ends with the returned history, and each connection is the part of one desk in it. The bytes
/// that came had their turns, once and in order. A prefix of the greeting and of the text of these turns was sent. If
/// the journal has not failed, it holds the whole history. Then each peer that took all texts was sent the whole text,
/// and its connection ended by an answered `quit` or after the last byte. Even if the journal has failed, a crash
/// leaves each version that a text names.
///
/// After a fault the hall, the peers and the journal are gone. `DesksFull` comes if the hall has no desk left. `Close`
/// and `Others` come if another caller has a desk of it.
pub fn serve_together<
    J: HallName + Send + Sync,
    P: Peer + Send + Drop,
    D: Appends + Send + Drop,
    R: Threads + Wait + Sync,
>(
    rt: &R,
    alloc: Global,
    hall: Hall<J>,
    journal: Journal<Nameless, D>,
    arrivals: Vec<Arrival<P>>,
) -> Result<Served<P, D>, ServeFault>
    requires loadable { AreLoadable (length J.cells) J.loaded }
    requires holds { Holds (D.kept journal.disk) J.loaded }
    requires count { journal.count ≡ length J.loaded }
    requires going { journal.has_failed ≡ false }
    ensures peers { IfOk result (λ s. map P.name s.peers.items ≡ map (λ a. P.name a.peer) arrivals.items) }
    ensures run { IfOk result (λ s. ∥ AreServed (length J.cells) J.loaded s.history s.journal.has_failed
        (map P.traffic s.peers.items) ∥₁) }
    ensures whole { IfOk result (λ s. s.journal.has_failed ≡ false → Holds (D.kept s.journal.disk) s.history) }
    ensures crash { IfOk result (λ s. (bytes : List ℕ)
        → D.left_since s.journal.disk (D.moment s.journal.disk) bytes → IfSome (D.kept s.journal.disk) (λ disk.
        ∥ IsLeftWithTold D.tears s.history (map P.traffic s.peers.items) bytes ∥₁)) }
{
    let (cell, first) = Cell::ruled(alloc, [0])?;
    serve_all::<J, P, D, Brand, R>(rt, alloc, cell, first, hall, journal, arrivals)
}
