//! The hall: many desks over one history.

ghost use Rattle.std.specs.Prelude.{◌≡◌, ◌≢◌, ◌≤◌, ◌<◌, ◌⊎◌, [], length, max, IfOk, IfErr, OnOk};
ghost use Rattle.std.specs.Prelude.{Some, IfSome, IsTrue, true, List, ℕ, string_bytes};
ghost use Rattle.std.specs.Thread.{IsSync};
ghost use Rattle.mud_world.specs.State.{is_player};
ghost use Rattle.mud_rules.specs.inner.Outcome.{IsJourney};
ghost use Rattle.mud_hall.specs.Answers.{IsGuided};
ghost use Rattle.std.specs.List.{AllByRecursion};
ghost use mathlib.Core.List.{IsPrefix};
ghost use Rattle.mud_words.specs.Line.{line_of};
ghost use Rattle.mud_world.specs.declared.limits.TheConstants.{MOST_ENTRIES};
ghost use Rattle.mud_chron.specs.Entry.{IsEntry};
ghost use Rattle.mud_hall.specs.Desk.{IsNew, TakesIn, pending};
ghost use Rattle.mud_hall.specs.Replies.{Failed, reply_shown, Acts};
ghost use Rattle.mud_hall.specs.Answers.{answer_shown, Answers};
ghost use Rattle.mud_hall.specs.NewHall.{Begun, IsLoadFault};
ghost use Rattle.mud_hall.specs.Steps.{AreLoadable, IsSeated, connect_text};
ghost use Rattle.mud_hall.specs.inner.Desks.{IsUnused, Travels};
ghost use Rattle.mud_hall.specs.inner.Seating.{Connects};

use crate::desk::{Desk, Inner};
use crate::fault::{Fault, LoadFault};
use crate::guide::{Alone, Through, by_workers};
use crate::kept::{Fresh, Kept};
use crate::name::HallName;
use crate::reply::Reply;
use mud_chron::{ChronFault, Entry, replay};
use mud_guide::{Answer, Workers};
use mud_roads::Traveller;
use mud_row::{FillFault, Pass, Replica, Row};
use mud_rules::Journey;
use mud_search::Gate;
use mud_words::{Parsed, parse};
use mud_world::World;
use std::alloc::{AllocError, Global};
use std::hint::spin_loop;
use std::marker::Model;
use std::sync::atomic::AtomicU64;
use std::sync::{Mutex, MutexGuard, Wait};
use std::thread::Threads;
use std::time::Duration;

// The number of attempts to take a hall's lock before a thread rests, and the rest in microseconds.
const LOCK_TRIES: u32 = 500;

const LOCK_REST: u64 = 50;

/// A hall that has no name yet. A contract sees the names of the cells of its history, and its initial entries.
#[derive(Drop)]
pub struct NewHall {
    row: Row,
    known: Replica,
    start: Pass,
    alloc: Global,
}

impl Model for NewHall {
    ghost use Rattle.std.specs.Prelude.{◌≡◌};
    ghost use Rattle.mud_hall.specs.NewHall.{Begun};

    ghost Value = { Begun };

    ghost use Rattle.mud_key.specs.TreeCode.{coded_number_tree};
    ghost use Rattle.std.specs.Coded.{codes};

    ghost coded = { Prim.hlevel (codes, coded_number_tree) };

    ghost view = { λ h. record { cells = h.row; loaded = h.known.list } };

    ghost invariant = { λ h.
        (h.known.row ≡ h.row) × (h.start.row ≡ h.row) × (h.start.list ≡ h.known.list) };
}

impl NewHall {
    /// Returns a hall with an empty history of at most `capacity` entries, 1 to 65,536. The only error is out of
    /// memory.
    pub fn open(alloc: Global, capacity: u32) -> Result<NewHall, AllocError>
        requires from { 1 ≤ capacity }
        requires to { capacity ≤ MOST_ENTRIES }
        ensures capacity { IfOk result (λ h. length h.cells ≡ capacity) }
        ensures loaded { IfOk result (λ h. h.loaded ≡ []) }
    {
        let row = Row::new(alloc, capacity)?;
        let known = Replica::new(alloc, &row)?;
        let start = row.pass(alloc)?;
        Ok(NewHall {
            row,
            known,
            start,
            alloc,
        })
    }

    /// Returns a hall that continues these entries. The error is the first of these: `BadChange` for the first entry
    /// whose change is illegal where it occurs, `OverCapacity` if there are more entries than the history can have, and
    /// `NotStored`.
    pub fn resume(alloc: Global, capacity: u32, entries: Vec<Entry>) -> Result<NewHall, LoadFault>
        requires from { 1 ≤ capacity }
        requires to { capacity ≤ MOST_ENTRIES }
        ensures capacity { IfOk result (λ h. length h.cells ≡ capacity) }
        ensures loaded { IfOk result (λ h. h.loaded ≡ entries.items) }
        ensures loadable { OnOk result (AreLoadable capacity entries.items) }
        ensures fault { IfErr result (IsLoadFault capacity entries.items) }
    {
        if let Err(fault) = is_loadable(alloc, capacity, &entries) {
            return Err(fault);
        }
        let mut hall = NewHall::open(alloc, capacity)?;
        hall.load(entries)?;
        Ok(hall)
    }

    // Fills an empty hall with these entries.
    fn load(&mut self, entries: Vec<Entry>) -> Result<(), LoadFault>
        requires empty { self.old.loaded ≡ [] }
        requires room { length entries.items ≤ length self.old.cells }
        ensures cells { self.new.cells ≡ self.old.cells }
        ensures loaded { OnOk result (self.new.loaded ≡ entries.items) }
        ensures fault { IfErr result (λ f. (f ≡ LoadFault.OutOfMemory) ⊎ (f ≡ LoadFault.NotStored)) }
    {
        let filled = self.row.fill(self.alloc, &mut self.start, entries);
        self.known.hear(&mut self.start);
        match filled {
            Ok(()) => Ok(self.known.catch_up(&self.row)?),
            Err(FillFault::OutOfMemory) => Err(LoadFault::OutOfMemory),
            Err(FillFault::HistoryFull) => unreachable!(),
            Err(FillFault::Unpublished) => Err(LoadFault::NotStored),
        }
    }

    /// Gives the hall its name, which the types of its desks carry too.
    pub fn with_name<J: HallName>(self) -> Hall<J>
        requires cells { self.cells ≡ J.cells }
        requires loaded { self.loaded ≡ J.loaded }
    {
        let NewHall {
            row,
            known,
            start,
            alloc,
        } = self;
        let loaded = known.known();
        Hall {
            kept: Mutex::new(Kept::new(start)),
            fresh: Mutex::new(Fresh::new(known)),
            row,
            alloc,
            loaded,
        }
    }
}

// Checks that each change is legal where it occurs, and that the history has room for all of them.
fn is_loadable(alloc: Global, capacity: u32, entries: &[Entry]) -> Result<(), LoadFault>
    ensures loadable { OnOk result (AreLoadable capacity entries.now) }
    ensures fault { IfErr result (IsLoadFault capacity entries.now) }
{
    match replay(alloc, entries) {
        Ok(_) => {}
        Err(ChronFault::OutOfMemory) => return Err(LoadFault::OutOfMemory),
        Err(ChronFault::BadChange(n)) => return Err(LoadFault::BadChange(n)),
        Err(_) => unreachable!(),
    }
    if entries.len() > capacity as usize {
        return Err(LoadFault::OverCapacity);
    }
    // for the prover: each entry keeps its invariant
    know_entries(entries);
    Ok(())
}

// Tells the prover that each entry keeps its invariant. It does nothing at run time.
fn know_entries(entries: &[Entry])
    ensures { AllByRecursion IsEntry entries.now }
{
    for entry in entries {
        // for the prover: `desk` shows that an entry keeps its invariant
        let _known = entry.desk();
    }
}

/// A history, and the desks that make it. Its first lock protects the number of desks given and the loaded entries. A
/// second lock protects the replica that new desks copy, so that acting never waits for a copy. The type carries the
/// capacity and the loaded entries. `hall_sync` of proofs/Crosses.antt proves that threads may share a hall, from the
/// same fact about its parts; the prover's own search does not find a proof of the whole.
#[derive(Drop)]
pub struct Hall<J: HallName> {
    pub(crate) kept: Mutex<Kept<J>>,
    fresh: Mutex<Fresh<J>>,
    pub(crate) row: Row,
    pub(crate) alloc: Global,
    pub(crate) loaded: u32,
    ghost cells: { row ≡ J.cells },
    ghost begun: { loaded ≡ length J.loaded },
}

impl<J: HallName> Hall<J> {
    /// Returns the capacity of the history, 1 to 65,536.
    pub fn capacity(&self) -> u32
        ensures capacity { result ≡ length J.cells }
        ensures limit { result ≤ MOST_ENTRIES }
    {
        self.row.capacity()
    }

    /// Returns the number of entries that it began with.
    pub fn loaded_count(&self) -> u32
        ensures { result ≡ length J.loaded }
    {
        self.loaded
    }

    /// Returns a guest's desk with the next number, beginning with 1, which has seen the whole history. The error is
    /// `DesksFull` if 64 desks were given. Acting does not wait while a world is copied for the desk.
    pub fn desk<R: Wait>(&self, rt: &R) -> Result<Desk<J>, Fault>
        ensures new { IfOk result (λ d. IsNew J.loaded d.state) }
        ensures fault { IfErr result (λ f. (f ≡ Fault.OutOfMemory) ⊎ (f ≡ Fault.DesksFull)) }
    {
        let inner = self.copy_replica(rt)?;
        let mut kept = self.kept.lock(rt);
        kept.desk(inner)
    }

    // Returns the parts of a new desk with a copy of the hall's own replica, after it has applied every set cell.
    fn copy_replica<R: Wait>(&self, rt: &R) -> Result<Box<Inner>, AllocError>
        ensures unused { IfOk result (λ i. IsUnused i.value.replica i.value) }
        ensures row { IfOk result (λ i. i.value.replica.row ≡ J.cells) }
        ensures loaded { IfOk result (λ i. IsPrefix J.loaded i.value.replica.list) }
    {
        let mut fresh = self.fresh.lock(rt);
        let replica = fresh.copy(self.alloc, &self.row)?;
        Inner::new(self.alloc, replica)
    }

    // Takes the act lock for a desk. While another thread holds it, the desk applies entries, so that under the lock it
    // has only its own change to make. It does not sleep on the lock itself: a lock handed to a sleeping thread stays
    // unused until that thread has woken, which takes longer than a change.
    fn lock_for<R: Wait>(
        &self,
        rt: &R,
        desk: &mut Desk<J>,
    ) -> Result<MutexGuard<'_, Kept<J>>, Fault>
        ensures takes { TakesIn desk.old.state desk.new.state }
        ensures fault { IfErr result (λ f. f ≡ Fault.OutOfMemory) }
    {
        let mut tries = 0;
        for _ in rt.forever() {
            desk.see(self)?;
            if let Some(kept) = self.kept.try_lock() {
                return Ok(kept);
            }
            tries += 1;
            if tries < LOCK_TRIES {
                spin_loop();
            } else {
                tries = 0;
                AtomicU64::new(0).park_timeout(rt, 0, Duration::from_micros(LOCK_REST));
            }
        }
        unreachable!()
    }

    // Advances the replica that new desks copy, unless another thread is doing so.
    fn follow(&self) {
        if let Some(mut fresh) = self.fresh.try_lock() {
            fresh.follow(&self.row);
        }
    }

    /// Makes the desk a guest's, and then the player's if one is given: it acts on `connect` with the player's first
    /// name. Returns false if a player was given and the desk is still a guest's.
    pub fn sit<R: Wait>(&self, rt: &R, desk: &mut Desk<J>, player: Option<u32>) -> bool
        ensures { IsSeated (length J.cells) player result desk.old.state desk.new.state }
    {
        desk.guest();
        let Some(player) = player else {
            return true;
        };
        if self.connect(rt, desk, player) {
            return true;
        }
        desk.guest();
        false
    }

    // Makes the desk act on the line by which this player connects. Returns whether it is the player's then. If memory
    // lacks, the desk does not act.
    fn connect<R: Wait>(&self, rt: &R, desk: &mut Desk<J>, player: u32) -> bool
        ensures acts { Connects (length J.cells) desk.old.state desk.new.state }
        ensures sits { result ≡ true → desk.new.state.player ≡ Some player }
    {
        let Some(line) = self.connect_line(desk, player) else {
            return false;
        };
        let Ok(said) = parse(self.alloc, line.as_str()) else {
            return false;
        };
        let _ = self.act(rt, desk, &said);
        match desk.player() {
            Some(seated) => seated == player,
            None => false,
        }
    }

    // Returns the line by which a player connects.
    fn connect_line(&self, desk: &Desk<J>, player: u32) -> Option<String>
        ensures { IfSome result (λ line. (name : List ℕ) × (string_bytes line ≡ connect_text name)) }
    {
        let record = desk.inner.replica.world().get(player)?;
        let name = record.names.list().first()?.as_str();
        format!(in self.alloc; "connect \"{name}\"").ok()
    }

    /// Applies all entries, and then acts on a line in the resulting world. A change becomes the next entry of the
    /// history; the error is `HistoryFull` if there is no room, and `Unpublished` if the history did not take the
    /// entry. After a fault the history has no entry of this call.
    pub fn act<R: Wait>(&self, rt: &R, desk: &mut Desk<J>, said: &Parsed) -> Result<Reply, Fault>
        ensures acts { Acts (length J.cells) desk.old.state (line_of said.now) (reply_shown result) desk.new.state }
        ensures told { reply_shown result ≢ Failed Fault.OutOfMemory → pending desk.new ≡ [] }
    {
        let kept = self.lock_for(rt, desk)?;
        desk.see(self)?;
        let reply = desk.reply(self.alloc, &self.row, said);
        drop(kept);
        self.follow();
        reply
    }
}

impl<J: HallName> Desk<J> {
    /// Applies all entries that are set. It never blocks.
    pub fn see(&mut self, hall: &Hall<J>) -> Result<(), Fault>
        ensures state { TakesIn self.old.state self.new.state }
        ensures all { OnOk result (self.new.at ≡ length self.new.state.seen) }
        ensures told { OnOk result (pending self.new ≡ []) }
        ensures fault { IfErr result (λ f. f ≡ Fault.OutOfMemory) }
    {
        self.see_to(hall, u32::MAX)
    }

    /// Applies the entries that are set, but none after the `most`-th. It does not forget entries that it has seen. It
    /// never blocks.
    pub fn see_to(&mut self, hall: &Hall<J>, most: u32) -> Result<(), Fault>
        ensures state { TakesIn self.old.state self.new.state }
        ensures most { length self.new.state.seen ≤ max (length self.old.state.seen) most }
        ensures all { OnOk result (self.new.at ≡ length self.new.state.seen) }
        ensures told { OnOk result (pending self.new ≡ []) }
        ensures fault { IfErr result (λ f. f ≡ Fault.OutOfMemory) }
    {
        self.extend_to(&hall.row, most);
        self.catch_up(hall.alloc, &hall.row)?;
        Ok(())
    }

    /// Answers a line by exactly the entries that the desk has seen. A line that does not ask is not understood. It
    /// never blocks.
    pub fn ask(&mut self, hall: &Hall<J>, said: &Parsed) -> Result<Answer, Fault>
        ensures same { self.new.state ≡ self.old.state }
        ensures told { OnOk result (pending self.new ≡ []) }
        ensures ok { IfOk result (λ a. Answers self.old.state (line_of said.now) (answer_shown a)) }
        ensures fault { IfErr result (λ f. f ≡ Fault.OutOfMemory) }
    {
        let answer = self.answer(&Alone, hall.alloc, &hall.row, said)?;
        Ok(answer)
    }

    /// Answers like [`Desk::ask`], but the guide searches with `workers` threads, which pass the gate with each room;
    /// the caller's thread is the first (see [`mud_search::labels`]). It waits only for those threads, and returns if
    /// the gate lets all pass.
    pub fn ask_with<R: Threads + Wait + Sync, G: Gate + Sync>(
        &mut self,
        rt: &R,
        hall: &Hall<J>,
        said: &Parsed,
        workers: usize,
        gate: &G,
    ) -> Result<Answer, Fault>
        ensures same { self.new.state ≡ self.old.state }
        ensures told { OnOk result (pending self.new ≡ []) }
        ensures ok { IfOk result (λ a. Answers self.old.state (line_of said.now) (answer_shown a)) }
        ensures fault { IfErr result (λ f. f ≡ Fault.OutOfMemory) }
    {
        let by = Through {
            find: |alloc: Global, world: &World, version: u32, player: u32, traveller: Option<
                &Traveller,
            >, journey: &Journey| -> Result<Answer, AllocError>
                requires { IsSync R.row × IsSync G.row × (version ≤ MOST_ENTRIES)
                    × IsTrue (is_player world.now player) × IfSome traveller (λ t. Travels world.now player t.now)
                    × IsJourney world.now journey.now }
                ensures version { IfOk result (λ a. a.version ≡ version) }
                ensures guided { IfOk result (IsGuided world.now version (Some player) journey.now) }
            {
                let by = Workers {
                    rt,
                    count: workers,
                    gate,
                };
                by_workers(&by, alloc, world, version, player, traveller, journey)
            },
        };
        let answer = self.answer(&by, hall.alloc, &hall.row, said)?;
        Ok(answer)
    }
}
