//! The rooms of all members during a search.

ghost use Rattle.std.specs.Prelude.{◌≡◌, ◌≢◌, ℕ, ◌+◌, ◌*◌, ◌<◌, ◌≤◌, All, IfOk, IfSome, IfNone, None, Some, length};
ghost use Rattle.std.specs.Prelude.{slice_get};
ghost use Rattle.mud_roads.specs.declared.label.Label.{Label};
ghost use Rattle.mud_roads.specs.Passable.{Knowledge, IsTraveller, roads_of};
ghost use Rattle.mud_search.specs.Slots.{is_waiting, is_held, labels_of};
ghost use Rattle.mud_search.specs.Tables.{how_many};
ghost use Rattle.mud_search.specs.inner.Tables.{lists_in};
ghost use Rattle.mud_search.specs.Rooms.{slot_in};
ghost use Rattle.mud_search.specs.Frontier.{IsFrontier};
ghost use Rattle.mud_search.specs.Tasks.{IsBegun, IsFirst, IsChanged, IsDone};
ghost use Rattle.mud_search.specs.Least.{label_in, AreLeast, AreBounded};
ghost use Rattle.mud_search.specs.inner.Boards.{IsLeft, potential, lesser};
ghost use Rattle.mud_search.specs.inner.Once.{IsInOrder, is_unfinished};
ghost use Rattle.mud_world.specs.declared.limits.TheConstants.{MOST_PARTY};

use crate::board::Board;
use crate::found::Labels;
use crate::gate::{Gate, OpenGate};
use crate::job::Job;
use crate::part::Part;
use crate::slot::Slot;
use crate::steps::Steps;
use crate::task::{Put, Rest, Task};
use mud_roads::{Label, Step, Traveller};
use mud_world::World;
use std::alloc::{AllocError, Global};
use std::marker::{Model, PhantomData};
use std::sync::ledger::Ledger;

/// The rooms of all members of a party during a search. A contract sees a slot for each member and room, and Unknown
/// past the last. Its invariant (`IsFrontier`) holds after every call. Each label is that of a walk, a member's place
/// has cost 0 and no exits, and no step out of a finished room leads to a greater label than the one after the step.
#[derive(Drop)]
pub struct Frontier<J: Job> {
    boards: Vec<Board>,
    of: PhantomData<J>,
}

impl<J: Job> Model for Frontier<J> {
    ghost use Rattle.mud_search.specs.declared.slot.Slot.{Slot};
    ghost use Rattle.mud_search.specs.contracts.slot.Slot as slot;
    ghost use Rattle.mud_search.specs.Tables.{Table, table, table_code};
    ghost use Rattle.mud_search.specs.Memory.{IsKept};

    ghost Value = { Table Slot };

    ghost coded = { table_code slot.the_row.coded };

    ghost view = { λ f. table f.boards.items };

    ghost invariant = { λ f. IsKept J.world J.travellers f.boards.items };
}

impl<J: Job> Frontier<J> {
    /// Returns the initial frontier: each member's place waits with cost 0 and no exits, and no other room is known. It
    /// allocates all memory that later calls need. The only error is out of memory.
    pub fn new(alloc: Global, world: &World, travellers: &[Traveller]) -> Result<Self, AllocError>
        requires world { world.now ≡ J.world }
        requires travellers { travellers.now ≡ J.travellers }
        requires these { All (IsTraveller J.world) J.travellers }
        requires few { length J.travellers ≤ MOST_PARTY }
        ensures { IfOk result (λ f. IsBegun J.travellers (slot_in f)) }
    {
        let mut boards = Vec::with_capacity(alloc, travellers.len())?;
        let rooms = world.next_number();
        for traveller in travellers {
            boards.push(Board::start(alloc, rooms, traveller.place())?)?;
        }
        Ok(Frontier {
            boards,
            of: PhantomData,
        })
    }

    // Returns the waiting room with the least label; among equals, that of the first member, then the lowest.
    fn first(&self) -> Option<Task>
        ensures some { IfSome result (λ t. IsFirst (slot_in self.now) t) }
        ensures none { IfNone result ((m r : ℕ) (l : Label) → slot_in self.now m r ≡ Slot.Waiting l → ⊥) }
    {
        let mut best: Option<Task> = None;
        for member in 0..self.boards.len() {
            let found = self.boards[member].least();
            best = lesser(best, member, found);
        }
        best
    }

    /// Takes the waiting room with the least label; among equals, that of the first member, then the lowest. The room
    /// becomes held. Returns `None` if no room waits.
    pub fn take(&mut self) -> Option<Task>
        ensures some { IfSome result (λ t. IsFirst (slot_in self.old) t
            × IsChanged (slot_in self.old) (slot_in self.new) t.member t.room (Slot.Held t.label)) }
        ensures none { IfNone result ((self.new ≡ self.old)
            × ((m r : ℕ) (l : Label) → slot_in self.old m r ≡ Slot.Waiting l → ⊥)) }
        ensures member { IfSome result (λ t. t.member < length J.travellers) }
    {
        let task = self.first()?;
        self.boards[task.member].mark(task.room, Slot::Held(task.label));
        Some(task)
    }

    /// Returns a room to the frontier, with the steps of all its exits that are open to the member. If the room still
    /// has the task's label, each step offers the label after it to the room where it leads. That room takes the label
    /// if it has none or a greater one, and then waits. The task's room is finished. Otherwise nothing changes.
    pub fn put(&mut self, task: &Task, steps: &[Step]) -> Put
        requires steps { (t : Knowledge) → slice_get J.travellers task.now.member ≡ Some t
            → steps.now ≡ roads_of J.world t.player task.now.room }
        ensures done { result ≡ Put.Done → IsDone (slot_in self.old) (slot_in self.new) task.now steps.now }
        ensures stale { result ≡ Put.Stale
            → (labels_of (slot_in self.old task.now.member) task.now.room ≢ Some task.now.label)
            × (self.new ≡ self.old) }
    {
        self.settle(task, steps)
    }

    // Finishes the task's room like `put`, and promises more: less work is left if the room waited or was held. If the
    // rooms are in order and the task's is the first, they stay in order, and one more room is finished.
    fn settle(&mut self, task: &Task, steps: &[Step]) -> Put
        requires steps { (t : Knowledge) → slice_get J.travellers task.now.member ≡ Some t
            → steps.now ≡ roads_of J.world t.player task.now.room }
        ensures done { result ≡ Put.Done → IsDone (slot_in self.old) (slot_in self.new) task.now steps.now }
        ensures stale { result ≡ Put.Stale
            → (labels_of (slot_in self.old task.now.member) task.now.room ≢ Some task.now.label)
            × (self.new ≡ self.old) }
        ensures less { IsLeft (slot_in self.old) task.now
            → potential (lists_in self.new) < potential (lists_in self.old) }
        ensures once { IsInOrder (slot_in self.old) → IsFirst (slot_in self.old) task.now
            → IsInOrder (slot_in self.new)
            × (how_many is_unfinished self.new + 1 ≡ how_many is_unfinished self.old) }
    {
        if task.member < self.boards.len()
            && self.boards[task.member].settle(task.room, task.label, steps)
        {
            Put::Done
        } else {
            Put::Stale
        }
    }

    /// Makes the task's room wait again, if it is held with the task's label. Otherwise nothing changes.
    pub fn back(&mut self, task: &Task)
        ensures held { slot_in self.old task.now.member task.now.room ≡ Slot.Held task.now.label
            → IsChanged (slot_in self.old) (slot_in self.new) task.now.member task.now.room
            (Slot.Waiting task.now.label) }
        ensures other { slot_in self.old task.now.member task.now.room ≢ Slot.Held task.now.label
            → self.new ≡ self.old }
    {
        if task.member < self.boards.len() {
            let _ = self.boards[task.member].release(task.room, task.label);
        }
    }

    /// States the invariant of the type, for contracts only: it holds after any sequence of calls.
    pub fn facts(&self)
        ensures { IsFrontier J.world J.travellers (slot_in self.now) }
    {
        // for the prover: reading the field makes the invariant of every frontier known
        let _known = &self.boards;
    }

    /// Returns the numbers of waiting and of held rooms. If both are 0, the labels are the least.
    pub fn rest(&self) -> Rest
        ensures waiting { result.waiting ≡ how_many is_waiting self.now }
        ensures held { result.held ≡ how_many is_held self.now }
        ensures least { result.waiting ≡ 0 → result.held ≡ 0
            → AreLeast J.world J.travellers (λ m. labels_of (slot_in self.now m)) }
    {
        let mut waiting = 0;
        let mut held = 0;
        for board in &self.boards {
            waiting += board.waiting_count();
            held += board.held_count();
        }
        Rest { waiting, held }
    }

    // Returns a held room, if there is one.
    fn first_held(&self) -> Option<Task>
        ensures some { IfSome result (λ t. slot_in self.now t.member t.room ≡ Slot.Held t.label) }
        ensures member { IfSome result (λ t. t.member < length (lists_in self.now)) }
        ensures none { IfNone result ((m r : ℕ) (l : Label) → slot_in self.now m r ≡ Slot.Held l → ⊥) }
    {
        for member in 0..self.boards.len() {
            if let Some((label, room)) = self.boards[member].first_held() {
                return Some(Task {
                    member,
                    room,
                    label,
                });
            }
        }
        None
    }

    // Returns a waiting room, or else a held one, once no worker is active. If there is neither, the labels are the
    // least.
    fn next_left(&self) -> Option<Task>
        ensures some { IfSome result (λ t. IsLeft (slot_in self.now) t) }
        ensures member { IfSome result (λ t. t.member < length J.travellers) }
        ensures none { IfNone result (AreLeast J.world J.travellers (λ m. labels_of (slot_in self.now m))) }
    {
        // for the prover: reading the field makes the invariant of every frontier known
        let _known = &self.boards;
        match self.first() {
            Some(task) => Some(task),
            None => self.first_held(),
        }
    }

    /// Finishes all remaining work on this thread, including held rooms. It does not allocate.
    pub fn finish(&mut self, travellers: &[Traveller])
        requires travellers { travellers.now ≡ J.travellers }
        requires these { All (IsTraveller J.world) J.travellers }
        ensures { AreLeast J.world J.travellers (λ m. labels_of (slot_in self.new m)) }
    {
        self.finish_by(travellers, Part::whole(0), &OpenGate);
    }

    // Finishes all remaining work on this thread, as the first worker of a part, and passes the gate with each room.
    pub(crate) fn finish_by<G: Gate>(&mut self, travellers: &[Traveller], part: Part, gate: &G)
        requires travellers { travellers.now ≡ J.travellers }
        requires these { All (IsTraveller J.world) J.travellers }
        ensures { AreLeast J.world J.travellers (λ m. labels_of (slot_in self.new m)) }
    {
        while let Some(task) = self.next_left() {
            part.pass(gate, 0, &task);
            let steps = travellers[task.member].steps_from(task.room);
            let _ = self.settle(&task, steps);
        }
    }

    // Returns the waiting room with the least label, like `first`, and counts it as taken.
    fn next<L: Ledger>(&self, taken: &mut Steps<L>) -> Option<Task>
        ensures some { IfSome result (λ t. IsFirst (slot_in self.now) t × (taken.new ≡ taken.old + 1)) }
        ensures member { IfSome result (λ t. t.member < length J.travellers) }
        ensures none { IfNone result ((taken.new ≡ taken.old)
            × ((m r : ℕ) (l : Label) → slot_in self.now m r ≡ Slot.Waiting l → ⊥)) }
        ensures least { IfNone result (IsInOrder (slot_in self.now)
            → AreLeast J.world J.travellers (λ m. labels_of (slot_in self.now m))) }
    {
        // for the prover: reading the field makes the invariant of every frontier known
        let _known = &self.boards;
        let task = self.first()?;
        taken.tick();
        Some(task)
    }

    // Finishes a frontier that has just begun, and counts the rooms that it takes: each at most once for each member.
    pub(crate) fn finish_counted<L: Ledger>(
        &mut self,
        travellers: &[Traveller],
        taken: &mut Steps<L>,
    )
        requires travellers { travellers.now ≡ J.travellers }
        requires these { All (IsTraveller J.world) J.travellers }
        requires begun { IsBegun J.travellers (slot_in self.old) }
        ensures least { AreLeast J.world J.travellers (λ m. labels_of (slot_in self.new m)) }
        ensures cost { taken.new ≤ taken.old + length J.travellers * J.world.next }
    {
        // for the prover: reading the field makes the invariant of every frontier known
        let _known = &self.boards;
        while let Some(first) = self.next(taken) {
            let steps = travellers[first.member].steps_from(first.room);
            let _ = self.settle(&first, steps);
        }
    }

    /// Returns the present labels.
    pub fn into_labels(self) -> Labels
        ensures labels { (m room : ℕ) → label_in result m room ≡ labels_of (slot_in self m) room }
        ensures members { (m room : ℕ) → length J.travellers ≤ m → label_in result m room ≡ None }
        ensures bounded { AreBounded (label_in result) }
    {
        self.into_member_labels()
    }

    // Returns the present labels, a list for each member.
    pub(crate) fn into_member_labels(self) -> Labels
        ensures labels { (m room : ℕ) → label_in result m room ≡ labels_of (slot_in self m) room }
        ensures count { length (lists_in result) ≡ length J.travellers }
        ensures bounded { AreBounded (label_in result) }
    {
        let Frontier { boards, of: _ } = self;
        Labels::of(boards)
    }
}

// Returns the task with the lesser label: the given one, or that of a later member.
fn lesser(best: Option<Task>, member: usize, found: Option<(Label, u32)>) -> Option<Task>
    ensures { result ≡ lesser best member found }
{
    let Some((label, room)) = found else {
        return best;
    };
    match best {
        Some(task) if task.label <= label => best,
        _ => Some(Task {
            member,
            room,
            label,
        }),
    }
}
