//! The rooms of one traveller.

ghost use Rattle.std.specs.Prelude.{◌≡◌, ◌≢◌, ℕ, ◌+◌, All, ◌<◌, ◌≤◌, ◌^◌, IfOk, IfSome, IfNone, length, slice_get};
ghost use Rattle.std.specs.Prelude.{slice_set, replicate, count_by};
ghost use Rattle.std.specs.Bool.{OnTrue, OnFalse};
ghost use Rattle.mud_world.specs.declared.limits.TheConstants.{MOST_COST};
ghost use Rattle.mud_roads.specs.declared.label.Label.{Label};
ghost use Rattle.mud_roads.specs.Labels.{start_label};
ghost use Rattle.mud_search.specs.Slots.{is_waiting, is_held};
ghost use Rattle.mud_search.specs.Least.{AreLabelsBelow};
ghost use Rattle.mud_search.specs.inner.Boards.{IsBefore, slot_at, label_at, waiting_label, falls, offer, offers};
ghost use Rattle.mud_search.specs.inner.Boards.{settle};

use crate::queue::Queue;
use crate::slot::Slot;
use mud_roads::{Label, Step};
use std::alloc::{AllocError, Global};
use std::marker::Model;

// The slots of the rooms, and a priority queue of the waiting ones. A contract sees the slots.
pub(crate) struct Board {
    slots: Vec<Slot>,
    order: Queue,
    waiting: usize,
    held: usize,
}

impl Drop for Board {
    fn drop(self) {
        let Board {
            slots,
            order,
            waiting: _,
            held: _,
        } = self;
        drop(slots);
        drop(order);
    }
}

impl Model for Board {
    ghost use Rattle.std.specs.Prelude.{List};
    ghost use Rattle.mud_search.specs.declared.slot.Slot.{Slot};
    ghost use Rattle.mud_search.specs.inner.Boards.{IsBoard};

    ghost Value = { List Slot };

    ghost view = { λ b. b.slots.items };

    ghost invariant = { λ b. IsBoard b.slots.items b.order b.waiting b.held };
}

impl Board {
    // Returns a board of this many rooms, all unknown.
    pub(crate) fn new(alloc: Global, rooms: usize) -> Result<Self, AllocError>
        requires { rooms < 2 ^ 32 }
        ensures { IfOk result (λ b. b ≡ replicate rooms Slot.Unknown) }
    {
        let slots = unknown_slots(alloc, rooms)?;
        let order = Queue::new(alloc, rooms)?;
        Ok(Board {
            slots,
            order,
            waiting: 0,
            held: 0,
        })
    }

    // Returns a board of this many rooms. All are unknown except the place, which waits.
    pub(crate) fn start(alloc: Global, rooms: u32, place: u32) -> Result<Self, AllocError>
        requires { place < rooms }
        ensures { IfOk result (λ b. b ≡ slice_set (replicate rooms Slot.Unknown) place (Slot.Waiting start_label)) }
    {
        let mut board = Board::new(alloc, rooms as usize)?;
        board.mark(place, Slot::Waiting(Label { cost: 0, exits: 0 }));
        Ok(board)
    }

    // Returns the slot of a room.
    pub(crate) fn slot(&self, room: usize) -> Slot
        requires { room < length self.now }
        ensures { slice_get self.now room ≡ Some result }
    {
        self.slots[room]
    }

    // Returns the waiting room with the least label; among equals, the lowest.
    pub(crate) fn least(&self) -> Option<(Label, u32)>
        ensures some { IfSome result (λ t. slot_at self.now t.1 ≡ Slot.Waiting t.0) }
        ensures least { IfSome result (λ t. (room : ℕ) (l : Label) → slot_at self.now room ≡ Slot.Waiting l
            → IsBefore t.0 t.1 l room) }
        ensures none { IfNone result ((room : ℕ) (l : Label) → slot_at self.now room ≡ Slot.Waiting l → ⊥) }
    {
        match self.order.first() {
            Some(entry) => Some((entry.label, entry.room)),
            None => None,
        }
    }

    // Sets the slot of a room.
    pub(crate) fn mark(&mut self, room: u32, slot: Slot)
        requires { room < length self.old }
        ensures { self.new ≡ slice_set self.old room slot }
    {
        let at = room as usize;
        let before = self.slots[at];
        self.waiting -= usize::from(before.is_waiting());
        self.held -= usize::from(before.is_held());
        self.slots[at] = slot;
        self.waiting += usize::from(slot.is_waiting());
        self.held += usize::from(slot.is_held());
        self.order.set(room, waiting_label(slot));
    }

    // Offers the label after a step to the room where the step leads. The room takes it if it has none, or a greater
    // one.
    fn offer(&mut self, label: Label, step: &Step)
        requires to { step.now.to < length self.old }
        requires cost { label.cost + step.now.cost < 2 ^ 32 }
        requires exits { label.exits + 1 < 2 ^ 32 }
        ensures { self.new ≡ offer label step.now self.old }
    {
        let next = Label {
            cost: label.cost + step.cost,
            exits: label.exits + 1,
        };
        let before = self.slot(step.to as usize).label();
        if falls(next, before) {
            self.mark(step.to, Slot::Waiting(next));
        }
    }

    // Returns the label of a room, and none past the last room.
    pub(crate) fn label(&self, room: u32) -> Option<Label>
        ensures { result ≡ label_at self.now room }
    {
        let at = room as usize;
        if at < self.slots.len() {
            self.slots[at].label()
        } else {
            None
        }
    }

    // Returns the labels of the rooms below a number, sorted by number.
    pub(crate) fn labels_below(
        &self,
        alloc: Global,
        next: u32,
    ) -> Result<Vec<(u32, Label)>, AllocError>
        ensures { IfOk result (λ found. AreLabelsBelow (label_at self.now) next found.items) }
    {
        // a slice, so that the pointer is not loaded again after each push
        let slots = self.slots.as_slice();
        let end = slots.len().min(next as usize);
        let mut found = Vec::new(alloc);
        for room in 0..end {
            if let Some(label) = slots[room].label() {
                found.push((room as u32, label))?;
            }
        }
        Ok(found)
    }

    // Makes a room wait again if it is held with this label. Returns whether it was.
    pub(crate) fn release(&mut self, room: u32, label: Label) -> bool
        ensures held { OnTrue result ((slot_at self.old room ≡ Slot.Held label)
            × (self.new ≡ slice_set self.old room (Slot.Waiting label))) }
        ensures other { OnFalse result ((slot_at self.old room ≢ Slot.Held label) × (self.new ≡ self.old)) }
    {
        let at = room as usize;
        if at < self.slots.len() && self.slots[at] == Slot::Held(label) {
            self.mark(room, Slot::Waiting(label));
            true
        } else {
            false
        }
    }

    // Returns a held room, if there is one.
    pub(crate) fn first_held(&self) -> Option<(Label, u32)>
        ensures some { IfSome result (λ t. slot_at self.now t.1 ≡ Slot.Held t.0) }
        ensures none { IfNone result ((room : ℕ) (l : Label) → slot_at self.now room ≡ Slot.Held l → ⊥) }
    {
        // the count avoids a scan of all slots
        if self.held == 0 {
            return None;
        }
        for room in 0..self.slots.len() {
            if let Slot::Held(label) = self.slots[room] {
                return Some((label, room as u32));
            }
        }
        None
    }

    // Returns the number of waiting rooms.
    pub(crate) fn waiting_count(&self) -> usize
        ensures waiting { result ≡ count_by is_waiting self.now }
        ensures few { result < 2 ^ 32 }
    {
        self.waiting
    }

    // Returns the number of held rooms.
    pub(crate) fn held_count(&self) -> usize
        ensures held { result ≡ count_by is_held self.now }
        ensures few { result < 2 ^ 32 }
    {
        self.held
    }

    // Relaxes all steps out of a room with this label.
    fn follow(&mut self, label: Label, steps: &[Step])
        requires cost { label.cost + MOST_COST < 2 ^ 32 }
        requires exits { label.exits + 1 < 2 ^ 32 }
        requires steps { All (λ s. (s.to < length self.old) × (s.cost ≤ MOST_COST)) steps.now }
        ensures slots { self.new ≡ offers label steps.now self.old }
        ensures whole { length self.new ≡ length self.old }
    {
        for step in steps {
            self.offer(label, step);
        }
    }

    // Relaxes all steps out of a room that has this label, and finishes the room. Returns whether it has the label.
    pub(crate) fn settle(&mut self, room: u32, label: Label, steps: &[Step]) -> bool
        requires bound { (l : Label) → label_at self.old room ≡ Some l
            → (l.cost + MOST_COST < 2 ^ 32) × (l.exits + 1 < 2 ^ 32) }
        requires steps { All (λ s. (s.to < length self.old) × (s.cost ≤ MOST_COST)) steps.now }
        ensures done { OnTrue result ((label_at self.old room ≡ Some label)
            × (self.new ≡ settle room label steps.now self.old)) }
        ensures stale { OnFalse result ((label_at self.old room ≢ Some label) × (self.new ≡ self.old)) }
    {
        if self.label(room) == Some(label) {
            self.follow(label, steps);
            self.mark(room, Slot::Finished(label));
            true
        } else {
            false
        }
    }
}

// Returns this many slots, all unknown.
fn unknown_slots(alloc: Global, rooms: usize) -> Result<Vec<Slot>, AllocError>
    ensures { IfOk result (λ slots. slots.items ≡ replicate rooms Slot.Unknown) }
{
    let mut slots = Vec::new(alloc);
    slots.resize(rooms, Slot::Unknown)?;
    Ok(slots)
}

// Returns the label of a waiting slot.
fn waiting_label(slot: Slot) -> Option<Label>
    ensures { result ≡ waiting_label slot }
{
    match slot {
        Slot::Waiting(label) => Some(label),
        Slot::Unknown | Slot::Held(_) | Slot::Finished(_) => None,
    }
}

// Returns whether the label is new, or less than the one before.
fn falls(next: Label, before: Option<Label>) -> bool
    ensures { result ≡ falls next before }
{
    match before {
        None => true,
        Some(label) => next < label,
    }
}
