//! A priority queue of the waiting rooms. Updates do not allocate.

ghost use Rattle.std.specs.Prelude.{◌≡◌, ℕ, ◌+◌, ◌-◌, ◌*◌, ◌/◌, ◌^◌, ◌<◌, ◌≤◌, IfOk, IfSome, IfNone, Option, length};
ghost use Rattle.std.specs.Prelude.{slice_set, slice_index_or, replicate};
ghost use Rattle.std.specs.Bool.{OnTrue, OnFalse};
ghost use Rattle.mud_roads.specs.declared.label.Label.{Label};
ghost use Rattle.mud_search.specs.inner.Boards.{IsBefore};

use mud_roads::Label;
use std::alloc::{AllocError, Global};
use std::marker::Model;

// A room with its label.
#[derive(Clone, Copy, Debug, PartialEq, Eq, Drop)]
pub(crate) struct Entry {
    pub(crate) label: Label,
    pub(crate) room: u32,
}

// The entries of all rooms, and the index of each room's entry.
#[derive(Drop)]
struct Heap {
    // every room once: the waiting ones first, as a heap, then the others, whose labels are meaningless
    entries: Vec<Entry>,
    // the index of each room among the entries
    places: Vec<u32>,
    // the number of waiting rooms
    waiting: usize,
}

// The waiting rooms with their labels. A contract sees for each room its label, or none if it does not wait.
#[derive(Drop)]
pub(crate) struct Queue {
    heap: Heap,
}

impl Model for Queue {
    ghost use Rattle.std.specs.Prelude.{List, Option};
    ghost use Rattle.mud_roads.specs.declared.label.Label.{Label};
    ghost use Rattle.mud_search.specs.inner.Queues.{IsQueue, heap_labels};

    ghost Value = { List (Option Label) };

    ghost view = { λ q. heap_labels q.heap };

    ghost invariant = { λ q. IsQueue q.heap.entries.items q.heap.places.items q.heap.waiting };
}

impl Queue {
    // Returns a queue of this many rooms; no room waits.
    pub(crate) fn new(alloc: Global, rooms: usize) -> Result<Self, AllocError>
        requires few { rooms < 2 ^ 32 }
        ensures { IfOk result (λ q. q ≡ replicate rooms None) }
    {
        let mut entries = Vec::with_capacity(alloc, rooms)?;
        let mut places = Vec::with_capacity(alloc, rooms)?;
        let label = Label { cost: 0, exits: 0 };
        for place in 0..rooms {
            let room = place as u32;
            entries.push_reserved(Entry { label, room });
            places.push_reserved(room);
        }
        Ok(Queue {
            heap: Heap {
                entries,
                places,
                waiting: 0,
            },
        })
    }

    // Returns the room with the least label; among equals, the lowest.
    pub(crate) fn first(&self) -> Option<Entry>
        ensures some { IfSome result (λ e. slice_index_or self.now e.room None ≡ Some e.label) }
        ensures least { IfSome result (λ e. (room : ℕ) (l : Label) → slice_index_or self.now room None ≡ Some l
            → IsBefore e.label e.room l room) }
        ensures none { IfNone result ((room : ℕ) (l : Label) → slice_index_or self.now room None ≡ Some l → ⊥) }
    {
        if self.heap.waiting > 0 {
            Some(self.heap.entries[0])
        } else {
            None
        }
    }

    // Makes the room wait with this label, or not wait.
    pub(crate) fn set(&mut self, room: u32, label: Option<Label>)
        requires { room < length self.old }
        ensures { self.new ≡ slice_set self.old room label }
    {
        match label {
            Some(label) => self.add(room, label),
            None => self.remove(room),
        }
    }

    // Makes the room wait with this label.
    fn add(&mut self, room: u32, label: Label)
        requires { room < length self.old }
        ensures { self.new ≡ slice_set self.old room (Some label) }
    {
        let at = self.heap.admit(room);
        self.heap.entries[at] = Entry { label, room };
        self.heap.mend(at);
    }

    // Makes the room not wait.
    fn remove(&mut self, room: u32)
        requires { room < length self.old }
        ensures { self.new ≡ slice_set self.old room None }
    {
        let at = self.heap.places[room as usize] as usize;
        if at < self.heap.waiting {
            self.heap.dismiss(at);
        }
    }
}

impl Heap {
    ghost use Rattle.mud_search.specs.inner.Queues.{entry_at, heap_labels, IsNoLater, IsMatched, IsQueue, IsOrderedBut};
    ghost use Rattle.mud_search.specs.inner.Queues.{IsOrderedDownTo, IsFirstBelow, IsSwapped};

    // Moves a room to the waiting ones, and returns its index. Its label is meaningless until it is set.
    fn admit(&mut self, room: u32) -> usize
        requires queue { IsQueue self.old.entries.items self.old.places.items self.old.waiting }
        requires room { room < length self.old.entries.items }
        ensures matched { IsMatched self.new.entries.items self.new.places.items }
        ensures fits { self.new.waiting ≤ length self.new.entries.items }
        ensures within { result < self.new.waiting }
        ensures here { (entry_at self.new.entries.items result).room ≡ room }
        ensures order { IsOrderedBut self.new.entries.items self.new.waiting result }
        ensures labels { (l : Option Label)
            → slice_set (heap_labels self.new) room l ≡ slice_set (heap_labels self.old) room l }
    {
        let at = self.places[room as usize] as usize;
        let last = self.waiting;
        if at < last {
            return at;
        }
        self.swap(at, last);
        self.waiting = last + 1;
        last
    }

    // Removes the room at this index from the waiting ones.
    fn dismiss(&mut self, at: usize)
        requires queue { IsQueue self.old.entries.items self.old.places.items self.old.waiting }
        requires within { at < self.old.waiting }
        ensures queue { IsQueue self.new.entries.items self.new.places.items self.new.waiting }
        ensures labels { heap_labels self.new
            ≡ slice_set (heap_labels self.old) (entry_at self.old.entries.items at).room None }
    {
        let last = self.waiting - 1;
        self.swap(at, last);
        self.waiting = last;
        if at < last {
            self.mend(at);
        }
    }

    // Restores the heap order after the entry at this index changed.
    fn mend(&mut self, at: usize)
        requires matched { IsMatched self.old.entries.items self.old.places.items }
        requires fits { self.old.waiting ≤ length self.old.entries.items }
        requires within { at < self.old.waiting }
        requires order { IsOrderedBut self.old.entries.items self.old.waiting at }
        ensures queue { IsQueue self.new.entries.items self.new.places.items self.new.waiting }
        ensures labels { heap_labels self.new ≡ heap_labels self.old }
    {
        let top = self.rise(at);
        self.sink(top);
    }

    // Swaps the entry with its parent while it comes before that. Returns its final index.
    fn rise(&mut self, from: usize) -> usize
        requires matched { IsMatched self.old.entries.items self.old.places.items }
        requires fits { self.old.waiting ≤ length self.old.entries.items }
        requires within { from < self.old.waiting }
        requires order { IsOrderedBut self.old.entries.items self.old.waiting from }
        ensures matched { IsMatched self.new.entries.items self.new.places.items }
        ensures fits { self.new.waiting ≤ length self.new.entries.items }
        ensures within { result < self.new.waiting }
        ensures order { IsOrderedDownTo self.new.entries.items self.new.waiting result }
        ensures labels { heap_labels self.new ≡ heap_labels self.old }
    {
        let mut at = from;
        while at > 0 {
            let above = (at - 1) / 2;
            if !comes_before(&self.entries[at], &self.entries[above]) {
                return at;
            }
            self.swap(at, above);
            at = above;
        }
        at
    }

    // Moves the entry down, and the lesser child up, while the child comes before it.
    fn sink(&mut self, from: usize)
        requires matched { IsMatched self.old.entries.items self.old.places.items }
        requires fits { self.old.waiting ≤ length self.old.entries.items }
        requires within { from < self.old.waiting }
        requires order { IsOrderedDownTo self.old.entries.items self.old.waiting from }
        ensures queue { IsQueue self.new.entries.items self.new.places.items self.new.waiting }
        ensures labels { heap_labels self.new ≡ heap_labels self.old }
    {
        let entry = self.entries[from];
        let mut at = from;
        while let Some(below) = self.sooner_below(at, entry) {
            let next = self.entries[below];
            self.put(at, next);
            at = below;
        }
        self.put(at, entry);
    }

    // Returns the index of the lesser child, if that comes before the entry.
    fn sooner_below(&self, at: usize, entry: Entry) -> Option<usize>
        requires within { at < self.now.waiting }
        requires fits { self.now.waiting ≤ length self.now.entries.items }
        requires few { length self.now.entries.items < 2 ^ 32 }
        ensures some { IfSome result (λ p. IsFirstBelow self.now.entries.items self.now.waiting at p
            × IsNoLater (entry_at self.now.entries.items p) entry) }
        ensures none { IfNone result ((i : ℕ) → 0 < i → i < self.now.waiting → (i - 1) / 2 ≡ at
            → IsNoLater entry (entry_at self.now.entries.items i)) }
    {
        if 2 * at + 1 >= self.waiting {
            return None;
        }
        let below = self.first_below(at);
        if comes_before(&self.entries[below], &entry) {
            Some(below)
        } else {
            None
        }
    }

    // Returns the index of the lesser of the one or two children.
    fn first_below(&self, at: usize) -> usize
        requires some { 2 * at + 1 < self.now.waiting }
        requires fits { self.now.waiting ≤ length self.now.entries.items }
        requires few { length self.now.entries.items < 2 ^ 32 }
        ensures { IsFirstBelow self.now.entries.items self.now.waiting at result }
    {
        let left = 2 * at + 1;
        let right = left + 1;
        if right >= self.waiting {
            return left;
        }
        let is_right = comes_before(&self.entries[right], &self.entries[left]);
        // a sum instead of a branch: the outcome of the comparison is unpredictable
        left + usize::from(is_right)
    }

    // Sets the entry at an index.
    fn put(&mut self, at: usize, entry: Entry)
        requires place { at < length self.old.entries.items }
        requires room { entry.room < length self.old.places.items }
        requires few { length self.old.entries.items < 2 ^ 32 }
        ensures entries { self.new.entries.items ≡ slice_set self.old.entries.items at entry }
        ensures places { self.new.places.items ≡ slice_set self.old.places.items entry.room at }
        ensures waiting { self.new.waiting ≡ self.old.waiting }
    {
        self.entries[at] = entry;
        self.places[entry.room as usize] = at as u32;
    }

    // Swaps two entries.
    fn swap(&mut self, i: usize, j: usize)
        requires matched { IsMatched self.old.entries.items self.old.places.items }
        requires one { i < length self.old.entries.items }
        requires other { j < length self.old.entries.items }
        ensures swapped { IsSwapped self.old.entries.items self.new.entries.items i j }
        ensures matched { IsMatched self.new.entries.items self.new.places.items }
        ensures waiting { self.new.waiting ≡ self.old.waiting }
    {
        let one = self.entries[i];
        let other = self.entries[j];
        self.entries[i] = other;
        self.entries[j] = one;
        self.places[other.room as usize] = i as u32;
        self.places[one.room as usize] = j as u32;
    }
}

// Returns whether an entry comes before another: by cost, then by exits, then by room.
fn comes_before(a: &Entry, b: &Entry) -> bool
    ensures first { OnTrue result (IsBefore a.now.label a.now.room b.now.label b.now.room) }
    ensures later { OnFalse result (IsBefore b.now.label b.now.room a.now.label a.now.room) }
{
    if a.label.cost != b.label.cost {
        a.label.cost < b.label.cost
    } else if a.label.exits != b.label.exits {
        a.label.exits < b.label.exits
    } else {
        a.room < b.room
    }
}
