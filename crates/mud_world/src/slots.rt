//! The records by number.

ghost use Rattle.std.specs.Prelude.{◌≡◌, ◌++◌, [], ◌∷◌, IfOk, OnOk, OnErr, nat_eq, option_copied};
ghost use Rattle.std.specs.Map.{lookup, remove_entry};
ghost use Rattle.mud_world.specs.Sound.{IsRising};
ghost use Rattle.std.specs.Option.{option_map};
ghost use Rattle.mud_world.specs.inner.Edits.{edit};
ghost use Rattle.mud_world.specs.inner.Slots.{edited};

use crate::Record;
use mud_key::{Key, Names};
use std::alloc::{AllocError, Global};
use std::marker::Model;
use std::mem;

/// An edit of a record: another place of a thing or a player, another cost of an exit, other names, or another key or
/// none.
#[derive(Drop)]
pub(crate) enum Edit {
    Place(u32),
    Cost(u32),
    Names(Names),
    Key(Option<Key>),
}

/// The records, each in the slot of its number, so that a look-up needs no search. A contract sees them with their
/// numbers, in order. A recycled object leaves its slot empty.
#[derive(Drop)]
pub(crate) struct Slots {
    slots: Vec<Option<Record>>,
}

impl Model for Slots {
    ghost use Rattle.std.specs.Prelude.{ℕ, List};
    ghost use Rattle.mud_key.specs.TreeCode.{coded_number_tree};
    ghost use Rattle.std.specs.Coded.{codes};
    ghost use Rattle.mud_world.specs.declared.record.Record.{Record};
    ghost use Rattle.mud_world.specs.inner.Slots.{entries_of};

    ghost Value = { List (ℕ × Record) };

    ghost coded = { Prim.hlevel (codes, coded_number_tree) };

    ghost view = { λ r. entries_of r.slots.items };
}

impl Slots {
    /// Returns no records.
    pub(crate) fn new(alloc: Global) -> Slots
        ensures { result ≡ [] }
    {
        Slots {
            slots: Vec::new(alloc),
        }
    }

    /// Returns the record of a number.
    #[inline(always)]
    pub(crate) fn get(&self, number: u32) -> Option<&Record>
        ensures { option_copied result ≡ lookup (nat_eq number) self.now }
    {
        self.slots.get(number as usize)?.as_ref()
    }

    /// Adds a record, whose number is above all others. The only error is out of memory, and it changes nothing.
    pub(crate) fn put(&mut self, number: u32, object: Record) -> Result<(), AllocError>
        requires { IsRising 0 self.old number }
        ensures ok { OnOk result (self.new ≡ self.old ++ (number, object) ∷ []) }
        ensures err { OnErr result (self.new ≡ self.old) }
    {
        for _ in self.slots.len()..number as usize {
            self.slots.push(None)?;
        }
        self.slots.truncate(number as usize);
        self.slots.push(Some(object))?;
        Ok(())
    }

    /// Takes the record of a number out.
    pub(crate) fn take(&mut self, number: u32) -> Option<Record>
        ensures record { result ≡ lookup (nat_eq number) self.old }
        ensures rest { self.new ≡ remove_entry (nat_eq number) self.old }
    {
        match self.slots.get_mut(number as usize) {
            Some(slot) => mem::take(slot),
            None => None,
        }
    }

    /// Edits the record of a number, if there is one.
    pub(crate) fn edit(&mut self, number: u32, what: Edit)
        ensures { self.new ≡ edit number (edited what) self.old }
    {
        if let Some(slot) = self.slots.get_mut(number as usize) {
            edit_slot(slot, what);
        }
    }

    /// Returns an independent copy. The only error is out of memory.
    pub(crate) fn copy(&self, alloc: Global) -> Result<Slots, AllocError>
        ensures { IfOk result (λ copy. copy ≡ self.now) }
    {
        let mut slots = Vec::with_capacity(alloc, self.slots.len())?;
        for slot in &self.slots {
            slots.push(copy_slot(slot)?)?;
        }
        Ok(Slots { slots })
    }
}

// Edits the record of a slot, if there is one.
fn edit_slot(slot: &mut Option<Record>, what: Edit)
    ensures { slot.new ≡ option_map (edited what) slot.old }
{
    let Some(record) = slot else {
        return;
    };
    match what {
        Edit::Place(place) => record.kind = record.kind.at(place),
        Edit::Cost(cost) => record.kind = record.kind.with_cost(cost),
        Edit::Names(names) => record.names = names,
        Edit::Key(key) => record.key = key,
    }
}

fn copy_slot(slot: &Option<Record>) -> Result<Option<Record>, AllocError>
    ensures { IfOk result (λ s. s ≡ slot.now) }
{
    match slot {
        Some(record) => Ok(Some(copy_record(record)?)),
        None => Ok(None),
    }
}

fn copy_record(object: &Record) -> Result<Record, AllocError>
    ensures { IfOk result (λ r. r ≡ object.now) }
{
    let key = match &object.key {
        Some(key) => Some(key.copy()?),
        None => None,
    };
    Ok(Record {
        names: object.names.copy()?,
        owner: object.owner,
        kind: object.kind,
        key,
    })
}
