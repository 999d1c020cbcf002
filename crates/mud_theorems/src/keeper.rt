//! The journal of a hall, under a lock that all connections share.

ghost use Rattle.std.specs.Prelude.{◌≡◌, ◌≤◌, ℕ, List, true, false, length, IfSome};
ghost use mathlib.Core.List.{IsPrefix};
ghost use Rattle.crossbeam_utils.specs.Seq.{cell_view};
ghost use Rattle.mud_hall.specs.Settlement.{IsGathered};
ghost use Rattle.mud_journal.specs.Disk.{Holds};
ghost use Rattle.mud_journal.specs.Crash.{IsLeft};
ghost use Rattle.mud_theorems.specs.inner.Durable.{knower};
ghost use Rattle.mud_theorems.specs.inner.Kept.{IsKeeping};

use crate::durable::{Cell, Durable, Giving, Pass, Room, compare, raise};
use mud_hall::{Desk, Hall, HallName, Reader};
use mud_journal::{Appends, Journal, JournalFault, Nameless};
use mud_world::limits::MOST_ENTRIES;
use std::alloc::Global;
use std::marker::{Model, PhantomData};
use std::sync::Wait;

/// A journal with the entries of a hall that were read for it, and the pass that knows how many are durable.
#[derive(Drop)]
pub(crate) struct Keeper<J: HallName, D: Appends + Drop, B: Room> {
    alloc: Global,
    pub(crate) journal: Journal<J, D>,
    pub(crate) reader: Reader<J>,
    pub(crate) pass: Pass,
    of: PhantomData<B>,
}

impl<J: HallName, D: Appends + Drop, B: Room> Model for Keeper<J, D, B> {
    ghost use Rattle.std.specs.Prelude.{◌≡◌};
    ghost use Rattle.std.specs.Coded.{codes};
    ghost use Rattle.mud_key.specs.TreeCode.{coded_number_tree};
    ghost use mathlib.Core.List.{IsPrefix};
    ghost use Rattle.crossbeam_utils.specs.Seq.{cell_view};
    ghost use Rattle.mud_theorems.specs.inner.Durable.{knower};
    ghost use Rattle.mud_theorems.specs.inner.Kept.{Keeping, IsKeeping};

    ghost Value = { Keeping };

    ghost coded = { Prim.hlevel (codes, coded_number_tree) };

    ghost view = { λ k. record {
      entries = k.reader;
      kept = D.kept k.journal.disk;
      count = k.journal.count;
      has_failed = k.journal.has_failed;
    } };

    ghost invariant = { λ k. IsKeeping k.reader (D.kept k.journal.disk) k.journal.count k.journal.has_failed
        × IsPrefix J.loaded k.reader
        × (k.pass.table_id ≡ B.table) × (cell_view k.pass ≡ knower k.journal.count) };
}

impl<J: HallName, D: Appends + Drop, B: Room> Keeper<J, D, B> {
    /// Continues a journal that holds the entries read, with the first pass of a cell.
    pub(crate) fn new<R: Wait>(
        rt: &R,
        alloc: Global,
        cell: &Cell,
        first: Pass,
        journal: Journal<J, D>,
        reader: Reader<J>,
    ) -> Keeper<J, D, B>
        requires cell { cell.now.table.shared.table_id ≡ B.table }
        requires first { (first.table_id ≡ B.table) × (cell_view first ≡ knower 0) }
        requires begun { IsPrefix J.loaded reader }
        requires holds { Holds (D.kept journal.disk) reader }
        requires count { journal.count ≡ length reader }
        requires going { journal.has_failed ≡ false }
        ensures { result.entries ≡ reader }
    {
        let mut pass = first;
        raise(rt, cell, &mut pass, journal.len() as u64);
        Keeper {
            alloc,
            journal,
            reader,
            pass,
            of: PhantomData,
        }
    }

    /// Appends the new entries of the hall, and syncs them. After a fault it does nothing.
    pub(crate) fn write<R: Wait>(
        &mut self,
        rt: &R,
        cell: &Cell,
        hall: &Hall<J>,
    ) -> Result<(), JournalFault>
        requires { cell.now.table.shared.table_id ≡ B.table }
        ensures more { self.old.count ≤ self.new.count }
    {
        if self.journal.has_failed() {
            return Err(JournalFault::Disk);
        }
        let new = match self.reader.read(self.alloc, hall, MOST_ENTRIES as u32) {
            Ok(new) => new,
            Err(_) => {
                self.journal.fail();
                return Err(JournalFault::OutOfMemory);
            }
        };
        self.journal.commit(self.alloc, &new)?;
        raise(rt, cell, &mut self.pass, self.journal.len() as u64);
        Ok(())
    }

    /// Returns a proof that all entries are durable that the journal has synced.
    pub(crate) fn durable(&mut self, cell: &Cell) -> Durable<J, B>
        requires { cell.now.table.shared.table_id ≡ B.table }
        ensures up_to { result ≡ self.old.count }
        ensures same { self.new ≡ self.old }
    {
        let pass = cell.split_pass::<Giving>(&mut self.pass);
        Durable::new(self.journal.receipt(), pass)
    }

    /// Returns a proof that this many entries are durable, after it has synced them if necessary. Returns `None` if the
    /// journal has failed before that, or the hall has fewer entries.
    pub(crate) fn wait_for<R: Wait>(
        &mut self,
        rt: &R,
        cell: &Cell,
        hall: &Hall<J>,
        version: usize,
    ) -> Option<Durable<J, B>>
        requires { cell.now.table.shared.table_id ≡ B.table }
        ensures up_to { IfSome result (λ d. version ≤ d) }
    {
        if version <= self.journal.len() {
            return Some(self.durable(cell));
        }
        let _ = self.write(rt, cell, hall);
        if self.journal.len() < version {
            return None;
        }
        Some(self.durable(cell))
    }

    /// Takes a proof back, and compares it with the number of synced entries.
    pub(crate) fn compare<R: Wait>(&mut self, rt: &R, cell: &Cell, told: Durable<J, B>)
        requires { cell.now.table.shared.table_id ≡ B.table }
        ensures same { self.new ≡ self.old }
        ensures told { told ≤ self.old.count }
    {
        let Durable { pass, .. } = told;
        compare(rt, cell, &mut self.pass, pass);
    }

    /// Reads what the desks have seen, and returns the number of entries.
    pub(crate) fn gather(&mut self, desks: &mut Vec<Desk<J>>) -> u32
        ensures desks { desks.new.items ≡ desks.old.items }
        ensures gathered { IsGathered self.old.entries desks.old.items self.new.entries }
        ensures begun { IsPrefix J.loaded self.new.entries }
        ensures len { result ≡ length self.new.entries }
        ensures count { self.new.count ≡ self.old.count }
    {
        let before = self.reader.len();
        self.reader.gather(desks);
        let count = self.reader.len();
        if count != before {
            self.journal.fail();
        }
        count
    }

    /// Marks the journal as failed.
    pub(crate) fn fail(&mut self)
        ensures { self.new ≡ record self.old { has_failed = true } }
    {
        self.journal.fail();
    }

    /// Returns the journal, which makes no more receipts for this hall.
    pub(crate) fn into_journal(self) -> Journal<Nameless, D>
        ensures kept { D.kept result.disk ≡ self.kept }
        ensures failed { result.has_failed ≡ self.has_failed }
        ensures left { (bytes : List ℕ) → D.left_since result.disk (D.moment result.disk) bytes
            → IsLeft D.tears (D.kept result.disk) bytes }
        ensures keeping { IsKeeping self.entries self.kept self.count self.has_failed }
    {
        self.journal.without_name()
    }
}
