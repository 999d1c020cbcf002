//! Writes a hall's journal.

ghost use Rattle.std.specs.Prelude.{◌≡◌, false, length, IfOk, OnOk};
ghost use mathlib.Core.List.{IsPrefix};
ghost use Rattle.mud_hall.specs.Settlement.{IsGathered};
ghost use Rattle.mud_journal.specs.Disk.{Holds};

use mud_hall::{Desk, Hall, HallName, Reader};
use mud_journal::{Disk, Journal, JournalFault, Nameless, Receipt};
use mud_world::limits::MOST_ENTRIES;
use std::alloc::Global;
use std::marker::Model;

/// A hall's journal, which has the hall's name, and the entries of the hall that were read for it. A prefix of them is
/// synced: all of them, unless the journal has failed.
#[derive(Drop)]
pub struct JournalWriter<J: HallName, D: Disk + Drop> {
    journal: Journal<J, D>,
    reader: Reader<J>,
    alloc: Global,
}

impl<J: HallName, D: Disk + Drop> Model for JournalWriter<J, D> {
    ghost use Rattle.mud_key.specs.TreeCode.{coded_number_tree};
    ghost use Rattle.std.specs.Coded.{codes};
    ghost use Rattle.mud_server_end.specs.JournalText.{Written, IsWritten};

    ghost Value = { Written };

    ghost coded = { Prim.hlevel (codes, coded_number_tree) };

    ghost view = { λ s. record {
      entries = s.reader;
      kept = D.kept s.journal.disk;
      has_failed = s.journal.has_failed;
    } };

    ghost invariant = { λ s. IsWritten s.reader (D.kept s.journal.disk) s.journal.has_failed s.journal.count };
}

impl<J: HallName, D: Disk + Drop> JournalWriter<J, D> {
    /// Gives the journal the hall's name, and continues after the entries read, which the journal has.
    pub fn new(
        alloc: Global,
        journal: Journal<Nameless, D>,
        reader: Reader<J>,
    ) -> JournalWriter<J, D>
        requires holds { Holds (D.kept journal.disk) reader }
        requires count { journal.count ≡ length reader }
        requires going { journal.has_failed ≡ false }
        ensures { result.entries ≡ reader }
    {
        JournalWriter {
            journal: journal.with_name::<J>(),
            reader,
            alloc,
        }
    }

    /// Returns the number of entries read.
    pub fn len(&self) -> usize
        ensures { result ≡ length self.now.entries }
    {
        self.reader.len() as usize
    }

    /// Returns a receipt for all synced entries.
    pub fn receipt(&self) -> Receipt<J> {
        self.journal.receipt()
    }

    /// Appends the new entries of the hall, and syncs them.
    pub fn write(&mut self, hall: &Hall<J>) -> Result<Receipt<J>, JournalFault>
        ensures ok { IfOk result (λ r. (r.up_to ≡ length self.new.entries) × Holds self.new.kept self.new.entries) }
        ensures longer { IsPrefix self.old.entries self.new.entries }
        ensures going { OnOk result (self.new.has_failed ≡ false) }
    {
        if self.journal.has_failed() {
            return Err(JournalFault::Disk);
        }
        match self.reader.read(self.alloc, hall, MOST_ENTRIES as u32) {
            Ok(new) => self.journal.commit(self.alloc, &new),
            Err(_) => {
                self.journal.fail();
                Err(JournalFault::OutOfMemory)
            }
        }
    }

    /// Appends and syncs the new entries of the hall. The journal then has all entries that any desk has seen.
    pub fn finish(&mut self, hall: &Hall<J>, desks: &mut Vec<Desk<J>>) -> Result<(), JournalFault>
        ensures same { desks.new.items ≡ desks.old.items }
        ensures holds { OnOk result (Holds self.new.kept self.new.entries) }
        ensures gathered { OnOk result (IsGathered self.new.entries desks.old.items self.new.entries) }
        ensures longer { IsPrefix self.old.entries self.new.entries }
        ensures going { OnOk result (self.new.has_failed ≡ false) }
    {
        self.write(hall)?;
        let before = self.reader.len();
        self.reader.gather(desks);
        if self.reader.len() != before {
            self.journal.fail();
            return Err(JournalFault::Mismatch);
        }
        Ok(())
    }

    /// Returns the journal, without its name.
    pub fn into_journal(self) -> Journal<Nameless, D>
        ensures kept { D.kept result.disk ≡ self.kept }
        ensures has_failed { result.has_failed ≡ self.has_failed }
        ensures count { self.has_failed ≡ false → result.count ≡ length self.entries }
    {
        self.journal.without_name()
    }
}
