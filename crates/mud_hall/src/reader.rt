//! Readers of a hall's history.

ghost use Rattle.std.specs.Prelude.{◌≡◌, ◌≤◌, ◌++◌, length, IfOk};
ghost use mathlib.Core.List.{IsPrefix};
ghost use Rattle.mud_world.specs.declared.limits.TheConstants.{MOST_ENTRIES};
ghost use Rattle.mud_hall.specs.Settlement.{IsGathered};

use crate::close::gather;
use crate::desk::Desk;
use crate::hall::Hall;
use crate::name::HallName;
use mud_chron::Entry;
use mud_row::Pass;
use std::alloc::{AllocError, Global};
use std::marker::{Model, PhantomData};
use std::sync::Wait;

/// A cursor into the history of a hall. A contract sees the entries read. A reader makes no entries, and takes no lock
/// of the hall to read.
#[derive(Drop)]
pub struct Reader<J: HallName> {
    pub(crate) pass: Pass,
    pub(crate) of: PhantomData<J>,
}

impl<J: HallName> Model for Reader<J> {
    ghost use Rattle.std.specs.Prelude.{◌≡◌, List};
    ghost use Rattle.mud_chron.specs.Entry.{Entry};

    ghost Value = { List Entry };

    ghost use Rattle.mud_key.specs.TreeCode.{coded_number_tree};
    ghost use Rattle.std.specs.Coded.{codes};

    ghost coded = { Prim.hlevel (codes, coded_number_tree) };

    ghost view = { λ r. r.pass.list };

    ghost invariant = { λ r. r.pass.row ≡ J.cells };
}

impl<J: HallName> Hall<J> {
    /// Returns a reader that has read the loaded entries. The only error is out of memory.
    pub fn reader<R: Wait>(&self, rt: &R) -> Result<Reader<J>, AllocError>
        ensures { IfOk result (λ r. r ≡ J.loaded) }
    {
        let mut kept = self.kept.lock(rt);
        kept.reader(self.alloc)
    }
}

impl<J: HallName> Reader<J> {
    /// Returns the number of entries read.
    pub fn len(&self) -> u32
        ensures len { result ≡ length self.now }
        ensures limit { result ≤ MOST_ENTRIES }
    {
        self.pass.known()
    }

    /// Reads the next set entries, at most `most`. After an error some entries count as read that the caller did not
    /// get.
    pub fn read(
        &mut self,
        alloc: Global,
        hall: &Hall<J>,
        most: u32,
    ) -> Result<Vec<Entry>, AllocError>
        ensures ok { IfOk result (λ es. self.new ≡ self.old ++ es.items) }
        ensures longer { IsPrefix self.old self.new }
    {
        let mut all = Vec::new(alloc);
        for _ in 0..most {
            match hall.row.next(&mut self.pass) {
                Some(entry) => all.push(entry.copy(alloc)?)?,
                None => break,
            }
        }
        Ok(all)
    }

    /// Advances to the longest prefix that any of the desks has seen.
    pub fn gather(&mut self, desks: &mut Vec<Desk<J>>)
        ensures same { desks.new.items ≡ desks.old.items }
        ensures gathered { IsGathered self.old desks.old.items self.new }
    {
        gather(desks, &mut self.pass);
    }
}
