//! Entries of a history.

ghost use Rattle.std.specs.Prelude.{◌≡◌, IfOk};
ghost use Rattle.mud_chron.specs.Entry.{Entry, IsSpellable, IsEntry};

use crate::copying::copy_change;
use crate::parts::has_parts;
use mud_world::Change;
use std::alloc::{AllocError, Global};
use std::marker::Model;

/// An accepted change, and the desk that made it. Every entry can be written as text (`IsEntry`): the desk is 1 to 64,
/// object numbers are 0 to 8,191, and a cost is 0 to 10,000. A dig to an existing room has an exit. A contract sees the
/// desk and the change.
pub struct Entry {
    desk: u32,
    change: Change,
}

impl Drop for Entry {
    fn drop(self) {
        let Entry { desk: _, change } = self;
        drop(change);
    }
}

impl Model for Entry {
    ghost use Rattle.mud_chron.specs.Entry.{Entry, IsEntry};
    ghost use Rattle.mud_key.specs.TreeCode.{coded_number_tree};
    ghost use Rattle.std.specs.Coded.{codes};

    ghost Value = { Entry };

    ghost coded = { Prim.hlevel (codes, coded_number_tree) };

    ghost view = { λ a. record { desk = a.desk; change = a.change } };

    ghost invariant = { λ a. IsEntry (record { desk = a.desk; change = a.change }) };
}

impl Entry {
    /// Returns the entry of a change that the desk made. By the law
    /// [`legal_is_spellable`](crate::laws::legal_is_spellable), a change that is legal in a sound world is spellable
    /// for each desk from 1 to 64.
    #[inline(always)]
    pub fn new(desk: u32, change: Change) -> Entry
        requires { IsSpellable desk change }
        ensures { result ≡ record { desk = desk; change = change } }
    {
        // for the prover: the names, the key and the text keep the invariants of their types
        has_parts(&change);
        Entry { desk, change }
    }

    /// Returns the number of the desk, 1 to 64.
    pub fn desk(&self) -> u32
        ensures desk { result ≡ self.now.desk }
        ensures entry { IsEntry self.now }
    {
        self.desk
    }

    /// Returns the change.
    pub fn change(&self) -> &Change
        ensures change { result.now ≡ self.now.change }
        ensures entry { IsEntry self.now }
    {
        &self.change
    }

    /// Returns an equal entry. The only error is out of memory.
    pub fn copy(&self, alloc: Global) -> Result<Entry, AllocError>
        ensures { IfOk result (λ e. e ≡ self.now) }
    {
        let change = copy_change(alloc, &self.change)?;
        Ok(Entry {
            desk: self.desk,
            change,
        })
    }
}
