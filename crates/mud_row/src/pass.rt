//! A reader's cursor into a row: the prefix that it knows.
//!
//! Reading through a note takes a `&mut`. So `again`, `agree` and `learn` take each pass that they read by `&mut`, and
//! promise that it is unchanged.

ghost use Rattle.std.specs.Prelude.{◌≡◌, ◌⊎◌, ◌≤◌, length, take, IfOk};
ghost use mathlib.Core.List.{IsPrefix};
ghost use Rattle.mud_world.specs.declared.limits.TheConstants.{MOST_ENTRIES};
ghost use Rattle.mud_row.specs.inner.Known.{names_of, known_front};

use mud_chron::Entry;
use once_cell::race::Note;
use std::alloc::{AllocError, Global};
use std::marker::Model;

/// A cursor into a row: the number of cells at its beginning that are known to be set. The row that made the pass has
/// their entries. A contract sees the names of the row's cells, and the known entries.
pub struct Pass {
    pub(crate) notes: Vec<Note<Entry>>,
    pub(crate) count: u32,
}

impl Drop for Pass {
    fn drop(self) {
        let Pass { notes, count: _ } = self;
        drop(notes);
    }
}

impl Model for Pass {
    ghost use Rattle.mud_row.specs.Known.{Known, known_of, AreCounted};

    ghost Value = { Known };

    ghost use Rattle.mud_key.specs.TreeCode.{coded_number_tree};
    ghost use Rattle.std.specs.Coded.{codes};

    ghost coded = { Prim.hlevel (codes, coded_number_tree) };

    ghost view = { λ p. known_of p.count p.notes.items };

    ghost invariant = { λ p. AreCounted p.count p.notes.items };
}

impl Pass {
    /// Returns the number of known entries, 0 to 65,536.
    pub fn known(&self) -> u32
        ensures known { result ≡ length self.now.list }
        ensures limit { result ≤ MOST_ENTRIES }
    {
        self.count
    }

    /// Returns a second pass that knows the same prefix. It allocates all notes of the new pass, so that no later call
    /// allocates. The pass is unchanged. The only error is out of memory.
    pub fn again(&mut self, alloc: Global) -> Result<Pass, AllocError>
        ensures same { self.new ≡ self.old }
        ensures copy { IfOk result (λ p. p ≡ self.old) }
    {
        let notes = copies(alloc, &mut self.notes)?;
        Ok(Pass {
            notes,
            count: self.count,
        })
    }

    /// Shows that, of two passes of one row, the shorter prefix is a prefix of the longer one. Both passes are
    /// unchanged. It does not allocate.
    pub fn agree(&mut self, other: &mut Pass)
        requires { self.old.row ≡ other.old.row }
        ensures mine_same { self.new ≡ self.old }
        ensures other_same { other.new ≡ other.old }
        ensures shorter { length self.old.list ≤ length other.old.list → IsPrefix self.old.list other.old.list }
        ensures longer { length other.old.list ≤ length self.old.list → IsPrefix other.old.list self.old.list }
    {
        let shared = self.count.min(other.count);
        compare(
            &mut self.notes,
            self.count,
            &mut other.notes,
            other.count,
            shared,
        );
    }

    /// Advances to the longer of the two prefixes. The other pass is unchanged. It does not allocate.
    pub fn learn(&mut self, other: &mut Pass)
        requires { self.old.row ≡ other.old.row }
        ensures other_same { other.new ≡ other.old }
        ensures row { self.new.row ≡ self.old.row }
        ensures longer { (self.new.list ≡ self.old.list) ⊎ (self.new.list ≡ other.old.list) }
        ensures mine { IsPrefix self.old.list self.new.list }
        ensures theirs { IsPrefix other.old.list self.new.list }
    {
        // for the prover: the shorter prefix is a prefix of the longer one
        self.agree(other);
        if self.count < other.count {
            take_over(&mut self.notes, &mut other.notes, other.count);
            self.count = other.count;
        }
    }
}

// Returns a copy of each note.
fn copies(alloc: Global, notes: &mut Vec<Note<Entry>>) -> Result<Vec<Note<Entry>>, AllocError>
    ensures same { notes.new.items ≡ notes.old.items }
    ensures copy { IfOk result (λ v. v.items ≡ notes.old.items) }
{
    let mut all = Vec::with_capacity(alloc, notes.len())?;
    for i in 0..notes.len() {
        all.push(notes[i].again())?;
    }
    Ok(all)
}

// Shows that the first notes of both know equal entries. Notes have no bytes, so this costs no memory.
fn compare(
    mine: &mut Vec<Note<Entry>>,
    mine_known: u32,
    theirs: &mut Vec<Note<Entry>>,
    theirs_known: u32,
    count: u32,
)
    requires row { names_of mine.old.items ≡ names_of theirs.old.items }
    requires mine_all { length (known_front mine_known mine.old.items) ≡ mine_known }
    requires theirs_all { length (known_front theirs_known theirs.old.items) ≡ theirs_known }
    requires within { (count ≤ mine_known) × (count ≤ theirs_known) }
    ensures mine_same { mine.new.items ≡ mine.old.items }
    ensures theirs_same { theirs.new.items ≡ theirs.old.items }
    ensures agree { take count (known_front mine_known mine.old.items)
        ≡ take count (known_front theirs_known theirs.old.items) }
{
    for i in 0..count {
        let at = i as usize;
        let copy = theirs[at].again();
        mine[at].compare(copy);
    }
}

// Copies the first notes of one list over those of the other.
fn take_over(mine: &mut Vec<Note<Entry>>, theirs: &mut Vec<Note<Entry>>, count: u32)
    requires row { names_of mine.old.items ≡ names_of theirs.old.items }
    requires within { count ≤ length theirs.old.items }
    ensures row { names_of mine.new.items ≡ names_of mine.old.items }
    ensures theirs_same { theirs.new.items ≡ theirs.old.items }
    ensures agree { take count mine.new.items ≡ take count theirs.old.items }
{
    for i in 0..count {
        let at = i as usize;
        mine[at] = theirs[at].again();
    }
}
