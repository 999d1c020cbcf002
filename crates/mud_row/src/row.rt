//! The log: a row of write-once cells.

ghost use Rattle.std.specs.Prelude.{◌≡◌, ◌++◌, ◌∷◌, [], ◌<◌, ◌≤◌, ◌+◌, ◌↔◌, ◌⊎◌, length};
ghost use Rattle.std.specs.Prelude.{IfOk, IfErr, IsErrAnd, MatchOption, OnOk, OnErr};
ghost use Rattle.std.specs.Option.{option_copied};
ghost use Rattle.mud_world.specs.declared.limits.TheConstants.{MOST_ENTRIES};
ghost use Rattle.mud_row.specs.Known.{entry_at, Fills};

use crate::fault::{FillFault, RowFault};
use crate::pass::Pass;
use mud_chron::Entry;
use once_cell::race::OnceBox;
use std::alloc::{AllocError, Global};
use std::marker::Model;

/// A log of 1 to 65,536 cells. The first thread that sets a cell decides its entry, and the entry never changes. A
/// contract sees the names of the cells, in order.
pub struct Row {
    cells: Vec<OnceBox<Entry>>,
}

impl Drop for Row {
    fn drop(self) {
        let Row { cells } = self;
        drop(cells);
    }
}

impl Model for Row {
    ghost use Rattle.std.specs.Prelude.{ℕ, List, map, length, ◌≤◌};
    ghost use Rattle.once_cell.specs.Once.{cell_name};
    ghost use Rattle.mud_world.specs.declared.limits.TheConstants.{MOST_ENTRIES};

    ghost Value = { List ℕ };

    ghost view = { λ r. map cell_name r.cells.items };

    ghost invariant = { λ r. (1 ≤ length r.cells.items) × (length r.cells.items ≤ MOST_ENTRIES) };
}

impl Row {
    /// Returns a row of `capacity` empty cells, 1 to 65,536. The only error is out of memory.
    pub fn new(alloc: Global, capacity: u32) -> Result<Row, AllocError>
        requires from { 1 ≤ capacity }
        requires to { capacity ≤ MOST_ENTRIES }
        ensures { IfOk result (λ r. length r ≡ capacity) }
    {
        let mut cells = Vec::with_capacity(alloc, capacity as usize)?;
        for _ in 0..capacity {
            cells.push(OnceBox::new(alloc))?;
        }
        Ok(Row { cells })
    }

    /// Returns the number of cells, 1 to 65,536.
    pub fn capacity(&self) -> u32
        ensures capacity { result ≡ length self.now }
        ensures from { 1 ≤ result }
        ensures to { result ≤ MOST_ENTRIES }
    {
        self.cells.len() as u32
    }

    /// Returns a pass of this row that knows no cell. It allocates all notes of the pass, so that no later call
    /// allocates. The only error is out of memory.
    pub fn pass(&self, alloc: Global) -> Result<Pass, AllocError>
        ensures row { IfOk result (λ p. p.row ≡ self.now) }
        ensures list { IfOk result (λ p. p.list ≡ []) }
    {
        let mut notes = Vec::with_capacity(alloc, self.cells.len())?;
        for cell in &self.cells {
            notes.push(cell.note())?;
        }
        Ok(Pass { notes, count: 0 })
    }

    /// Sets the first cell that the pass does not know, and returns the number of entries that the pass then knows. The
    /// error is `HistoryFull` exactly if the pass knows every cell, and `Unpublished` if another thread set the cell
    /// first. An error returns the entry and changes nothing. It does not allocate.
    pub fn publish(&self, pass: &mut Pass, entry: Box<Entry>) -> Result<u32, (Box<Entry>, RowFault)>
        requires { pass.old.row ≡ self.now }
        ensures row { pass.new.row ≡ pass.old.row }
        ensures published { IfOk result (λ n. (pass.new.list ≡ pass.old.list ++ entry.value ∷ [])
            × (n ≡ length pass.old.list + 1)) }
        ensures refused { IfErr result (λ f. (pass.new ≡ pass.old) × (f.0.value ≡ entry.value)) }
        ensures full { IsErrAnd result (λ f. f.1 ≡ RowFault.HistoryFull) ↔ (length pass.old.list ≡ length self.now) }
        ensures fits { length pass.old.list ≤ length self.now }
    {
        let at = pass.count as usize;
        if at == self.cells.len() {
            return Err((entry, RowFault::HistoryFull));
        }
        match self.cells[at].set_as(entry, &mut pass.notes[at]) {
            Ok(()) => {
                pass.count += 1;
                Ok(pass.count)
            }
            Err(back) => Err((back, RowFault::Unpublished)),
        }
    }

    /// Returns the entry of the first cell that the pass does not know, and makes it known. It returns `None`, and
    /// changes nothing, if that cell was not found set, or the pass knows all cells. It does not allocate.
    pub fn next<'a>(&'a self, pass: &mut Pass) -> Option<&'a Entry>
        requires { pass.old.row ≡ self.now }
        ensures row { pass.new.row ≡ pass.old.row }
        ensures found { MatchOption result (pass.new ≡ pass.old) (λ e. pass.new.list ≡ pass.old.list ++ e.now ∷ []) }
        ensures fits { MatchOption result (length pass.old.list ≤ length self.now)
            (λ _. length pass.old.list < length self.now) }
    {
        let at = pass.count as usize;
        if at == self.cells.len() {
            return None;
        }
        match self.cells[at].get_as(&mut pass.notes[at]) {
            None => None,
            Some(entry) => {
                pass.count += 1;
                Some(entry)
            }
        }
    }

    /// Returns the known entry with this number, counted from 1, and `None` exactly if the pass does not know one. The
    /// pass is unchanged. It does not allocate.
    pub fn entry<'a>(&'a self, pass: &mut Pass, n: u32) -> Option<&'a Entry>
        requires { pass.old.row ≡ self.now }
        ensures same { pass.new ≡ pass.old }
        ensures entry { option_copied result ≡ entry_at pass.old.list n }
        ensures place { MatchOption result ((n ≡ 0) ⊎ (length pass.old.list < n))
            (λ _. (1 ≤ n) × (n ≤ length pass.old.list)) }
    {
        if n == 0 || n > pass.count {
            return None;
        }
        let at = (n - 1) as usize;
        self.cells[at].get_as(&mut pass.notes[at])
    }

    /// Sets the first cells that the pass does not know to these entries, in order. After an error the pass knows a
    /// prefix of them. The error is `HistoryFull` only if they do not fit after the known ones, and `Unpublished` if
    /// another thread set a cell first.
    pub fn fill(&self, alloc: Global, pass: &mut Pass, entries: Vec<Entry>) -> Result<(), FillFault>
        requires { pass.old.row ≡ self.now }
        ensures row { pass.new.row ≡ pass.old.row }
        ensures ok { OnOk result (pass.new.list ≡ pass.old.list ++ entries.items) }
        ensures err { OnErr result (Fills pass.old.list entries.items pass.new.list) }
        ensures full { IsErrAnd result (λ f. f ≡ FillFault.HistoryFull)
            → length self.now < length pass.old.list + length entries.items }
    {
        for entry in entries {
            let entry = Box::new(alloc, entry)?;
            match self.publish(pass, entry) {
                Ok(_) => {}
                Err((_, RowFault::HistoryFull)) => return Err(FillFault::HistoryFull),
                Err((_, RowFault::Unpublished)) => return Err(FillFault::Unpublished),
            }
        }
        Ok(())
    }
}
