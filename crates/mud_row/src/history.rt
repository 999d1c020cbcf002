//! The history of a log that is no longer shared.

ghost use Rattle.std.specs.Prelude.{◌≡◌, ◌≤◌, ◌<◌, ◌+◌, ◌++◌, length, IfOk, IfErr, OnOk, OnErr, string_bytes};
ghost use Rattle.std.specs.List.{AllByRecursion};
ghost use Rattle.mud_world.specs.History.{world_of};
ghost use Rattle.mud_chron.specs.declared.format.Format.TheVariants.{Two};
ghost use Rattle.mud_world.specs.declared.limits.TheConstants.{MOST_ENTRIES};
ghost use Rattle.mud_chron.specs.Entry.{IsEntry};
ghost use Rattle.mud_chron.specs.Replay.{changes_of, AreLegal, HasIllegal};
ghost use Rattle.mud_chron.specs.Text.{history_text};
ghost use Rattle.mud_row.specs.Known.{lines_after};

use crate::pass::Pass;
use crate::row::Row;
use crate::writing::{write_line, write_text};
use mud_chron::{ChronFault, Entry};
use mud_world::World;
use std::alloc::{AllocError, Global};
use std::marker::Model;

/// The entries of a history, in the cells where they were published. No entry is copied. A contract sees them in order.
pub struct History {
    row: Row,
    pass: Pass,
}

impl Drop for History {
    fn drop(self) {
        let History { row, pass } = self;
        drop(row);
        drop(pass);
    }
}

impl Model for History {
    ghost use Rattle.std.specs.Prelude.{◌≡◌, List};
    ghost use Rattle.mud_chron.specs.Entry.{Entry};

    ghost Value = { List Entry };

    ghost use Rattle.mud_key.specs.TreeCode.{coded_number_tree};
    ghost use Rattle.std.specs.Coded.{codes};

    ghost coded = { Prim.hlevel (codes, coded_number_tree) };

    ghost view = { λ h. h.pass.list };

    ghost invariant = { λ h. h.pass.row ≡ h.row };
}

impl History {
    /// Returns the entries of the row that the pass knows.
    pub fn new(row: Row, pass: Pass) -> History
        requires { pass.row ≡ row }
        ensures { result ≡ pass.list }
    {
        History { row, pass }
    }

    /// Returns the number of entries, 0 to 65,536.
    pub fn len(&self) -> u32
        ensures len { result ≡ length self.now }
        ensures limit { result ≤ MOST_ENTRIES }
    {
        self.pass.known()
    }

    /// Appends the line of the entry after the first `n`, with its line end. The history is unchanged. The only error
    /// is out of memory, and it leaves the text unchanged.
    pub fn write_line(&mut self, alloc: Global, n: u32, out: &mut String) -> Result<(), AllocError>
        requires { n < length self.old }
        ensures same { self.new ≡ self.old }
        ensures ok { OnOk result (string_bytes out.new ++ lines_after (n + 1) self.old
            ≡ string_bytes out.old ++ lines_after n self.old) }
        ensures err { OnErr result (string_bytes out.new ≡ string_bytes out.old) }
    {
        write_line(alloc, &self.row, &mut self.pass, n, out)
    }

    /// Appends the text of the history in format 2. The history is unchanged. The only error is out of memory, and it
    /// leaves the text unchanged.
    pub fn write_text(&mut self, alloc: Global, out: &mut String) -> Result<(), AllocError>
        ensures same { self.new ≡ self.old }
        ensures ok { OnOk result (string_bytes out.new ≡ string_bytes out.old ++ history_text Two self.old) }
        ensures err { OnErr result (string_bytes out.new ≡ string_bytes out.old) }
    {
        write_text(alloc, &self.row, &mut self.pass, out)
    }

    /// Returns copies of the entries. The history is unchanged. The only error is out of memory.
    pub fn entries(&mut self, alloc: Global) -> Result<Vec<Entry>, AllocError>
        ensures same { self.new ≡ self.old }
        ensures entries { IfOk result (λ v. v.items ≡ self.old) }
    {
        entries_known(alloc, &self.row, &mut self.pass)
    }

    /// Replays the entries, like `mud_chron::replay`: `BadChange` names the first entry whose change is illegal where
    /// it occurs, and the only other error is out of memory. The history is unchanged.
    pub fn replay(&mut self, alloc: Global) -> Result<World, ChronFault>
        ensures same { self.new ≡ self.old }
        ensures each { OnOk result (AllByRecursion IsEntry self.old) }
        ensures legal { OnOk result (AreLegal (changes_of self.old)) }
        ensures world { IfOk result (λ w. w ≡ world_of (changes_of self.old)) }
        ensures err { IfErr result (HasIllegal self.old) }
    {
        replay_known(alloc, &self.row, &mut self.pass)
    }
}

// Returns copies of the entries that the pass knows.
fn entries_known(alloc: Global, row: &Row, pass: &mut Pass) -> Result<Vec<Entry>, AllocError>
    requires { pass.old.row ≡ row.now }
    ensures same { pass.new ≡ pass.old }
    ensures entries { IfOk result (λ v. v.items ≡ pass.old.list) }
{
    let mut entries = Vec::with_capacity(alloc, pass.known() as usize)?;
    for n in 0..pass.known() {
        let Some(entry) = row.entry(pass, n + 1) else {
            unreachable!();
        };
        entries.push(entry.copy(alloc)?)?;
    }
    Ok(entries)
}

// Replays the entries that the pass knows.
fn replay_known(alloc: Global, row: &Row, pass: &mut Pass) -> Result<World, ChronFault>
    requires { pass.old.row ≡ row.now }
    ensures same { pass.new ≡ pass.old }
    ensures each { OnOk result (AllByRecursion IsEntry pass.old.list) }
    ensures legal { OnOk result (AreLegal (changes_of pass.old.list)) }
    ensures world { IfOk result (λ w. w ≡ world_of (changes_of pass.old.list)) }
    ensures err { IfErr result (HasIllegal pass.old.list) }
{
    let mut world = World::opening(alloc)?;
    for n in 0..pass.known() {
        let Some(entry) = row.entry(pass, n + 1) else {
            unreachable!();
        };
        let change = entry.change();
        match world.legal(change) {
            Ok(()) => {}
            Err(_) => return Err(ChronFault::BadChange(n as usize + 1)),
        }
        world.apply(change)?;
    }
    Ok(world)
}
