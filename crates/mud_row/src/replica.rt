//! Replicas: worlds that follow a row.

ghost use Rattle.std.specs.Prelude.{◌≡◌, ◌++◌, ◌∷◌, [], ◌<◌, ◌≤◌, ◌+◌, ◌↔◌, ◌⊎◌, length, max, slice_get};
ghost use Rattle.std.specs.Prelude.{IfOk, IfErr, OnErr, OnOk, IsErrAnd, MatchBool, MatchOption, string_bytes};
ghost use Rattle.std.specs.Option.{option_copied};
ghost use mathlib.Core.List.{IsPrefix};
ghost use Rattle.mud_world.specs.History.{step_or_same};
ghost use Rattle.mud_chron.specs.Replay.{world_at};
ghost use Rattle.mud_chron.specs.declared.format.Format.TheVariants.{Two};
ghost use Rattle.mud_world.specs.declared.limits.TheConstants.{MOST_ENTRIES};
ghost use Rattle.mud_chron.specs.Text.{history_text};
ghost use Rattle.mud_row.specs.Known.{entry_at};

use crate::fault::RowFault;
use crate::pass::Pass;
use crate::row::Row;
use crate::writing::write_text;
use mud_chron::Entry;
use mud_world::World;
use std::alloc::{AllocError, Global};
use std::marker::Model;

/// A world that applies the entries of a row one by one, beginning with the initial world. A contract sees the names of
/// the row's cells, the known entries, and the number of applied entries. An entry whose change is illegal where it
/// occurs has no effect.
pub struct Replica {
    world: World,
    at: u32,
    pass: Pass,
}

impl Drop for Replica {
    fn drop(self) {
        let Replica { world, at: _, pass } = self;
        drop(world);
        drop(pass);
    }
}

impl Model for Replica {
    ghost use Rattle.std.specs.Prelude.{◌≡◌, ◌≤◌, length};
    ghost use Rattle.mud_chron.specs.Replay.{world_at};
    ghost use Rattle.mud_row.specs.Known.{Standing};

    ghost Value = { Standing };

    ghost use Rattle.mud_key.specs.TreeCode.{coded_number_tree};
    ghost use Rattle.std.specs.Coded.{codes};

    ghost coded = { Prim.hlevel (codes, coded_number_tree) };

    ghost view = { λ r. record { row = r.pass.row; list = r.pass.list; at = r.at } };

    ghost invariant = { λ r. (r.at ≤ length r.pass.list) × (r.world ≡ world_at r.pass.list r.at) };
}

impl Replica {
    ghost use Rattle.mud_row.specs.Known.{Standing};

    /// Returns a replica of this row that knows no cell. Its world is the initial one. The only error is out of memory.
    pub fn new(alloc: Global, row: &Row) -> Result<Replica, AllocError>
        ensures { IfOk result (λ r. r ≡ record { row = row.now; list = []; at = 0 }) }
    {
        Ok(Replica {
            world: World::opening(alloc)?,
            at: 0,
            pass: row.pass(alloc)?,
        })
    }

    /// Returns the world after the applied entries.
    pub fn world(&self) -> &World
        ensures { result.now ≡ world_at self.now.list self.now.at }
    {
        &self.world
    }

    /// Returns the number of applied entries.
    pub fn at(&self) -> u32
        ensures at { result ≡ self.now.at }
        ensures within { result ≤ length self.now.list }
    {
        self.at
    }

    /// Returns the number of known entries, 0 to 65,536.
    pub fn known(&self) -> u32
        ensures known { result ≡ length self.now.list }
        ensures limit { result ≤ MOST_ENTRIES }
    {
        self.pass.known()
    }

    /// Learns each next cell that is set, up to the first one that is not. The world is unchanged. It does not
    /// allocate.
    pub fn extend(&mut self, row: &Row)
        requires { self.old.row ≡ row.now }
        ensures still { (self.new.row ≡ self.old.row) × (self.new.at ≡ self.old.at) }
        ensures longer { IsPrefix self.old.list self.new.list }
        ensures within { self.old.at ≤ length self.old.list }
    {
        self.extend_to(row, row.capacity());
    }

    /// Learns cells like `extend`, but none after the `most`-th.
    pub fn extend_to(&mut self, row: &Row, most: u32)
        requires { self.old.row ≡ row.now }
        ensures still { (self.new.row ≡ self.old.row) × (self.new.at ≡ self.old.at) }
        ensures longer { IsPrefix self.old.list self.new.list }
        ensures most { length self.new.list ≤ max (length self.old.list) most }
        ensures within { self.old.at ≤ length self.old.list }
    {
        for _ in self.pass.known()..most {
            if row.next(&mut self.pass).is_none() {
                break;
            }
        }
    }

    /// Returns the first known entry that is not applied yet, and `None` exactly if all are applied. The replica is
    /// unchanged. It does not allocate.
    pub fn peek<'a>(&mut self, row: &'a Row) -> Option<&'a Entry>
        requires { self.old.row ≡ row.now }
        ensures same { self.new ≡ self.old }
        ensures entry { option_copied result ≡ slice_get self.old.list self.old.at }
        ensures place { MatchOption result (self.old.at ≡ length self.old.list)
            (λ _. self.old.at < length self.old.list) }
        ensures limit { length self.old.list ≤ MOST_ENTRIES }
    {
        if self.at == self.pass.known() {
            return None;
        }
        row.entry(&mut self.pass, self.at + 1)
    }

    /// Applies the first known entry that is not applied yet, and returns whether there was one. The only error is out
    /// of memory, and it leaves the replica unchanged.
    pub fn step(&mut self, row: &Row) -> Result<bool, AllocError>
        requires { self.old.row ≡ row.now }
        ensures still { (self.new.row ≡ self.old.row) × (self.new.list ≡ self.old.list) }
        ensures ok { IfOk result (λ more. MatchBool more
            ((self.old.at < length self.old.list) × (self.new.at ≡ self.old.at + 1))
            ((self.old.at ≡ length self.old.list) × (self.new.at ≡ self.old.at))) }
        ensures err { OnErr result (self.new ≡ self.old) }
        ensures more { OnErr result (self.old.at < length self.old.list) }
    {
        match self.peek(row) {
            None => Ok(false),
            Some(entry) => {
                take_in(&mut self.world, entry)?;
                self.at += 1;
                Ok(true)
            }
        }
    }

    /// Applies all known entries. The only error is out of memory, and then the replica has applied a part of them.
    pub fn catch_up(&mut self, row: &Row) -> Result<(), AllocError>
        requires { self.old.row ≡ row.now }
        ensures still { (self.new.row ≡ self.old.row) × (self.new.list ≡ self.old.list) }
        ensures further { self.old.at ≤ self.new.at }
        ensures ok { OnOk result (self.new.at ≡ length self.old.list) }
        ensures err { OnErr result (self.new.at < length self.old.list) }
    {
        let known = self.pass.known();
        for _ in self.at..known {
            self.step(row)?;
        }
        Ok(())
    }

    /// Learns each next cell that is set, like `extend`, and applies all known entries, like `catch_up`. The only error
    /// is out of memory, and then the replica has applied a part of them.
    pub fn see(&mut self, row: &Row) -> Result<(), AllocError>
        requires { self.old.row ≡ row.now }
        ensures still { self.new.row ≡ self.old.row }
        ensures longer { IsPrefix self.old.list self.new.list }
        ensures further { self.old.at ≤ self.new.at }
        ensures ok { OnOk result (self.new.at ≡ length self.new.list) }
        ensures err { OnErr result (self.new.at < length self.new.list) }
    {
        self.extend(row);
        self.catch_up(row)
    }

    /// Sets the first unknown cell, like `Row::publish`. The entry is not applied yet. It does not allocate.
    pub fn publish(&mut self, row: &Row, entry: Box<Entry>) -> Result<u32, (Box<Entry>, RowFault)>
        requires { self.old.row ≡ row.now }
        ensures still { (self.new.row ≡ self.old.row) × (self.new.at ≡ self.old.at) }
        ensures published { IfOk result (λ n. (self.new.list ≡ self.old.list ++ entry.value ∷ [])
            × (n ≡ length self.old.list + 1)) }
        ensures refused { IfErr result (λ f. (self.new ≡ self.old) × (f.0.value ≡ entry.value)) }
        ensures full { IsErrAnd result (λ f. f.1 ≡ RowFault.HistoryFull) ↔ (length self.old.list ≡ length row.now) }
        ensures fits { length self.old.list ≤ length row.now }
        ensures within { self.old.at ≤ length self.old.list }
    {
        row.publish(&mut self.pass, entry)
    }

    /// Returns the known entry with this number, counted from 1, and `None` exactly if it does not know one. The
    /// replica is unchanged. It does not allocate.
    pub fn entry<'a>(&mut self, row: &'a Row, n: u32) -> Option<&'a Entry>
        requires { self.old.row ≡ row.now }
        ensures same { self.new ≡ self.old }
        ensures entry { option_copied result ≡ entry_at self.old.list n }
        ensures place { MatchOption result ((n ≡ 0) ⊎ (length self.old.list < n))
            (λ _. (1 ≤ n) × (n ≤ length self.old.list)) }
    {
        row.entry(&mut self.pass, n)
    }

    /// Appends the text of the history of the known entries, in format 2. The replica is unchanged. The only error is
    /// out of memory, and it leaves the text unchanged.
    pub fn write_text(
        &mut self,
        alloc: Global,
        row: &Row,
        out: &mut String,
    ) -> Result<(), AllocError>
        requires { self.old.row ≡ row.now }
        ensures same { self.new ≡ self.old }
        ensures limit { length self.old.list ≤ MOST_ENTRIES }
        ensures ok { OnOk result (string_bytes out.new ≡ string_bytes out.old ++ history_text Two self.old.list) }
        ensures err { OnErr result (string_bytes out.new ≡ string_bytes out.old) }
    {
        // for the prover: `known` shows that there are at most 65,536
        let _known = self.pass.known();
        write_text(alloc, row, &mut self.pass, out)
    }

    /// Advances the pass to the replica's prefix, like `Pass::learn`. The replica is unchanged. It does not allocate.
    pub fn tell(&mut self, pass: &mut Pass)
        requires { self.old.row ≡ pass.old.row }
        ensures same { self.new ≡ self.old }
        ensures row { pass.new.row ≡ pass.old.row }
        ensures longer { (pass.new.list ≡ pass.old.list) ⊎ (pass.new.list ≡ self.old.list) }
        ensures mine { IsPrefix self.old.list pass.new.list }
        ensures theirs { IsPrefix pass.old.list pass.new.list }
    {
        pass.learn(&mut self.pass);
    }

    /// Advances to the other replica's prefix, like `Pass::learn`. The world and the other replica are unchanged. It
    /// does not allocate.
    pub fn learn(&mut self, other: &mut Replica)
        requires { self.old.row ≡ other.old.row }
        ensures other_same { other.new ≡ other.old }
        ensures still { (self.new.row ≡ self.old.row) × (self.new.at ≡ self.old.at) }
        ensures longer { (self.new.list ≡ self.old.list) ⊎ (self.new.list ≡ other.old.list) }
        ensures mine { IsPrefix self.old.list self.new.list }
        ensures theirs { IsPrefix other.old.list self.new.list }
        ensures within { self.old.at ≤ length self.old.list }
    {
        self.pass.learn(&mut other.pass);
    }

    /// Advances to the pass's prefix, like `Pass::learn`. The world and the pass are unchanged. It does not allocate.
    pub fn hear(&mut self, pass: &mut Pass)
        requires { self.old.row ≡ pass.old.row }
        ensures pass_same { pass.new ≡ pass.old }
        ensures still { (self.new.row ≡ self.old.row) × (self.new.at ≡ self.old.at) }
        ensures longer { (self.new.list ≡ self.old.list) ⊎ (self.new.list ≡ pass.old.list) }
        ensures mine { IsPrefix self.old.list self.new.list }
        ensures theirs { IsPrefix pass.old.list self.new.list }
        ensures within { self.old.at ≤ length self.old.list }
    {
        self.pass.learn(pass);
    }

    /// Returns an equal replica with a copy of the world. The replica is unchanged. The only error is out of memory.
    pub fn copy(&mut self, alloc: Global) -> Result<Replica, AllocError>
        ensures same { self.new ≡ self.old }
        ensures copy { IfOk result (λ r. r ≡ self.old) }
        ensures within { self.old.at ≤ length self.old.list }
    {
        let world = self.world.copy()?;
        let pass = self.pass.again(alloc)?;
        Ok(Replica {
            world,
            at: self.at,
            pass,
        })
    }
}

// Applies an entry to the world. An illegal change has no effect. If an allocation fails, the world is unchanged.
fn take_in(world: &mut World, entry: &Entry) -> Result<(), AllocError>
    ensures ok { OnOk result (world.new ≡ step_or_same world.old entry.now.change) }
    ensures err { OnErr result (world.new ≡ world.old) }
{
    let change = entry.change();
    match world.legal(change) {
        Ok(()) => world.apply(change),
        Err(_) => Ok(()),
    }
}
