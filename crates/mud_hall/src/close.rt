//! Closes a hall.

ghost use Rattle.std.specs.Prelude.{◌≡◌, ◌≤◌, ◌+◌, ◌↔◌, ◌⊎◌, length, All, IfOk, IfErr, IfSome, IsTrue, OnOk};
ghost use mathlib.Core.List.{IsPrefix};
ghost use Rattle.mud_world.specs.declared.limits.TheConstants.{MOST_ENTRIES};
ghost use Rattle.mud_chron.specs.declared.limits.TheConstants.{MOST_DESKS};
ghost use Rattle.mud_hall.specs.Settlement.{IsGathered, IsSettled, IsCloseFault, IsAtOdds, IsMissing};
ghost use Rattle.mud_hall.specs.Settlement.{HasNumber, AreApart, HaveSameNumber, versions_by, entries_made};
ghost use Rattle.mud_hall.specs.Settlement.{first_apart};
ghost use Rattle.mud_hall.specs.inner.CheckFaults.{lesser_of, IsLeast, Differs, IsUnnamed, IsCheckFault};

use crate::desk::Desk;
use crate::entries::Made;
use crate::fault::CloseFault;
use crate::hall::Hall;
use crate::kept::Kept;
use crate::name::HallName;
use mud_row::{History, Pass, Row};
use std::alloc::Global;
use std::sync::Wait;

/// The settled history of a hall.
#[derive(Drop)]
pub struct Settled {
    /// All entries, beginning with the loaded ones.
    pub history: History,
    /// The number of entries that were accepted here.
    pub accepted: u32,
    /// The number of loaded entries.
    pub loaded: u32,
}

impl<J: HallName> Hall<J> {
    /// Closes the hall and returns its history, if these are the desks that made it. Otherwise the hall and the desks
    /// come back with the first of three faults. `SameNumber` has the least number that two desks have, and `Missing`
    /// the least that no desk has. `Mismatch` has the least version at which the entries and the calls differ. No entry
    /// is copied. The worlds of the hall and of its desks are dropped.
    pub fn close<R: Wait>(
        self,
        rt: &R,
        desks: Vec<Desk<J>>,
    ) -> Result<Settled, (Hall<J>, Vec<Desk<J>>, CloseFault)>
        ensures settled { IfOk result (λ s. IsSettled J.loaded desks.items s.history) }
        ensures loaded { IfOk result (λ s. s.loaded ≡ length J.loaded) }
        ensures accepted { IfOk result (λ s. s.accepted ≡ length (entries_made J.loaded s.history)) }
        ensures limit { IfOk result (λ s. length s.history ≤ MOST_ENTRIES) }
        ensures fault { IfErr result (λ f. IsCloseFault J.loaded desks.items f.2) }
        ensures back { IfErr result (λ f. (f.0 ≡ self) × (f.1.items ≡ desks.items)) }
    {
        let mut desks = desks;
        match self.settle(rt, &mut desks) {
            Ok((whole, accepted)) => Ok(self.history_left(whole, accepted)),
            Err(fault) => Err((self, desks, fault)),
        }
    }

    // Returns the entries that the desks made, after the loaded ones, and the number of entries made.
    fn settle<R: Wait>(&self, rt: &R, desks: &mut Vec<Desk<J>>) -> Result<(Pass, u32), CloseFault>
        ensures same { desks.new.items ≡ desks.old.items }
        ensures row { IfOk result (λ s. s.0.row ≡ J.cells) }
        ensures settled { IfOk result (λ s. IsSettled J.loaded desks.old.items s.0.list) }
        ensures accepted { IfOk result (λ s. s.1 ≡ length (entries_made J.loaded s.0.list)) }
        ensures fault { IfErr result (IsCloseFault J.loaded desks.old.items) }
    {
        let mut kept = self.kept.lock(rt);
        kept.settle(self.alloc, &self.row, self.loaded, desks)
    }

    // Returns the history that remains of the hall.
    fn history_left(self, whole: Pass, accepted: u32) -> Settled
        requires { whole.row ≡ J.cells }
        ensures history { result.history ≡ whole.list }
        ensures accepted { result.accepted ≡ accepted }
        ensures loaded { result.loaded ≡ length J.loaded }
        ensures limit { length result.history ≤ MOST_ENTRIES }
    {
        let Hall { row, loaded, .. } = self;
        let history = History::new(row, whole);
        // for the prover: `len` shows that there are at most 65,536
        let _known = history.len();
        Settled {
            history,
            accepted,
            loaded,
        }
    }
}

impl<J: HallName> Kept<J> {
    // Returns the entries that the desks made, after the loaded ones, and the number of entries made.
    fn settle(
        &mut self,
        alloc: Global,
        row: &Row,
        loaded: u32,
        desks: &mut Vec<Desk<J>>,
    ) -> Result<(Pass, u32), CloseFault>
        requires row { row.now ≡ J.cells }
        requires loaded { loaded ≡ length J.loaded }
        ensures same { desks.new.items ≡ desks.old.items }
        ensures row { IfOk result (λ s. s.0.row ≡ J.cells) }
        ensures settled { IfOk result (λ s. IsSettled J.loaded desks.old.items s.0.list) }
        ensures accepted { IfOk result (λ s. s.1 ≡ length (entries_made J.loaded s.0.list)) }
        ensures fault { IfErr result (IsCloseFault J.loaded desks.old.items) }
    {
        let given = self.given_count();
        let mut whole = self.gather(alloc, desks)?;
        let accepted = whole.known() - loaded;
        let mut new = Made::new(row, whole.again(alloc)?, loaded);
        if let Err(fault) = check(desks, given, &mut new, loaded + 1) {
            return Err(fault);
        }
        Ok((whole, accepted))
    }

    // Returns the longest prefix among the loaded entries and those that each desk knows.
    fn gather(&mut self, alloc: Global, desks: &mut Vec<Desk<J>>) -> Result<Pass, CloseFault>
        ensures same { desks.new.items ≡ desks.old.items }
        ensures row { IfOk result (λ h. h.row ≡ J.cells) }
        ensures gathered { IfOk result (λ h. IsGathered J.loaded desks.old.items h.list) }
        ensures fault { IfErr result (λ f. f ≡ CloseFault.OutOfMemory) }
    {
        let mut whole = self.start.again(alloc)?;
        gather(desks, &mut whole);
        Ok(whole)
    }
}

// Advances the pass to the longest prefix that any desk knows.
pub(crate) fn gather<J: HallName>(desks: &mut Vec<Desk<J>>, whole: &mut Pass)
    requires { whole.old.row ≡ J.cells }
    ensures same { desks.new.items ≡ desks.old.items }
    ensures row { whole.new.row ≡ whole.old.row }
    ensures gathered { IsGathered whole.old.list desks.old.items whole.new.list }
{
    for i in 0..desks.len() {
        let desk = &mut desks[i];
        desk.tell(whole);
    }
}

// Checks that the desks made these entries; the first has version `first`.
fn check<J: HallName>(
    desks: &[Desk<J>],
    given: u32,
    new: &mut Made<'_>,
    first: u32,
) -> Result<(), CloseFault>
    requires few { length new.old + first ≤ MOST_ENTRIES + 1 }
    requires given { given ≤ MOST_DESKS }
    ensures same { new.new ≡ new.old }
    ensures calls { OnOk result (All (λ d. d.state.calls ≡ versions_by d.state.number first new.old) desks.now) }
    ensures apart { OnOk result (AreApart desks.now) }
    ensures named { OnOk result (All (λ e. HasNumber desks.now e.desk) new.old) }
    ensures fault { IfErr result (IsCheckFault desks.now first new.old) }
{
    if let Some(number) = same_number(desks) {
        return Err(CloseFault::SameNumber(number));
    }
    if let Some(number) = first_missing(desks, given) {
        return Err(CloseFault::Missing(number));
    }
    if let Some(version) = mismatch(desks, new, first) {
        return Err(CloseFault::Mismatch(version));
    }
    Ok(())
}

// Returns the least number that two desks have.
fn same_number<J: HallName>(desks: &[Desk<J>]) -> Option<u32>
    ensures { IsLeast (HaveSameNumber desks.now) result }
{
    let mut least = None;
    for j in 0..desks.len() {
        let number = desks[j].number();
        if has_number(&desks[..j], number) {
            least = lesser(least, Some(number));
        }
    }
    least
}

// Returns whether some desk has the number.
fn has_number<J: HallName>(desks: &[Desk<J>], number: u32) -> bool
    ensures { IsTrue result ↔ HasNumber desks.now number }
{
    desks.iter().any(|d| d.number() == number)
}

// Returns the lesser of two numbers.
fn lesser(a: Option<u32>, b: Option<u32>) -> Option<u32>
    ensures { result ≡ lesser_of a b }
{
    match a {
        None => b,
        Some(v) => match b {
            None => Some(v),
            Some(w) => Some(if v < w { v } else { w }),
        },
    }
}

// Returns the least number up to `given` that no desk has.
fn first_missing<J: HallName>(desks: &[Desk<J>], given: u32) -> Option<u32>
    requires { given ≤ MOST_DESKS }
    ensures some { IfSome result (IsMissing desks.now) }
{
    for n in 0..given {
        if !has_number(desks, n + 1) {
            return Some(n + 1);
        }
    }
    None
}

// Returns the least version at which entries and calls differ.
fn mismatch<J: HallName>(desks: &[Desk<J>], new: &mut Made<'_>, first: u32) -> Option<u32>
    requires { length new.old + first ≤ MOST_ENTRIES + 1 }
    ensures same { new.new ≡ new.old }
    ensures least { IsLeast (IsAtOdds desks.now first new.old) result }
{
    lesser(
        first_difference(desks, new, first),
        first_unnamed(desks, new, first),
    )
}

// Returns the least version whose entry has the number of no desk.
fn first_unnamed<J: HallName>(desks: &[Desk<J>], new: &mut Made<'_>, first: u32) -> Option<u32>
    requires { length new.old + first ≤ MOST_ENTRIES + 1 }
    ensures same { new.new ≡ new.old }
    ensures least { IsLeast (IsUnnamed desks.now first new.old) result }
{
    for i in 0..new.len() {
        if !has_number(desks, new.desk(i)) {
            return Some(i + first);
        }
    }
    None
}

// Returns the least of the versions at which each desk's calls and the entries first differ.
fn first_difference<J: HallName>(desks: &[Desk<J>], new: &mut Made<'_>, first: u32) -> Option<u32>
    requires { length new.old + first ≤ MOST_ENTRIES + 1 }
    ensures same { new.new ≡ new.old }
    ensures least { IsLeast (Differs desks.now first new.old) result }
{
    let mut least = None;
    for desk in desks {
        least = lesser(least, desk.differs(new, first));
    }
    least
}

impl<J: HallName> Desk<J> {
    // Advances the pass to the prefix that the desk knows.
    fn tell(&mut self, whole: &mut Pass)
        requires { whole.old.row ≡ J.cells }
        ensures same { self.new ≡ self.old }
        ensures row { whole.new.row ≡ whole.old.row }
        ensures longer { (whole.new.list ≡ whole.old.list) ⊎ (whole.new.list ≡ self.old.state.seen) }
        ensures mine { IsPrefix self.old.state.seen whole.new.list }
        ensures theirs { IsPrefix whole.old.list whole.new.list }
    {
        self.inner.replica.tell(whole);
    }

    // Returns the first version at which its calls and the entries differ.
    fn differs(&self, new: &mut Made<'_>, first: u32) -> Option<u32>
        requires { length new.old + first ≤ MOST_ENTRIES + 1 }
        ensures same { new.new ≡ new.old }
        ensures first { result ≡ first_apart self.now.state.calls (versions_by self.now.state.number first new.old) }
    {
        differs(self.number, &self.inner.calls, new, first)
    }
}

// Returns the first version at which the calls of the desk with this number and the entries differ.
fn differs(number: u32, calls: &[u32], new: &mut Made<'_>, first: u32) -> Option<u32>
    requires { length new.old + first ≤ MOST_ENTRIES + 1 }
    ensures same { new.new ≡ new.old }
    ensures first { result ≡ first_apart calls.now (versions_by number first new.old) }
{
    let mut next: usize = 0;
    for i in 0..new.len() {
        let version = i + first;
        if new.desk(i) == number {
            if next == calls.len() {
                return Some(version);
            }
            if calls[next] != version {
                return Some(calls[next].min(version));
            }
            next += 1;
        }
    }
    if next < calls.len() {
        Some(calls[next])
    } else {
        None
    }
}
