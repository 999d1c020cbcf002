//! The state under the locks of a hall.

ghost use Rattle.std.specs.Prelude.{◌≡◌, ◌≤◌, ◌<◌, ◌+◌, ◌↔◌, IfOk, IsErr, IfErr};
ghost use mathlib.Core.List.{IsPrefix};
ghost use Rattle.mud_chron.specs.declared.limits.TheConstants.{MOST_DESKS};
ghost use Rattle.mud_hall.specs.Desk.{IsNew};
ghost use Rattle.mud_hall.specs.inner.Desks.{IsUnused};

use crate::desk::{Desk, Inner};
use crate::fault::Fault;
use crate::name::HallName;
use crate::reader::Reader;
use mud_chron::limits::MOST_DESKS;
use mud_row::{Pass, Replica, Row};
use std::alloc::{AllocError, Global};
use std::marker::{Model, PhantomData};

// The greatest number of entries that are applied at once to the replica that new desks copy.
const MOST_FOLLOWED: u32 = 16;

/// The number of desks given, and the loaded entries. A contract sees the number.
pub struct Kept<J: HallName> {
    given: u32,
    pub(crate) start: Pass,
    of: PhantomData<J>,
}

impl<J: HallName> Drop for Kept<J> {
    fn drop(self) {
        let Kept {
            given: _,
            start,
            of: _,
        } = self;
        drop(start);
    }
}

impl<J: HallName> Model for Kept<J> {
    ghost use Rattle.std.specs.Prelude.{ℕ};
    ghost use Rattle.mud_hall.specs.Desk.{IsKept};

    ghost Value = { ℕ };

    ghost view = { λ k. k.given };

    ghost invariant = { λ k. IsKept J.cells J.loaded k.given k.start };
}

impl<J: HallName> Kept<J> {
    // Returns the initial state: no desk was given.
    pub(crate) fn new(start: Pass) -> Kept<J>
        requires row { start.row ≡ J.cells }
        requires list { start.list ≡ J.loaded }
        ensures { result ≡ 0 }
    {
        Kept {
            given: 0,
            start,
            of: PhantomData,
        }
    }

    // Returns the number of desks given.
    pub(crate) fn given_count(&self) -> u32
        ensures given { result ≡ self.now }
        ensures few { result ≤ MOST_DESKS }
    {
        self.given
    }

    // Returns a reader that has read the loaded entries.
    pub(crate) fn reader(&mut self, alloc: Global) -> Result<Reader<J>, AllocError>
        ensures { IfOk result (λ r. r ≡ J.loaded) }
    {
        let pass = self.start.again(alloc)?;
        Ok(Reader {
            pass,
            of: PhantomData,
        })
    }

    // Returns the desk with the next number and these parts.
    pub(crate) fn desk(&mut self, inner: Box<Inner>) -> Result<Desk<J>, Fault>
        requires unused { IsUnused inner.value.replica inner.value }
        requires row { inner.value.replica.row ≡ J.cells }
        requires loaded { IsPrefix J.loaded inner.value.replica.list }
        ensures new { IfOk result (λ d. IsNew J.loaded d.state) }
        ensures number { IfOk result (λ d. (d.state.number ≡ self.old + 1) × (self.new ≡ self.old + 1)) }
        ensures err { IfErr result (λ f. (self.new ≡ self.old) × (f ≡ Fault.DesksFull)) }
        ensures full { IsErr result ↔ (self.old ≡ MOST_DESKS) }
    {
        if self.given >= MOST_DESKS {
            return Err(Fault::DesksFull);
        }
        self.given += 1;
        Ok(Desk::guest_at(inner, self.given))
    }
}

/// The hall's own replica, which new desks copy. It begins with the loaded entries. A contract sees the number of
/// entries that it knows.
pub struct Fresh<J: HallName> {
    known: Replica,
    of: PhantomData<J>,
}

impl<J: HallName> Drop for Fresh<J> {
    fn drop(self) {
        let Fresh { known, of: _ } = self;
        drop(known);
    }
}

impl<J: HallName> Model for Fresh<J> {
    ghost use Rattle.std.specs.Prelude.{ℕ, ◌≡◌, length};
    ghost use mathlib.Core.List.{IsPrefix};

    ghost Value = { ℕ };

    ghost view = { λ f. length f.known.list };

    ghost invariant = { λ f. (f.known.row ≡ J.cells) × IsPrefix J.loaded f.known.list };
}

impl<J: HallName> Fresh<J> {
    // Returns the hall's own replica.
    pub(crate) fn new(known: Replica) -> Fresh<J>
        requires row { known.row ≡ J.cells }
        requires loaded { IsPrefix J.loaded known.list }
    {
        Fresh {
            known,
            of: PhantomData,
        }
    }

    // Makes all set cells known, and applies some of the entries, so that the replica is never far behind. If an
    // allocation fails, it applies them later.
    pub(crate) fn follow(&mut self, row: &Row)
        requires { row.now ≡ J.cells }
    {
        self.known.extend(row);
        take_some_in(&mut self.known, row);
    }

    // Returns a copy that has applied every set cell.
    pub(crate) fn copy(&mut self, alloc: Global, row: &Row) -> Result<Replica, AllocError>
        requires { row.now ≡ J.cells }
        ensures row { IfOk result (λ r. r.row ≡ J.cells) }
        ensures loaded { IfOk result (λ r. IsPrefix J.loaded r.list) }
    {
        self.known.see(row)?;
        self.known.copy(alloc)
    }
}

// Applies some of the known entries to the world.
fn take_some_in(known: &mut Replica, row: &Row)
    requires { known.old.row ≡ row.now }
    ensures row { known.new.row ≡ known.old.row }
    ensures list { known.new.list ≡ known.old.list }
{
    for _ in 0..MOST_FOLLOWED {
        match known.step(row) {
            Ok(true) => {}
            _ => return,
        }
    }
}
