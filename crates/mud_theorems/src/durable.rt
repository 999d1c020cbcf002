//! Proofs that entries are durable, which pass from the journal's lock to other threads.

ghost use Rattle.std.specs.Prelude.{◌≡◌, ◌≤◌, ℕ, []};
ghost use Rattle.crossbeam_utils.specs.Seq.{cell_view};
ghost use Rattle.mud_theorems.specs.inner.Durable.{knower, claimer};

use atomic_table::{Join, Split};
use crossbeam_utils::atomic::seq_cell::{Pass as CellPass, RuledSeqCell};
use crossbeam_utils::rule::{Outcome, Protocol};
use mud_journal::Receipt;
use std::marker::{Brand, Model, PhantomData};
use std::sync::Wait;

/// The name of one cell.
pub(crate) trait Room {
    ghost use Rattle.atomic_table.specs.Seated.{TableId};

    ghost table: { TableId };
}

impl Room for Brand {
    ghost use Rattle.mud_theorems.specs.inner.Durable.{no_table};

    ghost table = { no_table };
}

/// The knowledge of a pass. The knower's is the number of durable entries, and a claimer's a number that is not
/// greater. No value of it is made.
pub struct Knowledge {
    pub keeps: bool,
    pub count: u64,
    pub claims: u64,
}

/// The rule of the cell.
pub(crate) struct Claims;

impl Protocol<[u64; 1], Knowledge> for Claims {
    ghost use Rattle.mud_theorems.specs.inner.Durable.{knower, AreTrue};

    ghost holds = { AreTrue };

    ghost first = { knower 0 };
}

/// The knower counts more durable entries.
struct Raises;

impl Outcome<[u64; 1], Knowledge> for Raises {
    ghost use Rattle.mud_theorems.specs.inner.Durable.{Raised};

    ghost then = { Raised };
}

/// The knower compares a claim.
struct Compares;

impl Outcome<[u64; 1], Knowledge> for Compares {
    ghost use Rattle.mud_theorems.specs.inner.Durable.{Compared};

    ghost then = { Compared };
}

/// The knower gives a claim, or takes one back.
pub(crate) struct Giving;

impl Split<Knowledge> for Giving {
    ghost use Rattle.mud_theorems.specs.inner.Durable.{claim_of};

    ghost left = { λ v. v };

    ghost right = { claim_of };
}

impl Join<Knowledge> for Giving {
    ghost use Rattle.mud_theorems.specs.inner.Durable.{with_claim, claimer};

    ghost both = { with_claim };

    ghost spent = { claimer 0 };
}

/// The cell, whose word nobody needs: its passes are what proves something.
pub(crate) type Cell = RuledSeqCell<[u64; 1], Knowledge, Claims, 1>;

/// A pass of the cell.
pub(crate) type Pass = CellPass<[u64; 1], Knowledge>;

/// Raises the number of durable entries that the pass knows. The new number is at least the old one.
pub(crate) fn raise<R: Wait>(rt: &R, cell: &Cell, pass: &mut Pass, count: u64)
    requires cell { pass.old.table_id ≡ cell.now.table.shared.table_id }
    requires knows { (known : ℕ) × (known ≤ count) × (cell_view pass.old ≡ knower known) }
    ensures cell { pass.new.table_id ≡ pass.old.table_id }
    ensures knows { cell_view pass.new ≡ knower count }
{
    cell.swap_as::<Raises, R>(rt, pass, [count]);
}

/// Takes a claim back into the pass that knows how many entries are durable, and compares it with their number.
pub(crate) fn compare<R: Wait>(rt: &R, cell: &Cell, pass: &mut Pass, claim: Pass)
    requires cell { pass.old.table_id ≡ cell.now.table.shared.table_id }
    requires claim { (claim.table_id ≡ pass.old.table_id) × (claim.me.1 ≡ []) }
    requires knows { (known : ℕ) × (cell_view pass.old ≡ knower known) }
    ensures cell { pass.new.table_id ≡ pass.old.table_id }
    ensures knows { cell_view pass.new ≡ cell_view pass.old }
    ensures claim { (cell_view claim).claims ≤ (cell_view pass.old).count }
{
    cell.join_pass::<Giving>(pass, claim);
    cell.load_as::<Compares, R>(rt, pass);
}

/// A proof that this many entries of the journal that `J` names are durable. A contract sees their number.
#[derive(Drop)]
pub(crate) struct Durable<J, B: Room> {
    pub(crate) receipt: Receipt<J>,
    pub(crate) pass: Pass,
    of: PhantomData<B>,
}

impl<J, B: Room> Model for Durable<J, B> {
    ghost use Rattle.std.specs.Prelude.{◌≡◌, ℕ, []};
    ghost use Rattle.crossbeam_utils.specs.Seq.{cell_view};
    ghost use Rattle.mud_theorems.specs.inner.Durable.{claimer};

    ghost Value = { ℕ };

    ghost view = { λ d. d.receipt.up_to };

    ghost invariant = { λ d. (d.pass.table_id ≡ B.table) × (d.pass.me.1 ≡ [])
        × (cell_view d.pass ≡ claimer d.receipt.up_to) };
}

impl<J, B: Room> Durable<J, B> {
    /// Returns the proof that a receipt and a pass make up.
    pub(crate) fn new(synced: Receipt<J>, pass: Pass) -> Durable<J, B>
        requires table { pass.table_id ≡ B.table }
        requires idle { pass.me.1 ≡ [] }
        requires claims { cell_view pass ≡ claimer synced.up_to }
        ensures { result ≡ synced.up_to }
    {
        Durable {
            receipt: synced,
            pass,
            of: PhantomData,
        }
    }

    /// Returns the number of durable entries.
    pub(crate) fn up_to(&self) -> usize
        ensures { result ≡ self.now }
    {
        self.receipt.up_to()
    }
}
