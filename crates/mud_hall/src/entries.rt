//! The entries of a hall, in the cells of its row.

ghost use Rattle.std.specs.Prelude.{◌≡◌, ◌≤◌, ◌<◌, length, drop, Some, slice_get};
ghost use Rattle.mud_world.specs.declared.limits.TheConstants.{MOST_ENTRIES};
ghost use Rattle.mud_chron.specs.Entry.{Entry};

use mud_row::{Pass, Row};
use std::marker::Model;

/// The entries after the loaded ones: of the entries that the pass knows, all but the first `loaded`. A contract sees
/// them in order.
#[derive(Drop)]
pub(crate) struct Made<'r> {
    row: &'r Row,
    pass: Pass,
    loaded: u32,
}

impl<'r> Model for Made<'r> {
    ghost use Rattle.std.specs.Prelude.{◌≡◌, ◌≤◌, List, drop, length};
    ghost use Rattle.mud_chron.specs.Entry.{Entry};

    ghost Value = { List Entry };

    ghost use Rattle.mud_key.specs.TreeCode.{coded_number_tree};
    ghost use Rattle.std.specs.Coded.{codes};

    ghost coded = { Prim.hlevel (codes, coded_number_tree) };

    ghost view = { λ m. drop m.loaded m.pass.list };

    ghost invariant = { λ m. (m.pass.row ≡ m.row.now) × (m.loaded ≤ length m.pass.list) };
}

impl<'r> Made<'r> {
    /// Returns the entries that the pass knows after the first `loaded`.
    pub(crate) fn new(row: &'r Row, pass: Pass, loaded: u32) -> Made<'r>
        requires row { pass.row ≡ row.now }
        requires loaded { loaded ≤ length pass.list }
        ensures { result ≡ drop loaded pass.list }
    {
        Made { row, pass, loaded }
    }

    /// Returns the number of entries.
    pub(crate) fn len(&self) -> u32
        ensures len { result ≡ length self.now }
        ensures limit { result ≤ MOST_ENTRIES }
    {
        self.pass.known() - self.loaded
    }

    /// Returns the number of the desk that made the entry at this place, counted from 0.
    pub(crate) fn desk(&mut self, i: u32) -> u32
        requires { i < length self.old }
        ensures same { self.new ≡ self.old }
        ensures desk { (e : Entry) × (slice_get self.old i ≡ Some e) × (result ≡ e.desk) }
    {
        // for the prover: `known` shows that there are at most 65,536, so the sum below does not overflow
        let _known = self.pass.known();
        match self.row.entry(&mut self.pass, self.loaded + i + 1) {
            Some(entry) => entry.desk(),
            None => unreachable!(),
        }
    }
}
