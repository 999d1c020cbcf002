//! Commits: how the changes of a hall become durable.

ghost use Rattle.std.specs.Prelude.{◌≡◌, ◌≤◌, Bool, IfSome, false};

use mud_hall::{Hall, HallName};
use mud_journal::{Gate, Receipt};
use std::sync::Wait;

/// Makes the entries of the hall that `J` names durable. Its receipts are of that hall's journal.
pub trait Commits<J: HallName>: Drop {
    /// True if there is no journal.
    ghost lacks_journal: { Self → Bool };

    /// Returns whether there is no journal. Then all entries count as synced.
    fn is_open(&self) -> bool
        ensures { result ≡ lacks_journal self.now };

    /// Returns the number of synced entries, or the greatest number if there is no journal.
    fn synced_count(&self) -> usize;

    /// Returns whether the journal has failed. Then no more entries become durable.
    fn has_failed(&self) -> bool;

    /// Makes this many entries of the hall durable, or waits until another thread has done so. Returns no receipt if
    /// the journal fails before that. The receipt is free only if there is no journal.
    fn commit<R: Wait>(&self, rt: &R, hall: &Hall<J>, version: usize) -> Option<Receipt<J>>
        ensures up_to { IfSome result (λ r. version ≤ r.up_to) }
        ensures of_journal { lacks_journal self.now ≡ false → IfSome result (λ r. r.is_free ≡ false) };
}

/// A gate alone has no journal to write: it is for a server without one.
impl<J: HallName> Commits<J> for Gate<J> {
    ghost lacks_journal = { λ g. g.is_open };

    fn is_open(&self) -> bool {
        Gate::is_open(self)
    }

    fn synced_count(&self) -> usize {
        Gate::synced_count(self)
    }

    fn has_failed(&self) -> bool {
        Gate::has_failed(self)
    }

    fn commit<R: Wait>(&self, rt: &R, hall: &Hall<J>, version: usize) -> Option<Receipt<J>> {
        self.receipt_for(version)
    }
}
