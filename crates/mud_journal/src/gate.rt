//! The commit barrier: how far a journal is synced, and the threads that wait for it.

ghost use Rattle.std.specs.Prelude.{◌≡◌, ◌≤◌, IfSome, true, false};

use crate::journal::{Receipt, Synced};
use crossbeam_utils::atomic::AtomicCell;
use crossbeam_utils::sync::{EventCount, Key};
use std::sync::atomic::{AtomicBool, Ordering};

/// A commit barrier for the journal that `J` names: the thread that writes the journal publishes its receipts here, and
/// the others wait for them. A receipt of another journal has another type. A gate without a journal is open: no thread
/// waits at it. It has no lock: threads that are released together don't wait for one another.
#[derive(Drop)]
pub struct Gate<J> {
    // The receipt of the last sync, or for no entries without a journal.
    synced: AtomicCell<Synced<J>>,
    // True once the journal accepts no more.
    has_failed: AtomicBool,
    is_open: bool,
    // Notified when the thread that wrote the journal leaves it to the next one.
    left: EventCount,
}

// Returns a gate at which this much is synced.
fn gate_at<J>(synced: &Receipt<J>, is_open: bool) -> Gate<J>
    ensures { result.is_open ≡ is_open }
{
    Gate {
        synced: AtomicCell::new(Synced::of_receipt(synced)),
        has_failed: AtomicBool::new(false),
        is_open,
        left: EventCount::new(),
    }
}

impl<J> Gate<J> {
    /// Returns the gate of a journal that has synced this much. A free receipt carries no information about a journal.
    pub fn new(receipt: &Receipt<J>) -> Gate<J>
        ensures { result.is_open ≡ false }
    {
        gate_at(&receipt.of_journal(), false)
    }

    /// Returns the gate of a server without a journal, at which everything counts as synced.
    pub fn open() -> Gate<J>
        ensures { result.is_open ≡ true }
    {
        gate_at(&Receipt::of_nothing(), true)
    }

    /// Returns whether there is no journal.
    pub fn is_open(&self) -> bool
        ensures { result ≡ self.now.is_open }
    {
        self.is_open
    }

    /// Returns the number of synced entries, or the greatest number if there is no journal.
    pub fn synced_count(&self) -> usize {
        if self.is_open {
            usize::MAX
        } else {
            self.synced.load().receipt().up_to()
        }
    }

    /// Returns a receipt if this many entries are synced. It is free only if there is no journal.
    pub fn receipt_for(&self, version: usize) -> Option<Receipt<J>>
        ensures up_to { IfSome result (λ r. version ≤ r.up_to) }
        ensures of_journal { self.now.is_open ≡ false → IfSome result (λ r. r.is_free ≡ false) }
    {
        if self.is_open {
            return Some(Receipt::free());
        }
        let last = self.synced.load().receipt();
        if version <= last.up_to() {
            Some(last)
        } else {
            None
        }
    }

    /// Announces that this thread will wait until the thread that writes the journal leaves it. It looks once more for
    /// a receipt, and then waits by `Key::wait`, which returns at once if the journal was left since this call.
    pub fn prepare_wait(&self) -> Key<'_> {
        self.left.prepare_wait()
    }

    /// Records what is synced now. A free receipt carries no information. Only the thread that writes the journal
    /// calls it.
    pub fn publish(&self, receipt: &Receipt<J>) {
        if self.synced.load().receipt().up_to() < receipt.of_journal().up_to() {
            self.synced.store(Synced::of_receipt(receipt));
        }
    }

    /// Records that the journal has failed.
    pub fn fail(&self) {
        self.has_failed.store(true, Ordering::SeqCst);
    }

    /// Returns whether the journal has failed.
    pub fn has_failed(&self) -> bool {
        self.has_failed.load(Ordering::SeqCst)
    }

    /// Releases the threads that wait. The thread that wrote the journal calls it after it has left the journal.
    pub fn notify_all(&self) {
        self.left.notify_all();
    }
}
