//! Group commit: the sessions write the journal.

ghost use Rattle.std.specs.Prelude.{◌≡◌, IfOk, length, take, false};
ghost use Rattle.std.specs.Coded.{codes};
ghost use mathlib.Core.List.{IsPrefix};
ghost use Rattle.mud_key.specs.TreeCode.{coded_number_tree};

use crate::writer::JournalWriter;
use mud_hall::{Hall, HallName};
use mud_journal::{Disk, Gate, JournalFault, Receipt};
use mud_server_state::Commits;
use std::sync::{Mutex, Wait};

// The journal of a hall, under the lock of its leader. Its first entries are the initial ones of the hall.
#[derive(Drop)]
struct Led<J: HallName, D: Disk + Drop> {
    writer: JournalWriter<J, D>,
    // The fault with which the journal has failed, if it has.
    fault: Option<JournalFault>,
    ghost begun: { take (length J.loaded) writer.entries ≡ J.loaded } by { Prim.hlevel (codes, coded_number_tree) },
}

/// The group commit of a hall's journal. A thread that needs entries synced leads a group: it writes all new entries of
/// the hall with one write and one sync. Threads that come meanwhile wait for it, and one of those whose entries it did
/// not have leads the next group. So a thread that is alone waits for no other.
#[derive(Drop)]
pub struct GroupCommit<J: HallName, D: Disk + Drop> {
    gate: Gate<J>,
    led: Mutex<Led<J, D>>,
    ghost has_journal: { gate.is_open ≡ false },
}

impl<J: HallName, D: Disk + Drop> GroupCommit<J, D> {
    /// Returns the group commit of a journal that has exactly the initial entries of the hall.
    #[tactic(auto, using(crate::proofs::Begun::whole))]
    pub fn new(writer: JournalWriter<J, D>) -> GroupCommit<J, D>
        requires { writer.entries ≡ J.loaded }
    {
        let gate = Gate::new(&writer.receipt());
        let led = Led {
            writer,
            fault: None,
        };
        GroupCommit {
            gate,
            led: Mutex::new(led),
        }
    }

    // Writes the new entries of the hall.
    #[tactic(auto, using(crate::proofs::Begun::longer))]
    fn lead(&self, led: &mut Led<J, D>, hall: &Hall<J>) {
        match led.writer.write(hall) {
            Ok(receipt) => self.gate.publish(&receipt),
            Err(fault) => {
                led.fault = Some(fault);
                self.gate.fail();
            }
        }
    }

    /// Returns the journal, or the fault with which it has failed.
    #[tactic(auto, using(crate::proofs::Begun::begun))]
    pub fn into_writer(self) -> Result<JournalWriter<J, D>, JournalFault>
        ensures { IfOk result (λ writer. IsPrefix J.loaded writer.entries) }
    {
        let Led { writer, fault } = self.led.into_inner();
        match fault {
            None => Ok(writer),
            Some(fault) => Err(fault),
        }
    }
}

impl<J: HallName, D: Disk + Drop> Commits<J> for GroupCommit<J, D> {
    ghost lacks_journal = { λ g. false };

    fn is_open(&self) -> bool {
        false
    }

    fn synced_count(&self) -> usize {
        self.gate.synced_count()
    }

    fn has_failed(&self) -> bool {
        self.gate.has_failed()
    }

    // The wait is announced before the looks: a leader that leaves the journal after them ends it.
    fn commit<R: Wait>(&self, rt: &R, hall: &Hall<J>, version: usize) -> Option<Receipt<J>> {
        for _ in rt.forever() {
            let key = self.gate.prepare_wait();
            if let Some(receipt) = self.gate.receipt_for(version) {
                return Some(receipt);
            }
            if self.gate.has_failed() {
                return None;
            }
            if let Some(mut led) = self.led.try_lock() {
                drop(key);
                self.lead(&mut led, hall);
                drop(led);
                self.gate.notify_all();
                return self.gate.receipt_for(version);
            }
            key.wait(rt);
        }
        unreachable!()
    }
}
