//! Acting: lines that may change the world.

ghost use Rattle.std.specs.Prelude.{◌≡◌, ◌≢◌, ◌⊎◌, [], length, IfErr, IfOk};
ghost use Rattle.std.specs.Cow.{cow_str_bytes};
ghost use Rattle.mud_words.specs.Line.{line_of};
ghost use Rattle.mud_rules.specs.Outcome.{IsLawful};
ghost use Rattle.mud_rules.specs.Replies.{reply_text};
ghost use Rattle.mud_hall.specs.Notices.{world_after};
ghost use Rattle.mud_hall.specs.Desk.{pending};
ghost use Rattle.mud_hall.specs.Replies.{Failed, reply_shown, Comes, Stores, verdict_on};

use crate::desk::Desk;
use crate::fault::Fault;
use crate::name::HallName;
use crate::reply::Reply;
use mud_chron::Entry;
use mud_row::{Row, RowFault};
use mud_rules::{Verdict, decide, refusal_text, reply_text, welcome_text};
use mud_words::Parsed;
use mud_world::Change;
use std::alloc::Global;
use std::borrow::CowStr;

impl<J: HallName> Desk<J> {
    // Decides a line in the world of all known entries.
    pub(crate) fn reply(&mut self, alloc: Global, row: &Row, said: &Parsed) -> Result<Reply, Fault>
        requires row { row.now ≡ J.cells }
        requires all { self.old.at ≡ length self.old.state.seen }
        ensures comes { Comes (length row.now) self.old.state
            (verdict_on self.old.state.seen self.old.state.player (line_of said.now)) (reply_shown result)
            self.new.state }
        ensures told { reply_shown result ≢ Failed Fault.OutOfMemory → pending self.new ≡ [] }
    {
        match decide(alloc, self.world(), self.player(), said)? {
            Verdict::Refused(refusal) => {
                Ok(Reply::Refused {
                    version: self.seen(),
                    refusal,
                    text: CowStr::Borrowed(refusal_text(refusal)),
                })
            }
            Verdict::Ask(_) => Ok(Reply::Question {
                version: self.seen(),
            }),
            Verdict::Become(player) => {
                let text = CowStr::Owned(welcome_text(alloc, player)?);
                self.player = Some(player);
                Ok(Reply::Became {
                    version: self.seen(),
                    text,
                })
            }
            Verdict::Change(change) => self.store(alloc, row, change),
        }
    }

    // Appends a change to the history. Everything that allocates happens before the cell is set.
    fn store(&mut self, alloc: Global, row: &Row, change: Change) -> Result<Reply, Fault>
        requires row { row.now ≡ J.cells }
        requires all { self.old.at ≡ length self.old.state.seen }
        requires lawful { IsLawful (world_after self.old.state.seen) self.old.state.player (Verdict.Change change) }
        ensures stores { Stores (length row.now) self.old.state change (reply_shown result) self.new.state }
        ensures told { reply_shown result ≢ Failed Fault.OutOfMemory → pending self.new ≡ [] }
    {
        let text = self.text(alloc, row, &change)?;
        let actor = change.actor;
        let entry = Box::new(alloc, Entry::new(self.number, change))?;
        let inner = &mut *self.inner;
        inner.calls.reserve(1)?;
        match inner.replica.publish(row, entry) {
            Ok(version) => {
                inner.calls.push_reserved(version);
                self.player = Some(actor);
                Ok(Reply::Accepted { version, text })
            }
            Err((_, RowFault::HistoryFull)) => Err(Fault::HistoryFull),
            Err((_, RowFault::Unpublished)) => Err(Fault::Unpublished),
        }
    }

    // Returns the reply to a change, if the history has room for one more.
    fn text(
        &self,
        alloc: Global,
        row: &Row,
        change: &Change,
    ) -> Result<CowStr<'static, Global>, Fault>
        requires row { row.now ≡ J.cells }
        requires all { self.now.at ≡ length self.now.state.seen }
        ensures text { IfOk result
            (λ text. cow_str_bytes text ≡ reply_text (world_after self.now.state.seen) change.now) }
        ensures fault { IfErr result (λ f. (f ≡ Fault.OutOfMemory)
            ⊎ ((f ≡ Fault.HistoryFull) × (length self.now.state.seen ≡ length row.now))) }
    {
        if self.seen() == row.capacity() {
            return Err(Fault::HistoryFull);
        }
        Ok(reply_text(alloc, self.world(), change)?)
    }
}
