//! The backend of a session.

ghost use Rattle.std.specs.Prelude.{◌≡◌, ◌≢◌, ◌++◌, [], IfOk, IfErr, OnOk, map, string_bytes};
ghost use Rattle.std.specs.Thread.{IsSync};
ghost use Rattle.mud_words.specs.Line.{line_of};
ghost use Rattle.mud_hall.specs.Desk.{DeskState, with_told};
ghost use Rattle.mud_hall.specs.Replies.{Failed, Replies, reply_shown};
ghost use Rattle.mud_hall.specs.Answers.{Answers, answer_shown};
ghost use Rattle.mud_session.specs.Session.{TakingIn, TakesNone, IsShared};
ghost use Rattle.mud_session.specs.State.{DoorState};

use mud_guide::Answer;
use mud_hall::{Fault, Reply, Solo};
use mud_words::Parsed;
use std::sync::Wait;
use std::thread::Threads;

/// The backend of a session: a single-user desk, or a desk of a hall. A contract sees the desk, the capacity of the
/// history, the pending notices, and which entries of others the desk may see.
pub trait Door {
    ghost state: { Self → DoorState };

    ghost takes_in: { TakingIn };

    /// Sees entries, and acts on a parsed line.
    fn act<X: Threads + Wait + Sync>(&mut self, rt: &X, line: &Parsed) -> Result<Reply, Fault>
        ensures capacity { (state self.new).capacity ≡ (state self.old).capacity }
        ensures replies { (ready : DeskState) × takes_in (state self.old).desk ready
            × Replies (state self.old).capacity ready (line_of line.now) (reply_shown result) (state self.new).desk }
        ensures stored { reply_shown result ≡ Failed Fault.Unpublished → IsShared takes_in }
        ensures told { reply_shown result ≢ Failed Fault.OutOfMemory → (state self.new).pending ≡ [] };

    /// Sees entries.
    fn see(&mut self) -> Result<(), Fault>
        ensures capacity { (state self.new).capacity ≡ (state self.old).capacity }
        ensures takes { takes_in (state self.old).desk (state self.new).desk }
        ensures told { OnOk result ((state self.new).pending ≡ []) }
        ensures fault { IfErr result (λ f. f ≡ Fault.OutOfMemory) };

    /// Answers a parsed line by exactly the entries that the desk has seen.
    fn ask<X: Threads + Wait + Sync>(&mut self, rt: &X, line: &Parsed) -> Result<Answer, Fault>
        requires { IsSync X.row }
        ensures capacity { (state self.new).capacity ≡ (state self.old).capacity }
        ensures same { (state self.new).desk ≡ (state self.old).desk }
        ensures told { OnOk result ((state self.new).pending ≡ []) }
        ensures answers { IfOk result (λ a. Answers (state self.old).desk (line_of line.now) (answer_shown a)) }
        ensures fault { IfErr result (λ f. f ≡ Fault.OutOfMemory) };

    /// Returns the notices of the desk, each once. It does not allocate.
    fn take_told(&mut self) -> Vec<String>
        ensures capacity { (state self.new).capacity ≡ (state self.old).capacity }
        ensures told { (state self.old).desk.told ≡ map string_bytes result.items ++ (state self.new).desk.told }
        ensures rest { (state self.new).desk ≡ with_told (state self.old).desk (state self.old).pending };

    /// Takes the memory of notices that were sent, and may use it for the notices to come. It does not allocate.
    fn reuse(&mut self, sent: Vec<String>)
        ensures { state self.new ≡ state self.old };
}

impl Door for Solo {
    ghost state = { λ solo. record { capacity = solo.capacity; desk = solo.state; pending = [] } };

    ghost takes_in = { TakesNone };

    fn act<X: Threads + Wait + Sync>(&mut self, _rt: &X, line: &Parsed) -> Result<Reply, Fault> {
        Solo::act(self, line)
    }

    fn see(&mut self) -> Result<(), Fault> {
        Ok(())
    }

    fn ask<X: Threads + Wait + Sync>(&mut self, rt: &X, line: &Parsed) -> Result<Answer, Fault> {
        Ok(Solo::ask(self, rt, line)?)
    }

    fn take_told(&mut self) -> Vec<String> {
        Solo::take_told(self)
    }

    fn reuse(&mut self, _sent: Vec<String>) {}
}
