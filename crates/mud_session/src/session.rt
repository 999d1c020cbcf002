//! Sessions: bytes in, bytes out.

ghost use Rattle.std.specs.Prelude.{◌≡◌, ◌≢◌, ◌++◌, ℕ, List, [], false, true, if◌then◌else◌, Err, codes};
ghost use Rattle.std.specs.Prelude.{OnOk, OnErr, IfOk, string_bytes};
ghost use Rattle.mud_nvt.specs.History.{StandsAfter};
ghost use Rattle.mud_nvt.specs.Units.{Text};
ghost use Rattle.mud_nvt.specs.UnitViews.{unit_shown};

use crate::door::Door;
use crate::fault::SessionFault;
use crate::wiring::{answer_on_wire, line_len, push_end, push_number, push_on_wire};
use mud_hall::{Fault, Reply};
use mud_nvt::{Nvt, Unit};
use mud_rules::laws::questions;
use mud_rules::{is_question, is_quit};
use mud_words::{Parsed, is_blank, parse};
use std::alloc::{AllocError, Global};
use std::marker::Model;
use std::sync::Wait;
use std::thread::Threads;

// The capacity for the number and the line end of a text.
const NUMBERED_BYTES: usize = 16;

// The length up to which an answer is copied, whatever output is before it, and the capacity up to which the memory of
// an output is used again.
const COPIED_BYTES: usize = 4096;

/// A session: its terminal, whether it has ended, and its output.
pub struct Session {
    alloc: Global,
    terminal: Nvt,
    has_ended: bool,
    out: Vec<u8>,
}

impl Drop for Session {
    fn drop(self) {
        let Session {
            alloc: _,
            terminal,
            has_ended: _,
            out,
        } = self;
        drop(terminal);
        drop(out);
    }
}

impl Model for Session {
    ghost use Rattle.mud_session.specs.State.{SessionState};

    ghost Value = { SessionState };

    ghost view = { λ s. record { terminal = s.terminal; has_ended = s.has_ended; out = s.out.items } };
}

impl Session {
    ghost use Rattle.mud_words.specs.Line.{line_of};
    ghost use Rattle.mud_words.specs.Words.{is_blank as blank};
    ghost use Rattle.mud_words.specs.Parse.{parse_of};
    ghost use Rattle.mud_rules.specs.Table.{is_question, is_quit};
    ghost use Rattle.mud_hall.specs.Desk.{with_told};
    ghost use Rattle.mud_hall.specs.Replies.{reply_shown};
    ghost use Rattle.mud_session.specs.Session.{wire_text, with_version};
    ghost use Rattle.mud_session.specs.inner.TurnTexts.{sends, sent_for, Told, IsSaid, HasTurn};
    ghost use Rattle.mud_session.specs.Feeds.{Feeds, Nudges};
    ghost use Rattle.mud_session.specs.State.{SessionState, DoorState};
    ghost use Rattle.mud_session.specs.inner.Feeding.{Fed};

    /// Returns a session in its initial state, whose output is empty or the greeting. The only error is out of memory.
    pub fn new(alloc: Global, greet: bool) -> Result<Session, AllocError>
        ensures terminal { IfOk result (λ session. StandsAfter session.terminal []) }
        ensures open_still { IfOk result (λ session. session.has_ended ≡ false) }
        ensures out { IfOk result (λ session. session.out
            ≡ (if greet then wire_text (codes "Welcome. Type: connect NAME") else [])) }
    {
        let mut session = Session {
            alloc,
            terminal: Nvt::new(alloc),
            has_ended: false,
            out: Vec::new(alloc),
        };
        if greet {
            session.send("Welcome. Type: connect NAME")?;
        }
        Ok(session)
    }

    /// Returns whether the session has ended, by an answered `quit` or a failed allocation of its own. It consumes no
    /// more input then.
    pub fn ended(&self) -> bool
        ensures { result ≡ self.now.has_ended }
    {
        self.has_ended
    }

    /// Returns whether no output waits.
    pub fn is_silent(&self) -> bool
        ensures silent { result ≡ true → self.now.out ≡ [] }
        ensures waits { result ≡ false → self.now.out ≢ [] }
    {
        self.out.is_empty()
    }

    /// Returns the output since the last call. It does not allocate. Without output its memory stays here.
    pub fn take_out(&mut self) -> Vec<u8>
        ensures text { result.items ≡ self.old.out }
        ensures rest { self.new ≡ record self.old { out = [] } }
    {
        let mut out = Vec::new(self.alloc);
        if !self.out.is_empty() {
            std::mem::swap(&mut self.out, &mut out);
        }
        out
    }

    /// Takes the memory of an output that was sent, and uses it for the output to come. The memory of a long output is
    /// freed instead, and so is any memory while output waits. It does not allocate.
    pub fn reuse(&mut self, mut out: Vec<u8>)
        ensures { self.new ≡ self.old }
    {
        if self.out.is_empty() && out.capacity() <= COPIED_BYTES {
            out.clear();
            self.out = out;
        }
    }

    /// Consumes bytes, and answers each line that they complete. If an allocation fails for a line, the answer is `(out
    /// of memory)`; if it fails for the state or the output of the session itself, the session ends. On a session that
    /// has ended, the error is `Ended`, and nothing changes.
    pub fn feed<X: Threads + Wait + Sync, D: Door>(
        &mut self,
        rt: &X,
        door: &mut D,
        bytes: &[u8],
    ) -> Result<(), SessionFault>
        ensures ok { OnOk result ((earlier : List ℕ) → StandsAfter self.old.terminal earlier
            → Feeds D.takes_in earlier bytes.now self.old self.new (D.state door.old) (D.state door.new)) }
        ensures over { self.old.has_ended ≡ true → (result ≡ Err SessionFault.Ended) × (self.new ≡ self.old)
            × (D.state door.new ≡ D.state door.old) }
        ensures err { OnErr result (self.new.has_ended ≡ true) }
        ensures ended { result ≡ Err SessionFault.Ended → self.old.has_ended ≡ true }
        ensures capacity { (D.state door.new).capacity ≡ (D.state door.old).capacity }
    {
        if self.has_ended {
            return Err(SessionFault::Ended);
        }
        let mut units = Vec::new(self.alloc);
        let mut taken = 0;
        while taken < bytes.len() {
            let end = taken + line_len(&bytes[taken..]);
            let Ok(()) = self.feed_line(rt, door, &bytes[taken..end], &mut units) else {
                return Err(self.end());
            };
            taken = end;
        }
        recycle(&mut self.terminal, &mut units);
        Ok(())
    }

    // Consumes the bytes of a line, and plays the turns of the units that they complete. The line before it gives its
    // memory back first.
    fn feed_line<X: Threads + Wait + Sync, D: Door>(
        &mut self,
        rt: &X,
        door: &mut D,
        bytes: &[u8],
        units: &mut Vec<Unit>,
    ) -> Result<(), AllocError>
        ensures fed { OnOk result ((earlier front : List ℕ) (start : SessionState) (begun : DoorState)
            → Fed D.takes_in earlier front start self.old begun (D.state door.old)
            → Fed D.takes_in earlier (front ++ bytes.now) start self.new begun (D.state door.new)) }
        ensures capacity { (D.state door.new).capacity ≡ (D.state door.old).capacity }
    {
        recycle(&mut self.terminal, units);
        let Ok(()) = self.terminal.feed(bytes, units) else {
            return Err(AllocError);
        };
        for unit in units.as_slice() {
            self.answer(rt, door, unit)?;
        }
        Ok(())
    }

    /// Looks for the changes of others, and sends the notices of the desk. A failed allocation in the look is not an
    /// error: a later call sends the missing notices. If it fails for the output of the session itself, the session
    /// ends. On a session that has ended, the error is `Ended`, and nothing changes.
    pub fn nudge<D: Door>(&mut self, door: &mut D) -> Result<(), SessionFault>
        ensures ok { OnOk result (Nudges D.takes_in self.old self.new (D.state door.old) (D.state door.new)) }
        ensures over { self.old.has_ended ≡ true → (result ≡ Err SessionFault.Ended) × (self.new ≡ self.old)
            × (D.state door.new ≡ D.state door.old) }
        ensures err { OnErr result (self.new.has_ended ≡ true) }
        ensures ended { result ≡ Err SessionFault.Ended → self.old.has_ended ≡ true }
        ensures capacity { (D.state door.new).capacity ≡ (D.state door.old).capacity }
    {
        if self.has_ended {
            return Err(SessionFault::Ended);
        }
        match self.look(door) {
            Ok(_) => Ok(()),
            Err(_) => Err(self.end()),
        }
    }

    // Ends the session after a failed allocation of its own.
    fn end(&mut self) -> SessionFault
        ensures fault { result ≡ SessionFault.OutOfMemory }
        ensures ended { self.new.has_ended ≡ true }
    {
        self.has_ended = true;
        SessionFault::OutOfMemory
    }

    // Plays the turn of a unit, unless the session has ended. A blank line has no turn.
    fn answer<X: Threads + Wait + Sync, D: Door>(
        &mut self,
        rt: &X,
        door: &mut D,
        unit: &Unit,
    ) -> Result<(), AllocError>
        ensures over { self.old.has_ended ≡ true → (self.new ≡ self.old) × (D.state door.new ≡ D.state door.old) }
        ensures turn { OnOk result (self.old.has_ended ≡ false
            → HasTurn D.takes_in (unit_shown unit.now) self.old self.new (D.state door.old) (D.state door.new)) }
        ensures capacity { (D.state door.new).capacity ≡ (D.state door.old).capacity }
    {
        if self.has_ended {
            return Ok(());
        }
        match unit {
            Unit::TooLong => self.send("(line too long)"),
            Unit::Ayt => self.send("[Yes]"),
            Unit::Answer(bytes) => self.send_bytes(bytes.as_slice()),
            Unit::Text(line) if is_blank(line.as_str()) => Ok(()),
            Unit::Text(line) => match &parse(self.alloc, line.as_str()) {
                Err(_) => {
                    let _ = self.look(door)?;
                    self.send("(out of memory)")
                }
                Ok(parsed) if is_question(parsed) => self.ask(rt, door, parsed),
                Ok(parsed) => self.act(rt, door, parsed),
            },
        }
    }

    // Sends the notices, and then answers a question by the entries that the desk has seen by then.
    fn ask<X: Threads + Wait + Sync, D: Door>(
        &mut self,
        rt: &X,
        door: &mut D,
        line: &Parsed,
    ) -> Result<(), AllocError>
        requires goes_on { self.old.has_ended ≡ false }
        requires question { is_question (line_of line.now) ≡ true }
        ensures turn { OnOk result ((text : List ℕ) → blank text ≡ false → parse_of text ≡ line_of line.now
            → HasTurn D.takes_in (Text text) self.old self.new (D.state door.old) (D.state door.new)) }
        ensures capacity { (D.state door.new).capacity ≡ (D.state door.old).capacity }
    {
        if !self.look(door)? {
            return self.send("(out of memory)");
        }
        match door.ask(rt, line) {
            Ok(answer) => {
                self.send_answer(answer.version, answer.text)?;
                self.has_ended = is_quit(line);
                Ok(())
            }
            Err(_) => self.send("(out of memory)"),
        }
    }

    // Makes the desk act on a line, and sends the notices and then the reply.
    fn act<X: Threads + Wait + Sync, D: Door>(
        &mut self,
        rt: &X,
        door: &mut D,
        line: &Parsed,
    ) -> Result<(), AllocError>
        requires goes_on { self.old.has_ended ≡ false }
        requires acts { is_question (line_of line.now) ≡ false }
        ensures turn { OnOk result ((text : List ℕ) → blank text ≡ false → parse_of text ≡ line_of line.now
            → HasTurn D.takes_in (Text text) self.old self.new (D.state door.old) (D.state door.new)) }
        ensures capacity { (D.state door.new).capacity ≡ (D.state door.old).capacity }
    {
        // for the prover: by this law, only the verb of a question asks
        questions();
        let reply = door.act(rt, line);
        self.tell(door)?;
        self.say(&reply)
    }

    // Sends the reply to a line that acts.
    fn say(&mut self, reply: &Result<Reply, Fault>) -> Result<(), AllocError>
        requires { IsSaid (reply_shown reply.now) }
        ensures { OnOk result (self.new ≡ sends self.old (sent_for (reply_shown reply.now))) }
    {
        match reply {
            Ok(Reply::Accepted { version, text }) => self.send_numbered(*version, text.as_str()),
            Ok(Reply::Became { version, text }) => self.send_numbered(*version, text.as_str()),
            Ok(Reply::Refused { version, text, .. }) => self.send_numbered(*version, text.as_str()),
            Ok(Reply::Question { .. }) => unreachable!(),
            Err(Fault::OutOfMemory) => self.send("(out of memory)"),
            Err(Fault::HistoryFull) => self.send("(history full)"),
            Err(Fault::Unpublished) => self.send("(not stored)"),
            Err(Fault::DesksFull) => unreachable!(),
        }
    }

    // Makes the desk see entries, and sends the notices. Returns whether all were sent.
    fn look<D: Door>(&mut self, door: &mut D) -> Result<bool, AllocError>
        ensures looked { OnOk result (self.old.has_ended ≡ false
            → Nudges D.takes_in self.old self.new (D.state door.old) (D.state door.new)) }
        ensures all { IfOk result (λ all. all ≡ true → (D.state door.new).desk.told ≡ []) }
        ensures capacity { (D.state door.new).capacity ≡ (D.state door.old).capacity }
    {
        let is_all = door.see().is_ok();
        self.tell(door)?;
        Ok(is_all)
    }

    // Sends the notices of the desk.
    fn tell<D: Door>(&mut self, door: &mut D) -> Result<(), AllocError>
        ensures told { OnOk result (Told self.old self.new (D.state door.old).desk (D.state door.new).desk) }
        ensures rest { (D.state door.new).desk ≡ with_told (D.state door.old).desk (D.state door.old).pending }
        ensures capacity { (D.state door.new).capacity ≡ (D.state door.old).capacity }
    {
        let lines = door.take_told();
        for line in &lines {
            self.send(line.as_str())?;
        }
        door.reuse(lines);
        Ok(())
    }

    // Sends a reply, with the version that it is about.
    fn send_numbered(&mut self, version: u32, text: &str) -> Result<(), AllocError>
        ensures { OnOk result (self.new ≡ sends self.old (wire_text (with_version version text.now))) }
    {
        self.out.reserve(text.len().saturating_add(NUMBERED_BYTES))?;
        self.out.push(b'[')?;
        push_number(&mut self.out, version)?;
        self.out.push(b']')?;
        self.out.push(b' ')?;
        self.send(text)
    }

    // Sends an answer. A long answer, longer than the output before it, becomes the output in place. So in all, no more
    // bytes are moved than sent.
    fn send_answer(&mut self, version: u32, text: String) -> Result<(), AllocError>
        ensures { OnOk result (self.new ≡ sends self.old (wire_text (with_version version (string_bytes text)))) }
    {
        if text.len() <= self.out.len().max(COPIED_BYTES) {
            return self.send_numbered(version, text.as_str());
        }
        let number = format!(in self.alloc; "[{version}] ")?;
        self.out = answer_on_wire(self.take_out(), number.as_str(), text)?;
        self.send_bytes(b"\r\n")
    }

    // Sends a text of one or more lines.
    fn send(&mut self, text: &str) -> Result<(), AllocError>
        ensures { OnOk result (self.new ≡ sends self.old (wire_text text.now)) }
    {
        push_on_wire(&mut self.out, text.as_bytes())?;
        push_end(&mut self.out)
    }

    // Sends bytes unchanged.
    fn send_bytes(&mut self, bytes: &[u8]) -> Result<(), AllocError>
        ensures { OnOk result (self.new ≡ sends self.old bytes.now) }
    {
        self.out.extend_from_slice(bytes)
    }
}

// Removes all units. The terminal uses the memory of their lines again.
fn recycle(terminal: &mut Nvt, units: &mut Vec<Unit>)
    ensures terminal { terminal.new ≡ terminal.old }
    ensures units { units.new.items ≡ [] }
{
    while let Some(unit) = units.pop() {
        if let Unit::Text(line) = unit {
            terminal.reuse(line);
        }
    }
}
