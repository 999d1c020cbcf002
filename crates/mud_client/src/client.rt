//! Clients: a session, its desk, and the framing of its bytes.

ghost use Rattle.std.specs.Prelude.{◌≡◌, ◌≤◌, ◌++◌, ℕ, List, [], length, true, false, Some, IfOk, IfErr};
ghost use Rattle.mud_search.specs.declared.limits.TheConstants.{MOST_WORKERS};
ghost use Rattle.std.specs.Prelude.{◌⊎◌};
ghost use Rattle.mud_hall.specs.Desk.{as_guest};
ghost use Rattle.mud_client.specs.Framed.{IsNew, last_words};
ghost use Rattle.mud_session.specs.Talks.{Start};
ghost use Rattle.mud_client.specs.Client.{Stands, StandsFrom};
ghost use Rattle.mud_client.specs.Steps.{MatchEnd, IfDone, output_of, Steps, CutsOff, Looks, Parts, Reports};

use crate::framing::Framing;
use crate::outgoing::{End, Outgoing};
use mud_guide::Answer;
use mud_hall::{Desk, Hall, HallName};
use mud_journal::Held;
use mud_session::{Seat, Session};
use mud_web::Ending;
use mud_words::parse;
use std::alloc::Global;
use std::marker::Model;
use std::sync::Wait;
use std::thread::Threads;

/// The parts of a client that name no hall: the framing of its bytes, the typed text that waits for an answer, and its
/// session.
pub(crate) struct Link {
    pub(crate) framing: Framing,
    pub(crate) waiting: Vec<u8>,
    pub(crate) session: Session,
    // the memory of frames that were sent
    pub(crate) spare: Vec<u8>,
}

impl Drop for Link {
    fn drop(self) {
        let Link {
            framing,
            waiting,
            session,
            spare,
        } = self;
        drop(framing);
        drop(waiting);
        drop(session);
        drop(spare);
    }
}

/// A session at its desk, the framing of its bytes, and the typed text that waits for an answer. Unless the client has
/// ended, its output is a prefix of its greeting and the text of the turns played at its desks, framed. All but the
/// desk is boxed, so that a client is cheap to move.
#[derive(Drop)]
pub struct Client<J: HallName> {
    pub(crate) alloc: Global,
    pub(crate) link: Box<Link>,
    pub(crate) desk: Desk<J>,
    pub(crate) has_ended: bool,
}

impl<J: HallName> Model for Client<J> {
    ghost use Rattle.std.specs.Prelude.{◌≡◌, length, false};
    ghost use Rattle.mud_client.specs.Client.{ClientState, state_of, IsSound};
    ghost use Rattle.mud_key.specs.TreeCode.{coded_number_tree};
    ghost use Rattle.std.specs.Coded.{codes};

    ghost Value = { ClientState };

    ghost coded = { Prim.hlevel (codes, coded_number_tree) };

    ghost view = { λ c. state_of (length J.cells) c.link.value.framing c.link.value.waiting.items c.link.value.session
        c.desk.state c.has_ended };

    ghost invariant = { λ c. ∥ (c.has_ended ≡ false → IsSound (state_of (length J.cells) c.link.value.framing
        c.link.value.waiting.items c.link.value.session c.desk.state c.has_ended)) ∥₁ };
}

impl<J: HallName> Client<J> {
    ghost use Rattle.std.specs.Prelude.{IfSome, codes};
    ghost use Rattle.mud_words.specs.Parse.{parse_of};
    ghost use Rattle.mud_hall.specs.Answers.{answer_shown, Answers};

    /// Returns a client in its initial state, with the greeting as its output, at the desk, which becomes a guest's
    /// again. If an allocation fails, the desk comes back unchanged.
    pub fn new(alloc: Global, framing: Framing, desk: Desk<J>) -> Result<Client<J>, Desk<J>>
        requires { IsNew framing }
        ensures stands { IfOk result (λ client. Stands [] [] client) }
        ensures framing { IfOk result (λ client. client.framing ≡ framing) }
        ensures capacity { IfOk result (λ client. client.capacity ≡ length J.cells) }
        ensures desk { IfOk result (λ client. client.desk ≡ as_guest desk.state) }
        ensures open_still { IfOk result (λ client. client.has_ended ≡ false) }
        ensures err { IfErr result (λ back. back ≡ desk) }
    {
        let Ok(session) = Session::new(alloc, true) else {
            return Err(desk);
        };
        let link = Link {
            framing,
            waiting: Vec::new(alloc),
            session,
            spare: Vec::new(alloc),
        };
        let Ok(link) = Box::new(alloc, link) else {
            return Err(desk);
        };
        let mut desk = desk;
        desk.guest();
        Ok(Client {
            alloc,
            link,
            desk,
            has_ended: false,
        })
    }

    /// Consumes input, and answers the first waiting line. So the output of one call is at most the answer to one line.
    /// If more lines wait, the next call answers one of them, even with empty input. If the input has frames to reply
    /// to, the call returns those replies, and answers no line. If frames end the connection, the lines typed before
    /// are executed, and get no answer.
    ///
    /// A question is answered by the entries that the desk has seen before, and by those up to the `most`-th. If these
    /// are synced, its answer waits for no sync. A line that acts sees all entries.
    pub fn feed<R: Threads + Wait + Sync>(
        self,
        rt: &R,
        hall: &Hall<J>,
        workers: u32,
        most: u32,
        bytes: &[u8],
    ) -> (Client<J>, Outgoing<J>)
        requires { workers ≤ MOST_WORKERS }
        ensures step { MatchEnd result.1.end (Steps bytes.now self result.0 (output_of result.1))
            (λ error. CutsOff bytes.now error self result.0 (output_of result.1)) (result.1.text.text.items ≡ []) }
        ensures stands { (start : Start) (came sent : List ℕ) → StandsFrom start came sent self → IfDone result.1.end
            (StandsFrom start (came ++ bytes.now) (sent ++ result.1.text.text.items) result.0) }
        ensures earlier { self.has_ended ≡ true → result.1.end ≡ Some End.Earlier }
        ensures reports { Reports (length self.desk.calls) result.0 (output_of result.1) }
    {
        let mut client = self;
        let before = client.desk.accepted_count();
        if client.has_ended {
            return client.refuse(before, End::Earlier);
        }
        let mut replies = Vec::new(client.alloc);
        let link = &mut *client.link;
        let read = link.framing.read(bytes, &mut link.waiting, &mut replies);
        if let Err(fault) = read {
            client.has_ended = true;
            return client.cut_off(rt, hall, workers, before, replies, fault);
        }
        if !replies.is_empty() {
            return client.give(before, Held::new(replies, 0), None, false);
        }
        match client.feed_line(rt, hall, workers, most) {
            Ok((client, has_line)) => client.say(before, has_line),
            Err((client, fault)) => client.refuse(before, End::of_session(fault)),
        }
    }

    /// Looks for changes of others, but at no entry after the `most`-th.
    pub fn nudge(self, hall: &Hall<J>, workers: u32, most: u32) -> (Client<J>, Outgoing<J>)
        requires { workers ≤ MOST_WORKERS }
        ensures step { MatchEnd result.1.end (Looks self result.0 (output_of result.1)) (λ error. ⊥)
            (result.1.text.text.items ≡ []) }
        ensures stands { (start : Start) (came sent : List ℕ) → StandsFrom start came sent self → IfDone result.1.end
            (StandsFrom start came (sent ++ result.1.text.text.items) result.0) }
        ensures earlier { self.has_ended ≡ true → result.1.end ≡ Some End.Earlier }
        ensures reports { Reports (length self.desk.calls) result.0 (output_of result.1) }
    {
        let before = self.desk.accepted_count();
        if self.has_ended {
            return self.refuse(before, End::Earlier);
        }
        match self.look(hall, workers, most) {
            Ok(client) => client.say(before, false),
            Err((client, fault)) => client.refuse(before, End::of_session(fault)),
        }
    }

    /// Returns the answer to `look me` at the client's desk, whose first line has the first name and the number of the
    /// player. It is no output of the session. Returns `None` for a guest, or if an allocation fails.
    pub fn look_at_me(&mut self, hall: &Hall<J>) -> Option<Answer>
        ensures same { self.new ≡ self.old }
        ensures answer { IfSome result (λ a. Answers self.old.desk (parse_of (codes "look me")) (answer_shown a)) }
    {
        if !self.desk.has_player() {
            return None;
        }
        let said = parse(self.alloc, "look me").ok()?;
        self.desk.ask(hall, &said).ok()
    }

    /// Takes the memory of an output that was sent, and uses it for the output to come. The memory of a long output is
    /// freed instead. It does not allocate.
    pub fn reuse(&mut self, sent: Vec<u8>)
        ensures { self.new ≡ self.old }
    {
        let link = &mut *self.link;
        link.framing.reuse(&mut link.session, &mut link.spare, sent);
    }

    /// Returns a line of the server's own, framed for the other side. It is no output of the session. The text is empty
    /// if an allocation fails, or the web socket is closed.
    pub fn announce(&mut self, line: &str) -> Vec<u8>
        ensures said { (result.items ≡ last_words self.old.framing line.now) ⊎ (result.items ≡ []) }
        ensures same { self.new ≡ self.old }
    {
        let mut text = Vec::new(self.alloc);
        self.link.framing.say_last(line, &mut text);
        text
    }

    /// Returns the last output, and the client, which has ended: a line of the server's own, and the close of a web
    /// socket, unless one was sent before. If an allocation fails, a part of this is missing.
    pub fn part(self, line: &str, ending: Option<Ending>) -> (Client<J>, Vec<u8>)
        ensures { Parts line.now ending self result.0 result.1.items }
    {
        let mut client = self;
        client.has_ended = true;
        let mut text = Vec::new(client.alloc);
        let link = &mut *client.link;
        link.framing.say_last(line, &mut text);
        link.framing.close(ending, &mut text);
        (client, text)
    }

    /// Returns the desk, as a guest's.
    pub fn into_desk(self) -> Desk<J>
        ensures { result.state ≡ as_guest self.desk }
    {
        let mut desk = self.desk;
        desk.guest();
        desk
    }
}
