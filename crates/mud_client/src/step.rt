//! The parts of a client's step.

ghost use Rattle.std.specs.Prelude.{◌≡◌, ◌≤◌, [], length, drop, false, true, is_some, None, Some, IfOk};
ghost use Rattle.mud_search.specs.declared.limits.TheConstants.{MOST_WORKERS};
ghost use Rattle.mud_web.specs.Channel.{IfOver};
ghost use Rattle.mud_session.specs.Laws.{NamesSeen};
ghost use Rattle.mud_client.specs.Sayings.{AreReplies};
ghost use Rattle.mud_client.specs.Steps.{MatchEnd, output_of, Says, FeedsLine, LooksFor, IsFedAll, Reports, has_line};
ghost use Rattle.mud_client.specs.inner.Refusal.{IsRefusal};

use crate::client::Client;
use crate::outgoing::{End, Outgoing, Sayings};
use mud_hall::{Hall, HallName};
use mud_journal::Held;
use mud_session::{Seat, SessionFault};
use mud_web::Fault;
use std::sync::Wait;
use std::thread::Threads;

impl<J: HallName> Client<J> {
    // Feeds the first waiting line to the session at the desk, which sees no entry after the `most`-th to answer a
    // question. Returns whether that line has a line end.
    pub(crate) fn feed_line<R: Threads + Wait + Sync>(
        self,
        rt: &R,
        hall: &Hall<J>,
        workers: u32,
        most: u32,
    ) -> Result<(Client<J>, bool), (Client<J>, SessionFault)>
        requires { workers ≤ MOST_WORKERS }
        ensures ok { IfOk result (λ fed. FeedsLine self fed.0) }
        ensures line { IfOk result (λ fed. fed.1 ≡ has_line self.waiting) }
        ensures names { IfOk result (λ fed. self.has_ended ≡ false → ∥ NamesSeen fed.0.session fed.0.desk ∥₁) }
    {
        let Client {
            alloc,
            mut link,
            desk,
            has_ended,
        } = self;
        let parts = &mut *link;
        let end = parts
            .waiting
            .iter()
            .position(|byte| matches!(*byte, b'\r' | b'\n'));
        let count = match end {
            Some(end) => end + 1,
            None => parts.waiting.len(),
        };
        let mut seat = Seat::up_to(hall, desk, workers, most);
        let fed = parts.session.feed(rt, &mut seat, &parts.waiting[..count]);
        drop_front(&mut parts.waiting, count);
        let is_over = parts.session.ended();
        let has_ended = has_ended || is_over;
        let client = Client {
            alloc,
            link,
            desk: seat.into_desk(),
            has_ended,
        };
        match fed {
            Ok(()) => Ok((client, end.is_some())),
            Err(fault) => Err((client, fault)),
        }
    }

    // Feeds all waiting lines to the session, up to an answered `quit`. The output is dropped.
    fn feed_all<R: Threads + Wait + Sync>(
        self,
        rt: &R,
        hall: &Hall<J>,
        workers: u32,
    ) -> Result<Client<J>, (Client<J>, SessionFault)>
        requires workers { workers ≤ MOST_WORKERS }
        requires ended { self.has_ended ≡ true }
        requires open_still { self.session.has_ended ≡ false }
        ensures { IfOk result (IsFedAll self) }
    {
        let mut client = self;
        while !client.link.waiting.is_empty() && !client.link.session.ended() {
            let _ = client.link.session.take_out();
            let (after, _) = client.feed_line(rt, hall, workers, u32::MAX)?;
            client = after;
        }
        Ok(client)
    }

    // Looks for changes of others, but at no entry after the `most`-th.
    pub(crate) fn look(
        self,
        hall: &Hall<J>,
        workers: u32,
        most: u32,
    ) -> Result<Client<J>, (Client<J>, SessionFault)>
        requires workers { workers ≤ MOST_WORKERS }
        requires open_still { self.has_ended ≡ false }
        ensures ok { IfOk result (LooksFor self) }
        ensures names { IfOk result (λ client. ∥ NamesSeen client.session client.desk ∥₁) }
    {
        let Client {
            alloc,
            mut link,
            desk,
            ..
        } = self;
        let mut seat = Seat::up_to(hall, desk, workers, most);
        let parts = &mut *link;
        let looked = parts.session.nudge(&mut seat);
        let client = Client {
            alloc,
            link,
            desk: seat.into_desk(),
            has_ended: looked.is_err(),
        };
        match looked {
            Ok(()) => Ok(client),
            Err(fault) => Err((client, fault)),
        }
    }

    // Ends the step with this output, and the client, if there is a reason.
    pub(crate) fn give(
        self,
        before: usize,
        text: Held<J, Sayings>,
        end: Option<End>,
        has_line: bool,
    ) -> (Client<J>, Outgoing<J>)
        requires { end ≡ None → self.has_ended ≡ false }
        ensures client { result.0 ≡ record self { has_ended = is_some end } }
        ensures text { result.1.text ≡ text }
        ensures end { result.1.end ≡ end }
        ensures line { result.1.has_line ≡ has_line }
        ensures reports { Reports before result.0 (output_of result.1) }
    {
        let mut client = self;
        client.has_ended = end.is_some();
        let outgoing = Outgoing {
            text,
            end,
            has_line,
            has_more: end.is_none() && !client.link.waiting.is_empty(),
            accepted: if client.desk.accepted_count() > before {
                Some(client.desk.seen() as usize)
            } else {
                None
            },
            has_player: client.desk.has_player(),
        };
        (client, outgoing)
    }

    // Ends the step undone, without output.
    pub(crate) fn refuse(self, before: usize, end: End) -> (Client<J>, Outgoing<J>)
        requires { IsRefusal end }
        ensures refused { MatchEnd result.1.end ⊥ (λ error. ⊥) (result.1.text.text.items ≡ []) }
        ensures end { result.1.end ≡ Some end }
        ensures reports { Reports before result.0 (output_of result.1) }
    {
        let nothing = Held::new(Vec::new(self.alloc), 0);
        self.give(before, nothing, Some(end), false)
    }

    // Ends the step with the output of the session. The client ends if the session has.
    pub(crate) fn say(self, before: usize, has_line: bool) -> (Client<J>, Outgoing<J>)
        requires { ∥ NamesSeen self.session self.desk ∥₁ }
        ensures says { MatchEnd result.1.end (Says has_line self result.0 (output_of result.1)) (λ error. ⊥)
            (result.1.text.text.items ≡ []) }
        ensures reports { Reports before result.0 (output_of result.1) }
    {
        let mut client = self;
        let link = &mut *client.link;
        match link
            .framing
            .frame(client.alloc, &mut link.session, &mut link.spare)
        {
            Ok(bytes) => {
                let text = Held::new(bytes, client.desk.seen() as usize);
                let end = if client.has_ended {
                    Some(End::Quit)
                } else {
                    None
                };
                client.give(before, text, end, has_line)
            }
            Err(fault) => client.refuse(before, End::of_sending(fault)),
        }
    }

    // Ends the step after a fault of the channel. If frames ended the connection, the lines typed before are executed
    // without answers, and the replies are the output.
    pub(crate) fn cut_off<R: Threads + Wait + Sync>(
        self,
        rt: &R,
        hall: &Hall<J>,
        workers: u32,
        before: usize,
        replies: Vec<u8>,
        fault: Fault,
    ) -> (Client<J>, Outgoing<J>)
        requires workers { workers ≤ MOST_WORKERS }
        requires ended { self.has_ended ≡ true }
        requires open_still { self.session.has_ended ≡ false }
        requires replies { IfOver fault (λ error. ∥ AreReplies replies.items ∥₁) }
        ensures over { MatchEnd result.1.end ⊥ (λ error. (fault ≡ Fault.Over error)
            × (result.1.text.text.items ≡ replies.items) × IsFedAll self result.0) (result.1.text.text.items ≡ []) }
        ensures reports { Reports before result.0 (output_of result.1) }
    {
        let error = match fault {
            Fault::OutOfMemory => return self.refuse(before, End::OutOfMemory),
            Fault::Ended => return self.refuse(before, End::Earlier),
            Fault::Over(error) => error,
        };
        match self.feed_all(rt, hall, workers) {
            Ok(client) => client.give(before, Held::new(replies, 0), Some(End::Over(error)), false),
            Err((client, fault)) => client.refuse(before, End::of_session(fault)),
        }
    }
}

// Removes the first `count` bytes.
fn drop_front(text: &mut Vec<u8>, count: usize)
    requires { count ≤ length text.old.items }
    ensures { text.new.items ≡ drop count text.old.items }
{
    text.drain(..count);
}
