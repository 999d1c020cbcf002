//! A connection while it is served.

ghost use Rattle.std.specs.Prelude.{◌≡◌, ◌≤◌, [], length, true, false, Some, MatchResult, IfOk, IfErr};
ghost use Rattle.mud_hall.specs.Desk.{IsNew};
ghost use Rattle.mud_client.specs.declared.outgoing.End.TheVariants.{Quit};
ghost use Rattle.mud_client.specs.Steps.{IfDone};
ghost use Rattle.mud_theorems.specs.inner.Talking.{IsTalking, IsQuiet, IsOver, WasServed};
ghost use Rattle.mud_theorems.specs.inner.Stepped.{MatchStep};

use crate::durable::{Cell, Durable, Room};
use crate::keeper::Keeper;
use crate::peer::{Arrival, Peer};
use crate::step::Step;
use mud_client::{Client, End, Framing, Outgoing, Sayings};
use mud_hall::{Desk, Hall, HallName};
use mud_journal::{Appends, Held};
use std::alloc::{AllocError, Global};
use std::sync::{Mutex, Wait};
use std::thread::Threads;

// The number of threads that a desk's guide has beside its connection's.
const WORKERS: u32 = 1;

// The number of bytes that are received at once.
const PIECE: usize = 512;

/// The hall, the cell, and the journal under its lock, which all connections share.
#[derive(Drop)]
pub(crate) struct Shared<J: HallName, D: Appends + Drop, B: Room> {
    pub(crate) hall: Hall<J>,
    pub(crate) cell: Cell,
    pub(crate) keeper: Mutex<Keeper<J, D, B>>,
    ghost table: { cell.table.shared.table_id ≡ B.table },
}

impl<J: HallName, D: Appends + Drop, B: Room> Shared<J, D, B> {
    // Returns a proof that this many entries are durable, and those of the earlier proof. The error is the earlier one:
    // the journal has failed.
    fn durable_for<R: Wait>(
        &self,
        rt: &R,
        told: Durable<J, B>,
        version: usize,
    ) -> Result<Durable<J, B>, Durable<J, B>>
        ensures ok { IfOk result (λ d. (version ≤ d) × (told ≤ d)) }
        ensures err { IfErr result (λ d. d ≡ told) }
    {
        if version <= told.up_to() {
            return Ok(told);
        }
        let mut keeper = self.keeper.lock(rt);
        match keeper.wait_for(rt, &self.cell, &self.hall, version) {
            Some(more) => Ok(more),
            None => Err(told),
        }
    }
}

/// A connection between two steps: all output was returned and sent, unless it has more to say.
#[derive(Drop)]
pub(crate) struct Talk<J: HallName, P: Peer + Drop, B: Room> {
    pub(crate) client: Client<J>,
    pub(crate) peer: P,
    pub(crate) told: Durable<J, B>,
    // True if the greeting was not sent, or lines wait.
    pub(crate) has_more: bool,
    ghost talks: { ∥ IsTalking (length J.cells) J.loaded (P.traffic peer) told client [] [] ∥₁ },
    ghost rests: { ∥ (has_more ≡ false → (client.session.out ≡ []) × (client.waiting ≡ [])) ∥₁ },
}

/// A connection that is over, with its desk. It is cut off if the journal failed before its last text was sent.
#[derive(Drop)]
pub(crate) struct Line<J: HallName, P: Peer + Drop, B: Room> {
    pub(crate) desk: Desk<J>,
    pub(crate) peer: P,
    pub(crate) told: Durable<J, B>,
    pub(crate) is_cut: bool,
    ghost served: { ∥ WasServed (length J.cells) J.loaded (P.traffic peer) told is_cut desk.state ∥₁ },
}

impl<J: HallName, P: Peer + Drop, B: Room> Line<J, P, B> {
    // Ends a connection. Its desk becomes a guest's again.
    fn new(client: Client<J>, peer: P, told: Durable<J, B>, is_cut: bool) -> Line<J, P, B>
        requires { ∥ IsOver (length J.cells) J.loaded (P.traffic peer) told is_cut client ∥₁ }
        ensures { P.name result.peer ≡ P.name peer }
    {
        Line {
            desk: client.into_desk(),
            peer,
            told,
            is_cut,
        }
    }
}

impl<J: HallName, P: Peer + Drop, B: Room> Talk<J, P, B> {
    /// Begins a connection at a new desk.
    pub(crate) fn new(
        alloc: Global,
        desk: Desk<J>,
        arrival: Arrival<P>,
        told: Durable<J, B>,
    ) -> Result<Talk<J, P, B>, AllocError>
        requires { IsNew J.loaded desk.state }
        ensures { IfOk result (λ talk. P.name talk.peer ≡ P.name arrival.peer) }
    {
        let Arrival { peer } = arrival;
        match Client::new(alloc, Framing::Telnet, desk) {
            Ok(client) => Ok(Talk {
                client,
                peer,
                told,
                has_more: true,
            }),
            Err(_) => Err(AllocError),
        }
    }

    // Sends a text once the versions that it can name are durable.
    fn send<D: Appends + Drop, R: Wait>(
        rt: &R,
        shared: &Shared<J, D, B>,
        client: Client<J>,
        peer: P,
        told: Durable<J, B>,
        text: Held<J, Sayings>,
        has_more: bool,
    ) -> Result<Talk<J, P, B>, Line<J, P, B>>
        requires talks { ∥ IsTalking (length J.cells) J.loaded (P.traffic peer) told client [] text.text.items ∥₁ }
        requires rests { ∥ (has_more ≡ false → (client.session.out ≡ []) × (client.waiting ≡ [])) ∥₁ }
        ensures name { MatchResult result (λ talk. P.name talk.peer ≡ P.name peer)
            (λ line. P.name line.peer ≡ P.name peer) }
        ensures client { IfOk result (λ talk. talk.client ≡ client) }
    {
        if text.is_empty() {
            return Ok(Talk {
                client,
                peer,
                told,
                has_more,
            });
        }
        let told = match shared.durable_for(rt, told, text.version()) {
            Ok(told) => told,
            Err(told) => return Err(Line::new(client, peer, told, true)),
        };
        let mut peer = peer;
        let bytes = text.open(&told.receipt);
        if peer.send(&bytes) {
            Ok(Talk {
                client,
                peer,
                told,
                has_more,
            })
        } else {
            Err(Line::new(client, peer, told, false))
        }
    }

    // Sends the output of a step, and ends the connection if the client has ended.
    fn tell<D: Appends + Drop, R: Wait>(
        rt: &R,
        shared: &Shared<J, D, B>,
        client: Client<J>,
        peer: P,
        told: Durable<J, B>,
        outgoing: Outgoing<J>,
    ) -> Step<Talk<J, P, B>, Line<J, P, B>>
        requires talks { IfDone outgoing.end (∥ IsTalking (length J.cells) J.loaded (P.traffic peer) told client []
            outgoing.text.text.items ∥₁) }
        requires rests { IfDone outgoing.end (∥ IsQuiet client outgoing.end outgoing.has_more ∥₁) }
        ensures { MatchStep (λ talk. P.name talk.peer ≡ P.name peer) (λ line. P.name line.peer ≡ P.name peer) result }
    {
        let Outgoing {
            text,
            end,
            has_more,
            ..
        } = outgoing;
        match end {
            None => match Talk::send(rt, shared, client, peer, told, text, has_more) {
                Ok(talk) => Step::Goes(talk),
                Err(line) => Step::Ends(line),
            },
            Some(reason) => match reason {
                End::Quit => match Talk::send(rt, shared, client, peer, told, text, true) {
                    Ok(talk) => Step::Ends(talk.over()),
                    Err(line) => Step::Ends(line),
                },
                _ => Step::Fails,
            },
        }
    }

    // Ends the connection after the answer to `quit`.
    fn over(self) -> Line<J, P, B>
        requires { ∥ (self.client.session.has_ended ≡ true) × (self.client.session.out ≡ []) ∥₁ }
        ensures { P.name result.peer ≡ P.name self.peer }
    {
        let Talk {
            client,
            peer,
            told,
            ..
        } = self;
        Line::new(client, peer, told, false)
    }

    // Feeds the last bytes that came, or none if it has more to say, and sends the answer to one line.
    fn feed<D: Appends + Drop, R: Threads + Wait + Sync>(
        rt: &R,
        shared: &Shared<J, D, B>,
        client: Client<J>,
        peer: P,
        told: Durable<J, B>,
        bytes: &[u8],
    ) -> Step<Talk<J, P, B>, Line<J, P, B>>
        requires { ∥ IsTalking (length J.cells) J.loaded (P.traffic peer) told client bytes.now [] ∥₁ }
        ensures { MatchStep (λ talk. P.name talk.peer ≡ P.name peer) (λ line. P.name line.peer ≡ P.name peer) result }
    {
        let (client, outgoing) = client.feed(rt, &shared.hall, WORKERS, u32::MAX, bytes);
        Talk::tell(rt, shared, client, peer, told, outgoing)
    }

    // Sends the changes of others.
    fn look<D: Appends + Drop, R: Wait>(
        self,
        rt: &R,
        shared: &Shared<J, D, B>,
    ) -> Step<Talk<J, P, B>, Line<J, P, B>>
        ensures { MatchStep (λ talk. P.name talk.peer ≡ P.name self.peer)
            (λ line. P.name line.peer ≡ P.name self.peer) result }
    {
        let Talk {
            client,
            peer,
            told,
            ..
        } = self;
        let (client, outgoing) = client.nudge(&shared.hall, WORKERS, u32::MAX);
        Talk::tell(rt, shared, client, peer, told, outgoing)
    }

    // Waits for bytes, and answers their first line.
    fn hear<D: Appends + Drop, R: Threads + Wait + Sync>(
        self,
        rt: &R,
        shared: &Shared<J, D, B>,
    ) -> Step<Talk<J, P, B>, Line<J, P, B>>
        requires { self.has_more ≡ false }
        ensures { MatchStep (λ talk. P.name talk.peer ≡ P.name self.peer)
            (λ line. P.name line.peer ≡ P.name self.peer) result }
    {
        let Talk {
            client,
            mut peer,
            told,
            ..
        } = self;
        let mut buffer = [0u8; PIECE];
        match peer.receive(&mut buffer) {
            Some(count) => Talk::feed(rt, shared, client, peer, told, &buffer[..count]),
            None => Step::Ends(Line::new(client, peer, told, false)),
        }
    }

    // Makes one step: the answer to a line that waits; or the answer to the next line, and then the changes of others.
    fn step<D: Appends + Drop, R: Threads + Wait + Sync>(
        self,
        rt: &R,
        shared: &Shared<J, D, B>,
    ) -> Step<Talk<J, P, B>, Line<J, P, B>>
        ensures { MatchStep (λ talk. P.name talk.peer ≡ P.name self.peer)
            (λ line. P.name line.peer ≡ P.name self.peer) result }
    {
        if self.has_more {
            let Talk {
                client,
                peer,
                told,
                ..
            } = self;
            return Talk::feed(rt, shared, client, peer, told, &[]);
        }
        match self.hear(rt, shared) {
            Step::Goes(talk) => talk.look(rt, shared),
            other => other,
        }
    }

    /// Serves the connection until its player has typed `quit`, no more bytes come, the peer takes no more, or the
    /// journal has failed. The only error is out of memory.
    pub(crate) fn serve<D: Appends + Drop, R: Threads + Wait + Sync>(
        self,
        rt: &R,
        shared: &Shared<J, D, B>,
    ) -> Result<Line<J, P, B>, AllocError>
        ensures { IfOk result (λ line. P.name line.peer ≡ P.name self.peer) }
    {
        let mut talk = self;
        for _ in rt.forever() {
            match talk.step(rt, shared) {
                Step::Goes(next) => talk = next,
                Step::Ends(line) => return Ok(line),
                Step::Fails => return Err(AllocError),
            }
        }
        unreachable!()
    }
}
