//! Reads the head of a browser's request, and answers it.

ghost use Rattle.std.specs.Prelude.{◌≡◌, true, IfOk, OnOk, Option, List, ℕ};
ghost use Rattle.std.specs.Io.KnownBytes.{Consumes};
ghost use Rattle.websocket.specs.Headers.{is_graphic_text};
ghost use Rattle.mud_web.specs.Request.{LetsIn};
ghost use Rattle.mud_web.specs.Request.{IfPlay};
ghost use Rattle.mud_socket.specs.Entrance.{WasLetIn};
ghost use Rattle.mud_socket.specs.inner.Player.{IsPlaying, ReadsMore};

use crate::parting::Parting;
use crate::patience::Patience;
use crate::socket::Socket;
use crate::time::now;
use mud_web::{Asked, Body, Refusal, asks, write_accept};
use std::alloc::{AllocError, Global};
use std::io::{self, ErrorKind, Read};
use std::sync::Wait;
use std::time::Clock;

/// The number of seconds that a browser has for the head of its request.
pub const HEAD_SECONDS: u32 = 10;

const PIECE_LEN: usize = 4096;

/// The result of reading a request's head.
#[derive(Drop)]
pub enum Heard {
    /// The request is for the page, with its body or without.
    Page(Body),
    /// The request is for a web socket to play over.
    Play {
        /// The answer, which precedes the first frame (RFC 6455, section 4.2.2).
        answer: Vec<u8>,
        /// The bytes after the head: frames.
        rest: Vec<u8>,
    },
    /// The request is refused, or was too slow. The second part says whether the answer has a body.
    Refused(Refusal, Body),
    /// The other side left, or an allocation failed.
    Gone,
}

/// Reads a browser's socket until its time for a head is over; then a read times out.
#[derive(Drop)]
pub struct HeadReader<'a, C> {
    clock: &'a C,
    socket: &'a Socket,
    patience: Patience,
}

impl<'a, C: Clock> HeadReader<'a, C> {
    /// Returns a reader whose time begins now.
    pub fn new(clock: &'a C, socket: &'a Socket) -> HeadReader<'a, C> {
        HeadReader {
            clock,
            socket,
            patience: Patience::new(0, HEAD_SECONDS, now(clock)),
        }
    }
}

impl<'a, C: Clock> Read for HeadReader<'a, C> {
    fn read(&mut self, buf: &mut [u8]) -> io::Result<usize> {
        match self.socket.read(self.clock, &self.patience, buf) {
            Ok(0) => Err(ErrorKind::Interrupted.into()),
            Ok(count) => Ok(count),
            Err(Parting::Unnamed) => Err(ErrorKind::TimedOut.into()),
            Err(_) => Ok(0),
        }
    }
}

// The reason why a head stays incomplete.
#[derive(Clone, Copy)]
enum Missed {
    // The time is over.
    TooLate,
    // The other side left, or an allocation failed.
    Left,
}

/// Reads the head of a browser's request, up to the end of the source or a timeout. `origin` is the origin of the
/// server's page. A browser that may play sent a head that is admitted.
pub fn hear<R: Wait, S: Read>(rt: &R, alloc: Global, source: &mut S, origin: &[u8]) -> Heard
    ensures { WasLetIn result (S.remaining source.old) (S.remaining source.new) origin.now }
{
    let mut head = Vec::new(alloc);
    for _ in rt.forever() {
        let asked = asks(&head, origin);
        if !matches!(asked, Asked::More) {
            return asked_for(alloc, &head, origin, asked);
        }
        match read_more(source, &mut head) {
            Ok(()) => {}
            Err(Missed::TooLate) => {
                return Heard::Refused(Refusal::RequestTimeout, Body::of(&head));
            }
            Err(Missed::Left) => return Heard::Gone,
        }
    }
    unreachable!()
}

// Appends the bytes of the next read.
fn read_more<S: Read>(source: &mut S, head: &mut Vec<u8>) -> Result<(), Missed>
    ensures { OnOk result (ReadsMore (S.remaining source.old) (S.remaining source.new) head.old.items
        head.new.items) }
{
    let mut piece = [0u8; PIECE_LEN];
    match source.read(&mut piece) {
        Ok(0) => Err(Missed::Left),
        Ok(count) => match head.extend_from_slice(&piece[..count]) {
            Ok(()) => Ok(()),
            Err(_) => Err(Missed::Left),
        },
        Err(error) if error.kind() == ErrorKind::Interrupted => Ok(()),
        Err(error) if error.kind() == ErrorKind::TimedOut => Err(Missed::TooLate),
        Err(_) => Err(Missed::Left),
    }
}

// Returns the result for these bytes.
fn asked_for(alloc: Global, head: &[u8], origin: &[u8], asked: Asked) -> Heard
    requires lets_in { LetsIn head.now origin.now asked }
    requires graphic { IfPlay asked (λ accept. is_graphic_text accept ≡ true) }
    ensures { (before after : Option (List ℕ)) → Consumes before after head.now
        → WasLetIn result before after origin.now }
{
    match asked {
        Asked::Page => Heard::Page(Body::of(head)),
        Asked::Play { accept, len } => match let_in(alloc, &accept, &head[len..]) {
            Ok(heard) => heard,
            Err(_) => Heard::Gone,
        },
        Asked::Refused(refusal) => Heard::Refused(refusal, Body::of(head)),
        Asked::More => Heard::Gone,
    }
}

// Returns the result for a browser that may play: the answer to its key, and the bytes after its head.
fn let_in(alloc: Global, accept: &[u8; 28], rest: &[u8]) -> Result<Heard, AllocError>
    requires { is_graphic_text accept.now ≡ true }
    ensures { IfOk result (λ heard. IsPlaying heard accept.now rest.now) }
{
    let mut answer = Vec::new(alloc);
    write_accept(accept, &mut answer)?;
    let mut behind = Vec::new(alloc);
    behind.extend_from_slice(rest)?;
    Ok(Heard::Play {
        answer,
        rest: behind,
    })
}

/// Refuses a request at a server whose page has this origin, and ends the connection.
pub fn refuse<R: Wait + Clock>(
    rt: &R,
    alloc: Global,
    socket: &Socket,
    origin: &[u8],
    refusal: Refusal,
    body: Body,
) {
    let mut answer = Vec::new(alloc);
    match refusal.write(origin, body, &mut answer) {
        Ok(()) => socket.answer(rt, &answer),
        Err(_) => socket.shut(),
    }
}
