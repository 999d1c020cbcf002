//! A player at a desk, before and after playing.

ghost use Rattle.std.specs.Prelude.{◌≡◌, length, IfOk};
ghost use Rattle.mud_hall.specs.Desk.{IsNew};
ghost use Rattle.mud_theorems.specs.inner.Played.{HasPlayed};

use crate::transcript::Transcript;
use mud_hall::{Desk, Hall, HallName};
use mud_session::laws::turns;
use mud_session::{Seat, Session};
use std::alloc::{AllocError, Global};
use std::sync::Wait;
use std::thread::Threads;

// The number of threads that a desk's guide has beside its player's.
const WORKERS: u32 = 1;

/// A new desk, and the input for it.
#[derive(Drop)]
pub(crate) struct Player<J: HallName> {
    pub(crate) alloc: Global,
    pub(crate) desk: Desk<J>,
    pub(crate) typed: Vec<u8>,
    ghost new: { ∥ IsNew J.loaded desk.state ∥₁ },
}

/// A desk, with its input and output.
#[derive(Drop)]
pub(crate) struct Played<J: HallName> {
    pub(crate) desk: Desk<J>,
    pub(crate) transcript: Transcript,
    ghost work: { ∥ HasPlayed (length J.cells) J.loaded desk.state transcript ∥₁ },
}

impl<J: HallName> Player<J> {
    /// Makes a player at a desk of the hall.
    pub(crate) fn new(alloc: Global, desk: Desk<J>, typed: Vec<u8>) -> Player<J>
        requires { IsNew J.loaded desk.state }
        ensures { result.typed ≡ typed }
    {
        Player { alloc, desk, typed }
    }

    /// Feeds the whole input to a session at the desk. The only error is out of memory.
    pub(crate) fn play<R: Threads + Wait + Sync>(
        self,
        rt: &R,
        hall: &Hall<J>,
    ) -> Result<Played<J>, AllocError>
        ensures { IfOk result (λ played. played.transcript.typed ≡ self.typed) }
    {
        // for the prover: the law that turns are calls
        turns();
        let Player { alloc, desk, typed } = self;
        let mut session = Session::new(alloc, true)?;
        let mut seat = Seat::new(hall, desk, WORKERS);
        match session.feed(rt, &mut seat, typed.as_slice()) {
            Ok(()) => {}
            Err(_) => return Err(AllocError),
        }
        let sent = session.take_out();
        let transcript = Transcript { typed, sent };
        let desk = seat.into_desk();
        Ok(Played { desk, transcript })
    }
}
