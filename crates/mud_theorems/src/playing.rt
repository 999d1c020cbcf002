//! Players who type at once.

ghost use Rattle.std.specs.Prelude.{◌≡◌, length, map, IfOk};
ghost use Rattle.mud_theorems.specs.Transcripts.{ArePlayed};

use crate::fault::PlayFault;
use crate::gathering::{AtHall, play_all, seat_all, take_apart};
use crate::laws::one_run;
use crate::played::{Played, Player};
use crate::transcript::Transcript;
use mud_hall::{Hall, HallName, Settled};
use std::alloc::Global;
use std::sync::Wait;
use std::thread::Threads;

/// Plays all scripts at once: each at a new desk of the hall, with a session of its own, in a thread of its own. Then
/// it settles the hall. One run of the hall ends with the returned history. Each transcript, in the order of the
/// scripts, is the part of one desk in this run. So each line of a script had its turn, once and in order, and the
/// output is the answers of this run.
///
/// After a fault the hall and its desks are gone. `DesksFull` comes if the hall has no desk left, and `Close` if
/// another caller has a desk of it.
pub fn play_together<J: HallName + Send + Sync, R: Threads + Wait + Sync>(
    rt: &R,
    alloc: Global,
    hall: Hall<J>,
    scripts: Vec<Vec<u8>>,
) -> Result<(Settled, Vec<Transcript>), PlayFault>
    ensures typed { IfOk result (λ r. map (λ t. t.typed.items) r.1.items ≡ map (λ s. s.items) scripts.items) }
    ensures run { IfOk result (λ r. ∥ ArePlayed (length J.cells) J.loaded r.0.history r.1.items ∥₁) }
{
    let players = seat_all(rt, alloc, &hall, scripts)?;
    let all = play_all::<Hall<J>, Player<J>, Played<J>, AtHall<J>, R>(rt, alloc, &hall, players)?;
    let (desks, transcripts) = take_apart(alloc, all)?;
    // for the prover: the law that the calls at settled desks are one run
    one_run();
    match hall.close(rt, desks) {
        Ok(settled) => Ok((settled, transcripts)),
        Err((_, _, fault)) => Err(fault.into()),
    }
}
