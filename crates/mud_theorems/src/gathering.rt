//! Players in threads of their own, and their results.

ghost use Rattle.std.specs.Prelude.{◌≡◌, length, map, IfOk, Ok};
ghost use Rattle.std.specs.List.{AllZip};
ghost use Rattle.std.specs.Thread.{IsSync};
ghost use Rattle.mud_theorems.specs.inner.Played.{HasPlayed};

use crate::fault::PlayFault;
use crate::played::{Played, Player};
use crate::transcript::Transcript;
use mud_hall::{Desk, Hall, HallName};
use std::alloc::{AllocError, Global};
use std::marker::PhantomData;
use std::sync::Wait;
use std::thread;
use std::thread::Threads;

/// Makes a player for each script, at a new desk of the hall.
pub(crate) fn seat_all<J: HallName, R: Wait>(
    rt: &R,
    alloc: Global,
    hall: &Hall<J>,
    scripts: Vec<Vec<u8>>,
) -> Result<Vec<Player<J>>, PlayFault>
    ensures { IfOk result (λ players. map (λ p. p.typed) players.items ≡ scripts.items) }
{
    let mut players = Vec::new(alloc);
    for script in scripts {
        let desk = hall.desk(rt)?;
        players.push(Player::new(alloc, desk, script))?;
    }
    Ok(players)
}

/// The work of a thread with a hall and a player of any types, and the player's input. So the prover need not look into
/// these types at the start of threads.
pub(crate) trait Plays<H, P, C> {
    ghost use Rattle.std.specs.Prelude.{◌≡◌, ℕ, List, IfOk};
    ghost use Rattle.std.specs.Thread.{IsSync};

    ghost to_type: { P → List ℕ };

    ghost typed: { C → List ℕ };

    fn play<R: Threads + Wait + Sync>(rt: &R, hall: &H, player: P) -> Result<C, AllocError>
        requires { IsSync R.row }
        ensures { IfOk result (λ played. typed played ≡ to_type player) };
}

/// The work of a thread with the hall that `J` names.
#[derive(Drop)]
pub(crate) struct AtHall<J: HallName> {
    of: PhantomData<J>,
}

impl<J: HallName> Plays<Hall<J>, Player<J>, Played<J>> for AtHall<J> {
    ghost to_type = { λ player. player.typed.items };

    ghost typed = { λ played. played.transcript.typed.items };

    fn play<R: Threads + Wait + Sync>(
        rt: &R,
        hall: &Hall<J>,
        player: Player<J>,
    ) -> Result<Played<J>, AllocError> {
        player.play(rt, hall)
    }
}

/// Lets each player play, in a thread of its own.
pub(crate) fn play_all<
    H: Sync,
    P: Send + Drop,
    C: Send + Drop,
    K: Plays<H, P, C> + Send + Sync,
    R: Threads + Wait + Sync,
>(rt: &R, alloc: Global, hall: &H, players: Vec<P>) -> Result<Vec<C>, AllocError>
    ensures { IfOk result (λ all. map K.typed all.items ≡ map K.to_type players.items) }
{
    let play = |player: P| -> Result<C, AllocError>
        requires { IsSync R.row }
        ensures { IfOk result (λ played. K.typed played ≡ K.to_type player) }
    { K::play(rt, hall, player) };
    all_of(alloc, thread::map_vec(rt, players, &play)?)
}

// Returns the values of these results, or the first error.
fn all_of<C: Drop>(alloc: Global, results: Vec<Result<C, AllocError>>) -> Result<Vec<C>, AllocError>
    ensures { IfOk result (λ all. results.items ≡ map Ok all.items) }
{
    let mut all = Vec::new(alloc);
    for result in results {
        all.push(result?)?;
    }
    Ok(all)
}

/// Returns the desks of the players, and the input and output of each.
pub(crate) fn take_apart<J: HallName>(
    alloc: Global,
    all: Vec<Played<J>>,
) -> Result<(Vec<Desk<J>>, Vec<Transcript>), AllocError>
    ensures transcripts { IfOk result (λ r. r.1.items ≡ map (λ played. played.transcript) all.items) }
    ensures played { IfOk result (λ r. ∥ AllZip (λ desk t. HasPlayed (length J.cells) J.loaded desk.state t)
        r.0.items r.1.items ∥₁) }
{
    let mut desks = Vec::new(alloc);
    let mut transcripts = Vec::new(alloc);
    for played in all {
        let Played { desk, transcript } = played;
        desks.push(desk)?;
        transcripts.push(transcript)?;
    }
    Ok((desks, transcripts))
}
