//! Players and rooms that a keeper's words mean.

ghost use Rattle.std.specs.Prelude.{◌≡◌, ℕ, MatchOption, IfOk, IfErr, map, filter};
ghost use Rattle.std.specs.List.{range_with_len};
ghost use Rattle.mud_survey.specs.Answer.{MeansPlayer, MeansRoom, IsParty};
ghost use Rattle.mud_survey.specs.inner.Meant.{AreMeant, IsUnmeant, is_in};

use mud_rules::{player_match, room_match};
use mud_world::World;
use std::alloc::{AllocError, AllocFailed, Global};

// The player for whom `me` and `here` stand in a keeper's word.
const WIZARD: u32 = 1;

/// Returns the player that a word means.
pub(crate) fn player_meant(world: &World, word: &str) -> Option<u32>
    ensures { MatchOption result ((p : ℕ) → MeansPlayer world.now word.now p → ⊥) (MeansPlayer world.now word.now) }
{
    match player_match(world, WIZARD, word) {
        Ok(player) => {
            if world.is_player(player) {
                Some(player)
            } else {
                None
            }
        }
        Err(_) => None,
    }
}

/// Returns the room that a word means.
pub(crate) fn room_meant(world: &World, word: &str) -> Option<u32>
    ensures { MatchOption result ((room : ℕ) → MeansRoom world.now word.now room → ⊥) (MeansRoom world.now word.now) }
{
    match room_match(world, WIZARD, word) {
        Ok(room) => {
            if world.is_room(room) {
                Some(room)
            } else {
                None
            }
        }
        Err(_) => None,
    }
}

/// The reason why words mean no players.
#[derive(Debug, Drop)]
pub(crate) enum Unmeant {
    /// An allocation failed.
    OutOfMemory,
    /// The word at this place, counted from 0, means no player.
    NoPlayer(usize),
}

impl From<AllocError> for Unmeant {
    ghost use Rattle.std.specs.Prelude.{◌≡◌};
    ghost use Rattle.mud_survey.specs.declared.party.Unmeant.TheVariants.{OutOfMemory};

    ghost from_gives = { λ _ e. e ≡ OutOfMemory };

    fn from(_e: AllocError) -> Unmeant {
        Unmeant::OutOfMemory
    }
}

impl<T: Drop> From<AllocFailed<T>> for Unmeant {
    ghost use Rattle.std.specs.Prelude.{◌≡◌};
    ghost use Rattle.mud_survey.specs.declared.party.Unmeant.TheVariants.{OutOfMemory};

    ghost from_gives = { λ _ e. e ≡ OutOfMemory };

    fn from(_e: AllocFailed<T>) -> Unmeant {
        Unmeant::OutOfMemory
    }
}

// Returns the players that the words mean, in order.
fn players_meant(alloc: Global, world: &World, words: &[&str]) -> Result<Vec<u32>, Unmeant>
    ensures ok { IfOk result (λ ps. AreMeant world.now (map (λ s. s.now) words.now) ps.items) }
    ensures err { IfErr result (IsUnmeant world.now (map (λ s. s.now) words.now)) }
{
    let mut players = Vec::new(alloc);
    for (i, word) in words.iter().enumerate() {
        match player_meant(world, word) {
            Some(player) => players.push(player)?,
            None => return Err(Unmeant::NoPlayer(i)),
        }
    }
    Ok(players)
}

// Returns whether it is a player, and one of the meant ones if there are some.
fn is_in(world: &World, meant: &[u32], number: u32) -> bool
    ensures { result ≡ is_in world.now meant.now number }
{
    world.is_player(number) && (meant.is_empty() || meant.contains(&number))
}

// Returns those of the players of the world that are meant, by rising number; all, if none is meant.
fn members(alloc: Global, world: &World, meant: &[u32]) -> Result<Vec<u32>, AllocError>
    ensures { IfOk result (λ found. found.items
        ≡ filter (is_in world.now meant.now) (range_with_len 0 world.now.next)) }
{
    (0..world.next_number())
        .filter(|number| is_in(world, meant, *number))
        .collect(alloc)
}

/// Returns the players that the words mean, by rising number, or all players of the world if there is no word.
pub(crate) fn party_of(alloc: Global, world: &World, words: &[&str]) -> Result<Vec<u32>, Unmeant>
    ensures ok { IfOk result (λ ps. IsParty world.now (map (λ s. s.now) words.now) ps.items) }
    ensures err { IfErr result (IsUnmeant world.now (map (λ s. s.now) words.now)) }
{
    // for the prover: `next_number` shows that the world is sound
    let _known = world.next_number();
    let meant = match players_meant(alloc, world, words) {
        Ok(meant) => meant,
        Err(reason) => return Err(reason),
    };
    let party = members(alloc, world, &meant)?;
    Ok(party)
}
