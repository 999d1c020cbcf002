//! Leaves changes out of the history of a text.

ghost use Rattle.std.specs.Prelude.{◌≡◌, ◌≤◌, ◌<◌, ◌⊎◌, ℕ, length, All, MatchBool, MatchOption, option_copied, IfOk};
ghost use Rattle.std.specs.Prelude.{IfErr, string_bytes};
ghost use Rattle.mud_world.specs.declared.limits.TheConstants.{MOST_ENTRIES};
ghost use Rattle.mud_world.specs.History.{world_of};
ghost use Rattle.mud_chron.specs.Replay.{changes_of, AreLegal};
ghost use Rattle.mud_compact.specs.Answer.{KeepsLegal, KeepsNoWorld};
ghost use Rattle.mud_diff.specs.Answer.{IsDiffText};
ghost use Rattle.mud_undo.specs.Answer.{MeansVersions, MeansPlayer, MeansSince, IsUndoneText};
ghost use Rattle.mud_undo.specs.Answer.{IsUndoneOf, IsNoUndo, HasNoUndo};

use crate::choice::Choice;
use crate::fault::UndoFault;
use crate::leaving::without;
use mud_chron::{ChronFault, Entry, replay, write_history};
use mud_compact::{KeptFault, TextKind, read_kept};
use mud_diff::{Comparison, compare};
use mud_rules::player_match;
use mud_world::World;
use mud_world::limits::MOST_ENTRIES;
use std::alloc::{AllocError, Global};

// The player for whom `me` and `here` stand in a keeper's word.
const WIZARD: u32 = 1;

/// The reason why nothing is left out.
#[derive(Debug, Drop)]
pub enum NoUndo {
    /// The text has no world, or an allocation failed.
    History(KeptFault),
    /// The history has no change of this version; the second number is the count of its changes.
    NoChange(u32, usize),
    /// The word means no player.
    NoPlayer,
    /// The change of this version is the first that is illegal without the chosen changes.
    StandsOn(u32),
    /// The rest has more than 65,536 changes.
    TooLong,
}

impl From<AllocError> for NoUndo {
    ghost use Rattle.std.specs.Prelude.{◌≡◌};
    ghost use Rattle.mud_chron.specs.declared.fault.ChronFault.TheVariants.{OutOfMemory};
    ghost use Rattle.mud_compact.specs.declared.fault.KeptFault.TheVariants.{Text};
    ghost use Rattle.mud_undo.specs.declared.answering.NoUndo.TheVariants.{History};

    ghost from_gives = { λ _ e. e ≡ History (Text OutOfMemory) };

    fn from(_e: AllocError) -> NoUndo {
        NoUndo::History(KeptFault::Text(ChronFault::OutOfMemory))
    }
}

/// A history without some of its changes.
#[derive(Drop)]
pub struct Undone {
    /// Its text, in format 2.
    pub text: String,
    /// The differences of the whole history's world and its own.
    pub told: String,
    /// The number of torn bytes at the end of a journal; `None` for a history.
    pub torn: Option<usize>,
    /// The number of changes before.
    pub before: usize,
    /// The number of changes after.
    pub after: usize,
}

// The contents of a text: legal entries, their world, and the number of torn bytes.
#[derive(Drop)]
struct Whole {
    entries: Vec<Entry>,
    world: World,
    torn: Option<usize>,
}

// Returns the contents of the bytes.
fn whole_of(alloc: Global, kind: TextKind, bytes: &[u8]) -> Result<Whole, KeptFault>
    ensures keeps { IfOk result (λ w. KeepsLegal kind bytes.now w.torn w.entries.items) }
    ensures world { IfOk result (λ w. w.world ≡ world_of (changes_of w.entries.items)) }
    ensures few { IfOk result (λ w. length w.entries.items ≤ MOST_ENTRIES) }
    ensures err { IfErr result (KeepsNoWorld kind bytes.now) }
{
    let kept = read_kept(alloc, kind, bytes)?;
    let world = replay(alloc, &kept.entries)?;
    Ok(Whole {
        entries: kept.entries,
        world,
        torn: kept.torn,
    })
}

// Returns the world of legal entries.
fn world_of(alloc: Global, entries: &[Entry]) -> Result<World, AllocError>
    requires { AreLegal (changes_of entries.now) }
    ensures { IfOk result (λ w. w ≡ world_of (changes_of entries.now)) }
{
    match replay(alloc, entries) {
        Ok(world) => Ok(world),
        Err(_) => Err(AllocError),
    }
}

// Returns the differences of this world and that of the rest.
fn told_of(alloc: Global, world: &World, left: &[Entry]) -> Result<Comparison, AllocError>
    requires { AreLegal (changes_of left.now) }
    ensures { IfOk result (λ c. IsDiffText world.now (world_of (changes_of left.now)) (string_bytes c.text) c.is_same) }
{
    let other = world_of(alloc, left)?;
    compare(alloc, world, &other)
}

// Returns the history without the chosen changes.
fn undo(alloc: Global, whole: &Whole, choice: &Choice) -> Result<Undone, NoUndo>
    requires legal { AreLegal (changes_of whole.now.entries.items) }
    requires world { whole.now.world ≡ world_of (changes_of whole.now.entries.items) }
    requires few { length whole.now.entries.items ≤ MOST_ENTRIES }
    ensures ok { IfOk result (λ u. IsUndoneText choice.now whole.now.entries.items (string_bytes u.text)
        (string_bytes u.told) u.before u.after) }
    ensures torn { IfOk result (λ u. u.torn ≡ whole.now.torn) }
    ensures err { IfErr result (IsNoUndo whole.now.entries.items (λ c. c ≡ choice.now)) }
{
    let left = match without(alloc, choice, &whole.entries) {
        Ok(left) => left,
        Err(UndoFault::OutOfMemory) => return Err(NoUndo::from(AllocError)),
        Err(UndoFault::StandsOn(version)) => return Err(NoUndo::StandsOn(version)),
    };
    if left.len() > MOST_ENTRIES {
        return Err(NoUndo::TooLong);
    }
    let mut text = String::new(alloc);
    write_history(alloc, &left, &mut text)?;
    let told = told_of(alloc, &whole.world, &left)?;
    Ok(Undone {
        text,
        told: told.text,
        torn: whole.torn,
        before: whole.entries.len(),
        after: left.len(),
    })
}

// Returns whether a history with `count` changes has the version.
fn has_version(version: u32, count: usize) -> bool
    ensures { MatchBool result ((1 ≤ version) × (version ≤ count)) ((version ≡ 0) ⊎ (count < version)) }
{
    if version == 0 {
        return false;
    }
    if version as usize > count {
        return false;
    }
    true
}

// Returns the first of the versions beyond a history with `count` changes.
fn first_missing(versions: &[u32], count: usize) -> Option<u32>
    ensures { MatchOption result (All (λ v. (1 ≤ v) × (v ≤ count)) versions.now)
        (λ v. ((v ≡ 0) ⊎ (count < v)) × (All (λ v. (1 ≤ v) × (v ≤ count)) versions.now → ⊥)) }
{
    for version in versions {
        if !has_version(*version, count) {
            return Some(*version);
        }
    }
    None
}

/// Returns the history of a text without the changes of these versions, counted from 1 (docs/KEEPING.md, "Without").
/// All other changes stay as they are, and objects keep their numbers. A text without a world, a version that it does
/// not have, and a change that is illegal without the others have a fault. The only other error is out of memory.
pub fn without_changes(
    alloc: Global,
    kind: TextKind,
    bytes: &[u8],
    versions: Vec<u32>,
) -> Result<Undone, NoUndo>
    ensures ok { IfOk result (λ u. IsUndoneOf kind bytes.now (MeansVersions versions.items) (string_bytes u.text)
        (string_bytes u.told) u.torn u.before u.after) }
    ensures err { IfErr result (HasNoUndo kind bytes.now (MeansVersions versions.items)) }
{
    let whole = match whole_of(alloc, kind, bytes) {
        Ok(whole) => whole,
        Err(fault) => return Err(NoUndo::History(fault)),
    };
    if let Some(version) = first_missing(&versions, whole.entries.len()) {
        return Err(NoUndo::NoChange(version, whole.entries.len()));
    }
    undo(alloc, &whole, &Choice::Versions(versions))
}

// Returns the player that a word means.
fn player_of(world: &World, word: &str) -> Option<u32>
    ensures { MatchOption result ((p : ℕ) → MeansPlayer world.now word.now p → ⊥) (MeansPlayer world.now word.now) }
{
    match player_match(world, WIZARD, word) {
        Ok(player) => {
            if world.is_player(player) {
                Some(player)
            } else {
                None
            }
        }
        Err(_) => None,
    }
}

/// Returns the history of a text without the changes of a player from a version on, or without all changes from there
/// on if there is no word. The word means a player of the last world, as in `meet` (docs/COMMANDS.md); `me` is #1. The
/// faults are those of [`without_changes`], and one for a word that means no player.
pub fn without_since(
    alloc: Global,
    kind: TextKind,
    bytes: &[u8],
    first: u32,
    by: Option<&str>,
) -> Result<Undone, NoUndo>
    ensures ok { IfOk result (λ u. IsUndoneOf kind bytes.now (MeansSince first (option_copied by.entry))
        (string_bytes u.text) (string_bytes u.told) u.torn u.before u.after) }
    ensures err { IfErr result (HasNoUndo kind bytes.now (MeansSince first (option_copied by.entry))) }
{
    let whole = match whole_of(alloc, kind, bytes) {
        Ok(whole) => whole,
        Err(fault) => return Err(NoUndo::History(fault)),
    };
    let actor = match by {
        Some(word) => match player_of(&whole.world, word) {
            Some(player) => Some(player),
            None => return Err(NoUndo::NoPlayer),
        },
        None => None,
    };
    undo(alloc, &whole, &Choice::Since { first, actor })
}
