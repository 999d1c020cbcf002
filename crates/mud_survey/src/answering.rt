//! Surveys the world of a text, and certifies ways in it.

ghost use Rattle.std.specs.Prelude.{◌≡◌, ◌≤◌, ◌∷◌, [], map, IfOk, IfErr, IsTrue, string_bytes};
ghost use Rattle.mud_world.specs.declared.limits.TheConstants.{MOST_ENTRIES};
ghost use Rattle.mud_world.specs.State.{is_player, is_room};
ghost use Rattle.mud_survey.specs.Answer.{IsProofText, IsWayProof, HasNoSurvey};
ghost use Rattle.mud_survey.specs.Answer.{KeepsVersion, survey_text, IsSurveyText};

use crate::finding::survey_world;
use crate::json::json_text;
use crate::party::{Unmeant, party_of, player_meant, room_meant};
use crate::survey::Survey;
use crate::table::table_text;
use mud_chron::{ChronFault, replay};
use mud_compact::{KeptFault, TextKind, read_kept};
use mud_guide::route_alone;
use mud_world::World;
use std::alloc::{AllocError, Global};

/// The form of a survey's text.
#[derive(Clone, Copy, Debug, PartialEq, Eq)]
pub enum Form {
    /// A table for people.
    Table,
    /// JSON, for programs.
    Json,
}

/// The reason why there is no survey, or no certificate.
#[derive(Debug, Drop)]
pub enum NoSurvey {
    /// The text has no world, or an allocation failed.
    History(KeptFault),
    /// The word at this place, counted from 0, means no player.
    NoPlayer(usize),
    /// The word means no room.
    NoRoom,
}

impl From<AllocError> for NoSurvey {
    ghost use Rattle.std.specs.Prelude.{◌≡◌};
    ghost use Rattle.mud_chron.specs.declared.fault.ChronFault.TheVariants.{OutOfMemory};
    ghost use Rattle.mud_compact.specs.declared.fault.KeptFault.TheVariants.{Text};
    ghost use Rattle.mud_survey.specs.declared.answering.NoSurvey.TheVariants.{History};

    ghost from_gives = { λ _ e. e ≡ History (Text OutOfMemory) };

    fn from(_e: AllocError) -> NoSurvey {
        NoSurvey::History(KeptFault::Text(ChronFault::OutOfMemory))
    }
}

/// A survey, or a certificate.
#[derive(Drop)]
pub struct SurveyText {
    /// Its text.
    pub text: String,
    /// The number of torn bytes at the end of a journal; `None` for a history.
    pub torn: Option<usize>,
}

// The world of a text, its version, and the number of torn bytes.
#[derive(Drop)]
struct Found {
    world: World,
    version: usize,
    torn: Option<usize>,
}

// Returns the world of the bytes.
fn found_in(alloc: Global, kind: TextKind, bytes: &[u8]) -> Result<Found, NoSurvey>
    ensures ok { IfOk result (λ f. KeepsVersion kind bytes.now f.torn f.version f.world) }
    ensures few { IfOk result (λ f. f.version ≤ MOST_ENTRIES) }
    ensures err { IfErr result (HasNoSurvey kind bytes.now [] []) }
{
    let kept = match read_kept(alloc, kind, bytes) {
        Ok(kept) => kept,
        Err(fault) => return Err(NoSurvey::History(fault)),
    };
    match replay(alloc, &kept.entries) {
        Ok(world) => Ok(Found {
            world,
            version: kept.entries.len(),
            torn: kept.torn,
        }),
        Err(fault) => Err(NoSurvey::History(KeptFault::Text(fault))),
    }
}

// Returns the text of a survey.
fn text_of(
    alloc: Global,
    form: Form,
    found: &Found,
    players: &[u32],
    survey: &Survey,
) -> Result<String, AllocError>
    ensures { IfOk result (λ text. string_bytes text
        ≡ survey_text form found.now.version found.now.world players.now survey.now) }
{
    match form {
        Form::Table => table_text(alloc, &found.world, survey),
        Form::Json => json_text(alloc, found.version, players, survey),
    }
}

/// Returns a survey of the world of a text for the players that the words mean, or for all if there is no word
/// (docs/KEEPING.md, "Survey"). A word means a player as in `meet` (docs/COMMANDS.md); `me` is #1. A text without a
/// world, and a word that means no player, have a fault. The only other error is out of memory.
pub fn survey_of(
    alloc: Global,
    kind: TextKind,
    form: Form,
    bytes: &[u8],
    words: &[&str],
) -> Result<SurveyText, NoSurvey>
    ensures ok { IfOk result (λ s.
        IsSurveyText kind form bytes.now (map (λ word. word.now) words.now) (string_bytes s.text) s.torn) }
    ensures err { IfErr result (HasNoSurvey kind bytes.now (map (λ word. word.now) words.now) []) }
{
    let found = found_in(alloc, kind, bytes)?;
    let players = match party_of(alloc, &found.world, words) {
        Ok(players) => players,
        Err(Unmeant::OutOfMemory) => return Err(NoSurvey::from(AllocError)),
        Err(Unmeant::NoPlayer(place)) => return Err(NoSurvey::NoPlayer(place)),
    };
    let survey = survey_world(alloc, &found.world, &players)?;
    let text = text_of(alloc, form, &found, &players, &survey)?;
    Ok(SurveyText {
        text,
        torn: found.torn,
    })
}

// Returns the text of the certificate of a way.
fn proof_of(alloc: Global, found: &Found, player: u32, room: u32) -> Result<String, AllocError>
    requires player { IsTrue (is_player found.now.world player) }
    requires room { IsTrue (is_room found.now.world room) }
    requires version { found.now.version ≤ MOST_ENTRIES }
    ensures { IfOk result (λ text.
        IsProofText found.now.world found.now.version player room (string_bytes text)) }
{
    let answer = route_alone(alloc, &found.world, found.version as u32, player, room)?;
    let mut text = String::new(alloc);
    match &answer.cert {
        Some(cert) => cert.write(alloc, &mut text)?,
        None => unreachable!(),
    }
    Ok(text)
}

/// Returns the certificate of the way of the player that one word means to the room that the other word means, or of
/// the fact that there is no way (docs/CERTIFICATES.md). `mud_check` accepts it with the history. The faults are those
/// of a survey, and one for a word that means no room.
pub fn way_proof(
    alloc: Global,
    kind: TextKind,
    bytes: &[u8],
    player: &str,
    room: &str,
) -> Result<SurveyText, NoSurvey>
    ensures ok { IfOk result (λ s. IsWayProof kind bytes.now player.now room.now (string_bytes s.text) s.torn) }
    ensures err { IfErr result (HasNoSurvey kind bytes.now (player.now ∷ []) (room.now ∷ [])) }
{
    let found = found_in(alloc, kind, bytes)?;
    let Some(who) = player_meant(&found.world, player) else {
        return Err(NoSurvey::NoPlayer(0));
    };
    let Some(to) = room_meant(&found.world, room) else {
        return Err(NoSurvey::NoRoom);
    };
    let text = proof_of(alloc, &found, who, to)?;
    Ok(SurveyText {
        text,
        torn: found.torn,
    })
}
