//! The verbs of a history's lines.

ghost use Rattle.mud_chron.specs.inner.Reader.{Tells, verb_in};

use crate::fields::Unread;

/// A kind of change, as named in a line.
#[derive(Clone, Copy)]
pub(crate) enum Verb {
    Dig,
    Make,
    Player,
    Lock,
    Unlock,
    Move,
    Walk,
    Cost,
    Rename,
    Recycle,
    Say,
    Emote,
}

// Returns the verb that a word names.
#[tactic(auto, unfolding(crate::specs::inner::Reader::verb_in))]
pub(crate) fn verb_of(word: &str) -> Result<Verb, Unread>
    ensures { Tells (λ x. x) result (verb_in word.now) }
{
    match word {
        "dig" => Ok(Verb::Dig),
        "make" => Ok(Verb::Make),
        "player" => Ok(Verb::Player),
        "lock" => Ok(Verb::Lock),
        "unlock" => Ok(Verb::Unlock),
        "move" => Ok(Verb::Move),
        "walk" => Ok(Verb::Walk),
        "cost" => Ok(Verb::Cost),
        "rename" => Ok(Verb::Rename),
        "recycle" => Ok(Verb::Recycle),
        "say" => Ok(Verb::Say),
        "emote" => Ok(Verb::Emote),
        _ => Err(Unread::NoEntry),
    }
}
