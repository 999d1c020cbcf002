//! Laws of the definitions. Each contract is a law, and its function does nothing.

ghost use Rattle.mud_rules.specs.Laws.{IsAlikeWhateverIsRead, AreQuestions, IsMade};
ghost use Rattle.std.specs.Prelude.{ℕ, Option, ◌≡◌};
ghost use Rattle.mud_world.specs.State.{State};
ghost use Rattle.mud_rules.specs.declared.digging.TheConstants.{BAR};
ghost use Rattle.mud_rules.specs.declared.verdict.Verdict.TheVariants.{Change as Changes};
ghost use Rattle.mud_world.specs.declared.change.Change.{Change};
ghost use Rattle.mud_words.specs.Line.{Line};
ghost use Rattle.mud_world.specs.Sound.{IsSound};
ghost use Rattle.mud_rules.specs.Table.{decision};

/// If a text of a line can't be read, the line is refused as it would be for any readable text: by a lower condition of
/// its change, or else for the text.
pub fn whatever_is_read()
    ensures { (w : State) (p : ℕ) → IsAlikeWhateverIsRead w p }
{}

/// In a sound world the change of a line is legal, and its names, keys and texts are valid.
pub fn decisions()
    ensures { (w : State) → IsSound w → (player : Option ℕ) (l : Line) (e : Change)
        → decision w player l ≡ Changes e → IsMade w e }
{}

/// Only a line with the verb of a question asks, in every world and for every player.
pub fn questions()
    ensures { AreQuestions }
{}

/// Promises that the named byte has the value of US-ASCII.
pub fn codes()
    ensures bar { BAR ≡ 124 }
{}
