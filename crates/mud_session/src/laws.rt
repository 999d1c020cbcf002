//! Laws of the definitions. Each contract is a law, and its function does nothing.

ghost use Rattle.mud_session.specs.Laws.{ScriptTextIsOne, IsToldOnce, all_calls, AreScript, NamesSeen, TalksGoOn};
ghost use Rattle.mud_session.specs.Session.{Does, Turn, Plays, TakesNone};
ghost use Rattle.mud_hall.specs.Desk.{DeskState, TakesIn};
ghost use Rattle.mud_hall.specs.Steps.{PerformsAll, lone_desk};
ghost use Rattle.std.specs.Prelude.{List, ℕ};
ghost use Rattle.mud_session.specs.State.{DoorState, SessionState};
ghost use Rattle.mud_session.specs.Talks.{Start};
ghost use Rattle.mud_session.specs.Feeds.{Nudges, Feeds};

/// In each turn at a desk of a hall, two lists are equal. One is the desk's notices before the turn, and those of the
/// others' entries that it saw in the turn. The other is the notices sent, and those that remain. So each notice comes
/// once and in order.
pub fn notices()
    ensures { (capacity : ℕ) (old new : DeskState) (turn : Turn) → Does TakesIn capacity old turn.case turn.notices new
        → IsToldOnce old turn.notices new }
{}

/// The output of a session at a desk of a hall names no version above the number of entries that the desk has seen by
/// then. This holds for the numbers of replies, answers and notices, and the answer to `@history` has as many entries
/// as its number says.
pub fn nothing_beyond()
    ensures { (old new : SessionState) (was is : DoorState) (names : NamesSeen old was.desk)
        → ((bytes : List ℕ) → Feeds TakesIn names.earlier bytes old new was is → NamesSeen new is.desk)
        × (Nudges TakesIn old new was is → NamesSeen new is.desk) }
{}

/// The output of a script depends only on its bytes, on the capacity of its history, and on the lines for which an
/// allocation failed.
pub fn one_script_text()
    ensures { ScriptTextIsOne }
{}

/// The turns of a session at a desk of a hall are calls of that desk, and the steps of the hall consist of such calls.
/// So `mud_hall::laws::guide` is about all sessions. The output of a session is the results of its calls.
pub fn turns()
    ensures { (capacity : ℕ) (old new : DeskState) (turns : List Turn) → Plays TakesIn capacity old turns new
        → PerformsAll capacity old (all_calls turns) new }
{}

/// The turns of a script are a run of the single-user hall. So `mud_hall::laws::guide` is about every script.
pub fn runs()
    ensures { (capacity : ℕ) (turns : List Turn) (new : DeskState) → Plays TakesNone capacity lone_desk turns new
        → AreScript capacity turns new }
{}

/// The output of a session is a prefix of its greeting and the text of its turns, beginning with a guest's desk, at one
/// hall after another. This holds for any input, and whenever output is taken.
pub fn talks()
    ensures { (capacity : ℕ) (start : Start) → TalksGoOn capacity start }
{}
