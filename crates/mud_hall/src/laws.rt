//! Laws of the definitions. Each contract is a law, and its function does nothing.

ghost use Rattle.mud_hall.specs.Laws.{HistoryGoesOn, WalksGo, IsRight};
ghost use Rattle.mud_hall.specs.Steps.{At, HallStep, Begins, IsRun, Hall, Ask, Makes};
ghost use Rattle.mud_chron.specs.Entry.{Entry};
ghost use Rattle.mud_words.specs.Parse.{parse_of};
ghost use Rattle.std.specs.Prelude.{List, ℕ, Some, ◌≡◌};
ghost use mathlib.Core.List.{IsPrefix};
ghost use Rattle.mud_hall.specs.Replies.{verdict_on};
ghost use Rattle.mud_hall.specs.Answers.{Answered};
ghost use Rattle.mud_hall.specs.Desk.{DeskState};

use mud_cert::laws::valid_is_optimal;
use mud_cert::text_laws::no_return;
use mud_checker::laws::drops_nothing;
use mud_chron::laws::{again, no_returns};
use mud_guide::laws::routes;
use mud_roads::laws::meeting_cost;

/// In every run of a hall, an answer about a journey is right in the world of its version, and the checker accepts its
/// certificate.
pub fn guide()
    ensures { (capacity : ℕ) (loaded : List Entry) (begin : Hall) → Begins capacity loaded begin
        → (steps : List HallStep) (hall : Hall) → IsRun capacity loaded begin steps hall
        → (s : ℕ) (line : List ℕ) (a : Answered) (next : Hall)
        → Makes capacity loaded hall (At s (Ask line (Some a))) next
        → (d : DeskState) → hall.desks s ≡ Some d
        → IsPrefix d.seen hall.history × IsRight d.seen d.player (verdict_on d.seen d.player (parse_of line)) a }
{
    again();
    no_returns();
    no_return();
    drops_nothing();
    valid_is_optimal();
    routes();
    meeting_cost();
}

/// In every run the history is legal, and each later history extends it.
pub fn going_on()
    ensures { HistoryGoesOn }
{}

/// From the world of a version, a player's changes by the exits of a walk are all legal, and the player ends where the
/// walk leads.
pub fn walk()
    ensures { WalksGo }
{}
