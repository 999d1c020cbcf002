//! Laws of the definitions. Each contract is a law, and its function does nothing.

ghost use Rattle.mud_guide.specs.Laws.{RouteIsLeast, AreAlike};
ghost use Rattle.mud_world.specs.Sound.{IsSound};
ghost use Rattle.mud_world.specs.State.{State};
ghost use Rattle.mud_guide.specs.declared.answer.Answer.{Answer};
ghost use Rattle.mud_guide.specs.Answers.{IsRouteAnswer, IsMeetAnswer};
ghost use Rattle.std.specs.Prelude.{ℕ, List};

/// The canonical route is a least walk.
pub fn routes()
    ensures { RouteIsLeast }
{}

/// In a sound world a question for a route has one answer: two answers to it have the same version, the same bytes of
/// text and the same certificate.
pub fn one_route_answer()
    ensures { (w : State) → IsSound w → (v p to : ℕ) (a b : Answer) → IsRouteAnswer w v p to a
        → IsRouteAnswer w v p to b
        → AreAlike a b }
{}

/// In a sound world a question for a meeting has one answer, in the same sense.
pub fn one_meet_answer()
    ensures { (w : State) → IsSound w → (v : ℕ) (party : List ℕ) (a b : Answer)
        → IsMeetAnswer w v party a → IsMeetAnswer w v party b → AreAlike a b }
{}
