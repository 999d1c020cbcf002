//! Laws of the definitions. Each contract is a law, and its function does nothing.

ghost use Rattle.mud_world.specs.Laws.{AreContents, AreLeaving, AreArriving, AreLevelsEnough, IsNesting, CirclesNestOn};
ghost use Rattle.mud_world.specs.Laws.{IsLeastRefusal, IsContainment, IsReach};
ghost use Rattle.mud_world.specs.Laws.{StaysSound, WorldsAreSound, PlayersStay, NewPlayersArePlayers};
ghost use Rattle.std.specs.Prelude.{false, Some, None, ◌≡◌, ◌↔◌};
ghost use Rattle.mud_world.specs.Legal.{fails, refusal};
ghost use Rattle.mud_world.specs.declared.change.Change.{Change};
ghost use Rattle.mud_world.specs.declared.limits.TheConstants.{NUMBERS, MOST_COST, MOST_SPEECH, MOST_NESTING};
ghost use Rattle.mud_world.specs.declared.limits.TheConstants.{KEY_LEVELS, MOST_PARTY, MOST_ENTRIES};
ghost use Rattle.mud_world.specs.declared.refusal.Refusal.{Refusal};
ghost use Rattle.mud_world.specs.State.{State};

/// In a sound world an object is in the contents of another exactly if its place is that other.
pub fn contents()
    ensures { AreContents }
{}

/// In a sound world an exit is listed as leaving an object exactly if that object is its source.
pub fn leaving()
    ensures { AreLeaving }
{}

/// In a sound world an exit is listed as arriving at an object exactly if that object is its destination.
pub fn arriving()
    ensures { AreArriving }
{}

/// In a sound world the test of containment agrees with the relation.
pub fn containment()
    ensures { IsContainment }
{}

/// In a sound world the test of reach agrees with the relation.
pub fn reach()
    ensures { IsReach }
{}

/// In a sound world the levels of a key never run out: `?x` is true in a key exactly if x is unlocked.
pub fn levels()
    ensures { AreLevelsEnough }
{}

/// A key nests at most n exactly if every chain of questions from its object has at most n questions.
pub fn nesting()
    ensures { IsNesting }
{}

/// A key on a cycle of questions nests deeper than any number of levels.
pub fn circles()
    ensures { CirclesNestOn }
{}

/// The refusal of a change is the one with the least number among those whose condition holds. There is no refusal
/// exactly if no condition holds.
pub fn refusals()
    ensures { (w : State) (e : Change)
        → ((f : Refusal) → (refusal w e ≡ Some f) ↔ IsLeastRefusal w e f)
        × ((refusal w e ≡ None) ↔ ((f : Refusal) → fails w e f ≡ false)) }
{}

/// A legal change of a sound world leaves a sound world.
pub fn soundness()
    ensures { StaysSound }
{}

/// The world of any list of changes is sound. Changes that are illegal where they occur have no effect.
pub fn worlds()
    ensures { WorldsAreSound }
{}

/// A player remains a player in each legal change.
pub fn players_stay()
    ensures { PlayersStay }
{}

/// The actor of a Player change is a player afterwards.
pub fn new_players()
    ensures { NewPlayersArePlayers }
{}

/// Promises the limits of a world and of its history.
pub fn limits()
    ensures numbers { NUMBERS ≡ 8192 }
    ensures most_cost { MOST_COST ≡ 10000 }
    ensures most_speech { MOST_SPEECH ≡ 900 }
    ensures most_nesting { MOST_NESTING ≡ 3 }
    ensures key_levels { KEY_LEVELS ≡ 4 }
    ensures most_party { MOST_PARTY ≡ 8 }
    ensures most_entries { MOST_ENTRIES ≡ 65536 }
{}
