//! Laws of the definitions. Each contract is a law, and its function does nothing.

ghost use Rattle.mud_roads.specs.Laws.{LeastIsAlike, ValidIsLeast, LeastIsValid, IsOne, IsRoad, IsWalked};
ghost use Rattle.mud_roads.specs.Laws.{RouteIsOne, MeetingIsOne, MeetingIsAlike};
ghost use Rattle.std.specs.Prelude.{ℕ, AllPairs, Contains, ◌<◌, ◌↔◌, Some, IsTrue, List, ◌≡◌};
ghost use Rattle.mud_roads.specs.Walks.{Least, Roads, Walk};
ghost use Rattle.mud_roads.specs.Passable.{roads_of};
ghost use Rattle.mud_roads.specs.declared.label.Step.{Step};
ghost use Rattle.mud_world.specs.Sound.{IsSound};
ghost use Rattle.mud_world.specs.State.{State, is_player, place_of};

/// A room has at most one least label.
pub fn least()
    ensures { (hop : ℕ) (roads : Roads) (from to : ℕ) → IsOne (Least hop roads from to) }
{}

/// Costs alone and costs with exits agree: a least label exists for the one exactly if it exists for the other, and
/// both have the same cost.
pub fn least_cost()
    ensures { LeastIsAlike }
{}

/// With valid labels, a walk whose label is that of its end is a least walk, and no walk leads to a room without a
/// label.
pub fn valid_labels()
    ensures { ValidIsLeast }
{}

/// Least labels are valid.
pub fn least_labels()
    ensures { LeastIsValid }
{}

/// In a sound world the roads of a player are the steps of the exits that are open to the player, sorted by number.
pub fn roads()
    ensures { (w : State) → IsSound w → (p room : ℕ)
        → ((s : Step) → Contains (roads_of w p room) s ↔ IsRoad w p room s)
        × AllPairs (λ a b. a.exit < b.exit) (roads_of w p room) }
{}

/// A player's changes by the exits of a walk are all legal, and the player ends where the walk leads.
pub fn walks()
    ensures { (w : State) → IsSound w → (p from to : ℕ) (ss : List Step) → IsTrue (is_player w p)
        → place_of w p ≡ Some from
        → Walk (roads_of w p) from ss to → IsWalked w p ss to }
{}

/// A room has at most one canonical route.
pub fn one_route()
    ensures { RouteIsOne }
{}

/// A party has at most one meeting room.
pub fn one_meeting()
    ensures { MeetingIsOne }
{}

/// A room is the meeting room by costs alone exactly if it is so by costs with exits. One notion has no meeting room
/// exactly if the other has none.
pub fn meeting_cost()
    ensures { MeetingIsAlike }
{}
