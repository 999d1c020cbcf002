//! Decides whether a change is legal.

ghost use Rattle.std.specs.Prelude.{MatchResult, not, ◌≡◌, ℕ, ◌≤◌, [], ◌∷◌, Some, None, length, find};
ghost use Rattle.mud_world.specs.State.{is_taken, State, exists};
ghost use Rattle.mud_key.specs.Node.{key_of as tree_of};
ghost use Rattle.mud_world.specs.Legal.{dig_records, actor_fails, deed_fails, refusal, fails};
ghost use Rattle.mud_world.specs.inner.Fields.{is_full};
ghost use Rattle.mud_key.specs.Tree.{atoms_of};
ghost use Rattle.std.specs.List.{list_any};
ghost use Rattle.mud_world.specs.Kinds.{kind_needs};

use crate::Refusal::{
    BadCost, BadKey, BadName, Denied, InUse, KeyNesting, LockedExit, LockedRoom, LockedThing,
    NameTaken, NoSuch, NotHere, RecursiveMove, WorldFull, WrongKind,
};
use crate::limits::MOST_COST;
use crate::world::World;
use crate::{Change, Deed, Doors, Refusal, Target};
use mud_key::limits::LAST_NUMBER;
use mud_key::{Key, Name, Names, Node};

// The possible refusals of a deed, in rising order.
#[tactic(auto, unfolding(crate::specs::Legal::refusal))]
fn refusals_of(deed: &Deed) -> &'static [Refusal]
    ensures { (w : State) (actor : ℕ) → find (fails w (record { actor = actor; deed = deed.now })) result.now
        ≡ refusal w (record { actor = actor; deed = deed.now }) }
{
    match deed {
        Deed::Dig(_, _) | Deed::Make(_) => &[NoSuch, WrongKind, WorldFull],
        Deed::Player(_) => &[NoSuch, NameTaken, WorldFull],
        Deed::Lock { .. } => &[NoSuch, WrongKind, Denied, BadKey, KeyNesting],
        Deed::Unlock { .. } => &[NoSuch, WrongKind, Denied],
        Deed::Move { .. } => &[
            NoSuch,
            WrongKind,
            NotHere,
            RecursiveMove,
            LockedRoom,
            LockedThing,
        ],
        Deed::Walk { .. } => &[NoSuch, WrongKind, NotHere, LockedExit, LockedRoom],
        Deed::Cost { .. } => &[NoSuch, WrongKind, Denied, BadCost],
        Deed::Rename { .. } => &[NoSuch, WrongKind, Denied, NameTaken],
        Deed::Recycle { .. } => &[NoSuch, WrongKind, Denied, InUse],
        Deed::Say(_) | Deed::Emote(_) => &[NoSuch, WrongKind, BadName],
    }
}

impl World {
    // Returns whether this many new objects would exceed the number 8,191.
    fn is_full(&self, count: u32) -> bool
        requires { count ≤ 3 }
        ensures { result ≡ is_full self.now count }
    {
        self.next + count > LAST_NUMBER + 1
    }

    // Returns the number of objects that a dig adds.
    fn dug_count(target: &Target, doors: &Option<Doors>) -> u32
        ensures count { (w : State) (actor : ℕ) → result ≡ length (dig_records w actor target.now doors.now) }
        ensures few { result ≤ 3 }
    {
        let room = match target {
            Target::New(_) => 1,
            Target::Old(_) => 0,
        };
        let exits = match doors {
            None => 0,
            Some(doors) => match &doors.back {
                None => 1,
                Some(_) => 2,
            },
        };
        room + exits
    }

    // Returns whether this refusal applies to the actor, who must be a player of the world.
    fn actor_fails(&self, actor: u32, fault: Refusal) -> bool
        ensures { result ≡ actor_fails self.now actor fault }
    {
        match fault {
            NoSuch => !self.exists(actor),
            WrongKind => !self.is_player(actor),
            _ => false,
        }
    }

    // Returns whether this refusal applies to a walk through the exit.
    fn walk_fails(&self, actor: u32, exit: u32, fault: Refusal) -> bool
        ensures { result ≡ deed_fails self.now actor (Deed.Walk exit) fault }
    {
        match fault {
            NoSuch => !self.exists(exit),
            WrongKind => !self.is_exit(exit),
            NotHere => !self.leaves_from(actor, exit),
            LockedExit => !self.is_unlocked(actor, exit),
            LockedRoom => match self.passage(exit) {
                Some(passage) => !self.is_unlocked(actor, passage.destination),
                None => true,
            },
            _ => false,
        }
    }

    // Returns whether this refusal applies to a dig.
    fn dig_fails(&self, actor: u32, target: &Target, doors: &Option<Doors>, fault: Refusal) -> bool
        ensures { result ≡ deed_fails self.now actor (Deed.Dig target.now doors.now) fault }
    {
        match (fault, target) {
            (NoSuch, Target::Old(room)) => !self.exists(*room),
            (WrongKind, Target::Old(room)) => !self.is_room(*room) || doors.is_none(),
            (WorldFull, _) => self.is_full(Self::dug_count(target, doors)),
            _ => false,
        }
    }

    // Returns whether this refusal applies to a move of the thing.
    fn move_fails(&self, actor: u32, thing: u32, to: u32, fault: Refusal) -> bool
        ensures { result ≡ deed_fails self.now actor (Deed.Move thing to) fault }
    {
        match fault {
            NoSuch => !self.exists(thing) || !self.exists(to),
            WrongKind => !self.is_thing(thing) || self.is_exit(to),
            NotHere => {
                !self.in_reach(actor, thing) || self.is_in(thing, to) || !self.is_offered(actor, to)
            }
            RecursiveMove => self.holds(thing, to),
            LockedRoom => !self.is_unlocked(thing, to),
            LockedThing => !self.is_unlocked(to, thing),
            _ => false,
        }
    }

    // Returns whether this refusal applies to locking the object with the key.
    fn lock_fails(&self, actor: u32, object: u32, key: &Key, fault: Refusal) -> bool
        ensures { result ≡ deed_fails self.now actor (Deed.Lock object key.now) fault }
    {
        match fault {
            NoSuch => !self.exists(object),
            WrongKind => self.is_player(object),
            Denied => !self.owns(actor, object),
            // the type of a key keeps it within the limits of keys
            BadKey => self.misses_atom(key.node()),
            KeyNesting => !self.all_nest_with(object, key),
            _ => false,
        }
    }

    // Returns whether this refusal applies to removing the object's key.
    fn unlock_fails(&self, actor: u32, object: u32, fault: Refusal) -> bool
        ensures { result ≡ deed_fails self.now actor (Deed.Unlock object) fault }
    {
        match fault {
            NoSuch => !self.exists(object),
            WrongKind => self.is_player(object),
            Denied => !self.owns(actor, object),
            _ => false,
        }
    }

    // Returns whether this refusal applies to this cost of the exit.
    fn cost_fails(&self, actor: u32, exit: u32, cost: u32, fault: Refusal) -> bool
        ensures { result ≡ deed_fails self.now actor (Deed.Cost exit cost) fault }
    {
        match fault {
            NoSuch => !self.exists(exit),
            WrongKind => !self.is_exit(exit),
            Denied => !self.owns(actor, exit),
            BadCost => cost > MOST_COST,
            _ => false,
        }
    }

    // Returns whether the object contains something, or is an end of an exit.
    fn is_needed(&self, number: u32) -> bool
        ensures { result ≡ list_any (λ e. kind_needs number e.1.kind) self.now.objects }
    {
        !self.contents(number).is_empty()
            || !self.leaving(number).is_empty()
            || !self.arriving(number).is_empty()
    }

    // Returns whether a player other than this one has the name.
    fn is_held(&self, number: u32, name: &str) -> bool
        ensures { result ≡ is_taken self.now number (name.now ∷ []) }
    {
        match self.owners.get(name) {
            Some(owner) => owner != number,
            None => false,
        }
    }

    // Returns whether another player has one of the names.
    fn is_taken(&self, number: u32, names: &Names) -> bool
        ensures { result ≡ is_taken self.now number names.now }
    {
        for name in names.list() {
            if self.is_held(number, name.as_str()) {
                return true;
            }
        }
        false
    }

    // Returns whether this refusal applies to a new player.
    fn player_fails(&self, actor: u32, name: &Name, fault: Refusal) -> bool
        ensures { result ≡ deed_fails self.now actor (Deed.Player name.now) fault }
    {
        match fault {
            NoSuch => actor != self.next,
            NameTaken => self.is_held(actor, name.as_str()),
            WorldFull => self.is_full(1),
            _ => false,
        }
    }

    // Returns whether this refusal applies to these names of the object.
    fn rename_fails(&self, actor: u32, object: u32, names: &Names, fault: Refusal) -> bool
        ensures { result ≡ deed_fails self.now actor (Deed.Rename object names.now) fault }
    {
        match fault {
            NoSuch => !self.exists(object),
            Denied => !self.owns(actor, object),
            NameTaken => self.is_player(object) && self.is_taken(object, names),
            _ => false,
        }
    }

    // Returns whether this refusal applies to recycling the object.
    fn recycle_fails(&self, actor: u32, object: u32, fault: Refusal) -> bool
        ensures { result ≡ deed_fails self.now actor (Deed.Recycle object) fault }
    {
        match fault {
            NoSuch => !self.exists(object),
            WrongKind => self.is_player(object),
            Denied => !self.owns(actor, object),
            InUse => object == 0 || self.is_needed(object),
            _ => false,
        }
    }

    // Returns whether the node names an object that does not exist.
    fn misses_atom(&self, node: &Node<u32>) -> bool
        ensures { result ≡ list_any (λ o. not (exists self.now o)) (atoms_of (tree_of node.now)) }
    {
        match node {
            Node::Has(object) | Node::Asks(object) => !self.exists(*object),
            Node::Not(key) => self.misses_atom(key),
            Node::Join(_, left, right) => { self.misses_atom(left) || self.misses_atom(right) }
        }
    }

    // Returns whether the condition of the refusal holds for the change.
    fn fails(&self, change: &Change, fault: Refusal) -> bool
        ensures { result ≡ fails self.now change.now fault }
    {
        let actor = change.actor;
        (!matches!(&change.deed, Deed::Player(_)) && self.actor_fails(actor, fault))
            || match &change.deed {
                Deed::Dig(target, doors) => self.dig_fails(actor, target, doors, fault),
                Deed::Make(_) => fault == WorldFull && self.is_full(1),
                Deed::Lock { object, key } => self.lock_fails(actor, *object, key, fault),
                Deed::Unlock { object } => self.unlock_fails(actor, *object, fault),
                Deed::Move { thing, to } => self.move_fails(actor, *thing, *to, fault),
                Deed::Walk { exit } => self.walk_fails(actor, *exit, fault),
                Deed::Cost { exit, cost } => self.cost_fails(actor, *exit, *cost, fault),
                Deed::Player(name) => self.player_fails(actor, name, fault),
                Deed::Rename { object, names } => self.rename_fails(actor, *object, names, fault),
                Deed::Recycle { object } => self.recycle_fails(actor, *object, fault),
                Deed::Say(speech) | Deed::Emote(speech) => {
                    // for the prover: `as_str` shows that the speech is valid, so no refusal applies
                    let _known = speech.as_str();
                    false
                }
            }
    }

    /// Returns `Ok` for a legal change, and otherwise the refusal with the least number among those whose condition
    /// holds. All conditions except KeyNesting are about the world before the change. docs/WORLD.md has them as a table
    /// (this project's profile; RecursiveMove and Denied are the errors of that name of the LambdaMOO Programmer's
    /// Manual, "Object Movement" and "Fundamental Object Attributes": owner). It does not allocate.
    pub fn legal(&self, change: &Change) -> Result<(), Refusal>
        ensures { MatchResult result (λ _. refusal self.now change.now ≡ None)
            (λ fault. refusal self.now change.now ≡ Some fault) }
    {
        let refusals = refusals_of(&change.deed);
        match refusals
            .iter()
            .copied()
            .find(|fault| self.fails(change, *fault))
        {
            None => Ok(()),
            Some(fault) => Err(fault),
        }
    }
}
