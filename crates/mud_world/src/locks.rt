//! Evaluates keys: whether a key is true for a bearer, and whether an object is unlocked.

ghost use Rattle.std.specs.Prelude.{◌≡◌, true, false, is_none, slice_index_or};
ghost use Rattle.std.specs.Option.{option_map_or};
ghost use Rattle.mud_key.specs.Node.{key_of as tree_of};
ghost use Rattle.mud_world.specs.Truth.{key_true};
ghost use Rattle.mud_world.specs.State.{has, unlocked_in};
ghost use Rattle.mud_world.specs.inner.Bearer.{has_for, asked_for};

use crate::holding::Holding;
use crate::world::World;
use mud_key::{Node, Operator};

// The bearer of a key: the object that meets it.
#[derive(Clone, Copy)]
pub(crate) enum Bearer<'a> {
    // The object with this number.
    Number(u32),
    // The holder of this set.
    Holder(&'a Holding),
    // The holder of the marked objects: a mark for each number.
    Marks(&'a [bool]),
}

// The source of answers to the questions in a key.
#[derive(Clone, Copy)]
pub(crate) enum Asked<'a> {
    // The keys of the objects in question, with this many levels left.
    Levels(u32),
    // For each number, whether its object is unlocked.
    Answers(&'a [bool]),
}

// Returns the answer for a number, and false past the end.
fn answer(answers: &[bool], number: u32) -> bool
    ensures { result ≡ slice_index_or answers.now number false }
{
    matches!(answers.get(number as usize), Some(true))
}

impl World {
    // Returns whether the object is the bearer, or inside the bearer.
    fn has(&self, bearer: Bearer<'_>, object: u32) -> bool
        ensures { result ≡ has_for self.now bearer.entry object }
    {
        match bearer {
            Bearer::Number(number) => self.holds(number, object),
            Bearer::Holder(holding) => holding.has(object),
            Bearer::Marks(marks) => answer(marks, object),
        }
    }

    // Returns whether the key is true for the bearer.
    #[cycle(locks)]
    fn is_true(&self, bearer: Bearer<'_>, asked: Asked<'_>, node: &Node<u32>) -> bool
        ensures { result ≡ key_true (has_for self.now bearer.entry)
            (asked_for self.now (has_for self.now bearer.entry) asked.entry) (tree_of node.now) }
    {
        match node {
            Node::Has(object) => self.has(bearer, *object),
            Node::Asks(object) => match asked {
                Asked::Levels(levels) => self.is_unlocked_in(bearer, *object, levels),
                Asked::Answers(answers) => answer(answers, *object),
            },
            Node::Not(key) => !self.is_true(bearer, asked, key),
            Node::Join(Operator::And, left, right) => {
                self.is_true(bearer, asked, left) && self.is_true(bearer, asked, right)
            }
            Node::Join(Operator::Or, left, right) => {
                self.is_true(bearer, asked, left) || self.is_true(bearer, asked, right)
            }
        }
    }

    // Returns whether the object exists and has no key.
    pub(crate) fn is_keyless(&self, object: u32) -> bool
        ensures { result ≡ has self.now object (λ r. is_none r.key) }
    {
        matches!(self.get(object), Some(record) if record.key.is_none())
    }

    // Returns whether the object exists, and has no key or one that is true for the bearer.
    #[cycle(locks)]
    pub(crate) fn is_unlocked_by(&self, bearer: Bearer<'_>, asked: Asked<'_>, object: u32) -> bool
        ensures { result ≡ has self.now object (λ r. option_map_or (key_true (has_for self.now bearer.entry)
            (asked_for self.now (has_for self.now bearer.entry) asked.entry)) r.key true) }
    {
        match self.get(object) {
            None => false,
            Some(record) => match &record.key {
                None => true,
                Some(key) => self.is_true(bearer, asked, key.node()),
            },
        }
    }

    // Returns whether the object is unlocked for the bearer, with this many levels of questions.
    #[cycle(locks)]
    pub(crate) fn is_unlocked_in(&self, bearer: Bearer<'_>, object: u32, levels: u32) -> bool
        ensures { result ≡ unlocked_in self.now levels (has_for self.now bearer.entry) object }
    {
        if levels == 0 {
            return self.is_keyless(object);
        }
        self.is_unlocked_by(bearer, Asked::Levels(levels - 1), object)
    }
}
