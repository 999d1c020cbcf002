//! The nesting of keys.

ghost use Rattle.std.specs.Prelude.{true, ◌≡◌};
ghost use Rattle.mud_world.specs.State.{nests, all_nest, key_of};
ghost use Rattle.mud_key.specs.Node.{key_of as tree_of};
ghost use Rattle.mud_world.specs.inner.Fields.{with_lock};
ghost use Rattle.mud_world.specs.inner.Askers.{askers_of, climbs};
ghost use Rattle.std.specs.Option.{option_map_or};

use crate::world::World;
use mud_key::{Key, Node};

impl World {
    // Returns whether a chain of `count` questions leads to the object.
    fn climbs(&self, object: u32, count: u32) -> bool
        ensures { result ≡ climbs self.now count object }
    {
        if count == 0 {
            return true;
        }
        for asker in self.askers_of(object) {
            if self.climbs(*asker, count - 1) {
                return true;
            }
        }
        false
    }

    // Returns the objects whose keys ask about the object, sorted.
    fn askers_of(&self, object: u32) -> &[u32]
        ensures { result.now ≡ askers_of self.now object }
    {
        self.askers.get(object)
    }

    // Returns whether each key nests at most 3, if this becomes the key of the object. Only the new key is followed
    // downwards, and the questions that lead to the object upwards. The other keys of the world did not change.
    pub(crate) fn all_nest_with(&self, object: u32, key: &Key) -> bool
        ensures { result ≡ all_nest (with_lock self.now object key.now) }
    {
        // for the prover: the world is sound
        self.know_sound();
        let node = key.node();
        if !self.exists(object) {
            return true;
        }
        if self.nests_with(object, key, node, 0) {
            return true;
        }
        if self.nests_with(object, key, node, 1) {
            return !self.climbs(object, 3);
        }
        if self.nests_with(object, key, node, 2) {
            return !self.climbs(object, 2);
        }
        if self.nests_with(object, key, node, 3) {
            return !self.climbs(object, 1);
        }
        false
    }

    // Returns whether a key nests at most this deep, if `key` becomes the key of the object.
    #[cycle(nesting)]
    fn nests_with(&self, object: u32, key: &Key, node: &Node<u32>, levels: u32) -> bool
        ensures { result ≡ nests (with_lock self.now object key.now) levels (tree_of node.now) }
    {
        match node {
            Node::Has(_) => true,
            Node::Asks(asked) => {
                levels > 0 && self.asked_nests_with(object, key, *asked, levels - 1)
            }
            Node::Not(child) => self.nests_with(object, key, child, levels),
            Node::Join(_, left, right) => {
                self.nests_with(object, key, left, levels)
                    && self.nests_with(object, key, right, levels)
            }
        }
    }

    // Returns whether the key of the object in question, if it has one, nests at most this deep.
    #[cycle(nesting)]
    fn asked_nests_with(&self, object: u32, key: &Key, asked: u32, levels: u32) -> bool
        ensures { result ≡ option_map_or (nests (with_lock self.now object key.now) levels)
            (key_of (with_lock self.now object key.now) asked) true }
    {
        match self.get(asked) {
            None => true,
            Some(record) => {
                if asked == object {
                    self.nests_with(object, key, key.node(), levels)
                } else {
                    match &record.key {
                        None => true,
                        Some(own) => self.nests_with(object, key, own.node(), levels),
                    }
                }
            }
        }
    }
}
