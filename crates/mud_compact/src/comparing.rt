//! Compares two worlds.

ghost use Rattle.std.specs.Prelude.{◌≡◌, true};
ghost use Rattle.mud_key.specs.Node.{key_of};
ghost use Rattle.mud_world.specs.State.{record_at};

use mud_key::{Key, Names, Node};
use mud_world::{Record, World};

// Returns whether the keys are equal, node by node.
fn same_nodes(node: &Node<u32>, other: &Node<u32>) -> bool
    ensures { result ≡ true → key_of node.now ≡ key_of other.now }
{
    match (node, other) {
        (Node::Has(a), Node::Has(b)) => *a == *b,
        (Node::Asks(a), Node::Asks(b)) => *a == *b,
        (Node::Not(a), Node::Not(b)) => same_nodes(a, b),
        (Node::Join(p, a, c), Node::Join(q, b, d)) => {
            if *p != *q || !same_nodes(a, b) {
                return false;
            }
            same_nodes(c, d)
        }
        _ => false,
    }
}

// Returns whether the keys are equal, if there are any.
fn same_keys(key: &Option<Key>, other: &Option<Key>) -> bool
    ensures { result ≡ true → key.now ≡ other.now }
{
    match (key, other) {
        (Some(key), Some(other)) => same_nodes(key.node(), other.node()),
        (None, None) => true,
        _ => false,
    }
}

// Returns whether the names are equal.
#[tactic(auto, using(crate::proofs::Sameness::same_texts))]
fn same_names(names: &Names, others: &Names) -> bool
    ensures { result ≡ true → names.now ≡ others.now }
{
    names.list() == others.list()
}

// Returns whether the records are equal.
fn same_records(one: &Record, other: &Record) -> bool
    ensures { result ≡ true → one.now ≡ other.now }
{
    if one.owner != other.owner || one.kind != other.kind {
        return false;
    }
    if !same_names(&one.names, &other.names) {
        return false;
    }
    same_keys(&one.key, &other.key)
}

// Returns whether the number has equal records in both worlds.
fn same_at(world: &World, other: &World, number: u32) -> bool
    ensures { result ≡ true → record_at world.now number ≡ record_at other.now number }
{
    match (world.get(number), other.get(number)) {
        (Some(record), Some(other)) => same_records(record, other),
        (None, None) => true,
        _ => false,
    }
}

// Returns whether the worlds are equal: each record by number, and the next number.
#[tactic(auto, using(crate::proofs::Sameness::same_worlds))]
pub(crate) fn same_worlds(world: &World, other: &World) -> bool
    ensures { result ≡ true → world.now ≡ other.now }
{
    if world.next_number() != other.next_number() {
        return false;
    }
    for number in 0..world.next_number() {
        if !same_at(world, other, number) {
            return false;
        }
    }
    // for the prover: `next_number` shows that the other world is sound
    let _known = other.next_number();
    true
}
