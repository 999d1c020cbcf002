//! The fields in which two records differ.

ghost use Rattle.std.specs.Prelude.{◌≡◌, ◌≢◌, MatchBool, option_copied};
ghost use Rattle.mud_key.specs.Node.{key_of};
ghost use Rattle.mud_world.specs.Kinds.{kind_place};
ghost use Rattle.mud_diff.specs.Differences.{AreAlike, DiffersIn, source_in, destination_in, cost_in};

use crate::difference::What;
use mud_key::{Key, Names, Node};
use mud_world::{Kind, Record};

// Returns whether the keys are the same, node by node.
fn same_nodes(node: &Node<u32>, other: &Node<u32>) -> bool
    ensures { MatchBool result (key_of node.now ≡ key_of other.now) (key_of node.now ≢ key_of other.now) }
{
    match (node, other) {
        (Node::Has(a), Node::Has(b)) => *a == *b,
        (Node::Asks(a), Node::Asks(b)) => *a == *b,
        (Node::Not(a), Node::Not(b)) => same_nodes(a, b),
        (Node::Join(p, a, c), Node::Join(q, b, d)) => {
            if *p != *q || !same_nodes(a, b) {
                return false;
            }
            same_nodes(c, d)
        }
        _ => false,
    }
}

// Returns whether two optional keys are the same.
fn same_keys(key: &Option<Key>, other: &Option<Key>) -> bool
    ensures { MatchBool result (key.now ≡ other.now) (key.now ≢ other.now) }
{
    match (key, other) {
        (Some(key), Some(other)) => same_nodes(key.node(), other.node()),
        (None, None) => true,
        _ => false,
    }
}

// Returns whether the names are the same.
#[tactic(auto, using(crate::proofs::Texts::texts_match))]
fn same_names(names: &Names, others: &Names) -> bool
    ensures { MatchBool result (names.now ≡ others.now) (names.now ≢ others.now) }
{
    names.list() == others.list()
}

// Returns whether the kinds are the same; places, ends and costs may differ.
fn same_kinds(kind: Kind, other: Kind) -> bool
    ensures { MatchBool result (AreAlike kind other) (AreAlike kind other → ⊥) }
{
    matches!(
        (kind, other),
        (Kind::Room, Kind::Room)
            | (Kind::Exit(_), Kind::Exit(_))
            | (Kind::Thing { .. }, Kind::Thing { .. })
            | (Kind::Player { .. }, Kind::Player { .. })
    )
}

/// Returns the source of an exit.
pub(crate) fn source_in(kept: &Record) -> Option<u32>
    ensures { result ≡ source_in kept.now }
{
    Some(kept.kind.passage()?.source)
}

/// Returns the destination of an exit.
pub(crate) fn destination_in(kept: &Record) -> Option<u32>
    ensures { result ≡ destination_in kept.now }
{
    Some(kept.kind.passage()?.destination)
}

/// Returns the cost of an exit.
pub(crate) fn cost_in(kept: &Record) -> Option<u32>
    ensures { result ≡ cost_in kept.now }
{
    Some(kept.kind.passage()?.cost)
}

// Returns whether two records are equal in this field.
fn same_in(what: What, old: &Record, new: &Record) -> bool
    ensures { MatchBool result (DiffersIn what (Some old.now) (Some new.now) → ⊥)
        (DiffersIn what (Some old.now) (Some new.now)) }
{
    match what {
        What::Added | What::Removed => true,
        What::Names => same_names(&old.names, &new.names),
        What::Owner => old.owner == new.owner,
        What::Kind => same_kinds(old.kind, new.kind),
        What::Place => old.kind.place() == new.kind.place(),
        What::Source => source_in(old) == source_in(new),
        What::Destination => destination_in(old) == destination_in(new),
        What::Cost => cost_in(old) == cost_in(new),
        What::Key => same_keys(&old.key, &new.key),
    }
}

/// Returns whether the objects of a number in two worlds differ in this field.
pub(crate) fn differs_in(what: What, old: Option<&Record>, new: Option<&Record>) -> bool
    ensures { MatchBool result (DiffersIn what (option_copied old.entry) (option_copied new.entry))
        (DiffersIn what (option_copied old.entry) (option_copied new.entry) → ⊥) }
{
    match (old, new) {
        (None, None) => false,
        (None, Some(_)) => what == What::Added,
        (Some(_), None) => what == What::Removed,
        (Some(old), Some(new)) => !same_in(what, old, new),
    }
}
