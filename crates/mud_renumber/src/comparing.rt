//! Decides whether a world is another one but for its numbers.

ghost use Rattle.std.specs.Prelude.{◌≡◌, ◌<◌, ◌+◌, ℕ, true, IfSome, IsTrue, option_copied};
ghost use Rattle.std.specs.Option.{option_map};
ghost use Rattle.mud_key.specs.Tree.{AllObjects};
ghost use Rattle.mud_key.specs.Node.{key_of as tree_of};
ghost use Rattle.mud_world.specs.State.{record_at, exists, key_of};
ghost use Rattle.mud_renumber.specs.Numbers.{number_at};
ghost use Rattle.mud_renumber.specs.inner.Checked.{IsRisen};
ghost use Rattle.mud_renumber.specs.Renumbered.{key_under, kind_under, record_under, IsRenumbered};

use crate::numbers::number_at;
use mud_key::limits::LAST_NUMBER;
use mud_key::{Key, Names, Node};
use mud_world::{Kind, Passage, Record, World};

// Returns whether the other key is this one with the new numbers, node by node.
fn same_nodes(numbers: &[u32], node: &Node<u32>, other: &Node<u32>) -> bool
    ensures { result ≡ true → tree_of other.now ≡ key_under (number_at numbers.now) (tree_of node.now) }
{
    match (node, other) {
        (Node::Has(a), Node::Has(b)) => number_at(numbers, *a) == *b,
        (Node::Asks(a), Node::Asks(b)) => number_at(numbers, *a) == *b,
        (Node::Not(a), Node::Not(b)) => same_nodes(numbers, a, b),
        (Node::Join(p, a, c), Node::Join(q, b, d)) => {
            if *p != *q || !same_nodes(numbers, a, b) {
                return false;
            }
            same_nodes(numbers, c, d)
        }
        _ => false,
    }
}

// Returns whether the other key is this one with the new numbers, or there is neither.
fn same_keys(numbers: &[u32], key: &Option<Key>, other: &Option<Key>) -> bool
    ensures { result ≡ true → other.now ≡ option_map (key_under (number_at numbers.now)) key.now }
{
    match (key, other) {
        (Some(key), Some(other)) => same_nodes(numbers, key.node(), other.node()),
        (None, None) => true,
        _ => false,
    }
}

// Returns whether the names are equal.
#[tactic(auto, using(crate::proofs::Texts::same_texts))]
fn same_names(names: &Names, others: &Names) -> bool
    ensures { result ≡ true → names.now ≡ others.now }
{
    names.list() == others.list()
}

// Returns the kind with the new numbers.
fn kind_under(numbers: &[u32], kind: Kind) -> Kind
    ensures { result ≡ kind_under (number_at numbers.now) kind }
{
    match kind {
        Kind::Room => Kind::Room,
        Kind::Exit(passage) => Kind::Exit(Passage {
            source: number_at(numbers, passage.source),
            destination: number_at(numbers, passage.destination),
            cost: passage.cost,
        }),
        Kind::Thing { place } => Kind::Thing {
            place: number_at(numbers, place),
        },
        Kind::Player { place } => Kind::Player {
            place: number_at(numbers, place),
        },
    }
}

// Returns whether the other record is this one with the new numbers.
fn same_records(numbers: &[u32], kept: &Record, other: &Record) -> bool
    ensures { result ≡ true → other.now ≡ record_under (number_at numbers.now) kept.now }
{
    if other.owner != number_at(numbers, kept.owner) {
        return false;
    }
    if other.kind != kind_under(numbers, kept.kind) || !same_names(&kept.names, &other.names) {
        return false;
    }
    same_keys(numbers, &kept.key, &other.key)
}

// Returns whether the object has its record under its new number, or neither number has an object.
fn same_at(numbers: &[u32], world: &World, other: &World, number: u32) -> bool
    ensures { result ≡ true → record_at other.now (number_at numbers.now number)
        ≡ option_map (record_under (number_at numbers.now)) (record_at world.now number) }
{
    match (world.get(number), other.get(number_at(numbers, number))) {
        (Some(kept), Some(moved)) => same_records(numbers, kept, moved),
        (None, None) => true,
        _ => false,
    }
}

// Returns whether each number of the world has its record under the new number.
fn same_records_all(numbers: &[u32], world: &World, other: &World) -> bool
    ensures { result ≡ true → (n : ℕ) → n < world.now.next → record_at other.now (number_at numbers.now n)
        ≡ option_map (record_under (number_at numbers.now)) (record_at world.now n) }
{
    for number in 0..world.next_number() {
        if !same_at(numbers, world, other, number) {
            return false;
        }
    }
    true
}

// Returns whether all new numbers in a key are below this one.
fn are_given(numbers: &[u32], node: &Node<u32>, next: u32) -> bool
    ensures { result ≡ true → AllObjects (λ o. number_at numbers.now o < next) (tree_of node.now) }
{
    match node {
        Node::Has(object) | Node::Asks(object) => number_at(numbers, *object) < next,
        Node::Not(key) => are_given(numbers, key, next),
        Node::Join(_, left, right) => {
            if !are_given(numbers, left, next) {
                return false;
            }
            are_given(numbers, right, next)
        }
    }
}

// Returns whether all new numbers in the key of an object are below this one.
fn are_given_at(numbers: &[u32], world: &World, number: u32, next: u32) -> bool
    ensures { result ≡ true → IfSome (key_of world.now number) (AllObjects (λ o. number_at numbers.now o < next)) }
{
    match world.get(number) {
        Some(Record { key: Some(key), .. }) => are_given(numbers, key.node(), next),
        _ => true,
    }
}

// Returns whether all new numbers in the keys of the world are below this one.
fn are_all_given(numbers: &[u32], world: &World, next: u32) -> bool
    ensures { result ≡ true → (n : ℕ) → n < world.now.next
        → IfSome (key_of world.now n) (AllObjects (λ o. number_at numbers.now o < next)) }
{
    for number in 0..world.next_number() {
        if !are_given_at(numbers, world, number, next) {
            return false;
        }
    }
    true
}

// Returns the least number that may follow, once this object has its number; nothing if its number is too low.
#[tactic(auto, using(crate::proofs::Compared::risen_without, crate::proofs::Compared::risen_with))]
fn least_after(numbers: &[u32], world: &World, number: u32, least: u32) -> Option<u32>
    requires { IsRisen (number_at numbers.now) world.now number least }
    ensures { IfSome result (IsRisen (number_at numbers.now) world.now (number + 1)) }
{
    if !world.exists(number) {
        return Some(least);
    }
    let new = number_at(numbers, number);
    if new < least || new > LAST_NUMBER {
        return None;
    }
    Some(new + 1)
}

// Returns whether the new numbers of the world's objects rise.
#[tactic(auto, using(crate::proofs::Compared::risen_none))]
fn do_rise(numbers: &[u32], world: &World) -> bool
    ensures { result ≡ true → (a b : ℕ) → b < world.now.next → IsTrue (exists world.now a)
        → IsTrue (exists world.now b) → a < b → number_at numbers.now a < number_at numbers.now b }
{
    let mut least = 0;
    for number in 0..world.next_number() {
        match least_after(numbers, world, number, least) {
            Some(next) => least = next,
            None => return false,
        }
    }
    true
}

// Returns whether the object of the other world is that of an old number. `backs` has the old numbers.
#[tactic(auto, using(crate::proofs::Compared::old_of))]
fn is_old(numbers: &[u32], backs: &[u32], world: &World, other: &World, new: u32) -> bool
    ensures { result ≡ true → IsTrue (exists other.now new)
        → (n : ℕ) × IsTrue (exists world.now n) × (number_at numbers.now n ≡ new) }
{
    if !other.exists(new) {
        return true;
    }
    let number = number_at(backs, new);
    if !world.exists(number) {
        return false;
    }
    number_at(numbers, number) == new
}

// Returns whether each object of the other world is that of an old number.
fn are_all_old(numbers: &[u32], backs: &[u32], world: &World, other: &World) -> bool
    ensures { result ≡ true → (m : ℕ) → m < other.now.next → IsTrue (exists other.now m)
        → (n : ℕ) × IsTrue (exists world.now n) × (number_at numbers.now n ≡ m) }
{
    for new in 0..other.next_number() {
        if !is_old(numbers, backs, world, other, new) {
            return false;
        }
    }
    true
}

/// Returns true only if the other world is this one but for its numbers. `numbers` has the new number of each old one,
/// and `backs` the old number of each new one.
#[tactic(auto, using(crate::proofs::Compared::renumbered))]
pub(crate) fn is_renumbered(numbers: &[u32], backs: &[u32], world: &World, other: &World) -> bool
    ensures { result ≡ true → IsRenumbered (number_at numbers.now) world.now other.now }
{
    if numbers.len() != world.next_number() as usize || other.next_number() > world.next_number() {
        return false;
    }
    if !same_records_all(numbers, world, other) || !are_all_old(numbers, backs, world, other) {
        return false;
    }
    if !do_rise(numbers, world) {
        return false;
    }
    are_all_given(numbers, world, other.next_number())
}
