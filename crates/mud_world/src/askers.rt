//! The lists of askers: for each number, the objects whose keys ask about that object.

ghost use Rattle.std.specs.Prelude.{◌≡◌, ℕ, not, ◌&&◌, nat_eq, OnOk, OnErr};
ghost use Rattle.std.specs.List.{list_any};
ghost use Rattle.mud_key.specs.Node.{key_of as tree_of};
ghost use Rattle.mud_key.specs.Tree.{asks_of};
ghost use Rattle.mud_index.specs.Rising.{put, without};
ghost use Rattle.mud_index.specs.Lists.{list_at, AreSame, AreChanged};
ghost use Rattle.mud_index.specs.inner.Lists.{AreBetween};
ghost use Rattle.mud_world.specs.inner.Edits.{asked_by, AreRekeyed};

use mud_index::Lists;
use mud_key::{Key, Node};
use std::alloc::AllocError;

fn node_asks(node: &Node<u32>, object: u32) -> bool
    ensures { result ≡ list_any (nat_eq object) (asks_of (tree_of node.now)) }
{
    match node {
        Node::Has(_) => false,
        Node::Asks(asked) => *asked == object,
        Node::Not(child) => node_asks(child, object),
        Node::Join(_, left, right) => node_asks(left, object) || node_asks(right, object),
    }
}

// Returns whether the key, if there is one, asks about the object.
fn asks(key: &Option<Key>, object: u32) -> bool
    ensures { result ≡ asked_by object key.now }
{
    match key {
        None => false,
        Some(key) => node_asks(key.node(), object),
    }
}

// Inserts an asker into the lists of all objects that its key asks about. If an allocation fails, some of the lists
// have it.
fn begin(askers: &mut Lists, node: &Node<u32>, asker: u32) -> Result<(), AllocError>
    ensures ok { OnOk result (AreChanged (λ n. list_any (nat_eq n) (asks_of (tree_of node.now))) (put asker)
        askers.old askers.new) }
    ensures err { OnErr result (AreBetween (λ n. list_any (nat_eq n) (asks_of (tree_of node.now))) (put asker)
        askers.old askers.new) }
{
    match node {
        Node::Has(_) => Ok(()),
        Node::Asks(asked) => askers.put(*asked, asker),
        Node::Not(child) => begin(askers, child, asker),
        Node::Join(_, left, right) => {
            begin(askers, left, asker)?;
            begin(askers, right, asker)
        }
    }
}

// Removes an asker from the lists of all objects that its key asks about and the kept key does not.
fn end(askers: &mut Lists, node: &Node<u32>, asker: u32, kept: &Option<Key>)
    ensures { AreChanged (λ n. not (asked_by n kept.now) && list_any (nat_eq n) (asks_of (tree_of node.now)))
        (without asker) askers.old askers.new }
{
    match node {
        Node::Has(_) => {}
        Node::Asks(asked) => {
            if !asks(kept, *asked) {
                askers.remove(*asked, asker);
            }
        }
        Node::Not(child) => end(askers, child, asker, kept),
        Node::Join(_, left, right) => {
            end(askers, left, asker, kept);
            end(askers, right, asker, kept);
        }
    }
}

// Inserts an asker as `begin` does. An error leaves the lists as they were: insertions are undone, except where the old
// key asks too.
fn ask(
    askers: &mut Lists,
    asker: u32,
    old: &Option<Key>,
    new: &Option<Key>,
) -> Result<(), AllocError>
    requires { (n : ℕ) → list_any (nat_eq asker) (list_at askers.old n) ≡ asked_by n old.now }
    ensures ok { OnOk result (AreChanged (λ n. asked_by n new.now) (put asker) askers.old askers.new) }
    ensures err { OnErr result (AreSame askers.old askers.new) }
{
    match new {
        None => Ok(()),
        Some(key) => {
            let node = key.node();
            let done = begin(askers, node, asker);
            if done.is_err() {
                end(askers, node, asker, old);
            }
            done
        }
    }
}

// Removes an asker from the lists, except where the kept key asks too.
pub(crate) fn leave(askers: &mut Lists, asker: u32, old: &Option<Key>, kept: &Option<Key>)
    ensures { AreChanged (λ n. not (asked_by n kept.now) && asked_by n old.now) (without asker) askers.old askers.new }
{
    match old {
        None => {}
        Some(key) => end(askers, key.node(), asker, kept),
    }
}

// Replaces the key of the asker.
pub(crate) fn exchange(
    askers: &mut Lists,
    asker: u32,
    old: &Option<Key>,
    new: &Option<Key>,
) -> Result<(), AllocError>
    requires { (n : ℕ) → list_any (nat_eq asker) (list_at askers.old n) ≡ asked_by n old.now }
    ensures ok { OnOk result (AreRekeyed asker old.now new.now askers.old askers.new) }
    ensures err { OnErr result (AreSame askers.old askers.new) }
{
    ask(askers, asker, old, new)?;
    leave(askers, asker, old, new);
    Ok(())
}
