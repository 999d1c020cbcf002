//! Keys over object numbers.

ghost use Rattle.std.specs.Prelude.{◌≡◌, ◌++◌, IfOk, OnOk};
ghost use Rattle.mud_key.specs.Tree.{Not, Join, IsKey, atoms_of, asks_of};
ghost use Rattle.mud_key.specs.Node.{key_of};

use crate::node::Node;
use crate::operator::Operator;
use std::alloc::{AllocError, Global};
use std::marker::Model;
use std::sync::Arc;

/// A key over objects with numbers from 0 to 8,191. It has at most 16 objects and 64 `!` (docs/KEYS.md, "Keys"). A
/// contract sees its tree. Copies share the tree in memory, also across threads.
#[derive(Drop)]
pub struct Key {
    tree: Arc<Node<u32>>,
}

impl Model for Key {
    ghost use Rattle.std.specs.Prelude.{ℕ};
    ghost use Rattle.mud_key.specs.Tree.{Tree, IsKey};
    ghost use Rattle.mud_key.specs.TreeCode.{coded_number_tree};
    ghost use Rattle.mud_key.specs.Node.{key_of};

    ghost Value = { Tree ℕ };

    ghost coded = { coded_number_tree };

    ghost view = { λ k. key_of k.tree.value };

    ghost invariant = { λ k. IsKey (key_of k.tree.value) };
}

impl Key {
    /// Returns the key with this root.
    pub(crate) fn of(alloc: Global, tree: Node<u32>) -> Result<Key, AllocError>
        requires { IsKey (key_of tree) }
        ensures { IfOk result (λ key. key ≡ key_of tree) }
    {
        Ok(Key {
            tree: Arc::new(alloc, tree)?,
        })
    }

    /// Returns the root of the tree, for a recursive descent.
    pub fn node(&self) -> &Node<u32>
        ensures node { key_of result.now ≡ self.now }
        ensures key { IsKey self.now }
    {
        &self.tree
    }

    /// Returns an equal key, which shares the tree.
    pub fn copy(&self) -> Result<Key, AllocError>
        ensures { IfOk result (λ key. key ≡ self.now) }
    {
        Ok(Key {
            tree: Arc::try_clone(&self.tree)?,
        })
    }
}

/// Returns `!` applied to a key.
pub(crate) fn not(alloc: Global, k: Node<u32>) -> Result<Node<u32>, AllocError>
    ensures { IfOk result (λ n. key_of n ≡ Not (key_of k)) }
{
    Ok(Node::Not(Box::new(alloc, k)?))
}

/// Returns two keys joined by an operator.
pub(crate) fn join(
    alloc: Global,
    operator: Operator,
    a: Node<u32>,
    b: Node<u32>,
) -> Result<Node<u32>, AllocError>
    ensures { IfOk result (λ n. key_of n ≡ Join operator (key_of a) (key_of b)) }
{
    let a = Box::new(alloc, a)?;
    Ok(Node::Join(operator, a, Box::new(alloc, b)?))
}

/// Returns the objects in the order of the key's text, one for each occurrence.
pub fn atoms(alloc: Global, key: &Key) -> Result<Vec<u32>, AllocError>
    ensures { IfOk result (λ v. v.items ≡ atoms_of key.now) }
{
    let mut out = Vec::new(alloc);
    push_atoms(&mut out, key.node())?;
    Ok(out)
}

fn push_atoms(out: &mut Vec<u32>, node: &Node<u32>) -> Result<(), AllocError>
    ensures { OnOk result (out.new.items ≡ out.old.items ++ atoms_of (key_of node.now)) }
{
    match node {
        Node::Has(n) | Node::Asks(n) => {
            out.push(*n)?;
            Ok(())
        }
        Node::Not(k) => push_atoms(out, k),
        Node::Join(_, a, b) => {
            push_atoms(out, a)?;
            push_atoms(out, b)
        }
    }
}

/// Returns the objects after `?` in the order of the key's text, one for each occurrence.
pub fn asks(alloc: Global, key: &Key) -> Result<Vec<u32>, AllocError>
    ensures { IfOk result (λ v. v.items ≡ asks_of key.now) }
{
    let mut out = Vec::new(alloc);
    push_asks(&mut out, key.node())?;
    Ok(out)
}

fn push_asks(out: &mut Vec<u32>, node: &Node<u32>) -> Result<(), AllocError>
    ensures { OnOk result (out.new.items ≡ out.old.items ++ asks_of (key_of node.now)) }
{
    match node {
        Node::Has(_) => Ok(()),
        Node::Asks(n) => {
            out.push(*n)?;
            Ok(())
        }
        Node::Not(k) => push_asks(out, k),
        Node::Join(_, a, b) => {
            push_asks(out, a)?;
            push_asks(out, b)
        }
    }
}
