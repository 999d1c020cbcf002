//! Resolves the texts of a key.

ghost use Rattle.std.specs.Prelude.{◌≡◌, ◌≤◌, ℕ, List, Result, Ok, Err, IfOk, MatchResult};
ghost use Rattle.mud_key.specs.declared.limits.TheConstants.{LAST_NUMBER};
ghost use Rattle.mud_key.specs.declared.namer.Miss.{Miss};
ghost use Rattle.mud_key.specs.Tree.{AllObjects};
ghost use Rattle.mud_key.specs.Node.{reading_of, key_of};
ghost use Rattle.mud_key.specs.Namer.{ResolvesAs, resolved};
ghost use Rattle.mud_key.specs.inner.Namer.{NodeResolvesAs, fault_of};

use crate::key::{Key, join, not};
use crate::key_fault::KeyFault;
use crate::key_text::KeyText;
use crate::node::Node;
use std::alloc::Global;
use thiserror::Error;

/// The reason why a text names no object (docs/KEYS.md, "Faults").
#[derive(Clone, Copy, PartialEq, Eq, Debug, Error)]
pub enum Miss {
    /// The text names nothing.
    #[error("it names nothing")]
    NoSuch,
    /// The text names several objects.
    #[error("it names several")]
    Ambiguous,
}

/// A resolver of object texts: a look-up by number, or a match among the things in reach. `meaning` is its result for
/// each text.
pub trait Namer {
    ghost meaning: { Self → List ℕ → Result ℕ Miss };

    /// Returns the number of the object that the text names, from 0 to 8,191.
    fn name(&self, text: &str) -> Result<u32, Miss>
        ensures means { result ≡ meaning self.now text.now }
        ensures number { IfOk result (λ n. n ≤ LAST_NUMBER) };
}

/// Replaces each text of a key by the object that it names. The error is the fault of the first text, in order, that
/// names no object (docs/KEYS.md, "Faults"), never `BadKey` or `TooManyAtoms`.
pub fn resolve<N: Namer>(alloc: Global, key: &KeyText, namer: &N) -> Result<Key, KeyFault>
    ensures { ResolvesAs (resolved (N.meaning namer.now) key.now) result }
{
    Ok(Key::of(alloc, resolve_node(alloc, key.node(), namer)?)?)
}

fn resolve_node<N: Namer>(
    alloc: Global,
    node: &Node<String>,
    namer: &N,
) -> Result<Node<u32>, KeyFault>
    ensures resolves { NodeResolvesAs (resolved (N.meaning namer.now) (reading_of node.now)) result }
    ensures numbers { IfOk result (λ k. AllObjects (λ n. n ≤ LAST_NUMBER) (key_of k)) }
{
    match node {
        Node::Has(text) => Ok(Node::Has(number(text.as_str(), namer)?)),
        Node::Asks(text) => Ok(Node::Asks(number(text.as_str(), namer)?)),
        Node::Not(k) => Ok(not(alloc, resolve_node(alloc, k, namer)?)?),
        Node::Join(operator, a, b) => {
            let a = resolve_node(alloc, a, namer)?;
            let b = resolve_node(alloc, b, namer)?;
            Ok(join(alloc, *operator, a, b)?)
        }
    }
}

fn number<N: Namer>(text: &str, namer: &N) -> Result<u32, KeyFault>
    ensures number { IfOk result (λ n. n ≤ LAST_NUMBER) }
    ensures means { MatchResult result (λ n. N.meaning namer.now text.now ≡ Ok n)
        (λ e. (m : Miss) × (e ≡ fault_of m) × (N.meaning namer.now text.now ≡ Err m)) }
{
    match namer.name(text) {
        Ok(n) => Ok(n),
        Err(Miss::NoSuch) => Err(KeyFault::NoSuch),
        Err(Miss::Ambiguous) => Err(KeyFault::Ambiguous),
    }
}
