//! Prints keys.

ghost use Rattle.std.specs.Prelude.{◌≡◌, ◌++◌, IfOk, OnOk, string_bytes, codes, ℕ, List, ◌≤◌};
ghost use Rattle.mud_key.specs.KeyText.{sign, SpellsKey};
ghost use Rattle.mud_key.specs.Node.{key_of};
ghost use Rattle.mud_key.specs.Printed.{printed, by_text, ReadsBack, opens};
ghost use Rattle.mud_key.specs.inner.Parentheses.{opening_of, closing_of};

use crate::key::Key;
use crate::node::Node;
use crate::operator::Operator;
use std::alloc::{AllocError, Global};

/// Prints the key with the fewest parentheses, ` && `, ` || `, `!`, `?` and `#n` (docs/KEYS.md, "Printing"). The text
/// reads back as the key, if each `#n` is resolved to n.
pub fn print(alloc: Global, key: &Key) -> Result<String, AllocError>
    ensures text { IfOk result (λ s. string_bytes s ≡ printed (by_text key.now)) }
    ensures reads_back { IfOk result (λ s. ReadsBack (string_bytes s) key.now) }
    ensures least { IfOk result (λ s. (other : List ℕ)
        → SpellsKey other (by_text key.now) → opens (string_bytes s) ≤ opens other) }
{
    let mut out = String::new(alloc);
    print_node(&mut out, key.node())?;
    Ok(out)
}

/// Appends the text of the key.
fn print_node(out: &mut String, node: &Node<u32>) -> Result<(), AllocError>
    ensures { OnOk result (string_bytes out.new
        ≡ string_bytes out.old ++ printed (by_text (key_of node.now))) }
{
    match node {
        Node::Has(n) => write!(out, "#{n}"),
        Node::Asks(n) => write!(out, "?#{n}"),
        Node::Not(k) => {
            out.push_str("!")?;
            out.push_str(opening(k))?;
            print_node(out, k)?;
            out.push_str(closing(k))
        }
        Node::Join(operator, a, b) => {
            print_node(out, a)?;
            out.push_str(between(*operator))?;
            out.push_str(opening(b))?;
            print_node(out, b)?;
            out.push_str(closing(b))
        }
    }
}

/// Returns the opening parenthesis of a key in the place of a unary, if it needs one.
fn opening(node: &Node<u32>) -> &'static str
    ensures { result.now ≡ opening_of (by_text (key_of node.now)) }
{
    match node {
        Node::Join(_, _, _) => "(",
        _ => "",
    }
}

/// Returns the closing parenthesis of a key in the place of a unary, if it needs one.
fn closing(node: &Node<u32>) -> &'static str
    ensures { result.now ≡ closing_of (by_text (key_of node.now)) }
{
    match node {
        Node::Join(_, _, _) => ")",
        _ => "",
    }
}

/// Returns the operator with a space on each side.
fn between(operator: Operator) -> &'static str
    ensures { result.now ≡ codes " " ++ sign operator ++ codes " " }
{
    match operator {
        Operator::And => " && ",
        Operator::Or => " || ",
    }
}
