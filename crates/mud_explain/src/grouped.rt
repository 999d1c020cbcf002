//! Prints keys with all parentheses.

ghost use Rattle.std.specs.Prelude.{◌≡◌, ◌++◌, OnOk, string_bytes};
ghost use Rattle.mud_key.specs.KeyText.{sign};
ghost use Rattle.mud_key.specs.Node.{reading_of};
ghost use Rattle.mud_explain.specs.Key.{group_text};

use mud_key::{Node, Operator};
use std::alloc::AllocError;

// Returns the sign of an operator.
fn sign_of(operator: Operator) -> &'static str
    ensures { result.now ≡ sign operator }
{
    match operator {
        Operator::And => "&&",
        Operator::Or => "||",
    }
}

// Appends the text of a key, with parentheses around each join. The type of a key limits its size, and so the depth of
// this recursion.
pub(crate) fn push_grouped(out: &mut String, node: &Node<String>) -> Result<(), AllocError>
    ensures { OnOk result (string_bytes out.new ≡ string_bytes out.old ++ group_text (reading_of node.now)) }
{
    match node {
        Node::Has(text) => out.push_str(text.as_str()),
        Node::Asks(text) => {
            out.push('?')?;
            out.push_str(text.as_str())
        }
        Node::Not(negated) => {
            out.push('!')?;
            push_grouped(out, negated)
        }
        Node::Join(operator, left, right) => {
            out.push('(')?;
            push_grouped(out, left)?;
            write!(out, " {} ", sign_of(*operator))?;
            push_grouped(out, right)?;
            out.push(')')
        }
    }
}
