//! Nodes of a key.

use crate::operator::Operator;

/// A node of a key. Its objects are texts as written, or numbers as resolved. Parentheses leave no node (docs/KEYS.md,
/// "Keys").
#[derive(Drop)]
pub enum Node<O> {
    /// An object: true if it is the candidate, or inside the candidate at any depth.
    Has(O),
    /// `?` and an object: true if the object exists and is unlocked for the candidate.
    Asks(O),
    /// `!` and a key.
    Not(Box<Node<O>>),
    /// Two keys joined by an operator.
    Join(Operator, Box<Node<O>>, Box<Node<O>>),
}
