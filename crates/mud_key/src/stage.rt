//! Positions of the key reader.

use crate::operator::Operator;

/// The position inside the innermost open parenthesis.
#[derive(Clone, Copy)]
pub enum Stage {
    /// A unary is expected.
    Operand,
    /// An object is expected, after `?`.
    Asked,
    /// After a sharp and this many digits.
    Number(usize),
    /// In a name, or at a space that may belong to it.
    Named,
    /// After a complete chain.
    After,
    /// After the first half of an operator.
    Half(Operator),
}
