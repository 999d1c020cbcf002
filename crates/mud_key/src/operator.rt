//! The operators of keys.

/// An operator: `&&` is true if both keys are, and `||` if at least one is. Neither binds closer than the other
/// (docs/KEYS.md, "Keys").
#[derive(Clone, Copy, PartialEq, Eq, Debug)]
pub enum Operator {
    /// `&&`
    And,
    /// `||`
    Or,
}
