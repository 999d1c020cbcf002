//! Laws of the definitions: each contract is a law, and its function does nothing.

ghost use Rattle.mud_diff.specs.Laws.{SameWithoutDifference, NothingDiffersFromItself};

/// Worlds of one next number that differ in nothing are the same.
pub fn same_without_difference()
    ensures { SameWithoutDifference }
{}

/// A world differs in nothing from itself.
pub fn nothing_differs_from_itself()
    ensures { NothingDiffersFromItself }
{}
