//! Laws of the definitions. Each contract is a law, and its function does nothing.

ghost use Rattle.std.specs.Prelude.{◌≡◌};
ghost use Rattle.mud_map.specs.declared.codes.TheConstants.{BACKSLASH, SMALL_N};
ghost use Rattle.mud_map.specs.Laws.{IsReadAsMeant};

/// A reader of an escaped text between quotes gets the original text.
pub fn read_as_meant()
    ensures { IsReadAsMeant }
{}

/// Promises the bytes of an escape sequence.
pub fn codes()
    ensures { (BACKSLASH ≡ 92) × (SMALL_N ≡ 110) }
{}
