//! Laws of the definitions. Each contract is a law, and its function does nothing.

ghost use Rattle.std.specs.Prelude.{◌≡◌};
ghost use Rattle.mud_console.specs.declared.texts.TheConstants.{MOST_TOLD};

/// Promises the greatest length of an announced text, in bytes.
pub fn limits()
    ensures { MOST_TOLD ≡ 900 }
{}
