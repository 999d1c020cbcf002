//! Laws of the definitions. Each contract is a law, and its function does nothing.

ghost use Rattle.std.specs.Prelude.{◌≡◌};
ghost use Rattle.mud_bans.specs.declared.bans.TheConstants.{MOST_BANS};

/// Promises the greatest number of bans.
pub fn limits()
    ensures { MOST_BANS ≡ 4096 }
{}
