//! Laws of the definitions. Each contract is a law, and its function does nothing.

ghost use Rattle.std.specs.Prelude.{◌≡◌};
ghost use Rattle.mud_cli.specs.declared.limits.TheConstants.{MOST_CAPACITY, MOST_WORKERS, MOST_TOTAL};

/// Promises the largest numbers that a command line accepts.
pub fn limits()
    ensures service { (MOST_CAPACITY ≡ 65_536) × (MOST_WORKERS ≡ 8) × (MOST_TOTAL ≡ 65_536) }
{}
