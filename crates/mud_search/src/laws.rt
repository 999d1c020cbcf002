//! The proved facts about the constants that contracts cite. The functions do nothing.

ghost use Rattle.std.specs.Prelude.{◌≡◌};
ghost use Rattle.mud_search.specs.declared.limits.TheConstants.{MOST_WORKERS};

/// Promises the greatest number of workers.
pub fn limits()
    ensures most_workers { MOST_WORKERS ≡ 8 }
{}
