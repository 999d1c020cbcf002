//! The proved facts about the constants that contracts cite. The functions do nothing.

ghost use Rattle.std.specs.Prelude.{◌≡◌};
ghost use Rattle.mud_io.specs.declared.source.TheConstants.{MOST_READS};

/// Promises the value of `MOST_READS`.
pub fn limits()
    ensures most_reads { MOST_READS ≡ 16777216 }
{}
