//! Decimal numbers.

ghost use Rattle.std.specs.Prelude.{ℕ, IfSome, IfNone};
ghost use Rattle.mud_bans.specs.Number.{IsNumber};

/// Parses decimal digits without a sign. Returns `None` if they are no number below 2 ^ 32.
pub(crate) fn number_in(digits: &str) -> Option<u32>
    ensures some { IfSome result (IsNumber digits.now) }
    ensures none { IfNone result ((n : ℕ) → ¬ (IsNumber digits.now n)) }
{
    let bytes = digits.as_bytes();
    if !bytes.is_empty() && bytes[0] == b'+' {
        return None;
    }
    digits.parse().ok()
}
