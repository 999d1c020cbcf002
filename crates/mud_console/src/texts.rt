//! The arguments of orders: numbers, and texts for players.

ghost use Rattle.std.specs.Prelude.{◌≡◌};
ghost use Rattle.std.specs.List.{list_all};
ghost use Rattle.mud_console.specs.Texts.{number_in, is_printable, can_be_told};

/// The greatest length of an announced text, in bytes.
pub const MOST_TOLD: usize = 900;

/// Parses decimal digits without a sign. Returns `None` if they are no number below 2 ^ 32.
pub(crate) fn number_in(digits: &str) -> Option<u32>
    ensures { result ≡ number_in digits.now }
{
    let bytes = digits.as_bytes();
    if !bytes.is_empty() && bytes[0] == b'+' {
        return None;
    }
    digits.parse().ok()
}

// Returns whether all bytes are printable ASCII.
fn are_printable(text: &[u8]) -> bool
    ensures { result ≡ list_all is_printable text.now }
{
    text.iter().all(|byte| matches!(*byte, b' '..=b'~'))
}

/// Returns whether a text can be announced: 1 to 900 bytes of printable ASCII.
pub(crate) fn can_be_told(text: &str) -> bool
    ensures { result ≡ can_be_told text.now }
{
    !text.is_empty() && text.len() <= MOST_TOLD && are_printable(text.as_bytes())
}
