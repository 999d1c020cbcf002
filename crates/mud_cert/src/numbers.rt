//! Reads leading numbers.

ghost use Rattle.std.specs.Prelude.{◌≡◌, ◌<◌, option_map};
ghost use Rattle.mud_cert.specs.inner.Reader.{is_digit, small, digits_on, number_at, object_at};

use mud_key::limits::{AMOUNTS, LAST_NUMBER};

/// Returns whether the byte is a digit.
fn is_digit(byte: u8) -> bool
    ensures { result ≡ is_digit byte }
{
    b'0' <= byte && byte <= b'9'
}

/// Returns the number and the rest, if it has at most nine digits.
fn small(number: u64, rest: &[u8]) -> Option<(u32, &[u8])>
    ensures { option_map (λ x. (x.0, x.1.now)) result ≡ small (number, rest.now) }
{
    if number < AMOUNTS {
        Some((number as u32, rest))
    } else {
        None
    }
}

/// Returns the number that the leading digits continue, if it has at most nine digits, and the bytes after them.
fn digits_on(start: u8, bytes: &[u8]) -> Option<(u32, &[u8])>
    requires { start < 10 }
    ensures { option_map (λ x. (x.0, x.1.now)) result ≡ small (digits_on start bytes.now) }
{
    let mut number = u64::from(start);
    for (i, digit) in bytes.iter().enumerate() {
        if !is_digit(*digit) {
            return small(number, &bytes[i..]);
        }
        if number >= AMOUNTS {
            return None;
        }
        number = number * 10 + u64::from(*digit - b'0');
    }
    small(number, &bytes[bytes.len()..])
}

/// Returns a number of at most nine digits without leading zeros, and the bytes after it.
#[tactic(auto, unfolding(crate::specs::inner::Reader::number_at))]
pub fn number_at(bytes: &[u8]) -> Option<(u32, &[u8])>
    ensures { option_map (λ x. (x.0, x.1.now)) result ≡ number_at bytes.now }
{
    match bytes {
        [] => None,
        [first, rest @ ..] => {
            if *first == b'0' {
                Some((0, rest))
            } else if is_digit(*first) {
                digits_on(*first - b'0', rest)
            } else {
                None
            }
        }
    }
}

/// Returns the number of an object, and the bytes after it.
#[tactic(auto, unfolding(crate::specs::inner::Reader::object_at))]
pub fn object_at(bytes: &[u8]) -> Option<(u32, &[u8])>
    ensures { option_map (λ x. (x.0, x.1.now)) result ≡ object_at bytes.now }
{
    let (number, rest) = number_at(bytes)?;
    if number <= LAST_NUMBER {
        Some((number, rest))
    } else {
        None
    }
}
