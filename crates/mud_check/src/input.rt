//! Splits standard input into two texts.

ghost use Rattle.std.specs.Prelude.{◌≡◌};
ghost use Rattle.mud_check.specs.Input.{begins_end};
ghost use Rattle.mud_check.specs.Input.{IsSplit};

use memchr::memchr;

// Returns whether the line begins like the last line of a history.
fn begins_end(line: &[u8]) -> bool
    ensures { result ≡ begins_end line.now }
{
    line.starts_with(b"end ")
}

/// Splits the bytes into the history's text and the proof's text. The history's text ends with the first line that
/// begins with `end `, with or without its LF. Without such a line it is all of the bytes.
pub fn split(bytes: &[u8]) -> (&[u8], &[u8])
    ensures { IsSplit bytes.now result.0.now result.1.now }
{
    let mut rest = bytes;
    while let Some(at) = memchr(b'\n', rest) {
        let (line, ended) = rest.split_at(at);
        let behind = &ended[1..];
        if begins_end(line) {
            let len = bytes.len() - behind.len();
            return (&bytes[..len], behind);
        }
        rest = behind;
    }
    (bytes, &[])
}
