//! Zero bytes that a disk shows where nothing was written.

ghost use Rattle.std.specs.Prelude.{◌≡◌, ◌≤◌, length};
ghost use Rattle.mud_chron.specs.Zeros.{up_to_zero};

/// Returns the bytes before the first zero. A disk may show zeros after a text that was cut.
pub fn before_zero(bytes: &[u8]) -> &[u8]
    ensures is { result.now ≡ up_to_zero bytes.now }
    ensures within { length result.now ≤ length bytes.now }
{
    for (i, b) in bytes.iter().enumerate() {
        if *b == 0 {
            return &bytes[..i];
        }
    }
    bytes
}
