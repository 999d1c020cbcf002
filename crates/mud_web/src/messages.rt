//! Cuts a text into messages.

ghost use Rattle.std.specs.Prelude.{◌≡◌, ◌≤◌, ◌<◌, length};
ghost use Rattle.mud_web.specs.inner.Cuts.{IsLastEnd, first_len};

/// The greatest length of a sent message, in bytes. Clients refuse messages above a limit of their own (RFC 6455,
/// section 10.4), which is rarely below this one.
pub const MOST_SENT: usize = 65_536;

/// Returns the length of a text's first message: the whole text if it fits, and otherwise as many whole lines as fit.
pub fn message_len(text: &[u8]) -> usize
    ensures value { result ≡ first_len text.now }
    ensures within { result ≤ length text.now }
    ensures some { 0 < length text.now → 0 < result }
{
    if text.len() <= MOST_SENT {
        return text.len();
    }
    match last_end(&text[..MOST_SENT]) {
        0 => MOST_SENT,
        len => len,
    }
}

// Returns the number of bytes up to and including the last LF.
fn last_end(bytes: &[u8]) -> usize
    ensures { IsLastEnd bytes.now result }
{
    let mut len = 0;
    for (at, byte) in bytes.iter().enumerate() {
        if *byte == b'\n' {
            len = at + 1;
        }
    }
    len
}
