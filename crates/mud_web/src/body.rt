//! The part of an answer that is sent.

ghost use Rattle.std.specs.Prelude.{◌≡◌, ◌↔◌, ◌++◌, ℕ, List};
ghost use Rattle.mud_web.specs.declared.body.Body.TheVariants.{LeftOut};
ghost use Rattle.mud_web.specs.Parts.{AsksForHead, IsPart};
ghost use Rattle.mud_web.specs.inner.Fronts.{behind_ends};

/// Says whether the body of an answer is sent.
#[derive(Clone, Copy, Debug, PartialEq, Eq)]
pub enum Body {
    /// The body is sent.
    Sent,
    /// The body is left out, because the request is HEAD (RFC 9110, section 9.3.2).
    LeftOut,
}

impl Body {
    /// Returns whether the answer to this head, or prefix of a head, has its body sent.
    pub fn of(head: &[u8]) -> Body
        ensures { (result ≡ LeftOut) ↔ AsksForHead head.now }
    {
        if behind_ends(head).starts_with(b"HEAD ") {
            Body::LeftOut
        } else {
            Body::Sent
        }
    }

    /// Returns the part of an answer that is sent: all of it, or everything up to and including its first empty line.
    pub fn part(self, answer: &[u8]) -> &[u8]
        ensures { IsPart self answer.now result.now }
    {
        match self {
            Body::Sent => answer,
            Body::LeftOut => head_of(answer),
        }
    }
}

// Returns the bytes after the leading line ends.
fn behind_ends(bytes: &[u8]) -> &[u8]
    ensures { result.now ≡ behind_ends bytes.now }
{
    for (at, byte) in bytes.iter().enumerate() {
        if !matches!(*byte, b'\r' | b'\n') {
            return &bytes[at..];
        }
    }
    &[]
}

// Returns everything up to and including the first empty line, or all bytes if there is none.
fn head_of(answer: &[u8]) -> &[u8]
    ensures { IsPart Body.LeftOut answer.now result.now }
{
    for at in 0..answer.len() {
        if answer[at..].starts_with(b"\r\n\r\n") {
            return &answer[..at + 4];
        }
    }
    answer
}
