ghost use Rattle.std.specs.Prelude.{◌≡◌, false};
ghost use Rattle.mud_words.specs.inner.Pieces.{piece, quoted_after, escaped_after};

/// The role of a byte in the words of a line.
#[derive(Clone, Copy)]
pub(crate) enum Piece {
    /// A space between words.
    Gap,
    /// A quote or a backslash that belongs to a word without being one of its characters.
    Mark,
    /// A byte of a plain character.
    Char(u8),
}

/// The quotation state before a byte.
#[derive(Clone, Copy)]
pub(crate) struct Quotes {
    /// A double quote is open.
    pub quoted: bool,
    /// The previous byte is a backslash that escapes this one.
    pub escaped: bool,
}

impl Quotes {
    pub(crate) fn new() -> Self
        ensures quoted { result.quoted ≡ false }
        ensures escaped { result.escaped ≡ false }
    {
        Self {
            quoted: false,
            escaped: false,
        }
    }

    /// Consumes the next byte and returns its role.
    pub(crate) fn take_byte(&mut self, byte: u8) -> Piece
        ensures piece { result ≡ piece self.old.quoted self.old.escaped byte }
        ensures quoted { self.new.quoted ≡ quoted_after self.old.quoted self.old.escaped byte }
        ensures escaped { self.new.escaped ≡ escaped_after self.old.escaped byte }
    {
        if self.escaped {
            self.escaped = false;
            return Piece::Char(byte);
        }
        match byte {
            b'\\' => self.escaped = true,
            b'"' => self.quoted = !self.quoted,
            b' ' if !self.quoted => return Piece::Gap,
            _ => return Piece::Char(byte),
        }
        Piece::Mark
    }
}
