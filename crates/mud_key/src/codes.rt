//! Named bytes.

/// The space, the first byte that a name may contain. No name begins or ends with it (docs/KEYS.md, "Names").
pub const SPACE: u8 = 32;
/// The tilde, the last byte that a name may contain (docs/KEYS.md, "Names").
pub const TILDE: u8 = 126;
/// The sharp, `#`. It precedes a number, and no name begins with it (docs/KEYS.md, "Names" and "Keys").
pub const SHARP: u8 = 35;
/// The comma. It separates the parts of a text (docs/KEYS.md, "Parts").
pub const COMMA: u8 = 44;
/// The opening parenthesis, `(` (docs/KEYS.md, "Keys").
pub const PARENTHESIS: u8 = 40;
/// The first digit, `0`.
pub const ZERO: u8 = 48;
/// The last digit, `9`.
pub const NINE: u8 = 57;
/// Line feed: it ends a line of a history and of a certificate (docs/HISTORY.md, docs/CERTIFICATES.md, "The text").
pub const LF: u8 = 10;
/// Carriage return. It occurs in no text of a history or of a certificate.
pub const CR: u8 = 13;
