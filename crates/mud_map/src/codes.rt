//! The bytes of an escape sequence in a double-quoted text (docs/KEEPING.md, "Map").

/// The backslash. It escapes a quote and a backslash, and with a lower-case n it stands for a line feed.
pub const BACKSLASH: u8 = 92;
/// The lower-case n: after a backslash it stands for a line feed.
pub const SMALL_N: u8 = 110;
