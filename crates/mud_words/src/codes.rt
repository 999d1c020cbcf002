//! Named bytes: US-ASCII characters with a meaning in a line.

/// Space: separates words, except inside double quotes.
pub const SPACE: u8 = 32;
/// Double quote: begins and ends a quotation. At the start of a line it stands for `say`.
pub const QUOTE: u8 = 34;
/// Colon: at the start of a line it stands for `emote`.
pub const COLON: u8 = 58;
/// Semicolon: at the start of a line it stands for `eval`.
pub const SEMICOLON: u8 = 59;
/// Backslash: makes the next character stand for itself.
pub const BACKSLASH: u8 = 92;
