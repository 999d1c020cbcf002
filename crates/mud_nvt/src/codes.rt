//! Named bytes: the commands of RFC 854, and the control characters of US-ASCII.

/// Interpret as command: begins a command. IAC IAC is the data byte 255.
pub const IAC: u8 = 255;
/// Subnegotiation end.
pub const SE: u8 = 240;
/// Are you there.
pub const AYT: u8 = 246;
/// Erase character.
pub const EC: u8 = 247;
/// Erase line.
pub const EL: u8 = 248;
/// Subnegotiation begins.
pub const SB: u8 = 250;
/// The sender offers to use an option.
pub const WILL: u8 = 251;
/// The sender refuses to use an option.
pub const WONT: u8 = 252;
/// The sender asks the receiver to use an option.
pub const DO: u8 = 253;
/// The sender asks the receiver not to use an option.
pub const DONT: u8 = 254;

/// Null.
pub const NUL: u8 = 0;
/// Back space.
pub const BS: u8 = 8;
/// Horizontal tab.
pub const HT: u8 = 9;
/// Line feed.
pub const LF: u8 = 10;
/// Carriage return.
pub const CR: u8 = 13;
/// Delete.
pub const DEL: u8 = 127;

/// The first printable character.
pub const SPACE: u8 = 32;
/// The last printable character.
pub const TILDE: u8 = 126;
