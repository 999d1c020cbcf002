//! The limits of names and keys.

/// The greatest number of an object (docs/WORLD.md, "Objects").
pub const LAST_NUMBER: u32 = 8_191;

/// The greatest number of names of an object (docs/KEYS.md, "Names").
pub const MOST_NAMES: usize = 4;

/// The greatest length of a name, in bytes (docs/KEYS.md, "Names").
pub const MOST_NAME_BYTES: usize = 60;

/// The greatest number of objects in a key; each occurrence counts (docs/KEYS.md, "Keys").
pub const MOST_OBJECTS: usize = 16;

/// The greatest number of `!` in a key (docs/KEYS.md, "Keys").
pub const MOST_NOTS: usize = 64;

/// The greatest number of digits after a sharp (docs/KEYS.md, "Keys").
pub const MOST_DIGITS: usize = 9;

/// The number of values with at most `MOST_DIGITS` digits. Versions, costs and numbers of exits in a certificate are
/// below it (docs/CERTIFICATES.md, "The text").
pub const AMOUNTS: u64 = 1_000_000_000;
