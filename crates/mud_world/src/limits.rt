//! The limits of a world and of its history.

use mud_key::limits::LAST_NUMBER;

/// The number of object numbers: the greatest possible number of objects (docs/WORLD.md, "Objects").
pub const NUMBERS: usize = LAST_NUMBER as usize + 1;

/// The greatest cost of an exit (docs/WORLD.md, "Changes").
pub const MOST_COST: u32 = 10_000;

/// The greatest length of a speech, in bytes (docs/WORLD.md, "Changes").
pub const MOST_SPEECH: usize = 900;

/// The greatest nesting of a key: the number of questions in a chain (docs/WORLD.md, "Keys").
pub const MOST_NESTING: u32 = 3;

/// The number of levels with which an object's own key is read. It begins a chain of at most `MOST_NESTING` questions
/// (docs/WORLD.md, "Keys").
pub const KEY_LEVELS: u32 = MOST_NESTING + 1;

/// The greatest number of players in a meeting, and so of members in a search or a certificate (docs/COMMANDS.md,
/// `meet`).
pub const MOST_PARTY: usize = 8;

/// The greatest number of entries in a history, and so the greatest version of a world (docs/HISTORY.md, "Entries").
pub const MOST_ENTRIES: usize = 65_536;
