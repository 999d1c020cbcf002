//! Limits of a history.

/// The greatest number of desks of a history; they are numbered from 1 (docs/HISTORY.md, "Entries").
pub const MOST_DESKS: u32 = 64;
