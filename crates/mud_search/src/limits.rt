//! Limits of the workers.

/// The greatest number of workers of a search, including the caller's thread (docs/GUIDE.md, "Several workers").
pub const MOST_WORKERS: usize = 8;
