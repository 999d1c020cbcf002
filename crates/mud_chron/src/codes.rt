//! Named bytes of a history's text (docs/HISTORY.md, "The text").

/// The double quote, which encloses names.
pub const QUOTE: u8 = 34;
