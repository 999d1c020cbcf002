//! Splits a text at its commas.

ghost use Rattle.std.specs.Prelude.{◌≡◌, IfOk, map, string_bytes};
ghost use Rattle.mud_key.specs.Commas.{parts_of};
ghost use Rattle.mud_key.specs.inner.NamesTexts.{without_outer_spaces};

use std::alloc::{AllocError, Global};

/// Splits the text at its commas, and trims the spaces at both ends of each part. A text without a comma is one part,
/// and a part may be empty. Every other character is kept, ASCII or not (docs/KEYS.md, "Parts").
pub fn parts(alloc: Global, text: &str) -> Result<Vec<String>, AllocError>
    ensures { IfOk result (λ parts. map string_bytes parts.items ≡ parts_of text.now) }
{
    let mut parts = Vec::new(alloc);
    for stretch in text.split(',') {
        parts.push(String::from_str(alloc, without_outer_spaces(stretch))?)?;
    }
    Ok(parts)
}

/// Returns the text without leading and trailing spaces.
fn without_outer_spaces(text: &str) -> &str
    ensures { result.now ≡ without_outer_spaces text.now }
{
    text.trim_start_matches(' ').trim_end_matches(' ')
}
