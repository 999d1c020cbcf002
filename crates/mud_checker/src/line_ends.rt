//! Line ends.

ghost use Rattle.std.specs.Prelude.{◌≡◌, IfOk};
ghost use Rattle.mud_checker.specs.Finding.{without_returns};

use std::alloc::{AllocError, Global};

/// Returns the bytes without each CR directly before a LF; CR CR LF keeps one CR. The only error is out of memory.
pub fn without_returns(alloc: Global, bytes: &[u8]) -> Result<Vec<u8>, AllocError>
    ensures { IfOk result (λ kept. kept.items ≡ without_returns bytes.now) }
{
    let mut kept = Vec::with_capacity(alloc, bytes.len())?;
    let mut rest = bytes;
    while let [first, after @ ..] = rest {
        if *first != b'\r' || !after.starts_with(b"\n") {
            kept.push(*first)?;
        }
        rest = after;
    }
    Ok(kept)
}
