//! Reads the text of a history.

ghost use Rattle.std.specs.Prelude.{◌≡◌, ◌≢◌, ◌++◌, IfOk, IfErr, MatchOption};
ghost use Rattle.mud_chron.specs.Text.{line_feed, head_line};
ghost use Rattle.mud_chron.specs.History.{SpellsHistory};
ghost use Rattle.mud_chron.specs.Faults.{IsNoHistory, HasFault};
ghost use Rattle.mud_key.specs.Lines.{HasNoLineFeed};

use crate::entry::Entry;
use crate::fault::ChronFault;
use crate::format::Format;
use crate::line::{Line, line_of};
use memchr::memchr;
use mud_key::codes::LF;
use mud_world::limits::MOST_ENTRIES;
use std::alloc::Global;

// Returns the first line without its end, and the bytes after it.
pub(crate) fn cut_line(bytes: &[u8]) -> Option<(&[u8], &[u8])>
    ensures { MatchOption result (HasNoLineFeed bytes.now)
        (λ p. HasNoLineFeed p.0.now × (bytes.now ≡ p.0.now ++ line_feed ++ p.1.now)) }
{
    let Some(at) = memchr(LF, bytes) else {
        return None;
    };
    let (line, ended) = bytes.split_at(at);
    Some((line, &ended[1..]))
}

// Returns the format that the first line names, and the bytes after it.
pub(crate) fn format_of(bytes: &[u8]) -> Option<(Format, &[u8])>
    ensures { MatchOption result (IsNoHistory bytes.now)
        (λ p. bytes.now ≡ head_line p.0 ++ line_feed ++ p.1.now) }
{
    if let Some(rest) = bytes.strip_prefix(Format::Two.first_line().as_bytes()) {
        return Some((Format::Two, rest));
    }
    match bytes.strip_prefix(Format::One.first_line().as_bytes()) {
        Some(rest) => Some((Format::One, rest)),
        None => None,
    }
}

/// Reads the entries of a history's text, in either format (docs/HISTORY.md). It accepts exactly the texts of
/// histories. Any other bytes have exactly one fault, and it is returned. The only other error is out of memory. The
/// time is linear in the bytes.
pub fn read_history(alloc: Global, bytes: &[u8]) -> Result<Vec<Entry>, ChronFault>
    ensures ok { IfOk result (λ entries. SpellsHistory bytes.now entries.items) }
    ensures err { IfErr result (λ fault. fault ≢ ChronFault.OutOfMemory → HasFault bytes.now fault) }
{
    let (format, mut rest) = match format_of(bytes) {
        Some(found) => found,
        None => return Err(ChronFault::NotHistory),
    };
    let mut entries = Vec::new(alloc);
    while let Some((line, more)) = cut_line(rest) {
        match line_of(alloc, format, entries.len(), line)? {
            Line::Entry(entry) => {
                if entries.len() == MOST_ENTRIES {
                    return Err(ChronFault::TooLong);
                }
                entries.push(entry)?;
                rest = more;
            }
            Line::End => {
                if more.is_empty() {
                    return Ok(entries);
                }
                return Err(ChronFault::BadLine(entries.len() + 3));
            }
            Line::Bad => return Err(ChronFault::BadLine(entries.len() + 2)),
        }
    }
    Err(ChronFault::NoEnd)
}
