//! Recovers a journal that was cut at any byte.

ghost use Rattle.std.specs.Prelude.{◌≢◌, IfOk, IfErr, MatchBool};
ghost use mathlib.Core.List.{IsPrefix};
ghost use Rattle.mud_chron.specs.Faults.{IsNoHistory};
ghost use Rattle.mud_chron.specs.Fronts.{BeginsHead, Recovers, HasFrontFault};

use crate::entry::Entry;
use crate::fault::ChronFault;
use crate::format::Format;
use crate::line::{Line, line_of};
use crate::reading::{cut_line, format_of};
use mud_world::limits::MOST_ENTRIES;
use std::alloc::Global;

/// The prefix recovered from a journal that was cut at any byte.
#[derive(Drop)]
pub struct Front {
    /// The entries with complete lines, at most 65,536.
    pub entries: Vec<Entry>,
    /// The format that the first line names. If that line is incomplete, format 2, in which journals are written.
    pub format: Format,
    /// The number of bytes in the first line and the lines of the entries, or 0 if the first line is incomplete.
    pub keep: usize,
}

// Returns whether the bytes are a prefix of this text.
fn begins(bytes: &[u8], text: &[u8]) -> bool
    ensures { MatchBool result (IsPrefix bytes.now text.now) (¬ IsPrefix bytes.now text.now) }
{
    text.starts_with(bytes)
}

// Returns whether the bytes are a prefix of a first line.
fn begins_head(bytes: &[u8]) -> bool
    ensures { MatchBool result (BeginsHead bytes.now) (¬ BeginsHead bytes.now) }
{
    if begins(bytes, Format::One.first_line().as_bytes()) {
        return true;
    }
    begins(bytes, Format::Two.first_line().as_bytes())
}

// Returns the result for bytes without a complete first line.
fn without_head(alloc: Global, bytes: &[u8]) -> Result<Front, ChronFault>
    requires { IsNoHistory bytes.now }
    ensures ok { IfOk result (λ f. Recovers bytes.now f.format f.entries.items f.keep) }
    ensures fault { IfErr result (λ fault. fault ≢ ChronFault.OutOfMemory → HasFrontFault bytes.now fault) }
{
    if !begins_head(bytes) {
        return Err(ChronFault::NotHistory);
    }
    Ok(Front {
        entries: Vec::new(alloc),
        format: Format::Two,
        keep: 0,
    })
}

/// Recovers the longest readable prefix of a journal that was cut at any byte (docs/HISTORY.md, "Journals"). A journal
/// is the text of a history, in either format, without its last line. An incomplete last line is dropped, whatever it
/// holds. Any other bytes have a fault: `NotHistory`, `TooLong` or `BadLine`. The last line of a whole history is a bad
/// line here too. The only other error is out of memory. The time is linear in the bytes.
pub fn read_front(alloc: Global, bytes: &[u8]) -> Result<Front, ChronFault>
    ensures ok { IfOk result (λ f. Recovers bytes.now f.format f.entries.items f.keep) }
    ensures fault { IfErr result (λ fault. fault ≢ ChronFault.OutOfMemory → HasFrontFault bytes.now fault) }
{
    let Some((format, mut rest)) = format_of(bytes) else {
        return without_head(alloc, bytes);
    };
    let mut entries = Vec::new(alloc);
    while let Some((line, more)) = cut_line(rest) {
        match line_of(alloc, format, entries.len(), line)? {
            Line::Entry(entry) => {
                if entries.len() == MOST_ENTRIES {
                    return Err(ChronFault::TooLong);
                }
                entries.push(entry)?;
                rest = more;
            }
            Line::End => return Err(ChronFault::BadLine(entries.len() + 2)),
            Line::Bad => return Err(ChronFault::BadLine(entries.len() + 2)),
        }
    }
    let keep = bytes.len() - rest.len();
    Ok(Front {
        entries,
        format,
        keep,
    })
}
