//! Reads a history or a journal.

ghost use Rattle.std.specs.Prelude.{◌≢◌, ◌≤◌, ◌<◌, length, IfOk, IfErr, string_bytes};
ghost use Rattle.mud_world.specs.declared.limits.TheConstants.{MOST_ENTRIES};
ghost use Rattle.mud_chron.specs.History.{SpellsHistory};
ghost use Rattle.mud_chron.specs.Faults.{HasFault};
ghost use Rattle.mud_checker.specs.Finding.{without_returns};
ghost use Rattle.mud_compact.specs.declared.reading.TextKind.TheVariants.{Journal};
ghost use Rattle.mud_chron.specs.Zeros.{up_to_zero};
ghost use Rattle.mud_compact.specs.Recovery.{HoldsEntries, KeepsEntries, IsRecovered};
ghost use Rattle.mud_compact.specs.Recovery.{HasJournalFault, HasKeptFault};

use crate::fault::KeptFault;
use mud_checker::without_returns;
use mud_chron::{ChronFault, Entry, before_zero, read_front, read_history, write_history};
use std::alloc::Global;

/// The kind of a file.
#[derive(Clone, Copy, Debug, PartialEq, Eq)]
pub enum TextKind {
    /// A history, with its last line. A CR directly before LF is dropped, as by `mud_check`.
    History,
    /// A journal, which may be cut at any byte. So may a history be, and only the owner of the file can tell them
    /// apart.
    Journal,
}

/// The contents of a file.
#[derive(Drop)]
pub struct Kept {
    /// The entries, at most 65,536.
    pub entries: Vec<Entry>,
    /// The number of torn bytes at the end of a journal; `None` for a history.
    pub torn: Option<usize>,
}

// Returns the entries of a history's text, in either format, ignoring CRs at line ends.
fn history_entries(alloc: Global, bytes: &[u8]) -> Result<Vec<Entry>, ChronFault>
    ensures few { IfOk result (λ entries. length entries.items ≤ MOST_ENTRIES) }
    ensures ok { IfOk result (λ entries. SpellsHistory (without_returns bytes.now) entries.items) }
    ensures err { IfErr result (λ fault. fault ≢ ChronFault.OutOfMemory
        → HasFault (without_returns bytes.now) fault) }
{
    let bytes = without_returns(alloc, bytes)?;
    read_history(alloc, &bytes)
}

// Returns the entries with complete lines in a non-empty journal, and the number of torn bytes.
fn journal_entries(alloc: Global, bytes: &[u8]) -> Result<(Vec<Entry>, usize), ChronFault>
    requires { 0 < length bytes.now }
    ensures few { IfOk result (λ held. length held.0.items ≤ MOST_ENTRIES) }
    ensures ok { IfOk result (λ held. HoldsEntries bytes.now held.0.items held.1) }
    ensures err { IfErr result (λ fault. fault ≢ ChronFault.OutOfMemory
        → HasJournalFault (up_to_zero bytes.now) fault) }
{
    let written = before_zero(bytes);
    let front = read_front(alloc, written)?;
    if front.keep == 0 {
        return Err(ChronFault::NotHistory);
    }
    let torn = bytes.len() - front.keep;
    Ok((front.entries, torn))
}

/// Reads the entries of a file, as `kind` says: the text of a history in either format, or a journal that was cut at
/// any byte (docs/KEEPING.md). Other bytes have their fault, and an empty file is `Empty`. The only other error is out
/// of memory.
pub fn read_kept(alloc: Global, kind: TextKind, bytes: &[u8]) -> Result<Kept, KeptFault>
    ensures few { IfOk result (λ kept. length kept.entries.items ≤ MOST_ENTRIES) }
    ensures ok { IfOk result (λ kept. KeepsEntries kind bytes.now kept.entries.items kept.torn) }
    ensures err { IfErr result (HasKeptFault kind bytes.now) }
{
    if bytes.is_empty() {
        return Err(KeptFault::Empty);
    }
    match kind {
        TextKind::History => {
            let entries = history_entries(alloc, bytes)?;
            Ok(Kept {
                entries,
                torn: None,
            })
        }
        TextKind::Journal => {
            let (entries, torn) = journal_entries(alloc, bytes)?;
            Ok(Kept {
                entries,
                torn: Some(torn),
            })
        }
    }
}

/// The contents of a journal.
#[derive(Drop)]
pub struct Recovered {
    /// The text of its history in format 2, with its last line.
    pub text: String,
    /// The number of torn bytes: those of an incomplete line, and all from the first zero on.
    pub torn: usize,
}

/// Returns the history in a journal that was cut at any byte, and the number of torn bytes (docs/HISTORY.md,
/// "Journals"). Bytes without a complete first line are `NotHistory`, other bytes have the fault that a server finds,
/// and an empty file is `Empty`. The only other error is out of memory.
pub fn recover(alloc: Global, bytes: &[u8]) -> Result<Recovered, KeptFault>
    ensures ok { IfOk result (λ r. IsRecovered bytes.now (string_bytes r.text) r.torn) }
    ensures err { IfErr result (HasKeptFault Journal bytes.now) }
{
    if bytes.is_empty() {
        return Err(KeptFault::Empty);
    }
    let (entries, torn) = journal_entries(alloc, bytes)?;
    let mut text = String::new(alloc);
    write_history(alloc, &entries, &mut text)?;
    Ok(Recovered { text, torn })
}
