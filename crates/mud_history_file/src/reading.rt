//! Reads the files of histories and journals.

ghost use Rattle.std.specs.Prelude.{◌≡◌, ◌≤◌, Ok, Err, IfOk, IfNone, IfSome, length, take};

use crate::unloaded::Unloaded;
use mud_chron::{Entry, before_zero, read_front, read_history};
use std::fs;
use std::rt::Files;

/// Returns the entries of the history in the file with this name. It reads the whole file before it reads the text.
pub fn load<R: Files + AllocGlobal>(rt: &R, name: &str) -> Result<Vec<Entry>, Unloaded>
    ensures { ¬ (result ≡ Err Unloaded.NotEmpty) }
{
    let text = match fs::read(rt, name) {
        Ok(text) => text,
        Err(error) => return Err(Unloaded::of_file(&error)),
    };
    match read_history(rt.alloc(), &text) {
        Ok(entries) => Ok(entries),
        Err(fault) => Err(Unloaded::of_text(fault)),
    }
}

/// Returns the entries with complete lines in the file with this name, a copy of a journal, and the number of bytes
/// after them. A zero byte and everything after it counts as torn (docs/HISTORY.md, "Journals"). A file without a
/// complete first line is no history.
pub fn load_journal<R: Files + AllocGlobal>(
    rt: &R,
    name: &str,
) -> Result<(Vec<Entry>, usize), Unloaded> {
    let text = match fs::read(rt, name) {
        Ok(text) => text,
        Err(error) => return Err(Unloaded::of_file(&error)),
    };
    match read_front(rt.alloc(), before_zero(&text)) {
        Ok(front) if front.keep == 0 => Err(Unloaded::NotHistory),
        Ok(front) => Ok((front.entries, text.len() - front.keep)),
        Err(fault) => Err(Unloaded::of_text(fault)),
    }
}

/// Returns the entries that a world with a journal continues: those of the journal, or those of the history in the file
/// with this name if the journal is empty. Without a name they are those of the journal.
///
/// Errors: `NotEmpty` exactly if there are a name and entries of a journal, else those of [`load`].
pub fn entries_to_continue<R: Files + AllocGlobal>(
    rt: &R,
    name: Option<&str>,
    journal: Vec<Entry>,
) -> Result<Vec<Entry>, Unloaded>
    ensures journal { IfNone name.entry (result ≡ Ok journal) }
    ensures refused { IfSome name.entry (λ _. 1 ≤ length journal.items → result ≡ Err Unloaded.NotEmpty) }
    ensures otherwise { result ≡ Err Unloaded.NotEmpty → 1 ≤ length journal.items }
    ensures front { IfOk result (λ v. take (length journal.items) v.items ≡ journal.items) }
    ensures within { IfOk result (λ v. length journal.items ≤ length v.items) }
{
    let Some(name) = name else {
        return Ok(journal);
    };
    if !journal.is_empty() {
        return Err(Unloaded::NotEmpty);
    }
    load(rt, name)
}
