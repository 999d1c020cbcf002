//! Talk: speeches and emotes.

ghost use Rattle.std.specs.Prelude.{◌≡◌, IfOk};
ghost use Rattle.mud_compact.specs.Shorter.{is_talk, without_talk, has_talk};
ghost use Rattle.mud_compact.specs.inner.ShorterHistory.{IsQuiet};

use mud_chron::Entry;
use mud_world::Deed;
use std::alloc::{AllocError, Global};

// Returns whether it is a speech or an emote.
pub(crate) fn is_talk(deed: &Deed) -> bool
    ensures { result ≡ is_talk deed.now }
{
    matches!(deed, Deed::Say(_) | Deed::Emote(_))
}

// Returns whether an entry is talk.
fn is_talk_entry(entry: &Entry) -> bool
    ensures { result ≡ is_talk entry.now.change.deed }
{
    is_talk(&entry.change().deed)
}

// Returns whether some entry is talk.
pub(crate) fn has_talk(entries: &[Entry]) -> bool
    ensures { result ≡ has_talk entries.now }
{
    for entry in entries {
        if is_talk_entry(entry) {
            return true;
        }
    }
    false
}

// Returns how many entries are not talk.
pub(crate) fn count_work(entries: &[Entry]) -> usize {
    entries.iter().filter(|entry| !is_talk_entry(entry)).count()
}

// Returns the entries that are not talk.
#[tactic(auto, using(crate::proofs::Talking::without_more))]
fn work_of(alloc: Global, entries: &[Entry]) -> Result<Vec<Entry>, AllocError>
    ensures { IfOk result (λ kept. kept.items ≡ without_talk entries.now) }
{
    let mut kept = Vec::new(alloc);
    for entry in entries {
        if !is_talk_entry(entry) {
            kept.push(entry.copy(alloc)?)?;
        }
    }
    Ok(kept)
}

/// Returns the entries without talk. The only error is out of memory.
#[tactic(auto, using(crate::proofs::Talking::quiet))]
pub(crate) fn without_talk(alloc: Global, entries: &[Entry]) -> Result<Vec<Entry>, AllocError>
    ensures { IfOk result (λ kept. IsQuiet entries.now kept.items) }
{
    let kept = work_of(alloc, entries)?;
    Ok(kept)
}
