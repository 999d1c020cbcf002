//! The test of a proposal for the beginning of the next volume.

ghost use Rattle.std.specs.Prelude.{◌≡◌, ◌≤◌, ◌++◌, IfOk, IfSome, length, drop, true};
ghost use Rattle.mud_compact.specs.Shorter.{LeadsToSame};
ghost use Rattle.mud_server.specs.MayBegin.{MayBegin};

use mud_chain::is_same;
use mud_chron::{Entry, replay};
use mud_server_volume::{Proposal, copies};
use std::alloc::{AllocError, Global};

// Returns the entries after the first `n`.
fn after(history: &[Entry], n: usize) -> &[Entry]
    ensures { result.now ≡ drop n history.now }
{
    if n < history.len() {
        &history[n..]
    } else {
        &[]
    }
}

// Returns the proposal with the entries that came since. The only error is out of memory.
fn with_further(
    alloc: Global,
    history: &[Entry],
    proposal: Proposal,
) -> Result<Vec<Entry>, AllocError>
    ensures { IfOk result (λ v. v.items ≡ proposal.entries.items ++ drop proposal.up_to history.now) }
{
    let Proposal { up_to, entries } = proposal;
    let mut begun = entries;
    let mut further = copies(alloc, after(history, up_to))?;
    begun.append(&mut further)?;
    Ok(begun)
}

// Returns whether both histories are legal and lead to one world. The only error is out of memory.
fn leads_to_same(alloc: Global, history: &[Entry], begun: &[Entry]) -> Result<bool, AllocError>
    ensures { IfOk result (λ same. same ≡ true → LeadsToSame history.now begun.now) }
{
    let Ok(old) = replay(alloc, history) else {
        return Ok(false);
    };
    let Ok(new) = replay(alloc, begun) else {
        return Ok(false);
    };
    is_same(alloc, &old, &new)
}

/// Returns the proposal with the entries that came since, if it is short enough and leads to the same world. The only
/// error is out of memory.
pub(crate) fn continued(
    alloc: Global,
    history: &[Entry],
    proposal: Proposal,
    most: usize,
) -> Result<Option<Vec<Entry>>, AllocError>
    ensures begins { IfOk result (λ o. IfSome o (λ begun. MayBegin history.now begun.items)) }
    ensures few { IfOk result (λ o. IfSome o (λ begun. length begun.items ≤ most)) }
{
    let begun = with_further(alloc, history, proposal)?;
    if most < begun.len() || history.len() < begun.len() {
        return Ok(None);
    }
    if leads_to_same(alloc, history, &begun)? {
        Ok(Some(begun))
    } else {
        Ok(None)
    }
}
