//! Decides for two texts whether the history in the second one continues that in the first one.

ghost use Rattle.std.specs.Prelude.{IfOk, IfErr};
ghost use Rattle.mud_compact.specs.Answer.{KeepsNoWorld};
ghost use Rattle.mud_chain.specs.Answer.{IsChain, HasNoChain};

use crate::searching::version_in;
use mud_chron::replay;
use mud_compact::{KeptFault, TextKind, read_kept};
use std::alloc::Global;

/// The reason why two texts are not compared.
#[derive(Debug, Drop)]
pub enum NoChain {
    /// The old text has no world, or an allocation failed.
    Old(KeptFault),
    /// The new text has no world, or an allocation failed.
    New(KeptFault),
}

/// The answer for two texts.
#[derive(Drop)]
pub struct Chain {
    /// The version of the new history at which it continues the old one, if it does.
    pub version: Option<usize>,
    /// The number of torn bytes at the end of each journal; `None` for a history.
    pub torn: (Option<usize>, Option<usize>),
}

/// Returns the version at which the history in the new text continues that in the old one, if it does. Both are
/// histories, or both are journals, as `kind` says (docs/KEEPING.md, "Chain"). A text without a world has a fault. The
/// only other error is out of memory.
pub fn chain_of(alloc: Global, kind: TextKind, old: &[u8], new: &[u8]) -> Result<Chain, NoChain>
    ensures ok { IfOk result (λ c. IsChain kind old.now new.now c.version c.torn) }
    ensures err { IfErr result (HasNoChain kind old.now new.now) }
{
    let before = match read_kept(alloc, kind, old) {
        Ok(kept) => kept,
        Err(fault) => return Err(NoChain::Old(fault)),
    };
    let end = match replay(alloc, &before.entries) {
        Ok(world) => world,
        Err(fault) => return Err(NoChain::Old(KeptFault::Text(fault))),
    };
    let after = match read_kept(alloc, kind, new) {
        Ok(kept) => kept,
        Err(fault) => return Err(NoChain::New(fault)),
    };
    match version_in(alloc, &after.entries, before.entries.len(), &end) {
        Ok(version) => Ok(Chain {
            version,
            torn: (before.torn, after.torn),
        }),
        Err(fault) => Err(NoChain::New(KeptFault::Text(fault))),
    }
}
