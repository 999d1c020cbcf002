//! Reads a history and draws its map.

ghost use Rattle.std.specs.Prelude.{◌≡◌, ℕ, IfOk, IfErr};
ghost use Rattle.mud_chron.specs.Replay.{changes_of, AreLegal};
ghost use Rattle.mud_cert.specs.Certificate.{IsCertificate};
ghost use Rattle.mud_cert.specs.Text.{cert_text};
ghost use Rattle.mud_cert.specs.Faults.{IsBadLine};
ghost use Rattle.mud_checker.specs.Finding.{without_returns};
ghost use Rattle.mud_compact.specs.Recovery.{KeepsEntries};
ghost use Rattle.mud_compact.specs.Answer.{KeepsNoWorld};
ghost use Rattle.mud_map.specs.MapResult.{IsMap, IsMapWith, HasNoMap};

use crate::drawing::{map, map_with};
use mud_cert::{Cert, CertFault, read};
use mud_checker::without_returns;
use mud_chron::{ChronFault, replay};
use mud_compact::{Kept, KeptFault, TextKind, read_kept};
use std::alloc::{AllocError, Global};

/// The reason why there is no map.
#[derive(Debug, Drop)]
pub enum NoMap {
    /// The history's text has this fault, or an allocation failed.
    History(KeptFault),
    /// The certificate's text has this fault, or an allocation failed.
    Proof(CertFault),
    /// The certificate is about the first version. The history has fewer changes: the second number.
    Version(u32, usize),
}

impl From<AllocError> for NoMap {
    ghost use Rattle.std.specs.Prelude.{◌≡◌};
    ghost use Rattle.mud_chron.specs.declared.fault.ChronFault.TheVariants.{OutOfMemory};
    ghost use Rattle.mud_compact.specs.declared.fault.KeptFault.TheVariants.{Text};
    ghost use Rattle.mud_map.specs.declared.mapping.NoMap.TheVariants.{History};

    ghost from_gives = { λ _ e. e ≡ History (Text OutOfMemory) };

    fn from(_e: AllocError) -> NoMap {
        NoMap::History(KeptFault::Text(ChronFault::OutOfMemory))
    }
}

/// The map of a world.
#[derive(Drop)]
pub struct MapText {
    /// The text of the graph, in DOT.
    pub text: Vec<u8>,
    /// The number of torn bytes at the end of a journal; `None` for a history.
    pub torn: Option<usize>,
}

// Returns the contents of the bytes, if all of their changes are legal.
fn legal_entries(alloc: Global, kind: TextKind, bytes: &[u8]) -> Result<Kept, KeptFault>
    ensures kept { IfOk result (λ kept. KeepsEntries kind bytes.now kept.entries.items kept.torn) }
    ensures legal { IfOk result (λ kept. AreLegal (changes_of kept.entries.items)) }
    ensures err { IfErr result (KeepsNoWorld kind bytes.now) }
{
    let kept = read_kept(alloc, kind, bytes)?;
    match replay(alloc, &kept.entries) {
        Ok(_world) => Ok(kept),
        Err(fault) => Err(KeptFault::Text(fault)),
    }
}

// Returns the certificate of a text, ignoring CRs at line ends.
fn certificate(alloc: Global, proof: &[u8]) -> Result<Cert, CertFault>
    ensures ok { IfOk result (λ c. IsCertificate c × (without_returns proof.now ≡ cert_text c)) }
    ensures err { IfErr result (λ fault. (n : ℕ) → fault ≡ CertFault.BadLine n
        → IsBadLine (without_returns proof.now) n) }
{
    let proof = without_returns(alloc, proof)?;
    read(alloc, &proof)
}

/// Returns the map of the world of a history or a journal, as `kind` says (docs/KEEPING.md, "Map").
pub fn map_of(alloc: Global, kind: TextKind, bytes: &[u8]) -> Result<MapText, KeptFault>
    ensures ok { IfOk result (λ m. IsMap kind bytes.now m.text.items m.torn) }
    ensures err { IfErr result (KeepsNoWorld kind bytes.now) }
{
    let kept = read_kept(alloc, kind, bytes)?;
    let world = replay(alloc, &kept.entries)?;
    let text = map(alloc, &world)?;
    Ok(MapText {
        text,
        torn: kept.torn,
    })
}

/// Returns the map of the world of a certificate's version, with the certificate drawn in.
pub fn mapped_with(
    alloc: Global,
    kind: TextKind,
    bytes: &[u8],
    proof: &[u8],
) -> Result<MapText, NoMap>
    ensures ok { IfOk result (λ m. IsMapWith kind bytes.now proof.now m.text.items m.torn) }
    ensures err { IfErr result (HasNoMap kind bytes.now proof.now) }
{
    let kept = match legal_entries(alloc, kind, bytes) {
        Ok(kept) => kept,
        Err(fault) => return Err(NoMap::History(fault)),
    };
    let cert = match certificate(alloc, proof) {
        Ok(cert) => cert,
        Err(fault) => return Err(NoMap::Proof(fault)),
    };
    let version = cert.version();
    if kept.entries.len() < version as usize {
        return Err(NoMap::Version(version, kept.entries.len()));
    }
    match replay(alloc, &kept.entries[..version as usize]) {
        Ok(world) => {
            let text = map_with(alloc, &world, &cert)?;
            Ok(MapText {
                text,
                torn: kept.torn,
            })
        }
        Err(_) => Err(NoMap::History(KeptFault::Text(ChronFault::OutOfMemory))),
    }
}
