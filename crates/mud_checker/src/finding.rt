//! Findings: the checker's result for two texts.

ghost use Rattle.std.specs.Prelude.{◌≡◌, ◌≢◌, ◌≤◌, length, IfOk, IfErr};
ghost use Rattle.mud_chron.specs.Replay.{changes_of, world_at, AreLegal};
ghost use Rattle.mud_checker.specs.Finding.{IsHistory, IsUnfit, IsTried, IsFinding};
ghost use Rattle.mud_checker.specs.Verdict.{status_code};

use crate::line_ends::without_returns;
use mud_cert::{Cert, CertFault, Doubt, check, read};
use mud_chron::{ChronFault, Entry, read_history, replay};
use mud_world::World;
use std::alloc::{AllocError, Global};

/// The finding for a history's text and a proof's text (docs/CHECKER.md). `IsFinding` in specs/Finding.antt defines
/// which texts have which finding; any two texts have exactly one.
#[derive(Debug, Drop)]
pub enum Finding {
    /// The certificate is valid in the world that it is about.
    Accepted,
    /// The certificate is about this version, and the history has fewer entries.
    NoVersion(u32),
    /// Returns the first doubt of the certificate.
    Doubted(Doubt),
    /// The history's text is not the text of any entries, or an entry is illegal where it occurs.
    BadHistory(ChronFault),
    /// The proof's text is not a certificate's: this line, counted from 1, is bad.
    BadProof(usize),
}

/// The outcome of a check.
#[derive(Clone, Copy, Debug, PartialEq, Eq)]
pub enum Status {
    /// The certificate was accepted.
    Accepted,
    /// The certificate was read and rejected.
    Refused,
    /// A text could not be read.
    Unreadable,
}

impl Status {
    /// Returns the exit status of the program: 0 accepted, 1 rejected, 2 unreadable.
    pub fn code(self) -> u8
        ensures { result ≡ status_code self }
    {
        match self {
            Status::Accepted => 0,
            Status::Refused => 1,
            Status::Unreadable => 2,
        }
    }
}

// Returns the entries of a history's text, if each is legal where it occurs, or the text's fault.
fn history_of(alloc: Global, text: &[u8]) -> Result<Vec<Entry>, ChronFault>
    ensures ok { IfOk result (λ entries. IsHistory text.now entries.items) }
    ensures err { IfErr result (λ fault. fault ≢ ChronFault.OutOfMemory → IsUnfit text.now fault) }
{
    let entries = read_history(alloc, text)?;
    match replay(alloc, &entries) {
        Ok(_world) => Ok(entries),
        Err(fault) => Err(fault),
    }
}

// Returns the world after the first `version` entries.
fn world_at(alloc: Global, entries: &[Entry], version: usize) -> Result<World, AllocError>
    requires reached { version ≤ length entries.now }
    requires legal { AreLegal (changes_of entries.now) }
    ensures { IfOk result (λ world. world ≡ world_at entries.now version) }
{
    match replay(alloc, &entries[..version]) {
        Ok(world) => Ok(world),
        Err(fault) => match fault {
            ChronFault::OutOfMemory => Err(AllocError),
            // all changes are legal, and a replay has no other fault
            _ => unreachable!(),
        },
    }
}

// Returns the finding for a certificate, given a history.
fn try_certificate(alloc: Global, entries: &[Entry], cert: &Cert) -> Result<Finding, AllocError>
    requires { AreLegal (changes_of entries.now) }
    ensures { IfOk result (IsTried entries.now cert.now) }
{
    let version = cert.version();
    if entries.len() < version as usize {
        return Ok(Finding::NoVersion(version));
    }
    let world = world_at(alloc, entries, version as usize)?;
    match check(&world, cert) {
        Ok(()) => Ok(Finding::Accepted),
        Err(Doubt::OutOfMemory) => Err(AllocError),
        Err(doubt) => Ok(Finding::Doubted(doubt)),
    }
}

/// Returns the finding for a history's text and a proof's text. It reads and replays the whole history, reads the
/// proof, compares the proof's version, and checks the certificate in the world of that version. The only error is out
/// of memory.
pub fn finding_of(alloc: Global, history: &[u8], proof: &[u8]) -> Result<Finding, AllocError>
    ensures { IfOk result (IsFinding history.now proof.now) }
{
    let history = without_returns(alloc, history)?;
    let proof = without_returns(alloc, proof)?;
    let entries = match history_of(alloc, &history) {
        Ok(entries) => entries,
        Err(ChronFault::OutOfMemory) => return Err(AllocError),
        Err(fault) => return Ok(Finding::BadHistory(fault)),
    };
    let cert = match read(alloc, &proof) {
        Ok(cert) => cert,
        Err(CertFault::OutOfMemory) => return Err(AllocError),
        Err(CertFault::BadLine(line)) => return Ok(Finding::BadProof(line)),
    };
    try_certificate(alloc, &entries, &cert)
}
