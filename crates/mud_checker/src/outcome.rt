//! The line and the status of a finding.

ghost use Rattle.std.specs.Prelude.{◌≡◌, ◌++◌, codes, decimal, IfOk, OnOk, string_bytes};
ghost use Rattle.mud_checker.specs.declared.finding.Status.TheVariants.{Accepted};
ghost use Rattle.mud_checker.specs.Finding.{IsFinding};
ghost use Rattle.mud_checker.specs.Verdict.{object_text, doubt_text, fault_text, finding_text, status_of};
ghost use Rattle.mud_checker.specs.Verdict.{IsVerdict};

use crate::finding::{Finding, Status, finding_of};
use mud_cert::Doubt;
use mud_chron::ChronFault;
use std::alloc::{AllocError, Global};
use std::fmt::Write;

/// The result for two texts: the line to print, without its end, and the status.
#[derive(Debug, Drop)]
pub struct Outcome {
    /// The line (docs/CHECKER.md, "Lines").
    pub text: String,
    /// The exit status of the program.
    pub status: Status,
}

// Appends the words and the number.
fn push_numbered(out: &mut String, words: &str, number: usize) -> Result<(), AllocError>
    ensures { OnOk result (string_bytes out.new ≡ string_bytes out.old ++ (words.now ++ decimal number)) }
{
    write!(out, "{words}{number}")
}

// Appends the words, the place in a walk, and the player of the walk.
fn push_place(out: &mut String, words: &str, at: usize, player: u32) -> Result<(), AllocError>
    ensures { OnOk result (string_bytes out.new
        ≡ string_bytes out.old ++ (words.now ++ decimal at ++ codes " of " ++ object_text player)) }
{
    write!(out, "{words}{at} of #{player}")
}

// Appends a doubt.
fn push_doubt(out: &mut String, doubt: Doubt) -> Result<(), AllocError>
    ensures { OnOk result (string_bytes out.new ≡ string_bytes out.old ++ doubt_text doubt) }
{
    match doubt {
        Doubt::OutOfMemory => out.push_str("out of memory"),
        Doubt::NoSuchPlayer(player) => write!(out, "no such player #{player}"),
        Doubt::WrongStart(player) => write!(out, "wrong start #{player}"),
        Doubt::StartLabel(player) => write!(out, "start label #{player}"),
        Doubt::Arc { player, exit } => write!(out, "arc #{exit} of #{player}"),
        Doubt::WalkBroken { player, at } => push_place(out, "walk broken at ", at, player),
        Doubt::WalkLocked { player, at } => push_place(out, "walk locked at ", at, player),
        Doubt::WalkCost(player) => write!(out, "walk cost of #{player}"),
        Doubt::Conclusion => out.push_str("conclusion"),
    }
}

// Appends the fault of a history.
fn push_fault(out: &mut String, fault: &ChronFault) -> Result<(), AllocError>
    ensures { OnOk result (string_bytes out.new ≡ string_bytes out.old ++ fault_text fault.now) }
{
    match fault {
        ChronFault::OutOfMemory => out.push_str("out of memory"),
        ChronFault::NotHistory => out.push_str("not a history"),
        ChronFault::BadLine(line) => push_numbered(out, "history line ", *line),
        ChronFault::BadChange(entry) => push_numbered(out, "history change ", *entry),
        ChronFault::TooLong => out.push_str("history too long"),
        ChronFault::NoEnd => out.push_str("history without end"),
    }
}

// Appends the line of a finding.
fn push_finding(out: &mut String, finding: &Finding) -> Result<(), AllocError>
    ensures { OnOk result (string_bytes out.new ≡ string_bytes out.old ++ finding_text finding.now) }
{
    match finding {
        Finding::Accepted => out.push_str("accepted"),
        Finding::NoVersion(version) => write!(out, "refused: version {}", *version),
        Finding::Doubted(doubt) => {
            out.push_str("refused: ")?;
            push_doubt(out, *doubt)
        }
        Finding::BadHistory(fault) => {
            out.push_str("unreadable: ")?;
            push_fault(out, fault)
        }
        Finding::BadProof(line) => push_numbered(out, "unreadable: proof line ", *line),
    }
}

// Returns the status of a finding.
fn status_of(finding: &Finding) -> Status
    ensures { result ≡ status_of finding.now }
{
    match finding {
        Finding::Accepted => Status::Accepted,
        Finding::NoVersion(_) | Finding::Doubted(_) => Status::Refused,
        Finding::BadHistory(_) | Finding::BadProof(_) => Status::Unreadable,
    }
}

/// Returns the line and the status for a history's text and a proof's text (docs/CHECKER.md). The status `Accepted`
/// means that the certificate is valid in the world of its version, after the first entries of that history, and that
/// its walks and its conclusion are optimal there. The only error is out of memory.
pub fn verdict(alloc: Global, history: &[u8], proof: &[u8]) -> Result<Outcome, AllocError>
    ensures finding { IfOk result (IsVerdict history.now proof.now) }
    ensures accepted { IfOk result
        (λ outcome. outcome.status ≡ Accepted → IsFinding history.now proof.now Finding.Accepted) }
{
    let finding = finding_of(alloc, history, proof)?;
    let mut text = String::new(alloc);
    push_finding(&mut text, &finding)?;
    Ok(Outcome {
        text,
        status: status_of(&finding),
    })
}
