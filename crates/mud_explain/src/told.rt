//! Writes the results of steps.

ghost use Rattle.std.specs.Prelude.{◌≡◌, ◌++◌, map, Ok, OnOk, codes, string_bytes};
ghost use Rattle.std.specs.List.{flat_map};
ghost use Rattle.mud_hall.specs.Replies.{reply_shown};
ghost use Rattle.mud_hall.specs.Answers.{answer_shown};
ghost use Rattle.mud_explain.specs.inner.StepLines.{fault_line, reply_line, answer_lines, seen_line, told_lines};
ghost use Rattle.mud_explain.specs.inner.StepLines.{settled_lines, unsettled_line};

use mud_guide::Answer;
use mud_hall::{CloseFault, Fault, Reply, Settled};
use std::alloc::{AllocError, Global};

// Returns the line of a fault.
fn fault_line(fault: Fault) -> &'static str
    ensures { result.now ≡ fault_line fault }
{
    match fault {
        Fault::OutOfMemory => "(out of memory)\n",
        Fault::HistoryFull => "(history full)\n",
        Fault::Unpublished => "(not stored)\n",
        Fault::DesksFull => "desks full\n",
    }
}

/// Appends the line of a fault.
pub(crate) fn push_fault(out: &mut String, fault: Fault) -> Result<(), AllocError>
    ensures { OnOk result (string_bytes out.new ≡ string_bytes out.old ++ fault_line fault) }
{
    out.push_str(fault_line(fault))
}

/// Appends the line of a reply.
pub(crate) fn push_reply(out: &mut String, reply: &Reply) -> Result<(), AllocError>
    ensures { OnOk result (string_bytes out.new ≡ string_bytes out.old ++ reply_line (reply_shown (Ok reply.now))) }
{
    match reply {
        Reply::Accepted { version, text } => writeln!(out, "accepted [{version}] {text}"),
        Reply::Became { version, text } => writeln!(out, "became [{version}] {text}"),
        Reply::Refused { version, text, .. } => writeln!(out, "refused [{version}] {text}"),
        Reply::Question { version } => writeln!(out, "question {version}"),
    }
}

/// Appends the lines of an answer.
pub(crate) fn push_answer(out: &mut String, answer: &Answer) -> Result<(), AllocError>
    ensures { OnOk result (string_bytes out.new ≡ string_bytes out.old ++ answer_lines (answer_shown answer.now)) }
{
    writeln!(out, "[{}] {}", answer.version, answer.text)
}

/// Appends the number of entries that a desk has seen.
pub(crate) fn push_seen(out: &mut String, seen: u32) -> Result<(), AllocError>
    ensures { OnOk result (string_bytes out.new ≡ string_bytes out.old ++ seen_line seen) }
{
    writeln!(out, "seen {seen}")
}

// Appends the notices of a desk.
fn push_lines(out: &mut String, lines: &[String]) -> Result<(), AllocError>
    ensures { OnOk result (string_bytes out.new
        ≡ string_bytes out.old ++ flat_map (λ line. line ++ codes "\n") (map string_bytes lines.now)) }
{
    for line in lines {
        out.push_str(line.as_str())?;
        out.push('\n')?;
    }
    Ok(())
}

/// Appends the number of notices of a desk, and the notices.
pub(crate) fn push_told(out: &mut String, lines: &[String]) -> Result<(), AllocError>
    ensures { OnOk result (string_bytes out.new ≡ string_bytes out.old ++ told_lines (map string_bytes lines.now)) }
{
    writeln!(out, "told {}", lines.len())?;
    push_lines(out, lines)
}

/// Appends the result of a settlement, and its history.
pub(crate) fn push_settled(
    out: &mut String,
    alloc: Global,
    settled: Settled,
) -> Result<(), AllocError>
    ensures { OnOk result (string_bytes out.new ≡ string_bytes out.old
        ++ settled_lines settled.accepted settled.loaded settled.history) }
{
    let Settled {
        mut history,
        accepted,
        loaded,
    } = settled;
    let count = history.len();
    writeln!(out, "settled {count} accepted {accepted} loaded {loaded}")?;
    history.write_text(alloc, out)
}

/// Appends the reason why a hall was not closed.
pub(crate) fn push_unsettled(out: &mut String, fault: CloseFault) -> Result<(), AllocError>
    ensures { OnOk result (string_bytes out.new ≡ string_bytes out.old ++ unsettled_line fault) }
{
    match fault {
        CloseFault::OutOfMemory => push_fault(out, Fault::OutOfMemory),
        CloseFault::SameNumber(number) => writeln!(out, "same number {number}"),
        CloseFault::Missing(number) => writeln!(out, "missing {number}"),
        CloseFault::Mismatch(version) => writeln!(out, "mismatch {version}"),
    }
}
