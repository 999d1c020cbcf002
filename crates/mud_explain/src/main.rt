//! `mud_explain`: shows how a text is read, with a line for each thing read.
//!
//! `mud_explain units` reads the raw bytes of a Telnet stream; `words`, `parse`, `names` and `key` read lines. A
//! builder who gets `That key is not understood.` can locate the mistake with `mud_explain key`. `mud_explain hall`
//! plays lines that are steps of the desks of one hall. docs/EXPLAIN.md has the answers.
#![tactic(auto)]

ghost use Rattle.std.specs.Prelude.{◌≤◌};
ghost use Rattle.mud_world.specs.declared.limits.TheConstants.{MOST_ENTRIES};

mod explain;
mod grouped;
mod hall;
mod lines;
mod listed;
mod opening;
mod play;
mod step;
mod told;
mod units;

use crate::explain::{ExplainFault, explain};
use crate::hall::explain_hall;
use mud_cli::{CommandFault, Opening, Subject, Task, show, task_of, words_of};
use mud_io::{Sink, Source};
use std::io::{self, Eprint, Print};
use std::process::ExitCode;
use std::rt::Runtime;
use std::sync::Wait;

fn main(rt: HostRuntime) -> ExitCode {
    match words_of(&rt) {
        Ok(words) => run(&rt, words.as_slice()),
        Err(fault) => tell_fault(&rt, fault),
    }
}

// Runs the task of the words.
fn run<R: Runtime + AllocGlobal + Wait>(rt: &R, words: &[String]) -> ExitCode {
    let task = match task_of(rt.alloc(), words) {
        Ok(task) => task,
        Err(fault) => return tell_fault(rt, fault),
    };
    let ended = match task {
        Task::Text(subject) => run_text(rt, subject),
        Task::Hall(opening) => run_hall(rt, opening),
    };
    match ended {
        Ok(()) => ExitCode::SUCCESS,
        Err(fault) => tell_stop(rt, fault),
    }
}

// Explains standard input.
fn run_text<R: Runtime + AllocGlobal>(rt: &R, subject: Subject) -> Result<(), ExplainFault> {
    let mut source = Source::new(rt.reader());
    let mut sink = Sink::new(io::writer(rt));
    explain(rt.alloc(), subject, &mut source, &mut sink)
}

// Plays standard input in a hall.
fn run_hall<R: Runtime + AllocGlobal + Wait>(
    rt: &R,
    opening: Opening<'_>,
) -> Result<(), ExplainFault>
    requires from { 1 ≤ opening.capacity }
    requires to { opening.capacity ≤ MOST_ENTRIES }
{
    let mut source = Source::new(rt.reader());
    let mut sink = Sink::new(io::writer(rt));
    explain_hall(rt, opening, &mut source, &mut sink)
}

// Prints why the words name no task, or the help or version that they ask for. Returns the exit status.
fn tell_fault<R: Print + Eprint>(rt: &R, fault: CommandFault) -> ExitCode {
    match fault {
        CommandFault::OutOfMemory => tell_stop(rt, ExplainFault::OutOfMemory),
        CommandFault::Asked(text) => match print!(rt; "{text}") {
            Ok(()) => ExitCode::SUCCESS,
            Err(_) => tell_stop(rt, ExplainFault::Write),
        },
        CommandFault::Told(text) => ExitCode::from(show(rt, text.as_str())),
    }
}

// Prints why the program stopped, ignoring a failed write. Returns the exit status.
fn tell_stop<R: Eprint>(rt: &R, fault: ExplainFault) -> ExitCode {
    let _ = eprintln!(rt; "mud_explain: {fault}");
    ExitCode::from(match fault {
        ExplainFault::OutOfMemory => 4,
        ExplainFault::Read | ExplainFault::Write | ExplainFault::Unloaded(_) => 3,
    })
}
