//! `mud_check`: checks a certificate against a history, without the server that wrote them.
//!
//! `mud_check HISTORY PROOF` reads the two files. Without arguments standard input holds the history's text and then
//! the proof's text. It prints one line to standard output. The exit status says whether the certificate is accepted
//! (0), refused (1), or a text can't be read (2). docs/CHECKER.md has the lines.
#![tactic(auto)]

mod input;
mod judge;
mod writing;

use crate::judge::{Unread, judge_files, judge_input};
use crate::writing::write_outcome;
use mud_checker::Outcome;
use mud_cli::{CommandFault, Sources, show, sources_of, words_of};
use mud_io::{Sink, Source};
use std::io::{self, Write};
use std::process::ExitCode;

fn main(rt: HostRuntime) -> ExitCode {
    match words_of(&rt) {
        Ok(words) => run(&rt, words.as_slice()),
        Err(fault) => tell_fault(&rt, fault),
    }
}

// Runs the task of the words.
fn run(rt: &HostRuntime, words: &[String]) -> ExitCode {
    match sources_of(rt.alloc(), words) {
        Ok(Sources::Files { history, proof }) => print_outcome(rt, judge_files(rt, history, proof)),
        Ok(Sources::Input) => {
            let mut source = Source::new(rt.reader());
            print_outcome(rt, judge_input(rt.alloc(), &mut source))
        }
        Err(fault) => tell_fault(rt, fault),
    }
}

// Prints why the words name no task, or the help or version that they ask for. Returns the exit status, which is 2 if
// the output can't be written.
fn tell_fault(rt: &HostRuntime, fault: CommandFault) -> ExitCode {
    match fault {
        CommandFault::OutOfMemory => print_outcome(rt, Err(Unread::OutOfMemory)),
        CommandFault::Asked(text) => match print!(rt; "{text}") {
            Ok(()) => ExitCode::SUCCESS,
            Err(_) => ExitCode::from(2),
        },
        CommandFault::Told(text) => ExitCode::from(show(rt, text.as_str())),
    }
}

// Prints the line, and returns the exit status.
fn print_outcome(rt: &HostRuntime, judged: Result<Outcome, Unread<'_>>) -> ExitCode {
    let mut writer = io::writer(rt);
    ExitCode::from(match judged {
        Ok(outcome) => {
            let mut sink = Sink::new(writer);
            write_outcome(&mut sink, outcome.text.as_str(), outcome.status.code())
        }
        Err(unread) => {
            let _ = writeln!(&mut writer, "{unread}");
            2
        }
    })
}
