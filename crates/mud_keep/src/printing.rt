//! Prints results, and notes beside them.

use crate::refused::Refused;
use crate::unkept::Unkept;
use mud_io::Sink;
use std::io;
use std::process::ExitCode;

// The exit status if there is no answer.
const NO_ANSWER: u8 = 2;

/// Prints why there is no answer, ignoring a failed write. Returns the exit status.
pub fn tell_unreadable(rt: &HostRuntime, unkept: Unkept<'_>) -> ExitCode {
    let _ = eprintln!(rt; "unreadable: {unkept}");
    ExitCode::from(NO_ANSWER)
}

/// Prints why there is no answer, with the name of the file, for a task that reads several. Returns the exit status.
pub fn tell_unreadable_in(rt: &HostRuntime, name: &str, unkept: Unkept<'_>) -> ExitCode {
    let _ = eprintln!(rt; "unreadable: {name}: {unkept}");
    ExitCode::from(NO_ANSWER)
}

/// Prints why a task is refused, ignoring a failed write. Returns the exit status.
pub fn tell_refused(rt: &HostRuntime, refused: Refused<'_>) -> ExitCode {
    let _ = eprintln!(rt; "refused: {refused}");
    ExitCode::from(NO_ANSWER)
}

/// Prints the text. Returns true if all of it was written.
pub fn print_all(rt: &HostRuntime, text: &[u8]) -> bool {
    let mut sink = Sink::new(io::writer(rt));
    sink.write_all(text)
}

/// Prints to standard error how many bytes of a journal were torn off.
pub fn tell_torn(rt: &HostRuntime, torn: Option<usize>) {
    if let Some(torn) = torn {
        let _ = eprintln!(rt; "torn off: {torn} bytes");
    }
}

/// Prints the text, and to standard error how many bytes were torn off. Returns the exit status.
pub fn print_text(rt: &HostRuntime, text: &[u8], torn: Option<usize>) -> ExitCode {
    if !print_all(rt, text) {
        return tell_unreadable(rt, Unkept::Write);
    }
    tell_torn(rt, torn);
    ExitCode::SUCCESS
}
