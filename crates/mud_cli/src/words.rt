//! The words of a command line.

use crate::fault::CommandFault;
use std::io;
use std::rt::Env;

const NOT_UTF8: &str = "error: a word of the command line is not UTF-8\n";

/// Returns the words of the command line, beginning with the program's name. A word that is not UTF-8 is an error.
pub fn words_of<R: Env + AllocGlobal>(rt: &R) -> Result<Vec<String>, CommandFault> {
    match given_words(rt) {
        Ok(words) => Ok(words),
        Err(error) => Err(match error.kind() {
            io::ErrorKind::OutOfMemory => CommandFault::OutOfMemory,
            _ => match String::from_str(rt.alloc(), NOT_UTF8) {
                Ok(text) => CommandFault::Told(text),
                Err(_) => CommandFault::OutOfMemory,
            },
        }),
    }
}

// Returns the words as the operating system gives them.
fn given_words<R: Env + AllocGlobal>(rt: &R) -> io::Result<Vec<String>> {
    let words = std::env::args(rt)?.collect(rt.alloc())?;
    Ok(words)
}
