//! Reads a file, or standard input.

use crate::unkept::Unkept;
use std::fs;
use std::io::{self, ErrorKind, Read};

// Returns the reason why the file with this name was not read.
fn reason_of<'a>(name: &'a str, error: &io::Error) -> Unkept<'a> {
    match error.kind() {
        ErrorKind::OutOfMemory => Unkept::OutOfMemory,
        _ => Unkept::File(name),
    }
}

// Returns all of standard input.
fn all_input(rt: &HostRuntime) -> io::Result<Vec<u8>> {
    let mut bytes = Vec::new(rt.alloc());
    rt.reader().read_to_end(&mut bytes)?;
    Ok(bytes)
}

/// Returns the bytes of the file with this name; `-` is standard input.
pub fn read_input<'a>(rt: &HostRuntime, name: &'a str) -> Result<Vec<u8>, Unkept<'a>> {
    let bytes = match name {
        "-" => all_input(rt),
        _ => fs::read(rt, name),
    };
    match bytes {
        Ok(bytes) => Ok(bytes),
        Err(error) => Err(reason_of(name, &error)),
    }
}
