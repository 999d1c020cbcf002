//! Reads the file of the bans.

use mud_bans::{AddFault, Bans, Network};
use std::alloc::{AllocError, Global};
use std::fs::{self, File};
use std::io::{self, Read};
use std::rt::Files;
use thiserror::Error;

// The greatest length of the file in bytes. All networks take less.
const MOST_BYTES: usize = 1 << 20;

const PIECE_LEN: usize = 4_096;

/// The reason why a file of bans can't be read.
#[derive(Clone, Copy, Debug, Error)]
pub enum NoBans {
    /// An allocation failed.
    #[error("out of memory")]
    OutOfMemory,
    /// The system returned this error.
    #[error("{0}")]
    File(io::ErrorKind),
    /// The file is too long.
    #[error("too long")]
    TooLong,
    /// This line is not an address or a network.
    #[error("line {0} is no address or network")]
    Line(usize),
    /// It has more networks than are allowed.
    #[error("too many bans")]
    Full,
}

impl From<AllocError> for NoBans {
    fn from(_: AllocError) -> NoBans {
        NoBans::OutOfMemory
    }
}

// Reads all bytes of a file.
fn bytes_of<R: AllocGlobal>(rt: &R, file: &mut File) -> Result<Vec<u8>, NoBans> {
    let mut bytes = Vec::new(rt.alloc());
    let mut piece = [0u8; PIECE_LEN];
    for _ in 0..MOST_BYTES {
        match file.read(&mut piece) {
            Ok(0) => return Ok(bytes),
            Ok(_) if bytes.len() > MOST_BYTES => return Err(NoBans::TooLong),
            Ok(count) => bytes.extend_from_slice(&piece[..count])?,
            Err(error) if error.kind() == io::ErrorKind::Interrupted => continue,
            Err(error) => return Err(NoBans::File(error.kind())),
        }
    }
    Err(NoBans::TooLong)
}

// Adds the networks of a text, one a line. Blank lines are skipped.
fn add_lines(bans: &mut Bans, text: &str) -> Result<(), NoBans> {
    for (at, line) in text.lines().enumerate() {
        if line.trim().is_empty() {
            continue;
        }
        let Some(network) = Network::read(line.trim()) else {
            return Err(NoBans::Line(at.saturating_add(1)));
        };
        if bans.has(network) {
            continue;
        }
        match bans.add(network) {
            Ok(()) => {}
            Err(AddFault::OutOfMemory) => return Err(NoBans::OutOfMemory),
            Err(AddFault::Full) => return Err(NoBans::Full),
        }
    }
    Ok(())
}

// Returns the bans of a text.
fn bans_of(alloc: Global, text: &str) -> Result<Bans, NoBans> {
    let mut bans = Bans::new(alloc);
    add_lines(&mut bans, text)?;
    Ok(bans)
}

// Returns the bans of an open file.
fn bans_in<R: AllocGlobal>(rt: &R, file: &mut File) -> Result<Bans, NoBans> {
    let bytes = bytes_of(rt, file)?;
    match std::str::from_utf8(&bytes) {
        Ok(text) => bans_of(rt.alloc(), text),
        Err(_) => Err(NoBans::Line(1)),
    }
}

/// Reads the bans of a file. The list is empty if the file does not exist, or if no file is named.
pub fn read_bans<R: Files<File = File> + AllocGlobal>(
    rt: &R,
    name: Option<&str>,
) -> Result<Bans, NoBans> {
    let Some(name) = name else {
        return Ok(Bans::new(rt.alloc()));
    };
    match fs::open(rt, name) {
        Ok(mut file) => bans_in(rt, &mut file),
        Err(error) if error.kind() == io::ErrorKind::NotFound => Ok(Bans::new(rt.alloc())),
        Err(error) => Err(NoBans::File(error.kind())),
    }
}
