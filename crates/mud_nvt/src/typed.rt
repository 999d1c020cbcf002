//! Finds runs of printable characters.

ghost use Rattle.std.specs.Prelude.{◌≤◌, All, IsTrue, length, take};
ghost use Rattle.mud_nvt.specs.inner.Lines.{IsPrintable};

use crate::codes::{SPACE, TILDE};

/// Returns the number of leading printable characters.
pub fn printable_len(bytes: &[u8]) -> usize
    ensures within { result ≤ length bytes.now }
    ensures printable { All IsPrintable (take result bytes.now) }
{
    let runs = printable_runs(bytes);
    runs + printable_front(&bytes[runs..])
}

// The number of bytes that are tested at once.
const RUN: usize = 16;

// Returns the number of leading printable characters in whole runs.
fn printable_runs(bytes: &[u8]) -> usize
    ensures within { result ≤ length bytes.now }
    ensures printable { All IsPrintable (take result bytes.now) }
{
    let mut at = 0;
    while bytes.len() - at >= RUN {
        if !are_printable(&bytes[at..at + RUN]) {
            return at;
        }
        at += RUN;
    }
    at
}

// Returns whether all bytes are printable. It has no early exit, so that a compiler can vectorize the loop.
#[inline(always)]
fn are_printable(bytes: &[u8]) -> bool
    ensures { IsTrue result → All IsPrintable bytes.now }
{
    let mut printable = true;
    for byte in bytes {
        printable &= SPACE <= *byte && *byte <= TILDE;
    }
    printable
}

// Returns the number of leading printable characters, one by one.
fn printable_front(bytes: &[u8]) -> usize
    ensures within { result ≤ length bytes.now }
    ensures printable { All IsPrintable (take result bytes.now) }
{
    for (at, byte) in bytes.iter().enumerate() {
        match *byte {
            SPACE..=TILDE => {}
            _ => return at,
        }
    }
    bytes.len()
}
