//! Saves the readable part of a damaged journal.

ghost use Rattle.std.specs.Prelude.{◌≡◌, ◌≢◌, ◌<◌, ◌+◌, [], IfOk, IfErr, MatchOption, string_bytes};
ghost use Rattle.mud_chron.specs.declared.format.Format.TheVariants.{Two};
ghost use Rattle.mud_chron.specs.Fronts.{Recovers, HasFrontFault};
ghost use Rattle.mud_compact.specs.Front.{IsLongestFront, IsFrontText, HasNoFront, IsUnsaved};
ghost use Rattle.mud_compact.specs.inner.Broken.{IsBroken, IsFaulty};

use crate::fault::KeptFault;
use mud_chron::{ChronFault, Format, Front, read_front, write_history};
use mud_key::codes::LF;
use mud_world::limits::MOST_ENTRIES;
use std::alloc::{AllocError, Global};

// Returns the end of this line, counted from 1: its line feed, or the end of the bytes.
fn end_of_line(bytes: &[u8], line: usize) -> usize {
    let mut left = line;
    for (at, byte) in bytes.iter().enumerate() {
        if *byte == LF {
            if left <= 1 {
                return at;
            }
            left -= 1;
        }
    }
    bytes.len()
}

// Returns the next prefix to try between a readable and an unreadable one: where the bad line seems to end, then with
// its end, and otherwise half way.
fn probe(low: usize, high: usize, guess: usize) -> usize
    requires { low + 1 < high }
    ensures above { low < result }
    ensures below { result < high }
{
    if low < guess && guess < high {
        return guess;
    }
    let next = guess.saturating_add(1);
    if low < next && next < high {
        return next;
    }
    low + (high - low) / 2
}

// Returns the result for nothing readable.
fn nothing(alloc: Global) -> Front
    ensures entries { result.entries.items ≡ [] }
    ensures format { result.format ≡ Two }
    ensures keep { result.keep ≡ 0 }
{
    Front {
        entries: Vec::new(alloc),
        format: Format::Two,
        keep: 0,
    }
}

// Returns the contents of a journal that was cut at any byte, and none for other bytes.
fn found_in(alloc: Global, bytes: &[u8]) -> Result<Option<Front>, AllocError>
    ensures { IfOk result (λ found. MatchOption found (IsFaulty bytes.now)
        (λ f. Recovers bytes.now f.format f.entries.items f.keep)) }
{
    match read_front(alloc, bytes) {
        Ok(front) => Ok(Some(front)),
        Err(ChronFault::OutOfMemory) => Err(AllocError),
        Err(_fault) => Ok(None),
    }
}

// Returns the longest readable prefix of bytes with a bad line, trying the one before `line` first. If that is right,
// it reads two more prefixes.
fn front_of_broken(alloc: Global, bytes: &[u8], line: usize) -> Result<Front, AllocError>
    requires { IsBroken bytes.now }
    ensures { IfOk result (λ front. IsLongestFront bytes.now front.entries.items front.keep) }
{
    let guess = end_of_line(bytes, line);
    let mut front = nothing(alloc);
    let mut low = 0;
    let mut high = bytes.len();
    while low + 1 < high {
        let middle = probe(low, high, guess);
        match found_in(alloc, &bytes[..middle])? {
            Some(found) => {
                front = found;
                low = middle;
            }
            None => high = middle,
        }
    }
    Ok(front)
}

// Returns the longest readable prefix of bytes with this fault.
fn front_before(alloc: Global, bytes: &[u8], fault: ChronFault) -> Result<Front, ChronFault>
    requires { fault ≢ ChronFault.OutOfMemory → HasFrontFault bytes.now fault }
    ensures ok { IfOk result (λ front. IsLongestFront bytes.now front.entries.items front.keep) }
    ensures err { IfErr result (HasNoFront bytes.now) }
{
    match fault {
        ChronFault::BadLine(line) => Ok(front_of_broken(alloc, bytes, line)?),
        ChronFault::TooLong => Ok(front_of_broken(alloc, bytes, MOST_ENTRIES + 2)?),
        ChronFault::NotHistory => Err(ChronFault::NotHistory),
        // a journal has no other fault
        _ => Err(ChronFault::OutOfMemory),
    }
}

// Returns the longest readable prefix of the bytes.
fn longest_front(alloc: Global, bytes: &[u8]) -> Result<Front, ChronFault>
    ensures ok { IfOk result (λ front. IsLongestFront bytes.now front.entries.items front.keep) }
    ensures err { IfErr result (HasNoFront bytes.now) }
{
    match read_front(alloc, bytes) {
        Ok(front) => {
            if front.keep == 0 {
                return Err(ChronFault::NotHistory);
            }
            Ok(front)
        }
        Err(fault) => front_before(alloc, bytes, fault),
    }
}

/// The saved part of a damaged journal.
#[derive(Drop)]
pub struct Saved {
    /// The text of the history in its longest readable prefix, in format 2, with its last line.
    pub text: String,
    /// The first line left out, counted from 1.
    pub line: usize,
    /// The number of bytes left out, from that line on.
    pub left: usize,
}

/// Returns the history in the longest readable prefix of a journal, whatever follows it, and what is left out
/// (docs/KEEPING.md, "Recover"). Bytes without a complete first line have a fault, and so has an empty file. The only
/// other error is out of memory.
pub fn save_front(alloc: Global, bytes: &[u8]) -> Result<Saved, KeptFault>
    ensures ok { IfOk result (λ s. IsFrontText bytes.now (string_bytes s.text) s.line s.left) }
    ensures err { IfErr result (IsUnsaved bytes.now) }
{
    if bytes.is_empty() {
        return Err(KeptFault::Empty);
    }
    let front = longest_front(alloc, bytes)?;
    let mut text = String::new(alloc);
    write_history(alloc, &front.entries, &mut text)?;
    Ok(Saved {
        text,
        line: front.entries.len() + 2,
        left: bytes.len() - front.keep,
    })
}
