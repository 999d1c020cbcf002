//! Recovers a journal from the bytes of a disk.

ghost use Rattle.std.specs.Prelude.{◌≡◌, ◌≢◌, ◌≤◌, ◌++◌, ℕ, List, Option, true, IfOk, IfErr, IfSome, MatchBool};
ghost use Rattle.std.specs.Prelude.{length, take};
ghost use Rattle.std.specs.Io.KnownBytes.{Consumes};
ghost use Rattle.mud_world.specs.declared.limits.TheConstants.{MOST_ENTRIES};
ghost use Rattle.mud_chron.specs.declared.format.Format.TheVariants.{Two};
ghost use Rattle.mud_chron.specs.Text.{journal_text};
ghost use Rattle.mud_chron.specs.Faults.{IsNoHistory};
ghost use Rattle.mud_chron.specs.Fronts.{Recovers, HasFrontFault};
ghost use Rattle.mud_chron.specs.Zeros.{up_to_zero};
ghost use Rattle.mud_journal.specs.Found.{IsBlank, Finds};
ghost use Rattle.mud_journal.specs.OpenFaults.{IsRefusedIn, IsRefusedAs, IsUnfoundAs};

use crate::fault::OpenFault;
use crate::journal::Found;
use mud_chron::{ChronFault, Entry, Format, Front, before_zero, read_front, read_history};
use mud_key::codes::LF;
use std::alloc::Global;
use std::io::{ErrorKind, Read};

// The number of bytes in a first line, with its end.
const FIRST_LINE_BYTES: usize = 14;

// Returns whether the bytes are those of a file in which no journal was begun.
fn is_blank(bytes: &[u8]) -> bool
    ensures { MatchBool result (IsBlank bytes.now) (¬ IsBlank bytes.now) }
{
    for (i, b) in bytes.iter().enumerate() {
        if i < FIRST_LINE_BYTES {
            if *b == LF {
                return false;
            }
        } else if *b != 0 {
            return false;
        }
    }
    true
}

// Returns the fault of bytes that are not a prefix of a journal.
fn refusal(alloc: Global, bytes: &[u8], fault: ChronFault) -> OpenFault
    requires { fault ≢ ChronFault.OutOfMemory → HasFrontFault bytes.now fault }
    ensures { IsRefusedIn bytes.now result }
{
    match fault {
        ChronFault::BadLine(line) => match read_history(alloc, bytes) {
            Ok(_) => OpenFault::Whole,
            Err(_) => OpenFault::Line(line),
        },
        ChronFault::TooLong => OpenFault::TooLong,
        ChronFault::NotHistory => OpenFault::NotHistory,
        ChronFault::OutOfMemory => OpenFault::OutOfMemory,
        // recovery neither looks for the last line nor replays the changes
        ChronFault::NoEnd | ChronFault::BadChange(_) => unreachable!(),
    }
}

// Returns the recovered prefix, if the bytes are a journal that can be continued.
fn front_of(alloc: Global, bytes: &[u8]) -> Result<Front, OpenFault>
    ensures ok { IfOk result (λ f. Recovers bytes.now Two f.entries.items f.keep) }
    ensures begun { IfOk result (λ f. f.keep ≢ 0) }
    ensures err { IfErr result (IsRefusedIn bytes.now) }
{
    let front = match read_front(alloc, bytes) {
        Ok(front) => front,
        Err(fault) => return Err(refusal(alloc, bytes, fault)),
    };
    match front.format {
        Format::One => Err(OpenFault::Old),
        Format::Two => {
            if front.keep == 0 {
                return Err(OpenFault::NotHistory);
            }
            Ok(front)
        }
    }
}

/// Recovers the journal from the bytes of a disk. Returns it, its entries, and the number of torn bytes at its end.
/// Torn are a last line without a line feed before the first zero byte, and all bytes after it. If no journal was
/// begun, the result is a new one. By its type, the call neither reads the disk nor changes it.
pub fn recover<D: Drop>(
    alloc: Global,
    disk: D,
    bytes: Vec<u8>,
) -> Result<(Found<D>, Vec<Entry>, usize), OpenFault>
    ensures disk { IfOk result (λ f. f.0.disk ≡ disk) }
    ensures found { IfOk result (λ f. Finds bytes.items f.1.items f.2) }
    ensures text { IfOk result (λ f. f.0.text.items ≡ journal_text Two f.1.items) }
    ensures count { IfOk result (λ f. f.0.count ≡ length f.1.items) }
    ensures few { IfOk result (λ f. length f.1.items ≤ MOST_ENTRIES) }
    ensures err { IfErr result (IsRefusedAs bytes.items) }
{
    let mut text = bytes;
    let len = text.len();
    if is_blank(&text) {
        text.clear();
        text.extend_from_slice(Format::Two.first_line().as_bytes())?;
        return Ok((Found::new(disk, text, 0), Vec::new(alloc), len));
    }
    let front = match front_of(alloc, before_zero(&text)) {
        Ok(front) => front,
        Err(fault) => return Err(fault),
    };
    text.truncate(front.keep);
    let found = Found::new(disk, text, front.entries.len());
    Ok((found, front.entries, len - front.keep))
}

// Returns whether the bytes, as many as a first line has, can neither begin a journal nor belong to a file in which
// none was begun.
fn is_foreign(first: &[u8]) -> bool
    ensures { result ≡ true → IsNoHistory first.now × (IsBlank first.now → ⊥) }
{
    if is_blank(first) || first.starts_with(Format::One.first_line().as_bytes()) {
        return false;
    }
    !first.starts_with(Format::Two.first_line().as_bytes())
}

// Reads once. Returns 0 after a signal.
fn read_first<R: Read>(reader: &mut R, first: &mut [u8]) -> Result<usize, OpenFault>
    ensures count { IfOk result (λ n. n ≤ length first.new) }
    ensures bytes { IfOk result (λ n.
        Consumes (R.remaining reader.old) (R.remaining reader.new) (take n first.new)) }
    ensures err { IfErr result (λ fault. (known : Option (List ℕ)) → IsUnfoundAs known fault) }
{
    match reader.read(first) {
        Ok(count) => Ok(count),
        Err(error) => {
            if error.kind() == ErrorKind::Interrupted {
                return Ok(0);
            }
            Err(OpenFault::of_file(&error))
        }
    }
}

// Returns the first bytes of a reader, and all that are left.
fn read_rest<R: Read>(alloc: Global, reader: &mut R, first: &[u8]) -> Result<Vec<u8>, OpenFault>
    ensures ok { IfOk result (λ v. IfSome (R.remaining reader.old) (λ bytes. v.items ≡ first.now ++ bytes)) }
    ensures err { IfErr result (λ fault. (known : Option (List ℕ)) → IsUnfoundAs known fault) }
{
    let Ok(mut bytes) = Vec::from_slice(alloc, first) else {
        return Err(OpenFault::OutOfMemory);
    };
    match reader.read_to_end(&mut bytes) {
        Ok(_) => Ok(bytes),
        Err(error) => Err(OpenFault::of_file(&error)),
    }
}

// Returns all bytes of a reader. If their first line is not a journal's, the rest is not read.
fn read_all<R: Read>(alloc: Global, reader: &mut R) -> Result<Vec<u8>, OpenFault>
    ensures ok { IfOk result (λ v. IfSome (R.remaining reader.old) (λ bytes. v.items ≡ bytes)) }
    ensures err { IfErr result (IsUnfoundAs (R.remaining reader.old)) }
{
    let mut first = [0u8; FIRST_LINE_BYTES];
    let count = match read_first(reader, &mut first) {
        Ok(count) => count,
        Err(fault) => return Err(fault),
    };
    if count == FIRST_LINE_BYTES && is_foreign(&first) {
        return Err(OpenFault::NotHistory);
    }
    match read_rest(alloc, reader, &first[..count]) {
        Ok(bytes) => Ok(bytes),
        Err(fault) => Err(fault),
    }
}

/// Reads all bytes of a disk, and returns what [`recover`] finds in them. If their first line is not a journal's, the
/// rest is not read. By its type, the call does not write to the disk.
pub fn found_in<D: Read + Drop>(
    alloc: Global,
    disk: D,
) -> Result<(Found<D>, Vec<Entry>, usize), OpenFault>
    ensures found { IfOk result (λ f. IfSome (D.remaining disk) (λ bytes. Finds bytes f.1.items f.2)) }
    ensures text { IfOk result (λ f. f.0.text.items ≡ journal_text Two f.1.items) }
    ensures count { IfOk result (λ f. f.0.count ≡ length f.1.items) }
    ensures few { IfOk result (λ f. length f.1.items ≤ MOST_ENTRIES) }
    ensures err { IfErr result (IsUnfoundAs (D.remaining disk)) }
{
    let mut disk = disk;
    let bytes = match read_all(alloc, &mut disk) {
        Ok(bytes) => bytes,
        Err(fault) => return Err(fault),
    };
    match recover(alloc, disk, bytes) {
        Ok(found) => Ok(found),
        Err(fault) => Err(fault),
    }
}
