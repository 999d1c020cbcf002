//! Detects an HTTP request on the Telnet port by its first line (RFC 9112, section 3). A page of any origin can make a
//! browser send a request to any port, and the body of the request would be typed as commands.

ghost use Rattle.std.specs.Prelude.{◌≡◌, ◌==◌, ◌↔◌, ◌++◌, ℕ, List, [], IsTrue, if◌then◌else◌};
ghost use Rattle.std.specs.List.{fold};
ghost use Rattle.mud_web.specs.FirstLine.{IsRequestLine, Decides, StandsAfter};
ghost use Rattle.mud_web.specs.inner.Places.{begins_blank, next, next_blank, is_request, verdict_at};

const SPACE: u8 = b' ';

/// The verdict on the bytes that a connection received so far.
#[derive(Clone, Copy, Debug, PartialEq, Eq)]
pub enum Verdict {
    /// The first line may still become the first line of a request.
    Undecided,
    /// The connection begins with the first line of a request.
    Request,
    /// The connection does not begin with a request, whatever follows.
    NoRequest,
}

// The position in the first line of a request.
#[derive(Clone, Copy, Debug, PartialEq, Eq)]
enum Place {
    // After line ends only, or at the start.
    Blank,
    // In the method.
    Word,
    // After the space that follows the method.
    BehindWord,
    // In the target.
    Target,
    // After the space that follows the target and this many letters of `HTTP/`.
    BehindTarget,
    H,
    Ht,
    Htt,
    Http,
    // After `HTTP/`.
    Slash,
    // After the digit.
    Request,
    // Not the first line of a request.
    Other,
}

/// A detector for the first line of a connection, however the stream is cut. It keeps only a position, and no text.
#[derive(Clone, Copy, Debug, PartialEq, Eq)]
pub struct FirstLine {
    place: Place,
}

impl FirstLine {
    /// Returns a detector for a connection that received nothing yet.
    pub fn new() -> FirstLine
        ensures { StandsAfter result [] }
    {
        FirstLine {
            place: Place::Blank,
        }
    }

    /// Consumes the next bytes of the connection, and returns the verdict on all bytes so far. Line ends before the
    /// first line are skipped (RFC 9112, section 2.2). A verdict other than `Undecided` is final.
    pub fn feed(&mut self, bytes: &[u8]) -> Verdict
        ensures stands { (earlier : List ℕ) → StandsAfter self.old earlier
            → StandsAfter self.new (earlier ++ bytes.now) }
        ensures decides { (earlier : List ℕ) → StandsAfter self.old earlier
            → Decides result (earlier ++ bytes.now) }
    {
        self.place = place_after(self.place, bytes);
        verdict_at(self.place)
    }
}

/// Returns whether a line begins as the first line of a request: letters, a space, a target of visible characters, a
/// space, `HTTP/` and a digit. Anything may follow.
pub fn is_request_line(line: &[u8]) -> bool
    ensures { IsTrue result ↔ IsRequestLine line.now }
{
    !begins_blank(line) && is_request(place_after(Place::Blank, line))
}

// Returns whether the bytes begin with a line end.
fn begins_blank(line: &[u8]) -> bool
    ensures { result ≡ begins_blank line.now }
{
    match line {
        [first, ..] => matches!(*first, b'\r' | b'\n'),
        [] => false,
    }
}

// Returns whether the form has been read up to its digit.
fn is_request(place: Place) -> bool
    ensures { result ≡ is_request place }
{
    matches!(place, Place::Request)
}

// Returns the verdict at a position.
fn verdict_at(place: Place) -> Verdict
    ensures { result ≡ verdict_at place }
{
    match place {
        Place::Request => Verdict::Request,
        Place::Other => Verdict::NoRequest,
        _ => Verdict::Undecided,
    }
}

// Returns the position after these bytes.
fn place_after(place: Place, bytes: &[u8]) -> Place
    ensures { result ≡ fold next place bytes.now }
{
    let mut so_far = place;
    for byte in bytes {
        so_far = next(so_far, *byte);
    }
    so_far
}

// Returns the position after one more byte.
fn next(place: Place, byte: u8) -> Place
    ensures { result ≡ next place byte }
{
    match place {
        Place::Blank if byte.is_ascii_alphabetic() => Place::Word,
        Place::Blank => next_blank(byte),
        Place::Word if byte.is_ascii_alphabetic() => Place::Word,
        Place::Word => if_is(byte, SPACE, Place::BehindWord),
        Place::BehindWord if byte.is_ascii_graphic() => Place::Target,
        Place::BehindWord => Place::Other,
        Place::Target if byte.is_ascii_graphic() => Place::Target,
        Place::Target => if_is(byte, SPACE, Place::BehindTarget),
        Place::BehindTarget => if_is(byte, b'H', Place::H),
        Place::H => if_is(byte, b'T', Place::Ht),
        Place::Ht => if_is(byte, b'T', Place::Htt),
        Place::Htt => if_is(byte, b'P', Place::Http),
        Place::Http => if_is(byte, b'/', Place::Slash),
        Place::Slash if byte.is_ascii_digit() => Place::Request,
        Place::Slash => Place::Other,
        Place::Request => Place::Request,
        Place::Other => Place::Other,
    }
}

// Returns the position after a byte that is not a letter, while only line ends came before it.
fn next_blank(byte: u8) -> Place
    ensures { result ≡ next_blank byte }
{
    match byte {
        b'\r' | b'\n' => Place::Blank,
        _ => Place::Other,
    }
}

// Returns the position if the byte is the expected one, or `Other`.
fn if_is(byte: u8, wanted: u8, place: Place) -> Place
    ensures { result ≡ (if byte == wanted then place else Place.Other) }
{
    if byte == wanted { place } else { Place::Other }
}
