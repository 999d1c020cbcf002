//! Splits a Telnet stream into lines (network virtual terminal, RFC 854), however the stream is cut.
//!
//! A session reads a connection in pieces that may be cut anywhere. [`Nvt`] consumes the pieces and returns units: a
//! whole line, a line that is too long, a query whether anyone is there, or the bytes that answer a request.
//! [`write_line`] appends an outgoing line.
//!
//! ```rust
//! let mut nvt: Nvt = Nvt::new(alloc);
//! let mut units = Vec::new(alloc);
//! nvt.feed(b"lo", &mut units)?;
//! nvt.feed(b"ok\r\n", &mut units)?;
//! for unit in &units {
//!     match unit {
//!         Unit::Text(line) => write_line(line.as_str(), &mut out)?,
//!         Unit::TooLong => write_line("(line too long)", &mut out)?,
//!         Unit::Ayt => write_line("(yes)", &mut out)?,
//!         Unit::Answer(bytes) => out.extend_from_slice(bytes)?,
//!     }
//! }
//! ```
//!
//! **The rules.** `docs/TELNET.md` names the section of RFC 854 for each of them:
//!
//! - The terminal refuses every option, and skips subnegotiations and other commands.
//! - LF ends a line. CR ends a line too, and swallows the next byte if that is LF or NUL.
//! - EC, 8 and 127 erase the last character, and EL erases the line.
//! - A line that ever held more than 1,000 characters is too long.
//!
//! **What is proved.** `specs/Telnet`, `specs/Strokes` and `specs/Units` define the units of a whole list of bytes,
//! without any state. However the stream was cut, the units so far are those of all bytes so far. If an allocation
//! fails, `feed` returns the number of bytes that it consumed. The units are those of the consumed bytes, the next byte
//! types a character or completes a unit, and feeding the rest continues as if nothing had happened. Each text has at
//! most 1,000 bytes, each from 32 to 126. No byte makes the terminal fail. [`laws`] has the facts about the
//! definitions.
//!
//! **Time and memory.** Each byte takes constant time, except when a growing line is copied to a buffer of twice its
//! size. A terminal holds one line of at most 1,000 characters, and nothing of a subnegotiation.
#![tactic(auto)]

ghost use Rattle.std.specs.Prelude.{◌≡◌, ◌≤◌, [], ◌∷◌, ◌++◌, length, OnOk, OnErr, IfOk, IfErr, IsTrue, take};
ghost use Rattle.std.specs.Prelude.{◌+◌, ◌<◌, slice_index, All, IfSome};
ghost use Rattle.std.specs.List.{list_any};
ghost use Rattle.mud_nvt.specs.inner.Machine.{next, byte_units, byte_strokes, after_stroke, stroke_units, run};
ghost use Rattle.mud_nvt.specs.inner.Machine.{run_units};
ghost use Rattle.mud_nvt.specs.inner.Lines.{IsTyped, with_text};
ghost use Rattle.mud_nvt.specs.Memory.{takes_memory, StopsBefore};
ghost use Rattle.mud_nvt.specs.UnitViews.{unit_shown, all_shown};
ghost use Rattle.mud_nvt.specs.Lines.{IsSound};
ghost use Rattle.mud_nvt.specs.inner.Lines.{IsPlain, IsPrintable};
ghost use Rattle.mud_nvt.specs.History.{StandsAfter, TakesIn};

mod codes;
pub mod laws;
mod strokes;
mod telnet;
mod typed;

use codes::{CR, IAC, LF};
use std::alloc::{AllocError, Allocator, Global};
use std::marker::Model;
use std::mem;
use strokes::{Stroke, is_return, stroke_of};
use telnet::{Position, step};
use thiserror::Error;
use typed::printable_len;

/// The greatest number of characters in a line. This project's own profile: RFC 854 sets no limit.
pub const MOST: usize = 1000;

/// An event of the stream. It is returned as soon as its last byte arrived.
#[derive(Debug, Drop)]
pub enum Unit<A: Allocator = Global> {
    /// A line that LF or CR ended, after erasing: at most 1,000 bytes from 32 to 126 (RFC 854, "The NVT printer and
    /// keyboard").
    Text(String<A>),
    /// The end of a line that held more than 1,000 characters at some time since its start or the last EL.
    TooLong,
    /// AYT: the other side asks for a visible sign that anyone is there (RFC 854, "Standard representation of control
    /// functions").
    Ayt,
    /// The reply to a request, to be sent back: WONT for DO, or DONT for WILL (RFC 854, "General considerations").
    Answer([u8; 3]),
}

/// An allocation failed. The first `taken` bytes of the input are consumed, and the caller may feed the rest again.
#[derive(Clone, Copy, Debug, PartialEq, Eq, Error)]
#[error("out of memory after {taken} bytes")]
pub struct Stop {
    /// The number of consumed bytes.
    pub taken: usize,
}

/// The receiving side of a network virtual terminal. `A` allocates the line that it holds and the lines that it
/// returns.
#[derive(Drop)]
pub struct Nvt<A: Allocator = Global> {
    place: Position,
    after_cr: bool,
    line: String<A>,
    is_too_long: bool,
}

impl<A: Allocator> Model for Nvt<A> {
    ghost use Rattle.std.specs.Prelude.{◌≤◌, All};
    ghost use Rattle.std.specs.Str.{IsAscii};
    ghost use Rattle.std.specs.String.{string_bytes, string_len};
    ghost use Rattle.mud_nvt.specs.Held.{Held};
    ghost use Rattle.mud_nvt.specs.declared.TheConstants.{MOST};
    ghost use Rattle.mud_nvt.specs.inner.Lines.{IsPrintable};

    ghost Value = { Held };

    ghost view = { λ n. record {
      place = n.place;
      after_cr = n.after_cr;
      text = string_bytes n.line;
      too_long = n.is_too_long;
    } };

    ghost invariant = { λ n. record {
      ascii : IsAscii (string_bytes n.line);
      printable : All IsPrintable (string_bytes n.line);
      short : string_len n.line ≤ MOST;
    } };
}

impl<A: Allocator + Clone + Drop> Nvt<A> {
    /// Returns a terminal in its initial state.
    pub fn new(alloc: A) -> Nvt<A>
        ensures { StandsAfter result [] }
    {
        Nvt {
            place: Position::Between,
            after_cr: false,
            line: String::new(alloc),
            is_too_long: false,
        }
    }

    /// Consumes the next bytes, and appends each unit that they complete to `units`.
    ///
    /// The only error is [`Stop`], when an allocation fails. The first `taken` bytes are consumed then, and the caller
    /// may continue with `&bytes[stop.taken..]`.
    pub fn feed(&mut self, bytes: &[u8], units: &mut Vec<Unit<A>, A>) -> Result<(), Stop>
        ensures ok { let before = all_shown units.old.items in
            let after = all_shown units.new.items in
            OnOk result (TakesIn self.old self.new before after bytes.now) }

        // On a `Stop` the first bytes are consumed, and the next byte is one that needs memory.
        ensures stop { let before = all_shown units.old.items in
            let after = all_shown units.new.items in
            IfErr result (λ stop. TakesIn self.old self.new before after (take stop.taken bytes.now)) }
        ensures taken { IfErr result (λ stop. stop.taken < length bytes.now) }
        ensures memory { IfErr result (λ stop.
            StopsBefore self.old (take stop.taken bytes.now) (slice_index bytes.now stop.taken)) }

        // Each text has at most 1,000 printable characters.
        ensures sound { All IsSound (all_shown units.old.items) → All IsSound (all_shown units.new.items) }
    {
        let mut taken = 0;
        while taken < bytes.len() {
            match self.take_front(&bytes[taken..], units) {
                Ok(count) => taken += count,
                Err(_) => return Err(Stop { taken }),
            }
        }
        Ok(())
    }

    /// Takes the memory of a line that is no longer needed, and uses it for the lines to come. While a line is being
    /// typed, that memory is freed instead. It does not allocate.
    pub fn reuse(&mut self, mut line: String<A>)
        ensures { self.new ≡ self.old }
    {
        if self.line.is_empty() {
            line.clear();
            self.line = line;
        }
    }

    // Consumes the leading printable characters, or the first byte if there are none. Returns the number of consumed
    // bytes.
    fn take_front(&mut self, bytes: &[u8], units: &mut Vec<Unit<A>, A>) -> Result<usize, AllocError>
        requires { 0 < length bytes.now }
        ensures some { IfOk result (λ n. 0 < n) }
        ensures within { IfOk result (λ n. n ≤ length bytes.now) }
        ensures state { IfOk result (λ n. self.new ≡ run self.old (take n bytes.now)) }
        ensures given { IfOk result (λ n.
            all_shown units.new.items ≡ all_shown units.old.items ++ run_units self.old (take n bytes.now)) }
        ensures sound { All IsSound (all_shown units.old.items) → All IsSound (all_shown units.new.items) }
        ensures err { OnErr result (self.new ≡ self.old) }
        ensures err_units { OnErr result (all_shown units.new.items ≡ all_shown units.old.items) }
        ensures memory { OnErr result (IsTrue (list_any takes_memory
            (byte_strokes self.old (slice_index bytes.now 0)))) }
    {
        match self.plain_front(bytes) {
            Some(text) => {
                self.add_text(text)?;
                Ok(text.len())
            }
            None => {
                self.take_byte(bytes[0], units)?;
                Ok(1)
            }
        }
    }

    // Returns the leading printable characters, if there are any and all of them go to the end of the line.
    fn plain_front<'a>(&self, bytes: &'a [u8]) -> Option<&'a str>
        ensures { IfSome result (λ text. IsTyped self.now bytes.now text.now) }
    {
        if self.is_too_long {
            return None;
        }
        let Position::Between = self.place else {
            return None;
        };
        let room = MOST - self.line.len();
        let len = printable_len(&bytes[..bytes.len().min(room)]);
        if len == 0 {
            return None;
        }
        // the characters are ASCII, so they need no further test
        Some(unsafe { str::from_utf8_unchecked(&bytes[..len]) })
    }

    // Appends characters to the line.
    fn add_text(&mut self, text: &str) -> Result<(), AllocError>
        requires printable { All IsPrintable text.now }
        requires short { length self.old.text + length text.now ≤ MOST }
        ensures state { OnOk result (self.new ≡ with_text self.old text.now) }
        ensures err { OnErr result (self.new ≡ self.old) }
    {
        self.line.push_str(text)?;
        self.after_cr = false;
        Ok(())
    }

    fn take_byte(&mut self, byte: u8, units: &mut Vec<Unit<A>, A>) -> Result<(), AllocError>
        ensures state { OnOk result (self.new ≡ next self.old byte) }
        ensures given { let fresh = byte_units self.old byte in
            OnOk result (all_shown units.new.items ≡ all_shown units.old.items ++ fresh) }
        ensures sound { All IsSound (all_shown units.old.items) → All IsSound (all_shown units.new.items) }
        ensures err { OnErr result (self.new ≡ self.old) }
        ensures err_units { OnErr result (all_shown units.new.items ≡ all_shown units.old.items) }
        ensures memory { OnErr result (IsTrue (list_any takes_memory (byte_strokes self.old byte))) }
    {
        let (place, piece) = step(self.place, byte);
        if let Some(piece) = piece {
            self.apply(stroke_of(self.after_cr, piece), units)?;
            self.after_cr = is_return(piece);
        }
        self.place = place;
        Ok(())
    }

    fn apply(&mut self, stroke: Stroke, units: &mut Vec<Unit<A>, A>) -> Result<(), AllocError>
        requires { IsPlain stroke }
        ensures state { OnOk result (self.new ≡ after_stroke self.old stroke) }
        ensures given { let fresh = stroke_units self.old.too_long self.old.text stroke in
            OnOk result (all_shown units.new.items ≡ all_shown units.old.items ++ fresh) }
        ensures sound { All IsSound (all_shown units.old.items) → All IsSound (all_shown units.new.items) }
        ensures err { OnErr result (self.new ≡ self.old) }
        ensures err_units { OnErr result (all_shown units.new.items ≡ all_shown units.old.items) }
        ensures memory { OnErr result (IsTrue (takes_memory stroke)) }
    {
        match stroke {
            Stroke::Character(byte) => self.add_character(byte),
            Stroke::EraseCharacter => {
                self.erase_character();
                Ok(())
            }
            Stroke::EraseLine => {
                self.erase_line();
                Ok(())
            }
            Stroke::EndLine => self.end_line(units),
            Stroke::AreYouThere => give(units, Unit::Ayt),
            Stroke::Refuse(verb, option) => give(units, Unit::Answer([IAC, verb, option])),
            Stroke::Nothing => Ok(()),
        }
    }

    fn erase_character(&mut self)
        ensures { self.new ≡ after_stroke self.old Stroke.EraseCharacter }
    {
        let len = self.line.len();
        if len > 0 {
            self.line.truncate(len - 1);
        }
    }

    fn erase_line(&mut self)
        ensures { self.new ≡ after_stroke self.old Stroke.EraseLine }
    {
        self.line.clear();
        self.is_too_long = false;
    }

    fn add_character(&mut self, byte: u8) -> Result<(), AllocError>
        requires { IsPrintable byte }
        ensures state { OnOk result (self.new ≡ after_stroke self.old (Stroke.Character byte)) }
        ensures err { OnErr result (self.new ≡ self.old) }
    {
        if self.is_too_long || self.line.len() >= MOST {
            self.is_too_long = true;
            return Ok(());
        }
        self.line.push(char::from(byte))
    }

    fn end_line(&mut self, units: &mut Vec<Unit<A>, A>) -> Result<(), AllocError>
        ensures state { OnOk result (self.new ≡ after_stroke self.old Stroke.EndLine) }
        ensures given { let fresh = stroke_units self.old.too_long self.old.text Stroke.EndLine in
            OnOk result (all_shown units.new.items ≡ all_shown units.old.items ++ fresh) }
        ensures sound { All IsSound (all_shown units.old.items) → All IsSound (all_shown units.new.items) }
        ensures err { OnErr result (self.new ≡ self.old) }
        ensures err_units { OnErr result (all_shown units.new.items ≡ all_shown units.old.items) }
    {
        units.reserve(1)?;
        let unit = self.take_line()?;
        units.push(unit)?;
        Ok(())
    }

    // Returns the unit that the end of the line completes, and begins the next line.
    fn take_line(&mut self) -> Result<Unit<A>, AllocError>
        ensures state { OnOk result (self.new ≡ after_stroke self.old Stroke.EndLine) }
        ensures given { IfOk result (λ unit.
            unit_shown unit ∷ [] ≡ stroke_units self.old.too_long self.old.text Stroke.EndLine) }
        ensures sound { IfOk result (λ unit. IsSound (unit_shown unit)) }
        ensures err { OnErr result (self.new ≡ self.old) }
    {
        let empty = String::new(self.line.allocator().clone()?);
        let line = mem::replace(&mut self.line, empty);
        if mem::take(&mut self.is_too_long) {
            return Ok(Unit::TooLong);
        }
        Ok(Unit::Text(line))
    }
}

// Appends a unit.
fn give<A: Allocator + Drop>(units: &mut Vec<Unit<A>, A>, unit: Unit<A>) -> Result<(), AllocError>
    ensures given { OnOk result (all_shown units.new.items ≡ all_shown units.old.items ++ unit_shown unit ∷ []) }
    ensures err { OnErr result (all_shown units.new.items ≡ all_shown units.old.items) }
{
    units.push(unit)?;
    Ok(())
}

/// Appends an outgoing line: the text, CR and LF (RFC 854, "The NVT printer and keyboard").
///
/// A program that writes to a terminal uses it. A program that writes to a file does not need it, because the lines of
/// a file end with LF alone.
///
/// The text is appended unchanged, so each of its bytes should be from 32 to 126. If an allocation fails, `out` is
/// unchanged.
pub fn write_line<A: Allocator>(text: &str, out: &mut Vec<u8, A>) -> Result<(), AllocError>
    ensures ok { OnOk result (out.new.items ≡ out.old.items ++ text.now ++ CR ∷ LF ∷ []) }
    ensures err { OnErr result (out.new.items ≡ out.old.items) }
{
    out.reserve(text.len() + 2)?;
    out.extend_from_slice(text.as_bytes())?;
    out.extend_from_slice(&[CR, LF])?;
    Ok(())
}
