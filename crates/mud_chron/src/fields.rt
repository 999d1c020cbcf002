//! Reads the fields of a line. The reader is lenient: a field may be found in more than its own spelling, because
//! `line.rt` accepts an entry only if its line is exactly the given one.

ghost use Rattle.std.specs.Prelude.{◌≡◌, ◌≢◌, ◌⊎◌, ◌≤◌, ◌<◌, IfOk};
ghost use Rattle.mud_key.specs.declared.limits.TheConstants.{AMOUNTS};
ghost use Rattle.mud_chron.specs.Entry.{IsNumber};
ghost use Rattle.mud_chron.specs.inner.Fields.{Gives, digits_on, object_in};
ghost use Rattle.mud_key.specs.Finds.{names_in, name_in};
ghost use Rattle.mud_chron.specs.inner.Reader.{Tells, cut, number_up_to, object_before, speech_in, number_key_in};

use mud_key::{Key, KeyFault, Miss, Name, Namer, Names, NamesFault, read, resolve};
use mud_world::{LAST_NUMBER, Speech};
use std::alloc::{AllocError, Global};

// A number below this may get one more digit, and then has at most nine.
const ROOM_FOR_A_DIGIT: u32 = 100_000_000;

/// The reason why there is no entry.
#[derive(Clone, Copy)]
pub(crate) enum Unread {
    /// An allocation failed.
    OutOfMemory,
    /// No entry has this line.
    NoEntry,
}

impl From<AllocError> for Unread {
    ghost use Rattle.std.specs.Prelude.{◌≡◌};
    ghost use Rattle.mud_chron.specs.declared.fields.Unread.TheVariants.{OutOfMemory};

    ghost from_gives = { λ _ e. e ≡ OutOfMemory };

    fn from(_e: AllocError) -> Unread {
        Unread::OutOfMemory
    }
}

// Splits a text at the first occurrence of a sign, and returns both sides.
pub(crate) fn cut(text: &str, sign: char) -> Result<(&str, &str), Unread>
    requires { sign < 128 }
    ensures { Tells (λ p. (p.0.now, p.1.now)) result (cut sign text.now) }
{
    match text.split_once(sign) {
        Some(parts) => Ok(parts),
        None => Err(Unread::NoEntry),
    }
}

// Returns the number that at most nine digits denote.
fn digits(text: &[u8]) -> Result<u32, Unread>
    ensures { Gives result (digits_on 0 text.now) }
{
    let mut number = 0;
    for byte in text {
        let is_digit = b'0' <= *byte && *byte <= b'9';
        if !is_digit || number >= ROOM_FOR_A_DIGIT {
            return Err(Unread::NoEntry);
        }
        number = number * 10 + u32::from(*byte - b'0');
    }
    Ok(number)
}

// Returns the number if it is at most this one.
fn number_up_to(text: &[u8], most: u32) -> Result<u32, Unread>
    ensures { Gives result (number_up_to most text.now) }
{
    let number = digits(text)?;
    if number <= most {
        Ok(number)
    } else {
        Err(Unread::NoEntry)
    }
}

// Returns the number if it is at most this one.
pub(crate) fn number(text: &str, most: u32) -> Result<u32, Unread>
    requires { most < AMOUNTS }
    ensures means { Gives result (number_up_to most text.now) }
    ensures most { IfOk result (λ n. n ≤ most) }
{
    number_up_to(text.as_bytes(), most)
}

// Returns the number of an object.
pub(crate) fn object(text: &str) -> Result<u32, Unread>
    ensures means { Gives result (object_in text.now) }
    ensures number { IfOk result IsNumber }
{
    match text.as_bytes() {
        [b'#', digits @ ..] => number_up_to(digits, LAST_NUMBER),
        _ => Err(Unread::NoEntry),
    }
}

// Returns the number of an object up to a space, and the text after the space.
#[tactic(auto, unfolding(crate::specs::inner::Reader::object_before))]
pub(crate) fn object_before(text: &str) -> Result<(u32, &str), Unread>
    ensures means { Tells (λ p. (p.0, p.1.now)) result (object_before text.now) }
    ensures number { IfOk result (λ p. IsNumber p.0) }
{
    let (front, rest) = cut(text, ' ')?;
    Ok((object(front)?, rest))
}

// Returns the names of a names text.
pub(crate) fn names(alloc: Global, text: &str) -> Result<Names, Unread>
    ensures { Tells (λ x. x) result (names_in text.now) }
{
    match Names::read(alloc, text) {
        Ok(names) => Ok(names),
        Err(NamesFault::OutOfMemory) => Err(Unread::OutOfMemory),
        Err(NamesFault::BadName) => Err(Unread::NoEntry),
    }
}

// Returns the name that a text is.
pub(crate) fn name(alloc: Global, text: &str) -> Result<Name, Unread>
    ensures { Tells (λ x. x) result (name_in text.now) }
{
    match Name::read(alloc, text) {
        Ok(name) => Ok(name),
        Err(NamesFault::OutOfMemory) => Err(Unread::OutOfMemory),
        Err(NamesFault::BadName) => Err(Unread::NoEntry),
    }
}

// Returns the text as a speech.
#[tactic(auto, unfolding(crate::specs::inner::Reader::speech_in))]
pub(crate) fn speech(alloc: Global, text: &str) -> Result<Speech, Unread>
    ensures { Tells (λ x. x) result (speech_in text.now) }
{
    match Speech::read(alloc, text)? {
        Some(speech) => Ok(speech),
        None => Err(Unread::NoEntry),
    }
}

// Resolves the objects of a key by their numbers.
struct Numbers;

impl Namer for Numbers {
    ghost use Rattle.mud_key.specs.declared.namer.Miss.TheVariants.{NoSuch};
    ghost use Rattle.std.specs.Option.{ok_or};
    ghost use Rattle.mud_chron.specs.inner.Fields.{object_in};

    ghost meaning = { λ _ text. ok_or (object_in text) NoSuch };

    fn name(&self, text: &str) -> Result<u32, Miss> {
        match object(text) {
            Ok(number) => Ok(number),
            Err(_) => Err(Miss::NoSuch),
        }
    }
}

// Returns the reason why a key was not read or not resolved.
fn why_none(fault: KeyFault) -> Unread
    ensures { (fault ≢ KeyFault.OutOfMemory) ⊎ (result ≡ Unread.OutOfMemory) }
{
    match fault {
        KeyFault::OutOfMemory => Unread::OutOfMemory,
        _ => Unread::NoEntry,
    }
}

// Returns the key whose objects are numbers.
#[tactic(auto, unfolding(crate::specs::inner::Reader::number_key_in))]
pub(crate) fn key(alloc: Global, text: &str) -> Result<Key, Unread>
    ensures { Tells (λ x. x) result (number_key_in text.now) }
{
    let written = match read(alloc, text) {
        Ok(written) => written,
        Err(fault) => return Err(why_none(fault)),
    };
    match resolve(alloc, &written, &Numbers) {
        Ok(key) => Ok(key),
        Err(fault) => Err(why_none(fault)),
    }
}
