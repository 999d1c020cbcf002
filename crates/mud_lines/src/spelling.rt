//! Pieces of lines.

use mud_key::{Key, Names, print};
use mud_words::parse;
use mud_world::{Doors, Target};
use std::alloc::{AllocError, Global};

/// The name of an exit, until it is renamed, if its own names would be read as a preposition.
pub(crate) const STAND_IN: &str = "x";

// Appends names, a comma between each two.
fn push_names(out: &mut String, names: &Names) -> Result<(), AllocError> {
    for (i, name) in names.list().iter().enumerate() {
        if i > 0 {
            out.push_str(",")?;
        }
        out.push_str(name.as_str())?;
    }
    Ok(())
}

/// Returns names as one word of a line.
pub(crate) fn quoted(alloc: Global, names: &Names) -> Result<String, AllocError> {
    let mut out = String::from_str(alloc, "\"")?;
    push_names(&mut out, names)?;
    out.push_str("\"")?;
    Ok(out)
}

/// Returns the word for the object of a number.
pub(crate) fn reference(alloc: Global, object: u32) -> Result<String, AllocError> {
    format!(in alloc; "#{object}")
}

/// Returns the names of the exits of a dig as one word of a line.
pub(crate) fn doors_word(alloc: Global, doors: &Doors) -> Result<String, AllocError> {
    let mut out = String::from_str(alloc, "\"")?;
    push_names(&mut out, &doors.out)?;
    if let Some(back) = &doors.back {
        out.push_str("|")?;
        push_names(&mut out, back)?;
    }
    out.push_str("\"")?;
    Ok(out)
}

/// Returns whether a word is read as a preposition even in quotes.
pub(crate) fn is_preposition(alloc: Global, word: &str) -> Result<bool, AllocError> {
    let line = format!(in alloc; "x {word}")?;
    let parsed = parse(alloc, &line)?;
    Ok(parsed.prep.is_some())
}

/// Returns the target of a dig, as the end of a line.
pub(crate) fn target_words(alloc: Global, target: &Target) -> Result<String, AllocError> {
    match target {
        Target::New(names) => quoted(alloc, names),
        Target::Old(room) => reference(alloc, *room),
    }
}

/// Returns a key, as the end of a line.
pub(crate) fn key_words(alloc: Global, key: &Key) -> Result<String, AllocError> {
    print(alloc, key)
}

/// Returns a key's text with these words for its objects, in order.
pub(crate) fn mapped(alloc: Global, text: &str, words: &[String]) -> Result<String, AllocError> {
    let mut out = String::new(alloc);
    let mut at = 0;
    let mut is_number = false;
    for sign in text.chars() {
        if sign == '#' {
            if let Some(word) = words.get(at) {
                out.push_str(word.as_str())?;
            }
            at = at.saturating_add(1);
            is_number = true;
        } else if !(is_number && sign.is_ascii_digit()) {
            is_number = false;
            out.push(sign)?;
        }
    }
    Ok(out)
}

// Appends the number in another world of a number in a new world.
fn push_moved(out: &mut String, number: u32, here: u32, next: u32) -> Result<(), AllocError> {
    write!(out, "{}", moved(number, here, next))
}

/// Returns the line for another world, where the room of the typist has number `here`, and the next object gets number
/// `next`. A number in quotes stays.
pub(crate) fn shifted(
    alloc: Global,
    line: &str,
    here: u32,
    next: u32,
) -> Result<String, AllocError> {
    let mut out = String::new(alloc);
    let mut is_quoted = false;
    let mut number: Option<u32> = None;
    for sign in line.chars() {
        if let Some(value) = number {
            if let Some(digit) = sign.to_digit(10) {
                number = Some(value.saturating_mul(10).saturating_add(digit));
                continue;
            }
            push_moved(&mut out, value, here, next)?;
            number = None;
        }
        if sign == '"' {
            is_quoted = !is_quoted;
        }
        if sign == '#' && !is_quoted {
            number = Some(0);
        }
        out.push(sign)?;
    }
    if let Some(value) = number {
        push_moved(&mut out, value, here, next)?;
    }
    Ok(out)
}

// Returns the number in another world of a number in a new world.
fn moved(number: u32, here: u32, next: u32) -> u32 {
    match number.checked_sub(2) {
        Some(made) => next.saturating_add(made),
        None => here,
    }
}
