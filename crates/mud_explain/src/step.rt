//! Lines that are steps of desks.

ghost use Rattle.std.specs.Prelude.{◌≡◌, ◌≤◌, ◌+◌};
ghost use Rattle.mud_key.specs.declared.codes.TheConstants.{ZERO, NINE};

use std::alloc::{AllocError, Global};

/// A step of a hall's desks.
#[derive(Drop)]
pub(crate) enum Row<'a> {
    /// Gives a new desk.
    Desk,
    /// Closes the hall with the desks of these numbers.
    Close(Vec<u32>),
    /// The first desk learns what the second one has seen.
    Learn(u32, u32),
    /// The turn of one desk.
    At(u32, Turn<'a>),
}

/// The turn of one desk.
#[derive(Clone, Copy)]
pub(crate) enum Turn<'a> {
    /// A line that acts.
    Act(&'a str),
    /// A line that asks.
    Ask(&'a str),
    /// See all entries.
    See,
    /// Report the number of entries seen.
    Seen,
    /// Hand out the notices.
    Told,
    /// Become a guest's desk again.
    Guest,
}

/// Returns the step of a line, if it is one.
pub(crate) fn step_of<'a>(alloc: Global, line: &'a str) -> Result<Option<Row<'a>>, AllocError> {
    if line == "desk" {
        return Ok(Some(Row::Desk));
    }
    match line.split_once(' ') {
        Some(("close", numbers)) => close_step(alloc, numbers),
        Some((number, words)) => Ok(at_desk(number, words)),
        None if line == "close" => Ok(Some(Row::Close(Vec::new(alloc)))),
        None => Ok(None),
    }
}

// Returns the close step, if these are numbers separated by one space.
fn close_step<'a>(alloc: Global, words: &'a str) -> Result<Option<Row<'a>>, AllocError> {
    let mut numbers = Vec::new(alloc);
    for word in words.split(' ') {
        match number_of(word) {
            Some(number) => numbers.push(number)?,
            None => return Ok(None),
        }
    }
    Ok(Some(Row::Close(numbers)))
}

// Returns the step of one desk.
fn at_desk<'a>(number: &str, words: &'a str) -> Option<Row<'a>> {
    let number = number_of(number)?;
    match words.strip_prefix("learn ") {
        Some(other) => Some(Row::Learn(number, number_of(other)?)),
        None => Some(Row::At(number, turn_of(words)?)),
    }
}

// Returns the turn that a desk is asked for.
fn turn_of(words: &str) -> Option<Turn<'_>> {
    match words {
        "see" => Some(Turn::See),
        "seen" => Some(Turn::Seen),
        "told" => Some(Turn::Told),
        "guest" => Some(Turn::Guest),
        _ => match words.split_once(' ') {
            Some(("act", line)) => Some(Turn::Act(line)),
            Some(("ask", line)) => Some(Turn::Ask(line)),
            _ => None,
        },
    }
}

// Returns the number of a desk: one or two digits, the first not zero.
fn number_of(word: &str) -> Option<u32> {
    match word.as_bytes() {
        [one @ b'1'..=b'9'] => Some(digit(*one)),
        [ten @ b'1'..=b'9', one @ b'0'..=b'9'] => Some(10 * digit(*ten) + digit(*one)),
        _ => None,
    }
}

// Returns the value of a digit.
fn digit(byte: u8) -> u32
    requires from { ZERO ≤ byte }
    requires to { byte ≤ NINE }
    ensures value { result + ZERO ≡ byte }
    ensures most { result ≤ 9 }
{
    u32::from(byte - b'0')
}
