ghost use Rattle.std.specs.Prelude.{◌≡◌, ◌∷◌, ◌++◌, [], Some, map, string_bytes, IsTrue, IfOk, OnOk};
ghost use Rattle.std.specs.Cow.{cow_str_bytes};
ghost use Rattle.mud_words.specs.Words.{plain_words, after_first_word, without_back};
ghost use Rattle.mud_words.specs.inner.Pieces.{pieces};
ghost use Rattle.mud_words.specs.inner.Cuts.{rest_words};
ghost use Rattle.mud_words.specs.inner.Spots.{join_words};

use crate::piece::{Piece, Quotes};
use crate::spaces::without_front;
use std::alloc::{AllocError, Global};
use std::borrow::CowStr;

/// Appends the words of a text without shorthand. `rest` is the text without the spaces at its end. Returns whether it
/// is the words joined by one space, and has no quotes and backslashes.
///
/// Up to the first quote or backslash the words are the pieces between spaces, and one loop cuts them.
pub(crate) fn push_words<'a>(
    alloc: Global,
    text: &'a str,
    rest: &'a str,
    words: &mut Vec<CowStr<'a, Global>>,
) -> Result<bool, AllocError>
    requires { rest.now ≡ without_back text.now }
    ensures words { OnOk result (map cow_str_bytes words.new.items
        ≡ map cow_str_bytes words.old.items ++ plain_words text.now) }
    ensures joined { IfOk result (λ j. IsTrue j → rest.now ≡ join_words (plain_words text.now)) }
{
    let mut start = 0;
    let mut joined = true;
    for (at, byte) in rest.as_bytes().iter().enumerate() {
        // The lower-case letters come after all three in ASCII.
        if *byte > b'\\' {
            continue;
        }
        match *byte {
            b' ' if start < at => {
                push_plain(&text[start..at], words)?;
                start = at + 1;
            }
            b' ' => {
                joined = false;
                start = at + 1;
            }
            b'"' | b'\\' => {
                push_marked(alloc, &text[start..], words)?;
                return Ok(false);
            }
            _ => {}
        }
    }
    if start == rest.len() {
        return Ok(false);
    }
    push_plain(&text[start..rest.len()], words)?;
    Ok(joined)
}

// Appends a word that borrows from the text. If there is no room, makes room for several words.
fn push_plain<'a>(word: &'a str, words: &mut Vec<CowStr<'a, Global>>) -> Result<(), AllocError>
    ensures { OnOk result (map cow_str_bytes words.new.items
        ≡ map cow_str_bytes words.old.items ++ word.now ∷ []) }
{
    if words.len() == words.capacity() {
        words.reserve(4)?;
    }
    words.push_reserved(CowStr::Borrowed(word));
    Ok(())
}

// Appends the words of a text that may contain quotes and backslashes.
fn push_marked<'a>(
    alloc: Global,
    text: &'a str,
    words: &mut Vec<CowStr<'a, Global>>,
) -> Result<(), AllocError>
    ensures { OnOk result (map cow_str_bytes words.new.items
        ≡ map cow_str_bytes words.old.items ++ plain_words text.now) }
{
    let mut text = without_front(text);
    while !text.is_empty() {
        let (word, rest) = first_word(alloc, text)?;
        words.push(word)?;
        text = without_front(rest);
    }
    Ok(())
}

/// Returns the first word of a text, and the text after the space that ends the word. A word without quotes and
/// backslashes borrows from the text, and is not copied.
pub(crate) fn first_word<'a>(
    alloc: Global,
    text: &'a str,
) -> Result<(CowStr<'a, Global>, &'a str), AllocError>
    ensures words { IfOk result (λ r. rest_words (Some []) (pieces text.now)
        ≡ cow_str_bytes r.0 ∷ plain_words r.1.now) }
    ensures rest { IfOk result (λ r. r.1.now ≡ after_first_word text.now) }
{
    for (at, byte) in text.as_bytes().iter().enumerate() {
        // The lower-case letters come after all three in ASCII.
        if *byte > b'\\' {
            continue;
        }
        match *byte {
            b' ' => return Ok((CowStr::Borrowed(&text[..at]), &text[at + 1..])),
            b'"' | b'\\' => {
                let (word, rest) = marked_word(alloc, text)?;
                return Ok((CowStr::Owned(word), rest));
            }
            _ => {}
        }
    }
    Ok((CowStr::Borrowed(text), ""))
}

// Returns the first word of a text and the text after it, if the word may contain quotes and backslashes. The bytes
// between two marks are copied in one piece.
fn marked_word(alloc: Global, text: &str) -> Result<(String, &str), AllocError>
    ensures words { IfOk result (λ r. rest_words (Some []) (pieces text.now)
        ≡ string_bytes r.0 ∷ plain_words r.1.now) }
    ensures rest { IfOk result (λ r. r.1.now ≡ after_first_word text.now) }
{
    let mut word = String::new(alloc);
    let mut quotes = Quotes::new();
    let mut start = 0;
    let bytes = text.as_bytes();
    for at in 0..bytes.len() {
        match quotes.take_byte(bytes[at]) {
            Piece::Char(_) => {}
            Piece::Mark => {
                word.push_str(&text[start..at])?;
                start = at + 1;
            }
            Piece::Gap => {
                word.push_str(&text[start..at])?;
                return Ok((word, &text[at + 1..]));
            }
        }
    }
    word.push_str(&text[start..])?;
    Ok((word, ""))
}
