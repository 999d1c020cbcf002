ghost use Rattle.std.specs.Prelude.{◌≡◌, ◌≤◌, ◌+◌, ◌-◌, ◌^◌, min, ℕ, List, [], ◌∷◌, IsFalse, IsTrue, map, length, take};
ghost use Rattle.std.specs.Prelude.{drop, sum_by, string_bytes, None, IfOk};
ghost use Rattle.std.specs.Cow.{cow_str_bytes};
ghost use Rattle.mud_words.specs.Words.{plain_words, without_front, without_back};
ghost use Rattle.std.specs.Str.{str_to_ascii_lowercase as lower};
ghost use Rattle.mud_words.specs.Line.{line_of};
ghost use Rattle.mud_words.specs.Parse.{line_of_words, round};
ghost use Rattle.mud_words.specs.inner.Spots.{line_with, split, join_words};

use crate::cut::push_words;
use crate::prepositions::preposition_of;
use crate::spaces::{without_back, without_front};
use crate::{Parsed, Prep};
use std::alloc::{AllocError, Global};
use std::borrow::CowStr;

/// Returns the parse of a line with this verb and this text after it.
pub(crate) fn line_with_verb<'a>(
    alloc: Global,
    verb: CowStr<'a, Global>,
    text: &'a str,
) -> Result<Parsed<'a>, AllocError>
    ensures { IfOk result (λ p. line_of p
        ≡ line_of_words (cow_str_bytes verb.entry ∷ plain_words text.now) (without_back (without_front text.now))) }
{
    let verb = to_lower(alloc, verb)?;
    let text = without_front(text);
    if text.is_empty() {
        return Ok(bare(alloc, verb));
    }
    let mut args = Vec::new(alloc);
    let rest = without_back(text);
    let joined = push_words(alloc, text, rest, &mut args)?;
    split(alloc, verb, args, rest, joined)
}

// Returns a word with its ASCII letters in lower case. A word without upper-case letters is not copied.
fn to_lower<'a>(alloc: Global, word: CowStr<'a, Global>) -> Result<CowStr<'a, Global>, AllocError>
    ensures { IfOk result (λ w. cow_str_bytes w ≡ lower (cow_str_bytes word.entry)) }
{
    if !has_upper(&word) {
        return Ok(word);
    }
    let mut word = word.into_owned(alloc)?;
    word.make_ascii_lowercase();
    Ok(CowStr::Owned(word))
}

// Returns whether a text has an ASCII upper-case letter. Without one it equals its lower-case form.
fn has_upper(text: &str) -> bool
    ensures { IsFalse result → lower text.now ≡ text.now }
{
    for byte in text.as_bytes() {
        if byte.is_ascii_uppercase() {
            return true;
        }
    }
    false
}

/// Returns the parse of a blank line.
pub(crate) fn blank(alloc: Global) -> Parsed<'static>
    ensures { line_of result ≡ line_of_words [] [] }
{
    bare(alloc, CowStr::Borrowed(""))
}

// Returns the parse of a verb alone.
fn bare<'a>(alloc: Global, verb: CowStr<'a, Global>) -> Parsed<'a>
    ensures { line_of result ≡ round (cow_str_bytes verb.entry) [] [] None }
{
    Parsed {
        verb,
        args: Vec::new(alloc),
        direct: CowStr::Borrowed(""),
        prep: None,
        indirect: CowStr::Borrowed(""),
        rest: "",
    }
}

/// Splits the arguments at the preposition that counts.
fn split<'a>(
    alloc: Global,
    verb: CowStr<'a, Global>,
    args: Vec<CowStr<'a, Global>>,
    rest: &'a str,
    joined: bool,
) -> Result<Parsed<'a>, AllocError>
    requires { IsTrue joined → rest.now ≡ join_words (map cow_str_bytes args.items) }
    ensures { IfOk result (λ p. line_of p
        ≡ split (cow_str_bytes verb.entry) (map cow_str_bytes args.entry.items) rest.now) }
{
    let objects = objects_of(alloc, rest, args.as_slice(), joined)?;
    Ok(Parsed {
        verb,
        args,
        direct: objects.direct,
        prep: objects.prep,
        indirect: objects.indirect,
        rest,
    })
}

/// The objects before and after a preposition.
#[derive(Drop)]
pub(crate) struct Objects<'a> {
    pub direct: CowStr<'a, Global>,
    pub prep: Option<Prep>,
    pub indirect: CowStr<'a, Global>,
}

/// Returns the objects before and after the preposition that counts. If the text is the words joined by one space, the
/// objects are parts of it, and nothing is copied.
fn objects_of<'a>(
    alloc: Global,
    text: &'a str,
    args: &[CowStr<'a, Global>],
    joined: bool,
) -> Result<Objects<'a>, AllocError>
    requires { IsTrue joined → text.now ≡ join_words (map cow_str_bytes args.now) }
    ensures { IfOk result (λ o. (verb rest : List ℕ) →
        line_with verb (map cow_str_bytes args.now) rest o ≡ split verb (map cow_str_bytes args.now) rest) }
{
    let Some(spot) = preposition_of(args) else {
        let direct = if joined {
            CowStr::Borrowed(text)
        } else {
            join_words(alloc, args)?
        };
        return Ok(Objects {
            direct,
            prep: None,
            indirect: CowStr::Borrowed(""),
        });
    };
    let direct = words_before(alloc, text, args, spot.start, joined)?;
    let indirect = words_after(alloc, text, args, spot.end, joined)?;
    Ok(Objects {
        direct,
        prep: Some(spot.prep),
        indirect,
    })
}

// Returns the words before a place, joined by one space. If the text is all words joined so, nothing is copied.
fn words_before<'a>(
    alloc: Global,
    text: &'a str,
    words: &[CowStr<'a, Global>],
    place: usize,
    joined: bool,
) -> Result<CowStr<'a, Global>, AllocError>
    requires joined { IsTrue joined → text.now ≡ join_words (map cow_str_bytes words.now) }
    requires within { place ≤ length words.now }
    ensures { IfOk result (λ t. cow_str_bytes t ≡ join_words (map cow_str_bytes (take place words.now))) }
{
    let before = &words[..place];
    if joined && place > 1 {
        return Ok(CowStr::Borrowed(&text[..room_for(before) - 1]));
    }
    join_words(alloc, before)
}

// Returns the words from a place on, joined by one space. If the text is all words joined so, nothing is copied.
fn words_after<'a>(
    alloc: Global,
    text: &'a str,
    words: &[CowStr<'a, Global>],
    place: usize,
    joined: bool,
) -> Result<CowStr<'a, Global>, AllocError>
    requires joined { IsTrue joined → text.now ≡ join_words (map cow_str_bytes words.now) }
    requires within { place ≤ length words.now }
    ensures { IfOk result (λ t. cow_str_bytes t ≡ join_words (map cow_str_bytes (drop place words.now))) }
{
    let after = &words[place..];
    if joined && after.len() > 1 {
        return Ok(CowStr::Borrowed(&text[room_for(&words[..place])..]));
    }
    join_words(alloc, after)
}

/// Returns the words joined by one space. A single borrowed word is not copied.
fn join_words<'a>(
    alloc: Global,
    words: &[CowStr<'a, Global>],
) -> Result<CowStr<'a, Global>, AllocError>
    ensures { IfOk result (λ text. cow_str_bytes text ≡ join_words (map cow_str_bytes words.now)) }
{
    match words {
        [] => Ok(CowStr::Borrowed("")),
        [word] => word.clone(),
        _ => Ok(CowStr::Owned(joined_text(alloc, words)?)),
    }
}

// Returns the words joined by one space, in a new text.
fn joined_text(alloc: Global, words: &[CowStr<'_, Global>]) -> Result<String, AllocError>
    ensures { IfOk result (λ text. string_bytes text ≡ join_words (map cow_str_bytes words.now)) }
{
    let [first, others @ ..] = words else {
        return Ok(String::new(alloc));
    };
    let mut text = String::with_capacity(alloc, room_for(words))?;
    text.push_str(first)?;
    for word in others {
        text.push_str(" ")?;
        text.push_str(word)?;
    }
    Ok(text)
}

// Returns the capacity for the joined words: their bytes, and one more for each word.
fn room_for(words: &[CowStr<'_, Global>]) -> usize
    ensures { result ≡ min (sum_by (λ word. length (cow_str_bytes word) + 1) words.now) (2 ^ 64 - 1) }
{
    let mut room: usize = 0;
    for word in words {
        room = room.saturating_add(word.len()).saturating_add(1);
    }
    room
}
