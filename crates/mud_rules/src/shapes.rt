//! The shapes of lines.

ghost use Rattle.std.specs.Prelude.{◌≡◌, ◌∷◌, IfOk, map, string_bytes};
ghost use Rattle.std.specs.Cow.{cow_str_bytes};
ghost use Rattle.mud_words.specs.Line.{line_of};
ghost use Rattle.mud_words.specs.inner.Spots.{join_words};
ghost use Rattle.mud_rules.specs.Shapes.{all_of, looked_at, is_prep, is_pair, first_of, is_aimed};

use crate::comparing::is_word;
use mud_words::{Parsed, Prep};
use std::alloc::{AllocError, Global};
use std::borrow::CowStr;

fn joined_text(alloc: Global, words: &[CowStr<'_, Global>]) -> Result<String, AllocError>
    ensures { IfOk result (λ text. string_bytes text ≡ join_words (map cow_str_bytes words.now)) }
{
    words.join(alloc, " ")
}

// Returns the words joined by one space. A single word is not copied.
pub(crate) fn join_words<'a>(
    alloc: Global,
    words: &'a [CowStr<'a, Global>],
) -> Result<CowStr<'a, Global>, AllocError>
    ensures { IfOk result (λ text. cow_str_bytes text ≡ join_words (map cow_str_bytes words.now)) }
{
    match words {
        [word] => Ok(CowStr::Borrowed(word.as_str())),
        _ => Ok(CowStr::Owned(joined_text(alloc, words)?)),
    }
}

// Returns the words after the verb.
pub(crate) fn all_of<'a>(
    alloc: Global,
    parsed: &'a Parsed,
) -> Result<CowStr<'a, Global>, AllocError>
    ensures { IfOk result (λ text. cow_str_bytes text ≡ all_of (line_of parsed.now)) }
{
    join_words(alloc, &parsed.args)
}

// Returns the words of the line.
pub(crate) fn whole_of(alloc: Global, parsed: &Parsed) -> Result<String, AllocError>
    ensures { IfOk result (λ text. string_bytes text
        ≡ join_words ((line_of parsed.now).verb ∷ (line_of parsed.now).args)) }
{
    let mut text = String::from_str(alloc, &parsed.verb)?;
    if !parsed.args.is_empty() {
        text.push_str(" ")?;
        text.push_str(&all_of(alloc, parsed)?)?;
    }
    Ok(text)
}

// Returns the words that name an object to look at: without a leading `at` that has more words after it.
pub(crate) fn looked_at<'a>(words: &'a [CowStr<'a, Global>]) -> &'a [CowStr<'a, Global>]
    ensures { map cow_str_bytes result.now ≡ looked_at (map cow_str_bytes words.now) }
{
    let [first, others @ ..] = words else {
        return words;
    };
    if !others.is_empty() && is_word(first, "at") {
        others
    } else {
        words
    }
}

// Returns the word after the verb, or the empty text.
pub(crate) fn first_of<'a>(parsed: &'a Parsed) -> &'a str
    ensures { result.now ≡ first_of (line_of parsed.now) }
{
    match parsed.args.first() {
        Some(word) => word.as_str(),
        None => "",
    }
}

fn is_prep(prep: Prep, found: Option<Prep>) -> bool
    ensures { result ≡ is_prep prep found }
{
    match (prep, found) {
        (Prep::With, Some(Prep::With)) => true,
        (Prep::To, Some(Prep::To)) => true,
        (Prep::In, Some(Prep::In)) => true,
        (Prep::Is, Some(Prep::Is)) => true,
        _ => false,
    }
}

// Returns whether there are texts before and after this preposition.
pub(crate) fn is_pair(prep: Prep, parsed: &Parsed) -> bool
    ensures { result ≡ is_pair prep (line_of parsed.now) }
{
    is_prep(prep, parsed.prep) && !parsed.direct.is_empty() && !parsed.indirect.is_empty()
}

// Returns whether there is a text after this preposition, and none before it.
pub(crate) fn is_aimed(prep: Prep, parsed: &Parsed) -> bool
    ensures { result ≡ is_aimed prep (line_of parsed.now) }
{
    is_prep(prep, parsed.prep) && parsed.direct.is_empty() && !parsed.indirect.is_empty()
}
