//! Splits a line into words, and parses it into a verb, its objects and the preposition between them.
//!
//! The rules are those of the LambdaMOO Programmer's Manual, "The Built-in Command Parser", with the choices of this
//! project's own profile:
//!
//! - Spaces separate words. Any other byte begins a word or continues one.
//! - Between double quotes a space is part of the word. Quotes may begin and end inside a word, and are not part of it.
//!   An open quote ends with the line. So `""` is an empty word.
//! - A backslash makes the next character stand for itself. A backslash at the end of the line adds nothing to its
//!   word; alone it is an empty word.
//! - If the first character after leading spaces is `"`, `:` or `;`, it stands for `say `, `emote ` or `eval `.
//! - The first word is the verb. Among the others the earliest preposition counts, and of several at one place the one
//!   with the most words.
//!
//! [`words`] returns the words, [`parse`] the whole parse, and [`is_blank`] whether there are any words. Each accepts a
//! line of any length, takes time linear in it, and keeps every character, ASCII or not. The only error is
//! [`AllocError`], if an allocation fails.
//!
//! ```
//! let parsed = parse(rt.alloc(), "@DIG north|south  to \"Big Library\"  ")?;
//! assert_eq!(rt; parsed.verb.as_str(), "@dig");
//! assert_eq!(rt; parsed.direct.as_str(), "north|south");
//! assert_eq!(rt; parsed.prep, Some(Prep::To));
//! assert_eq!(rt; parsed.indirect.as_str(), "Big Library");
//! assert_eq!(rt; parsed.rest, "north|south  to \"Big Library\"");
//! ```
//!
//! Proved: the results are exactly those of the definitions in `specs/`. `Words.antt` defines [`words`], and
//! `Parse.antt` defines [`parse`], with the table of `Prepositions.antt`. The functions of [`laws`] prove that the
//! definitions mean what they should:
//!
//! - A line has exactly the words of the grammar in `Grammar.antt`.
//! - The rest begins after the space that ends the first word.
//! - Words written between quotes read back.
//! - A line without quotes and backslashes is split at its spaces.
//! - The preposition that counts is the longest at the earliest place.
#![tactic(auto)]

ghost use Rattle.std.specs.Prelude.{◌≡◌, ◌<◌, ◌↔◌, [], ◌∷◌, length, IsTrue, map, IfOk};
ghost use Rattle.std.specs.Cow.{cow_str_bytes};
ghost use Rattle.mud_words.specs.Words.{words, plain_words, is_blank, without_front, after_first_word, spelled_out};
ghost use Rattle.mud_words.specs.Line.{line_of};
ghost use Rattle.mud_words.specs.Parse.{parse_of};

pub mod codes;
mod cut;
pub mod laws;
mod piece;
mod prepositions;
mod spaces;
mod split;

use crate::cut::{first_word, push_words};
use crate::spaces::{shorthand, without_back, without_front};
use crate::split::{blank, line_with_verb};
use std::alloc::{AllocError, Global};
use std::borrow::CowStr;

/// A preposition. One variant stands for all phrases with one meaning (LambdaMOO Programmer's Manual, "The Built-in
/// Command Parser").
#[derive(Clone, Copy, Debug, PartialEq, Eq)]
pub enum Prep {
    /// `with`, `using`
    With,
    /// `at`, `to`
    To,
    /// `in front of`
    InFrontOf,
    /// `in`, `inside`, `into`
    In,
    /// `on top of`, `on`, `onto`, `upon`
    OnTopOf,
    /// `out of`, `from inside`, `from`
    OutOf,
    /// `over`
    Over,
    /// `through`
    Through,
    /// `under`, `underneath`, `beneath`
    Under,
    /// `behind`
    Behind,
    /// `beside`
    Beside,
    /// `for`, `about`
    For,
    /// `is`
    Is,
    /// `as`
    As,
    /// `off`, `off of`
    Off,
}

/// A parsed line. Its texts borrow from the line. A text is a copy only if quotes or backslashes were dropped, letters
/// were lowered, or words were joined.
///
/// The verb of a blank line is empty, and so is everything else.
#[derive(Debug)]
pub struct Parsed<'a> {
    /// The first word, with its ASCII letters in lower case.
    pub verb: CowStr<'a, Global>,
    /// The words after the verb, as they were typed.
    pub args: Vec<CowStr<'a, Global>>,
    /// The words before the preposition that counts, joined by one space. Without a preposition, all of `args`.
    pub direct: CowStr<'a, Global>,
    /// The preposition that counts, if `args` contains one.
    pub prep: Option<Prep>,
    /// The words after that preposition, joined by one space. Without a preposition, the empty text.
    pub indirect: CowStr<'a, Global>,
    /// The text after the first word of the line, with its quotes and backslashes, and without the spaces at its ends.
    /// In a line that begins with `"`, `:` or `;`, the text after that character.
    pub rest: &'a str,
}

// Written out, so that a proof about dropping a line has one step instead of some for each text.
impl Drop for Parsed<'_> {
    fn drop(self) {
        let Parsed {
            verb,
            args,
            direct,
            prep: _,
            indirect,
            rest: _,
        } = self;
        drop(verb);
        drop(args);
        drop(direct);
        drop(indirect);
    }
}

/// Splits a line into words, after its shorthand is spelled out. `foo "bar mumble" baz` has the words `foo`, `bar
/// mumble` and `baz`; `"hi there` has the words `say`, `hi` and `there`.
///
/// A blank line has no words. A word without quotes and backslashes borrows from the line, and is not copied. The time
/// is linear in the line.
#[tactic(auto, unfolding(crate::specs::Words::words))]
pub fn words(alloc: Global, line: &str) -> Result<Vec<CowStr<'_, Global>>, AllocError>
    ensures { IfOk result (λ ws. map cow_str_bytes ws.items ≡ words line.now) }
{
    let mut words = Vec::new(alloc);
    let trimmed = without_front(line);
    if trimmed.is_empty() {
        return Ok(words);
    }
    let (verb, text) = verb_and_text(alloc, trimmed)?;
    words.push(verb)?;
    push_words(alloc, text, without_back(text), &mut words)?;
    Ok(words)
}

/// Parses a line: verb, objects, the preposition between them, and the rest of the text.
///
/// The preposition is the earliest among the words after the verb, and of several at one place the one with the most
/// words. ASCII case is ignored, and quotes make no difference. A preposition of several words must be several words of
/// the line, so a quoted `"in front of"` is not a preposition. The time is linear in the line.
#[tactic(auto, unfolding(crate::specs::Parse::parse_of, crate::specs::Words::words))]
pub fn parse(alloc: Global, line: &str) -> Result<Parsed<'_>, AllocError>
    ensures { IfOk result (λ p. line_of p ≡ parse_of line.now) }
{
    let trimmed = without_front(line);
    if trimmed.is_empty() {
        return Ok(blank(alloc));
    }
    let (verb, text) = verb_and_text(alloc, trimmed)?;
    line_with_verb(alloc, verb, text)
}

// Returns the first word of a line without leading spaces, after its shorthand is spelled out, and the text after the
// word.
fn verb_and_text(alloc: Global, line: &str) -> Result<(CowStr<'_, Global>, &str), AllocError>
    requires begun { without_front line.now ≡ line.now }
    requires some { 0 < length line.now }
    ensures words { IfOk result (λ v. plain_words (spelled_out line.now) ≡ cow_str_bytes v.0 ∷ plain_words v.1.now) }
    ensures rest { IfOk result (λ v. v.1.now ≡ after_first_word (spelled_out line.now)) }
{
    if let Some((verb, text)) = shorthand(line) {
        return Ok((CowStr::Borrowed(verb), text));
    }
    first_word(alloc, line)
}

/// Returns whether a line has no words: it is empty, or all spaces. A lone backslash is a word, so such a line is not
/// blank.
pub fn is_blank(line: &str) -> bool
    ensures value { result ≡ is_blank line.now }
    ensures no_words { IsTrue result ↔ (words line.now ≡ []) }
{
    without_front(line).is_empty()
}
