//! Explains each line of an input.

ghost use Rattle.std.specs.Prelude.{◌≡◌, ◌++◌, IfOk, OnOk, string_bytes, codes};
ghost use Rattle.mud_words.specs.Words.{words};
ghost use Rattle.mud_words.specs.Parse.{parse_of};
ghost use Rattle.mud_words.specs.Line.{line_of};
ghost use Rattle.mud_explain.specs.Brackets.{bracket_all};
ghost use Rattle.mud_explain.specs.Line.{line_text};
ghost use Rattle.mud_explain.specs.inner.Texts.{preposition_text};
ghost use Rattle.mud_explain.specs.Key.{SaysKey};
ghost use Rattle.mud_explain.specs.Explanation.{SaysText, Says};
ghost use Rattle.mud_explain.specs.Lines.{Answers};
ghost use Rattle.mud_explain.specs.inner.Lines.{AnswersOne};
ghost use Rattle.std.specs.Option.{option_map_or};
ghost use Rattle.mud_key.specs.Finds.{names_in};

use crate::grouped::push_grouped;
use crate::listed::push_listed;
use memchr::memchr;
use mud_cli::Reading;
use mud_key::{KeyFault, Names, NamesFault};
use mud_words::{Parsed, Prep};
use std::alloc::{AllocError, Global};

// Returns the words of a line.
fn said_words(alloc: Global, text: &str) -> Result<String, AllocError>
    ensures { IfOk result (λ answer. string_bytes answer ≡ bracket_all (words text.now)) }
{
    let words = mud_words::words(alloc, text)?;
    let mut answer = String::new(alloc);
    push_listed(&mut answer, words.as_slice())?;
    Ok(answer)
}

// Returns the first phrase of the preposition, or `-`.
fn phrase_of(preposition: Option<Prep>) -> &'static str
    ensures { result.now ≡ preposition_text preposition }
{
    match preposition {
        None => "-",
        Some(Prep::With) => "with",
        Some(Prep::To) => "at",
        Some(Prep::InFrontOf) => "in front of",
        Some(Prep::In) => "in",
        Some(Prep::OnTopOf) => "on top of",
        Some(Prep::OutOf) => "out of",
        Some(Prep::Over) => "over",
        Some(Prep::Through) => "through",
        Some(Prep::Under) => "under",
        Some(Prep::Behind) => "behind",
        Some(Prep::Beside) => "beside",
        Some(Prep::For) => "for",
        Some(Prep::Is) => "is",
        Some(Prep::As) => "as",
        Some(Prep::Off) => "off",
    }
}

// Appends the parse of a line.
fn push_parsed(out: &mut String, parsed: &Parsed) -> Result<(), AllocError>
    ensures { OnOk result (string_bytes out.new ≡ string_bytes out.old ++ line_text (line_of parsed.now)) }
{
    write!(
        out,
        "verb [{}] direct [{}] preposition {} indirect [{}] rest [{}]",
        parsed.verb,
        parsed.direct,
        phrase_of(parsed.prep),
        parsed.indirect,
        parsed.rest
    )
}

// Returns the parse of a line.
fn said_line(alloc: Global, text: &str) -> Result<String, AllocError>
    ensures { IfOk result (λ answer. string_bytes answer ≡ line_text (parse_of text.now)) }
{
    let parsed = mud_words::parse(alloc, text)?;
    let mut answer = String::new(alloc);
    push_parsed(&mut answer, &parsed)?;
    Ok(answer)
}

// Returns the names of a names text.
fn said_names(alloc: Global, text: &str) -> Result<String, AllocError>
    ensures { IfOk result (λ answer. string_bytes answer
        ≡ option_map_or bracket_all (names_in text.now) (codes "bad names")) }
{
    match Names::read(alloc, text) {
        Ok(names) => {
            let mut answer = String::new(alloc);
            push_listed(&mut answer, names.list())?;
            Ok(answer)
        }
        Err(NamesFault::BadName) => String::from_str(alloc, "bad names"),
        Err(NamesFault::OutOfMemory) => Err(AllocError),
    }
}

// Returns a key, or the reason why the text is not one.
fn said_key(alloc: Global, text: &str) -> Result<String, AllocError>
    ensures { IfOk result (λ answer. SaysKey text.now (string_bytes answer)) }
{
    match mud_key::read(alloc, text) {
        Ok(key) => {
            let mut answer = String::new(alloc);
            push_grouped(&mut answer, key.node())?;
            Ok(answer)
        }
        Err(KeyFault::BadKey(at)) => format!(in alloc; "bad key at {at}"),
        Err(KeyFault::TooManyAtoms) => String::from_str(alloc, "too many objects"),
        Err(KeyFault::OutOfMemory) => Err(AllocError),
        // reading a text does not resolve its objects
        Err(KeyFault::NoSuch | KeyFault::Ambiguous) => unreachable!(),
    }
}

// Returns the explanation of a text.
fn said_text(alloc: Global, reading: Reading, text: &str) -> Result<String, AllocError>
    ensures { IfOk result (λ answer. SaysText reading text.now (string_bytes answer)) }
{
    match reading {
        Reading::Words => said_words(alloc, text),
        Reading::Parse => said_line(alloc, text),
        Reading::Names => said_names(alloc, text),
        Reading::Key => said_key(alloc, text),
    }
}

// Returns the explanation of a line.
fn describe(alloc: Global, reading: Reading, line: &[u8]) -> Result<String, AllocError>
    ensures { IfOk result (λ answer. Says reading line.now (string_bytes answer)) }
{
    match str::from_utf8(line) {
        Ok(text) => said_text(alloc, reading, text),
        Err(_) => String::from_str(alloc, "not text"),
    }
}

// Appends the explanation of a line, and LF.
fn push_said(
    out: &mut String,
    alloc: Global,
    reading: Reading,
    line: &[u8],
) -> Result<(), AllocError>
    ensures { OnOk result (AnswersOne (Says reading) line.now (string_bytes out.old) (string_bytes out.new)) }
{
    let answer = describe(alloc, reading, line)?;
    out.push_str(answer.as_str())?;
    out.push('\n')
}

/// Returns a line for each line of the input: its explanation (docs/EXPLAIN.md). LF ends a line, and a last line
/// without LF counts.
pub(crate) fn explained_lines(
    alloc: Global,
    reading: Reading,
    input: &[u8],
) -> Result<String, AllocError>
    ensures { IfOk result (λ out. Answers (Says reading) input.now (string_bytes out)) }
{
    let mut out = String::new(alloc);
    let mut rest = input;
    while let Some(at) = memchr(b'\n', rest) {
        let (line, ended) = rest.split_at(at);
        push_said(&mut out, alloc, reading, line)?;
        rest = &ended[1..];
    }
    if rest.is_empty() {
        return Ok(out);
    }
    push_said(&mut out, alloc, reading, rest)?;
    Ok(out)
}
