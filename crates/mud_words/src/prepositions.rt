ghost use Rattle.std.specs.Prelude.{◌≡◌, ◌+◌, ◌≤◌, ℕ, List, ◌∷◌, IsTrue, IfSome, length, map};
ghost use Rattle.std.specs.Char.{to_ascii_lowercase};
ghost use Rattle.std.specs.Cow.{cow_str_bytes};
ghost use Rattle.std.specs.List.{find};
ghost use Rattle.std.specs.Option.{option_map};
ghost use Rattle.mud_words.specs.Prepositions.{begins, phrase_at, preposition_of};
ghost use Rattle.mud_words.specs.inner.Spots.{row_shown, texts, spot_of, phrase_len};

use crate::Prep;
use std::alloc::Global;
use std::borrow::CowStr;

/// The words of a line that form a preposition: the preposition, and the places of its first word and of the word after
/// it.
#[derive(Clone, Copy)]
pub(crate) struct Spot {
    pub prep: Prep,
    pub start: usize,
    pub end: usize,
}

// Returns the preposition that counts among the words of a line.
pub(crate) fn preposition_of(args: &[CowStr<'_, Global>]) -> Option<Spot>
    ensures value { result ≡ option_map spot_of (preposition_of (map cow_str_bytes args.now)) }
    ensures order { IfSome result (λ s. s.start ≤ s.end) }
    ensures within { IfSome result (λ s. s.end ≤ length args.now) }
{
    for start in 0..args.len() {
        if let Some((prep, len)) = phrase_at(&args[start..]) {
            let end = start + len;
            return Some(Spot { prep, start, end });
        }
    }
    None
}

// Returns the longest preposition that the words begin with, and the number of its words.
fn phrase_at(words: &[CowStr<'_, Global>]) -> Option<(Prep, usize)>
    ensures value { result ≡ option_map phrase_len (phrase_at (map cow_str_bytes words.now)) }
    ensures within { IfSome result (λ p. p.1 ≤ length words.now) }
{
    let [word, others @ ..] = words else {
        return None;
    };
    let word = word.as_str();
    let [letter, ..] = word.as_bytes() else {
        return None;
    };
    first_said(phrases_with(letter.to_ascii_lowercase()), word, others)
}

// The phrases that begin with each letter, longer ones first.
const WITH_A: &[(Prep, &[&str])] = &[
    (Prep::To, &["at"]),
    (Prep::For, &["about"]),
    (Prep::As, &["as"]),
];

const WITH_B: &[(Prep, &[&str])] = &[
    (Prep::Under, &["beneath"]),
    (Prep::Behind, &["behind"]),
    (Prep::Beside, &["beside"]),
];

const WITH_F: &[(Prep, &[&str])] = &[
    (Prep::OutOf, &["from", "inside"]),
    (Prep::OutOf, &["from"]),
    (Prep::For, &["for"]),
];

const WITH_I: &[(Prep, &[&str])] = &[
    (Prep::InFrontOf, &["in", "front", "of"]),
    (Prep::In, &["in"]),
    (Prep::In, &["inside"]),
    (Prep::In, &["into"]),
    (Prep::Is, &["is"]),
];

const WITH_O: &[(Prep, &[&str])] = &[
    (Prep::OnTopOf, &["on", "top", "of"]),
    (Prep::OutOf, &["out", "of"]),
    (Prep::Off, &["off", "of"]),
    (Prep::OnTopOf, &["on"]),
    (Prep::OnTopOf, &["onto"]),
    (Prep::Over, &["over"]),
    (Prep::Off, &["off"]),
];

const WITH_T: &[(Prep, &[&str])] = &[(Prep::To, &["to"]), (Prep::Through, &["through"])];

const WITH_U: &[(Prep, &[&str])] = &[
    (Prep::With, &["using"]),
    (Prep::OnTopOf, &["upon"]),
    (Prep::Under, &["under"]),
    (Prep::Under, &["underneath"]),
];

const WITH_W: &[(Prep, &[&str])] = &[(Prep::With, &["with"])];

// Returns the phrases that begin with a letter.
fn phrases_with(letter: u8) -> &'static [(Prep, &'static [&'static str])]
    ensures { (c : ℕ) (cs : List ℕ) (ws : List (List ℕ)) → to_ascii_lowercase c ≡ letter
        → find (λ p. begins ((c ∷ cs) ∷ ws) p.words) (map row_shown result.now) ≡ phrase_at ((c ∷ cs) ∷ ws) }
{
    match letter {
        b'a' => WITH_A,
        b'b' => WITH_B,
        b'f' => WITH_F,
        b'i' => WITH_I,
        b'o' => WITH_O,
        b't' => WITH_T,
        b'u' => WITH_U,
        b'w' => WITH_W,
        _ => &[],
    }
}

// Returns the first of the phrases that a word and those after it begin with, and the number of its words.
fn first_said(
    phrases: &[(Prep, &[&str])],
    word: &str,
    others: &[CowStr<'_, Global>],
) -> Option<(Prep, usize)>
    ensures value { result ≡ option_map phrase_len
        (find (λ p. begins (word.now ∷ map cow_str_bytes others.now) p.words) (map row_shown phrases.now)) }
    ensures within { IfSome result (λ p. p.1 ≤ length others.now + 1) }
{
    for (prep, phrase) in phrases {
        if begins_with(word, others, phrase) {
            return Some((*prep, phrase.len()));
        }
    }
    None
}

// Returns whether a word and those after it begin with the words of a phrase, ignoring case. The first word mostly
// differs from that of the phrase.
fn begins_with(word: &str, others: &[CowStr<'_, Global>], phrase: &[&str]) -> bool
    ensures value { result ≡ begins (word.now ∷ map cow_str_bytes others.now) (texts phrase.now) }
    ensures within { IsTrue result → length phrase.now ≤ length others.now + 1 }
{
    match phrase {
        [] => true,
        [said, more_said @ ..] => word.eq_ignore_ascii_case(said) && begins(others, more_said),
    }
}

// Returns whether the words begin with those of a phrase, ignoring case.
fn begins(words: &[CowStr<'_, Global>], phrase: &[&str]) -> bool
    ensures value { result ≡ begins (map cow_str_bytes words.now) (texts phrase.now) }
    ensures within { IsTrue result → length phrase.now ≤ length words.now }
{
    let [said, more_said @ ..] = phrase else {
        return true;
    };
    let [word, more_words @ ..] = words else {
        return false;
    };
    word.as_str().eq_ignore_ascii_case(said) && begins(more_words, more_said)
}
