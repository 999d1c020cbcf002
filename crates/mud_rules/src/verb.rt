//! The verbs of the table.

ghost use Rattle.std.specs.Prelude.{◌≡◌, ◌∷◌, ℕ, false, List, map};
ghost use Rattle.std.specs.Option.{option_map_or};
ghost use Rattle.std.specs.Char.{to_ascii_lowercase};
ghost use Rattle.std.specs.Map.{lookup};
ghost use Rattle.std.specs.List.{list_any};
ghost use Rattle.std.specs.Str.{str_eq_ignore_ascii_case};
ghost use Rattle.mud_rules.specs.inner.Verbs.{row_of};
ghost use Rattle.mud_rules.specs.Table.{verb_named, asks};

use crate::comparing::is_word;

/// A verb of the table.
#[derive(Clone, Copy)]
pub(crate) enum Verb {
    Connect,
    Look,
    Inventory,
    Go,
    Take,
    Drop,
    Put,
    Give,
    Say,
    Emote,
    Dig,
    Create,
    Lock,
    Unlock,
    Key,
    Cost,
    Rename,
    Recycle,
    Route,
    Meet,
    Proof,
    Version,
    History,
    Quit,
}

// The verbs that begin with `@`.
const WITH_SIGN: &[(&str, Verb)] = &[
    ("@dig", Verb::Dig),
    ("@create", Verb::Create),
    ("@lock", Verb::Lock),
    ("@unlock", Verb::Unlock),
    ("@key", Verb::Key),
    ("@cost", Verb::Cost),
    ("@rename", Verb::Rename),
    ("@recycle", Verb::Recycle),
    ("@version", Verb::Version),
    ("@history", Verb::History),
];

impl Verb {
    /// Returns the verb that a word names, if the table has it.
    pub(crate) fn of_word(text: &str) -> Option<Verb>
        ensures { result ≡ verb_named text.now }
    {
        let [letter, ..] = text.as_bytes() else {
            return None;
        };
        verb_in(rows_with(letter.to_ascii_lowercase()), text)
    }

    /// Returns whether a word names the verb of a question.
    pub(crate) fn asks(text: &str) -> bool
        ensures { result ≡ option_map_or asks (verb_named text.now) false }
    {
        let [letter, ..] = text.as_bytes() else {
            return false;
        };
        is_any(questions_with(letter.to_ascii_lowercase()), text)
    }
}

// Returns the verbs of questions that begin with this lower-case letter.
fn questions_with(letter: u8) -> &'static [&'static str]
    ensures { (c : ℕ) (cs : List ℕ) → to_ascii_lowercase c ≡ letter
        → list_any (λ word. str_eq_ignore_ascii_case (c ∷ cs) word) (map (λ t. t.now) result.now)
        ≡ option_map_or asks (verb_named (c ∷ cs)) false }
{
    match letter {
        b'@' => &["@key", "@version", "@history"],
        b'i' => &["inventory", "inv", "i"],
        b'l' => &["look", "l"],
        b'm' => &["meet"],
        b'p' => &["proof"],
        b'q' => &["quit"],
        b'r' => &["route"],
        _ => &[],
    }
}

// Returns whether a word is any of these.
fn is_any(words: &[&str], text: &str) -> bool
    ensures { result ≡ list_any (λ word. str_eq_ignore_ascii_case text.now word) (map (λ t. t.now) words.now) }
{
    for word in words {
        if is_word(text, word) {
            return true;
        }
    }
    false
}

// Returns the words of the table that begin with this lower-case letter.
fn rows_with(letter: u8) -> &'static [(&'static str, Verb)]
    ensures { (c : ℕ) (cs : List ℕ) → to_ascii_lowercase c ≡ letter
        → lookup (str_eq_ignore_ascii_case (c ∷ cs)) (map row_of result.now) ≡ verb_named (c ∷ cs) }
{
    match letter {
        b'@' => WITH_SIGN,
        b'c' => &[("connect", Verb::Connect)],
        b'd' => &[("drop", Verb::Drop)],
        b'e' => &[("emote", Verb::Emote)],
        b'g' => &[("go", Verb::Go), ("get", Verb::Take), ("give", Verb::Give)],
        b'i' => &[
            ("inventory", Verb::Inventory),
            ("inv", Verb::Inventory),
            ("i", Verb::Inventory),
        ],
        b'l' => &[("look", Verb::Look), ("l", Verb::Look)],
        b'm' => &[("meet", Verb::Meet)],
        b'p' => &[("put", Verb::Put), ("proof", Verb::Proof)],
        b'q' => &[("quit", Verb::Quit)],
        b'r' => &[("route", Verb::Route)],
        b's' => &[("say", Verb::Say)],
        b't' => &[("take", Verb::Take)],
        _ => &[],
    }
}

// Returns the verb that a word names among these rows.
fn verb_in(rows: &[(&str, Verb)], text: &str) -> Option<Verb>
    ensures { result ≡ lookup (str_eq_ignore_ascii_case text.now) (map row_of rows.now) }
{
    for (word, verb) in rows {
        if is_word(text, word) {
            return Some(*verb);
        }
    }
    None
}
