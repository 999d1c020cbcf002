//! Compares texts.

ghost use Rattle.std.specs.Prelude.{◌≡◌, nat_eq};
ghost use Rattle.std.specs.Char.{to_ascii_lowercase};
ghost use Rattle.std.specs.Str.{str_eq_ignore_ascii_case};

// Returns whether two texts are equal, ignoring ASCII case. It compares all bytes without an early exit, so that a
// compiler can vectorize the loop.
pub(crate) fn is_same(text: &[u8], name: &[u8]) -> bool
    ensures { result ≡ str_eq_ignore_ascii_case text.now name.now }
{
    if text.len() != name.len() {
        return false;
    }
    let mut same = true;
    for at in 0..text.len() {
        same &= text[at].eq_ignore_ascii_case(&name[at]);
    }
    same
}

// Returns whether two letters are equal, ignoring case. Most are equal as they are, because the verb of a line and the
// words of the table are in lower case.
fn is_letter(letter: u8, other: u8) -> bool
    ensures { result ≡ nat_eq (to_ascii_lowercase letter) (to_ascii_lowercase other) }
{
    letter == other || letter.eq_ignore_ascii_case(&other)
}

// Returns whether a text is this word, ignoring ASCII case.
pub(crate) fn is_word(text: &str, word: &str) -> bool
    ensures { result ≡ str_eq_ignore_ascii_case text.now word.now }
{
    let (text, word) = (text.as_bytes(), word.as_bytes());
    if text.len() != word.len() {
        return false;
    }
    for at in 0..text.len() {
        if !is_letter(text[at], word[at]) {
            return false;
        }
    }
    true
}
