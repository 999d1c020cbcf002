ghost use Rattle.std.specs.Prelude.{◌≡◌, ◌∷◌, IfSome, IfNone};
ghost use Rattle.mud_words.specs.Words.{without_front, without_back, spelled_out, plain_words, after_first_word};

/// Returns the text without its leading spaces.
pub(crate) fn without_front(text: &str) -> &str
    ensures { result.now ≡ without_front text.now }
{
    match text.as_bytes() {
        [b' ', ..] => text.trim_start_matches(' '),
        _ => text,
    }
}

/// Returns the text without its trailing spaces.
pub(crate) fn without_back(text: &str) -> &str
    ensures { result.now ≡ without_back text.now }
{
    match text.as_bytes() {
        [.., b' '] => text.trim_end_matches(' '),
        _ => text,
    }
}

/// Returns the verb that the first character of a line stands for, if it is shorthand, and the text after that
/// character.
pub(crate) fn shorthand(line: &str) -> Option<(&'static str, &str)>
    ensures words { IfSome result (λ v. plain_words (spelled_out line.now) ≡ v.0.now ∷ plain_words v.1.now) }
    ensures rest { IfSome result (λ v. after_first_word (spelled_out line.now) ≡ v.1.now) }
    ensures none { IfNone result (spelled_out line.now ≡ line.now) }
{
    match line.as_bytes() {
        [b'"', ..] => Some(("say", &line[1..])),
        [b':', ..] => Some(("emote", &line[1..])),
        [b';', ..] => Some(("eval", &line[1..])),
        _ => None,
    }
}
