//! Writes texts in brackets.

ghost use Rattle.std.specs.Prelude.{◌≡◌, ◌++◌, map, OnOk, codes, string_bytes};
ghost use Rattle.std.specs.List.{flat_map};
ghost use Rattle.mud_explain.specs.Brackets.{bracket_all, in_brackets};

use std::alloc::AllocError;
use std::convert::AsStr;

// Appends the text in brackets.
pub(crate) fn push_bracketed(out: &mut String, text: &str) -> Result<(), AllocError>
    ensures { OnOk result (string_bytes out.new ≡ string_bytes out.old ++ in_brackets text.now) }
{
    write!(out, "[{text}]")
}

// Appends each text in brackets, after a space.
fn push_others<T: AsStr>(out: &mut String, texts: &[T]) -> Result<(), AllocError>
    ensures { OnOk result (string_bytes out.new
        ≡ string_bytes out.old ++ flat_map (λ t. codes " " ++ in_brackets t) (map T.text texts.now)) }
{
    for text in texts {
        out.push(' ')?;
        push_bracketed(out, text.as_str())?;
    }
    Ok(())
}

// Appends each text in brackets, with a space between two of them.
pub(crate) fn push_listed<T: AsStr>(out: &mut String, texts: &[T]) -> Result<(), AllocError>
    ensures { OnOk result (string_bytes out.new ≡ string_bytes out.old ++ bracket_all (map T.text texts.now)) }
{
    match texts {
        [] => Ok(()),
        [first, others @ ..] => {
            push_bracketed(out, first.as_str())?;
            push_others(out, others)
        }
    }
}
