//! Texts that players say.

ghost use Rattle.std.specs.Prelude.{◌≡◌, ℕ, IfOk, IsTrue, option_copied, MatchOption, true};
ghost use Rattle.mud_world.specs.Speech.{is_trimmed, is_speech};
ghost use Rattle.mud_world.specs.inner.Fields.{is_printable};
ghost use Rattle.std.specs.Option.{option_map_or};
ghost use Rattle.std.specs.Prelude.{nat_eq, false};

use crate::limits::MOST_SPEECH;
use mud_key::codes::{SPACE, TILDE};
use std::alloc::{AllocError, Global};
use std::marker::Model;

/// A text to say or to emote: 1 to 900 bytes from 32 to 126, without a space at either end. A contract sees its bytes.
#[derive(Drop)]
pub struct Speech {
    text: String,
}

impl Model for Speech {
    ghost use Rattle.std.specs.Prelude.{ℕ, List, IsTrue, string_bytes};
    ghost use Rattle.mud_world.specs.Speech.{is_speech};

    ghost Value = { List ℕ };

    ghost view = { λ a. string_bytes a.text };

    ghost invariant = { λ a. IsTrue (is_speech (string_bytes a.text)) };
}

impl Speech {
    /// Reads a text as a speech, and returns `None` if it is not one.
    pub fn read(alloc: Global, text: &str) -> Result<Option<Speech>, AllocError>
        ensures { IfOk result (λ found. MatchOption found (is_speech text.now ≡ false)
            (λ speech. (speech ≡ text.now) × (is_speech text.now ≡ true))) }
    {
        if is_speech(text) {
            Ok(Some(Speech {
                text: String::from_str(alloc, text)?,
            }))
        } else {
            Ok(None)
        }
    }

    /// Returns the text.
    pub fn as_str(&self) -> &str
        ensures text { result.now ≡ self.now }
        ensures speech { IsTrue (is_speech self.now) }
    {
        &self.text
    }

    /// Returns an equal speech.
    pub fn copy(&self, alloc: Global) -> Result<Speech, AllocError>
        ensures { IfOk result (λ speech. speech ≡ self.now) }
    {
        // for the prover: reading the field shows that the speech is valid
        let _known = &self.text;
        Ok(Speech {
            text: self.text.clone()?,
        })
    }
}

// It has no early exit, so that a compiler can vectorize the loop.
fn is_printable(text: &[u8]) -> bool
    ensures { result ≡ is_printable text.now }
{
    let mut printable = true;
    for byte in text {
        printable &= SPACE <= *byte && *byte <= TILDE;
    }
    printable
}

fn is_space(byte: Option<&u8>) -> bool
    ensures { result ≡ option_map_or (nat_eq SPACE) (option_copied byte.entry) false }
{
    match byte {
        Some(byte) => SPACE == *byte,
        None => false,
    }
}

fn is_trimmed(text: &[u8]) -> bool
    ensures { result ≡ is_trimmed text.now }
{
    !is_space(text.first()) && !is_space(text.last())
}

// Returns whether a text is a valid speech.
pub(crate) fn is_speech(text: &str) -> bool
    ensures { result ≡ is_speech text.now }
{
    let bytes = text.as_bytes();
    !bytes.is_empty() && bytes.len() <= MOST_SPEECH && is_printable(bytes) && is_trimmed(bytes)
}
