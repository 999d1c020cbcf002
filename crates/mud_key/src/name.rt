//! Single names.

ghost use Rattle.std.specs.Prelude.{◌≡◌, IfOk, map, string_bytes};
ghost use Rattle.mud_key.specs.Name.{IsName};
ghost use Rattle.mud_key.specs.inner.NamesTexts.{is_only};
ghost use Rattle.mud_key.specs.Finds.{name_in, Finds};

use crate::names::{Names, NamesFault};
use std::alloc::{AllocError, Global};
use std::marker::Model;

/// One name: 1 to 60 bytes (docs/KEYS.md, "Names"). A contract sees its text.
#[derive(Drop)]
pub struct Name {
    text: String,
}

impl Model for Name {
    ghost use Rattle.std.specs.Prelude.{ℕ, List, string_bytes};

    ghost Value = { List ℕ };

    ghost view = { λ a. string_bytes a.text };

    ghost use Rattle.mud_key.specs.Name.{IsName};

    ghost invariant = { λ a. IsName (string_bytes a.text) };
}

impl Name {
    /// Reads a text as one name. Spaces are not trimmed and commas do not separate: exactly the names are accepted.
    pub fn read(alloc: Global, text: &str) -> Result<Name, NamesFault>
        ensures finds { Finds (name_in text.now) result }
    {
        let names = match Names::read(alloc, text) {
            Ok(names) => names,
            Err(fault) => return Err(fault),
        };
        if is_only(text, names.list()) {
            Ok(Name {
                text: String::from_str(alloc, text)?,
            })
        } else {
            Err(NamesFault::BadName)
        }
    }

    /// Returns the text of the name.
    pub fn as_str(&self) -> &str
        ensures text { result.now ≡ self.now }
        ensures name { IsName self.now }
    {
        &self.text
    }

    /// Returns an equal name.
    pub fn copy(&self, alloc: Global) -> Result<Name, AllocError>
        ensures { IfOk result (λ name. name ≡ self.now) }
    {
        // for the prover: reading the field shows that the text is a name
        let _known = &self.text;
        Ok(Name {
            text: self.text.clone()?,
        })
    }
}

// Returns whether the names are this one text.
fn is_only(text: &str, names: &[String]) -> bool
    ensures { result ≡ is_only text.now (map string_bytes names.now) }
{
    match names {
        [name] => name.as_bytes() == text.as_bytes(),
        _ => false,
    }
}
