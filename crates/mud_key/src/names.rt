//! The names of an object.

ghost use Rattle.std.specs.Prelude.{◌≡◌, [], ◌∷◌, IfOk, map, string_bytes};
ghost use Rattle.mud_key.specs.Finds.{names_in, Finds};
ghost use Rattle.mud_key.specs.Names.{AreNames, texts_of};
ghost use Rattle.mud_key.specs.inner.NamesTexts.{NamesReadAs};

use crate::name::Name;
use crate::name_reader::NameReader;
use crate::texts::Texts;
use std::alloc::{AllocError, Global};
use std::marker::Model;
use std::sync::Arc;
use thiserror::Error;

/// The reason why a text gives no names (docs/KEYS.md, "Names").
#[derive(Debug, Drop, Error)]
pub enum NamesFault {
    /// An allocation failed.
    #[error("out of memory")]
    OutOfMemory,
    /// The text is not a names text: it does not consist of 1 to 4 names.
    #[error("bad name")]
    BadName,
}

impl From<AllocError> for NamesFault {
    ghost use Rattle.std.specs.Prelude.{◌≡◌};
    ghost use Rattle.mud_key.specs.declared.names.NamesFault.TheVariants.{OutOfMemory};

    ghost from_gives = { λ _ e. e ≡ OutOfMemory };

    fn from(_e: AllocError) -> NamesFault {
        NamesFault::OutOfMemory
    }
}

/// The 1 to 4 names of an object; the first is shown (docs/KEYS.md, "Names"). A contract sees the list of their texts.
/// Copies share the texts in memory, also across threads.
#[derive(Drop)]
pub struct Names {
    texts: Arc<Texts>,
}

impl Model for Names {
    ghost use Rattle.std.specs.Prelude.{ℕ, List};
    ghost use Rattle.mud_key.specs.Names.{AreNames, texts_of};

    ghost Value = { List (List ℕ) };

    ghost view = { λ a. texts_of a.texts.value };

    ghost invariant = { λ a. AreNames (texts_of a.texts.value) };
}

impl Names {
    /// Reads names that commas separate, and trims the spaces around each. Exactly the names texts are accepted
    /// (docs/KEYS.md, "Names"); any other text gives `BadName`.
    pub fn read(alloc: Global, text: &str) -> Result<Names, NamesFault>
        ensures finds { Finds (names_in text.now) result }
    {
        Names::read_text(alloc, text)
    }

    fn read_text(alloc: Global, text: &str) -> Result<Names, NamesFault>
        ensures reads { NamesReadAs text.now result }
    {
        let mut reader = NameReader::new(alloc);
        for byte in text.as_bytes() {
            match reader.next(alloc, *byte)? {
                Some(next) => reader = next,
                None => return Err(NamesFault::BadName),
            }
        }
        match reader.settle()? {
            Some(texts) => Ok(Names::shared(alloc, texts)?),
            None => Err(NamesFault::BadName),
        }
    }

    // Returns the names with these texts.
    fn shared(alloc: Global, texts: Texts) -> Result<Names, AllocError>
        requires { AreNames (texts_of texts) }
        ensures { IfOk result (λ names. names ≡ texts_of texts) }
    {
        Ok(Names {
            texts: Arc::new(alloc, texts)?,
        })
    }

    /// Makes one name into the names of an object.
    pub fn of(alloc: Global, name: Name) -> Result<Names, AllocError>
        ensures { IfOk result (λ names. names ≡ name ∷ []) }
    {
        let text = String::from_str(alloc, name.as_str())?;
        Names::shared(alloc, Texts::One(text))
    }

    /// Returns the names, 1 to 4, in the order of their text.
    pub fn list(&self) -> &[String]
        ensures list { map string_bytes result.now ≡ self.now }
        ensures names { AreNames self.now }
    {
        self.texts.as_slice()
    }

    /// Returns equal names, which share the texts.
    pub fn copy(&self) -> Result<Names, AllocError>
        ensures { IfOk result (λ names. names ≡ self.now) }
    {
        Ok(Names {
            texts: Arc::try_clone(&self.texts)?,
        })
    }
}
