//! Names in lines.

ghost use Rattle.std.specs.Prelude.{◌≡◌, IfOk};
ghost use Rattle.mud_key.specs.Finds.{names_in, name_in};

use mud_key::{Name, Names, NamesFault};
use std::alloc::{AllocError, Global};

// Returns the names in a text, if it is a names text.
pub(crate) fn names_in(alloc: Global, text: &str) -> Result<Option<Names>, AllocError>
    ensures { IfOk result (λ names. names ≡ names_in text.now) }
{
    match Names::read(alloc, text) {
        Ok(names) => Ok(Some(names)),
        Err(NamesFault::BadName) => Ok(None),
        Err(NamesFault::OutOfMemory) => Err(AllocError),
    }
}

// Returns the name that a text is, if it is one.
pub(crate) fn name_in(alloc: Global, text: &str) -> Result<Option<Name>, AllocError>
    ensures { IfOk result (λ name. name ≡ name_in text.now) }
{
    match Name::read(alloc, text) {
        Ok(name) => Ok(Some(name)),
        Err(NamesFault::BadName) => Ok(None),
        Err(NamesFault::OutOfMemory) => Err(AllocError),
    }
}
