//! The texts of the names of an object.

ghost use Rattle.std.specs.Prelude.{◌≡◌, map, string_bytes};
ghost use Rattle.mud_key.specs.Names.{texts_of};

use std::slice;

/// A list of texts. Most objects have one name, and a single text needs no memory for a list.
#[derive(Drop)]
pub enum Texts {
    /// A single text.
    One(String),
    /// Any number of texts.
    Several(Vec<String>),
}

impl Texts {
    /// Returns the texts in order.
    pub fn as_slice(&self) -> &[String]
        ensures { map string_bytes result.now ≡ texts_of self.now }
    {
        match self {
            Texts::One(text) => slice::from_ref(text),
            Texts::Several(texts) => texts.as_slice(),
        }
    }
}
