//! Texts that are withheld until the versions they mention are durable.

ghost use Rattle.std.specs.Prelude.{◌≡◌, ◌≤◌, ◌==◌, vec_len};

use crate::journal::Receipt;
use std::marker::PhantomData;

/// The texts that mention no version above a number. A crate whose texts mention versions implements it by a type of
/// its own.
pub trait Telling {
    ghost use Rattle.std.specs.Prelude.{ℕ, List};

    ghost up_to: { ℕ → List ℕ → Type 0 };
}

/// A text about which nothing is claimed.
pub struct Anything;

impl Telling for Anything {
    ghost up_to = { λ _ _. Unit {0} };
}

/// A text that mentions no version above the one that it is held for. Only a receipt of the journal that `J` names, for
/// that version, releases it.
#[derive(Drop)]
pub struct Held<J, T: Telling = Anything> {
    text: Vec<u8>,
    version: usize,
    of: PhantomData<(J, T)>,
    ghost tells: { ∥ T.up_to version text.items ∥₁ },
}

impl<J, T: Telling> Held<J, T> {
    /// Withholds the text until this version is synced.
    pub fn new(text: Vec<u8>, version: usize) -> Held<J, T>
        requires tells { ∥ T.up_to version text.items ∥₁ }
        ensures text { result.text ≡ text }
        ensures version { result.version ≡ version }
    {
        Held {
            text,
            version,
            of: PhantomData,
        }
    }

    /// Returns whether the text is empty.
    pub fn is_empty(&self) -> bool
        ensures { result ≡ (vec_len self.now.text == 0) }
    {
        self.text.is_empty()
    }

    /// Returns the version that the text is held for.
    pub fn version(&self) -> usize
        ensures { result ≡ self.now.version }
    {
        self.version
    }

    /// Returns the text, given a receipt for its version.
    pub fn open(self, receipt: &Receipt<J>) -> Vec<u8>
        requires { self.version ≤ receipt.now.up_to }
        ensures text { result ≡ self.text }
        ensures tells { ∥ T.up_to self.version result.items ∥₁ }
    {
        self.text
    }
}
