//! The faults of reading a key.

use std::alloc::{AllocError, AllocFailed};
use thiserror::Error;

/// The reason why a text gives no key (docs/KEYS.md, "Faults").
#[derive(Debug, Drop, Error)]
pub enum KeyFault {
    /// An allocation failed.
    #[error("out of memory")]
    OutOfMemory,
    /// The text is not a key text. The number is the length of the longest prefix that begins some key text.
    #[error("no key from byte {0} on")]
    BadKey(usize),
    /// The text is a key text of more than 16 objects or more than 64 `!`.
    #[error("too many objects or `!`")]
    TooManyAtoms,
    /// The first object of the text that can't be resolved names nothing.
    #[error("an object of the key isn't there")]
    NoSuch,
    /// The first object of the text that can't be resolved names several objects.
    #[error("an object of the key is ambiguous")]
    Ambiguous,
}

impl From<AllocError> for KeyFault {
    ghost use Rattle.std.specs.Prelude.{◌≡◌};
    ghost use Rattle.mud_key.specs.declared.key_fault.KeyFault.TheVariants.{OutOfMemory};

    ghost from_gives = { λ _ e. e ≡ OutOfMemory };

    fn from(_e: AllocError) -> KeyFault {
        KeyFault::OutOfMemory
    }
}

impl<T: Drop> From<AllocFailed<T>> for KeyFault {
    ghost use Rattle.std.specs.Prelude.{◌≡◌};
    ghost use Rattle.mud_key.specs.declared.key_fault.KeyFault.TheVariants.{OutOfMemory};

    ghost from_gives = { λ _ e. e ≡ OutOfMemory };

    fn from(_e: AllocFailed<T>) -> KeyFault {
        KeyFault::OutOfMemory
    }
}
