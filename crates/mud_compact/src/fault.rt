//! The reasons why a file has no world.

use mud_chron::ChronFault;
use std::alloc::AllocError;

/// The reason why the bytes of a file can't be read.
#[derive(Debug, Drop)]
pub enum KeptFault {
    /// The file is empty.
    Empty,
    /// The bytes, or the changes in them, have this fault, or an allocation failed.
    Text(ChronFault),
}

impl From<AllocError> for KeptFault {
    ghost use Rattle.std.specs.Prelude.{◌≡◌};
    ghost use Rattle.mud_chron.specs.declared.fault.ChronFault.TheVariants.{OutOfMemory};
    ghost use Rattle.mud_compact.specs.declared.fault.KeptFault.TheVariants.{Text};

    ghost from_gives = { λ _ e. e ≡ Text OutOfMemory };

    fn from(_e: AllocError) -> KeptFault {
        KeptFault::Text(ChronFault::OutOfMemory)
    }
}

impl From<ChronFault> for KeptFault {
    ghost use Rattle.std.specs.Prelude.{◌≡◌};
    ghost use Rattle.mud_compact.specs.declared.fault.KeptFault.TheVariants.{Text};

    ghost from_gives = { λ fault e. e ≡ Text fault };

    fn from(fault: ChronFault) -> KeptFault {
        KeptFault::Text(fault)
    }
}
