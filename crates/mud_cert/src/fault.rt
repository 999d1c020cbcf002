//! The faults of reading a certificate.

use std::alloc::{AllocError, AllocFailed};
use thiserror::Error;

/// The reason why a text gives no certificate.
#[derive(Debug, Drop, Error)]
pub enum CertFault {
    /// An allocation failed.
    #[error("out of memory")]
    OutOfMemory,
    /// The text is not a certificate's. Lines are counted from 1. The lines before this one begin the text of some
    /// certificate. With this one they do not, or the line or its LF is missing.
    #[error("bad line {0}")]
    BadLine(usize),
}

impl From<AllocError> for CertFault {
    ghost use Rattle.std.specs.Prelude.{◌≡◌};
    ghost use Rattle.mud_cert.specs.declared.fault.CertFault.TheVariants.{OutOfMemory};

    ghost from_gives = { λ _ e. e ≡ OutOfMemory };

    fn from(_e: AllocError) -> CertFault {
        CertFault::OutOfMemory
    }
}

impl<T: Drop> From<AllocFailed<T>> for CertFault {
    ghost use Rattle.std.specs.Prelude.{◌≡◌};
    ghost use Rattle.mud_cert.specs.declared.fault.CertFault.TheVariants.{OutOfMemory};

    ghost from_gives = { λ _ e. e ≡ OutOfMemory };

    fn from(_e: AllocFailed<T>) -> CertFault {
        CertFault::OutOfMemory
    }
}
