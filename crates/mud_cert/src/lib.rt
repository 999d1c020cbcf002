//! Certificates of routes and meetings, and a checker for them that trusts nobody.
//!
//! | Call | Result |
//! |---|---|
//! | [`Cert::new`], [`Member::new`] | a certificate, within its limits |
//! | [`Cert::write`], [`read`] | its text, and the certificate of a text |
//! | [`check`] | whether it is valid in a world, or its first doubt |
//!
//! The guide writes a certificate with each answer, and anybody can check it against the world without the guide.
//! docs/CERTIFICATES.md has the rules in plain words.
//!
//! ```text
//! match check(&world, &cert) {
//!     Ok(()) => {} // its conclusion is optimal
//!     Err(doubt) => {} // the first doubt, or out of memory
//! }
//! ```
//!
//! Proved: unless memory runs out, `check` accepts exactly the valid certificates and returns the first doubt of any
//! other one, and the conclusion of a valid certificate is optimal. The contracts of [`laws`] are the laws of the
//! definitions.
#![tactic(auto)]

mod agree;
mod cert;
mod doubt;
mod fault;
mod judge;
pub mod laws;
mod lines;
mod look;
mod numbers;
mod reading;
mod stage;
mod steps;
pub mod text_laws;
mod writing;

pub use cert::{Cert, Conclusion, Form, Meeting, Member};
pub use doubt::Doubt;
pub use fault::CertFault;
pub use judge::check;
pub use reading::read;
