//! The checker as a library: its finding for the texts of a history and of a certificate.
//!
//! | Call | Result |
//! |---|---|
//! | [`verdict`] | the line of the finding, without its end, and the status |
//! | [`Finding`], [`Status`] | the finding for a history's text and a proof's text, and the outcome |
//! | [`without_returns`] | the bytes of a text without each CR directly before a LF |
//!
//! ```text
//! let outcome = verdict(alloc, history, proof)?; // accepted, or what is refused, or what can't be read
//! ```
//!
//! docs/CHECKER.md has the order of the tests. Proved: the line and the status are those of the definitions for the two
//! texts. `accepted` means that the certificate is valid in the world of its version, after the first entries of that
//! history. The contracts of [`laws`] are the laws of the definitions.
#![tactic(auto)]

mod finding;
pub mod laws;
mod line_ends;
mod outcome;

pub use finding::{Finding, Status};
pub use line_ends::without_returns;
pub use outcome::{Outcome, verdict};
