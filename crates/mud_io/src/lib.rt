//! The two ends of a program: a reader and a writer that record whether they failed.
//!
//! - A [`Source`] is read piece by piece, or to its end. It records how many reads were made, whether the end was seen,
//!   and whether the last read failed.
//! - A [`Sink`] is written to. It records whether the last write failed.
//!
//! The inner reader and writer can't be reached in any other way. So the contract of a program can say that it stopped
//! because its reader or its writer failed.
//!
//! ```
//! let mut source = Source::new(&b"look\n"[..]);
//! let mut input = Vec::new(alloc);
//! source.read_to_end(&mut input)?;
//! let mut sink = Sink::new(Vec::new(alloc));
//! if !sink.write_all(&input) {
//!     return Err(Fault::Write);
//! }
//! ```
#![tactic(auto)]

pub mod laws;
mod sink;
mod source;

pub use sink::Sink;
pub use source::{MOST_READS, Source};
