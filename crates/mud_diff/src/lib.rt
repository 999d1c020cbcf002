//! The differences of two worlds, object by object and field by field.
//!
//! | Calls | Result |
//! |---|---|
//! | `differences` | the differences of the objects of an old world and a new one |
//! | `diff_text` | a text with a row for each difference, or `the worlds are the same` |
//! | `compare` | the text, and a flag that is true if the worlds are equal |
//! | `diff_of` | that of the bytes of two histories or journals |
//!
//! Proved: the differences are exactly those of the definition, each once and in order, and the text is that of the
//! definition. [`laws`] promises that worlds without a difference are the same.
#![tactic(auto)]

mod answering;
mod comparing;
mod difference;
mod fields;
pub mod laws;
mod rows;

pub use answering::{Comparison, DiffText, NoDiff, compare, diff_of};
pub use comparing::differences;
pub use difference::{Difference, What};
pub use rows::diff_text;
