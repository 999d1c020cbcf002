//! The rooms and exits of a world as a graph in DOT, the language of Graphviz.
//!
//! | Calls | Result |
//! |---|---|
//! | `map` | the text of the graph |
//! | `map_with` | the same with the walks, labels and meeting of a certificate |
//! | `map_of` | the text of the graph, for the bytes of a history or a journal |
//! | `mapped_with` | the same with the text of a certificate, in the world of its version |
//!
//! Proved: the text is that of the definition, with a node for each room, an edge for each exit, and no others. The
//! contract of [`laws`] states that escaped texts read back.
#![tactic(auto)]

pub mod codes;
mod drawing;
pub mod laws;
mod mapping;
mod quoted;

pub use drawing::{map, map_with};
pub use mapping::{MapText, NoMap, map_of, mapped_with};
