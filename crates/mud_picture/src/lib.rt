//! Pictures of the rooms, exits and players of a world: in SVG, and as a graph with positions.
//!
//! | Calls | Result |
//! |---|---|
//! | `svg_of` | the picture of a world, in SVG |
//! | `graph_of` | its graph in DOT, with the positions of the picture |
//! | `picture_of` | either, for the bytes of a history or a journal |
//!
//! The layout is a search that promises nothing: tests show that each room has a place of its own, in the direction of
//! an exit that leads there.
#![tactic(auto)]

mod compass;
mod drawing;
mod graph;
mod layout;
mod picturing;

pub use drawing::svg_of;
pub use graph::graph_of;
pub use picturing::{PictureForm, PictureText, picture_of};
