//! Lines that build a world, or a part of it, when a player types them.
//!
//! | Calls | Result |
//! |---|---|
//! | `lines_of` | lines that build the world of a history again, typed in a new world |
//! | `part_lines_of` | lines that build some rooms of it with all between them, in a new world or in another |
//!
//! The choice of lines is not proved. The program types them in a separate world, by the rules of `mud_rules`, and
//! compares the result. Proved: the lines of a whole world lead to that world. The lines of a part are only typed, and
//! tests show that they make a copy.
#![tactic(auto)]

mod answering;
mod building;
mod part;
mod spelling;
mod stop;
mod typist;

pub use answering::{LinesText, NoLines, Start, lines_of, part_lines_of};
pub use typist::MOST_LINE;
