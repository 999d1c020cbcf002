//! A survey of a world: where its players can't come, and what stands in the way.
//!
//! | Calls | Result |
//! |---|---|
//! | `survey_world` | what is found in a world for some of its players |
//! | `survey_of` | a survey of the bytes of a history or a journal, as a table or in JSON |
//! | `way_proof` | the certificate of a player's way to a room, or that no way exists |
//!
//! Proved is that each list has exactly what its definition says, each once and in order, that the texts are those of
//! the definitions, and that the certificate is valid.
#![tactic(auto)]

mod answering;
mod back;
mod finding;
mod json;
mod marks;
mod party;
mod row;
mod survey;
mod table;
mod trails;

pub use answering::{Form, NoSurvey, SurveyText, survey_of, way_proof};
pub use finding::survey_world;
pub use json::json_text;
pub use survey::{Stranded, Survey};
pub use table::table_text;
