//! The guide: the route of a player to a room, and the meeting of a party, each with a certificate that proves the
//! answer optimal.
//!
//! | Call | Result |
//! |---|---|
//! | [`route_alone`] | the canonical route of a player to a room, or that no walk leads there |
//! | [`meet_alone`] | the room where a party meets and each member's route there, or that there is none |
//! | [`route`], [`meet`] | the same, computed by several workers |
//! | [`route_of_alone`], [`route_of`] | the route of a traveller that the caller has already |
//!
//! An [`Answer`] has the text of the reply and a certificate, which lists for each member the least label of every room
//! that it reaches. A checker needs no trust in this crate. docs/GUIDE.md has the rules and the promises in plain
//! words.
//!
//! ```text
//! let answer = route_alone(alloc, &world, 0, 1, 2)?;
//! assert_eq!(rt; answer.text.as_str(), "route #0 to #2 cost 1 by #3");
//! ```
//!
//! Proved: the text states the canonical route, or the meeting room with the least greatest cost and the route of each
//! member, as specs/Walks.antt of mud_roads defines them. It says `no way` or `no meeting` exactly if there is none.
//! The certificate has exactly the least labels and these routes, and keeps the limits of certificates, so its text
//! reads back. The only error is out of memory. The contracts of [`laws`] are the laws of the definitions.
#![tactic(auto)]

mod accounts;
mod answer;
mod arrivals;
mod ask;
pub mod laws;
mod leg;
mod lister;
mod meeting;
mod routing;
mod texts;
mod way;
mod workers;

pub use answer::Answer;
pub use ask::{meet_alone, route_alone, route_of_alone};
pub use workers::{Workers, meet, route, route_of};
