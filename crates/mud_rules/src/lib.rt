//! The meaning of a line in a world: the table of commands, matching of objects, and the texts of all replies
//! (docs/COMMANDS.md).
//!
//! - [`decide`] takes a parsed line of a player or of a guest, and returns its [`Verdict`]: a legal change, a question,
//!   a player to become, or the refusal with the least number.
//! - [`local_match`], [`room_match`] and [`player_match`] find the object that a text means.
//! - [`is_question`] recognizes the lines that change nothing, and [`is_quit`] the line that ends a session.
//! - [`reply_text`], [`welcome_text`], [`refusal_text`] and [`show`] return the replies to a player, and
//!   [`push_notice`] appends the notice to another player. A [`Journey`] and the history are requested here, and
//!   answered elsewhere.
//!
//! Nothing here changes a world; the caller applies a change by `World::apply`.
//!
//! ```
//! let world = World::opening(alloc)?;
//! let parsed = parse(alloc, "@dig north|south to \"Library\"")?;
//! match decide(alloc, &world, Some(1), &parsed)? {
//!     Verdict::Change(change) => {
//!         let text = reply_text(alloc, &world, &change)?;
//!         assert_eq!(rt; text.as_str(), "dug room #2, exit #3, exit back #4");
//!     }
//!     _ => unreachable!(),
//! }
//! ```
//!
//! Proved:
//!
//! - The verdict is exactly that of the table in `specs/Table.antt`, with the commands of `Commands.antt` and
//!   `Journeys.antt` and the matching of `Matches.antt`.
//! - The tests of a command and the conditions of its change are one list of refusals, tried in rising order
//!   (`Outcome.antt`). So are the refusals of a meeting.
//! - A change in a verdict is legal, and its actor is the player who typed the line. A room in a question is one of the
//!   world, and a meeting is of a [`Party`] of its players.
//! - All texts are exactly those of `Replies.antt`, `Answers.antt` and `HeardLine.antt`.
//! - The only error is out of memory.
//! - The laws of [`laws`] hold. A line with an unreadable text is refused as it would be for any readable text. In a
//!   sound world the change of a line is legal, and its names, keys and texts are valid. Only a line with the verb of a
//!   question asks.
#![tactic(auto)]

mod actor;
mod answers;
mod asking;
mod building;
mod comparing;
mod connecting;
mod digging;
mod given;
mod hearing;
mod journeys;
pub mod laws;
mod line;
mod listing;
mod locking;
mod matching;
mod moving;
mod naming;
mod outcome;
mod party;
mod replies;
mod shapes;
mod talking;
mod verb;
mod verdict;

pub use answers::show;
pub use hearing::push_notice;
pub use line::{decide, is_question, is_quit};
pub use listing::push_about;
pub use matching::{Match, local_match, player_match, room_match};
pub use mud_world::Refusal;
pub use party::Party;
pub use replies::{refusal_text, reply_text, welcome_text};
pub use verdict::{Journey, Query, Verdict, View};
