//! A hall: many desks that act, ask and get notices over one history, which is settled at the end.
//!
//! A [`Hall`] has one history of accepted changes. Each caller has a [`Desk`]: a number, a player or none, the entries
//! that it has seen, and a replica of the world after them. A desk acts under the lock of the hall, and sees and asks
//! without it. A [`Solo`] is a single-user desk without a lock.
//!
//! | Calls | Result |
//! |---|---|
//! | `NewHall::open`, `resume` | a hall with an empty history, or one that continues entries: [`LoadFault`] |
//! | `NewHall::with_name` | the same hall with its [`HallName`], which its type and those of its desks carry |
//! | `Hall::capacity`, `loaded_count` | the capacity of the history, and the number of entries that it began with |
//! | `Hall::desk` | a guest's desk with the next number: [`Fault`] |
//! | `Hall::act` | applies all entries, and acts on a parsed line in that world: [`Reply`], [`Fault`] |
//! | `Desk::see`, `see_to` | applies all entries that are set, or those among the first N |
//! | `Desk::ask`, `ask_with` | answers a parsed line by exactly what the desk has seen; `ask_with` by several workers |
//! | `Desk::take_told` | the notices of the changes of others, each once |
//! | `Desk::learn`, `guest` | advances to what another desk has seen; becomes a guest's desk again |
//! | `Desk::number`, `seen`, `accepted_count` | its number, and how many entries it has seen and made |
//! | `Hall::reader` | a [`Reader`], which reads the entries in order and makes none |
//! | `Hall::close` | the one history that the desks made, [`Settled`], or all of it back: [`CloseFault`] |
//! | `Solo::open`, `act`, `ask`, .. | these for one caller, who begins as the wizard |
//!
//! ```text
//! let hall = NewHall::open(alloc, 65536)?.with_name::<J>();
//! let mut desk = hall.desk(&rt)?;
//! let line = parse(alloc, "connect wizard")?;
//! let reply = hall.act(&rt, &mut desk, &line)?; // Became { version: 0, text: "welcome #1" }
//! let line = parse(alloc, "route to #0")?;
//! let answer = desk.ask(&hall, &line)?; // its text is "route #0 to #0 cost 0 by nothing"
//! ```
//!
//! The types guarantee that a desk is used with its own hall: the function that opens a hall picks a name where it
//! calls the function that continues with it. After a fault the history has no entry of the call, and the desk has seen
//! no less than before.
//!
//! Threads: threads share a hall, and a desk belongs to one thread at a time. `Hall::act`, `desk` and `reader` may wait
//! for the hall's locks, and `ask_with` starts its workers and waits for them. `see`, `ask` and `Reader::read` never
//! wait.
//!
//! Memory: a hall owns the log with all entries, and one replica that new desks copy. A desk owns a replica of the
//! world, which is most of its memory, and the notices that were not taken yet.
//!
//! Proved:
//!
//! - Each call has the effect on its desk that specs/Steps.antt states. A line is decided in the world of all entries
//!   that its desk has seen. An accepted change is the next entry. An answer depends on exactly the entries that the
//!   desk has seen. Notices come once and in order.
//! - A settlement has each call of its desks once, in order, or a fault says why there is none.
//! - [`laws::guide`] is about every list of such steps by any desks of one hall. An answer about a journey is optimal
//!   in the world of the version that it names, and the checker accepts its certificate with each history that begins
//!   with those entries.
//!
//! No contract claims that a desk immediately finds the entries that another thread has added. Nor does one claim that
//! the calls of all desks have one order; the definition of a run assumes it.
#![tactic(auto)]

mod acting;
mod answering;
mod asking;
mod close;
mod desk;
mod entries;
mod fault;
mod guide;
mod hall;
mod kept;
pub mod laws;
mod name;
mod reader;
mod reply;
mod solo;
mod texts;
mod travel;

pub use close::Settled;
pub use desk::Desk;
pub use fault::{CloseFault, Fault, LoadFault, ResumeFault};
pub use hall::{Hall, NewHall};
pub use mud_chron::limits::MOST_DESKS;
pub use name::HallName;
pub use reader::Reader;
pub use reply::Reply;
pub use solo::Solo;
