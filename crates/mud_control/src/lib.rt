//! The state that the threads of a server share with those of its host: sessions, announcements, counts, bans, rate
//! limits, and the stop flag.
//!
//! The threads of the consoles and of the metrics read and change a [`Control`] while the server runs. The server's
//! threads check it before each line, text and connection. A control does not name a hall.
//!
//! Threads: any number may share a control. Each lock is held for a moment, and only a socket's lock is taken under
//! another one, that of a session in the [`Roster`]. Nothing here waits for a player, a disk or a limit: [`Pace`]
//! returns how long a session has to wait, and its reader thread waits.
#![tactic(auto)]

mod address;
mod control;
mod excess;
mod news;
mod pace;
mod rates;
mod roster;
mod sign;
mod tally;

pub use address::{AddressMeters, Crowd, host_of};
pub use control::{Control, Hosting};
pub use excess::Excess;
pub use news::News;
pub use pace::Pace;
pub use rates::Rates;
pub use roster::{Member, Roster, Row};
pub use sign::StopSign;
pub use tally::{Refusal, Tally};
