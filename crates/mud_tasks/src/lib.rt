//! The tasks of `mud_serve` that serve no connection, and the reasons why a task stops.
//!
//! [`settled`] reads the words of the command line and of the settings file, [`answer`] answers a script, and [`check`]
//! prints what a server would do. docs/SERVER.md has the command lines and the exit statuses.
//!
//! The program has them from a crate of their own, so that their proof need not wait for that of the server's threads.
//! No contract states what a task does; tests show it.
#![tactic(auto)]

mod checking;
mod opening;
mod scripting;
mod settings;
mod stop;

pub use checking::check;
pub use opening::{doors, load_entries, tell_torn};
pub use scripting::answer;
pub use settings::{Unsettled, settled};
pub use stop::Stop;
