//! The host's side of a running server: its bans, its log, its consoles and its status.
//!
//! Threads: the host's threads live as long as the program ([`Staff`]). One writes the log, so that no thread of the
//! server blocks on it. The others run consoles and answer requests for the status. A bounded queue under a lock has
//! the log's lines; `mud_control` has the shared state.
#![tactic(auto)]

mod bans;
mod console;
mod fault;
mod files;
mod host;
mod logbook;
mod metrics;
mod ports;
mod staff;

pub use bans::{NoBans, read_bans};
pub use console::watch;
pub use fault::{HostFault, NoControl};
pub use files::HostFiles;
pub use host::Host;
pub use logbook::Logbook;
pub use ports::{NoPort, bind};
pub use staff::Staff;
