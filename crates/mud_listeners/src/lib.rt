//! The listeners of a server, and the connections that they accept.
//!
//! [`Doors`] are the Telnet and the web listener, with the page and its origin. [`Arrivals`] alternates between them
//! when both have a connection.
//!
//! Threads: one thread owns the arrivals and their sockets. A call of `next` blocks for at most a tenth of a second,
//! even after a fault of the system, so its caller can check the stop flag between two calls. An accepted connection
//! belongs to the caller.
#![tactic(auto)]

mod arrivals;
mod doors;
mod options;
mod ready;

pub use arrivals::{Arrival, Arrivals};
pub use doors::{Doors, Listeners, Ports, Site, WebDoor};
