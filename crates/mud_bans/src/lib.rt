//! A list of banned networks of IP addresses, and its file.
//!
//! A [`Network`] has all addresses of one family that begin with the same bits. Its text is an address, or an address,
//! `/` and the number of bits that count (RFC 4632, section 3.1; RFC 4291, section 2.3). [`Bans`] is a list of
//! networks, whose file has one a line.
//!
//! A caller passes an IPv4-mapped address (RFC 4291, section 2.5.5.2) as IPv4: `to_canonical` makes it that.
//!
//! **What is proved.** Which texts are networks, and which addresses a network contains. Adding keeps all others, and
//! removing removes one and keeps the rest. The text of the file is that of the list.
#![tactic(auto)]

mod bans;
pub mod laws;
mod network;
mod number;

pub use bans::{AddFault, Bans, MOST_BANS};
pub use network::Network;
