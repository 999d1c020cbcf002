//! Both ends of a volume, and when a server turns to the next one.
//!
//! A volume begins with the hall that continues its entries ([`resume_hall`]), with its journal, and with the sessions
//! that come from the volume before it ([`Company`], [`Beginning`]). `mud_server_accept` serves it. Once its threads
//! have ended, [`settle_volume`] closes the hall, and returns its history and its journal. [`Turning`] says when it is
//! time to turn to the next one, and searches for a shorter history. docs/SERVER.md has the steps of a turn.
//!
//! Proved: the history of a volume that ends well begins as it was loaded, can be loaded again, and is in its journal.
//! When a server searches and when it turns is a function of its fill and its search ([`marks`]). No contract states
//! that the search finds anything; tests show it.
#![tactic(auto)]

mod census;
mod course;
pub mod laws;
pub mod marks;
mod opening;
mod proposal;
mod turning;
mod volume;

pub use census::{count_new, count_objects};
pub use course::{Comers, Course, Served, is_well_ended};
pub use opening::{ports_of, resume_hall, try_entries};
pub use proposal::{Proposal, copies};
pub use turning::{Turning, tell_large};
pub use volume::{
    Beginning, Company, Ended, Left, Terms, new_company, part_all, settle_volume, state_of,
};
