//! `mud_page`: the page of the web listener, a single file that loads nothing else. Its sources are in `page/`, and a
//! test compares them with this crate.
#![tactic(auto)]

mod page;

pub use page::PAGE;
