//! The command lines of the programs.
//!
//! A program gets its words from `words_of`, and reads its task from them with one function: `service_of` for
//! `mud_serve`, `sources_of` for `mud_check`, `task_of` for `mud_explain`, and `keeping_of` for `mud_keep`. If the
//! words are wrong, or ask for help or the version, the fault has the text to show.
#![tactic(auto)]

mod argument;
mod build;
mod config;
mod fault;
mod form;
mod keeping;
mod keeping_forms;
pub mod laws;
mod limits;
mod listen;
mod matches;
mod origin;
mod service;
mod sources;
mod subject;
mod task;
mod words;

pub use crate::build::version;
pub use crate::config::{config_in, with_config};
pub use crate::fault::{CommandFault, show};
pub use crate::keeping::{Keeping, KeptFile, Wish, keeping_of};
pub use crate::limits::{
    ChosenLimits, ChosenRates, MOST_CAPACITY, MOST_PER_ADDRESS, MOST_RATE, MOST_TOTAL, MOST_WORKERS,
};
pub use crate::service::{
    Listening, Scripting, Service, StatusListening, WebListening, service_of,
};
pub use crate::sources::{Sources, sources_of};
pub use crate::subject::{Reading, Subject};
pub use crate::task::{Opening, Task, task_of};
pub use crate::words::words_of;
