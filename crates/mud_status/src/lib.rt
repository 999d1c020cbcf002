//! The status of a server: for the console, and as metrics.
//!
//! A [`Status`] has the numbers of a server at one moment. [`status_text`] is the answer of the console, one number a
//! line. [`metrics_text`] is in the text format of Prometheus, version 0.0.4. [`seek`] parses an HTTP request, and
//! [`reply`] answers it with the metrics or the health.
//!
//! **What is proved.** Each text is the function of the status that `specs/` defines. The body of an HTTP answer is the
//! text of its target, and the head has the length of the body.
#![tactic(auto)]

mod answering;
mod metrics;
mod rows;
mod status;

pub use answering::{MOST_HEAD, Sought, reply, seek};
pub use metrics::metrics_text;
pub use rows::status_text;
pub use status::{Health, Status};
