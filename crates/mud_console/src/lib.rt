//! The console of a server: the requests of its host, and the answers.
//!
//! A request is one line: a word, and after blanks its argument ([`order_of`]). Its answer is several lines. The last
//! line is `ok` or begins with `error `, and no other line does ([`Answer`]). So a script reads up to that line.
//!
//! A [`Countdown`] is an announced stop. It returns which announcement is due, and when the server should stop.
//!
//! **What is proved.** Which line is which order, and which lines are no order; the text of an answer; the times of a
//! countdown's announcements and of its stop. Each mark is announced at most once.
#![tactic(auto)]

mod answer;
mod countdown;
pub mod laws;
mod order;
mod texts;

pub use answer::Answer;
pub use countdown::{Countdown, Due};
pub use order::{HELP, Order, order_of};
