//! A token bucket: it limits how often something may be done.
//!
//! A [`Meter`] begins with `burst` tokens, gains `rate` tokens a minute, and never holds more than `burst`. A caller
//! takes tokens before it acts, and waits if there are too few. Below, `now` asks a clock, and `rest` sleeps:
//!
//! ```rust
//! let mut lines = Meter::new(1200, 200, now(clock));
//! while let Some(wait) = lines.take(now(clock), 1) {
//!     rest(rt, wait);
//! }
//! ```
//!
//! A caller that learns the cost only afterwards waits for one token first, and spends the cost then:
//!
//! ```rust
//! while let Some(wait) = changes.wait(now(clock)) {
//!     rest(rt, wait);
//! }
//! let made = serve(line);
//! changes.spend(now(clock), made);
//! ```
//!
//! A meter counts in whole numbers. A token has 60,000,000 units, so a rate of N tokens a minute is N units a
//! microsecond, and no rounding occurs. All times come from one clock, in whole microseconds. A time before the latest
//! one changes nothing.
//!
//! **What is proved.** Each call does exactly what `specs/Bucket` says, and [`laws`] states what follows. In any period
//! a meter lets through at most its burst and the gain of the period. Calls that stay within that bound are let
//! through, and so is a caller that waits as long as the meter said.
#![tactic(auto)]

mod debt;
pub mod laws;
mod meter;

pub use debt::{Debt, MOST_OWED};
pub use meter::Meter;
