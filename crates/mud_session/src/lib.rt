//! Sessions: they connect the bytes of a player to a desk.
//!
//! - A [`Door`] is the backend of a session: it acts on lines and answers questions. It is a single-user desk
//!   (`mud_hall::Solo`), or a [`Seat`], a desk of a hall.
//! - A [`Session`] consumes bytes by `feed` and answers each complete line through its door. `nudge` makes it look for
//!   the changes of others, and `take_out` returns its output.
//! - A [`script`] is a single-user session over a reader and a writer, and [`script_on`] one that continues a history.
//!
//! Memory: a session owns the incomplete line, at most 1,000 characters, and its output; the desk belongs to the
//! caller. It starts no thread. A call blocks only if its door does: at a [`Seat`] on the lock of the hall, and on
//! workers of a route.
//!
//! For a question the session first sees entries, then sends the notices, and then the answer. Any other line acts,
//! which sees entries too; then the session sends the notices, and then the reply. An answered `quit` ends the session.
//!
//! Proved:
//!
//! - The output is exactly the text of `specs/Session.antt`, however the input is cut. Each line has the effect on its
//!   desk that the definitions of `mud_hall` allow: the turns of a session are calls of its desk ([`laws::turns`]), and
//!   a hall's steps consist of such calls.
//! - Notices come once and in order ([`laws::notices`]).
//! - The output names no version above the number of entries that the desk has seen by then ([`laws::nothing_beyond`]).
//! - If an allocation fails for a line, the answer is `(out of memory)`, and only the set of seen entries may have
//!   changed. The reply to a change that was made is never lost in this way.
//! - If an allocation fails for the state or the output of the session itself, the session ends, and consumes no more
//!   input.
#![tactic(auto)]

mod door;
mod fault;
pub mod laws;
mod scripting;
mod seat;
mod session;
mod wiring;

pub use door::Door;
pub use fault::SessionFault;
pub use scripting::{ContinueFault, ScriptFault, ScriptLimits, script, script_on};
pub use seat::Seat;
pub use session::Session;
