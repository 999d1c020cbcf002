//! Replies to lines that act.

use mud_rules::Refusal;
use std::alloc::Global;
use std::borrow::CowStr;

/// The reply to a line that acts. It names the version that it is about: the number of entries in the history,
/// including an accepted one.
#[derive(Drop)]
pub enum Reply {
    /// The change is entry `version` of the history.
    Accepted {
        version: u32,
        text: CowStr<'static, Global>,
    },
    /// The desk has another player from now on.
    Became {
        version: u32,
        text: CowStr<'static, Global>,
    },
    /// The line was refused.
    Refused {
        version: u32,
        refusal: Refusal,
        text: CowStr<'static, Global>,
    },
    /// The line is a question: `Desk::ask` answers it.
    Question {
        version: u32,
    },
}
