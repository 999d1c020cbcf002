//! The result of a client's step.

use mud_journal::{Held, Telling};
use mud_session::SessionFault;
use mud_web::SendFault;
use websocket::error;

/// The texts of clients: they name no version above a number.
pub struct Sayings;

impl Telling for Sayings {
    ghost use Rattle.mud_client.specs.Sayings.{SaysUpTo};

    ghost up_to = { SaysUpTo };
}

/// The reason why a client has ended.
#[derive(Clone, Copy, Debug, PartialEq, Eq)]
pub enum End {
    /// The player typed `quit`, and got the answer.
    Quit,
    /// An allocation failed for the client itself.
    OutOfMemory,
    /// The other side of the web socket closed, or broke a rule of the protocol or a limit.
    Over(error::Error),
    /// The output is not ASCII, so it was not sent.
    NotText,
    /// It had ended before.
    Earlier,
}

impl End {
    ghost use Rattle.mud_client.specs.inner.Refusal.{IsRefusal};

    // Returns the reason why a session accepts no more input.
    pub(crate) fn of_session(fault: SessionFault) -> End
        ensures { IsRefusal result }
    {
        match fault {
            SessionFault::OutOfMemory => End::OutOfMemory,
            SessionFault::Ended => End::Earlier,
        }
    }

    // Returns the reason why a text was not sent.
    pub(crate) fn of_sending(fault: SendFault) -> End
        ensures { IsRefusal result }
    {
        match fault {
            SendFault::OutOfMemory => End::OutOfMemory,
            SendFault::NotText => End::NotText,
            SendFault::Closed => End::Earlier,
        }
    }
}

/// The output of a step, and its other results. `J` names the journal whose receipts release the output.
#[derive(Drop)]
pub struct Outgoing<J> {
    /// The output, withheld until the versions that it can name are synced.
    pub text: Held<J, Sayings>,
    /// The reason why the client has ended, if it has.
    pub end: Option<End>,
    /// True if a line ended in the answered input.
    pub has_line: bool,
    /// True if more lines wait: the next `feed` answers one of them.
    pub has_more: bool,
    /// The least number of entries in the history, if a change was accepted.
    pub accepted: Option<usize>,
    /// True if the desk is a player's now.
    pub has_player: bool,
}
