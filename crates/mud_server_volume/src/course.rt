//! The course of a volume: what its threads share, who comes to it, and why it accepts no further connection.

ghost use Rattle.std.specs.Prelude.{◌<◌, IfNone, IsTrue};

use crate::turning::Turning;
use mud_control::StopSign;
use mud_listeners::Arrivals;
use mud_server_session::{Guest, Quay};
use mud_server_state::Limits;
use std::time::Duration;

/// The reason why no further connection is accepted.
#[derive(Clone, Copy, Debug, PartialEq, Eq)]
pub enum Served {
    /// No further session may begin: the stop flag is set, or the total is reached.
    All,
    /// A listener failed for good, or the journal did.
    Failed,
    /// It is time to turn to the next volume.
    Due,
    /// The server turns to its next volume. Its sessions began to rest at this time.
    Turns(Duration),
}

/// The values that the threads of a volume share beside its state: the quay, the turn, the limits, and the stop flag.
#[derive(Clone, Copy)]
pub struct Course<'s> {
    pub quay: &'s Quay,
    pub turning: &'s Turning,
    pub limits: Limits,
    pub stop: Option<&'s StopSign>,
}

/// The players of a volume: the sessions that rested, and the connections of the listeners, unless those are closed.
#[derive(Drop)]
pub struct Comers {
    pub guests: Vec<Guest>,
    pub arrivals: Option<Arrivals>,
}

/// Returns whether a server has ended well, given whether all sessions were served that should be: after this many
/// sessions, or by the stop flag. The prover knows only the type of a thread's result, so a caller that joined a thread
/// checks here again whether there is a flag or a total.
pub fn is_well_ended(is_served: bool, stop: Option<&StopSign>, total: u32) -> bool
    ensures { IsTrue result → IfNone stop.entry (0 < total) }
{
    match stop {
        Some(_) => is_served,
        None => is_served && 0 < total,
    }
}
