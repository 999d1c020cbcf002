//! Sessions between two volumes.

use crate::habits::Habits;
use crate::log_lines::{log_call_off, log_end, log_turn};
use log::Log;
use mud_client::RestingClient;
use mud_control::Tally;
use mud_socket::{Ending, Entrance, Parting, Socket, now};
use std::alloc::{AllocError, Global};
use std::sync::{Arc, Mutex, Wait};
use std::time::{Clock, Duration};

/// A session that rests: its socket, its client without a desk, the number of announcements that it was told, the
/// number of its last desk, and the state of its reader thread. It names no hall.
#[derive(Drop)]
pub struct Guest {
    pub socket: Arc<Socket>,
    pub client: RestingClient,
    pub told: u64,
    pub number: u32,
    pub habits: Habits,
}

/// The origin of sessions that sit down again: the number of changes of the volume before, and the time at which they
/// began to rest. The number is `None` if the turn was called off, and the same volume goes on.
#[derive(Clone, Copy, Debug)]
pub struct Came {
    pub changes: Option<usize>,
    pub since: Duration,
}

/// The number of a volume, the origin of its sessions if they sit down again, and the sessions that rest at its end.
#[derive(Drop)]
pub struct Quay {
    pub volume: u32,
    came: Option<Came>,
    guests: Mutex<Vec<Guest>>,
}

impl Guest {
    /// Ends the session for this reason, and sends its last line if the other side takes it soon.
    pub fn part<R: Wait + Log>(self, rt: &R, ending: Ending) {
        let Guest {
            socket,
            client,
            told: _,
            number,
            habits,
        } = self;
        let parting = socket.part(rt, Parting::of_ending(ending));
        match socket.entrance() {
            Entrance::Telnet => socket.say_last(rt, ending.line().as_bytes()),
            Entrance::Web => {
                let text = client.part(ending.line(), parting.close());
                socket.say_last(rt, &text);
            }
        }
        socket.shut();
        log_end(rt, number, habits.peer, parting);
    }
}

impl Quay {
    /// Returns a quay for the volume with this number, with room for all sessions of its places.
    pub fn new(
        alloc: Global,
        volume: u32,
        came: Option<Came>,
        places: u32,
    ) -> Result<Quay, AllocError> {
        let guests = Vec::with_capacity(alloc, places as usize)?;
        Ok(Quay {
            volume,
            came,
            guests: Mutex::new(guests),
        })
    }

    /// Returns whether the sessions come from an earlier volume.
    pub fn is_next(&self) -> bool {
        match self.came {
            Some(came) => came.changes.is_some(),
            None => false,
        }
    }

    /// Returns the line that names the volume. The only error is out of memory.
    pub fn line(&self, alloc: Global) -> Result<String, AllocError> {
        let volume = self.volume;
        format!(in alloc; "(volume {volume})\r\n")
    }

    /// Logs and counts the turn, or that it was called off, once all sessions have sat down again.
    pub fn tell_turn<R: Log + Clock>(&self, rt: &R, tally: &Tally, begun: u32, sessions: u32) {
        let Some(came) = self.came else {
            return;
        };
        let (volume, pause) = (self.volume, now(rt).saturating_sub(came.since));
        match came.changes {
            Some(was) => {
                tally.count_turn(pause);
                log_turn(rt, volume, begun, was, sessions, pause);
            }
            None => {
                tally.count_call_off();
                log_call_off(rt, volume, begun, sessions, pause);
            }
        }
    }

    /// Adds a session. There is room for it.
    pub fn land<R: Wait>(&self, rt: &R, guest: Guest) {
        if let Err(lost) = self.guests.lock(rt).push(guest) {
            drop(lost);
        }
    }

    /// Returns the sessions, in the order of their desks.
    pub fn into_guests(self) -> Vec<Guest> {
        let mut guests = self.guests.into_inner();
        let _ = guests.sort_by_key(|guest: &Guest| -> u32 { guest.number });
        guests
    }
}
