//! Places for sessions.

ghost use Rattle.std.specs.Prelude.{◌≡◌};
ghost use Rattle.mud_server_state.specs.Places.{no_place_line, no_place_close};

use mud_hall::{Desk, HallName};
use mud_web::Ending as Close;
use std::net::IpAddr;

/// The reason why there is no place for a connection.
#[derive(Clone, Copy)]
pub enum NoPlace {
    /// All places are taken.
    Full,
    /// The address has reached its limit.
    TooMany,
}

impl NoPlace {
    /// Returns the line for a Telnet connection.
    pub fn line(self) -> &'static str
        ensures { result.now ≡ no_place_line self }
    {
        match self {
            NoPlace::Full => "(server full)\r\n",
            NoPlace::TooMany => "(too many sessions)\r\n",
        }
    }

    /// Returns the close of a browser's web socket.
    pub fn close(self) -> Close
        ensures { result ≡ no_place_close self }
    {
        match self {
            NoPlace::Full => Close::ServerFull,
            NoPlace::TooMany => Close::TooManySessions,
        }
    }
}

/// A place for one session at a time: the address of its session, and a desk that no session uses.
#[derive(Drop)]
pub struct Place<J: HallName> {
    address: Option<IpAddr>,
    desk: Option<Desk<J>>,
}

impl<J: HallName> Place<J> {
    /// Returns a free place without a desk.
    pub fn new() -> Place<J> {
        Place {
            address: None,
            desk: None,
        }
    }

    /// Takes the place for a session of this address.
    pub fn take(&mut self, address: IpAddr) {
        self.address = Some(address);
    }

    /// Returns the address of the session in this place, if there is one.
    pub fn address(&self) -> Option<IpAddr> {
        self.address
    }

    /// Returns the number of the stored desk.
    pub fn desk_number(&self) -> Option<u32> {
        self.desk.as_ref().map(|desk| desk.number())
    }

    /// Takes the stored desk.
    pub fn take_desk(&mut self) -> Option<Desk<J>> {
        self.desk.take()
    }

    /// Stores a desk that no session uses.
    pub fn keep(&mut self, desk: Desk<J>) {
        self.desk = Some(desk);
    }

    /// Releases the place. A stored desk stays.
    pub fn release(&mut self) {
        self.address = None;
    }

    /// Returns the stored desk, at the end of the server.
    pub fn into_desk(self) -> Option<Desk<J>> {
        self.desk
    }
}
