//! Polls two listeners.

ghost use Rattle.std.specs.Prelude.{◌≡◌};
ghost use Rattle.mud_listeners.specs.inner.Turns.{turn_of};

use crate::options::ACCEPT_MILLISECONDS;
use libc::net::{POLLIN, poll};
use libc::types::pollfd;
use mud_socket::Entrance;
use std::net::TcpListener;
use std::os::fd::AsRawFd;

/// The listeners that have a connection, or a fault.
#[derive(Clone, Copy)]
pub struct Readiness {
    pub telnet: bool,
    pub web: bool,
}

impl Readiness {
    /// Returns the listener to accept from, if one is ready. If both are, it is the one whose turn it is.
    pub fn turn(self, is_web_next: bool) -> Option<Entrance>
        ensures { result ≡ turn_of self.telnet self.web is_web_next }
    {
        match (self.telnet, self.web) {
            (false, false) => None,
            (true, false) => Some(Entrance::Telnet),
            (false, true) => Some(Entrance::Web),
            (true, true) if is_web_next => Some(Entrance::Web),
            (true, true) => Some(Entrance::Telnet),
        }
    }
}

// Returns the poll request for a listener.
fn poll_of(listener: &TcpListener) -> pollfd {
    pollfd {
        fd: listener.as_raw_fd(),
        events: POLLIN,
        revents: 0,
    }
}

/// Waits a moment until one of two listeners has a connection. Returns `None` if polling fails.
pub fn wait_for_either(telnet: &TcpListener, web: &TcpListener) -> Option<Readiness> {
    let mut both = [poll_of(telnet), poll_of(web)];
    if poll(&mut both, ACCEPT_MILLISECONDS as i32) < 0 {
        return None;
    }
    Some(Readiness {
        telnet: both[0].revents != 0,
        web: both[1].revents != 0,
    })
}
