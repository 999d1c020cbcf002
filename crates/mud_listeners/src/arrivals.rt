//! Accepts connections from the listeners.

use crate::doors::Listeners;
use crate::options::bound_waits;
use crate::ready::wait_for_either;
use libc::{EBADF, EINVAL, ENOTSOCK};
use log::{Log, error, warn};
use mud_socket::{Entrance, canonical, rest};
use std::io::{Error, ErrorKind};
use std::net::{SocketAddr, TcpListener, TcpStream};
use std::sync::Wait;
use std::time::Duration;

// How long a listener rests after a fault, such as too many open files.
const REST_MILLISECONDS: u64 = 100;

/// The listeners, which close when this is dropped, and whether the last call was a fault.
pub struct Arrivals {
    telnet: TcpListener,
    web: Option<TcpListener>,
    // The listener whose turn it is when both have a connection.
    is_web_next: bool,
    is_failing: bool,
}

impl Drop for Arrivals {
    fn drop(self) {
        let Arrivals {
            telnet,
            web,
            is_web_next: _,
            is_failing: _,
        } = self;
        drop(telnet);
        drop(web);
    }
}

/// The result of a call for a connection.
#[derive(Drop)]
pub enum Arrival {
    /// A Telnet connection, and the address of its other side. An IPv4-mapped address is given as IPv4.
    Telnet(TcpStream, SocketAddr),
    /// A browser's connection, and the address of its other side. An IPv4-mapped address is given as IPv4.
    Web(TcpStream, SocketAddr),
    /// No connection so far.
    Nobody,
    /// No connection, and there will never be one.
    Never,
}

// Returns whether a listener can never give a connection again: it is closed, or is not a listener.
fn is_for_good(error: &Error) -> bool {
    matches!(error.raw_os_error(), Some(EBADF | EINVAL | ENOTSOCK))
}

// Sets the timeout of the listener's calls, if there is a listener. Returns whether it could be set.
fn is_bound(listener: Option<&TcpListener>) -> bool {
    match listener {
        Some(listener) => bound_waits(listener),
        None => true,
    }
}

impl Arrivals {
    /// Returns the connections of the listeners, with a short timeout for each call, or `None` if that can't be set.
    pub fn new(listeners: Listeners) -> Option<Arrivals> {
        let Listeners { telnet, web } = listeners;
        if !bound_waits(&telnet) || !is_bound(web.as_ref()) {
            return None;
        }
        Some(Arrivals {
            telnet,
            web,
            is_web_next: false,
            is_failing: false,
        })
    }

    /// Waits a moment for the next connection. A fault is logged once, until a connection comes again.
    pub fn next<R: Wait + Log>(&mut self, rt: &R) -> Arrival {
        match self.entrance(rt) {
            Some(Entrance::Telnet) => self.accept(rt, Entrance::Telnet),
            Some(Entrance::Web) => self.accept(rt, Entrance::Web),
            None => Arrival::Nobody,
        }
    }

    // Returns the listener that has the next connection. Without a web listener it does not wait.
    fn entrance<R: Wait>(&mut self, rt: &R) -> Option<Entrance> {
        let Some(web) = &self.web else {
            return Some(Entrance::Telnet);
        };
        let Some(ready) = wait_for_either(&self.telnet, web) else {
            rest(rt, Duration::from_millis(REST_MILLISECONDS));
            return None;
        };
        let entrance = ready.turn(self.is_web_next)?;
        self.is_web_next = entrance == Entrance::Telnet;
        Some(entrance)
    }

    // Accepts the next connection there.
    fn accept<R: Wait + Log>(&mut self, rt: &R, entrance: Entrance) -> Arrival {
        let accepted = match (&self.web, entrance) {
            (Some(web), Entrance::Web) => web.accept(),
            _ => self.telnet.accept(),
        };
        match accepted {
            Ok((stream, peer)) => {
                self.is_failing = false;
                match entrance {
                    Entrance::Telnet => Arrival::Telnet(stream, canonical(peer)),
                    Entrance::Web => Arrival::Web(stream, canonical(peer)),
                }
            }
            Err(error) if is_for_good(&error) => {
                let by = entrance.word();
                error!(rt; "closed by={by} why=\"{error}\"");
                Arrival::Never
            }
            Err(error) => {
                self.pass_over(rt, &error);
                Arrival::Nobody
            }
        }
    }

    // Skips a call without a connection: none came, it was aborted, or the system lacks resources.
    fn pass_over<R: Wait + Log>(&mut self, rt: &R, error: &Error) {
        let kind = error.kind();
        if matches!(
            kind,
            ErrorKind::WouldBlock | ErrorKind::Interrupted | ErrorKind::ConnectionAborted
        ) {
            return;
        }
        if !self.is_failing {
            warn!(rt; "no-accept why=\"{error}\"");
            self.is_failing = true;
        }
        rest(rt, Duration::from_millis(REST_MILLISECONDS));
    }
}
