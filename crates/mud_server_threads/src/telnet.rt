//! Telnet connections: each gets a session at once, or is refused.

use crate::ending::leave;
use crate::server::{Begun, Server};
use log::Log;
use mud_server_session::Converses;
use mud_server_state::NoPlace;
use mud_socket::{Entrance, Socket, set_up};
use std::io::Write;
use std::net::{Shutdown, SocketAddr, TcpStream};
use std::sync::{Arc, Wait};
use std::thread::Threads;
use std::time::Clock;

// Refuses a connection for which there is no place.
fn refuse(stream: TcpStream, no_place: NoPlace) {
    let mut stream = stream;
    let _ = stream.write_all(no_place.line().as_bytes());
    let _ = stream.shutdown(Shutdown::Both);
}

impl<'s, E, S, C, R> Server<'s, E, S, C, R>
where
    S: Converses<C> + Sync + 's,
    C: Drop + Send + Sync + 's,
    R: Threads + Wait + Log + Clock + Sync + 's,
{
    // Begins a Telnet session at the place. Returns whether it did.
    fn begin(&self, at: usize, stream: TcpStream) -> bool {
        let (rt, state) = (self.rt, self.state);
        let opened = match Arc::new(
            self.alloc,
            Socket::new(self.alloc, stream, Entrance::Telnet),
        ) {
            Ok(socket) => self.open(at, socket),
            Err(_) => None,
        };
        let Some(begun) = opened else {
            state.release_place(rt, at);
            return false;
        };
        let Begun {
            kept,
            reads,
            tells,
            sleeper,
            number,
        } = begun;
        let has_begun = self.begin_telling(tells, sleeper) && self.begin_reading(reads, at, number);
        if !has_begun {
            leave(rt, state, &*kept, at);
        }
        has_begun
    }

    /// Serves a Telnet connection, or refuses it if there is no place for it or its address is banned. Once its input
    /// is known not to be a browser's request, its reader thread logs that its session has begun.
    pub fn welcome(&self, stream: TcpStream, peer: SocketAddr) {
        if !self.may_come(peer.ip()) || !set_up(&stream) {
            return;
        }
        match self.admit(peer.ip()) {
            Ok(at) => {
                if !self.begin(at, stream) {
                    self.settle(false);
                }
            }
            Err(no_place) => refuse(stream, no_place),
        }
    }
}
