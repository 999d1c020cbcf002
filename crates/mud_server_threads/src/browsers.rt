//! Browsers: a thread of its own reads each browser's head, and continues as the reader thread of a session if the
//! browser plays.

use crate::ending::leave;
use crate::server::{Begun, Server};
use log::Log;
use mud_server_session::Converses;
use mud_server_state::NoPlace;
use mud_socket::{Entrance, HeadReader, Heard, Socket, hear, refuse, set_up};
use mud_web::Channel;
use std::alloc::{AllocError, Global};
use std::net::{IpAddr, SocketAddr, TcpStream};
use std::sync::{Arc, Wait};
use std::thread::Threads;
use std::time::Clock;

/// A browser whose head is being read: its socket, its address, and its chair.
///
/// They are one struct, so that a thread's closure captures few values. A proof of its own shows the prover that it may
/// cross threads.
#[derive(Drop)]
struct Caller {
    socket: Arc<Socket>,
    address: IpAddr,
    chair: u64,
}

impl<'s, E, S, C, R> Server<'s, E, S, C, R>
where
    S: Converses<C> + Sync + 's,
    C: Drop + Send + Sync + 's,
    R: Threads + Wait + Log + Clock + Sync + 's,
{
    // Admits a browser to the place, and runs the reader thread of its session to its end.
    fn play_at(&self, at: usize, socket: Arc<Socket>, answer: &[u8], first: &[u8]) {
        let state = self.state;
        let Some(begun) = self.open(at, socket) else {
            state.release_place(self.rt, at);
            self.settle(false);
            return;
        };
        let Begun {
            kept,
            reads,
            tells,
            sleeper,
            number,
        } = begun;
        let has_begun = self.state.socket(&*reads).send(self.rt, answer).is_ok()
            && self.begin_telling(tells, sleeper);
        self.settle(has_begun);
        if has_begun {
            self.read(&reads, at, number, first);
        } else {
            leave(self.rt, state, &*kept, at);
        }
    }

    // Admits a browser, and closes its web socket at once with the reason why there is no place. A page can't learn why
    // a request for a web socket was refused.
    fn turn_away(&self, socket: &Socket, no_place: NoPlace, answer: Vec<u8>) {
        let mut answer = answer;
        match push_close(self.alloc, no_place, &mut answer) {
            Ok(()) => socket.answer(self.rt, &answer),
            Err(_) => socket.shut(),
        }
    }

    // Serves a browser that plays, whose head was read at this chair, or turns it away if there is no place.
    fn play(
        &self,
        chair: u64,
        socket: Arc<Socket>,
        address: IpAddr,
        answer: Vec<u8>,
        first: &[u8],
    ) {
        match self.admit(address) {
            Ok(at) => {
                self.state.shared().lobby.release_chair(self.rt, chair);
                self.play_at(at, socket, &answer, first);
            }
            Err(no_place) => {
                self.turn_away(&socket, no_place, answer);
                self.state.shared().lobby.release_chair(self.rt, chair);
            }
        }
    }

    // Reads the request of a browser.
    fn heard(&self, socket: &Socket) -> Heard {
        let mut reader = HeadReader::new(self.rt, socket);
        hear(
            self.rt,
            self.alloc,
            &mut reader,
            self.state.shared().lobby.origin(),
        )
    }

    // Reads the request of a browser, and answers it.
    fn attend(&self, caller: Caller) {
        let (rt, lobby) = (self.rt, &self.state.shared().lobby);
        let Caller {
            socket,
            address,
            chair,
        } = caller;
        match self.heard(&socket) {
            Heard::Play { answer, rest } => {
                self.play(chair, socket, address, answer, &rest);
                return;
            }
            Heard::Page(body) => socket.answer(rt, body.part(lobby.page())),
            Heard::Refused(refusal, body) => {
                let origin = lobby.origin();
                refuse(rt, self.alloc, &socket, origin, refusal, body);
            }
            Heard::Gone => socket.shut(),
        }
        lobby.release_chair(rt, chair);
    }

    // Gives a browser a chair. The lobby shares its socket. Returns `None` if there is no chair.
    fn enter_lobby(&self, stream: TcpStream, address: IpAddr) -> Option<Caller> {
        if !set_up(&stream) {
            return None;
        }
        let socket = Arc::new(self.alloc, Socket::new(self.alloc, stream, Entrance::Web)).ok()?;
        let theirs = Arc::try_clone(&socket).ok()?;
        let shared = self.state.shared();
        let chair = shared
            .lobby
            .take_chair(self.rt, theirs, address, &shared.limits)?;
        Some(Caller {
            socket,
            address,
            chair,
        })
    }

    /// Starts a thread that reads a browser's request. A browser without a chair in the lobby, or with a banned
    /// address, is sent away.
    pub fn receive(&self, stream: TcpStream, peer: SocketAddr) {
        if !self.may_come(peer.ip()) {
            return;
        }
        let Some(caller) = self.enter_lobby(stream, peer.ip()) else {
            return;
        };
        let server = self.again();
        let chair = caller.chair;
        let hearing = self.scope.spawn(move || server.attend(caller));
        if hearing.is_err() {
            self.state.shared().lobby.release_chair(self.rt, chair);
        }
    }
}

// Appends the close of a web socket that has no place.
fn push_close(alloc: Global, no_place: NoPlace, out: &mut Vec<u8>) -> Result<(), AllocError> {
    let mut channel = Channel::new(alloc)?;
    channel.close(no_place.close(), out)
}
