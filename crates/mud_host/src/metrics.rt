//! HTTP connections that ask for the status.

use crate::host::Host;
use mud_socket::{Entrance, HeadReader, Socket, rest, set_up};
use mud_status::{MOST_HEAD, Sought, reply, seek};
use std::alloc::{AllocError, Global};
use std::io::{ErrorKind, Read};
use std::net::{TcpListener, TcpStream};
use std::sync::Wait;
use std::time::{Clock, Duration};

// The number of bytes of one read.
const PIECE_LEN: usize = 1_024;

// The pause after a failed call of the listener.
const REST_MILLISECONDS: u64 = 100;

// Reads a request. Returns its target, and whether the answer has a body, or `None` if it does not come in time.
fn hear<R: Wait + Clock>(rt: &R, alloc: Global, socket: &Socket) -> Option<(Sought, bool)> {
    let mut reader = HeadReader::new(rt, socket);
    let mut head = Vec::new(alloc);
    let mut piece = [0u8; PIECE_LEN];
    for _ in 0..MOST_HEAD {
        let count = match reader.read(&mut piece) {
            Ok(count) => count,
            Err(error) if error.kind() == ErrorKind::Interrupted => continue,
            Err(_) => return None,
        };
        if count == 0 {
            return None;
        }
        head.extend_from_slice(&piece[..count]).ok()?;
        if let Some(found) = seek(&head) {
            return Some(found);
        }
    }
    None
}

// Returns the answer to a request. The only error is out of memory.
fn answer_to<R: AllocGlobal + Wait + Clock>(
    host: &Host<R>,
    sought: Sought,
    has_body: bool,
) -> Result<String, AllocError> {
    let since = host.since()?;
    reply(
        host.rt.alloc(),
        sought,
        has_body,
        &host.status(since.as_str()),
    )
}

// Returns the answer to the request that comes, if one comes in time.
fn answer_at<R: AllocGlobal + Wait + Clock>(host: &Host<R>, socket: &Socket) -> Option<String> {
    let (sought, has_body) = hear(&host.rt, host.rt.alloc(), socket)?;
    answer_to(host, sought, has_body).ok()
}

// Answers the request of a connection, and ends the connection.
fn serve<R: AllocGlobal + Wait + Clock>(host: &Host<R>, socket: &Socket) {
    match answer_at(host, socket) {
        Some(text) => socket.answer(&host.rt, text.as_str().as_bytes()),
        None => socket.shut(),
    }
}

/// Answers the request of a connection, and closes the connection.
pub(crate) fn attend<R: AllocGlobal + Wait + Clock>(host: &Host<R>, stream: TcpStream) {
    if !set_up(&stream) {
        return;
    }
    let socket = Socket::new(host.rt.alloc(), stream, Entrance::Web);
    serve(host, &socket);
}

/// Returns the next connection. After a failed call it tries again.
pub(crate) fn next_asker<R: Wait>(rt: &R, listener: &TcpListener) -> TcpStream {
    for _ in rt.forever() {
        match listener.accept() {
            Ok((stream, _)) => return stream,
            Err(_) => rest(rt, Duration::from_millis(REST_MILLISECONDS)),
        }
    }
    unreachable!()
}
