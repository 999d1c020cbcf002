//! Options of a connection's socket.

use libc::net::{
    IPPROTO_TCP, SO_KEEPALIVE, SOL_SOCKET, TCP_KEEPCNT, TCP_KEEPIDLE, TCP_KEEPINTVL,
    TCP_USER_TIMEOUT, setsockopt,
};
use std::net::TcpStream;
use std::os::fd::AsRawFd;

/// The number of silent seconds before the first keep-alive probe.
const PROBE_AFTER_SECONDS: i32 = 60;

/// The number of seconds between two probes.
const PROBE_SECONDS: i32 = 15;

/// The number of unanswered probes after which the connection ends.
const PROBES: i32 = 4;

/// The number of milliseconds after which the connection ends if sent bytes are not acknowledged.
const UNACKNOWLEDGED_MILLISECONDS: i32 = 120_000;

// Returns the value of a numeric option.
fn number(number: i32) -> [u8; 16] {
    let mut value = [0u8; 16];
    value[..4].copy_from_slice(&number.to_ne_bytes());
    value
}

/// Enables keep-alive, so that the system detects a vanished peer (RFC 1122, section 4.2.3.6): a silent one within two
/// and a half minutes, and one that owes an acknowledgement within two. Returns whether the options could be set.
pub(crate) fn probe(stream: &TcpStream) -> bool {
    let fd = stream.as_raw_fd();
    unsafe {
        setsockopt(fd, SOL_SOCKET, SO_KEEPALIVE, &number(1), 4) == 0
            && setsockopt(
                fd,
                IPPROTO_TCP,
                TCP_KEEPIDLE,
                &number(PROBE_AFTER_SECONDS),
                4,
            ) == 0
            && setsockopt(fd, IPPROTO_TCP, TCP_KEEPINTVL, &number(PROBE_SECONDS), 4) == 0
            && setsockopt(fd, IPPROTO_TCP, TCP_KEEPCNT, &number(PROBES), 4) == 0
            && setsockopt(
                fd,
                IPPROTO_TCP,
                TCP_USER_TIMEOUT,
                &number(UNACKNOWLEDGED_MILLISECONDS),
                4,
            ) == 0
    }
}
