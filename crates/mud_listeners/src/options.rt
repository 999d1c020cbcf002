//! Options of the listeners.

use libc::net::{SO_RCVTIMEO, SOL_SOCKET, setsockopt};
use std::net::TcpListener;
use std::os::fd::AsRawFd;

/// The timeout of a listener's call in milliseconds. The server checks the stop flag between two calls.
pub const ACCEPT_MILLISECONDS: u32 = 100;

// Returns the value of an option that is a time below one second: its seconds and its microseconds.
fn time(milliseconds: u32) -> [u8; 16] {
    let mut value = [0u8; 16];
    let microseconds = i64::from(milliseconds) * 1000;
    value[8..].copy_from_slice(&microseconds.to_ne_bytes());
    value
}

/// Gives each `accept` of a listener a short timeout. Returns whether it could be set.
pub fn bound_waits(listener: &TcpListener) -> bool {
    let fd = listener.as_raw_fd();
    let wait = time(ACCEPT_MILLISECONDS);
    let was_set = unsafe { setsockopt(fd, SOL_SOCKET, SO_RCVTIMEO, &wait, 16) } == 0;
    was_set && listener.set_nonblocking(false).is_ok()
}
