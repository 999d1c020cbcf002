//! The lines of the log (docs/HOSTING.md, "The log").

use log::{Log, info, warn};
use mud_control::{Refusal, Tally};
use mud_socket::{Parting, now};
use std::net::{IpAddr, SocketAddr};
use std::time::{Clock, Duration};

/// Logs that a session began, by this entrance.
pub fn log_begin<R: Log>(rt: &R, number: u32, peer: SocketAddr, by: &str) {
    info!(rt; "begin session={number} from={peer} by={by}");
}

/// Logs that a session waits for a rate limit.
pub fn log_wait<R: Log>(rt: &R, number: u32, peer: SocketAddr) {
    info!(rt; "slow session={number} from={peer}");
}

/// Logs that a session became a player's.
pub fn log_player<R: Log>(rt: &R, number: u32, player: u32, name: &str) {
    info!(rt; "player session={number} player=#{player} name=\"{name}\"");
}

/// Logs that a session got another number in this volume.
pub fn log_number<R: Log>(rt: &R, number: u32, was: u32, volume: u32) {
    info!(rt; "renumber session={number} was={was} volume={volume}");
}

/// Logs the end of a guest's session.
pub fn log_end<R: Log>(rt: &R, number: u32, peer: SocketAddr, why: Parting) {
    info!(rt; "end session={number} from={peer} why={why}");
}

/// Logs the end of a player's session.
pub fn log_end_of<R: Log>(
    rt: &R,
    number: u32,
    peer: SocketAddr,
    why: Parting,
    player: u32,
    name: &str,
) {
    info!(rt; "end session={number} from={peer} why={why} player=#{player} name=\"{name}\"");
}

/// Logs that this volume began with `begun` changes, and the earlier one ended with `was`.
pub(crate) fn log_turn<R: Log>(
    rt: &R,
    volume: u32,
    begun: u32,
    was: usize,
    sessions: u32,
    pause: Duration,
) {
    let millis = pause.as_millis();
    info!(rt; "turn volume={volume} changes={begun} was={was} sessions={sessions} pause-ms={millis}");
}

/// Logs that the turn was called off, and the volume goes on.
pub(crate) fn log_call_off<R: Log>(
    rt: &R,
    volume: u32,
    begun: u32,
    sessions: u32,
    pause: Duration,
) {
    let millis = pause.as_millis();
    info!(rt; "same volume={volume} changes={begun} sessions={sessions} pause-ms={millis}");
}

/// Counts a refused connection. The log names at most one a second, with the count for its reason.
pub fn log_refusal<R: Log + Clock>(rt: &R, tally: &Tally, address: IpAddr, refusal: Refusal) {
    let (count, why) = (tally.count_refusal(refusal), refusal.word());
    if tally.may_log(now(rt)) {
        warn!(rt; "refused from={address} why={why} count={count}");
    }
}
