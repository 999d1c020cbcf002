//! The state of a reader thread that outlives a volume.

use mud_control::Pace;
use mud_socket::Patience;
use mud_web::FirstLine;
use std::net::SocketAddr;
use std::time::Duration;

/// The knowledge of a reader thread about its session: when it began, how long the log waits to name it, its time
/// limits and its rate limits. Flags say what is known about its first line, whether it has begun, was named in the
/// log, counts as a player's, and has a player. It also has that player and the time of its last wait. At a turn it has
/// the input that it read and did not serve, and a flag that is true if lines wait.
pub struct Habits {
    pub peer: SocketAddr,
    pub since: Duration,
    pub since_seconds: u64,
    pub moment: Patience,
    pub patience: Patience,
    pub first_line: FirstLine,
    pub has_begun: bool,
    pub is_named: bool,
    pub is_counted: bool,
    pub pace: Pace,
    pub has_player: bool,
    pub player: Option<(u32, String)>,
    pub last_wait: Option<Duration>,
    pub unread: Vec<u8>,
    pub has_more: bool,
}

// Written out, so that a proof about dropping it has one step instead of one for each field.
impl Drop for Habits {
    fn drop(self) {
        let Habits {
            peer: _,
            since: _,
            since_seconds: _,
            moment,
            patience,
            first_line,
            has_begun: _,
            is_named: _,
            is_counted: _,
            pace,
            has_player: _,
            player,
            last_wait: _,
            unread,
            has_more: _,
        } = self;
        drop(moment);
        drop(patience);
        drop(first_line);
        drop(pace);
        drop(player);
        drop(unread);
    }
}
