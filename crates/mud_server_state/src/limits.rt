//! The limits of a server.

/// The limits of a server.
#[derive(Clone, Copy, Debug, PartialEq, Eq)]
pub struct Limits {
    /// The greatest number of simultaneous sessions, 0 to 64.
    pub sessions: u32,
    /// The greatest number of simultaneous sessions of one address; 0 means no limit.
    pub per_address: u32,
    /// The number of sessions after which the server ends; 0 means that it never ends by itself.
    pub total: u32,
    /// True if only sessions that became a player's count for the total.
    pub counts_players: bool,
    /// The number of workers of the guide, 0 to 8; the answers do not depend on it.
    pub workers: u32,
    /// The capacity of the history, 1 to 65,536.
    pub capacity: u32,
    /// The number of seconds without input after which a session ends; 0 means no limit.
    pub idle: u32,
    /// The number of seconds after which a session without a player ends; 0 means no limit.
    pub unnamed: u32,
}
