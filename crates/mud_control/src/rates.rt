//! The rates of a server's limits.

/// The rates of a server's limits; 0 means no limit. A burst of lines is what the rate gives in ten seconds. For
/// changes it is what the rate gives in ten minutes, for connections and for changes beyond the limits in one minute,
/// and for work in four seconds.
#[derive(Clone, Copy, Debug, PartialEq, Eq)]
pub struct Rates {
    /// The number of lines of a session that are answered in a second.
    pub lines_per_second: u32,
    /// The number of changes that a session makes in a minute.
    pub changes_per_minute: u32,
    /// The number of lines of all sessions of an address that are answered in a second.
    pub address_lines_per_second: u32,
    /// The number of changes that all sessions of an address make in a minute.
    pub address_changes_per_minute: u32,
    /// The number of changes beyond these limits that all sessions of the server make in a minute.
    pub excess_changes_per_minute: u32,
    /// The number of connections of an address that the server accepts in a minute.
    pub connects_per_minute: u32,
    /// The number of milliseconds in a second that the server works on the lines of a session.
    pub work_per_second: u32,
}

/// The number of seconds in a minute.
pub(crate) const MINUTE: u32 = 60;

/// The burst of lines in seconds, and that of changes in minutes.
pub(crate) const LINES_AT_ONCE: u32 = 10;

pub(crate) const CHANGES_AT_ONCE: u32 = 10;

/// The burst of work in seconds.
pub(crate) const WORK_AT_ONCE: u32 = 4;

impl Rates {
    /// No limits.
    pub const NONE: Rates = Rates {
        lines_per_second: 0,
        changes_per_minute: 0,
        address_lines_per_second: 0,
        address_changes_per_minute: 0,
        excess_changes_per_minute: 0,
        connects_per_minute: 0,
        work_per_second: 0,
    };
}
