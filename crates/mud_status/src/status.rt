//! The status of a server at one moment.

ghost use Rattle.std.specs.Prelude.{◌≡◌};

/// The health of a server.
#[derive(Clone, Copy, Debug, PartialEq, Eq)]
pub enum Health {
    /// It accepts connections and changes.
    Well,
    /// It is stopping.
    Stopping,
    /// Its journal has failed.
    JournalFault,
    /// Its history is full.
    Full,
}

/// The status of a server at one moment. All counts of events begin at its start.
#[derive(Clone, Copy, Debug)]
pub struct Status<'a> {
    /// The version of the program.
    pub version: &'a str,
    /// The time of its start, in the format of RFC 3339.
    pub since: &'a str,
    /// The time of its start, in seconds since 1970 (UTC).
    pub since_seconds: u64,
    /// Its health.
    pub health: Health,
    /// The number of changes in its history, and the greatest number.
    pub changes: u64,
    pub most_changes: u64,
    /// The number of changes that the journal has synced; 0 without a journal.
    pub synced: u64,
    /// The number of object numbers in use, and the greatest number.
    pub objects: u64,
    pub most_objects: u64,
    /// The number of sessions, and the greatest number.
    pub sessions: u64,
    pub most_sessions: u64,
    /// The number of sessions with a player.
    pub players: u64,
    /// The number of sessions that have begun.
    pub begun: u64,
    /// The number of refused connections by reason: there was no free place, the address had reached its limit of
    /// sessions, it is banned, or it connected too often. The last reason is a browser's request at the Telnet port.
    pub refused_full: u64,
    pub refused_address: u64,
    pub refused_banned: u64,
    pub refused_often: u64,
    pub refused_request: u64,
    /// The number of answered lines, of changes made, and of lines that had to wait.
    pub lines: u64,
    pub made: u64,
    pub waited: u64,
    /// The number of the volume of the journal, and the changes that the world takes of it by itself, if it takes most
    /// of it; otherwise 0.
    pub volume: u64,
    pub taken: u64,
    /// The number of turns to a next volume, and of those that were called off. The last one is the pause of the last
    /// turn, in milliseconds.
    pub turns: u64,
    pub calls_off: u64,
    pub pause_millis: u64,
}

impl Health {
    ghost use Rattle.mud_status.specs.Status.{health_word};
    ghost use Rattle.mud_status.specs.Metrics.{is_well};

    /// Returns 1 if the server is well, and 0 otherwise.
    pub fn as_number(self) -> u64
        ensures { result ≡ is_well self }
    {
        match self {
            Health::Well => 1,
            Health::Stopping | Health::JournalFault | Health::Full => 0,
        }
    }

    /// Returns the word for it.
    pub fn word(self) -> &'static str
        ensures { result.now ≡ health_word self }
    {
        match self {
            Health::Well => "ok",
            Health::Stopping => "stopping",
            Health::JournalFault => "journal-fault",
            Health::Full => "history-full",
        }
    }
}
