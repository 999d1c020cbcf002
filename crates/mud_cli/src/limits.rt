//! Limits that several command lines share.

ghost use Rattle.std.specs.Prelude.{IfSome};
ghost use Rattle.mud_cli.specs.Service.{AreWithin};

use clap::ArgMatches;

/// The greatest capacity of a history: the greatest number of changes in a history's text (docs/HISTORY.md).
pub const MOST_CAPACITY: u32 = 65_536;

/// The greatest number of workers (docs/SERVER.md).
pub const MOST_WORKERS: u32 = 8;

/// The greatest value of `--total`, the number of sessions after which a server ends (docs/SERVER.md).
pub const MOST_TOTAL: u32 = 65_536;

/// The greatest value of `--per-address`: the number of places for sessions (docs/SERVER.md).
pub const MOST_PER_ADDRESS: u32 = 64;

/// The greatest value of a rate.
pub const MOST_RATE: u32 = 100_000;

/// The rates of a server's limits; 0 means no limit.
#[derive(Clone, Copy)]
pub struct ChosenRates {
    /// The number of lines of a session that are answered in a second.
    pub lines_per_second: u32,
    /// The number of changes that a session makes in a minute.
    pub changes_per_minute: u32,
    /// The number of lines of all sessions of an address that are answered in a second.
    pub address_lines_per_second: u32,
    /// The number of changes that all sessions of an address make in a minute.
    pub address_changes_per_minute: u32,
    /// The number of changes beyond these limits that all sessions of the server make in a minute.
    pub excess_changes_per_minute: u32,
    /// The number of connections of an address that the server accepts in a minute.
    pub connects_per_minute: u32,
    /// The number of milliseconds in a second that the server works on the lines of a session.
    pub work_per_second: u32,
}

// Returns the rates of the command line.
pub(crate) fn rates_in(matches: &ArgMatches) -> Option<ChosenRates> {
    Some(ChosenRates {
        lines_per_second: matches.get_one::<u32>("lines-per-second")?,
        changes_per_minute: matches.get_one::<u32>("changes-per-minute")?,
        address_lines_per_second: matches.get_one::<u32>("address-lines-per-second")?,
        address_changes_per_minute: matches.get_one::<u32>("address-changes-per-minute")?,
        excess_changes_per_minute: matches.get_one::<u32>("excess-changes-per-minute")?,
        connects_per_minute: matches.get_one::<u32>("connects-per-minute")?,
        work_per_second: matches.get_one::<u32>("work-per-second")?,
    })
}

/// The number of workers of a service, and the capacity of its history.
#[derive(Clone, Copy)]
pub struct ChosenLimits {
    /// The number of workers that answer a question, 0 to 8.
    pub workers: u32,
    /// The greatest number of changes in the history, 1 to 65,536.
    pub capacity: u32,
}

// Returns the numbers that were read, if each is within its range.
pub(crate) fn limits_in(matches: &ArgMatches) -> Option<ChosenLimits>
    ensures { IfSome result AreWithin }
{
    match (
        matches.get_one::<u32>("workers"),
        matches.get_one::<u32>("capacity"),
    ) {
        (Some(workers @ 0..=MOST_WORKERS), Some(capacity @ 1..=MOST_CAPACITY)) => {
            Some(ChosenLimits { workers, capacity })
        }
        _ => None,
    }
}
