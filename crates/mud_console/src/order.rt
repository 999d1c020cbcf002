//! The orders of a host.

ghost use Rattle.std.specs.Prelude.{◌≡◌, option_map};
ghost use Rattle.mud_console.specs.Order.{asked_of, asked_in, asked_alone, asked_in_time, asked_with, word_of, rest_of};

use crate::texts::{can_be_told, number_in};

/// An order.
#[derive(Clone, Copy, Debug)]
pub enum Order<'a> {
    /// Print the status of the server.
    Status,
    /// List the sessions.
    Sessions,
    /// End the session with this number.
    End(u32),
    /// Ban this address or network.
    Ban(&'a str),
    /// Lift the ban of this address or network.
    Unban(&'a str),
    /// List the bans.
    Bans,
    /// Announce this text to each player.
    Tell(&'a str),
    /// Stop the server.
    Stop,
    /// Stop the server after this many seconds.
    StopIn(u32),
    /// Cancel an announced stop.
    Stay,
    /// Turn to the next volume of the journal.
    Volume,
    /// Open the log file again.
    Reopen,
    /// List the orders.
    Help,
}

/// The lines of `help`, one for each order.
pub const HELP: [&str; 13] = [
    "status            prints the status of the server",
    "sessions          lists the sessions",
    "end N             ends session N",
    "ban ADDRESS       bans an address or a network, and ends its sessions",
    "unban ADDRESS     lifts that ban",
    "bans              lists the bans",
    "tell TEXT         announces a text: each player reads (host: TEXT)",
    "stop              stops the server",
    "stop in N         announces a stop, and stops the server in N seconds",
    "stay              cancels that stop",
    "volume            turns to the next volume of the journal",
    "reopen            opens the log file again",
    "help              prints these lines",
];

// Returns the first word of a line, and the text after it without the blanks around it.
fn parts(line: &str) -> (&str, &str)
    ensures word { result.0.now ≡ word_of line.now }
    ensures rest { result.1.now ≡ rest_of line.now }
{
    let line = line.trim();
    match line.split_once(' ') {
        Some((word, rest)) => (word, rest.trim_start()),
        None => (line, ""),
    }
}

// Returns the order of a word without an argument.
fn alone(word: &str) -> Option<Order<'static>>
    ensures { option_map asked_of result ≡ asked_alone word.now }
{
    match word {
        "status" => Some(Order::Status),
        "sessions" => Some(Order::Sessions),
        "bans" => Some(Order::Bans),
        "stop" => Some(Order::Stop),
        "stay" => Some(Order::Stay),
        "volume" => Some(Order::Volume),
        "reopen" => Some(Order::Reopen),
        "help" => Some(Order::Help),
        _ => None,
    }
}

// Returns the order of `stop` with an argument: `in` and a number of seconds.
fn in_time(rest: &str) -> Option<Order<'static>>
    ensures { option_map asked_of result ≡ asked_in_time rest.now }
{
    let (word, seconds) = parts(rest);
    if word == "in" {
        Some(Order::StopIn(number_in(seconds)?))
    } else {
        None
    }
}

// Returns the order of a word with an argument.
fn given<'a>(word: &str, rest: &'a str) -> Option<Order<'a>>
    ensures { option_map asked_of result ≡ asked_with word.now rest.entry.now }
{
    match word {
        "end" => Some(Order::End(number_in(rest)?)),
        "ban" => Some(Order::Ban(rest)),
        "unban" => Some(Order::Unban(rest)),
        "tell" if can_be_told(rest) => Some(Order::Tell(rest)),
        "stop" => in_time(rest),
        _ => None,
    }
}

/// Returns the order of a line, or `None` if the line is not an order.
pub fn order_of(line: &str) -> Option<Order<'_>>
    ensures { option_map asked_of result ≡ asked_in line.entry.now }
{
    let (word, rest) = parts(line);
    if rest.is_empty() {
        alone(word)
    } else {
        given(word, rest)
    }
}
