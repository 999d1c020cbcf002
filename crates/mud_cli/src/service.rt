//! The command line of `mud_serve`.

ghost use Rattle.std.specs.Prelude.{◌≤◌, IfOk, IfSome};
ghost use Rattle.mud_cli.specs.Service.{AreWithin, IsServed};

use crate::argument::{Argument, CAPACITY, FLAG, LOAD, OPTION, WORKERS};
use crate::fault::CommandFault;
use crate::form::{Form, program_of};
use crate::limits::{ChosenLimits, ChosenRates, MOST_TOTAL, limits_in, rates_in};
use crate::listen::{CHECK, LISTEN};
use crate::matches::{Matched, Unfit};
use crate::origin::is_origin;
use clap::error::ErrorKind;
use clap::{ArgMatches, Command};
use std::alloc::{AllocError, Global};

/// The task of `mud_serve`.
#[derive(Clone, Copy)]
pub enum Service<'a> {
    /// Answer a script.
    Script(Scripting<'a>),
    /// Serve connections.
    Listen(Listening<'a>),
}

/// The options of `mud_serve script`.
#[derive(Clone, Copy)]
pub struct Scripting<'a> {
    /// The options that `listen` has too.
    pub limits: ChosenLimits,
    /// The file of the history to continue, if there is one.
    pub load: Option<&'a str>,
    /// True if that file is a copy of a journal.
    pub is_journal: bool,
    /// The word that means the player, if there is one; otherwise the player is #1.
    pub player: Option<&'a str>,
    /// The file to make with the history at the script's end, if there is one.
    pub history: Option<&'a str>,
}

/// The options of `mud_serve listen`.
#[derive(Clone, Copy)]
pub struct Listening<'a> {
    /// The options that `script` has too.
    pub limits: ChosenLimits,
    /// The address of this machine to listen on.
    pub address: &'a str,
    /// The port; 0 picks a free port.
    pub port: u16,
    /// The web listener, if there is one.
    pub web: Option<WebListening<'a>>,
    /// The number of sessions after which the server ends, up to 65,536; 0 means that it never ends by itself.
    pub total: u32,
    /// True if `total` counts only the sessions that became a player's.
    pub count_players: bool,
    /// The greatest number of simultaneous sessions of one address, up to 64; 0 means no limit but the number of
    /// places.
    pub per_address: u32,
    /// The number of seconds without a line after which a session ends; 0 means no limit.
    pub idle: u32,
    /// The number of seconds after which a session without a player ends; 0 means no limit.
    pub unnamed: u32,
    /// The file of the history to continue, if there is one.
    pub load: Option<&'a str>,
    /// The file of the journal, if the server keeps one.
    pub journal: Option<&'a str>,
    /// True if standard input is a console, whose end ends the server.
    pub console: bool,
    /// The path of the Unix socket for consoles, if there is one.
    pub control: Option<&'a str>,
    /// The listener for health and metrics, if there is one.
    pub status: Option<StatusListening<'a>>,
    /// The log file, or `None` for standard error.
    pub log: Option<&'a str>,
    /// The file of the bans, if they are kept.
    pub bans: Option<&'a str>,
    /// The rates of the limits.
    pub rates: ChosenRates,
    /// True if the program only prints what it would do.
    pub is_check: bool,
}

/// The options of the listener for health and metrics.
#[derive(Clone, Copy)]
pub struct StatusListening<'a> {
    /// The address of this machine to listen on.
    pub address: &'a str,
    /// The port; 0 picks a free port.
    pub port: u16,
}

/// The options of the web listener.
#[derive(Clone, Copy)]
pub struct WebListening<'a> {
    /// The address of this machine to listen on.
    pub address: &'a str,
    /// The port; 0 picks a free port.
    pub port: u16,
    /// The origin of the page, as a browser sends it (RFC 6454, section 6.2).
    pub origin: &'a str,
}

/// Reads the words of `mud_serve`. The first word is the program's name.
pub fn service_of<'a>(alloc: Global, words: &'a [String]) -> Result<Service<'a>, CommandFault>
    ensures { IfOk result IsServed }
{
    let mut matched = Matched::new(alloc, command(alloc), words)?;
    let task = served_in(&matched.words);
    matched.fit(alloc, ErrorKind::ValueValidation, task)
}

const NO_ORIGIN: &str =
    "an origin is a scheme, :// and a host as browsers write them: http://localhost:8000";

const NO_NUMBER: &str = "a number is out of its range";

// Returns the service that the matched words name, or the message about a value that it can't have.
fn served_in<'a>(matches: &ArgMatches<'a>) -> Result<Service<'a>, Unfit>
    ensures { IfOk result IsServed }
{
    match service_in(matches) {
        Some(service) if has_origin(&service) => Ok(service),
        Some(_) => Err(Unfit::Told(NO_ORIGIN)),
        None => Err(Unfit::Told(NO_NUMBER)),
    }
}

// Returns whether the web listener, if there is one, has an origin that a browser can send.
fn has_origin(service: &Service<'_>) -> bool {
    match service {
        Service::Listen(listening) => match listening.web {
            Some(web) => is_origin(web.origin),
            None => true,
        },
        Service::Script(_) => true,
    }
}

// Returns the service that the matched words name, if each number is within its range.
fn service_in<'a>(matches: &ArgMatches<'a>) -> Option<Service<'a>>
    ensures { IfSome result IsServed }
{
    if let Some(listen) = matches.subcommand_matches(LISTENING) {
        return match listening_in(listen) {
            Some(listening) => Some(Service::Listen(listening)),
            None => None,
        };
    }
    match scripting_in(matches.subcommand_matches("script")?) {
        Some(scripting) => Some(Service::Script(scripting)),
        None => None,
    }
}

// Returns the options of a script, if each number is within its range.
fn scripting_in<'a>(script: &ArgMatches<'a>) -> Option<Scripting<'a>>
    ensures { IfSome result (λ scripting. AreWithin scripting.limits) }
{
    Some(Scripting {
        limits: limits_in(script)?,
        load: script.get_str("load"),
        is_journal: script.get_flag("recover"),
        player: script.get_str("as"),
        history: script.get_str("history"),
    })
}

// Returns the options of a server, if each number is within its range.
fn listening_in<'a>(listen: &ArgMatches<'a>) -> Option<Listening<'a>>
    ensures limits { IfSome result (λ listening. AreWithin listening.limits) }
    ensures total { IfSome result (λ listening. listening.total ≤ MOST_TOTAL) }
{
    let total = match listen.get_one::<u32>("total") {
        Some(total @ 0..=MOST_TOTAL) => total,
        _ => return None,
    };
    let address = listen.get_str("address")?;
    Some(Listening {
        limits: limits_in(listen)?,
        address,
        port: listen.get_one::<u16>("port")?,
        web: web_in(listen, address),
        total,
        count_players: listen.get_flag("count-players"),
        per_address: listen.get_one::<u32>("per-address")?,
        idle: listen.get_one::<u32>("idle")?,
        unnamed: listen.get_one::<u32>("unnamed")?,
        load: listen.get_str("load"),
        journal: listen.get_str("journal"),
        console: listen.get_flag("console"),
        control: listen.get_str("control"),
        status: status_in(listen),
        log: listen.get_str("log"),
        bans: listen.get_str("bans"),
        rates: rates_in(listen)?,
        is_check: listen.get_flag(CHECK),
    })
}

// Returns the web listener that was asked for. It listens on this address if the words name no other.
fn web_in<'a>(listen: &ArgMatches<'a>, address: &'a str) -> Option<WebListening<'a>> {
    let address = match listen.get_str("web-address") {
        Some(own) => own,
        None => address,
    };
    Some(WebListening {
        address,
        port: listen.get_one::<u16>("web-port")?,
        origin: listen.get_str("web-origin")?,
    })
}

// Returns the options of the listener for health and metrics, if it is wanted.
fn status_in<'a>(listen: &ArgMatches<'a>) -> Option<StatusListening<'a>> {
    Some(StatusListening {
        address: listen.get_str("status-address")?,
        port: listen.get_one::<u16>("status-port")?,
    })
}

// Builds the `clap` command.
fn command<'a>(alloc: Global) -> Result<Command<'a>, AllocError> {
    program_of(alloc, "mud_serve", "A server of text worlds", forms())
}

// Returns the forms of `mud_serve`.
pub(crate) fn forms() -> &'static [Form<'static>] {
    &FORMS
}

// The name of the form for servers.
pub(crate) const LISTENING: &str = "listen";

// The forms of `mud_serve`.
static FORMS: [Form<'static>; 2] = [
    Form {
        name: "script",
        about: "Answers the lines of standard input, as the Wizard in a new world, or as a player of a history",
        arguments: &[SCRIPT_LOAD, RECOVER, AS, HISTORY, WORKERS, CAPACITY],
    },
    Form {
        name: LISTENING,
        about: "Serves players who come by Telnet or from a browser, up to 64 at once, in one world",
        arguments: &LISTEN,
    },
];

// The history that a script continues.
const SCRIPT_LOAD: Argument = Argument {
    help: "The history that the script continues",
    ..LOAD
};

// Says that the loaded file is a journal's copy.
const RECOVER: Argument = Argument {
    name: "recover",
    beside: &["load"],
    help: "FILE is a copy of a journal: it has no last line, and its end may be torn",
    ..FLAG
};

// The player of a script.
const AS: Argument = Argument {
    name: "as",
    value: &["NAME"],
    help: "The player who types, by name or as #N; the Wizard, #1, if none is named",
    ..OPTION
};

// The file that a script makes.
const HISTORY: Argument = Argument {
    name: "history",
    value: &["FILE"],
    help: "The file to make with the history at the end; it must not exist",
    ..OPTION
};
