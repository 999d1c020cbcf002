//! The options of `mud_serve listen`.

use crate::argument::{Argument, CAPACITY, FLAG, LOAD, NUMBER, OPTION, WORKERS};
use crate::limits::{MOST_PER_ADDRESS, MOST_RATE, MOST_TOTAL};
use clap::builder::ValueParser;

// The options, in the order of the help text.
pub(crate) const LISTEN: [Argument; 29] = [
    Argument {
        name: "port",
        is_required: true,
        help: "The port, 0 to 65535; 0 is one that is free",
        ..PORT
    },
    Argument {
        name: "address",
        default: &["0.0.0.0"],
        help: "The address of this machine on which it listens",
        ..ADDRESS
    },
    Argument {
        name: "web-port",
        beside: &["web-origin"],
        help: "The port of a door on the web, 0 to 65535; 0 is one that is free",
        ..PORT
    },
    Argument {
        name: "web-origin",
        value: &["URL"],
        beside: &["web-port"],
        help: "Where browsers find that door: http://localhost:8000, without a slash at the end",
        ..OPTION
    },
    Argument {
        name: "web-address",
        beside: &["web-port"],
        help: "The address of this machine on which that door is; where it is left out, that of --address",
        ..ADDRESS
    },
    Argument {
        name: "total",
        parser: ValueParser::Signed(0, MOST_TOTAL as i64),
        help: "After how many sessions it ends and prints its history; 0: it does not",
        ..LIMIT
    },
    Argument {
        name: "count-players",
        help: "Only sessions count for --total that became a player's",
        ..FLAG
    },
    Argument {
        name: "per-address",
        parser: ValueParser::Signed(0, MOST_PER_ADDRESS as i64),
        help: "How many sessions of one address there may be at once; 0: as many as there are places",
        ..LIMIT
    },
    Argument {
        name: "idle",
        help: "After how many seconds without a line from its player a session ends; 0: it does not",
        ..LIMIT
    },
    Argument {
        name: "unnamed",
        help: "After how many seconds a session ends that is nobody's player; 0: it does not",
        ..LIMIT
    },
    LOAD,
    Argument {
        name: "journal",
        value: &["FILE"],
        help: "Where the history is kept while it runs, and goes on from; each change is there before it is told",
        ..OPTION
    },
    Argument {
        name: "console",
        help: "Standard input is a console: its word `help` lists the others, and its end stops the server",
        ..FLAG
    },
    Argument {
        name: "control",
        value: &["PATH"],
        help: "A Unix socket that only its owner can use, made at the start; each connection to it is a console",
        ..OPTION
    },
    Argument {
        name: "status-port",
        help: "The port that answers GET /health and GET /metrics, 0 to 65535; 0 is one that is free",
        ..PORT
    },
    Argument {
        name: "status-address",
        default: &["127.0.0.1"],
        help: "The address of this machine for that port",
        ..ADDRESS
    },
    Argument {
        name: "log",
        value: &["FILE"],
        help: "The file to which it appends its log, in place of standard error; the console's `reopen` opens it again",
        ..OPTION
    },
    Argument {
        name: "bans",
        value: &["FILE"],
        help: "The file of the console's bans, one address or network a line",
        ..OPTION
    },
    Argument {
        name: "lines-per-second",
        default: &["20"],
        help: "How many lines of a session it answers in a second, and ten times as many at once; 0: no limit",
        ..RATE
    },
    Argument {
        name: "changes-per-minute",
        default: &["20"],
        help: "How many changes a session makes in a minute, and ten times as many at once; 0: no limit",
        ..RATE
    },
    Argument {
        name: "address-lines-per-second",
        default: &["60"],
        help: "How many lines of all sessions of an address it answers in a second, likewise; 0: no limit",
        ..RATE
    },
    Argument {
        name: "address-changes-per-minute",
        default: &["80"],
        help: "How many changes all sessions of an address make in a minute, likewise; 0: no limit",
        ..RATE
    },
    Argument {
        name: "excess-changes-per-minute",
        default: &["30"],
        help: "How many changes beyond these limits all sessions make in a minute, and as many at once; 0: no limit",
        ..RATE
    },
    Argument {
        name: "connects-per-minute",
        default: &["60"],
        help: "How many connections of an address it accepts in a minute; 0: no limit",
        ..RATE
    },
    Argument {
        name: "work-per-second",
        default: &["500"],
        help: "How many milliseconds in a second it works on the lines of a session; 0: no limit",
        ..RATE
    },
    WORKERS,
    CAPACITY,
    Argument {
        name: CONFIG,
        value: &["FILE"],
        help: "A settings file in TOML, `NAME = VALUE` a line, with these names; the command line goes before it",
        ..OPTION
    },
    Argument {
        name: CHECK,
        help: "Prints what the server would do, and ends",
        ..FLAG
    },
];

// The options that a settings file can't have.
pub(crate) const CONFIG: &str = "config";

pub(crate) const CHECK: &str = "check";

// The greatest port number (RFC 9293: 16 bits).
const LAST_PORT: i64 = 65_535;

// A port number.
const PORT: Argument = Argument {
    parser: ValueParser::Signed(0, LAST_PORT),
    ..NUMBER
};

// An address of this machine.
const ADDRESS: Argument = Argument {
    value: &["A"],
    ..OPTION
};

// A rate; 0 means no limit.
const RATE: Argument = Argument {
    parser: ValueParser::Signed(0, MOST_RATE as i64),
    ..NUMBER
};

// A limit; 0 means no limit.
const LIMIT: Argument = Argument {
    default: &["0"],
    ..NUMBER
};
