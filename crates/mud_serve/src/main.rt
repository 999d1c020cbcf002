//! `mud_serve`: a server of text worlds.
//!
//! `mud_serve script` answers the lines of standard input, in a new world or after a history. `mud_serve listen` serves
//! players who connect by Telnet or from a browser. docs/SERVER.md has the command lines and the exit statuses.
//!
//! Threads: the main thread runs the server of `mud_server`, beside the host's threads of `mud_host`.
#![tactic(auto)]

mod serving;

use crate::serving::listen;
use log::{Level, Log, Logged, info};
use mud_cli::{CommandFault, Listening, Service, service_of, show, version};
use mud_host::{Staff, watch};
use mud_server_accept::{Hosting, StopSign};
use mud_tasks::{Stop, Unsettled, answer, check, settled};
use std::alloc::Global;
use std::io::{Eprint, Print};
use std::process::ExitCode;
use std::thread;

// The size of the block that is freed before everything else.
const FREED_BYTES: usize = 1 << 20;

fn main(rt: HostRuntime) -> ExitCode {
    let words = match settled(&rt) {
        Ok(words) => words,
        Err(unsettled) => return tell_unsettled(&rt, unsettled),
    };
    let service = match service_of(rt.alloc(), words.as_slice()) {
        Ok(service) => service,
        Err(fault) => return tell_fault(&rt, fault),
    };
    keep_freed(rt.alloc());
    let listening = match service {
        Service::Script(scripting) => return status_of(&rt, answer(&rt, scripting)),
        Service::Listen(listening) if listening.is_check => {
            return status_of(&rt, check(&rt, listening));
        }
        Service::Listen(listening) => listening,
    };
    let mut staff = match Staff::new(rt, listening) {
        Ok(staff) => staff,
        Err(fault) => return tell_stop(&rt, Stop::from(fault)),
    };
    let status_port = staff.status_port();
    let Ok(host) = staff.host() else {
        return tell_stop(&rt, Stop::OutOfMemory);
    };
    // The prover lets a thread read standard input only if `main` starts it.
    if !staff.begin(&rt) || listening.console && thread::spawn(&rt, move || watch(&host)).is_err() {
        return tell_stop(&rt, Stop::OutOfMemory);
    }
    let logged = Logged::new(rt, Level::Info, &*staff.book);
    log_start(&logged, status_port);
    let hosting = Hosting {
        stop: sign_for(listening, &staff.control.sign),
        control: &staff.control,
    };
    let ended = listen(&logged, listening, hosting);
    info!(logged; "stop");
    staff.close(&rt, listening.control);
    status_of(&rt, ended)
}

// Logs the start, and the port of the status.
fn log_start<R: Log>(rt: &R, status_port: Option<u16>) {
    info!(rt; "start version={}", version());
    if let Some(port) = status_port {
        info!(rt; "status port={port}");
    }
}

// Returns the stop flag, if a console may set it.
fn sign_for<'a>(listening: Listening<'_>, sign: &'a StopSign) -> Option<&'a StopSign> {
    if listening.console || listening.control.is_some() {
        Some(sign)
    } else {
        None
    }
}

// Returns the exit status after the task was done, or stopped.
fn status_of<R: Eprint>(rt: &R, ended: Result<(), Stop>) -> ExitCode {
    match ended {
        Ok(()) => ExitCode::SUCCESS,
        Err(stop) => tell_stop(rt, stop),
    }
}

// Makes the C library keep more freed memory: at the end of its heap, twice the size of the greatest block that was
// freed so far. A route in a full world allocates half a megabyte and frees it, and the next one allocates it again. If
// the block can't be allocated, this has no effect.
fn keep_freed(alloc: Global) {
    let _ = Vec::<u8>::with_capacity(alloc, FREED_BYTES);
}

// Prints why there are no words. Returns the exit status.
fn tell_unsettled<R: Print + Eprint>(rt: &R, unsettled: Unsettled) -> ExitCode {
    match unsettled {
        Unsettled::Words(fault) => tell_fault(rt, fault),
        Unsettled::File(stop) => tell_stop(rt, stop),
    }
}

// Prints why the words name no task, or the help or version that they ask for. Returns the exit status.
fn tell_fault<R: Print + Eprint>(rt: &R, fault: CommandFault) -> ExitCode {
    match fault {
        CommandFault::OutOfMemory => tell_stop(rt, Stop::OutOfMemory),
        CommandFault::Asked(text) => match print!(rt; "{text}") {
            Ok(()) => ExitCode::SUCCESS,
            Err(_) => tell_stop(rt, Stop::Write),
        },
        CommandFault::Told(text) => ExitCode::from(show(rt, text.as_str())),
    }
}

// Prints why the program stopped, ignoring a failed write. Returns the exit status.
fn tell_stop<R: Eprint>(rt: &R, stop: Stop) -> ExitCode {
    let _ = eprintln!(rt; "mud_serve: {stop}");
    ExitCode::from(stop.status())
}
