//! `mud_keep`: recovers, compacts, shows, draws, surveys and compares the histories of worlds.
//!
//! `mud_keep recover JOURNAL` prints the history in a journal, `mud_keep shorten HISTORY` a shorter one of the same
//! world, and `mud_keep compact HISTORY` one of the same world but for its numbers. `mud_keep show HISTORY` prints the
//! world as a table, and `mud_keep map HISTORY [PROOF]` its rooms and exits as a graph. `mud_keep survey HISTORY
//! [PLAYER..]` prints what players can't reach, `mud_keep diff OLD NEW` the differences of two worlds, and `mud_keep
//! chain OLD NEW` whether the new history continues the old one. `mud_keep without HISTORY CHANGE..` prints the history
//! without some of its changes, and `mud_keep lines HISTORY [ROOM..]` the lines that build its world or a part of it.
//! With `--journal` the file is a journal instead of a history. Notes go to standard error. The exit status is 0 if
//! there is a result, or 2 if not; `diff` exits with 1 if the worlds differ, and `chain` if the new history does not
//! continue the old one. docs/KEEPING.md has the lines.
#![tactic(auto)]

mod bench;
mod input;
mod printing;
mod refused;
mod texts;
mod unkept;

use crate::bench::{chain, diff, lines, part_lines, proof, survey, without, without_from};
use crate::printing::tell_unreadable;
use crate::texts::{compact, map, picture, text};
use crate::unkept::Unkept;
use mud_cli::{CommandFault, Keeping, keeping_of, show, words_of};
use mud_lines::Start;
use std::process::ExitCode;

fn main(rt: HostRuntime) -> ExitCode {
    match words_of(&rt) {
        Ok(words) => run(&rt, words.as_slice()),
        Err(fault) => tell_fault(&rt, fault),
    }
}

// Runs the task of the words.
fn run(rt: &HostRuntime, words: &[String]) -> ExitCode {
    match keeping_of(rt.alloc(), words) {
        Ok(Keeping::Text { wish, file }) => text(rt, wish, file),
        Ok(Keeping::Compact { file, is_map }) => compact(rt, file, is_map),
        Ok(Keeping::Map { file, proof }) => map(rt, file, proof),
        Ok(Keeping::Picture { file, is_graph }) => picture(rt, file, is_graph),
        Ok(
            Keeping::Survey {
                file,
                players,
                is_json,
            },
        ) => survey(rt, file, &players, is_json),
        Ok(Keeping::Proof { file, player, room }) => proof(rt, file, player, room),
        Ok(Keeping::Diff { old, new }) => diff(rt, old, new),
        Ok(Keeping::Chain { old, new }) => chain(rt, old, new),
        Ok(Keeping::Without { file, versions }) => without(rt, file, versions),
        Ok(Keeping::Since { file, first, by }) => without_from(rt, file, first, by),
        Ok(Keeping::Lines { file }) => lines(rt, file),
        Ok(
            Keeping::Part {
                file,
                rooms,
                here,
                next,
            },
        ) => part_lines(rt, file, &rooms, Start { here, next }),
        Err(fault) => tell_fault(rt, fault),
    }
}

// Prints why the words name no task, or the help or version that they ask for. Returns the exit status.
fn tell_fault(rt: &HostRuntime, fault: CommandFault) -> ExitCode {
    match fault {
        CommandFault::OutOfMemory => tell_unreadable(rt, Unkept::OutOfMemory),
        CommandFault::Asked(text) => match print!(rt; "{text}") {
            Ok(()) => ExitCode::SUCCESS,
            Err(_) => tell_unreadable(rt, Unkept::Write),
        },
        CommandFault::Told(text) => ExitCode::from(show(rt, text.as_str())),
    }
}
