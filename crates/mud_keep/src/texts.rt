//! The texts and maps of one file.

use crate::input::read_input;
use crate::printing::{print_text, tell_unreadable};
use crate::unkept::Unkept;
use mud_cli::{KeptFile, Wish};
use mud_compact::{
    Answer, KeptFault, Note, TextKind, front_text, recovered_text, shorter_text, world_table,
};
use mud_map::{map_of, mapped_with};
use mud_picture::{PictureForm, picture_of};
use mud_renumber::Compacted;
use std::alloc::Global;
use std::process::ExitCode;

/// Returns the kind of the file.
pub fn kind_of(file: KeptFile<'_>) -> TextKind {
    if file.is_journal {
        TextKind::Journal
    } else {
        TextKind::History
    }
}

// Returns the text that the keeper asks for.
fn answer_to(alloc: Global, wish: Wish, kind: TextKind, bytes: &[u8]) -> Result<Answer, KeptFault> {
    match wish {
        Wish::Recover => recovered_text(alloc, bytes),
        Wish::Front => front_text(alloc, bytes),
        Wish::Shorten => shorter_text(alloc, kind, bytes),
        Wish::Show => world_table(alloc, kind, bytes),
    }
}

/// Prints the text that the keeper asks for. Returns the exit status.
pub fn text(rt: &HostRuntime, wish: Wish, file: KeptFile<'_>) -> ExitCode {
    let bytes = match read_input(rt, file.name) {
        Ok(bytes) => bytes,
        Err(unkept) => return tell_unreadable(rt, unkept),
    };
    match answer_to(rt.alloc(), wish, kind_of(file), &bytes) {
        Ok(answer) => print_answer(rt, &answer),
        Err(fault) => tell_unreadable(rt, Unkept::of_file(fault)),
    }
}

/// Prints a history of the same world but for its numbers, or with `is_map` the old and the new numbers. Returns the
/// exit status.
pub fn compact(rt: &HostRuntime, file: KeptFile<'_>, is_map: bool) -> ExitCode {
    let bytes = match read_input(rt, file.name) {
        Ok(bytes) => bytes,
        Err(unkept) => return tell_unreadable(rt, unkept),
    };
    match mud_renumber::compact(rt.alloc(), kind_of(file), &bytes) {
        Ok(found) if is_map => print_text(rt, found.map.as_bytes(), found.torn),
        Ok(found) => print_compacted(rt, &found),
        Err(fault) => tell_unreadable(rt, Unkept::of_file(fault)),
    }
}

// Prints the history, and to standard error how many numbers it gives. Returns the exit status.
fn print_compacted(rt: &HostRuntime, found: &Compacted) -> ExitCode {
    let status = print_text(rt, found.text.as_bytes(), found.torn);
    if status == ExitCode::SUCCESS {
        let Compacted { before, after, .. } = found;
        let _ = eprintln!(rt; "numbers: {before} before, {after} after");
        let _ = eprintln!(rt;
            "versions begin anew: check older certificates with the older history"
        );
    }
    status
}

/// Prints a map. Returns the exit status.
pub fn map(rt: &HostRuntime, file: KeptFile<'_>, proof: Option<&str>) -> ExitCode {
    let bytes = match read_input(rt, file.name) {
        Ok(bytes) => bytes,
        Err(unkept) => return tell_unreadable(rt, unkept),
    };
    let Some(proof) = proof else {
        return match map_of(rt.alloc(), kind_of(file), &bytes) {
            Ok(map) => print_text(rt, &map.text, map.torn),
            Err(fault) => tell_unreadable(rt, Unkept::of_file(fault)),
        };
    };
    let proof = match read_input(rt, proof) {
        Ok(proof) => proof,
        Err(unkept) => return tell_unreadable(rt, unkept),
    };
    match mapped_with(rt.alloc(), kind_of(file), &bytes, &proof) {
        Ok(map) => print_text(rt, &map.text, map.torn),
        Err(fault) => tell_unreadable(rt, Unkept::of_map(fault)),
    }
}

/// Prints a picture. Returns the exit status.
pub fn picture(rt: &HostRuntime, file: KeptFile<'_>, is_graph: bool) -> ExitCode {
    let bytes = match read_input(rt, file.name) {
        Ok(bytes) => bytes,
        Err(unkept) => return tell_unreadable(rt, unkept),
    };
    let form = if is_graph {
        PictureForm::Graph
    } else {
        PictureForm::Svg
    };
    match picture_of(rt.alloc(), kind_of(file), form, &bytes) {
        Ok(found) => print_text(rt, found.text.as_bytes(), found.torn),
        Err(fault) => tell_unreadable(rt, Unkept::of_file(fault)),
    }
}

// Prints the text, and its notes to standard error. Returns the exit status.
fn print_answer(rt: &HostRuntime, answer: &Answer) -> ExitCode {
    let status = print_text(rt, answer.text.as_bytes(), answer.torn);
    if status == ExitCode::SUCCESS && answer.note != Note::Nothing {
        let _ = eprintln!(rt; "{}", answer.note);
    }
    status
}
