//! The exits and rooms that a dig command names.

ghost use Rattle.std.specs.Prelude.{◌≡◌, IfOk};
ghost use Rattle.mud_rules.specs.Commands.{doors_in, target_in, has_empty_side};

use crate::matching::object_number;
use crate::naming::names_in;
use mud_world::{Doors, Target};
use std::alloc::{AllocError, Global};

/// The separator between the names of an exit and those of the exit back (docs/COMMANDS.md, "The commands").
const BAR: u8 = b'|';

// Returns the exits that a text names.
pub(crate) fn doors_in(alloc: Global, text: &str) -> Result<Option<Doors>, AllocError>
    ensures { IfOk result (λ doors. doors ≡ doors_in text.now) }
{
    match text.split_once('|') {
        Some((out, back)) => {
            let out = names_in(alloc, out)?;
            let back = names_in(alloc, back)?;
            match (out, back) {
                (Some(out), Some(back)) => Ok(Some(Doors {
                    out,
                    back: Some(back),
                })),
                _ => Ok(None),
            }
        }
        None => match names_in(alloc, text)? {
            Some(out) => Ok(Some(Doors { out, back: None })),
            None => Ok(None),
        },
    }
}

// Returns the existing room that a text means, or the names of a new one.
pub(crate) fn target_in(alloc: Global, text: &str) -> Result<Option<Target>, AllocError>
    ensures { IfOk result (λ target. target ≡ target_in text.now) }
{
    if let Some(number) = object_number(text.as_bytes()) {
        return Ok(Some(Target::Old(number)));
    }
    match names_in(alloc, text)? {
        Some(names) => Ok(Some(Target::New(names))),
        None => Ok(None),
    }
}

// Returns whether the text on one side of a bar is empty.
pub(crate) fn has_empty_side(text: &str) -> bool
    ensures { result ≡ has_empty_side text.now }
{
    let mut fresh = true;
    for byte in text.as_bytes() {
        if *byte == BAR {
            if fresh {
                return true;
            }
            fresh = true;
        } else {
            fresh = false;
        }
    }
    fresh
}
