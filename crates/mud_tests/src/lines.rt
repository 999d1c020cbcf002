//! Lines as players type them.

use mud_hall::{Desk, Fault, Hall, HallName, Reply};
use mud_words::parse;
use std::alloc::{AllocError, Global};
use std::sync::Wait;

/// Makes a desk act on a line.
pub(crate) fn act<J: HallName, R: Wait + AllocGlobal>(
    rt: &R,
    hall: &Hall<J>,
    desk: &mut Desk<J>,
    line: &str,
) -> Result<Reply, Fault> {
    let said = parse(rt.alloc(), line)?;
    hall.act(rt, desk, &said)
}

/// Returns the script of a player of this name, with this many `say` lines.
pub(crate) fn script(alloc: Global, name: &str, said: u32) -> Result<Vec<u8>, AllocError> {
    let mut text = String::from_str(alloc, "connect ")?;
    text.push_str(name)?;
    for _ in 0..said {
        text.push_str("\r\nsay hi")?;
    }
    text.push_str("\r\nquit\r\n")?;
    Ok(text.into_bytes())
}
