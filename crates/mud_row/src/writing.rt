//! Writes the history that a pass knows, from the cells of the row.

ghost use Rattle.std.specs.Prelude.{◌≡◌, ◌<◌, ◌+◌, ◌++◌, length, OnOk, OnErr, string_bytes};
ghost use mathlib.Core.List.{IsPrefix};
ghost use Rattle.mud_chron.specs.declared.format.Format.TheVariants.{Two};
ghost use Rattle.mud_chron.specs.Text.{history_text, end_line, line_feed};
ghost use Rattle.mud_row.specs.Known.{lines_after};

use crate::pass::Pass;
use crate::row::Row;
use mud_chron::{Format, write_entry};
use std::alloc::{AllocError, Global};

/// Appends the line of the entry after the first `n`, with its line end. The pass is unchanged. The only error is out
/// of memory, and it leaves the text unchanged.
pub(crate) fn write_line(
    alloc: Global,
    row: &Row,
    pass: &mut Pass,
    n: u32,
    out: &mut String,
) -> Result<(), AllocError>
    requires row { pass.old.row ≡ row.now }
    requires within { n < length pass.old.list }
    ensures same { pass.new ≡ pass.old }
    ensures ok { OnOk result (string_bytes out.new ++ lines_after (n + 1) pass.old.list
        ≡ string_bytes out.old ++ lines_after n pass.old.list) }
    ensures longer { OnOk result (IsPrefix (string_bytes out.old) (string_bytes out.new)) }
    ensures err { OnErr result (string_bytes out.new ≡ string_bytes out.old) }
{
    // for the prover: `known` shows that there are at most 65,536, so `n + 1` does not overflow
    let _known = pass.known();
    match row.entry(pass, n + 1) {
        Some(entry) => write_entry(alloc, n + 1, entry, out),
        None => unreachable!(),
    }
}

/// Appends the text of the history of the known entries in format 2. The pass is unchanged. The only error is out of
/// memory, and it leaves the text unchanged.
pub(crate) fn write_text(
    alloc: Global,
    row: &Row,
    pass: &mut Pass,
    out: &mut String,
) -> Result<(), AllocError>
    requires { pass.old.row ≡ row.now }
    ensures same { pass.new ≡ pass.old }
    ensures ok { OnOk result (string_bytes out.new ≡ string_bytes out.old ++ history_text Two pass.old.list) }
    ensures err { OnErr result (string_bytes out.new ≡ string_bytes out.old) }
{
    let len = out.len();
    match push_text(alloc, row, pass, out) {
        Ok(()) => Ok(()),
        Err(AllocError) => {
            out.truncate(len);
            Err(AllocError)
        }
    }
}

// Appends like `write_text`, but out of memory may leave a part of the text.
fn push_text(alloc: Global, row: &Row, pass: &mut Pass, out: &mut String) -> Result<(), AllocError>
    requires { pass.old.row ≡ row.now }
    ensures same { pass.new ≡ pass.old }
    ensures ok { OnOk result (string_bytes out.new ≡ string_bytes out.old ++ history_text Two pass.old.list) }
    ensures err { OnErr result (IsPrefix (string_bytes out.old) (string_bytes out.new)) }
{
    out.push_str(Format::Two.first_line())?;
    for n in 0..pass.known() {
        write_line(alloc, row, pass, n, out)?;
    }
    write_end(alloc, pass.known(), out)
}

/// Appends the last line of the text of a history of `count` entries, with its line end. The only error is out of
/// memory, and it leaves the text unchanged.
#[tactic(auto, unfolding(mud_chron::specs::Text::end_line))]
pub fn write_end(alloc: Global, count: u32, out: &mut String) -> Result<(), AllocError>
    ensures ok { OnOk result (string_bytes out.new ≡ string_bytes out.old ++ end_line count ++ line_feed) }
    ensures err { OnErr result (string_bytes out.new ≡ string_bytes out.old) }
{
    let line = format!(in alloc; "end {count}\n")?;
    out.push_str(line.as_str())
}
