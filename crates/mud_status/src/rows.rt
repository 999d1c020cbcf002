//! The status as the console prints it.

ghost use Rattle.std.specs.Prelude.{◌≡◌, ◌++◌, map, flat_map, IfOk, OnOk, string_bytes};
ghost use Rattle.mud_status.specs.Status.{Row as Line, row_text, rows_of, status_text};
ghost use Rattle.mud_status.specs.inner.Rows.{line_of};

use crate::status::Status;
use std::alloc::{AllocError, Global};
use std::fmt::Write;

// A line: a name and its number.
#[derive(Clone, Copy)]
struct Row {
    name: &'static str,
    value: u64,
}

// Returns the row of a name and its number.
fn make_row(name: &'static str, value: u64) -> Row
    ensures { line_of result ≡ record { name = name.now; value = value } }
{
    Row { name, value }
}

// Returns the rows of a status.
fn rows_of(status: &Status<'_>) -> [Row; 22]
    ensures { map line_of result ≡ rows_of status.now }
{
    [
        make_row("changes", status.changes),
        make_row("changes_most", status.most_changes),
        make_row("synced", status.synced),
        make_row("objects", status.objects),
        make_row("objects_most", status.most_objects),
        make_row("sessions", status.sessions),
        make_row("sessions_most", status.most_sessions),
        make_row("players", status.players),
        make_row("begun", status.begun),
        make_row("refused_full", status.refused_full),
        make_row("refused_address", status.refused_address),
        make_row("refused_banned", status.refused_banned),
        make_row("refused_often", status.refused_often),
        make_row("refused_request", status.refused_request),
        make_row("lines", status.lines),
        make_row("made", status.made),
        make_row("waited", status.waited),
        make_row("volume", status.volume),
        make_row("changes_taken", status.taken),
        make_row("turns", status.turns),
        make_row("turns_called_off", status.calls_off),
        make_row("turn_pause_ms", status.pause_millis),
    ]
}

// Appends these rows.
fn write_rows(text: &mut String, rows: &[Row]) -> Result<(), AllocError>
    ensures { OnOk result (string_bytes text.new ≡ string_bytes text.old ++ flat_map row_text (map line_of rows.now)) }
{
    for row in rows {
        let (name, value) = (row.name, row.value);
        writeln!(text, "{name} {value}")?;
    }
    Ok(())
}

/// Returns the answer of the console: one name and its value a line. The only error is out of memory.
pub fn status_text(alloc: Global, status: &Status<'_>) -> Result<String, AllocError>
    ensures { IfOk result (λ text. string_bytes text ≡ status_text status.now) }
{
    let (version, since, health) = (status.version, status.since, status.health.word());
    let mut text = format!(in alloc; "version {version}\nsince {since}\nhealth {health}\n")?;
    write_rows(&mut text, &rows_of(status))?;
    Ok(text)
}
