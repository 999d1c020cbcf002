//! Writes the output of a server.

ghost use Rattle.std.specs.Prelude.{◌≡◌, ◌⊎◌, ℕ, take, true, IfOk, IfErr, OnOk, OnErr};
ghost use Rattle.std.specs.Prelude.{string_bytes};
ghost use Rattle.std.specs.Io.KnownBytes.{Appends};
ghost use Rattle.mud_chron.specs.Text.{history_text};
ghost use Rattle.mud_chron.specs.declared.format.Format.TheVariants.{Two};
ghost use Rattle.mud_server_end.specs.Server.{opening_lines};

use crate::fault::ServerFault;
use mud_chron::Format;
use mud_io::Sink;
use mud_listeners::Ports;
use mud_row::{History, write_end};
use std::alloc::{AllocError, Global};
use std::io::Write;

// The least length of a written piece of a history's text.
const PIECE_LEN: usize = 65_536;

/// Writes the lines that name the ports. If a write fails, a prefix of them is written.
pub fn write_ports<W: Write>(
    alloc: Global,
    out: &mut Sink<W>,
    ports: Ports,
) -> Result<(), ServerFault>
    ensures ok { OnOk result (Appends out.old.holds out.new.holds (opening_lines ports.telnet ports.web)) }
    ensures front { OnErr result ((n : ℕ) × Appends out.old.holds out.new.holds
        (take n (opening_lines ports.telnet ports.web))) }
    ensures fault { IfErr result (λ f. (f ≡ ServerFault.OutOfMemory)
        ⊎ ((f ≡ ServerFault.Write) × (out.new.has_failed ≡ true))) }
{
    let lines = ports_lines(alloc, ports)?;
    write(out, lines.as_bytes())
}

/// Writes the text of a history, which is unchanged. If a write fails, a prefix of it is written. The text is made
/// piece by piece, so it needs memory for one piece only.
pub fn write_entries<W: Write>(
    alloc: Global,
    out: &mut Sink<W>,
    history: &mut History,
) -> Result<(), ServerFault>
    ensures ok { OnOk result (Appends out.old.holds out.new.holds (history_text Two history.old)) }
    ensures front { OnErr result ((n : ℕ) × Appends out.old.holds out.new.holds
        (take n (history_text Two history.old))) }
    ensures fault { IfErr result (λ f. (f ≡ ServerFault.OutOfMemory)
        ⊎ ((f ≡ ServerFault.Write) × (out.new.has_failed ≡ true))) }
{
    let mut text = String::from_str(alloc, Format::Two.first_line())?;
    for n in 0..history.len() {
        history.write_line(alloc, n, &mut text)?;
        if text.len() >= PIECE_LEN {
            write(out, text.as_bytes())?;
            text.clear();
        }
    }
    write_end(alloc, history.len(), &mut text)?;
    write(out, text.as_bytes())
}

// Returns the lines that name the ports.
fn ports_lines(alloc: Global, ports: Ports) -> Result<String, AllocError>
    ensures { IfOk result (λ lines. string_bytes lines ≡ opening_lines ports.telnet ports.web) }
{
    let Ports { telnet, web } = ports;
    match web {
        None => format!(in alloc; "listening on {telnet}\n"),
        Some(web) => format!(in alloc; "listening on {telnet}\nweb on {web}\n"),
    }
}

// Writes a whole text. If a write fails, a prefix of it is written.
fn write<W: Write>(out: &mut Sink<W>, text: &[u8]) -> Result<(), ServerFault>
    ensures ok { OnOk result (Appends out.old.holds out.new.holds text.now) }
    ensures front { OnErr result ((n : ℕ) × Appends out.old.holds out.new.holds (take n text.now)) }
    ensures fault { IfErr result (λ f. (f ≡ ServerFault.Write) × (out.new.has_failed ≡ true)) }
{
    if out.write_all(text) {
        Ok(())
    } else {
        Err(ServerFault::Write)
    }
}
