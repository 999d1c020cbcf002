//! Encodes output: each LF becomes CR LF.

ghost use Rattle.std.specs.Prelude.{◌≡◌, ◌++◌, ◌∷◌, [], ◌+◌, ◌≤◌, ◌<◌, length, take, drop, IfOk, OnOk, string_bytes};
ghost use Rattle.std.specs.Prelude.{decimal};
ghost use Rattle.mud_nvt.specs.declared.codes.TheConstants.{LF, CR};
ghost use Rattle.std.specs.List.{flat_map};
ghost use Rattle.mud_session.specs.inner.Wire.{on_wire};

use memchr::memchr;
use std::alloc::AllocError;

/// Appends the text.
pub(crate) fn push_on_wire(out: &mut Vec<u8>, text: &[u8]) -> Result<(), AllocError>
    ensures { OnOk result (out.new.items ≡ out.old.items ++ flat_map on_wire text.now) }
{
    let mut rest = text;
    while let Some(at) = memchr(b'\n', rest) {
        let (line, ended) = rest.split_at(at);
        out.extend_from_slice(line)?;
        push_end(out)?;
        rest = &ended[1..];
    }
    out.extend_from_slice(rest)
}

/// Appends a line end.
pub(crate) fn push_end(out: &mut Vec<u8>) -> Result<(), AllocError>
    ensures { OnOk result (out.new.items ≡ out.old.items ++ CR ∷ LF ∷ []) }
{
    out.push(b'\r')?;
    out.push(b'\n')?;
    Ok(())
}

/// Appends a number in decimal. Most numbers have few digits, and pushing each is faster than formatting a text.
#[tactic(auto, using(std::proofs::lemmas::Fmt::decimal_digit, std::proofs::lemmas::Fmt::decimal_step))]
pub(crate) fn push_number(out: &mut Vec<u8>, number: u32) -> Result<(), AllocError>
    ensures { OnOk result (out.new.items ≡ out.old.items ++ decimal number) }
{
    if number >= 10 {
        push_number(out, number / 10)?;
    }
    out.push(b'0' + (number % 10) as u8)?;
    Ok(())
}

/// Returns the number of bytes up to the first LF and with it, or of all without one.
pub(crate) fn line_len(bytes: &[u8]) -> usize
    requires { 0 < length bytes.now }
    ensures some { 0 < result }
    ensures within { result ≤ length bytes.now }
{
    match memchr(b'\n', bytes) {
        Some(at) => at + 1,
        None => bytes.len(),
    }
}

/// Appends the number of an answer and its text. The text is expanded in place, so it is in memory only once.
pub(crate) fn answer_on_wire(
    before: Vec<u8>,
    number: &str,
    text: String,
) -> Result<Vec<u8>, AllocError>
    ensures { IfOk result (λ out. out.items ≡ before.items ++ flat_map on_wire (number.now ++ string_bytes text)) }
{
    let mut front = before;
    push_on_wire(&mut front, number.as_bytes())?;
    put_on_wire(&front, text.into_bytes())
}

// Returns the prefix followed by the text, which is expanded in place.
fn put_on_wire(front: &[u8], text: Vec<u8>) -> Result<Vec<u8>, AllocError>
    ensures { IfOk result (λ out. out.items ≡ front.now ++ flat_map on_wire text.items) }
{
    let mut out = text;
    let end = out.len();
    let Some(len) = length_on_wire(&out).checked_add(front.len()) else {
        return Err(AllocError);
    };
    out.resize(len, 0)?;
    put_in_place(&mut out, end, front);
    Ok(out)
}

// Expands the first `end` bytes so that they become the last ones, and writes the prefix before them.
fn put_in_place(out: &mut [u8], end: usize, front: &[u8])
    requires within { end ≤ length out.old }
    requires fits { length out.old ≡ length front.now + length (flat_map on_wire (take end out.old)) }
    ensures { out.new ≡ front.now ++ flat_map on_wire (take end out.old) }
{
    widen(out, end, front.len());
    out[..front.len()].copy_from_slice(front);
}

// Returns the length of the encoded text.
fn length_on_wire(text: &[u8]) -> usize
    ensures { result ≡ length (flat_map on_wire text.now) }
{
    let mut len = 0;
    for byte in text {
        len += if *byte == b'\n' { 2 } else { 1 };
    }
    len
}

// Expands the first `end` bytes, from their end to their beginning, so that they become the last ones after the first
// `front` bytes.
fn widen(out: &mut [u8], end: usize, front: usize)
    requires within { end ≤ length out.old }
    requires fits { length out.old ≡ front + length (flat_map on_wire (take end out.old)) }
    ensures len { length out.new ≡ length out.old }
    ensures widened { drop front out.new ≡ flat_map on_wire (take end out.old) }
{
    let mut to = out.len();
    for done in 0..end {
        let byte = out[end - done - 1];
        to -= 1;
        out[to] = byte;
        if byte == b'\n' {
            to -= 1;
            out[to] = b'\r';
        }
    }
}
