//! Checks that a head upgrades to a web socket (RFC 6455, section 4.2.1).

ghost use Rattle.std.specs.Prelude.{◌≡◌, ◌↔◌, ℕ, List, length, All, IsTrue, IfSome, IfNone, MatchOption, true, take};
ghost use Rattle.std.specs.List.{list_all};
ghost use Rattle.httparse.specs.Spans.{IsHeaderWithin};
ghost use Rattle.websocket.specs.Headers.{fields_of};
ghost use Rattle.websocket.specs.Handshake.{accept_key_of};
ghost use Rattle.mud_web.specs.Upgrade.{IsKey, is_symbol, Has13, AsksKey};

use crate::fields::{Found, find, has_member, is_one};
use httparse::spans::HeaderSpan;
use websocket::handshake::derive_accept_key;

/// Returns whether the head asks for version 13 of web sockets, and for no other.
pub fn has_version(head: &[u8], spans: &[HeaderSpan]) -> bool
    requires { All (IsHeaderWithin (length head.now)) spans.now }
    ensures { IsTrue result ↔ Has13 (fields_of head.now spans.now) }
{
    is_one(find(head, spans, b"Sec-WebSocket-Version"), b"13")
}

/// Returns the answer to the key of a head that upgrades, judged by its fields Connection, Upgrade and
/// Sec-WebSocket-Key.
pub fn answer_key(head: &[u8], spans: &[HeaderSpan]) -> Option<[u8; 28]>
    requires { All (IsHeaderWithin (length head.now)) spans.now }
    ensures { MatchOption result (¬ ((key : List ℕ) × AsksKey (fields_of head.now spans.now) key))
        (λ accept. (key : List ℕ) × AsksKey (fields_of head.now spans.now) key × (accept ≡ accept_key_of key)) }
{
    if !has_member(head, spans, b"Connection", b"Upgrade") {
        return None;
    }
    if !has_member(head, spans, b"Upgrade", b"websocket") {
        return None;
    }
    match find(head, spans, b"Sec-WebSocket-Key") {
        Found::One(key) if is_key(key) => Some(derive_accept_key(key)),
        _ => None,
    }
}

// Returns whether a text is base64 that decodes to 16 bytes.
fn is_key(key: &[u8]) -> bool
    ensures { IsTrue result ↔ IsKey key.now }
{
    if key.len() != 24 {
        return false;
    }
    let (symbols, padding) = key.split_at(22);
    padding == b"==".as_slice() && are_symbols(symbols)
}

// Returns whether all bytes are symbols of base64.
fn are_symbols(bytes: &[u8]) -> bool
    ensures { result ≡ list_all is_symbol bytes.now }
{
    bytes.iter().all(|byte| is_symbol(*byte))
}

// Returns whether a byte is a symbol of base64.
fn is_symbol(byte: u8) -> bool
    ensures { result ≡ is_symbol byte }
{
    byte.is_ascii_alphanumeric() || byte == b'+' || byte == b'/'
}
