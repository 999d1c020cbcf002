//! The head of a browser's request: it asks for the page, or to play.

ghost use Rattle.std.specs.Prelude.{◌≡◌, ◌↔◌, ◌≤◌, ◌++◌, ℕ, List, [], length, All, OnOk, IsTrue, true};
ghost use Rattle.httparse.specs.Grammar.{RequestHead, ReadsRequest, HasNoRequest};
ghost use Rattle.httparse.specs.Spans.{IsRequestWithin, IsRequestAt, IsHeaderWithin};
ghost use Rattle.websocket.specs.Headers.{fields_of, is_graphic_text};
ghost use Rattle.websocket.specs.Handshake.{response_bytes};
ghost use Rattle.mud_web.specs.Request.{Answers, AnswersWhole, Waits, LetsIn, IfPlay, IsRead, IsPage, HasHost};
ghost use Rattle.mud_web.specs.inner.Playing.{AnswersPlay};

use crate::fields::{Found, find, is_one};
use crate::host::{is_host, is_site, names};
use crate::refusal::Refusal;
use crate::upgrade::{answer_key, has_version};
use httparse::Status;
use httparse::spans::{EMPTY_HEADER_SPAN, HeaderSpan, RequestSpans, parse_request};
use std::alloc::AllocError;
use websocket::handshake::server::write_response;

/// The greatest length of a request's head, in bytes.
pub const MOST_HEAD: usize = 8192;

/// The greatest number of fields in a request's head.
pub const MOST_FIELDS: usize = 64;

/// The meaning of a request's head.
#[derive(Clone, Copy, Debug, PartialEq, Eq)]
pub enum Asked {
    /// The head is incomplete.
    More,
    /// The request is for the page.
    Page,
    /// The request is for a web socket to play over.
    Play {
        /// The value of `Sec-WebSocket-Accept` in the answer (RFC 6455, section 4.2.2).
        accept: [u8; 28],
        /// The length of the head. The bytes after it are frames.
        len: usize,
    },
    /// The request is refused.
    Refused(Refusal),
}

/// Reads the bytes received so far as a request's head. `origin` is the origin of the server's page (RFC 6454, section
/// 6.2), such as `http://localhost:8000`. A head may play exactly if its method, target, versions, host, key and single
/// Origin are right (RFC 6455, section 4.2.1). [`Body::of`](crate::Body::of) says whether the answer has a body.
pub fn asks(head: &[u8], origin: &[u8]) -> Asked
    ensures whole { (h : RequestHead) (rest : List ℕ) → ReadsRequest head.now h rest
        → AnswersWhole h origin.now result }
    ensures none { HasNoRequest head.now → Waits head.now result }
    ensures let_in { LetsIn head.now origin.now result }
    ensures graphic { IfPlay result (λ accept. is_graphic_text accept ≡ true) }
{
    let mut spans = [EMPTY_HEADER_SPAN; MOST_FIELDS];
    match parse_request(head, &mut spans) {
        Ok(Status::Complete(request)) => answer(head, &request, &spans, origin),
        Ok(Status::Partial) if head.len() < MOST_HEAD => Asked::More,
        Ok(Status::Partial) => Asked::Refused(Refusal::TooLarge),
        Err(httparse::Error::TooManyHeaders) => Asked::Refused(Refusal::TooLarge),
        Err(_) => Asked::Refused(Refusal::BadRequest),
    }
}

/// Appends the answer to a head that asks to play. It precedes the first frame (RFC 6455, section 4.2.2). The only
/// error is out of memory.
pub fn write_accept(accept: &[u8; 28], out: &mut Vec<u8>) -> Result<(), AllocError>
    requires { is_graphic_text accept.now ≡ true }
    ensures { OnOk result (out.new.items ≡ out.old.items ++ response_bytes accept.now []) }
{
    match write_response(accept, &[], out) {
        Ok(()) => Ok(()),
        Err(_) => Err(AllocError),
    }
}

// Returns the meaning of a whole head.
fn answer(head: &[u8], request: &RequestSpans, spans: &[HeaderSpan], origin: &[u8]) -> Asked
    requires within { IsRequestWithin head.now spans.now request.now }
    requires room { length spans.now ≤ MOST_FIELDS }
    ensures answers { (h : RequestHead) → IsRequestAt head.now spans.now request.now h
        → AnswersWhole h origin.now result }
    ensures graphic { IfPlay result (λ accept. is_graphic_text accept ≡ true) }
{
    if request.len > MOST_HEAD {
        return Asked::Refused(Refusal::TooLarge);
    }
    route(head, request, spans, origin)
}

// Returns the meaning of a whole head that is within the limits.
fn route(head: &[u8], request: &RequestSpans, spans: &[HeaderSpan], origin: &[u8]) -> Asked
    requires { IsRequestWithin head.now spans.now request.now }
    ensures answers { (h : RequestHead) → IsRequestAt head.now spans.now request.now h
        → Answers h origin.now result }
    ensures graphic { IfPlay result (λ accept. is_graphic_text accept ≡ true) }
{
    let fields = &spans[..request.headers];
    if !has_host(head, fields, request.version) {
        return Asked::Refused(Refusal::BadRequest);
    }
    let method = request.method.of(head);
    if !is_read(method) {
        return Asked::Refused(Refusal::MethodNotAllowed);
    }
    let target = request.path.of(head);
    if is_page(target) {
        return Asked::Page;
    }
    if !names(target, b"/play") {
        return Asked::Refused(Refusal::NotFound);
    }
    let asks = Besides {
        is_get: method == b"GET".as_slice(),
        version: request.version,
        len: request.len,
    };
    play(head, fields, origin, asks)
}

// The head of a request to play, except its fields.
#[derive(Clone, Copy)]
struct Besides {
    // True if the method is GET.
    is_get: bool,
    // The minor version of HTTP.
    version: u8,
    // The length of the head.
    len: usize,
}

// Returns the meaning of a request to play: it is admitted or refused.
fn play(head: &[u8], fields: &[HeaderSpan], origin: &[u8], asks: Besides) -> Asked
    requires { All (IsHeaderWithin (length head.now)) fields.now }
    ensures answers { AnswersPlay (fields_of head.now fields.now) origin.now asks result }
    ensures graphic { IfPlay result (λ accept. is_graphic_text accept ≡ true) }
{
    if !is_one(find(head, fields, b"Origin"), origin) {
        return Asked::Refused(Refusal::Forbidden);
    }
    if !has_version(head, fields) {
        return Asked::Refused(Refusal::UpgradeRequired);
    }
    match answer_key(head, fields) {
        Some(accept) if asks.is_get && asks.version > 0 => {
            Asked::Play {
                accept,
                len: asks.len,
            }
        }
        _ => Asked::Refused(Refusal::BadRequest),
    }
}

// Returns whether the method only reads: GET or HEAD.
fn is_read(method: &[u8]) -> bool
    ensures { IsTrue result ↔ IsRead method.now }
{
    method == b"GET".as_slice() || method == b"HEAD".as_slice()
}

// Returns whether the target is the page.
fn is_page(target: &[u8]) -> bool
    ensures { IsTrue result ↔ IsPage target.now }
{
    names(target, b"/") || is_site(target)
}

// Returns whether exactly one field is named Host and has the form of a host. HTTP/1.0 may leave it out.
fn has_host(head: &[u8], fields: &[HeaderSpan], version: u8) -> bool
    requires { All (IsHeaderWithin (length head.now)) fields.now }
    ensures { IsTrue result ↔ HasHost version (fields_of head.now fields.now) }
{
    match find(head, fields, b"Host") {
        Found::Nothing => version == 0,
        Found::One(host) => is_host(host),
        Found::Several => false,
    }
}
