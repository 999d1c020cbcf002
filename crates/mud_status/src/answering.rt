//! HTTP requests for the status, and their answers.

ghost use Rattle.std.specs.Prelude.{◌≡◌, IfOk, string_bytes};
ghost use Rattle.mud_status.specs.Reply.{health_line, status_line, body_of, reply_text};

use crate::metrics::metrics_text;
use crate::status::{Health, Status};
use httparse::Status as Parsed;
use httparse::spans::{EMPTY_HEADER_SPAN, parse_request};
use std::alloc::{AllocError, Global};

/// The greatest length of a request's head in bytes, and its greatest number of fields.
pub const MOST_HEAD: usize = 8_192;

const MOST_FIELDS: usize = 64;

/// The target of a request.
#[derive(Clone, Copy, Debug, PartialEq, Eq)]
pub enum Sought {
    /// `/health`: the health of the server.
    Health,
    /// `/metrics`: the metrics of the server.
    Metrics,
    /// Any other target.
    Missing,
    /// The method is neither GET nor HEAD.
    BadMethod,
    /// The input is not an HTTP request.
    BadRequest,
}

// Returns the target of a path, without its query.
fn target_of(target: &[u8]) -> Sought {
    match target.split(|byte| *byte == b'?').next() {
        Some(b"/health") => Sought::Health,
        Some(b"/metrics") => Sought::Metrics,
        _ => Sought::Missing,
    }
}

/// Parses the head of a request. Returns its target, and whether the answer has a body; `None` means that the head is
/// incomplete.
pub fn seek(head: &[u8]) -> Option<(Sought, bool)> {
    let mut spans = [EMPTY_HEADER_SPAN; MOST_FIELDS];
    match parse_request(head, &mut spans) {
        Ok(Parsed::Complete(request)) => {
            let method = request.method.of(head);
            let target = request.path.of(head);
            if method == b"GET".as_slice() {
                Some((target_of(target), true))
            } else if method == b"HEAD".as_slice() {
                Some((target_of(target), false))
            } else {
                Some((Sought::BadMethod, true))
            }
        }
        Ok(Parsed::Partial) if head.len() < MOST_HEAD => None,
        Ok(Parsed::Partial) | Err(_) => Some((Sought::BadRequest, true)),
    }
}

// Returns the HTTP status for a health.
fn health_line(health: Health) -> &'static str
    ensures { result.now ≡ health_line health }
{
    match health {
        Health::Well => "200 OK",
        Health::Stopping | Health::JournalFault | Health::Full => "503 Service Unavailable",
    }
}

// Returns the HTTP status of an answer.
fn status_line(sought: Sought, status: &Status<'_>) -> &'static str
    ensures { result.now ≡ status_line sought status.now }
{
    match sought {
        Sought::Health => health_line(status.health),
        Sought::Metrics => "200 OK",
        Sought::Missing => "404 Not Found",
        Sought::BadMethod => "405 Method Not Allowed",
        Sought::BadRequest => "400 Bad Request",
    }
}

// Returns the body of an answer. The only error is out of memory.
fn body_of(alloc: Global, sought: Sought, status: &Status<'_>) -> Result<String, AllocError>
    ensures { IfOk result (λ text. string_bytes text ≡ body_of sought status.now) }
{
    match sought {
        Sought::Metrics => metrics_text(alloc, status),
        Sought::Health => {
            let word = status.health.word();
            format!(in alloc; "{word}\n")
        }
        Sought::Missing => String::from_str(alloc, "/health or /metrics\n"),
        Sought::BadMethod => String::from_str(alloc, "GET or HEAD\n"),
        Sought::BadRequest => String::from_str(alloc, "no request of HTTP/1.1\n"),
    }
}

/// Returns the answer to a request, with or without its body. The only error is out of memory.
pub fn reply(
    alloc: Global,
    sought: Sought,
    has_body: bool,
    status: &Status<'_>,
) -> Result<String, AllocError>
    ensures { IfOk result (λ text. string_bytes text ≡ reply_text sought has_body status.now) }
{
    let body = body_of(alloc, sought, status)?;
    let (line, len) = (status_line(sought, status), body.len());
    let kind = "text/plain; version=0.0.4; charset=utf-8";
    let mut text = format!(in alloc;
        "HTTP/1.1 {line}\r\nContent-Type: {kind}\r\nContent-Length: {len}\r\n"
    )?;
    text.push_str("Cache-Control: no-store\r\nConnection: close\r\n\r\n")?;
    if has_body {
        text.push_str(body.as_str())?;
    }
    Ok(text)
}
