//! The requests that are refused, and the answers to them.

ghost use Rattle.std.specs.Prelude.{◌≡◌, ◌++◌, OnOk};
ghost use Rattle.mud_web.specs.Responses.{status_of, connection_of, field_of, body_of, status_line};
ghost use Rattle.mud_web.specs.Responses.{shown_of, fields_of, head_of, body_bytes, refusal_bytes};

use crate::body::Body;
use std::alloc::AllocError;

/// The reason why a request is refused: a status of RFC 9110, section 15, or of RFC 6585, section 5.
#[derive(Clone, Copy, Debug, PartialEq, Eq)]
pub enum Refusal {
    /// 400: not a request, no host or two of them, or no upgrade to a web socket.
    BadRequest,
    /// 403: a page of another origin asks to play.
    Forbidden,
    /// 404: the target is neither the page nor the web socket.
    NotFound,
    /// 405: the method is neither GET nor HEAD.
    MethodNotAllowed,
    /// 408: the head did not come in time.
    RequestTimeout,
    /// 426: the request does not upgrade to the one supported version of web sockets.
    UpgradeRequired,
    /// 431: the head is too long, or has too many fields.
    TooLarge,
}

impl Refusal {
    /// Returns the status code and its phrase.
    pub fn status(self) -> &'static str
        ensures { result.now ≡ status_of self }
    {
        match self {
            Refusal::BadRequest => "400 Bad Request",
            Refusal::Forbidden => "403 Forbidden",
            Refusal::NotFound => "404 Not Found",
            Refusal::MethodNotAllowed => "405 Method Not Allowed",
            Refusal::RequestTimeout => "408 Request Timeout",
            Refusal::UpgradeRequired => "426 Upgrade Required",
            Refusal::TooLarge => "431 Request Header Fields Too Large",
        }
    }

    // Returns the field Connection. A 426 names Upgrade in it, because it has a field Upgrade (RFC 9110, section 7.8).
    fn connection(self) -> &'static str
        ensures { result.now ≡ connection_of self }
    {
        match self {
            Refusal::UpgradeRequired => "Connection: close, Upgrade\r\n",
            _ => "Connection: close\r\n",
        }
    }

    // Returns the fields that only this status has.
    fn field(self) -> &'static str
        ensures { result.now ≡ field_of self }
    {
        match self {
            Refusal::MethodNotAllowed => "Allow: GET, HEAD\r\n",
            Refusal::UpgradeRequired => "Upgrade: websocket\r\nSec-WebSocket-Version: 13\r\n",
            _ => "",
        }
    }

    // Returns the body up to the server's origin, which only a 403 shows.
    fn body(self) -> &'static str
        ensures { result.now ≡ body_of self }
    {
        match self {
            Refusal::Forbidden => "403 Forbidden: this world is played at ",
            _ => self.status(),
        }
    }

    // Returns the part of the server's origin that the body shows.
    fn shown(self, origin: &[u8]) -> &[u8]
        ensures { result.now ≡ shown_of self origin.now }
    {
        match self {
            Refusal::Forbidden => origin,
            _ => b"",
        }
    }

    /// Appends the answer to `out`. `origin` is the origin of the server's page. The connection is closed after the
    /// answer. The only error is out of memory.
    pub fn write(self, origin: &[u8], body: Body, out: &mut Vec<u8>) -> Result<(), AllocError>
        ensures { OnOk result (out.new.items ≡ out.old.items ++ refusal_bytes self origin.now body) }
    {
        self.write_head(out)?;
        match body {
            Body::Sent => self.write_body(origin, out),
            Body::LeftOut => Ok(()),
        }
    }

    // Appends the body.
    fn write_body(self, origin: &[u8], out: &mut Vec<u8>) -> Result<(), AllocError>
        ensures { OnOk result (out.new.items ≡ out.old.items ++ body_bytes self origin.now) }
    {
        push_three(out, self.body().as_bytes(), self.shown(origin), b"\r\n")
    }

    // Appends the status line.
    fn write_status_line(self, out: &mut Vec<u8>) -> Result<(), AllocError>
        ensures { OnOk result (out.new.items ≡ out.old.items ++ status_line self) }
    {
        push_three(out, b"HTTP/1.1 ", self.status().as_bytes(), b"\r\n")
    }

    // Appends the fields and the empty line.
    fn write_fields(self, out: &mut Vec<u8>) -> Result<(), AllocError>
        ensures { OnOk result (out.new.items ≡ out.old.items ++ fields_of self) }
    {
        push_three(
            out,
            self.connection().as_bytes(),
            b"Content-Type: text/plain; charset=utf-8\r\n",
            b"X-Content-Type-Options: nosniff\r\n",
        )?;
        out.extend_from_slice(self.field().as_bytes())?;
        out.extend_from_slice(b"\r\n")?;
        Ok(())
    }

    // Appends the status line, the fields and the empty line.
    fn write_head(self, out: &mut Vec<u8>) -> Result<(), AllocError>
        ensures { OnOk result (out.new.items ≡ out.old.items ++ head_of self) }
    {
        self.write_status_line(out)?;
        self.write_fields(out)?;
        Ok(())
    }
}

// Appends three texts.
fn push_three(out: &mut Vec<u8>, first: &[u8], middle: &[u8], last: &[u8]) -> Result<(), AllocError>
    ensures { OnOk result (out.new.items ≡ out.old.items ++ (first.now ++ middle.now ++ last.now)) }
{
    out.extend_from_slice(first)?;
    out.extend_from_slice(middle)?;
    out.extend_from_slice(last)?;
    Ok(())
}
