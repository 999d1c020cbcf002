//! A channel: the server's side of a web socket after the handshake.

ghost use Rattle.std.specs.Prelude.{◌≡◌, ◌≢◌, ◌≤◌, ◌<◌, ◌++◌, ◌∷◌, ℕ, List, [], length, drop, true, false, Err};
ghost use Rattle.std.specs.Prelude.{IsErr, IfOk, IfErr, OnOk, OnErr, IfSome, option_map};
ghost use Rattle.std.specs.Str.{IsAscii};
ghost use Rattle.websocket.specs.Content.{IsReceivedInside, HasValidText, received_content};
ghost use Rattle.websocket.specs.Connection.{IsDoneSending, can_write};
ghost use Rattle.mud_nvt.specs.declared.codes.TheConstants.{LF};
ghost use Rattle.mud_web.specs.Channel.{StandsAfter, TakesIn, EndsWith, typed_by, new_connection};
ghost use Rattle.mud_web.specs.Sending.{frame_of, frames_of};
ghost use Rattle.mud_web.specs.declared.fault.Fault.TheVariants.{Over};
ghost use Rattle.mud_web.specs.Close.{ending_of, closes_once};
ghost use Rattle.mud_web.specs.Channel.{IfOver};
ghost use Rattle.mud_web.specs.inner.Steps.{Steps, Refuses, IsNoEnd, IsTyped, closes_in};

use crate::closing::Ending;
use crate::fault::{Fault, SendFault};
use crate::messages::message_len;
use std::alloc::{AllocError, Global};
use std::marker::Model;
use std::str;
use websocket::error::Error;
use websocket::protocol::{
    CloseFrame, FrameStatus, Message, NoMask, Received, Role, Step, WebSocketConfig,
    WebSocketContext,
};

/// The greatest length of a client's message, and of each of its frames, in bytes.
pub const MOST_MESSAGE: usize = 4096;

/// The server's side of a web socket after the handshake. It does no input or output itself. It keeps at most one frame
/// and one message, besides the bytes that it is fed. Its context is boxed, so that a channel is cheap to move.
#[derive(Drop)]
pub struct Channel {
    context: Box<WebSocketContext>,
    unread: Vec<u8>,
    has_ended: bool,
}

impl Model for Channel {
    ghost use Rattle.std.specs.Prelude.{◌≡◌};
    ghost use Rattle.websocket.specs.declared.protocol.config.Role.TheVariants.{Server};
    ghost use Rattle.mud_web.specs.Channel.{Standing};

    ghost Value = { Standing };

    ghost view = { λ c. record { conn = c.context.value; unread = c.unread.items; has_ended = c.has_ended } };

    ghost invariant = { λ c. c.context.value.role ≡ Server };
}

impl Channel {
    /// Returns a channel in its initial state. The only error is out of memory.
    pub fn new(alloc: Global) -> Result<Channel, AllocError>
        ensures stands { IfOk result (λ channel. StandsAfter channel []) }
        ensures conn { IfOk result (λ channel. channel.conn ≡ new_connection) }
    {
        let config = WebSocketConfig {
            max_message_size: Some(MOST_MESSAGE),
            max_frame_size: Some(MOST_MESSAGE),
            accept_unmasked_frames: false,
        };
        Ok(Channel {
            context: Box::new(alloc, WebSocketContext::new(alloc, Role::Server, config))?,
            unread: Vec::new(alloc),
            has_ended: false,
        })
    }

    /// Returns whether the channel has ended and accepts no more bytes.
    pub fn ended(&self) -> bool
        ensures { result ≡ self.now.has_ended }
    {
        self.has_ended
    }

    /// Consumes the next bytes of the connection. Appends each text message that they complete to `typed`, followed by
    /// LF. Appends the frames that are due as replies to `replies`: pongs, the close that answers a close, and the
    /// close that an error calls for (RFC 6455, sections 5.5 and 7.1.7). After an error the channel accepts no more
    /// bytes. If the error is out of memory, the caller must discard `typed` and `replies`.
    pub fn feed(
        &mut self,
        bytes: &[u8],
        typed: &mut Vec<u8>,
        replies: &mut Vec<u8>,
    ) -> Result<(), Fault>
        ensures ok { OnOk result (TakesIn self.old self.new bytes.now typed.old.items typed.new.items
            replies.old.items replies.new.items) }
        ensures over { IfErr result (λ fault. IfOver fault (EndsWith self.old bytes.now
            typed.old.items typed.new.items replies.old.items replies.new.items)) }
        ensures err { OnErr result (self.new.has_ended ≡ true) }
        ensures ended { self.old.has_ended ≡ true → (result ≡ Err Fault.Ended) × (self.new ≡ self.old)
            × (typed.new.items ≡ typed.old.items) × (replies.new.items ≡ replies.old.items) }
        ensures ended_only { result ≡ Err Fault.Ended → self.old.has_ended ≡ true }
    {
        if self.has_ended {
            return Err(Fault::Ended);
        }
        match self.read_all(bytes, typed, replies) {
            Ok(()) => Ok(()),
            Err(fault) => {
                self.has_ended = true;
                Err(fault)
            }
        }
    }

    // Consumes bytes on a channel that has not ended.
    fn read_all(
        &mut self,
        bytes: &[u8],
        typed: &mut Vec<u8>,
        replies: &mut Vec<u8>,
    ) -> Result<(), Fault>
        requires { self.old.has_ended ≡ false }
        ensures ok { OnOk result (TakesIn self.old self.new bytes.now typed.old.items typed.new.items
            replies.old.items replies.new.items) }
        ensures over { IfErr result (λ fault. IfOver fault (EndsWith self.old bytes.now
            typed.old.items typed.new.items replies.old.items replies.new.items)) }
        ensures no_end { IfErr result IsNoEnd }
    {
        self.unread.extend_from_slice(bytes)?;
        for _ in 0..u64::MAX {
            match self.step(typed, replies) {
                Ok(more) => {
                    if !more {
                        return Ok(());
                    }
                }
                Err(fault) => return Err(self.fail(fault, replies)),
            }
        }
        Err(Fault::OutOfMemory)
    }

    // Consumes the first unread frame, if it is complete.
    fn step(&mut self, typed: &mut Vec<u8>, replies: &mut Vec<u8>) -> Result<bool, Fault>
        ensures took { IfOk result (Steps self.old self.new typed.old.items typed.new.items
            replies.old.items replies.new.items) }
        ensures over { IfErr result (λ fault. IfOver fault (Refuses self.old self.new typed.old.items typed.new.items
            replies.old.items replies.new.items)) }
        ensures no_end { IfErr result IsNoEnd }
    {
        match self
            .context
            .read(self.unread.as_mut_slice(), replies, &mut NoMask)
        {
            Ok(FrameStatus::Partial(_)) => Ok(false),
            Ok(FrameStatus::Complete(step)) => {
                let consumed = step.consumed;
                match type_message(typed, step, &self.unread) {
                    Ok(()) => {}
                    Err(_) => return Err(Fault::OutOfMemory),
                }
                drop_front(&mut self.unread, consumed);
                Ok(true)
            }
            Err(Error::OutOfMemory) => Err(Fault::OutOfMemory),
            Err(error) => Err(Fault::Over(error)),
        }
    }

    // Appends the close frame that a fault calls for. Returns the fault, or out of memory.
    fn fail(&mut self, fault: Fault, replies: &mut Vec<u8>) -> Fault
        requires { IsNoEnd fault }
        ensures over { IfOver result (λ e. (fault ≡ Over e)
            × (replies.new.items ≡ replies.old.items ++ closes_in self.old.conn.state (ending_of e))) }
        ensures no_end { IsNoEnd result }
    {
        let ending = match fault {
            Fault::Over(error) => Ending::of(error),
            _ => Some(Ending::InternalError),
        };
        let Some(ending) = ending else {
            return fault;
        };
        match self.send_close(ending, replies) {
            Ok(()) => fault,
            Err(_) => Fault::OutOfMemory,
        }
    }

    /// Appends a text to `out` as text messages of one frame each; the empty text gives no frame. A message has at most
    /// [`MOST_SENT`] bytes. A longer text is cut after the last LF that fits, or at the limit if none fits. The text
    /// must be ASCII. Nothing is sent once a close was sent or received. An error leaves everything unchanged.
    pub fn send(&mut self, text: &[u8], out: &mut Vec<u8>) -> Result<(), SendFault>
        ensures ok { OnOk result (out.new.items ≡ out.old.items ++ frames_of text.now) }
        ensures same { self.new ≡ self.old }
        ensures err { OnErr result (out.new.items ≡ out.old.items) }
        ensures not_text { result ≡ Err SendFault.NotText → ¬ (IsAscii text.now) }
        ensures closed { result ≡ Err SendFault.Closed → can_write self.old.conn.state ≡ false }
        ensures silent { can_write self.old.conn.state ≡ false → text.now ≢ [] → IsErr result }
    {
        if text.is_empty() {
            return Ok(());
        }
        if !self.context.can_write() {
            return Err(SendFault::Closed);
        }
        if !text.is_ascii() {
            return Err(SendFault::NotText);
        }
        let sent = out.len();
        match self.send_messages(text, out) {
            Ok(()) => Ok(()),
            Err(fault) => {
                out.truncate(sent);
                Err(fault)
            }
        }
    }

    // Appends the messages of a text. An error may leave some of them in `out`.
    fn send_messages(&mut self, text: &[u8], out: &mut Vec<u8>) -> Result<(), SendFault>
        requires { IsAscii text.now }
        ensures ok { OnOk result (out.new.items ≡ out.old.items ++ frames_of text.now) }
        ensures same { self.new ≡ self.old }
        ensures err { OnErr result ((more : List ℕ) × (out.new.items ≡ out.old.items ++ more)) }
        ensures text { result ≢ Err SendFault.NotText }
        ensures closed { result ≡ Err SendFault.Closed → can_write self.old.conn.state ≡ false }
    {
        let mut rest = text;
        while !rest.is_empty() {
            let (message, behind) = rest.split_at(message_len(rest));
            self.send_message(message, out)?;
            rest = behind;
        }
        Ok(())
    }

    // Appends one message.
    fn send_message(&mut self, text: &[u8], out: &mut Vec<u8>) -> Result<(), SendFault>
        requires ascii { IsAscii text.now }
        requires some { 0 < length text.now }
        ensures ok { OnOk result (out.new.items ≡ out.old.items ++ frame_of text.now) }
        ensures same { self.new ≡ self.old }
        ensures err { OnErr result (out.new.items ≡ out.old.items) }
        ensures text { result ≢ Err SendFault.NotText }
        ensures closed { result ≡ Err SendFault.Closed → can_write self.old.conn.state ≡ false }
    {
        let Ok(text) = str::from_utf8(text) else {
            return Err(SendFault::NotText);
        };
        match self.context.write(Message::Text(text), out, &mut NoMask) {
            Ok(()) => Ok(()),
            Err(Error::OutOfMemory) => Err(SendFault::OutOfMemory),
            Err(_) => Err(SendFault::Closed),
        }
    }

    /// Appends the close frame of an ending to `out`, unless a close was sent already (RFC 6455, section 5.5.1). From
    /// then on the channel accepts no more bytes and ignores later input. The only error is out of memory, and it
    /// appends nothing.
    pub fn close(&mut self, ending: Ending, out: &mut Vec<u8>) -> Result<(), AllocError>
        ensures ok { OnOk result (out.new.items ≡ out.old.items ++ closes_once self.old.conn.state ending) }
        ensures done { OnOk result (IsDoneSending self.new.conn.state) }
        ensures ended { self.new.has_ended ≡ true }
        ensures err { OnErr result (out.new.items ≡ out.old.items) }
    {
        self.has_ended = true;
        self.send_close(ending, out)
    }

    // Appends the close frame of an ending, unless a close was sent already.
    fn send_close(&mut self, ending: Ending, out: &mut Vec<u8>) -> Result<(), AllocError>
        ensures ok { OnOk result (out.new.items ≡ out.old.items ++ closes_once self.old.conn.state ending) }
        ensures done { OnOk result (IsDoneSending self.new.conn.state) }
        ensures goes_on { self.new.has_ended ≡ self.old.has_ended }
        ensures err { OnErr result (out.new.items ≡ out.old.items) }
    {
        let frame = CloseFrame {
            code: ending.code(),
            reason: ending.reason(),
        };
        match self.context.close(Some(frame), out, &mut NoMask) {
            Ok(()) => Ok(()),
            Err(_) => Err(AllocError),
        }
    }
}

// Returns the text of a received text message.
fn text_of<'a>(received: &'a Received, input: &'a [u8]) -> Option<&'a str>
    requires inside { IsReceivedInside input.now received.now }
    requires valid { HasValidText (received_content input.now received.now) }
    ensures { IsTyped (received_content input.now received.now) (option_map (λ t. t.now) result) }
{
    match received.message(input) {
        Message::Text(text) => Some(text),
        _ => None,
    }
}

// Appends the text of the step's message, if it has one.
fn type_message(typed: &mut Vec<u8>, step: Step, input: &[u8]) -> Result<(), AllocError>
    requires inside { IfSome step.message (IsReceivedInside input.now) }
    requires valid { IfSome step.message (λ m. HasValidText (received_content input.now m)) }
    ensures { OnOk result (typed.new.items ≡ typed.old.items
        ++ typed_by (option_map (received_content input.now) step.message)) }
{
    let Some(received) = &step.message else {
        return Ok(());
    };
    match text_of(received, input) {
        Some(text) => type_line(typed, text.as_bytes()),
        None => Ok(()),
    }
}

// Removes the first `count` bytes.
fn drop_front(unread: &mut Vec<u8>, count: usize)
    requires { count ≤ length unread.old.items }
    ensures { unread.new.items ≡ drop count unread.old.items }
{
    unread.drain(..count);
}

// Appends a text and LF.
fn type_line(typed: &mut Vec<u8>, text: &[u8]) -> Result<(), AllocError>
    ensures { OnOk result (typed.new.items ≡ typed.old.items ++ (text.now ++ LF ∷ [])) }
{
    typed.extend_from_slice(text)?;
    typed.push(b'\n')?;
    Ok(())
}
