//! The framing of a client's bytes.

ghost use Rattle.std.specs.Prelude.{◌≡◌, ◌++◌, ◌⊎◌, [], OnOk, IfOk, IfErr};
ghost use Rattle.mud_web.specs.Channel.{IfOver};

use mud_session::Session;
use mud_web::{Channel, Ending, Fault, SendFault};
use std::alloc::{AllocError, Global};
use std::mem;

// The capacity up to which the memory of frames is used again.
const REUSED_BYTES: usize = 4096;

/// The framing of a client's bytes.
#[derive(Drop)]
pub enum Framing {
    /// Telnet: unchanged.
    Telnet,
    /// A web socket: input and output are text messages.
    Web(Channel),
}

impl Framing {
    ghost use Rattle.mud_client.specs.Framed.{IsNew, Reads, Breaks, framed, last_words, last_close};

    /// Returns the framing of a Telnet client.
    pub fn telnet() -> Framing
        ensures { IsNew result }
    {
        Framing::Telnet
    }

    /// Returns the framing of a web socket in its initial state. The only error is out of memory.
    pub fn web(alloc: Global) -> Result<Framing, AllocError>
        ensures { IfOk result IsNew }
    {
        Ok(Framing::Web(Channel::new(alloc)?))
    }

    // Consumes input: appends the typed text to `typed`, and the protocol's replies to `replies`.
    pub(crate) fn read(
        &mut self,
        bytes: &[u8],
        typed: &mut Vec<u8>,
        replies: &mut Vec<u8>,
    ) -> Result<(), Fault>
        requires { replies.old.items ≡ [] }
        ensures ok { OnOk result (Reads self.old self.new bytes.now typed.old.items typed.new.items replies.new.items) }
        ensures over { IfErr result (λ fault. IfOver fault (Breaks self.old bytes.now typed.old.items typed.new.items
            replies.new.items)) }
    {
        match self {
            Framing::Telnet => match typed.extend_from_slice(bytes) {
                Ok(()) => Ok(()),
                Err(AllocError) => Err(Fault::OutOfMemory),
            },
            Framing::Web(channel) => channel.feed(bytes, typed, replies),
        }
    }

    // Returns the output of a session as it is sent. Frames are written into the spare memory, and the session uses the
    // memory of its output again.
    pub(crate) fn frame(
        &mut self,
        alloc: Global,
        session: &mut Session,
        spare: &mut Vec<u8>,
    ) -> Result<Vec<u8>, SendFault>
        ensures text { IfOk result (λ bytes. bytes.items ≡ framed self.old session.old.out) }
        ensures session { session.new ≡ record session.old { out = [] } }
        ensures same { self.new ≡ self.old }
    {
        let text = session.take_out();
        match self {
            Framing::Telnet => Ok(text),
            Framing::Web(_) if text.is_empty() => Ok(text),
            Framing::Web(channel) => {
                let mut bytes = mem::replace(spare, Vec::new(alloc));
                bytes.clear();
                channel.send(&text, &mut bytes)?;
                session.reuse(text);
                Ok(bytes)
            }
        }
    }

    // Takes the memory of an output that was sent: the session or further frames use it again. The memory of a long
    // output is freed instead.
    pub(crate) fn reuse(&self, session: &mut Session, spare: &mut Vec<u8>, sent: Vec<u8>)
        ensures { session.new ≡ session.old }
    {
        match self {
            Framing::Telnet => session.reuse(sent),
            Framing::Web(_) if sent.capacity() <= REUSED_BYTES => *spare = sent,
            Framing::Web(_) => {}
        }
    }

    // Appends the last line. If an allocation fails, nothing is appended.
    pub(crate) fn say_last(&mut self, line: &str, out: &mut Vec<u8>)
        ensures said { (out.new.items ≡ out.old.items ++ last_words self.old line.now)
            ⊎ (out.new.items ≡ out.old.items) }
        ensures same { self.new ≡ self.old }
    {
        match self {
            Framing::Telnet => {
                let _ = out.extend_from_slice(line.as_bytes());
            }
            Framing::Web(channel) => {
                let _ = channel.send(line.as_bytes(), out);
            }
        }
    }

    // Appends the close of a web socket, if there is one. If an allocation fails, nothing is appended.
    pub(crate) fn close(&mut self, ending: Option<Ending>, out: &mut Vec<u8>)
        ensures { (out.new.items ≡ out.old.items ++ last_close self.old ending) ⊎ (out.new.items ≡ out.old.items) }
    {
        if let (Framing::Web(channel), Some(ending)) = (self, ending) {
            let _ = channel.close(ending, out);
        }
    }
}
