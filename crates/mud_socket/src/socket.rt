//! Sockets of connections.

ghost use Rattle.std.specs.Prelude.{◌≡◌, ◌≤◌, length, IfOk};
ghost use Rattle.mud_socket.specs.Entrance.{entrance_word};

use crate::options::probe;
use crate::parting::{Ending, Parting};
use crate::patience::Patience;
use crate::time::now;
use std::alloc::Global;
use std::io::{ErrorKind, Read, Write};
use std::net::{IpAddr, Ipv4Addr, Shutdown, SocketAddr, TcpStream};
use std::sync::atomic::{AtomicBool, Ordering};
use std::sync::{Mutex, Wait};
use std::time::{Clock, Duration};

// The number of seconds that the other side has for taking a text. It gets one more second for each such piece that it
// took.
const WRITE_SECONDS: u64 = 60;

const PIECE_LEN: usize = 16_384;

// The longest wait of one read or write. Between two of them a thread looks whether its session should rest.
const SLICE_MILLISECONDS: u64 = 200;

// The number of seconds that a browser has for taking the answer to its request, and one more for each such piece.
const ANSWER_SECONDS: u64 = 10;

// The limits of draining a socket after the last output, in seconds and in bytes.
const DRAIN_SECONDS: u32 = 2;

const DRAIN_MOST: usize = 262_144;

const DRAIN_LEN: usize = 4096;

// The time limit for telling why all sessions end.
const ENDING_SECONDS: u64 = 4;

/// The listener through which a connection came.
#[derive(Clone, Copy, Debug, PartialEq, Eq)]
pub enum Entrance {
    /// By Telnet.
    Telnet,
    /// The web listener.
    Web,
}

impl Entrance {
    /// Returns its word in the log, and on the host's console.
    pub fn word(self) -> &'static str
        ensures { result.now ≡ entrance_word self }
    {
        match self {
            Entrance::Telnet => "telnet",
            Entrance::Web => "web",
        }
    }
}

/// The socket of a connection, its entrance, and the first reason why its session ended.
pub struct Socket {
    stream: TcpStream,
    entrance: Entrance,
    parting: Mutex<Option<Parting>>,
    // True once the host ends the session.
    is_dismissed: AtomicBool,
    // True while the session rests between two volumes, or is about to.
    is_resting: AtomicBool,
    // The text that the other side did not take before the session rested, and that comes before any other. Threads
    // send under the session's lock, so it stays in order.
    kept: Mutex<Vec<u8>>,
}

impl Drop for Socket {
    fn drop(self) {
        let Socket {
            stream,
            entrance: _,
            parting,
            is_dismissed,
            is_resting,
            kept,
        } = self;
        drop(stream);
        drop(parting);
        drop(is_dismissed);
        drop(is_resting);
        drop(kept);
    }
}

/// Returns an address and port, with an IPv4-mapped address as IPv4 (RFC 4291, section 2.5.5.2). So a connection has
/// the same address by a listener for both families as by one for IPv4.
pub fn canonical(peer: SocketAddr) -> SocketAddr {
    SocketAddr::new(peer.ip().to_canonical(), peer.port())
}

// Returns the time that the other side has for a text after it took `taken` bytes, if it has `seconds` seconds for the
// first byte.
fn time_for(seconds: u64, taken: usize) -> Duration {
    let more = (taken / PIECE_LEN) as u64;
    Duration::from_secs(seconds.saturating_add(more))
}

/// Sets the options of a new session's socket, whatever the listener's are. Output is sent at once, and a read or a
/// write waits for a slice of time. A vanished peer is detected. Returns whether they could be set.
pub fn set_up(stream: &TcpStream) -> bool {
    let slice = Some(Duration::from_millis(SLICE_MILLISECONDS));
    stream.set_nodelay(true).is_ok()
        && stream.set_read_timeout(slice).is_ok()
        && stream.set_write_timeout(slice).is_ok()
        && probe(stream)
}

impl Socket {
    /// Returns the socket of a connection that came through this entrance.
    pub fn new(alloc: Global, stream: TcpStream, entrance: Entrance) -> Socket {
        Socket {
            stream,
            entrance,
            parting: Mutex::new(None),
            is_dismissed: AtomicBool::new(false),
            is_resting: AtomicBool::new(false),
            kept: Mutex::new(Vec::new(alloc)),
        }
    }

    /// Begins the rest between two volumes: a text that the other side does not take at once is kept.
    pub fn begin_rest(&self) {
        self.is_resting.store(true, Ordering::SeqCst);
    }

    /// Ends the rest. The kept text is sent before the next text.
    pub fn end_rest(&self) {
        self.is_resting.store(false, Ordering::SeqCst);
    }

    // Returns whether the session rests, or is about to.
    fn is_resting(&self) -> bool {
        self.is_resting.load(Ordering::SeqCst)
    }

    /// Keeps a text, which is sent before the next text. Returns false if an allocation fails.
    pub fn keep<R: Wait>(&self, rt: &R, text: &[u8]) -> bool {
        self.kept.lock(rt).extend_from_slice(text).is_ok()
    }

    // Takes the kept text, if there is one, with this text behind it. The error is out of memory.
    fn take_kept<R: Wait>(&self, rt: &R, text: &[u8]) -> Result<Option<Vec<u8>>, Parting> {
        let mut kept = self.kept.lock(rt);
        if kept.is_empty() {
            return Ok(None);
        }
        if kept.extend_from_slice(text).is_err() {
            return Err(Parting::OutOfMemory);
        }
        let empty = Vec::new(*Vec::allocator(&kept));
        Ok(Some(std::mem::replace(&mut *kept, empty)))
    }

    /// Returns the entrance.
    pub fn entrance(&self) -> Entrance {
        self.entrance
    }

    /// Returns the address of the other side, with an IPv4-mapped address as IPv4. It is 0.0.0.0:0 if the other side is
    /// already gone.
    pub fn peer(&self) -> SocketAddr {
        let nobody = SocketAddr::new(IpAddr::V4(Ipv4Addr::UNSPECIFIED), 0);
        canonical(self.stream.peer_addr().unwrap_or(nobody))
    }

    /// Records that the host ends the session.
    pub fn dismiss(&self) {
        self.is_dismissed.store(true, Ordering::SeqCst);
    }

    /// Returns the reason why the host ends the session, if it does.
    pub fn dismissal(&self) -> Option<Ending> {
        if self.is_dismissed.load(Ordering::SeqCst) {
            Some(Ending::ByHost)
        } else {
            None
        }
    }

    /// Records a reason for the end of the session. Returns the first recorded reason.
    pub fn part<R: Wait>(&self, rt: &R, parting: Parting) -> Parting {
        let mut first = self.parting.lock(rt);
        match *first {
            Some(first) => first,
            None => {
                *first = Some(parting);
                parting
            }
        }
    }

    /// Reads the next bytes, and waits no longer than a slice of time. Returns the number of bytes, 0 if none came. The
    /// error is the reason for the end of the session: the patience is over, or the input.
    pub fn read<C: Clock>(
        &self,
        clock: &C,
        patience: &Patience,
        buffer: &mut [u8],
    ) -> Result<usize, Parting>
        ensures { IfOk result (λ count. count ≤ length buffer.old) }
    {
        let mut stream = &self.stream;
        patience.wait(now(clock))?;
        match stream.read(buffer) {
            Ok(0) => Err(Parting::Left),
            Ok(count) => Ok(count),
            Err(error) if error.kind() == ErrorKind::Interrupted => Ok(0),
            Err(error) if error.kind() == ErrorKind::WouldBlock => Ok(0),
            Err(_) => Err(Parting::Left),
        }
    }

    /// Sends a whole text. The error is the reason for the end of the session, if the other side did not take all of
    /// it. Such a text is the last one: the socket is shut, so that no other thread sends anything after it.
    pub fn send<R: Wait + Clock>(&self, rt: &R, text: &[u8]) -> Result<(), Parting> {
        let written = self.write(rt, text);
        if written.is_err() {
            self.shut();
        }
        written
    }

    // Writes the kept text and a whole text, unless the other side is too slow or gone.
    fn write<R: Wait + Clock>(&self, rt: &R, text: &[u8]) -> Result<(), Parting> {
        match self.take_kept(rt, text)? {
            None => self.write_whole(rt, text, WRITE_SECONDS),
            Some(both) if self.is_resting() => self.keep_rest(rt, &both),
            Some(both) => self.write_whole(rt, &both, WRITE_SECONDS),
        }
    }

    // Keeps the rest of a text that the other side did not take.
    fn keep_rest<R: Wait>(&self, rt: &R, text: &[u8]) -> Result<(), Parting> {
        if self.keep(rt, text) {
            Ok(())
        } else {
            Err(Parting::OutOfMemory)
        }
    }

    /// Answers a request, and ends the connection.
    pub fn answer<R: Wait + Clock>(&self, rt: &R, answer: &[u8]) {
        let _ = self.write_whole(rt, answer, ANSWER_SECONDS);
        self.drain(rt);
        self.shut();
    }

    /// Ends writing, and drains further input until the other side ends the connection, for at most two seconds or a
    /// quarter of a megabyte. Closing a socket with unread input would discard the last output (RFC 9112, section 9.6).
    pub fn drain<R: Wait + Clock>(&self, rt: &R) {
        self.end_writing();
        let patience = Patience::new(0, DRAIN_SECONDS, now(rt));
        let mut buffer = [0u8; DRAIN_LEN];
        let mut drained = 0usize;
        for _ in rt.forever() {
            match self.read(rt, &patience, &mut buffer) {
                Ok(count) if drained < DRAIN_MOST => drained = drained.saturating_add(count),
                _ => return,
            }
        }
    }

    /// Ends writing, which the other side can see. Its input can still be read.
    pub fn end_writing(&self) {
        let _ = self.stream.shutdown(Shutdown::Write);
    }

    // Writes a whole text, in slices of time. After the first slice the other side has this number of seconds, and one
    // more for each piece. If the session rests, the rest of the text after a slice is kept.
    fn write_whole<R: Wait + Clock>(
        &self,
        rt: &R,
        text: &[u8],
        seconds: u64,
    ) -> Result<(), Parting> {
        if text.is_empty() {
            return Ok(());
        }
        let taken = self.write_some(text)?;
        if taken >= text.len() {
            return Ok(());
        }
        self.write_rest(rt, text, taken, seconds)
    }

    // Writes the rest of a text, from the byte at `written` on.
    fn write_rest<R: Wait + Clock>(
        &self,
        rt: &R,
        text: &[u8],
        written: usize,
        seconds: u64,
    ) -> Result<(), Parting> {
        let start = now(rt);
        let mut taken = written;
        for _ in rt.forever() {
            if taken >= text.len() {
                return Ok(());
            }
            if self.is_resting() {
                return self.keep_rest(rt, &text[taken..]);
            }
            taken = taken.saturating_add(self.write_some(&text[taken..])?);
            let wait = time_for(seconds, taken).saturating_sub(now(rt).saturating_sub(start));
            if wait.is_zero() && taken < text.len() {
                return Err(Parting::WriteTimeout);
            }
        }
        unreachable!()
    }

    // Writes as much of a text as the other side takes before the socket's time is over. Returns the number of bytes.
    fn write_some(&self, text: &[u8]) -> Result<usize, Parting> {
        let mut stream = &self.stream;
        match stream.write(text) {
            Ok(count) => Ok(count.min(text.len())),
            Err(error) if error.kind() == ErrorKind::Interrupted => Ok(0),
            Err(error) if error.kind() == ErrorKind::WouldBlock => Ok(0),
            Err(_) => Err(Parting::Left),
        }
    }

    /// Sends once why the session is ended from outside, if the other side takes it soon. A second caller waits until
    /// it was sent. A session that has ended for another reason gets nothing.
    pub fn tell_ending<R: Wait>(&self, rt: &R, ending: Ending) {
        let mut first = self.parting.lock(rt);
        if first.is_some() {
            return;
        }
        *first = Some(Parting::of_ending(ending));
        self.say_last(rt, ending.line().as_bytes());
    }

    /// Sends the kept text and the last text, if the other side takes them soon.
    pub fn say_last<R: Wait>(&self, rt: &R, text: &[u8]) {
        let mut stream = &self.stream;
        let _ = stream.set_write_timeout(Some(Duration::from_secs(ENDING_SECONDS)));
        let _ = match self.take_kept(rt, text) {
            Ok(Some(both)) => stream.write_all(&both),
            _ => stream.write_all(text),
        };
    }

    /// Shuts the socket, which ends a read or a write of another thread.
    pub fn shut(&self) {
        let _ = self.stream.shutdown(Shutdown::Both);
    }
}
