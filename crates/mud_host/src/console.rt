//! Consoles on standard input and at a Unix socket, where the host types while the server runs.

use crate::files::HostFiles;
use crate::host::Host;
use mud_socket::rest;
use std::alloc::Global;
use std::fs::{self, DirBuilder, File};
use std::io::{self, Eprint, ErrorKind, Read, Write};
use std::net::Net;
use std::os::unix::fs::{DirBuilderExt, FileTypeExt, PermissionsExt};
use std::os::unix::net::{UnixListener, UnixStream};
use std::rt::{Files, Runtime};
use std::sync::Wait;
use std::time::{Clock, Duration};

// The number of bytes of one read.
const PIECE_LEN: usize = 512;

// The greatest length of a line in bytes.
const MOST_LINE: usize = 1_024;

// The time limits of a console at the socket: for its next line, and for an answer to be taken.
const SILENT_SECONDS: u64 = 3_600;

const WRITE_SECONDS: u64 = 10;

// The pause after a failed call of the socket.
const REST_MILLISECONDS: u64 = 100;

// Only the user that runs the server may use the socket. It is made inside a folder that only this user may enter.
const SOCKET_MODE: u32 = 0o600;

const FOLDER_MODE: u32 = 0o700;

/// The line typed so far.
#[derive(Drop)]
struct Typed {
    bytes: Vec<u8>,
    // True if the line is too long. The rest of it is dropped.
    is_long: bool,
}

impl Typed {
    // Returns the empty line.
    fn new(alloc: Global) -> Typed {
        Typed {
            bytes: Vec::new(alloc),
            is_long: false,
        }
    }

    // Appends a byte other than a line end.
    fn push(&mut self, byte: u8) {
        if self.bytes.len() >= MOST_LINE || self.bytes.push(byte).is_err() {
            self.is_long = true;
        }
    }

    // Returns the line, or the empty line if it is too long or not text.
    fn line(&self) -> &str {
        if self.is_long {
            return "";
        }
        std::str::from_utf8(&self.bytes).unwrap_or("")
    }

    // Answers the line, and begins the next one. Returns `None` if an allocation fails.
    fn answer<R: HostFiles + AllocGlobal + Wait + Clock>(
        &mut self,
        host: &Host<R>,
    ) -> Option<String> {
        let answer = host.answer(self.line());
        self.bytes.clear();
        self.is_long = false;
        answer
    }
}

// Consumes typed bytes, and answers each of their lines on standard error.
fn take<R: HostFiles + AllocGlobal + Eprint + Wait + Clock>(
    host: &Host<R>,
    typed: &mut Typed,
    bytes: &[u8],
) {
    for byte in bytes {
        if *byte != b'\n' {
            typed.push(*byte);
        } else if let Some(answer) = typed.answer(host) {
            let _ = host.rt.eprint(answer.as_str());
        }
    }
}

// Reads standard input to its end, or until the server should stop.
fn read_all<R: Runtime + Files<File = File> + AllocGlobal + Wait + Clock>(host: &Host<R>) {
    let mut input = host.rt.reader();
    let mut typed = Typed::new(host.rt.alloc());
    let mut piece = [0u8; PIECE_LEN];
    for _ in host.rt.forever() {
        match input.read(&mut piece) {
            Ok(0) => return,
            Ok(count) => take(host, &mut typed, &piece[..count]),
            Err(error) if error.kind() == ErrorKind::Interrupted => continue,
            Err(_) => return,
        }
        if host.control().sign.is_set() {
            return;
        }
    }
}

/// Runs the console on standard input. Its end stops the server.
pub fn watch<R: Runtime + Files<File = File> + AllocGlobal + Wait + Clock>(host: &Host<R>) {
    read_all(host);
    host.control().sign.set();
}

// Consumes bytes from the socket, and answers each of their lines there.
fn take_there<R: HostFiles + AllocGlobal + Wait + Clock>(
    host: &Host<R>,
    stream: &mut UnixStream,
    typed: &mut Typed,
    bytes: &[u8],
) -> io::Result<()> {
    for byte in bytes {
        if *byte != b'\n' {
            typed.push(*byte);
        } else if let Some(answer) = typed.answer(host) {
            stream.write_all(answer.as_str().as_bytes())?;
        }
    }
    Ok(())
}

/// Runs a console at a connection of the socket, to its end.
pub(crate) fn converse<R: HostFiles + AllocGlobal + Wait + Clock>(
    host: &Host<R>,
    mut stream: UnixStream,
) -> io::Result<()> {
    stream.set_read_timeout(Some(Duration::from_secs(SILENT_SECONDS)))?;
    stream.set_write_timeout(Some(Duration::from_secs(WRITE_SECONDS)))?;
    let mut typed = Typed::new(host.rt.alloc());
    let mut piece = [0u8; PIECE_LEN];
    for _ in host.rt.forever() {
        let count = match stream.read(&mut piece) {
            Ok(count) => count,
            Err(error) if error.kind() == ErrorKind::Interrupted => continue,
            Err(error) => return Err(error),
        };
        if count == 0 {
            return Ok(());
        }
        take_there(host, &mut stream, &mut typed, &piece[..count])?;
    }
    unreachable!()
}

/// Returns the next connection of the socket. After a failed call it tries again.
pub(crate) fn next_console<R: Wait>(rt: &R, listener: &UnixListener) -> UnixStream {
    for _ in rt.forever() {
        match listener.accept() {
            Ok((stream, _)) => return stream,
            Err(_) => rest(rt, Duration::from_millis(REST_MILLISECONDS)),
        }
    }
    unreachable!()
}

// Returns an error unless the name is free: no file has it, or a socket without a listener does.
fn check_name<R: Files<File = File> + Net>(rt: &R, name: &str) -> io::Result<()> {
    match fs::symlink_metadata(rt, name) {
        Err(error) if error.kind() == ErrorKind::NotFound => Ok(()),
        Err(error) => Err(error),
        Ok(about) if !about.file_type().is_socket() => Err(ErrorKind::AlreadyExists.into()),
        Ok(_) => match UnixStream::connect(rt, name) {
            Ok(_) => Err(ErrorKind::AddrInUse.into()),
            Err(error) if error.kind() == ErrorKind::ConnectionRefused => Ok(()),
            Err(error) => Err(error),
        },
    }
}

// Binds a socket inside a new folder, and then renames it.
fn bind_inside<R: Files<File = File> + Net>(
    rt: &R,
    folder: &str,
    inside: &str,
    name: &str,
) -> io::Result<UnixListener> {
    let _ = fs::remove_file(rt, inside);
    let _ = fs::remove_dir(rt, folder);
    DirBuilder::new().mode(FOLDER_MODE).create(rt, folder)?;
    let listener = UnixListener::bind(rt, inside)?;
    fs::set_permissions(rt, inside, fs::Permissions::from_mode(SOCKET_MODE))?;
    fs::rename(rt, inside, name)?;
    fs::remove_dir(rt, folder)?;
    Ok(listener)
}

/// Binds a socket at this path that only its owner can use. It is made in a folder that only the owner may enter, and
/// then renamed. So no other user can connect before its mode is set, whatever the umask is.
pub(crate) fn bind_control<R: Files<File = File> + Net + AllocGlobal>(
    rt: &R,
    name: &str,
) -> io::Result<UnixListener> {
    check_name(rt, name)?;
    let folder = format!(in rt.alloc(); "{name}.new")?;
    let inside = format!(in rt.alloc(); "{name}.new/socket")?;
    bind_inside(rt, folder.as_str(), inside.as_str(), name)
}
