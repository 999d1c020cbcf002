//! Runs a session over a reader and a writer.

ghost use Rattle.std.specs.Prelude.{◌≡◌, ℕ, ◌≤◌, ◌⊎◌, [], true, length, List, OnOk, OnErr, IfOk, IfErr};
ghost use Rattle.mud_nvt.specs.History.{StandsAfter};
ghost use Rattle.mud_io.specs.Streams.{new_writer, new_reader};
ghost use Rattle.mud_world.specs.declared.limits.TheConstants.{MOST_ENTRIES};
ghost use Rattle.mud_hall.specs.Steps.{lone_desk};
ghost use Rattle.mud_session.specs.Session.{TakesNone};
ghost use Rattle.mud_session.specs.Script.{IsWhole, IsFront, IsOpen, IsContinued, HasNoHistory};
ghost use Rattle.mud_session.specs.inner.Service.{Serves, ServesInPart, IsWholeAt};

use crate::door::Door;
use crate::session::Session;
use mud_chron::Entry;
use mud_hall::{ResumeFault, Solo};
use mud_io::{MOST_READS, Sink, Source};
use std::alloc::Global;
use std::io::{Read, Write};
use std::sync::Wait;
use std::thread::Threads;
use thiserror::Error;

/// The limits of a script. The guide's answers do not depend on the number of threads.
#[derive(Clone, Copy, Debug, PartialEq, Eq)]
pub struct ScriptLimits {
    /// The number of entries that the history can hold, 1 to 65,536.
    pub capacity: u32,
    /// The number of threads of the guide, 0 to 8.
    pub workers: u32,
}

/// The reason why a script stopped before its end.
#[derive(Clone, Copy, Debug, PartialEq, Eq, Error)]
pub enum ScriptFault {
    #[error("out of memory")]
    OutOfMemory,
    #[error("read fault")]
    Read,
    #[error("write fault")]
    Write,
    #[error("too many reads")]
    TooManyReads,
}

/// The reason why a script that continues entries has no history.
#[derive(Clone, Copy, Debug, PartialEq, Eq, Error)]
pub enum ContinueFault {
    /// The script did not begin. It read nothing and wrote nothing.
    #[error("{0}")]
    NotResumed(ResumeFault),
    /// The script stopped before its end.
    #[error("{0}")]
    Stopped(ScriptFault),
}

const BUFFER_LEN: usize = 4096;

/// Runs a session of its own over a reader and a writer, until the reader's end or an answered `quit`. The end of the
/// reader counts as one more line feed. After a fault the output is a prefix of the text for the bytes read.
pub fn script<X: Threads + Wait + Sync, R: Read, W: Write>(
    rt: &X,
    alloc: Global,
    source: &mut Source<R>,
    sink: &mut Sink<W>,
    limits: ScriptLimits,
) -> Result<(), ScriptFault>
    requires fresh { source.old ≡ new_reader source.old.left }
    requires unwritten { sink.old ≡ new_writer sink.old.holds }
    requires capacity { limits.capacity ≤ MOST_ENTRIES }
    ensures ok { OnOk result (IsWhole TakesNone limits.capacity lone_desk source.old source.new sink.old sink.new) }
    ensures fault { OnErr result (IsFront TakesNone limits.capacity lone_desk source.old source.new sink.old sink.new) }
    ensures reads { source.new.reads ≤ MOST_READS }
    ensures read { result ≡ Err ScriptFault.Read → source.new.has_failed ≡ true }
    ensures write { result ≡ Err ScriptFault.Write → sink.new.has_failed ≡ true }
    ensures many { result ≡ Err ScriptFault.TooManyReads → source.new.reads ≡ MOST_READS }
    ensures open { result ≡ Err ScriptFault.TooManyReads
        → IsOpen TakesNone limits.capacity lone_desk source.old source.new sink.old sink.new }
{
    let Ok(mut solo) = Solo::open(alloc, limits.capacity) else {
        return Err(ScriptFault::OutOfMemory);
    };
    solo.set_workers(limits.workers);
    let Ok(mut session) = Session::new(alloc, false) else {
        return Err(ScriptFault::OutOfMemory);
    };
    converse(rt, &mut session, &mut solo, source, sink)
}

/// Runs a script like [`script`], but after these entries, as the player that `word` means (`Solo::resume`). Returns
/// all entries of the history at its end, the given ones first. After a fault there is no history.
pub fn script_on<X: Threads + Wait + Sync, R: Read, W: Write>(
    rt: &X,
    alloc: Global,
    source: &mut Source<R>,
    sink: &mut Sink<W>,
    limits: ScriptLimits,
    entries: Vec<Entry>,
    word: &str,
) -> Result<Vec<Entry>, ContinueFault>
    requires fresh { source.old ≡ new_reader source.old.left }
    requires unwritten { sink.old ≡ new_writer sink.old.holds }
    requires capacity { limits.capacity ≤ MOST_ENTRIES }
    ensures ok { IfOk result (λ history. IsContinued limits.capacity entries.items word.now source.old source.new
        sink.old sink.new history.items) }
    ensures few { IfOk result (λ history. length history.items ≤ MOST_ENTRIES) }
    ensures fault { IfErr result (HasNoHistory limits.capacity entries.items word.now source.old source.new
        sink.old sink.new) }
    ensures reads { source.new.reads ≤ MOST_READS }
{
    let mut solo = match Solo::resume(alloc, limits.capacity, entries, word) {
        Ok(solo) => solo,
        Err(fault) => return Err(ContinueFault::NotResumed(fault)),
    };
    solo.set_workers(limits.workers);
    let Ok(mut session) = Session::new(alloc, false) else {
        return Err(ContinueFault::Stopped(ScriptFault::OutOfMemory));
    };
    match converse(rt, &mut session, &mut solo, source, sink) {
        Ok(()) => Ok(solo.into_history()),
        Err(fault) => Err(ContinueFault::Stopped(fault)),
    }
}

// Answers the lines of a reader through a door.
fn converse<X: Threads + Wait + Sync, D: Door, R: Read, W: Write>(
    rt: &X,
    session: &mut Session,
    door: &mut D,
    source: &mut Source<R>,
    sink: &mut Sink<W>,
) -> Result<(), ScriptFault>
    requires terminal { StandsAfter session.old.terminal [] }
    requires sent { session.old.out ≡ [] }
    requires fresh { source.old ≡ new_reader source.old.left }
    ensures ok { OnOk result (IsWholeAt D.takes_in (D.state door.old).capacity (D.state door.old).desk
        source.old source.new sink.old sink.new (D.state door.new).desk) }
    ensures fault { OnErr result (IsFront D.takes_in (D.state door.old).capacity (D.state door.old).desk
        source.old source.new sink.old sink.new) }
    ensures reads { source.new.reads ≤ MOST_READS }
    ensures read { result ≡ Err ScriptFault.Read → source.new.has_failed ≡ true }
    ensures write { result ≡ Err ScriptFault.Write → sink.new.has_failed ≡ true }
    ensures many { result ≡ Err ScriptFault.TooManyReads → source.new.reads ≡ MOST_READS }
    ensures open { result ≡ Err ScriptFault.TooManyReads
        → IsOpen D.takes_in (D.state door.old).capacity (D.state door.old).desk
        source.old source.new sink.old sink.new }
{
    let mut buffer = [0u8; BUFFER_LEN];
    for _reads in 0..MOST_READS {
        let n = match source.read(&mut buffer) {
            Ok(n) => n,
            Err(_) => return Err(ScriptFault::Read),
        };
        if n == 0 {
            return serve(rt, session, door, sink, b"\n");
        }
        serve(rt, session, door, sink, &buffer[..n])?;
        if session.ended() {
            return Ok(());
        }
    }
    Err(ScriptFault::TooManyReads)
}

// Feeds the bytes to the session, and writes its output.
fn serve<X: Threads + Wait + Sync, D: Door, W: Write>(
    rt: &X,
    session: &mut Session,
    door: &mut D,
    sink: &mut Sink<W>,
    bytes: &[u8],
) -> Result<(), ScriptFault>
    requires sent { session.old.out ≡ [] }
    ensures ok { OnOk result ((earlier : List ℕ) → StandsAfter session.old.terminal earlier
        → Serves D.takes_in earlier bytes.now session.old session.new (D.state door.old) (D.state door.new)
        sink.old.holds sink.new.holds) }
    ensures fault { OnErr result ((earlier : List ℕ) → StandsAfter session.old.terminal earlier
        → ServesInPart D.takes_in earlier bytes.now (D.state door.old) sink.old.holds sink.new.holds) }
    ensures cause { IfErr result (λ fault. (fault ≡ ScriptFault.OutOfMemory)
        ⊎ ((fault ≡ ScriptFault.Write) × (sink.new.has_failed ≡ true))) }
{
    match session.feed(rt, door, bytes) {
        Ok(()) => {}
        Err(_) => return Err(ScriptFault::OutOfMemory),
    }
    let text = session.take_out();
    if sink.write_all(text.as_slice()) {
        session.reuse(text);
        Ok(())
    } else {
        Err(ScriptFault::Write)
    }
}
