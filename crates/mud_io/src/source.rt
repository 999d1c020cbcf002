//! A reader that records how it was read.

ghost use Rattle.std.specs.Prelude.{◌≡◌, ◌≢◌, ◌↔◌, ◌+◌, ◌<◌, ◌++◌, false, IsTrue, is_ok, is_err, IsErrAnd, IfSome};
ghost use Rattle.std.specs.Prelude.{OnOk};
ghost use Rattle.std.specs.Io.KnownBytes.{IsAtEnd, ReadConsumes};
ghost use Rattle.std.specs.Io.{ReadsAtMost};
ghost use Rattle.std.specs.IoError.{error_kind};
ghost use Rattle.mud_io.specs.Streams.{none_passed, new_reader};

use std::io::{self, ErrorKind, Read};
use std::marker::Model;

/// The greatest number of pieces that may be read from one source.
pub const MOST_READS: u32 = 16_777_216;

/// A reader with three records: how many pieces were read, whether the end was seen, and whether the last read failed.
/// The reader can be reached only through these calls, so a contract can rely on the records.
#[derive(Drop)]
pub struct Source<R: Read> {
    inner: R,
    reads: u32,
    at_end: bool,
    has_failed: bool,
}

impl<R: Read> Model for Source<R> {
    ghost use Rattle.mud_io.specs.Streams.{Reader};

    ghost Value = { Reader };

    ghost view = { λ s. record {
      left = R.remaining s.inner;
      reads = s.reads;
      at_end = s.at_end;
      has_failed = s.has_failed;
    } };
}

impl<R: Read> Source<R> {
    /// Wraps a reader that was not read yet.
    pub fn new(inner: R) -> Self
        ensures { result ≡ new_reader (R.remaining inner) }
    {
        Self {
            inner,
            reads: 0,
            at_end: false,
            has_failed: false,
        }
    }

    /// Reads a piece, like `Read::read`. The first read that sees the end is the last one.
    pub fn read(&mut self, buf: &mut [u8]) -> io::Result<usize>
        requires few { self.old.reads < MOST_READS }
        requires no_end { self.old.at_end ≡ false }
        ensures bound { ReadsAtMost result buf.new }
        ensures bytes { ReadConsumes self.old.left self.new.left result buf.new }
        ensures reads { self.new.reads ≡ self.old.reads + 1 }
        ensures at_end { self.new.at_end ≡ none_passed result buf.new }
        ensures has_failed { self.new.has_failed ≡ is_err result }
    {
        self.reads += 1;
        let result = self.inner.read(buf);
        self.at_end = match &result {
            Ok(count) => *count == 0 && !buf.is_empty(),
            Err(_) => false,
        };
        self.has_failed = result.is_err();
        result
    }

    /// Reads everything that is left, like `Read::read_to_end`. Running out of memory is not a failure of the reader.
    /// After an error nothing is promised about `input` or about the rest of the source, and callers drop both.
    pub fn read_to_end(&mut self, input: &mut Vec<u8>) -> io::Result<usize>
        requires no_end { self.old.at_end ≡ false }
        ensures bytes { OnOk result (IfSome self.old.left (λ bytes. input.new.items ≡ input.old.items ++ bytes)) }
        ensures end { OnOk result (IsAtEnd self.new.left) }
        ensures reads { self.new.reads ≡ self.old.reads }
        ensures at_end { self.new.at_end ≡ is_ok result }
        ensures has_failed { IsTrue self.new.has_failed ↔ IsErrAnd result (λ e. error_kind e ≢ ErrorKind.OutOfMemory) }
    {
        let result = self.inner.read_to_end(input);
        self.at_end = result.is_ok();
        self.has_failed = match &result {
            Ok(_) => false,
            Err(error) => error.kind() != ErrorKind::OutOfMemory,
        };
        result
    }
}
