//! A writer that records whether it failed.

ghost use Rattle.std.specs.Prelude.{◌≡◌, ◌||◌, ℕ, true, false, take, is_err};
ghost use Rattle.std.specs.Io.KnownBytes.{Appends, WriteAppends};
ghost use Rattle.std.specs.Io.{WritesAtMost};
ghost use Rattle.mud_io.specs.Streams.{none_passed, new_writer};

use std::io::{self, Write};
use std::marker::Model;

/// A writer, and whether the last write failed. The writer can be reached only through these calls, so a contract can
/// rely on the record.
#[derive(Drop)]
pub struct Sink<W: Write> {
    inner: W,
    has_failed: bool,
}

impl<W: Write> Model for Sink<W> {
    ghost use Rattle.mud_io.specs.Streams.{Writer};

    ghost Value = { Writer };

    ghost view = { λ s. record { holds = W.contents s.inner; has_failed = s.has_failed } };
}

impl<W: Write> Sink<W> {
    /// Wraps a writer that nothing was written to yet.
    pub fn new(inner: W) -> Self
        ensures { result ≡ new_writer (W.contents inner) }
    {
        Self {
            inner,
            has_failed: false,
        }
    }

    /// Writes once, like `Write::write`. A write that accepts no byte of a non-empty buffer also counts as a failure.
    pub fn write(&mut self, buf: &[u8]) -> io::Result<usize>
        ensures bound { WritesAtMost result buf.now }
        ensures bytes { WriteAppends self.old.holds self.new.holds result buf.now }
        ensures has_failed { self.new.has_failed ≡ is_err result || none_passed result buf.now }
    {
        let result = self.inner.write(buf);
        self.has_failed = match &result {
            Ok(count) => *count == 0 && !buf.is_empty(),
            Err(_) => true,
        };
        result
    }

    /// Writes the bytes, and returns whether the writer accepted all of them. If not, a prefix was written, and then a
    /// write failed.
    pub fn write_all(&mut self, bytes: &[u8]) -> bool
        ensures whole { result ≡ true → Appends self.old.holds self.new.holds bytes.now }
        ensures front { (n : ℕ) × Appends self.old.holds self.new.holds (take n bytes.now) }
        ensures failed { result ≡ false → self.new.has_failed ≡ true }
    {
        let mut at = 0;
        while at < bytes.len() {
            match self.write(&bytes[at..]) {
                Ok(0) => return false,
                Ok(n) => at += n,
                Err(_) => return false,
            }
        }
        true
    }
}
