//! The reasons why there is no answer.

use mud_cert::CertFault;
use mud_chron::ChronFault;
use mud_compact::KeptFault;
use mud_map::NoMap;
use thiserror::Error;

/// The reason why there is no answer. The words are those of `mud_check` (docs/CHECKER.md, "Lines").
#[derive(Clone, Copy, Debug, Error)]
pub enum Unkept<'a> {
    /// An allocation failed.
    #[error("out of memory")]
    OutOfMemory,
    /// The file with this name can't be read; `-` is standard input.
    #[error("file {0}")]
    File(&'a str),
    /// The file is empty.
    #[error("empty file")]
    Empty,
    /// The text does not begin as a history.
    #[error("not a history")]
    NotHistory,
    /// This line of the text, counted from 1, is bad.
    #[error("history line {0}")]
    Line(usize),
    /// This entry, counted from 1, is illegal where it occurs.
    #[error("history change {0}")]
    Change(usize),
    /// The text has more than 65,536 entries.
    #[error("history too long")]
    TooLong,
    /// The text ends before its last line does.
    #[error("history without end")]
    NoEnd,
    /// This line of the certificate's text, counted from 1, is bad.
    #[error("proof line {0}")]
    ProofLine(usize),
    /// The certificate is about this version, and the history has fewer changes: the second number.
    #[error("proof version {0}, the history has {1} changes")]
    Version(u32, usize),
    /// The answer can't be written.
    #[error("standard output")]
    Write,
}

impl Unkept<'_> {
    // Returns the reason why a text is not a history.
    fn of_text(fault: ChronFault) -> Unkept<'static> {
        match fault {
            ChronFault::OutOfMemory => Unkept::OutOfMemory,
            ChronFault::NotHistory => Unkept::NotHistory,
            ChronFault::BadLine(line) => Unkept::Line(line),
            ChronFault::BadChange(entry) => Unkept::Change(entry),
            ChronFault::TooLong => Unkept::TooLong,
            ChronFault::NoEnd => Unkept::NoEnd,
        }
    }

    /// Returns the reason why a file has no world.
    pub fn of_file(fault: KeptFault) -> Unkept<'static> {
        match fault {
            KeptFault::Empty => Unkept::Empty,
            KeptFault::Text(fault) => Unkept::of_text(fault),
        }
    }

    /// Returns the reason why there is no map.
    pub fn of_map(fault: NoMap) -> Unkept<'static> {
        match fault {
            NoMap::History(fault) => Unkept::of_file(fault),
            NoMap::Proof(CertFault::OutOfMemory) => Unkept::OutOfMemory,
            NoMap::Proof(CertFault::BadLine(line)) => Unkept::ProofLine(line),
            NoMap::Version(version, changes) => Unkept::Version(version, changes),
        }
    }
}
