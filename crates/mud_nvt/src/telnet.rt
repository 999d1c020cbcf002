//! Splits a Telnet stream into pieces: data bytes, commands, requests and subnegotiations.

ghost use Rattle.std.specs.Prelude.{◌≡◌};
ghost use Rattle.mud_nvt.specs.inner.Machine.{next_place, finished_piece};

use crate::codes::{DO, DONT, IAC, SB, SE, WILL, WONT};

/// A whole piece of the stream.
#[derive(Clone, Copy)]
pub enum Piece {
    /// A data byte. The data byte 255 is sent as IAC IAC.
    Data(u8),
    /// IAC and one byte.
    Command(u8),
    /// IAC, one of WILL, WONT, DO and DONT, and the number of an option.
    Request(u8, u8),
    /// Everything from IAC SB to IAC SE.
    Subnegotiation,
}

/// The position inside the piece that has begun.
#[derive(Clone, Copy)]
pub enum Position {
    /// No piece has begun.
    Between,
    /// After IAC.
    BehindIac,
    /// After IAC and this verb.
    BehindVerb(u8),
    /// Inside a subnegotiation.
    Inside,
    /// Inside a subnegotiation, after IAC.
    InsideBehindIac,
}

/// Returns the position after the byte, and the piece that the byte completes.
pub fn step(place: Position, byte: u8) -> (Position, Option<Piece>)
    ensures place { result.0 ≡ next_place place byte }
    ensures piece { result.1 ≡ finished_piece place byte }
{
    match place {
        Position::Between => match byte {
            IAC => (Position::BehindIac, None),
            _ => (Position::Between, Some(Piece::Data(byte))),
        },
        Position::BehindIac => match byte {
            IAC => (Position::Between, Some(Piece::Data(IAC))),
            SB => (Position::Inside, None),
            WILL | WONT | DO | DONT => (Position::BehindVerb(byte), None),
            _ => (Position::Between, Some(Piece::Command(byte))),
        },
        Position::BehindVerb(verb) => (Position::Between, Some(Piece::Request(verb, byte))),
        Position::Inside => match byte {
            IAC => (Position::InsideBehindIac, None),
            _ => (Position::Inside, None),
        },
        Position::InsideBehindIac => match byte {
            SE => (Position::Between, Some(Piece::Subnegotiation)),
            _ => (Position::Inside, None),
        },
    }
}
