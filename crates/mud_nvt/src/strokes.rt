//! The effect of a piece on the current line.

ghost use Rattle.std.specs.Prelude.{◌≡◌};
ghost use Rattle.mud_nvt.specs.Strokes.{stroke, is_cr};
ghost use Rattle.mud_nvt.specs.inner.Lines.{IsPlain};

use crate::codes::{AYT, BS, CR, DEL, DO, DONT, EC, EL, HT, LF, NUL, SPACE, TILDE, WILL, WONT};
use crate::telnet::Piece;

/// The effect of a piece.
#[derive(Clone, Copy)]
pub enum Stroke {
    /// Appends a character to the line.
    Character(u8),
    /// Erases the last character of the line.
    EraseCharacter,
    /// Erases the line.
    EraseLine,
    /// Ends the line.
    EndLine,
    /// Asks whether anyone is there.
    AreYouThere,
    /// Refuses a request, with this verb for this option.
    Refuse(u8, u8),
    /// Has no effect.
    Nothing,
}

/// Returns the effect of the piece. It depends on whether a CR stands right before the piece.
pub fn stroke_of(after_cr: bool, piece: Piece) -> Stroke
    ensures stroke { result ≡ stroke after_cr piece }
    ensures plain { IsPlain result }
{
    match piece {
        Piece::Data(LF | NUL) if after_cr => Stroke::Nothing,
        Piece::Data(LF | CR) => Stroke::EndLine,
        Piece::Data(HT) => Stroke::Character(SPACE),
        Piece::Data(BS | DEL) => Stroke::EraseCharacter,
        Piece::Data(byte @ SPACE..=TILDE) => Stroke::Character(byte),
        Piece::Data(_) => Stroke::Nothing,
        Piece::Command(AYT) => Stroke::AreYouThere,
        Piece::Command(EC) => Stroke::EraseCharacter,
        Piece::Command(EL) => Stroke::EraseLine,
        Piece::Command(_) => Stroke::Nothing,
        Piece::Request(DO, option) => Stroke::Refuse(WONT, option),
        Piece::Request(WILL, option) => Stroke::Refuse(DONT, option),
        Piece::Request(_, _) => Stroke::Nothing,
        Piece::Subnegotiation => Stroke::Nothing,
    }
}

/// Returns whether the piece is a CR.
pub fn is_return(piece: Piece) -> bool
    ensures { result ≡ is_cr piece }
{
    matches!(piece, Piece::Data(CR))
}
