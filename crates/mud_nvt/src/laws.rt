//! Laws of the definitions. Each contract is a law, and its function does nothing.

ghost use Rattle.std.specs.Prelude.{◌≡◌, ◌↔◌, ℕ, List, All, ◌++◌};
ghost use Rattle.mud_nvt.specs.declared.telnet.Piece.{Piece};
ghost use Rattle.mud_nvt.specs.Telnet.{pieces};
ghost use Rattle.mud_nvt.specs.Grammar.{Cuts};
ghost use Rattle.mud_nvt.specs.Units.{Given, units};
ghost use Rattle.mud_nvt.specs.Lines.{IsSound};
ghost use Rattle.mud_nvt.specs.declared.TheConstants.{MOST};
ghost use Rattle.mud_nvt.specs.declared.codes.TheConstants.{IAC, SE, AYT, EC, EL, SB, WILL, WONT, DO, DONT};
ghost use Rattle.mud_nvt.specs.declared.codes.TheConstants.{NUL, BS, HT, LF, CR, DEL, SPACE, TILDE};

/// The grammar cuts any bytes into exactly the pieces of the definition.
pub fn cutting()
    ensures { (bytes : List ℕ) (others : List Piece) → Cuts bytes others ↔ (pieces bytes ≡ others) }
{}

/// Units are never taken back: the units of some bytes are a prefix of the units of these bytes and any later ones.
pub fn permanence()
    ensures { (bytes more : List ℕ) → (fresh : List Given) × (units (bytes ++ more) ≡ units bytes ++ fresh) }
{}

/// Each line among the units has at most 1,000 characters, each of them a byte from 32 to 126.
pub fn soundness()
    ensures { (bytes : List ℕ) → All IsSound (units bytes) }
{}

/// Promises the greatest length of a line.
pub fn limits()
    ensures most { MOST ≡ 1000 }
{}

/// Promises that the named bytes have the values of RFC 854 and US-ASCII.
pub fn codes()
    ensures commands { (IAC ≡ 255) × (SE ≡ 240) × (AYT ≡ 246) × (EC ≡ 247) × (EL ≡ 248) × (SB ≡ 250) }
    ensures requests { (WILL ≡ 251) × (WONT ≡ 252) × (DO ≡ 253) × (DONT ≡ 254) }
    ensures controls { (NUL ≡ 0) × (BS ≡ 8) × (HT ≡ 9) × (LF ≡ 10) × (CR ≡ 13) × (DEL ≡ 127) }
    ensures characters { (SPACE ≡ 32) × (TILDE ≡ 126) }
{}
