//! The input and the output of a player.

/// The input and the output of a player: bytes of a Telnet stream.
#[derive(Drop)]
pub struct Transcript {
    /// The whole input.
    pub typed: Vec<u8>,
    /// The greeting, and all answers and notices.
    pub sent: Vec<u8>,
}
