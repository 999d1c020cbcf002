//! The other sides of connections.

ghost use Rattle.std.specs.Prelude.{◌≡◌};
ghost use Rattle.mud_theorems.specs.Peers.{IsFresh};

/// The other side of a Telnet connection. A contract can name the bytes that came from it and those that it was sent,
/// if something is known of them: so it is with one in memory, and not with a socket.
pub trait Peer {
    ghost use Rattle.std.specs.Prelude.{◌≡◌, ◌≤◌, ℕ, List, length, take, true, false, Option, IfSome, IfNone};
    ghost use Rattle.mud_theorems.specs.Peers.{Traffic, Becomes, with_input, with_end, with_output, with_last};

    /// The name of the peer, which no call changes.
    ghost name: { Self → List ℕ };

    /// All bytes that came from it, and all that it was sent; `None` if nothing is known.
    ghost traffic: { Self → Option Traffic };

    /// Waits for more bytes, and returns their number. Returns `None` once no more will come.
    fn receive(&mut self, buffer: &mut [u8]) -> Option<usize>
        ensures few { IfSome result (λ n. n ≤ length buffer.new) }
        ensures room { length buffer.new ≡ length buffer.old }
        ensures input { IfSome result (λ n.
            Becomes (with_input (take n buffer.new)) (traffic self.old) (traffic self.new)) }
        ensures end { IfNone result (Becomes with_end (traffic self.old) (traffic self.new)) }
        ensures name { name self.new ≡ name self.old };

    /// Sends the bytes, and returns whether the peer took all of them. If not, it took a prefix, and takes no more.
    fn send(&mut self, bytes: &[u8]) -> bool
        ensures all { result ≡ true → Becomes (with_output bytes.now) (traffic self.old) (traffic self.new) }
        ensures part { result ≡ false → (n : ℕ)
            × Becomes (with_last (take n bytes.now)) (traffic self.old) (traffic self.new) }
        ensures name { name self.new ≡ name self.old };
}

/// A peer from which no byte came, and which was sent none.
#[derive(Drop)]
pub struct Arrival<P: Peer> {
    pub(crate) peer: P,
    ghost fresh: { ∥ IsFresh (P.traffic peer) ∥₁ },
}

impl<P: Peer> Arrival<P> {
    /// Returns a peer that has just connected.
    pub fn new(peer: P) -> Arrival<P>
        requires { IsFresh (P.traffic peer) }
        ensures { result.peer ≡ peer }
    {
        Arrival { peer }
    }
}
