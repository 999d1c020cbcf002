//! A hook between taking a room and returning it.

/// A hook that each worker calls after it has taken a room, before it returns the room. No lock is held during the
/// call. Workers and members are numbered from 0. A gate may delay the search, and can't change its labels.
pub trait Gate {
    /// Called by a worker with a member's room.
    fn between(&self, worker: usize, member: usize, room: u32);
}

/// A gate that does nothing.
#[derive(Clone, Copy, Debug, Drop)]
pub struct OpenGate;

impl Gate for OpenGate {
    fn between(&self, _worker: usize, _member: usize, _room: u32) {}
}
