//! Tasks of a frontier, and their outcomes.

use mud_roads::Label;

/// A room to relax, and its label at the time it was taken.
#[derive(Clone, Copy, Debug, PartialEq, Eq, Drop)]
pub struct Task {
    /// The index of the member in the party, from 0.
    pub member: usize,
    /// The number of the room.
    pub room: u32,
    /// Its label at that time.
    pub label: Label,
}

/// The outcome of returning a task.
#[derive(Clone, Copy, Debug, PartialEq, Eq, Drop)]
pub enum Put {
    /// The room still had the task's label. Its steps were relaxed, and it is finished.
    Done,
    /// The room has another label, or none; nothing changed.
    Stale,
}

/// The remaining work.
#[derive(Clone, Copy, Debug, PartialEq, Eq, Drop)]
pub struct Rest {
    /// The number of waiting rooms.
    pub waiting: usize,
    /// The number of held rooms.
    pub held: usize,
}
