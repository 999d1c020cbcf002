//! The state of a room in a search.

ghost use Rattle.std.specs.Prelude.{◌≡◌};
ghost use Rattle.mud_search.specs.Slots.{is_waiting, is_held, label_of};

use mud_roads::Label;

/// The state of a room in a search.
#[derive(Clone, Copy, Debug, PartialEq, Eq, Drop)]
pub enum Slot {
    /// No walk to it is known.
    Unknown,
    /// It has a label, and was not yet relaxed with it.
    Waiting(Label),
    /// It has a label, and a worker has taken it.
    Held(Label),
    /// It has a label, and was relaxed with it.
    Finished(Label),
}

impl Slot {
    /// Returns whether it waits.
    pub fn is_waiting(&self) -> bool
        ensures { result ≡ is_waiting self.now }
    {
        matches!(self, Slot::Waiting(_))
    }

    /// Returns whether it is held.
    pub fn is_held(&self) -> bool
        ensures { result ≡ is_held self.now }
    {
        matches!(self, Slot::Held(_))
    }

    /// Returns its label, if it has one.
    pub fn label(&self) -> Option<Label>
        ensures { result ≡ label_of self.now }
    {
        match *self {
            Slot::Unknown => None,
            Slot::Waiting(label) | Slot::Held(label) | Slot::Finished(label) => Some(label),
        }
    }
}
