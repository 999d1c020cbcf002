//! The new numbers of a world's objects.

ghost use Rattle.std.specs.Prelude.{◌≡◌};
ghost use Rattle.mud_renumber.specs.Numbers.{number_at, number_in};

use mud_world::limits::NUMBERS;

/// The new number of each old one.
#[derive(Drop)]
pub enum Numbers {
    /// All numbers stay.
    Same,
    /// The new numbers of the old ones from 0 on. A number behind the list never had an object.
    Moved(Vec<u32>),
}

/// Returns the number in the list for an old number, or 8,192 behind the list.
pub(crate) fn number_at(numbers: &[u32], number: u32) -> u32
    ensures { result ≡ number_at numbers.now number }
{
    match numbers.get(number as usize) {
        Some(new) => *new,
        None => NUMBERS as u32,
    }
}

impl Numbers {
    /// Returns the new number of an old one.
    pub fn of(&self, number: u32) -> u32
        ensures { result ≡ number_in self.now number }
    {
        match self {
            Numbers::Same => number,
            Numbers::Moved(numbers) => number_at(numbers, number),
        }
    }
}
