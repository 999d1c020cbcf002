//! Sorted lists of numbers.

ghost use Rattle.std.specs.Prelude.{◌≡◌, ◌≤◌, [], ◌∷◌, ◌++◌, length, nat_eq, IsTrue, OnOk, OnErr};
ghost use Rattle.std.specs.List.{insert as insert_at, list_any};
ghost use Rattle.std.specs.List.Sorted.{IsNonDecreasing};
ghost use Rattle.mud_index.specs.Rising.{insert, without};

use std::alloc::{AllocError, Global};
use std::marker::Model;

/// A sorted list of numbers, in which binary search finds a number. A contract sees the list.
#[derive(Drop)]
pub(crate) struct Rising {
    numbers: Vec<u32>,
}

impl Model for Rising {
    ghost use Rattle.std.specs.Prelude.{ℕ, List};
    ghost use Rattle.std.specs.List.Sorted.{IsNonDecreasing};

    ghost Value = { List ℕ };

    ghost view = { λ a. a.numbers.items };

    ghost invariant = { λ a. IsNonDecreasing a.numbers.items };
}

// Returns the place to insert the number in a sorted list: after all that are not above it.
fn place_for(numbers: &[u32], number: u32) -> usize
    requires { IsNonDecreasing numbers.now }
    ensures within { result ≤ length numbers.now }
    ensures place { insert_at numbers.now result number ≡ insert number numbers.now }
    ensures rising { IsNonDecreasing (insert number numbers.now) }
{
    numbers.partition_point(|other| *other <= number)
}

// Returns whether the number belongs at the end of a sorted list.
fn is_last(numbers: &[u32], number: u32) -> bool
    requires { IsNonDecreasing numbers.now }
    ensures at_end { IsTrue result → numbers.now ++ number ∷ [] ≡ insert number numbers.now }
    ensures rising { IsTrue result → IsNonDecreasing (numbers.now ++ number ∷ []) }
{
    match numbers.last() {
        Some(last) => *last <= number,
        None => true,
    }
}

// Removes all occurrences of the number from a sorted list.
fn remove_number(numbers: &mut Vec<u32>, number: u32)
    requires { IsNonDecreasing numbers.old.items }
    ensures rising { IsNonDecreasing numbers.new.items }
    ensures items { numbers.new.items ≡ without number numbers.old.items }
{
    while let Ok(place) = numbers.binary_search(&number) {
        numbers.remove(place);
    }
}

impl Rising {
    /// Returns the empty list.
    pub(crate) fn new(alloc: Global) -> Rising
        ensures { result ≡ [] }
    {
        Rising {
            numbers: Vec::new(alloc),
        }
    }

    pub(crate) fn as_slice(&self) -> &[u32]
        ensures { result.now ≡ self.now }
    {
        self.numbers.as_slice()
    }

    pub(crate) fn has(&self, number: u32) -> bool
        ensures { result ≡ list_any (nat_eq number) self.now }
    {
        self.numbers.binary_search(&number).is_ok()
    }

    pub(crate) fn insert(&mut self, number: u32) -> Result<(), AllocError>
        ensures ok { OnOk result (self.new ≡ insert number self.old) }
        ensures err { OnErr result (self.new ≡ self.old) }
    {
        // a new object has the highest number, and a push is cheaper than a search
        if is_last(&self.numbers, number) {
            self.numbers.push(number)?;
            return Ok(());
        }
        let at = place_for(&self.numbers, number);
        self.numbers.insert(at, number)?;
        Ok(())
    }

    pub(crate) fn remove(&mut self, number: u32)
        ensures { self.new ≡ without number self.old }
    {
        remove_number(&mut self.numbers, number);
    }
}

impl Clone for Rising {
    ghost is_clone = { λ a b. b ≡ a };

    fn clone(&self) -> Result<Rising, AllocError> {
        Ok(Rising {
            numbers: self.numbers.clone()?,
        })
    }
}
