//! The holding of an object as a mark for each number. It does not allocate.

ghost use Rattle.std.specs.Prelude.{◌≡◌, true, false, IfSome, OnSome, ◌++◌, replicate, slice_set};
ghost use Rattle.mud_world.specs.State.{IsHolding, unlocked};
ghost use Rattle.mud_world.specs.inner.Marks.{mark_all};

use crate::limits::{KEY_LEVELS, NUMBERS};
use crate::locks::Bearer;
use crate::world::World;
use arrayvec::ArrayVec;

// Marks a number.
fn put_mark(marks: &mut [bool], number: u32)
    ensures { marks.new ≡ slice_set marks.old number true }
{
    if (number as usize) < marks.len() {
        marks[number as usize] = true;
    }
}

// Returns a mark for each of the numbers.
fn marks_of(numbers: &[u32]) -> [bool; NUMBERS]
    ensures { result ≡ mark_all numbers.now (replicate NUMBERS false) }
{
    let mut marks = [false; NUMBERS];
    for number in numbers {
        put_mark(&mut marks, *number);
    }
    marks
}

// Appends the numbers, or returns `None` if there is no room.
fn push_all(found: &mut ArrayVec<u32, NUMBERS>, numbers: &[u32]) -> Option<()>
    ensures { OnSome result (found.new.items ≡ found.old.items ++ numbers.now) }
{
    found.try_extend_from_slice(numbers).ok()
}

impl World {
    // Returns the numbers of the object, if it exists, and of everything inside it at any depth. The array has room for
    // any world, so the result is never `None`; no proof needs that.
    fn gather(&self, candidate: u32) -> Option<ArrayVec<u32, NUMBERS>>
        ensures { IfSome result (λ found. IsHolding self.now candidate found.items) }
    {
        // for the prover: the world is sound
        self.know_sound();
        let mut found = ArrayVec::new();
        if self.exists(candidate) {
            found.try_push(candidate).ok()?;
        }
        for i in 0..NUMBERS + 1 {
            match found.get(i) {
                None => return Some(found),
                Some(at) => {
                    let inner = self.contents(*at);
                    push_all(&mut found, inner)?;
                }
            }
        }
        None
    }

    // Returns whether the object is unlocked for the candidate, given the candidate's holding.
    fn is_unlocked_by_marks(&self, candidate: u32, numbers: &[u32], object: u32) -> bool
        requires { IsHolding self.now candidate numbers.now }
        ensures { result ≡ unlocked self.now candidate object }
    {
        // for the prover: the world is sound
        self.know_sound();
        let marks = marks_of(numbers);
        self.is_unlocked_in(Bearer::Marks(&marks), object, KEY_LEVELS)
    }

    // Returns whether an object with a key is unlocked for the candidate. It is a separate function because its stack
    // frame is large, and an inlined call would cost that everywhere.
    #[inline(never)]
    fn is_unlocked_for(&self, candidate: u32, object: u32) -> bool
        ensures { result ≡ unlocked self.now candidate object }
    {
        match self.gather(candidate) {
            Some(found) => self.is_unlocked_by_marks(candidate, found.as_slice(), object),
            None => self.is_unlocked_in(Bearer::Number(candidate), object, KEY_LEVELS),
        }
    }

    /// Returns whether the object is unlocked for the candidate. Few objects have a key, and only those need the
    /// candidate's holding. To ask about all objects, `judge` costs less.
    pub fn is_unlocked(&self, candidate: u32, object: u32) -> bool
        ensures { result ≡ unlocked self.now candidate object }
    {
        self.is_keyless(object) || self.is_unlocked_for(candidate, object)
    }
}
