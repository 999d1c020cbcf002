//! The differences of two worlds.

ghost use Rattle.std.specs.Prelude.{◌+◌, IfOk, OnOk};
ghost use Rattle.mud_diff.specs.Differences.{AreDifferences, order};
ghost use Rattle.mud_diff.specs.inner.Found.{AreFound};

use crate::difference::{Difference, What};
use crate::fields::differs_in;
use mud_world::World;
use std::alloc::{AllocError, Global};

// Adds the difference of a number in this field, the next one to compare, if there is one.
fn note(
    old: &World,
    new: &World,
    number: u32,
    what: What,
    found: &mut Vec<Difference>,
) -> Result<(), AllocError>
    requires { AreFound old.now new.now number (order what) found.old.items }
    ensures { OnOk result (AreFound old.now new.now number (order what + 1) found.new.items) }
{
    if differs_in(what, old.get(number), new.get(number)) {
        found.push(Difference { number, what })?;
    }
    Ok(())
}

// Adds the differences of a number, the next one to compare.
fn note_all(
    old: &World,
    new: &World,
    number: u32,
    found: &mut Vec<Difference>,
) -> Result<(), AllocError>
    requires { AreFound old.now new.now number 0 found.old.items }
    ensures { OnOk result (AreFound old.now new.now (number + 1) 0 found.new.items) }
{
    note(old, new, number, What::Added, found)?;
    note(old, new, number, What::Removed, found)?;
    note(old, new, number, What::Names, found)?;
    note(old, new, number, What::Owner, found)?;
    note(old, new, number, What::Kind, found)?;
    note(old, new, number, What::Place, found)?;
    note(old, new, number, What::Source, found)?;
    note(old, new, number, What::Destination, found)?;
    note(old, new, number, What::Cost, found)?;
    note(old, new, number, What::Key, found)
}

/// Returns the differences of the objects of an old world and a new one: exactly those, by rising number, and those of
/// an object in the order of [`What`] (docs/KEEPING.md, "Diff"). The only error is out of memory.
pub fn differences(alloc: Global, old: &World, new: &World) -> Result<Vec<Difference>, AllocError>
    ensures { IfOk result (λ found. AreDifferences old.now new.now found.items) }
{
    let mut found = Vec::new(alloc);
    for number in 0..old.next_number().max(new.next_number()) {
        note_all(old, new, number, &mut found)?;
    }
    Ok(found)
}
