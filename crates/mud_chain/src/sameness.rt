//! Decides whether two worlds are equal.

ghost use Rattle.std.specs.Prelude.{◌≡◌, ◌≢◌, true, IfOk, MatchBool};
ghost use Rattle.mud_world.specs.State.{record_at};

use mud_diff::compare;
use mud_world::World;
use std::alloc::{AllocError, Global};

// Returns true if the objects with this number have different kinds, places or owners, or only one world has it.
fn differs_at(world: &World, other: &World, number: u32) -> bool
    ensures { result ≡ true → record_at world.now number ≢ record_at other.now number }
{
    match (world.get(number), other.get(number)) {
        (Some(record), Some(other)) => record.owner != other.owner || record.kind != other.kind,
        (None, None) => false,
        _ => true,
    }
}

// Returns true if a quick look finds a difference. Most worlds of a history differ so from its last one.
fn differs_soon(world: &World, other: &World) -> bool
    ensures { result ≡ true → world.now ≢ other.now }
{
    if world.next_number() != other.next_number() {
        return true;
    }
    for number in 0..world.next_number() {
        if differs_at(world, other, number) {
            return true;
        }
    }
    false
}

/// Returns whether the worlds are equal: each record by its number, and the next number. The only error is out of
/// memory.
pub fn is_same(alloc: Global, world: &World, other: &World) -> Result<bool, AllocError>
    ensures { IfOk result (λ b. MatchBool b (world.now ≡ other.now) (world.now ≢ other.now)) }
{
    if differs_soon(world, other) {
        return Ok(false);
    }
    Ok(compare(alloc, world, other)?.is_same)
}
