//! The index of the keys of a world.

ghost use Rattle.std.specs.Prelude.{◌≡◌, ℕ, true, false, not, ◌||◌, ◌&&◌, [], ◌∷◌, ◌++◌, is_none};
ghost use Rattle.std.specs.Prelude.{nat_eq, slice_set, IfOk, OnOk};
ghost use Rattle.std.specs.List.{list_any};
ghost use Rattle.mud_world.specs.State.{State, has};
ghost use Rattle.mud_world.specs.Sound.{IsSound};
ghost use Rattle.mud_world.specs.History.{step_or_same};
ghost use Rattle.mud_world.specs.KeyIndex.{IsKeyIndex};
ghost use Rattle.mud_world.specs.inner.Answers.{IsLooked, IsEnlarged, rekeyed_by};

use crate::world::World;
use crate::{Change, Deed};
use std::alloc::{AllocError, Global};
use std::marker::Model;

/// Which objects of a world have a key. `World::judge` looks only at those. An index is made by a look at each object,
/// and follows each later change.
#[derive(Drop)]
pub struct KeyIndex {
    // for each number, true if its object has no key
    keyless: Vec<bool>,
    // the numbers of the objects with a key, and perhaps others
    keyed: Vec<u32>,
}

impl Model for KeyIndex {
    ghost use Rattle.std.specs.Prelude.{ℕ, Bool, List};

    ghost Value = { List Bool × List ℕ };

    ghost view = { λ x. (x.keyless.items, x.keyed.items) };
}

// Sets the result for an object.
pub(crate) fn put_answer(answers: &mut Vec<bool>, object: u32, answer: bool)
    ensures { answers.new.items ≡ slice_set answers.old.items object answer }
{
    if let Some(place) = answers.get_mut(object as usize) {
        *place = answer;
    }
}

impl KeyIndex {
    /// Returns the index of the keys of a world. The only error is out of memory.
    pub fn of(alloc: Global, world: &World) -> Result<KeyIndex, AllocError>
        ensures { IfOk result (IsKeyIndex world.now) }
    {
        let next = world.next_number();
        // few objects have a key, and a write costs more than a look
        let mut keyless = vec![in alloc; true; next as usize]?;
        let mut keyed = Vec::new(alloc);
        for object in 0..next {
            if !world.is_keyless(object) {
                put_answer(&mut keyless, object, false);
                keyed.push(object)?;
            }
        }
        Ok(KeyIndex { keyless, keyed })
    }

    // Returns for each number whether its object has no key.
    pub(crate) fn keyless(&self) -> &[bool]
        ensures { result.now ≡ self.now.0 }
    {
        &self.keyless
    }

    // Returns the numbers of the objects with a key, and perhaps others.
    pub(crate) fn keyed(&self) -> &[u32]
        ensures { result.now ≡ self.now.1 }
    {
        &self.keyed
    }

    /// Follows a change. `world` is the world after the change. The only error is out of memory; then nothing is known
    /// of the index.
    pub fn follow(&mut self, world: &World, change: &Change) -> Result<(), AllocError>
        ensures { (was : State) → IsSound was → IsKeyIndex was self.old → world.now ≡ step_or_same was change.now
            → OnOk result (IsKeyIndex world.now self.new) }
    {
        self.look_again(world, change)?;
        self.grow(world)
    }

    // Looks again at the object that a change may have given a key, or taken it from.
    fn look_again(&mut self, world: &World, change: &Change) -> Result<(), AllocError>
        ensures { OnOk result (IsLooked world.now (rekeyed_by change.now.deed) self.old self.new) }
    {
        match rekeyed_by(change) {
            Some(object) => self.look_at(world, object),
            None => Ok(()),
        }
    }

    // Looks at one object again.
    fn look_at(&mut self, world: &World, object: u32) -> Result<(), AllocError>
        ensures keyless { OnOk result (self.new.0
            ≡ slice_set self.old.0 object (has world.now object (λ r. is_none r.key))) }
        ensures keyed { OnOk result ((o : ℕ) → list_any (nat_eq o) self.new.1
            ≡ (list_any (nat_eq o) self.old.1
            || (not (has world.now object (λ r. is_none r.key)) && nat_eq o object))) }
    {
        let is_keyless = world.is_keyless(object);
        put_answer(&mut self.keyless, object, is_keyless);
        if !is_keyless && !self.keyed.contains(&object) {
            self.keyed.push(object)?;
        }
        Ok(())
    }

    // Looks at the objects that the world has beyond the known ones.
    fn grow(&mut self, world: &World) -> Result<(), AllocError>
        ensures { OnOk result (IsEnlarged world.now self.old self.new) }
    {
        for object in self.keyless.len()..world.next_number() as usize {
            self.learn(world, object as u32)?;
        }
        Ok(())
    }

    // Appends the entry of the next object.
    fn learn(&mut self, world: &World, object: u32) -> Result<(), AllocError>
        ensures keyless { OnOk result (self.new.0 ≡ self.old.0 ++ has world.now object (λ r. is_none r.key) ∷ []) }
        ensures keyed { OnOk result ((o : ℕ) → list_any (nat_eq o) self.new.1
            ≡ (list_any (nat_eq o) self.old.1
            || (not (has world.now object (λ r. is_none r.key)) && nat_eq o object))) }
    {
        let is_keyless = world.is_keyless(object);
        self.keyless.push(is_keyless)?;
        if !is_keyless {
            self.keyed.push(object)?;
        }
        Ok(())
    }
}

// Returns the object that gets a key, loses its key, or is gone after a change.
fn rekeyed_by(change: &Change) -> Option<u32>
    ensures { result ≡ rekeyed_by change.now.deed }
{
    match &change.deed {
        Deed::Lock { object, .. } => Some(*object),
        Deed::Unlock { object } | Deed::Recycle { object } => Some(*object),
        _ => None,
    }
}
