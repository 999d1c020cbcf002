//! Computes for all objects at once whether they are unlocked for a holder.

ghost use Rattle.std.specs.Prelude.{◌≡◌, ℕ, false, true, length, slice_index_or, slice_set, nat_eq, IfOk};
ghost use Rattle.std.specs.Option.{option_map_or};
ghost use Rattle.std.specs.List.{list_any};
ghost use Rattle.mud_world.specs.declared.limits.TheConstants.{KEY_LEVELS};
ghost use Rattle.mud_world.specs.KeyIndex.{IsKeyIndex};
ghost use Rattle.mud_world.specs.Truth.{key_true};
ghost use Rattle.mud_world.specs.State.{has, unlocked_in, unlocked, IsHolding};

use crate::KeyIndex;
use crate::holding::Holding;
use crate::key_index::put_answer;
use crate::locks::{Asked, Bearer};
use crate::world::World;
use std::alloc::{AllocError, Global};

impl World {
    // Returns the results at the next level: the keys are read with the results of this level.
    fn judge_more(
        &self,
        alloc: Global,
        holding: &Holding,
        index: &KeyIndex,
        before: &[bool],
    ) -> Result<Vec<bool>, AllocError>
        requires { IsKeyIndex self.now index.now }
        ensures count { IfOk result (λ after. length after.items ≡ self.now.next) }
        ensures answers { IfOk result (λ after. (o : ℕ) → slice_index_or after.items o false
            ≡ has self.now o (λ r. option_map_or
            (key_true (λ a. list_any (nat_eq a) holding.now) (λ o. slice_index_or before.now o false)) r.key true)) }
    {
        let keyless = index.keyless();
        let mut answers = Vec::with_capacity(alloc, keyless.len())?;
        answers.extend_from_slice(keyless)?;
        for object in index.keyed() {
            let is_unlocked = self.is_unlocked_by(
                Bearer::Holder(holding),
                Asked::Answers(before),
                *object,
            );
            put_answer(&mut answers, *object, is_unlocked);
        }
        // for the prover: the world is sound
        self.know_sound();
        Ok(answers)
    }

    // Returns the results after all four levels, each computed from the one before.
    fn judge_levels(
        &self,
        alloc: Global,
        index: &KeyIndex,
        holding: &Holding,
    ) -> Result<Vec<bool>, AllocError>
        requires { IsKeyIndex self.now index.now }
        ensures count { IfOk result (λ answers. length answers.items ≡ self.now.next) }
        ensures answers { IfOk result (λ answers. (o : ℕ) → slice_index_or answers.items o false
            ≡ unlocked_in self.now KEY_LEVELS (λ a. list_any (nat_eq a) holding.now) o) }
    {
        let first = self.judge_more(alloc, holding, index, index.keyless())?;
        let second = self.judge_more(alloc, holding, index, &first)?;
        let third = self.judge_more(alloc, holding, index, &second)?;
        self.judge_more(alloc, holding, index, &third)
    }

    /// Returns for each number below the next one whether its object is unlocked for the holder (`unlocked`). The index
    /// must be that of this world. Each key is read once for each level, and its questions are table look-ups, however
    /// the keys nest. The only error is out of memory.
    pub fn judge(
        &self,
        alloc: Global,
        index: &KeyIndex,
        holding: &Holding,
    ) -> Result<Vec<bool>, AllocError>
        requires { IsKeyIndex self.now index.now }
        ensures count { IfOk result (λ answers. length answers.items ≡ self.now.next) }
        ensures answers { IfOk result (λ answers. (c o : ℕ) → IsHolding self.now c holding.now
            → slice_index_or answers.items o false ≡ unlocked self.now c o) }
    {
        self.judge_levels(alloc, index, holding)
    }
}
