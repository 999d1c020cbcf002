//! A history that grows entry by entry.

ghost use Rattle.std.specs.Prelude.{◌≡◌, ◌++◌, [], ◌∷◌, ⊤, List, IfOk, MatchBool};
ghost use Rattle.mud_chron.specs.Entry.{Entry};
ghost use Rattle.mud_chron.specs.Replay.{changes_of, AreLegal};
ghost use Rattle.mud_undo.specs.inner.Building.{IsBuilt};

use mud_chron::Entry;
use mud_world::World;
use std::alloc::{AllocError, Global};

/// Entries with legal changes, and their world.
#[derive(Drop)]
pub(crate) struct Site {
    pub(crate) entries: Vec<Entry>,
    pub(crate) world: World,
}

impl Site {
    /// Returns the empty history, with the opening world.
    pub(crate) fn new(alloc: Global) -> Result<Site, AllocError>
        ensures empty { IfOk result (λ s. s.entries.items ≡ []) }
        ensures built { IfOk result (λ s. IsBuilt s.entries.items s.world) }
    {
        Ok(Site {
            entries: Vec::new(alloc),
            world: World::opening(alloc)?,
        })
    }

    /// Adds a copy of the entry if its change is legal. Returns whether it is.
    pub(crate) fn put(&mut self, alloc: Global, entry: &Entry) -> Result<bool, AllocError>
        requires { IsBuilt self.old.entries.items self.old.world }
        ensures put { IfOk result (λ is. MatchBool is
            (self.new.entries.items ≡ self.old.entries.items ++ entry.now ∷ [])
            ((rest : List Entry) → AreLegal (changes_of (self.old.entries.items ++ entry.now ∷ rest)) → ⊥)) }
        ensures built { IfOk result (λ is. MatchBool is (IsBuilt self.new.entries.items self.new.world) ⊤) }
    {
        match self.world.legal(entry.change()) {
            Ok(()) => {}
            Err(_) => return Ok(false),
        }
        self.world.apply(entry.change())?;
        self.entries.push(entry.copy(alloc)?)?;
        Ok(true)
    }

    /// Adds copies of the entries in order, as long as each is legal. Returns whether all are.
    pub(crate) fn put_all(&mut self, alloc: Global, part: &[Entry]) -> Result<bool, AllocError>
        requires { IsBuilt self.old.entries.items self.old.world }
        ensures put { IfOk result (λ is. MatchBool is
            (self.new.entries.items ≡ self.old.entries.items ++ part.now)
            (AreLegal (changes_of (self.old.entries.items ++ part.now)) → ⊥)) }
        ensures built { IfOk result (λ is. MatchBool is (IsBuilt self.new.entries.items self.new.world) ⊤) }
    {
        for entry in part {
            if !self.put(alloc, entry)? {
                return Ok(false);
            }
        }
        Ok(true)
    }
}
