//! An owner for each text.

ghost use Rattle.std.specs.Prelude.{◌≡◌, ◌≤◌, None, Some, map, length, string_bytes, bytes_eq, OnOk, OnErr, IfOk, ℕ};
ghost use Rattle.std.specs.Prelude.{List};
ghost use Rattle.std.specs.Char.{to_ascii_lowercase};
ghost use Rattle.std.specs.Str.{str_to_ascii_lowercase};
ghost use Rattle.indexmap.specs.IndexMap.{spare};
ghost use Rattle.mud_index.specs.Owners.{owner_of, AreOwnersPassed};
ghost use Rattle.mud_index.specs.inner.Owners.{AreOwnersSet};
ghost use Rattle.mud_index.specs.inner.Views.{seen_of};
ghost use Rattle.mud_index.specs.inner.Texts.{items_of};

use indexmap::IndexMap;
use std::alloc::{AllocError, Global};
use std::marker::Model;

// The greatest length of a text whose owner is found by hashing.
const SHORT: usize = 60;

// Returns the texts in lower case.
fn lower_all(alloc: Global, texts: &[String]) -> Result<Vec<Vec<u8>>, AllocError>
    ensures { IfOk result (λ lower. items_of lower.items
        ≡ map str_to_ascii_lowercase (map string_bytes texts.now)) }
{
    let mut lower = Vec::with_capacity(alloc, texts.len())?;
    for text in texts {
        lower.push(text.as_bytes().to_ascii_lowercase(alloc)?)?;
    }
    Ok(lower)
}

// Returns whether the name is the text in lower case.
fn is_lower(text: &[u8], name: &[u8]) -> bool
    ensures { result ≡ bytes_eq (map to_ascii_lowercase text.now) name.now }
{
    if text.len() != name.len() {
        return false;
    }
    for i in 0..text.len() {
        if text[i].to_ascii_lowercase() != name[i] {
            return false;
        }
    }
    true
}

// Removes the texts.
fn drop_each(owners: &mut IndexMap<Vec<u8>, u32>, texts: &[Vec<u8>])
    ensures owners { AreOwnersSet (items_of texts.now) None (seen_of owners.old.entries) (seen_of owners.new.entries) }
    ensures room { spare owners.old ≤ spare owners.new }
{
    for text in texts {
        owners.swap_remove(text.as_slice());
    }
}

// Inserts the texts. The map has the capacity for them.
fn put_each(owners: &mut IndexMap<Vec<u8>, u32>, texts: Vec<Vec<u8>>, owner: u32)
    requires { length texts.items ≤ spare owners.old }
    ensures { AreOwnersSet (items_of texts.items) (Some owner)
        (seen_of owners.old.entries) (seen_of owners.new.entries) }
{
    for text in texts {
        match owners.insert(text, owner) {
            Ok(_) => {}
            Err(_) => unreachable!(),
        }
    }
}

/// A map from texts to owners, such as from names to players. It stores lower-case (ASCII) texts and ignores case in
/// lookups. A contract sees the texts with their owners, in an unspecified order: only `owner_of` matters.
pub struct Owners {
    alloc: Global,
    owners: IndexMap<Vec<u8>, u32>,
}

// Written out for the reason given at `Lists`.
impl Drop for Owners {
    fn drop(self) {
        let Owners { alloc: _, owners } = self;
        drop(owners);
    }
}

impl Model for Owners {
    ghost use Rattle.std.specs.Prelude.{ℕ, List, map};

    ghost Value = { List (List ℕ × ℕ) };

    ghost view = { λ a. map (λ e. (e.0.items, e.1)) a.owners.entries };
}

impl Owners {
    /// Returns a map in which no text has an owner.
    pub fn new(alloc: Global) -> Owners
        ensures { (text : List ℕ) → owner_of result text ≡ None }
    {
        Owners {
            alloc,
            owners: IndexMap::new(alloc),
        }
    }

    // Returns the owner of a lower-case text.
    fn owner(&self, text: &[u8]) -> Option<u32>
        ensures { result ≡ owner_of self.now text.now }
    {
        self.owners.get(text).copied()
    }

    // Returns the owner of a text, ignoring case, by a linear search.
    fn find(&self, text: &[u8]) -> Option<u32>
        ensures { result ≡ owner_of self.now (map to_ascii_lowercase text.now) }
    {
        for (name, owner) in self.owners.iter() {
            if is_lower(text, name) {
                return Some(*owner);
            }
        }
        None
    }

    /// Returns the owner of a text, ignoring ASCII case. It does not allocate. A text of more than 60 bytes is found by
    /// a linear search.
    pub fn get(&self, text: &str) -> Option<u32>
        ensures { result ≡ owner_of self.now (str_to_ascii_lowercase text.now) }
    {
        let bytes = text.as_bytes();
        let mut lower = [0u8; SHORT];
        if bytes.len() > SHORT {
            return self.find(bytes);
        }
        let part = &mut lower[..bytes.len()];
        part.copy_from_slice(bytes);
        part.make_ascii_lowercase();
        self.owner(part)
    }

    /// Gives the new texts this owner. The old texts that are not among the new ones lose theirs, and no others change.
    /// If an allocation fails, nothing changes. ASCII case is ignored.
    pub fn pass(&mut self, old: &[String], new: &[String], owner: u32) -> Result<(), AllocError>
        ensures ok { OnOk result (AreOwnersPassed (map string_bytes old.now) (map string_bytes new.now) owner
            self.old self.new) }
        ensures err { OnErr result ((text : List ℕ) → owner_of self.new text ≡ owner_of self.old text) }
    {
        // only players are found by name, so most objects come without texts
        if old.is_empty() && new.is_empty() {
            return Ok(());
        }
        let gone = lower_all(self.alloc, old)?;
        let come = lower_all(self.alloc, new)?;
        self.owners.reserve(come.len())?;
        drop_each(&mut self.owners, &gone);
        put_each(&mut self.owners, come, owner);
        Ok(())
    }

    /// Returns an independent copy.
    pub fn copy(&self) -> Result<Owners, AllocError>
        ensures { IfOk result (λ owners. owners ≡ self.now) }
    {
        Ok(Owners {
            alloc: self.alloc,
            owners: self.owners.clone()?,
        })
    }
}
