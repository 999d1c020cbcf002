//! A sorted list for each number.

ghost use Rattle.std.specs.Prelude.{◌≡◌, ◌<◌, ◌≤◌, [], length, nat_eq, slice_index_or, slice_set, OnOk, OnErr, IfOk, ℕ};
ghost use Rattle.mud_index.specs.Rising.{insert, put, without};
ghost use Rattle.std.specs.List.{list_any};
ghost use Rattle.mud_index.specs.Lists.{list_at, AreSame, AreChanged};

use crate::numbers::Rising;
use std::alloc::{AllocError, Global};
use std::marker::Model;

/// A sorted list of numbers for each number, its holder. A contract sees each holder with its list. Only `list_at`
/// matters, and not which holders have an entry.
///
/// The list of number n is at index n, so no search is needed. Holders should be small numbers, because the table is as
/// long as the greatest of them.
pub struct Lists {
    alloc: Global,
    lists: Vec<Rising>,
}

// Written out, so that a proof about dropping `Lists` has one step instead of one for each part.
impl Drop for Lists {
    fn drop(self) {
        let Lists { alloc: _, lists } = self;
        drop(lists);
    }
}

impl Model for Lists {
    ghost use Rattle.std.specs.Prelude.{ℕ, List};
    ghost use Rattle.std.specs.List.{enumerate_from};

    ghost Value = { List (ℕ × List ℕ) };

    ghost view = { λ a. enumerate_from 0 a.lists.items };
}

// Returns the list at a place, or the empty list if there is no such place.
fn list_of(lists: &[Rising], at: usize) -> &[u32]
    ensures { result.now ≡ slice_index_or lists.now at [] }
{
    match lists.get(at) {
        Some(list) => list.as_slice(),
        None => &[],
    }
}

// Returns whether a number is in the list at a place.
fn has_at(lists: &[Rising], at: usize, number: u32) -> bool
    ensures { result ≡ list_any (nat_eq number) (slice_index_or lists.now at []) }
{
    match lists.get(at) {
        Some(list) => list.has(number),
        None => false,
    }
}

// Appends empty lists up to this length.
fn fill(lists: &mut Vec<Rising>, alloc: Global, len: usize) -> Result<(), AllocError>
    ensures same { (n : ℕ) → slice_index_or lists.new.items n [] ≡ slice_index_or lists.old.items n [] }
    ensures len { OnOk result (len ≤ length lists.new.items) }
{
    for _ in lists.len()..len {
        lists.push(Rising::new(alloc))?;
    }
    Ok(())
}

// Inserts a number into the list at a place, or changes nothing.
fn insert_at(lists: &mut Vec<Rising>, at: usize, number: u32) -> Result<(), AllocError>
    requires { at < length lists.old.items }
    ensures ok { OnOk result (lists.new.items
        ≡ slice_set lists.old.items at (insert number (slice_index_or lists.old.items at []))) }
    ensures err { OnErr result (lists.new.items ≡ lists.old.items) }
{
    lists[at].insert(number)
}

// Removes a number from the list at a place.
fn remove_at(lists: &mut Vec<Rising>, at: usize, number: u32)
    requires { at < length lists.old.items }
    ensures { lists.new.items
        ≡ slice_set lists.old.items at (without number (slice_index_or lists.old.items at [])) }
{
    lists[at].remove(number);
}

impl Lists {
    /// Returns empty lists for all numbers.
    pub fn new(alloc: Global) -> Lists
        ensures { (n : ℕ) → list_at result n ≡ [] }
    {
        Lists {
            alloc,
            lists: Vec::new(alloc),
        }
    }

    /// Returns the holder's list, or the empty list if it has none.
    pub fn get(&self, holder: u32) -> &[u32]
        ensures { result.now ≡ list_at self.now holder }
    {
        list_of(&self.lists, holder as usize)
    }

    /// Inserts a number into the holder's list. An error changes no list.
    pub fn insert(&mut self, holder: u32, number: u32) -> Result<(), AllocError>
        ensures ok { OnOk result (AreChanged (λ n. nat_eq n holder) (insert number) self.old self.new) }
        ensures err { OnErr result (AreSame self.old self.new) }
    {
        let at = holder as usize;
        fill(&mut self.lists, self.alloc, at + 1)?;
        insert_at(&mut self.lists, at, number)
    }

    /// Inserts a number into the holder's list unless it is there already. An error changes no list.
    pub fn put(&mut self, holder: u32, number: u32) -> Result<(), AllocError>
        ensures ok { OnOk result (AreChanged (λ n. nat_eq n holder) (put number) self.old self.new) }
        ensures err { OnErr result (AreSame self.old self.new) }
    {
        if self.has(holder, number) {
            return Ok(());
        }
        self.insert(holder, number)
    }

    /// Returns whether the number is in the holder's list.
    pub fn has(&self, holder: u32, number: u32) -> bool
        ensures { result ≡ list_any (nat_eq number) (list_at self.now holder) }
    {
        has_at(&self.lists, holder as usize, number)
    }

    /// Removes a number from the holder's list. The list keeps its capacity.
    pub fn remove(&mut self, holder: u32, number: u32)
        ensures { AreChanged (λ n. nat_eq n holder) (without number) self.old self.new }
    {
        let at = holder as usize;
        if at < self.lists.len() {
            remove_at(&mut self.lists, at, number);
        }
    }

    /// Returns an independent copy.
    pub fn copy(&self) -> Result<Lists, AllocError>
        ensures { IfOk result (λ lists. lists ≡ self.now) }
    {
        Ok(Lists {
            alloc: self.alloc,
            lists: self.lists.clone()?,
        })
    }
}
