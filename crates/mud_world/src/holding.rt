//! The set of objects that a candidate carries, and the locks that it opens.

ghost use Rattle.std.specs.Prelude.{◌≡◌, ℕ, List, IfOk, OnOk, IsTrue, ◌↔◌, nat_eq};
ghost use Rattle.mud_world.specs.State.{IsHolding, unlocked, Within};
ghost use Rattle.std.specs.List.{list_any};
ghost use Rattle.indexmap.specs.IndexSet.{insert_key, insert_all};

use crate::limits::KEY_LEVELS;
use crate::locks::Bearer;
use crate::world::World;
use indexmap::IndexSet;
use std::alloc::AllocError;
use std::marker::Model;

/// The numbers of an object and of everything inside it at any depth. These are the objects that are true in a key that
/// the object meets. The set is a snapshot of one world and does not follow later changes. A contract sees the list of
/// the numbers.
#[derive(Drop)]
pub struct Holding {
    members: IndexSet<u32>,
}

impl Model for Holding {
    ghost use Rattle.std.specs.Prelude.{ℕ, List};

    ghost Value = { List ℕ };

    ghost view = { λ a. a.members.keys };
}

impl Holding {
    /// Returns whether the set contains the object.
    pub fn has(&self, object: u32) -> bool
        ensures { result ≡ list_any (nat_eq object) self.now }
    {
        self.members.contains(&object)
    }
}

// Adds a number unless the set has it.
fn add_number(members: &mut IndexSet<u32>, number: u32) -> Result<(), AllocError>
    ensures { OnOk result (members.new.keys ≡ insert_key nat_eq members.old.keys number) }
{
    match members.insert(number) {
        Ok(_) => Ok(()),
        Err(_) => Err(AllocError),
    }
}

// Adds each number that the set does not have.
fn add_numbers(members: &mut IndexSet<u32>, numbers: &[u32]) -> Result<(), AllocError>
    ensures { OnOk result (members.new.keys ≡ insert_all nat_eq members.old.keys numbers.now) }
{
    for number in numbers {
        add_number(members, *number)?;
    }
    Ok(())
}

impl World {
    /// Returns the object and everything inside it at any depth, or the empty set if it does not exist. It descends
    /// through contents, and visits each object once (LambdaMOO Programmer's Manual, "Fundamental Object Attributes":
    /// contents). The only error is out of memory.
    pub fn carried(&self, candidate: u32) -> Result<Holding, AllocError>
        ensures holding { IfOk result (IsHolding self.now candidate) }
        ensures members { IfOk result (λ held. (o : ℕ)
            → IsTrue (list_any (nat_eq o) held) ↔ Within self.now o candidate) }
    {
        let next = self.next_number();
        let mut members = IndexSet::new(self.alloc);
        if self.exists(candidate) {
            add_number(&mut members, candidate)?;
        }
        for i in 0..next {
            match members.get_index(i as usize) {
                None => return Ok(Holding { members }),
                Some(at) => {
                    let inner = self.contents(*at);
                    add_numbers(&mut members, inner)?;
                }
            }
        }
        // for the prover: `len` shows that no number is in the set twice
        let _known = members.len();
        Ok(Holding { members })
    }

    /// Returns whether an object is unlocked for the holder: it exists, and has no key or one that is true. In a key an
    /// object is true if the holding has it, and `?x` is true if x is unlocked in turn. A recycled object is false in
    /// both forms, and nobody passes by rank (this project's profile, in the manner of LambdaCore's keys). It does not
    /// allocate.
    pub fn unlocked(&self, holding: &Holding, object: u32) -> bool
        ensures { (c : ℕ) → IsHolding self.now c holding.now → result ≡ unlocked self.now c object }
    {
        self.is_unlocked_in(Bearer::Holder(holding), object, KEY_LEVELS)
    }
}
