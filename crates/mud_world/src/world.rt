//! The world: its objects, sorted by number, and the next number.

ghost use Rattle.std.specs.Prelude.{codes, ◌≡◌, [], ◌∷◌, IfOk, IfSome, IsTrue, option_copied};
ghost use Rattle.mud_world.specs.State.{named_player, is_player, State, record_at};
ghost use Rattle.mud_world.specs.State.{contents_of, leaving_of, arriving_of};
ghost use Rattle.mud_world.specs.Sound.{IsSound};

use crate::links::Links;
use crate::maps::grow;
use crate::slots::Slots;
use crate::{Kind, Record};
use mud_index::{Lists, Owners};
use mud_key::{Names, NamesFault};
use std::alloc::{AllocError, Global};
use std::marker::Model;

// Returns the names of #0.
fn hall_names(alloc: Global) -> Result<Names, AllocError>
    ensures { IfOk result (λ names. names ≡ codes "The Hall" ∷ []) }
{
    match Names::read(alloc, "The Hall") {
        Ok(names) => Ok(names),
        Err(NamesFault::OutOfMemory) => Err(AllocError),
        Err(NamesFault::BadName) => unreachable!(),
    }
}

// Returns the names of #1.
fn wizard_names(alloc: Global) -> Result<Names, AllocError>
    ensures { IfOk result (λ names. names ≡ codes "Wizard" ∷ []) }
{
    match Names::read(alloc, "Wizard") {
        Ok(names) => Ok(names),
        Err(NamesFault::OutOfMemory) => Err(AllocError),
        Err(NamesFault::BadName) => unreachable!(),
    }
}

/// A world of at most 8,192 objects, sorted by number from 0 on (LambdaMOO Programmer's Manual, "Objects"; the limit is
/// this project's profile). A contract sees the records by number, and the next number. Every world is sound
/// (`IsSound`):
///
/// - Following places never returns to its start.
/// - Places and ends of exits have the right kinds, and costs are at most 10,000.
/// - No two players share a name.
/// - Players have no key. Each key is within the limits of keys and nests at most 3.
pub struct World {
    pub(crate) alloc: Global,
    pub(crate) records: Slots,
    pub(crate) links: Links,
    pub(crate) askers: Lists,
    pub(crate) owners: Owners,
    pub(crate) next: u32,
}

// Written out, so that a proof about dropping a world has one step instead of one for each map.
impl Drop for World {
    fn drop(self) {
        let World {
            alloc: _,
            records,
            links,
            askers,
            owners,
            next: _,
        } = self;
        drop(records);
        drop(links);
        drop(askers);
        drop(owners);
    }
}

impl Model for World {
    ghost use Rattle.mud_world.specs.State.{State};

    ghost Value = { State };

    ghost use Rattle.mud_key.specs.TreeCode.{coded_number_tree};
    ghost use Rattle.std.specs.Coded.{codes};

    ghost coded = { Prim.hlevel (codes, coded_number_tree) };

    ghost use Rattle.mud_world.specs.Memory.{IsKept};

    ghost view = { λ a. record { objects = a.records; next = a.next } };

    ghost invariant = { IsKept };
}

impl World {
    ghost use Rattle.mud_world.specs.Opening.{opening_state};

    /// Returns the initial world: #0, the room `The Hall`, and in it #1, the player `Wizard`, who owns both. The only
    /// error is out of memory.
    pub fn opening(alloc: Global) -> Result<World, AllocError>
        ensures opening { IfOk result (λ w. w ≡ opening_state) }
        ensures sound { IfOk result IsSound }
    {
        let hall = Record {
            names: hall_names(alloc)?,
            owner: 1,
            kind: Kind::Room,
            key: None,
        };
        let wizard = Record {
            names: wizard_names(alloc)?,
            owner: 1,
            kind: Kind::Player { place: 0 },
            key: None,
        };
        let mut records = Slots::new(alloc);
        let mut links = Links::new(alloc);
        let mut owners = Owners::new(alloc);
        grow(&mut records, &mut links, &mut owners, 0, hall)?;
        grow(&mut records, &mut links, &mut owners, 1, wizard)?;
        Ok(World {
            alloc,
            records,
            links,
            askers: Lists::new(alloc),
            owners,
            next: 2,
        })
    }

    /// Returns the record of an object, or `None` if no object has the number. The number of a recycled object is never
    /// given again (LambdaMOO Programmer's Manual, "Fundamental Operations on Objects": `recycle`).
    pub fn get(&self, number: u32) -> Option<&Record>
        ensures { option_copied result ≡ record_at self.now number }
    {
        self.records.get(number)
    }

    /// Returns the number of the next new object, 2 to 8,192. At 8,192 the world is full.
    pub fn next_number(&self) -> u32
        ensures next { result ≡ self.now.next }
        ensures sound { IsSound self.now }
    {
        self.next
    }

    /// Tells the prover that the world is sound, in bodies where no other call does. It does nothing at run time.
    pub(crate) fn know_sound(&self)
        ensures { IsSound self.now }
    {
        // for the prover: reading a field makes the type's invariant known
        let _known = &self.records;
    }

    /// Returns the objects whose place is this one, sorted (LambdaMOO Programmer's Manual, "Fundamental Object
    /// Attributes": contents; the order is this project's profile).
    pub fn contents(&self, number: u32) -> &[u32]
        ensures { result.now ≡ contents_of self.now number }
    {
        self.links.contents.get(number)
    }

    /// Returns the exits whose source is this room, sorted.
    pub fn leaving(&self, number: u32) -> &[u32]
        ensures { result.now ≡ leaving_of self.now number }
    {
        // most numbers are not rooms, and a record is found faster than a list
        if self.is_room(number) {
            self.links.leaving.get(number)
        } else {
            // for the prover: the world is sound
            self.know_sound();
            &[]
        }
    }

    /// Returns the exits whose destination is this room, sorted.
    pub fn arriving(&self, number: u32) -> &[u32]
        ensures { result.now ≡ arriving_of self.now number }
    {
        self.links.arriving.get(number)
    }

    /// Returns the player with this name, ignoring ASCII case. There is at most one.
    pub fn player_named(&self, name: &str) -> Option<u32>
        ensures named { result ≡ named_player self.now name.now }
        ensures player { IfSome result (λ n. IsTrue (is_player self.now n)) }
    {
        // for the prover: the world is sound
        self.know_sound();
        self.find_player(name)
    }

    fn find_player(&self, name: &str) -> Option<u32>
        ensures { result ≡ named_player self.now name.now }
    {
        self.owners.get(name)
    }

    /// Returns an independent copy. The only error is out of memory.
    pub fn copy(&self) -> Result<World, AllocError>
        ensures { IfOk result (λ w. w ≡ self.now) }
    {
        let records = self.records.copy(self.alloc)?;
        let links = self.links.copy()?;
        let askers = self.askers.copy()?;
        let owners = self.owners.copy()?;
        Ok(World {
            alloc: self.alloc,
            records,
            links,
            askers,
            owners,
            next: self.next,
        })
    }
}
