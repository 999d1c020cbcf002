//! The entries of the acts on a site.

ghost use Rattle.std.specs.Prelude.{◌≡◌, ◌≤◌, true};
ghost use Rattle.mud_chron.specs.declared.limits.TheConstants.{MOST_DESKS};
ghost use Rattle.mud_chron.specs.Entry.{IsInRange};

use crate::column::Column;
use crate::makings::{Making, WIZARD, Work};
use crate::site::Act;
use crate::story::{FIRST, Story};
use crate::unbuilt::Unbuilt;
use mud_chron::Entry;
use mud_chron::limits::MOST_DESKS;
use mud_key::limits::LAST_NUMBER;
use mud_key::{Name, Names, NamesFault};
use mud_world::{Change, Deed, Doors, MOST_COST, Record, Target, World};
use std::alloc::{AllocError, Global};
use std::mem;

// The desk of a change without an old entry.
const DESK: u32 = 1;

// The name of an object that only takes a number.
const SPARE: &str = "gone";

// The names of #0 and #1 in the opening world.
const HALL: &str = "The Hall";

const PLAYER: &str = "Wizard";

// Returns whether the numbers of the deed are in their ranges, and a way to an old room has an exit.
fn is_in_range(deed: &Deed) -> bool
    ensures { result ≡ true → IsInRange deed.now }
{
    match deed {
        Deed::Dig(Target::Old(room), doors) => *room <= LAST_NUMBER && doors.is_some(),
        Deed::Lock { object, .. }
        | Deed::Unlock { object }
        | Deed::Rename { object, .. }
        | Deed::Recycle { object } => *object <= LAST_NUMBER,
        Deed::Move { thing, to } => *thing <= LAST_NUMBER && *to <= LAST_NUMBER,
        Deed::Walk { exit } => *exit <= LAST_NUMBER,
        Deed::Cost { exit, cost } => *exit <= LAST_NUMBER && *cost <= MOST_COST,
        _ => true,
    }
}

// Returns the names in this text.
fn names_of(alloc: Global, text: &str) -> Result<Names, Unbuilt> {
    match Names::read(alloc, text) {
        Ok(names) => Ok(names),
        Err(NamesFault::OutOfMemory) => Err(Unbuilt::OutOfMemory),
        Err(NamesFault::BadName) => Err(Unbuilt::GivenUp),
    }
}

/// The entries of acts.
pub(crate) struct Spelling<'a> {
    alloc: Global,
    story: &'a Story,
    goal: &'a World,
    spare: Names,
    // the objects that are recycled already
    recycled: Column<bool>,
    entries: Vec<Entry>,
}

// Written out: see the one of `Site`.
impl Drop for Spelling<'_> {
    fn drop(self) {
        let Spelling {
            alloc: _,
            story: _,
            goal: _,
            spare,
            recycled,
            entries,
        } = self;
        drop(spare);
        drop(recycled);
        drop(entries);
    }
}

impl<'a> Spelling<'a> {
    fn new(alloc: Global, story: &'a Story, goal: &'a World) -> Result<Spelling<'a>, Unbuilt> {
        Ok(Spelling {
            alloc,
            story,
            goal,
            spare: names_of(alloc, SPARE)?,
            recycled: Column::new(alloc, story.count, false)?,
            entries: Vec::new(alloc),
        })
    }

    // Adds an entry, if it is spellable.
    #[tactic(auto, using(crate::proofs::Spellable::spelled))]
    fn add(&mut self, desk: u32, actor: u32, deed: Deed) -> Result<(), Unbuilt> {
        if desk < 1 || desk > MOST_DESKS || actor > LAST_NUMBER || !is_in_range(&deed) {
            return Err(Unbuilt::GivenUp);
        }
        self.entries.push(Entry::new(desk, Change { actor, deed }))?;
        Ok(())
    }

    // Returns the object's final names.
    fn names(&self, number: u32) -> Result<Names, AllocError> {
        match self.goal.get(number) {
            Some(record) => record.names.copy(),
            None => self.spare.copy(),
        }
    }

    // Returns the player's final first name.
    fn name(&self, number: u32) -> Result<Name, Unbuilt> {
        match self.goal.get(number) {
            Some(record) => match Name::read(self.alloc, &record.names.list()[0]) {
                Ok(name) => Ok(name),
                Err(_) => Err(Unbuilt::OutOfMemory),
            },
            None => Err(Unbuilt::GivenUp),
        }
    }

    // Returns up to two exits. The first one has this number.
    fn doors(&self, first: u32, count: u32) -> Result<Option<Doors>, AllocError> {
        if count == 0 {
            return Ok(None);
        }
        let out = self.names(first)?;
        let back = match count {
            1 => None,
            _ => Some(self.names(first.saturating_add(1))?),
        };
        Ok(Some(Doors { out, back }))
    }

    // Returns the deed of a making.
    fn made(&self, making: Making) -> Result<Deed, Unbuilt> {
        let first = making.first;
        Ok(match making.work {
            Work::Thing => Deed::Make(self.names(first)?),
            Work::Player => Deed::Player(self.name(first)?),
            Work::Room | Work::Spare => {
                let doors = self.doors(first.saturating_add(1), making.count.saturating_sub(1))?;
                Deed::Dig(Target::New(self.names(first)?), doors)
            }
            Work::Exit => {
                let room = self.story.origin(first).destination;
                Deed::Dig(Target::Old(room), self.doors(first, making.count)?)
            }
        })
    }

    fn make(&mut self, making: Making) -> Result<(), Unbuilt> {
        let desk = match making.work {
            Work::Spare => DESK,
            _ => self.story.origin(making.first).desk,
        };
        let deed = self.made(making)?;
        self.add(desk, making.actor, deed)
    }

    fn recycle(&mut self, object: u32) -> Result<(), Unbuilt> {
        self.recycled.set(object, true);
        self.add(DESK, WIZARD, Deed::Recycle { object })
    }

    fn act(&mut self, act: Act) -> Result<(), Unbuilt> {
        match act {
            Act::Make(making) => self.make(making),
            Act::Walk { player, exit } => self.add(DESK, player, Deed::Walk { exit }),
            Act::Move { actor, thing, to } => self.add(DESK, actor, Deed::Move { thing, to }),
            Act::Recycle { object } => self.recycle(object),
        }
    }

    fn act_all(&mut self, acts: &[Act]) -> Result<(), Unbuilt> {
        for act in acts {
            self.act(*act)?;
        }
        Ok(())
    }

    // Gives an object of the opening world its final names, if these differ.
    fn rename_first(&mut self, object: u32, name: &str) -> Result<(), Unbuilt> {
        let names = names_of(self.alloc, name)?;
        match self.goal.get(object) {
            Some(record) if record.names.list() != names.list() => self.rename(object, record),
            _ => Ok(()),
        }
    }

    fn rename(&mut self, object: u32, record: &Record) -> Result<(), Unbuilt> {
        let names = record.names.copy()?;
        self.add(DESK, WIZARD, Deed::Rename { object, names })
    }

    // Gives a player their further names, and an exit its cost.
    fn settle(&mut self, number: u32) -> Result<(), Unbuilt> {
        let goal = self.goal;
        let Some(record) = goal.get(number) else {
            return Ok(());
        };
        if record.kind.is_player() && record.names.list().len() > 1 {
            self.rename(number, record)?;
        }
        match record.kind.passage() {
            Some(passage) if passage.cost != 1 => {
                let cost = passage.cost;
                self.add(DESK, WIZARD, Deed::Cost { exit: number, cost })
            }
            _ => Ok(()),
        }
    }

    fn settle_all(&mut self) -> Result<(), Unbuilt> {
        for number in FIRST..self.story.count {
            self.settle(number)?;
        }
        Ok(())
    }

    // Gives the object its final key.
    fn lock(&mut self, object: u32) -> Result<(), Unbuilt> {
        let goal = self.goal;
        let Some(Record { key: Some(key), .. }) = goal.get(object) else {
            return Ok(());
        };
        let key = key.copy()?;
        self.add(DESK, WIZARD, Deed::Lock { object, key })
    }

    // Locks all objects that have a key in the end, after the last walk.
    fn lock_all(&mut self) -> Result<(), Unbuilt> {
        for number in 0..self.story.count {
            self.lock(number)?;
        }
        Ok(())
    }

    // Recycles the rooms and exits that are gone in the end. The newest goes first, because an exit is newer than its
    // rooms, and because that costs least.
    fn clear(&mut self) -> Result<(), Unbuilt> {
        for object in (FIRST..self.story.count).rev() {
            if !self.goal.exists(object) && !self.recycled.get(object) {
                self.recycle(object)?;
            }
        }
        Ok(())
    }

    // Adds the entries of the acts, and those that complete the world.
    fn spell(&mut self, acts: &[Act]) -> Result<(), Unbuilt> {
        self.rename_first(0, HALL)?;
        self.rename_first(1, PLAYER)?;
        self.act_all(acts)?;
        self.settle_all()?;
        self.lock_all()?;
        self.clear()
    }
}

// Returns how many entries an object takes at the end. An object that is gone is recycled.
fn count_of(goal: &World, number: u32) -> usize {
    let Some(record) = goal.get(number) else {
        return 1;
    };
    let is_renamed = record.kind.is_player() && record.names.list().len() > 1;
    let has_cost = matches!(record.kind.passage(), Some(passage) if passage.cost != 1);
    usize::from(is_renamed) + usize::from(has_cost) + usize::from(record.key.is_some())
}

/// Returns the number of entries besides those that make, walk and move. It does not count new names of #0 and #1.
pub(crate) fn count_rest(goal: &World) -> usize {
    let mut count: usize = 0;
    for number in 0..goal.next_number() {
        count = count.saturating_add(count_of(goal, number));
    }
    count
}

/// Returns the entries of acts towards a world, and of the changes that complete it: names, costs, keys, and recycled
/// objects.
pub(crate) fn spell<'s>(
    alloc: Global,
    story: &'s Story,
    goal: &'s World,
    acts: &[Act],
) -> Result<Vec<Entry>, Unbuilt> {
    let mut spelling = Spelling::new(alloc, story, goal)?;
    spelling.spell(acts)?;
    Ok(mem::replace(&mut spelling.entries, Vec::new(alloc)))
}
