//! Builds some rooms of a world again, with everything between them.

use crate::spelling::{mapped, quoted, reference};
use crate::stop::Stop;
use crate::typist::Typist;
use mud_key::{Key, atoms, print};
use mud_world::{Doors, Passage, Record, Target, World};
use std::alloc::{AllocError, Global};

// The room where the player types; it becomes the first room of the part.
const HERE: u32 = 0;

// The cost of a new exit.
const FIRST_COST: u32 = 1;

// The names of the ways that the typist uses while building.
const WAY: &str = "\"way|back\"";

// A way from the first room to another, and back, that is gone in the end.
#[derive(Clone, Copy)]
struct Way {
    there: u32,
    back: u32,
}

/// The reason why a part can't be built.
#[derive(Clone, Copy, Debug)]
pub(crate) enum NoPart {
    /// An allocation failed.
    OutOfMemory,
    /// The rules refuse a line.
    GivenUp,
    /// The key of the first object names the second, which is not in the part.
    Names(u32, u32),
}

impl From<AllocError> for NoPart {
    fn from(_e: AllocError) -> NoPart {
        NoPart::OutOfMemory
    }
}

impl From<Stop> for NoPart {
    fn from(stop: Stop) -> NoPart {
        match stop {
            Stop::OutOfMemory => NoPart::OutOfMemory,
            Stop::GivenUp => NoPart::GivenUp,
        }
    }
}

/// The copies of the objects of the part.
#[derive(Drop)]
pub(crate) struct Copies {
    // by number; `None` for objects outside the part
    of: Vec<Option<u32>>,
}

impl Copies {
    fn new(alloc: Global, world: &World) -> Result<Copies, AllocError> {
        Ok(Copies {
            of: vec![in alloc; None; world.next_number() as usize]?,
        })
    }

    /// Returns the copy of the object.
    pub(crate) fn get(&self, number: u32) -> Option<u32> {
        self.of.get(number as usize).copied().flatten()
    }

    fn put(&mut self, number: u32, copy: u32) {
        if let Some(place) = self.of.get_mut(number as usize) {
            *place = Some(copy);
        }
    }
}

// A part of a world while it is built.
#[derive(Drop)]
struct Part<'a> {
    alloc: Global,
    world: &'a World,
    rooms: &'a [u32],
    typist: Typist,
    copies: Copies,
    // the numbers of the objects of the part
    objects: Vec<u32>,
    // the copy of all objects that are gone and that a key names
    spare: Option<u32>,
}

impl Part<'_> {
    // Notes the copy of an object.
    fn note(&mut self, number: u32, copy: u32) -> Result<(), Stop> {
        self.copies.put(number, copy);
        self.objects.push(number)?;
        Ok(())
    }

    fn kept(&self, number: u32) -> Result<&Record, Stop> {
        match self.world.get(number) {
            Some(kept) => Ok(kept),
            None => Err(Stop::GivenUp),
        }
    }

    // Digs a room of the part, with a way there and back.
    fn dig_room(&mut self, room: u32) -> Result<Way, Stop> {
        let copy = self.typist.world.next_number();
        let names = quoted(self.alloc, &self.kept(room)?.names)?;
        self.typist
            .type_words(&["@dig", WAY, "to", names.as_str()])?;
        self.note(room, copy)?;
        Ok(Way {
            there: copy.saturating_add(1),
            back: copy.saturating_add(2),
        })
    }

    // Digs all rooms but the first, which is there.
    fn dig_rooms(&mut self) -> Result<Vec<Way>, Stop> {
        let mut ways = Vec::new(self.alloc);
        for (i, room) in self.rooms.iter().enumerate() {
            if i == 0 {
                self.note(*room, HERE)?;
            } else {
                let way = self.dig_room(*room)?;
                ways.push(way)?;
            }
        }
        Ok(ways)
    }

    // Digs an exit from the typist's room, if the exit leads to a room of the part.
    fn dig_exit(&mut self, exit: u32) -> Result<(), Stop> {
        let Some(Passage { destination, .. }) = self.world.passage(exit) else {
            return Ok(());
        };
        let Some(to) = self.copies.get(destination) else {
            return Ok(());
        };
        let copy = self.typist.world.next_number();
        let out = self.kept(exit)?.names.copy()?;
        self.typist
            .dig_doors(&Target::Old(to), &Doors { out, back: None })?;
        self.note(exit, copy)
    }

    // Makes a thing; the typist has it then.
    fn make(&mut self, thing: u32) -> Result<u32, Stop> {
        let copy = self.typist.world.next_number();
        let Some(kept) = self.world.get(thing) else {
            return Err(Stop::GivenUp);
        };
        self.typist.create(&kept.names)?;
        self.note(thing, copy)?;
        Ok(copy)
    }

    // Makes a thing that lies in this object, and puts it there.
    fn lay(&mut self, thing: u32, place: u32) -> Result<(), Stop> {
        let copy = self.make(thing)?;
        match self.copies.get(place) {
            Some(to) => self.typist.carry(copy, to),
            None => Err(Stop::GivenUp),
        }
    }

    // Makes all things in the typist's room, each before those in it.
    fn furnish(&mut self, room: u32) -> Result<(), Stop> {
        let mut places = Vec::new(self.alloc);
        places.push(room)?;
        for at in 0..self.world.next_number() as usize {
            let Some(place) = places.get(at).copied() else {
                break;
            };
            for object in self.world.contents(place) {
                if self.world.is_thing(*object) {
                    self.lay(*object, place)?;
                    places.push(*object)?;
                }
            }
        }
        Ok(())
    }

    // Builds the exits and things of the typist's room.
    fn fill(&mut self, room: u32) -> Result<(), Stop> {
        for exit in self.world.leaving(room) {
            self.dig_exit(*exit)?;
        }
        self.furnish(room)
    }

    // Builds the exits and things of each room.
    fn fill_all(&mut self, ways: &[Way]) -> Result<(), Stop> {
        for (i, room) in self.rooms.iter().enumerate() {
            let way = match i {
                0 => None,
                _ => ways.get(i - 1).copied(),
            };
            if let Some(Way { there, .. }) = way {
                self.typist.verb("go", there)?;
            }
            self.fill(*room)?;
            if let Some(Way { back, .. }) = way {
                self.typist.verb("go", back)?;
            }
        }
        Ok(())
    }

    // Recycles the ways.
    fn close(&mut self, ways: &[Way]) -> Result<(), Stop> {
        for way in ways {
            self.typist.verb("@recycle", way.there)?;
            self.typist.verb("@recycle", way.back)?;
        }
        Ok(())
    }

    // Returns the copy of all objects that are gone: a thing that is recycled at the end.
    fn spare(&mut self) -> Result<u32, Stop> {
        if let Some(spare) = self.spare {
            return Ok(spare);
        }
        let spare = self.typist.world.next_number();
        self.typist.type_words(&["@create", "gone"])?;
        self.spare = Some(spare);
        Ok(spare)
    }

    // Returns the copy that stands for an object of a key, if there is one. It makes a thing that has none.
    fn copy_for(&mut self, named: u32) -> Result<Option<u32>, Stop> {
        if !self.world.exists(named) {
            return Ok(Some(self.spare()?));
        }
        if self.copies.get(named).is_none() && self.world.is_thing(named) {
            self.make(named)?;
        }
        Ok(self.copies.get(named))
    }

    // Returns the word for the object in the key of another object of this owner.
    fn word_for(&mut self, object: u32, owner: u32, named: u32) -> Result<String, NoPart> {
        if let Some(copy) = self.copy_for(named)? {
            return Ok(reference(self.alloc, copy)?);
        }
        if named == owner && self.world.is_player(named) {
            return Ok(String::from_str(self.alloc, "me")?);
        }
        Err(NoPart::Names(object, named))
    }

    // Returns the words for the objects of the key of an object of this owner, in the order of its text.
    fn words_for(&mut self, object: u32, owner: u32, key: &Key) -> Result<Vec<String>, NoPart> {
        let mut words = Vec::new(self.alloc);
        for named in atoms(self.alloc, key)?.iter() {
            let word = self.word_for(object, owner, *named)?;
            match words.push(word) {
                Ok(()) => {}
                Err(_) => return Err(NoPart::OutOfMemory),
            }
        }
        Ok(words)
    }

    // Returns the key of an object of this owner, as the end of a line.
    fn key_words(&mut self, object: u32, owner: u32, key: &Key) -> Result<String, NoPart> {
        let words = self.words_for(object, owner, key)?;
        let text = print(self.alloc, key)?;
        Ok(mapped(self.alloc, &text, &words)?)
    }

    // Returns the line that locks the object, if it has a key.
    fn lock_line(&mut self, object: u32) -> Result<Option<String>, NoPart> {
        let (Some(kept), Some(copy)) = (self.world.get(object), self.copies.get(object)) else {
            return Ok(None);
        };
        let Some(key) = &kept.key else {
            return Ok(None);
        };
        let key = self.key_words(object, kept.owner, key)?;
        let copy = reference(self.alloc, copy)?;
        let line = ["@lock", copy.as_str(), "with", key.as_str()].join(self.alloc, " ")?;
        Ok(Some(line))
    }

    // Returns the lines that lock all objects of the part, also those that keys of others add to it.
    fn lock_lines(&mut self) -> Result<Vec<String>, NoPart> {
        let mut lines = Vec::new(self.alloc);
        for at in 0..self.world.next_number() as usize {
            let Some(object) = self.objects.get(at).copied() else {
                break;
            };
            if let Some(line) = self.lock_line(object)? {
                match lines.push(line) {
                    Ok(()) => {}
                    Err(_) => return Err(NoPart::OutOfMemory),
                }
            }
        }
        Ok(lines)
    }

    // Gives an exit its cost.
    fn price(&mut self, object: u32) -> Result<(), Stop> {
        if let (Some(passage), Some(copy)) = (self.world.passage(object), self.copies.get(object)) {
            if passage.cost != FIRST_COST {
                return self.typist.price(copy, passage.cost);
            }
        }
        Ok(())
    }

    fn price_all(&mut self) -> Result<(), Stop> {
        for at in 0..self.objects.len() {
            if let Some(object) = self.objects.get(at).copied() {
                self.price(object)?;
            }
        }
        Ok(())
    }

    // Gives the typist's room the names of the first room.
    fn name_first(&mut self) -> Result<(), Stop> {
        if let Some(first) = self.rooms.first().copied() {
            if let Some(kept) = self.world.get(first) {
                self.typist.rename(HERE, &kept.names)?;
            }
        }
        Ok(())
    }

    fn lock_all(&mut self) -> Result<(), NoPart> {
        for line in self.lock_lines()? {
            self.typist.type_line(line)?;
        }
        Ok(())
    }

    // Recycles the copy of all objects that are gone.
    fn end_spare(&mut self) -> Result<(), Stop> {
        match self.spare {
            Some(spare) => self.typist.verb("@recycle", spare),
            None => Ok(()),
        }
    }

    // Builds the part.
    fn build(&mut self) -> Result<(), NoPart> {
        let ways = self.dig_rooms()?;
        self.fill_all(&ways)?;
        self.price_all()?;
        self.close(&ways)?;
        self.name_first()?;
        self.lock_all()?;
        Ok(self.end_spare()?)
    }
}

/// Types lines that build these rooms of a world with everything between them, the first at the typist's room.
pub(crate) fn build_part(
    alloc: Global,
    world: &World,
    rooms: &[u32],
) -> Result<(Typist, Copies), NoPart> {
    let mut part = Part {
        alloc,
        world,
        rooms,
        typist: Typist::new(alloc)?,
        copies: Copies::new(alloc, world)?,
        objects: Vec::new(alloc),
        spare: None,
    };
    part.build()?;
    let Part { typist, copies, .. } = part;
    Ok((typist, copies))
}
