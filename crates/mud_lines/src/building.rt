//! Types the changes of a history.

use crate::spelling::{
    STAND_IN, doors_word, is_preposition, key_words, quoted, reference, target_words,
};
use crate::stop::Stop;
use crate::typist::Typist;
use mud_chron::Entry;
use mud_key::{Key, Names};
use mud_world::{Change, Deed, Doors, Target};
use std::alloc::{AllocError, Global};

// Returns the line that connects a player.
fn connect_line(alloc: Global, name: &str) -> Result<String, AllocError> {
    format!(in alloc; "connect \"{name}\"")
}

impl Typist {
    // Types as another player.
    fn connect(&mut self, player: u32) -> Result<(), Stop> {
        if self.player == player {
            return Ok(());
        }
        let Some(kept) = self.world.get(player) else {
            return Err(Stop::GivenUp);
        };
        let line = connect_line(self.alloc, kept.names.list()[0].as_str())?;
        self.type_line(line)
    }

    fn arrive(&mut self, name: &str) -> Result<(), Stop> {
        let line = connect_line(self.alloc, name)?;
        self.type_line(line)
    }

    pub(crate) fn rename(&mut self, object: u32, names: &Names) -> Result<(), Stop> {
        let object = reference(self.alloc, object)?;
        let names = quoted(self.alloc, names)?;
        self.type_words(&["@rename", object.as_str(), "to", names.as_str()])
    }

    // Digs a room without exits.
    fn dig_room(&mut self, names: &Names) -> Result<(), Stop> {
        let word = quoted(self.alloc, names)?;
        if !is_preposition(self.alloc, &word)? {
            return self.type_words(&["@dig", word.as_str()]);
        }
        let room = self.world.next_number();
        self.type_words(&["@dig", STAND_IN])?;
        self.rename(room, names)
    }

    // Digs exits, and the room where they lead, if it is new.
    pub(crate) fn dig_doors(&mut self, target: &Target, doors: &Doors) -> Result<(), Stop> {
        let to = target_words(self.alloc, target)?;
        let word = doors_word(self.alloc, doors)?;
        if !is_preposition(self.alloc, &word)? {
            return self.type_words(&["@dig", word.as_str(), "to", to.as_str()]);
        }
        let next = self.world.next_number();
        let exit = match target {
            Target::New(_) => next.saturating_add(1),
            Target::Old(_) => next,
        };
        self.type_words(&["@dig", STAND_IN, "to", to.as_str()])?;
        self.rename(exit, &doors.out)
    }

    fn dig(&mut self, target: &Target, doors: &Option<Doors>) -> Result<(), Stop> {
        match (target, doors) {
            (_, Some(doors)) => self.dig_doors(target, doors),
            (Target::New(names), None) => self.dig_room(names),
            (Target::Old(_), None) => Err(Stop::GivenUp),
        }
    }

    pub(crate) fn create(&mut self, names: &Names) -> Result<(), Stop> {
        let names = quoted(self.alloc, names)?;
        self.type_words(&["@create", names.as_str()])
    }

    fn lock(&mut self, object: u32, key: &Key) -> Result<(), Stop> {
        let object = reference(self.alloc, object)?;
        let key = key_words(self.alloc, key)?;
        self.type_words(&["@lock", object.as_str(), "with", key.as_str()])
    }

    pub(crate) fn price(&mut self, exit: u32, cost: u32) -> Result<(), Stop> {
        let line = format!(in self.alloc; "@cost #{exit} is {cost}")?;
        self.type_line(line)
    }

    // Types a verb and an object.
    pub(crate) fn verb(&mut self, verb: &str, object: u32) -> Result<(), Stop> {
        let object = reference(self.alloc, object)?;
        self.type_words(&[verb, object.as_str()])
    }

    // Types a verb, a thing, a preposition and an object.
    fn move_to(&mut self, verb: &str, thing: u32, prep: &str, to: u32) -> Result<(), Stop> {
        let thing = reference(self.alloc, thing)?;
        let to = reference(self.alloc, to)?;
        self.type_words(&[verb, thing.as_str(), prep, to.as_str()])
    }

    // Takes a thing, unless it is carried already.
    fn have(&mut self, thing: u32) -> Result<(), Stop> {
        if self.world.holds(self.player, thing) {
            return Ok(());
        }
        self.verb("take", thing)
    }

    // Moves a thing to the typist, to the room of the typist, to another player or into a thing.
    pub(crate) fn carry(&mut self, thing: u32, to: u32) -> Result<(), Stop> {
        if to == self.player {
            return self.verb("take", thing);
        }
        if self.world.is_thing(to) {
            return self.move_to("put", thing, "in", to);
        }
        self.have(thing)?;
        if self.world.is_room(to) {
            return self.verb("drop", thing);
        }
        self.move_to("give", thing, "to", to)
    }

    // Types lines that make the change of the player who types.
    fn follow_deed(&mut self, deed: &Deed) -> Result<(), Stop> {
        match deed {
            Deed::Dig(target, doors) => self.dig(target, doors),
            Deed::Make(names) => self.create(names),
            Deed::Player(name) => self.arrive(name.as_str()),
            Deed::Lock { object, key } => self.lock(*object, key),
            Deed::Unlock { object } => self.verb("@unlock", *object),
            Deed::Move { thing, to } => self.carry(*thing, *to),
            Deed::Walk { exit } => self.verb("go", *exit),
            Deed::Cost { exit, cost } => self.price(*exit, *cost),
            Deed::Rename { object, names } => self.rename(*object, names),
            Deed::Recycle { object } => self.verb("@recycle", *object),
            Deed::Say(_) | Deed::Emote(_) => Ok(()),
        }
    }

    // Types lines that make the change.
    fn follow(&mut self, change: &Change) -> Result<(), Stop> {
        if !matches!(&change.deed, Deed::Player(_)) {
            self.connect(change.actor)?;
        }
        self.follow_deed(&change.deed)
    }

    /// Types lines that make the changes of the entries, without talk.
    pub(crate) fn follow_all(&mut self, entries: &[Entry]) -> Result<(), Stop> {
        for entry in entries {
            self.follow(entry.change())?;
        }
        Ok(())
    }
}
