//! Writes a history with new numbers, as a text that is read again: so each of its entries can be spelled.

use crate::column::Column;
use crate::needs::{NONE, Needs};
use mud_chron::{ChronFault, Entry, read_history, write_names};
use mud_key::{Name, Names, Node, Operator};
use mud_world::limits::NUMBERS;
use mud_world::{Deed, Doors, Target, World};
use std::alloc::{AllocError, Global};

// The number of the first object that a history makes: the opening world has #0 and #1 (docs/WORLD.md, "Objects").
const FIRST: u32 = 2;

// The player who makes and recycles the thing that stands for all that is gone.
const WIZARD: u32 = 1;

// The desk of changes without an old entry.
const DESK: u32 = 1;

/// A history with new numbers, to be checked.
#[derive(Drop)]
pub(crate) struct Draft {
    pub(crate) entries: Vec<Entry>,
    /// The new number of each old one.
    pub(crate) numbers: Vec<u32>,
    /// The old number of each new one.
    pub(crate) backs: Vec<u32>,
}

// A history with new numbers, as far as it is written.
#[derive(Drop)]
struct Spelling<'a> {
    alloc: Global,
    needs: &'a Needs,
    // the new number of each old one, or `NONE`
    numbers: Column<u32>,
    // the number that stands for what is not made, or 8,192
    gone: u32,
    // the next numbers of the old history and of the new one
    old: u32,
    new: u32,
    version: u32,
    out: String,
}

// Returns whether the key names an object that is not made.
fn names_gone(needs: &Needs, node: &Node<u32>) -> bool {
    match node {
        Node::Has(object) | Node::Asks(object) => !needs.has(*object),
        Node::Not(key) => names_gone(needs, key),
        Node::Join(_, left, right) => {
            if names_gone(needs, left) {
                return true;
            }
            names_gone(needs, right)
        }
    }
}

// Returns whether the key of some object that is made names one that is not.
fn has_gone(needs: &Needs, entries: &[Entry]) -> bool {
    for entry in entries {
        match &entry.change().deed {
            Deed::Lock { object, key } if needs.has(*object) => {
                if names_gone(needs, key.node()) {
                    return true;
                }
            }
            _ => {}
        }
    }
    false
}

// Returns the number of exits that are dug.
fn count_doors(doors: &Option<Doors>) -> u32 {
    match doors {
        None => 0,
        Some(Doors { back: None, .. }) => 1,
        Some(Doors { back: Some(_), .. }) => 2,
    }
}

impl<'a> Spelling<'a> {
    fn new(alloc: Global, needs: &'a Needs) -> Result<Spelling<'a>, AllocError> {
        let mut numbers = Column::new(alloc, needs.count(), NONE)?;
        numbers.set(0, 0);
        numbers.set(1, 1);
        Ok(Spelling {
            alloc,
            needs,
            numbers,
            gone: NUMBERS as u32,
            old: FIRST,
            new: FIRST,
            version: 0,
            out: String::from_str(alloc, "mud history 2\n")?,
        })
    }

    // Returns the new number of an object.
    fn at(&self, number: u32) -> u32 {
        match self.numbers.get(number) {
            NONE => self.gone,
            new => new,
        }
    }

    // Gives the next new number to an old one.
    fn give(&mut self, number: u32) {
        self.numbers.set(number, self.new);
        self.new = self.new.saturating_add(1);
    }

    // Gives a number to the next object of the old history, if it is made. Returns whether it is.
    fn take(&mut self) -> bool {
        let number = self.old;
        self.old = number.saturating_add(1);
        if !self.needs.has(number) {
            return false;
        }
        self.give(number);
        true
    }

    // Begins the line of a change.
    fn begin(&mut self, desk: u32, verb: &str, actor: u32) -> Result<(), AllocError> {
        self.version = self.version.saturating_add(1);
        let (version, actor) = (self.version, self.at(actor));
        write!(self.out, "{version} {desk} {verb} #{actor}")
    }

    fn end(&mut self) -> Result<(), AllocError> {
        self.out.push_str("\n")
    }

    fn push_object(&mut self, object: u32) -> Result<(), AllocError> {
        let object = self.at(object);
        write!(self.out, " #{object}")
    }

    fn push_names(&mut self, word: &str, names: &Names) -> Result<(), AllocError> {
        self.out.push_str(word)?;
        write_names(self.alloc, names, &mut self.out)
    }

    // Appends a key. A part of another key stands in parentheses if it joins two.
    fn push_key(&mut self, node: &Node<u32>, is_part: bool) -> Result<(), AllocError> {
        match node {
            Node::Has(object) => {
                let object = self.at(*object);
                write!(self.out, "#{object}")
            }
            Node::Asks(object) => {
                let object = self.at(*object);
                write!(self.out, "?#{object}")
            }
            Node::Not(key) => {
                self.out.push_str("!")?;
                self.push_key(key, true)
            }
            Node::Join(operator, left, right) => {
                self.out.push_str(if is_part { "(" } else { "" })?;
                self.push_key(left, false)?;
                self.out.push_str(match operator {
                    Operator::And => " && ",
                    Operator::Or => " || ",
                })?;
                self.push_key(right, true)?;
                self.out.push_str(if is_part { ")" } else { "" })
            }
        }
    }

    // Appends the exits of a dig that are made.
    fn push_doors(&mut self, doors: &Doors, has_back: bool) -> Result<(), AllocError> {
        self.push_names(" out ", &doors.out)?;
        match &doors.back {
            Some(back) if has_back => self.push_names(" back ", back),
            _ => Ok(()),
        }
    }

    // Adds what is made of a dig.
    fn dig(
        &mut self,
        desk: u32,
        actor: u32,
        target: &Target,
        doors: &Option<Doors>,
    ) -> Result<(), AllocError> {
        let is_new = matches!(target, Target::New(_));
        let has_room = !is_new || self.take();
        let count = count_doors(doors);
        let has_out = count > 0 && self.take();
        let has_back = count > 1 && self.take();
        if !has_room || !is_new && !has_out {
            return Ok(());
        }
        self.begin(desk, "dig", actor)?;
        match target {
            Target::New(names) => self.push_names(" new ", names)?,
            Target::Old(room) => {
                self.out.push_str(" old")?;
                self.push_object(*room)?;
            }
        }
        match doors {
            Some(doors) if has_out => self.push_doors(doors, has_back)?,
            _ => {}
        }
        self.end()
    }

    fn make(&mut self, desk: u32, actor: u32, names: &Names) -> Result<(), AllocError> {
        if !self.take() {
            return Ok(());
        }
        self.begin(desk, "make", actor)?;
        self.push_names(" ", names)?;
        self.end()
    }

    fn add_player(&mut self, desk: u32, player: u32, name: &Name) -> Result<(), AllocError> {
        self.take();
        self.begin(desk, "player", player)?;
        let name = name.as_str();
        write!(self.out, " \"{name}\"")?;
        self.end()
    }

    // Adds a change of an object, of the two objects of a move, or none if the first is not made.
    fn change(
        &mut self,
        entry: &Entry,
        verb: &str,
        object: u32,
        other: Option<u32>,
    ) -> Result<(), AllocError> {
        if !self.needs.has(object) {
            return Ok(());
        }
        self.begin(entry.desk(), verb, entry.change().actor)?;
        self.push_object(object)?;
        if let Some(other) = other {
            self.push_object(other)?;
        }
        match &entry.change().deed {
            Deed::Lock { key, .. } => {
                self.out.push_str(" ")?;
                self.push_key(key.node(), false)?;
            }
            Deed::Cost { cost, .. } => write!(self.out, " {cost}")?,
            Deed::Rename { names, .. } => self.push_names(" ", names)?,
            _ => {}
        }
        self.end()
    }

    // Adds what is left of an entry. Nothing is left of talk.
    fn add(&mut self, entry: &Entry) -> Result<(), AllocError> {
        let (desk, actor) = (entry.desk(), entry.change().actor);
        match &entry.change().deed {
            Deed::Dig(target, doors) => self.dig(desk, actor, target, doors),
            Deed::Make(names) => self.make(desk, actor, names),
            Deed::Player(name) => self.add_player(desk, actor, name),
            Deed::Lock { object, .. } => self.change(entry, "lock", *object, None),
            Deed::Unlock { object } => self.change(entry, "unlock", *object, None),
            Deed::Move { thing, to } => self.change(entry, "move", *thing, Some(*to)),
            Deed::Walk { exit } => self.change(entry, "walk", *exit, None),
            Deed::Cost { exit, .. } => self.change(entry, "cost", *exit, None),
            Deed::Rename { object, .. } => self.change(entry, "rename", *object, None),
            Deed::Recycle { object } => self.change(entry, "recycle", *object, None),
            Deed::Say(_) | Deed::Emote(_) => Ok(()),
        }
    }

    // Makes the thing that stands for what is gone.
    fn make_gone(&mut self) -> Result<(), AllocError> {
        self.gone = self.new;
        self.new = self.new.saturating_add(1);
        self.begin(DESK, "make", WIZARD)?;
        self.out.push_str(" \"gone\"\n")
    }

    fn recycle_gone(&mut self) -> Result<(), AllocError> {
        self.begin(DESK, "recycle", WIZARD)?;
        let gone = self.gone;
        write!(self.out, " #{gone}\n")
    }

    fn add_all(&mut self, entries: &[Entry]) -> Result<(), AllocError> {
        let has_gone = has_gone(self.needs, entries);
        if has_gone {
            self.make_gone()?;
        }
        for entry in entries {
            self.add(entry)?;
        }
        if has_gone {
            self.recycle_gone()?;
        }
        let version = self.version;
        write!(self.out, "end {version}\n")
    }

    // Returns the new number of each old one.
    fn numbers(&self) -> Result<Vec<u32>, AllocError> {
        let mut numbers = Vec::new(self.alloc);
        for number in 0..self.needs.count() {
            numbers.push(self.at(number))?;
        }
        Ok(numbers)
    }

    // Returns the old number of each new one; it is right for the objects of the world.
    fn backs(&self, goal: &World) -> Result<Vec<u32>, AllocError> {
        let mut backs = Vec::new(self.alloc);
        backs.resize(self.new as usize, 0)?;
        for number in 0..self.needs.count() {
            if goal.exists(number) {
                if let Some(back) = backs.get_mut(self.at(number) as usize) {
                    *back = number;
                }
            }
        }
        Ok(backs)
    }

    // Returns the written history, if it can be read.
    fn draft(&self, goal: &World) -> Result<Option<Draft>, AllocError> {
        let entries = match read_history(self.alloc, self.out.as_bytes()) {
            Ok(entries) => entries,
            Err(ChronFault::OutOfMemory) => return Err(AllocError),
            Err(_) => return Ok(None),
        };
        let numbers = self.numbers()?;
        let backs = self.backs(goal)?;
        Ok(Some(Draft {
            entries,
            numbers,
            backs,
        }))
    }
}

/// Returns the entries without what is not needed, with new numbers. They should lead to the same world, `goal`, but
/// for its numbers.
pub(crate) fn spell(
    alloc: Global,
    entries: &[Entry],
    needs: &Needs,
    goal: &World,
) -> Result<Option<Draft>, AllocError> {
    let mut spelling = Spelling::new(alloc, needs)?;
    spelling.add_all(entries)?;
    spelling.draft(goal)
}
