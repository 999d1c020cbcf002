//! The search for a shorter history: it builds the world again, and learns from each attempt.

use crate::column::{Column, Lists};
use crate::hauls::Hauls;
use crate::makings::{Making, Numbers};
use crate::nests::Nests;
use crate::packs::{Packs, Special};
use crate::postman::Postman;
use crate::site::{Act, Site};
use crate::spelling::{count_rest, spell};
use crate::stops::{Delivery, Stop, stops_of};
use crate::story::{FIRST, Story};
use crate::unbuilt::Unbuilt;
use mud_chron::Entry;
use mud_key::Node;
use mud_world::{Record, World};
use std::alloc::{AllocError, Global};
use std::mem;

// The greatest number of attempts to build the world.
const MOST_ATTEMPTS: usize = 6;

// The number of places that the search for paths may look at for each entry and each object.
const LOOKS: usize = 64;

// The result of an attempt: its acts, and the things that nobody could bring. With one of these the world is not built.
#[derive(Drop)]
struct Attempt {
    acts: Vec<Act>,
    hard: Vec<u32>,
}

// The search for a way to build a world.
#[derive(Drop)]
struct Search<'a> {
    alloc: Global,
    goal: &'a World,
    nests: &'a Nests,
    numbers: &'a Numbers<'a>,
    makings: &'a [Making],
    special: Special,
    hauls: Hauls<'a>,
    // the steps of hauled things
    deliveries: Vec<Delivery>,
}

// Marks the objects that a key names.
fn mark_named(named: &mut Column<bool>, node: &Node<u32>) {
    match node {
        Node::Has(object) | Node::Asks(object) => named.set(*object, true),
        Node::Not(key) => mark_named(named, key),
        Node::Join(_, left, right) => {
            mark_named(named, left);
            mark_named(named, right);
        }
    }
}

// Returns the objects that keys of the world name.
fn named_in(alloc: Global, world: &World) -> Result<Column<bool>, AllocError> {
    let mut named = Column::new(alloc, world.next_number(), false)?;
    for number in 0..world.next_number() {
        if let Some(Record { key: Some(key), .. }) = world.get(number) {
            mark_named(&mut named, key.node());
        }
    }
    Ok(named)
}

// Returns the numbers of the objects that stay, and of the exits through which players walked.
fn numbers_of<'a>(
    alloc: Global,
    goal: &World,
    story: &'a Story,
    named: &'a Column<bool>,
) -> Result<Numbers<'a>, AllocError> {
    let mut kept = Column::new(alloc, story.count, false)?;
    for number in 0..story.count {
        kept.set(number, goal.exists(number) || story.walked.get(number));
    }
    let mut numbers = Numbers { story, kept, named };
    numbers.close_all();
    Ok(numbers)
}

// Makes the moves from this one on, up to this time. Returns the place of the next one.
fn haul_until(
    site: &mut Site<'_>,
    deliveries: &[Delivery],
    from: usize,
    time: usize,
) -> Result<usize, Unbuilt> {
    for place in from..deliveries.len() {
        let Some(step) = deliveries.get(place).copied() else {
            break;
        };
        if step.time > time {
            return Ok(place);
        }
        site.haul(step)?;
    }
    Ok(deliveries.len())
}

// Makes all objects, each after the moves before it.
fn build(site: &mut Site<'_>, makings: &[Making], deliveries: &[Delivery]) -> Result<(), Unbuilt> {
    let mut next = 0;
    for making in makings {
        next = haul_until(site, deliveries, next, making.time)?;
        site.make(*making)?;
    }
    haul_until(site, deliveries, next, usize::MAX)?;
    Ok(())
}

// Has all players go home.
fn send_home(site: &mut Site<'_>) -> Result<(), Unbuilt> {
    for player in 1..site.story.count {
        if site.story.is_player(player) {
            site.go_home(player)?;
        }
    }
    Ok(())
}

// Has each player put their things into others of theirs, the inner ones first.
fn put_in(site: &mut Site<'_>) -> Result<(), Unbuilt> {
    let nests = site.nests;
    for thing in nests.things.iter().rev() {
        let place = site.place(*thing);
        let holder = site.places.get(*thing);
        if holder == place {
            continue;
        }
        let root = nests.roots.get(*thing);
        if holder != root || !site.story.is_player(root) {
            return Err(Unbuilt::GivenUp);
        }
        site.carry(root, *thing, place)?;
    }
    Ok(())
}

// Brings all things to their places, and all players home. Returns the things that nobody can bring.
fn finish(site: &mut Site<'_>) -> Result<Vec<u32>, Unbuilt> {
    send_home(site)?;
    let mut postman = Postman::new(site)?;
    postman.serve(site)?;
    if postman.hard.is_empty() {
        put_in(site)?;
    }
    Ok(mem::replace(&mut postman.hard, Vec::new(site.alloc)))
}

// Makes all objects, and brings all things and players to their places. Returns the things that nobody can bring.
fn build_all(
    site: &mut Site<'_>,
    makings: &[Making],
    deliveries: &[Delivery],
) -> Result<Vec<u32>, Unbuilt> {
    build(site, makings, deliveries)?;
    finish(site)
}

impl Search<'_> {
    // Tries to build the world.
    fn attempt(&mut self, packs: &Packs) -> Result<Attempt, Unbuilt> {
        self.deliveries
            .sort_by_key(|step: &Delivery| -> usize { step.time })?;
        let story = self.numbers.story;
        let stops = stops_of(self.alloc, story, self.makings, &self.deliveries)?;
        self.attempt_by(packs, &stops)
    }

    // Tries to build the world with players who stop so.
    fn attempt_by<'s>(
        &'s self,
        packs: &'s Packs,
        stops: &'s Lists<Stop>,
    ) -> Result<Attempt, Unbuilt> {
        let mut site = Site::new(
            self.alloc,
            self.goal,
            self.nests,
            self.numbers,
            packs,
            stops,
        )?;
        let hard = build_all(&mut site, self.makings, &self.deliveries)?;
        let acts = mem::replace(&mut site.acts, Vec::new(self.alloc));
        Ok(Attempt { acts, hard })
    }

    // Finds the path of a thing with its contents, or without them if they came too late.
    fn haul(&mut self, packs: &Packs, thing: u32) -> Result<(), Unbuilt> {
        let story = self.numbers.story;
        let ready = story.origin(packs.ready.get(thing)).time;
        let mut path = self.hauls.haul(thing, ready)?;
        if path.is_none() {
            self.special.opened.set(thing, true);
            path = self.hauls.haul(thing, story.origin(thing).time)?;
        }
        let Some(path) = path else {
            return Err(Unbuilt::GivenUp);
        };
        self.special.hauled.set(thing, true);
        self.deliveries.extend_from_slice(&path)?;
        Ok(())
    }

    // Finds the paths of these things.
    fn haul_all(&mut self, packs: &Packs, things: &[u32]) -> Result<(), Unbuilt> {
        for thing in things {
            self.haul(packs, *thing)?;
        }
        Ok(())
    }

    // Makes attempts until the world is built.
    fn try_all(&mut self) -> Result<Vec<Act>, Unbuilt> {
        for _ in 0..MOST_ATTEMPTS {
            let story = self.numbers.story;
            let packs = Packs::of(self.alloc, story, self.nests, self.goal, &self.special)?;
            let Attempt { acts, hard } = self.attempt(&packs)?;
            if hard.is_empty() {
                return Ok(acts);
            }
            self.haul_all(&packs, &hard)?;
        }
        Err(Unbuilt::GivenUp)
    }
}

// Returns the acts that make these objects, and bring all to their places.
fn acts_for(
    alloc: Global,
    goal: &World,
    nests: &Nests,
    numbers: &Numbers<'_>,
    makings: &[Making],
) -> Result<Vec<Act>, Unbuilt> {
    let story = numbers.story;
    let special = Special {
        hauled: Column::new(alloc, story.count, false)?,
        opened: Column::new(alloc, story.count, false)?,
    };
    let looks = story.end.saturating_add(story.count as usize);
    let hauls = Hauls {
        alloc,
        story,
        nests,
        budget: LOOKS.saturating_mul(looks),
    };
    let mut search = Search {
        alloc,
        goal,
        nests,
        numbers,
        makings,
        special,
        hauls,
        deliveries: Vec::new(alloc),
    };
    search.try_all()
}

// Returns acts that build the world of a story.
fn acts_of(alloc: Global, goal: &World, story: &Story) -> Result<Vec<Act>, Unbuilt> {
    let nests = Nests::of(alloc, goal)?;
    let named = named_in(alloc, goal)?;
    let numbers = numbers_of(alloc, goal, story, &named)?;
    let makings = numbers.makings(alloc)?;
    acts_for(alloc, goal, &nests, &numbers, &makings)
}

// Returns the number of acts that do not recycle.
fn size_of(acts: &[Act]) -> usize {
    acts.iter()
        .filter(|act| !matches!(act, Act::Recycle { .. }))
        .count()
}

// Returns entries that build the world of these, if it finds fewer than `most`.
fn built_from(
    alloc: Global,
    entries: &[Entry],
    goal: &World,
    most: usize,
) -> Result<Option<Vec<Entry>>, Unbuilt> {
    let story = Story::of(alloc, entries, goal.next_number())?;
    let acts = acts_of(alloc, goal, &story)?;
    if size_of(&acts).saturating_add(count_rest(goal)) >= most {
        return Ok(None);
    }
    Ok(Some(spell(alloc, &story, goal, &acts)?))
}

/// Returns a history that rebuilds the world of the entries, which are legal. It returns `None` if that would have
/// `most` entries or more, or if the search finds none. It promises nothing about the entries, because its caller
/// compares the worlds. The only error is out of memory.
pub fn build_again(
    alloc: Global,
    entries: &[Entry],
    goal: &World,
    most: usize,
) -> Result<Option<Vec<Entry>>, AllocError> {
    match built_from(alloc, entries, goal, most) {
        Ok(found) => Ok(found),
        Err(Unbuilt::OutOfMemory) => Err(AllocError),
        Err(Unbuilt::GivenUp) => Ok(None),
    }
}
