//! Finds the lines that build the world of a text.

ghost use Rattle.std.specs.Prelude.{◌≡◌, map, MatchOption, IfOk, IfErr, string_bytes};
ghost use Rattle.mud_compact.specs.Recovery.{KeepsEntries};
ghost use Rattle.mud_compact.specs.Answer.{KeepsWorld, KeepsNoWorld};
ghost use Rattle.mud_world.specs.State.{State};
ghost use Rattle.mud_lines.specs.Answer.{IsTextTo, IsBuilt, HasNoLines};
ghost use Rattle.mud_lines.specs.Typing.{lines_text};
ghost use Rattle.mud_lines.specs.inner.Faults.{IsOther};

use crate::part::{NoPart, build_part};
use crate::spelling::shifted;
use crate::stop::Stop;
use crate::typist::{Typist, typed};
use mud_chron::{ChronFault, Entry, replay};
use mud_compact::{KeptFault, TextKind, read_kept, shorten};
use mud_diff::compare;
use mud_rules::room_match;
use mud_world::World;
use mud_world::limits::NUMBERS;
use std::alloc::{AllocError, Global};

/// The reason why there are no lines.
#[derive(Debug, Drop)]
pub enum NoLines {
    /// The text has no world, or an allocation failed.
    History(KeptFault),
    /// The search found no lines that lead to the world.
    Untyped,
    /// The word at this place, counted from 0, means no room.
    NoRoom(usize),
    /// The key of the first object names the second, which is not in the part.
    Names(u32, u32),
    /// No world has the numbers of the start, or none is left there for the last object.
    NoStart,
}

impl From<AllocError> for NoLines {
    ghost use Rattle.std.specs.Prelude.{◌≡◌};
    ghost use Rattle.mud_chron.specs.declared.fault.ChronFault.TheVariants.{OutOfMemory};
    ghost use Rattle.mud_compact.specs.declared.fault.KeptFault.TheVariants.{Text};
    ghost use Rattle.mud_lines.specs.declared.answering.NoLines.TheVariants.{History};

    ghost from_gives = { λ _ e. e ≡ History (Text OutOfMemory) };

    fn from(_e: AllocError) -> NoLines {
        NoLines::History(KeptFault::Text(ChronFault::OutOfMemory))
    }
}

/// Lines.
#[derive(Drop)]
pub struct LinesText {
    /// Their text.
    pub text: String,
    /// The number of torn bytes at the end of a journal; `None` for a history.
    pub torn: Option<usize>,
}

// The contents of a text: entries, their world, and the number of torn bytes.
#[derive(Drop)]
struct Whole {
    entries: Vec<Entry>,
    world: World,
    torn: Option<usize>,
}

// Returns the contents of the bytes.
fn whole_of(alloc: Global, kind: TextKind, bytes: &[u8]) -> Result<Whole, KeptFault>
    ensures entries { IfOk result (λ w. KeepsEntries kind bytes.now w.entries.items w.torn) }
    ensures keeps { IfOk result (λ w. KeepsWorld kind bytes.now w.torn w.world) }
    ensures err { IfErr result (KeepsNoWorld kind bytes.now) }
{
    let kept = read_kept(alloc, kind, bytes)?;
    let world = replay(alloc, &kept.entries)?;
    Ok(Whole {
        entries: kept.entries,
        world,
        torn: kept.torn,
    })
}

// Returns the text of lines.
fn text_of(alloc: Global, lines: &[String]) -> Result<String, AllocError>
    ensures { IfOk result (λ text. string_bytes text ≡ lines_text (map string_bytes lines.now)) }
{
    let mut out = String::new(alloc);
    for line in lines {
        out.push_str(line.as_str())?;
        out.push_str("\n")?;
    }
    Ok(out)
}

// Returns lines that make the changes of the entries, if it finds some.
fn lines_for(alloc: Global, entries: &[Entry]) -> Result<Vec<String>, Stop> {
    let mut typist = Typist::new(alloc)?;
    typist.follow_all(entries)?;
    let Typist { lines, .. } = typist;
    Ok(lines)
}

// Returns the text of the lines, if they lead to the world.
fn text_to(alloc: Global, lines: &[String], world: &World) -> Result<String, Stop>
    ensures { IfOk result (λ text. IsTextTo (string_bytes text) world.now) }
{
    let typist = typed(alloc, lines)?;
    if !compare(alloc, world, &typist.world)?.is_same {
        return Err(Stop::GivenUp);
    }
    Ok(text_of(alloc, &typist.lines)?)
}

// Returns the text of lines that lead to the world of the entries, if it finds some.
fn text_for(alloc: Global, entries: &[Entry], world: &World) -> Result<Option<String>, AllocError>
    ensures { IfOk result (λ found. MatchOption found (Unit {0}) (λ text. IsTextTo (string_bytes text) world.now)) }
{
    let lines = match lines_for(alloc, entries) {
        Ok(lines) => lines,
        Err(Stop::OutOfMemory) => return Err(AllocError),
        Err(Stop::GivenUp) => return Ok(None),
    };
    match text_to(alloc, &lines, world) {
        Ok(text) => Ok(Some(text)),
        Err(Stop::OutOfMemory) => Err(AllocError),
        Err(Stop::GivenUp) => Ok(None),
    }
}

/// Returns lines that lead to the world of a text when #1 types them in a new world (docs/KEEPING.md, "Lines"). A text
/// without a world has a fault. Other errors: `Untyped`, and out of memory.
pub fn lines_of(alloc: Global, kind: TextKind, bytes: &[u8]) -> Result<LinesText, NoLines>
    ensures ok { IfOk result (λ t. IsBuilt kind bytes.now (string_bytes t.text) t.torn) }
    ensures err { IfErr result (HasNoLines kind bytes.now) }
{
    let Whole {
        entries,
        world,
        torn,
    } = match whole_of(alloc, kind, bytes) {
        Ok(whole) => whole,
        Err(fault) => return Err(NoLines::History(fault)),
    };
    let shorter = match shorten(alloc, &entries) {
        Ok(shorter) => shorter,
        Err(fault) => return Err(NoLines::History(KeptFault::Text(fault))),
    };
    if let Some(text) = text_for(alloc, &shorter, &world)? {
        return Ok(LinesText { text, torn });
    }
    match text_for(alloc, &entries, &world)? {
        Some(text) => Ok(LinesText { text, torn }),
        None => Err(NoLines::Untyped),
    }
}

/// The place where a player types lines.
#[derive(Clone, Copy, Debug)]
pub struct Start {
    /// The room of the typist, which becomes the first of the part; #0 in a new world.
    pub here: u32,
    /// The number of the next object; 2 in a new world.
    pub next: u32,
}

// The player for whom `me` and `here` stand in a keeper's word.
const WIZARD: u32 = 1;

// The number of the next object in a new world.
const FIRST: u32 = 2;

// Returns whether a world can have this start, and has numbers for all objects of the part. `next` is the next number
// if the part is built in a new world.
fn has_numbers(start: Start, next: u32) -> bool {
    let made = next.saturating_sub(FIRST);
    let end = start.next.saturating_add(made);
    start.here < start.next && start.next >= FIRST && end as usize <= NUMBERS
}

// Returns the rooms that the words mean, each once.
fn rooms_meant(alloc: Global, world: &World, words: &[&str]) -> Result<Vec<u32>, NoLines>
    ensures { IfErr result IsOther }
{
    let mut rooms = Vec::new(alloc);
    for (place, word) in words.iter().enumerate() {
        match room_match(world, WIZARD, word) {
            Ok(room) if world.is_room(room) => {
                if !rooms.contains(&room) {
                    match rooms.push(room) {
                        Ok(()) => {}
                        Err(error) => return Err(NoLines::from(AllocError::from(error))),
                    }
                }
            }
            _ => return Err(NoLines::NoRoom(place)),
        }
    }
    Ok(rooms)
}

// Returns the text of the lines for the place where they are typed.
fn text_at(alloc: Global, lines: &[String], start: Start) -> Result<String, AllocError> {
    let mut out = String::new(alloc);
    for line in lines {
        out.push_str(shifted(alloc, line, start.here, start.next)?.as_str())?;
        out.push_str("\n")?;
    }
    Ok(out)
}

/// Returns lines that build the rooms that the words mean when one player types them: with all exits and things between
/// them, their costs and their keys (docs/KEEPING.md, "Lines"). The room where the player types becomes the first of
/// them. A text without a world, a word that means no room, and a key that names an object outside the part have a
/// fault. So has a start that no world has, or that leaves too few numbers. Other errors: `Untyped`, and out of memory.
pub fn part_lines_of(
    alloc: Global,
    kind: TextKind,
    bytes: &[u8],
    words: &[&str],
    start: Start,
) -> Result<LinesText, NoLines>
    ensures ok { IfOk result (λ t. (w : State) × KeepsWorld kind bytes.now t.torn w) }
    ensures err { IfErr result (HasNoLines kind bytes.now) }
{
    let Whole { world, torn, .. } = match whole_of(alloc, kind, bytes) {
        Ok(whole) => whole,
        Err(fault) => return Err(NoLines::History(fault)),
    };
    let rooms = match rooms_meant(alloc, &world, words) {
        Ok(rooms) => rooms,
        Err(fault) => return Err(fault),
    };
    match build_part(alloc, &world, &rooms) {
        Ok((typist, _copies)) => {
            if !has_numbers(start, typist.world.next_number()) {
                return Err(NoLines::NoStart);
            }
            Ok(LinesText {
                text: text_at(alloc, &typist.lines, start)?,
                torn,
            })
        }
        Err(NoPart::OutOfMemory) => Err(NoLines::from(AllocError)),
        Err(NoPart::GivenUp) => Err(NoLines::Untyped),
        Err(NoPart::Names(object, named)) => Err(NoLines::Names(object, named)),
    }
}
