//! Writes a picture of a world in SVG.

use crate::layout::{Block, MIDDLE, Place, Plane, plane_of};
use mud_key::{Key, Names, print};
use mud_world::{Passage, Record, World};
use std::alloc::{AllocError, Global};

// The size of a cell, of a box in its middle, and of a line of text, in pixels.
const WIDE: u32 = 230;

pub(crate) const TALL: u32 = 120;

const BOX_WIDE: u32 = 110;

const BOX_TALL: u32 = 46;

const LINE: u32 = 12;

// The greatest distance of two rooms, in cells, between which an exit is a line. A longer exit is a text at its source.
const LONGEST: u32 = 8;

// The letters of the longest label.
const MOST_LETTERS: usize = 17;

// A picture while it is written.
#[derive(Drop)]
struct Picture<'a, 'b> {
    alloc: Global,
    world: &'a World,
    plane: &'b Plane,
    out: String,
}

// Appends a letter, escaped for XML.
fn push_letter(out: &mut String, letter: char) -> Result<(), AllocError> {
    match letter {
        '&' => out.push_str("&amp;"),
        '<' => out.push_str("&lt;"),
        '>' => out.push_str("&gt;"),
        _ => out.push(letter),
    }
}

// Appends a text, escaped for XML, and at most this many letters of it.
fn push_text(out: &mut String, text: &str, most: usize) -> Result<(), AllocError> {
    for (i, letter) in text.chars().enumerate() {
        if i == most {
            return out.push_str("..");
        }
        push_letter(out, letter)?;
    }
    Ok(())
}

/// Returns the middle of a place, in pixels.
pub(crate) fn middle(place: Place) -> (u32, u32) {
    (
        place.column.saturating_mul(WIDE).saturating_add(WIDE / 2),
        place.row.saturating_mul(TALL).saturating_add(TALL / 2),
    )
}

// Returns the point at three tenths of the way from one number to another.
fn near(from: u32, to: u32) -> u32 {
    from.saturating_mul(7).saturating_add(to.saturating_mul(3)) / 10
}

fn apart(from: u32, to: u32) -> u32 {
    if to < from { from - to } else { to - from }
}

/// Returns whether an exit between two places is a line.
pub(crate) fn is_line(from: Place, to: Place) -> bool {
    from.block == to.block
        && apart(from.column, to.column) <= LONGEST
        && apart(from.row, to.row) <= LONGEST
}

// Returns the middle of an exit's label, where it is the exit of this number between the two places.
fn label_at(from: Place, to: Place, number: u32) -> (u32, u32) {
    let ((x, y), (x2, y2)) = (middle(from), middle(to));
    let more = number.saturating_mul(LINE);
    let is_forth = to.column > from.column || (to.column == from.column && to.row > from.row);
    let (across, down) = if from.row == to.row {
        (x.saturating_add(x2) / 2, y)
    } else {
        (near(x, x2), near(y, y2))
    };
    if is_forth {
        (across, down.saturating_sub(4).saturating_sub(more))
    } else {
        (across, down.saturating_add(LINE).saturating_add(more))
    }
}

impl Picture<'_, '_> {
    fn place(&self, room: u32) -> Option<Place> {
        self.plane.places.get(room as usize).copied().flatten()
    }

    // Appends the names of an object, a comma between each two.
    fn push_names(&mut self, names: &Names) -> Result<(), AllocError> {
        for (i, name) in names.list().iter().enumerate() {
            if i > 0 {
                self.out.push_str(", ")?;
            }
            push_text(&mut self.out, name.as_str(), name.len())?;
        }
        Ok(())
    }

    // Appends the first name of an object, shortened.
    fn push_name(&mut self, names: &Names) -> Result<(), AllocError> {
        match names.list().first() {
            Some(name) => push_text(&mut self.out, name.as_str(), MOST_LETTERS),
            None => Ok(()),
        }
    }

    // Appends the title of an object, which browsers show over it: its number, names and key.
    fn push_title(&mut self, number: u32, kept: &Record) -> Result<(), AllocError> {
        write!(self.out, "<title>#{number} ")?;
        self.push_names(&kept.names)?;
        self.push_key(&kept.key)?;
        self.out.push_str("</title>")
    }

    // Appends the key of a locked object.
    fn push_key(&mut self, key: &Option<Key>) -> Result<(), AllocError> {
        let Some(key) = key else {
            return Ok(());
        };
        let text = print(self.alloc, key)?;
        self.out.push_str(", key ")?;
        push_text(&mut self.out, text.as_str(), text.len())
    }

    // Appends the style of a locked object: dashed.
    fn push_lock(&mut self, key: &Option<Key>) -> Result<(), AllocError> {
        if key.is_some() {
            self.out.push_str(" stroke-dasharray=\"4 3\"")
        } else {
            Ok(())
        }
    }

    // Returns how many exits of lower numbers have the ends of an exit.
    fn count_before(&self, exit: u32, passage: Passage) -> u32 {
        let mut count = 0u32;
        for other in self.world.leaving(passage.source) {
            if *other >= exit {
                break;
            }
            if let Some(one) = self.world.passage(*other) {
                if one.destination == passage.destination {
                    count = count.saturating_add(1);
                }
            }
        }
        count
    }

    // Appends an exit as a line with its label.
    fn push_line(
        &mut self,
        exit: u32,
        kept: &Record,
        passage: Passage,
        ends: (Place, Place),
    ) -> Result<(), AllocError> {
        let ((x, y), (x2, y2)) = (middle(ends.0), middle(ends.1));
        let (across, down) = label_at(ends.0, ends.1, self.count_before(exit, passage));
        self.out.push_str("<g class=\"exit\">")?;
        self.push_title(exit, kept)?;
        write!(
            self.out,
            "<line x1=\"{x}\" y1=\"{y}\" x2=\"{x2}\" y2=\"{y2}\" stroke=\"gray\""
        )?;
        self.push_lock(&kept.key)?;
        write!(self.out, "/><text x=\"{across}\" y=\"{down}\">")?;
        self.push_name(&kept.names)?;
        self.push_cost(passage.cost)?;
        self.out.push_str("</text></g>\n")
    }

    // Appends a cost that is not 1.
    fn push_cost(&mut self, cost: u32) -> Result<(), AllocError> {
        if cost == 1 {
            return Ok(());
        }
        write!(self.out, " ({cost})")
    }

    // Appends an exit as a line, if it is one.
    fn push_exit(&mut self, exit: u32) -> Result<(), AllocError> {
        let world = self.world;
        let (Some(kept), Some(passage)) = (world.get(exit), world.passage(exit)) else {
            return Ok(());
        };
        match (self.place(passage.source), self.place(passage.destination)) {
            (Some(from), Some(to)) if is_line(from, to) => {
                self.push_line(exit, kept, passage, (from, to))
            }
            _ => Ok(()),
        }
    }

    // Appends all exits that are lines.
    fn push_lines(&mut self) -> Result<(), AllocError> {
        for exit in 0..self.world.next_number() {
            self.push_exit(exit)?;
        }
        Ok(())
    }

    // Appends the players in a room.
    fn push_players(&mut self, room: u32) -> Result<(), AllocError> {
        let world = self.world;
        for object in world.contents(room) {
            if !world.is_player(*object) {
                continue;
            }
            if let Some(kept) = world.get(*object) {
                self.out.push_str(" ")?;
                self.push_name(&kept.names)?;
            }
        }
        Ok(())
    }

    // Appends the exits of a room that are no lines, as texts below its box.
    fn push_far(&mut self, room: u32, from: Place) -> Result<(), AllocError> {
        let world = self.world;
        let (x, mut y) = middle(from);
        y = y.saturating_add(BOX_TALL / 2);
        for exit in world.leaving(room) {
            let (Some(kept), Some(passage)) = (world.get(*exit), world.passage(*exit)) else {
                continue;
            };
            match self.place(passage.destination) {
                Some(to) if is_line(from, to) => {}
                _ => {
                    y = y.saturating_add(LINE);
                    self.push_far_exit(*exit, kept, passage, (x, y))?;
                }
            }
        }
        Ok(())
    }

    // Appends an exit as a text at this point.
    fn push_far_exit(
        &mut self,
        exit: u32,
        kept: &Record,
        passage: Passage,
        at: (u32, u32),
    ) -> Result<(), AllocError> {
        let (x, y) = at;
        self.out.push_str("<g class=\"exit\">")?;
        self.push_title(exit, kept)?;
        write!(self.out, "<text x=\"{x}\" y=\"{y}\">")?;
        self.push_name(&kept.names)?;
        self.push_cost(passage.cost)?;
        write!(self.out, " to #{}</text></g>\n", passage.destination)
    }

    // Appends a room: its box with its first name, its number and its players, and its far exits.
    fn push_box(&mut self, room: u32, kept: &Record, place: Place) -> Result<(), AllocError> {
        let (x, y) = middle(place);
        let (left, top) = (
            x.saturating_sub(BOX_WIDE / 2),
            y.saturating_sub(BOX_TALL / 2),
        );
        self.out.push_str("<g class=\"room\">")?;
        self.push_title(room, kept)?;
        write!(
            self.out,
            "<rect x=\"{left}\" y=\"{top}\" width=\"{BOX_WIDE}\" height=\"{BOX_TALL}\" rx=\"4\" "
        )?;
        self.out.push_str("fill=\"white\" stroke=\"black\"")?;
        self.push_lock(&kept.key)?;
        write!(self.out, "/><text x=\"{x}\" y=\"{}\">", y.saturating_sub(5))?;
        self.push_name(&kept.names)?;
        write!(
            self.out,
            "</text><text x=\"{x}\" y=\"{}\">#{room}",
            y.saturating_add(10)
        )?;
        self.push_players(room)?;
        self.out.push_str("</text></g>\n")
    }

    // Appends all rooms.
    fn push_rooms(&mut self) -> Result<(), AllocError> {
        let world = self.world;
        for room in 0..world.next_number() {
            if let (Some(kept), Some(place)) = (world.get(room), self.place(room)) {
                self.push_box(room, kept, place)?;
                self.push_far(room, place)?;
            }
        }
        Ok(())
    }

    // Appends the number of a floor above or below that of its sheet's first room.
    fn push_floor(&mut self, block: Block) -> Result<(), AllocError> {
        if block.floor == MIDDLE {
            return Ok(());
        }
        let x = block.column.saturating_mul(WIDE).saturating_add(WIDE / 2);
        let y = block.row.saturating_mul(TALL).saturating_add(LINE);
        let sign = if block.floor > MIDDLE { "+" } else { "-" };
        let floor = apart(block.floor, MIDDLE);
        write!(
            self.out,
            "<text x=\"{x}\" y=\"{y}\" class=\"floor\">floor {sign}{floor}</text>\n"
        )
    }

    // Appends the numbers of floors.
    fn push_floors(&mut self) -> Result<(), AllocError> {
        let plane = self.plane;
        for block in &plane.blocks {
            self.push_floor(*block)?;
        }
        Ok(())
    }

    // Appends the beginning of the picture, with its size.
    fn push_head(&mut self) -> Result<(), AllocError> {
        let wide = self.plane.columns.saturating_mul(WIDE);
        let tall = self.plane.rows.saturating_mul(TALL);
        write!(
            self.out,
            "<svg xmlns=\"http://www.w3.org/2000/svg\" width=\"{wide}\" height=\"{tall}\" "
        )?;
        write!(
            self.out,
            "viewBox=\"0 0 {wide} {tall}\" font-family=\"sans-serif\" font-size=\"11\" "
        )?;
        self.out.push_str("text-anchor=\"middle\">\n")
    }
}

/// Returns a picture of the rooms, exits and players of a world in SVG (docs/KEEPING.md, "Map"). The only error is out
/// of memory.
pub fn svg_of(alloc: Global, world: &World) -> Result<String, AllocError> {
    let plane = plane_of(alloc, world)?;
    let mut picture = Picture {
        alloc,
        world,
        plane: &plane,
        out: String::new(alloc),
    };
    picture.push_head()?;
    picture.push_lines()?;
    picture.push_rooms()?;
    picture.push_floors()?;
    picture.out.push_str("</svg>\n")?;
    let Picture { out, .. } = picture;
    Ok(out)
}
