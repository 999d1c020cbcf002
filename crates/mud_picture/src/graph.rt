//! Writes the graph of a world in DOT, with a position for each room.

use crate::drawing::{TALL, is_line, middle};
use crate::layout::{Place, Plane, plane_of};
use mud_key::Names;
use mud_world::{Passage, Record, World};
use std::alloc::{AllocError, Global};

// A graph while it is written.
#[derive(Drop)]
struct Graph<'a, 'b> {
    world: &'a World,
    plane: &'b Plane,
    out: String,
}

impl Graph<'_, '_> {
    fn place(&self, room: u32) -> Option<Place> {
        self.plane.places.get(room as usize).copied().flatten()
    }

    // Appends the first name of an object. Names have no sign that DOT escapes (docs/KEYS.md, "Names").
    fn push_name(&mut self, names: &Names) -> Result<(), AllocError> {
        match names.list().first() {
            Some(name) => self.out.push_str(name.as_str()),
            None => Ok(()),
        }
    }

    // Appends the players in a room.
    fn push_players(&mut self, room: u32) -> Result<(), AllocError> {
        let world = self.world;
        for object in world.contents(room) {
            if !world.is_player(*object) {
                continue;
            }
            if let Some(kept) = world.get(*object) {
                self.out.push_str(" ")?;
                self.push_name(&kept.names)?;
            }
        }
        Ok(())
    }

    // Appends a room as a node. In DOT the second number of a position grows upwards.
    fn push_room(&mut self, room: u32, kept: &Record, place: Place) -> Result<(), AllocError> {
        let (x, down) = middle(place);
        let y = self.plane.rows.saturating_mul(TALL).saturating_sub(down);
        write!(self.out, "{room} [label=\"")?;
        self.push_name(&kept.names)?;
        write!(self.out, "\\n#{room}")?;
        self.push_players(room)?;
        write!(self.out, "\" pos=\"{x},{y}\"")?;
        self.push_lock(kept)?;
        self.out.push_str("];\n")
    }

    // Appends the style of a locked object: dashed.
    fn push_lock(&mut self, kept: &Record) -> Result<(), AllocError> {
        if kept.key.is_some() {
            self.out.push_str(" style=dashed")
        } else {
            Ok(())
        }
    }

    // Appends an exit as an edge. Its label is at its source, so those of an exit and its way back lie apart.
    fn push_exit(&mut self, exit: u32, kept: &Record, passage: Passage) -> Result<(), AllocError> {
        write!(
            self.out,
            "{} -> {} [taillabel=\"",
            passage.source, passage.destination
        )?;
        self.push_name(&kept.names)?;
        write!(self.out, " #{exit}")?;
        match (self.place(passage.source), self.place(passage.destination)) {
            (Some(from), Some(to)) if is_line(from, to) => self.out.push_str("\"")?,
            _ => write!(self.out, " to #{}\" color=lightgray", passage.destination)?,
        }
        self.push_lock(kept)?;
        self.out.push_str("];\n")
    }

    // Appends all rooms.
    fn push_rooms(&mut self) -> Result<(), AllocError> {
        let world = self.world;
        for room in 0..world.next_number() {
            if let (Some(kept), Some(place)) = (world.get(room), self.place(room)) {
                self.push_room(room, kept, place)?;
            }
        }
        Ok(())
    }

    // Appends all exits.
    fn push_exits(&mut self) -> Result<(), AllocError> {
        let world = self.world;
        for exit in 0..world.next_number() {
            if let (Some(kept), Some(passage)) = (world.get(exit), world.passage(exit)) {
                self.push_exit(exit, kept, passage)?;
            }
        }
        Ok(())
    }
}

/// Returns the rooms, exits and players of a world as a graph in DOT, with the positions of [`svg_of`], for `neato -n`
/// (docs/KEEPING.md, "Map"). The only error is out of memory.
pub fn graph_of(alloc: Global, world: &World) -> Result<String, AllocError> {
    let plane = plane_of(alloc, world)?;
    let mut graph = Graph {
        world,
        plane: &plane,
        out: String::new(alloc),
    };
    graph.out.push_str("digraph world {\nnode [shape=box fontsize=11 width=1.5 height=0.64];\n")?;
    graph.out.push_str("edge [fontsize=9 labeldistance=2];\n")?;
    graph.push_rooms()?;
    graph.push_exits()?;
    graph.out.push_str("}\n")?;
    let Graph { out, .. } = graph;
    Ok(out)
}
