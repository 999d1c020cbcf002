//! Lays the rooms of a world on a plane, in the directions of exits.
//!
//! Rooms that exits connect lie on one sheet, which has floors. Each floor of a sheet becomes a block of the plane, and
//! blocks lie beside each other. Nothing is promised about the places: contracts hold for all of them.

use crate::compass::{Step, step_of};
use indexmap::IndexMap;
use mud_world::World;
use std::alloc::{AllocError, Global};

/// The place of a room: its block, and its column and row on the plane.
#[derive(Clone, Copy)]
pub(crate) struct Place {
    pub(crate) block: usize,
    pub(crate) column: u32,
    pub(crate) row: u32,
}

/// The places of all rooms, by number, and the size of the plane.
#[derive(Drop)]
pub(crate) struct Plane {
    pub(crate) places: Vec<Option<Place>>,
    pub(crate) blocks: Vec<Block>,
    pub(crate) columns: u32,
    pub(crate) rows: u32,
}

/// The cells of a floor of a sheet, and the first column and row of its block.
#[derive(Clone, Copy)]
pub(crate) struct Block {
    /// The floor; `MIDDLE` is that of the sheet's first room.
    pub(crate) floor: u32,
    left: u32,
    right: u32,
    top: u32,
    low: u32,
    pub(crate) column: u32,
    pub(crate) row: u32,
}

/// The floor, the column and the row of a sheet's first room.
pub(crate) const MIDDLE: u32 = 524_288;

// The cells of a side of a floor, and the floors: more than the rooms of a world reach.
const SIDE: u64 = 2_097_152;

// The greatest number of cells that a straight exit spans if nearer cells are taken.
const STRETCH: u32 = 16;

// The greatest distance to a free cell around a room.
const AROUND: u32 = 9;

// The greatest number of exits that decide the cell of a room.
const MOST_WEIGHED: usize = 5;

// The worth of an exit in its direction, in cells.
const KEPT_WAY: u32 = 100;

// The width of a row of blocks.
const MOST_COLUMNS: u32 = 24;

// A cell of a sheet.
#[derive(Clone, Copy)]
struct Cell {
    x: u32,
    y: u32,
    z: u32,
}

impl Cell {
    fn key(self) -> u64 {
        let row = u64::from(self.z)
            .saturating_mul(SIDE)
            .saturating_add(u64::from(self.y));
        row.saturating_mul(SIDE).saturating_add(u64::from(self.x))
    }

    // Returns the cell some steps on.
    fn moved(self, step: Step, count: u32) -> Cell {
        Cell {
            x: shifted(self.x, step.east, count),
            y: shifted(self.y, step.south, count),
            z: shifted(self.z, step.up, count),
        }
    }

    // Returns whether the step leads from this cell towards another one.
    fn is_along(self, to: Cell, step: Step) -> bool {
        if step.is_vertical() {
            return side(self.z, to.z) == step.up;
        }
        let is_straight = step.east == 1
            || step.south == 1
            || distance(self.x, to.x) == distance(self.y, to.y);
        side(self.x, to.x) == step.east
            && side(self.y, to.y) == step.south
            && self.z == to.z
            && is_straight
    }

    fn distance(self, to: Cell) -> u32 {
        distance(self.x, to.x)
            .saturating_add(distance(self.y, to.y))
            .saturating_add(distance(self.z, to.z))
    }
}

fn shifted(at: u32, step: u32, count: u32) -> u32 {
    at.saturating_add(step.saturating_mul(count))
        .saturating_sub(count)
}

// Returns 0, 1 or 2: the other number is less, equal or greater.
fn side(from: u32, to: u32) -> u32 {
    if to < from {
        0
    } else if to == from {
        1
    } else {
        2
    }
}

fn distance(from: u32, to: u32) -> u32 {
    if to < from { from - to } else { to - from }
}

// A room beside a room, and the step from there to here.
#[derive(Clone, Copy)]
struct Tie {
    room: u32,
    step: Option<Step>,
}

// A layout while it is made.
struct Layout<'a> {
    alloc: Global,
    world: &'a World,
    // the cell and the sheet of each placed room, by number
    cells: Vec<Option<(u32, Cell)>>,
    // the taken cells of the present sheet
    taken: IndexMap<u64, u32>,
    sheet: u32,
    right: u32,
    // rooms beside placed ones: by exits with a direction, and by others
    named: Vec<u32>,
    others: Vec<u32>,
}

impl Drop for Layout<'_> {
    fn drop(self) {
        let Layout {
            alloc: _,
            world: _,
            cells,
            taken,
            sheet: _,
            right: _,
            named,
            others,
        } = self;
        drop(cells);
        drop(taken);
        drop(named);
        drop(others);
    }
}

impl Layout<'_> {
    fn cell(&self, room: u32) -> Option<Cell> {
        let (_, cell) = self.cells.get(room as usize).copied().flatten()?;
        Some(cell)
    }

    fn is_free(&self, cell: Cell) -> bool {
        !self.taken.contains_key(&cell.key())
    }

    // Places a room in a cell of the present sheet.
    fn put(&mut self, room: u32, cell: Cell) -> Result<(), AllocError> {
        self.taken.insert(cell.key(), room)?;
        if let Some(place) = self.cells.get_mut(room as usize) {
            *place = Some((self.sheet, cell));
        }
        if cell.x > self.right {
            self.right = cell.x;
        }
        Ok(())
    }

    // Returns the step of an exit.
    fn step(&self, exit: u32) -> Option<Step> {
        step_of(&self.world.get(exit)?.names)
    }

    // Returns the ties of a room.
    fn ties(&self, room: u32) -> Result<Vec<Tie>, AllocError> {
        let mut ties = Vec::new(self.alloc);
        for exit in self.world.arriving(room) {
            if let Some(passage) = self.world.passage(*exit) {
                ties.push(Tie {
                    room: passage.source,
                    step: self.step(*exit),
                })?;
            }
        }
        self.add_leaving(room, &mut ties)?;
        Ok(ties)
    }

    // Adds the ties of the exits that leave a room.
    fn add_leaving(&self, room: u32, ties: &mut Vec<Tie>) -> Result<(), AllocError> {
        for exit in self.world.leaving(room) {
            if let Some(passage) = self.world.passage(*exit) {
                ties.push(Tie {
                    room: passage.destination,
                    step: self.step(*exit).map(|step| step.back()),
                })?;
            }
        }
        Ok(())
    }

    // Queues the rooms of these ties that have no cell.
    fn queue(&mut self, ties: &[Tie]) -> Result<(), AllocError> {
        for tie in ties {
            if self.cell(tie.room).is_some() {
                continue;
            }
            if tie.step.is_some() {
                self.named.push(tie.room)?;
            } else {
                self.others.push(tie.room)?;
            }
        }
        Ok(())
    }

    // Returns a free cell on a ring around a cell.
    fn free_on_ring(&self, cell: Cell, far: u32) -> Option<Cell> {
        let side = far.saturating_mul(2).saturating_add(1);
        for at in 0..side.saturating_mul(side) {
            let (x, y) = (at % side, at / side);
            if x != 0 && y != 0 && x != side - 1 && y != side - 1 {
                continue;
            }
            let one = Cell {
                x: cell.x.saturating_add(x).saturating_sub(far),
                y: cell.y.saturating_add(y).saturating_sub(far),
                z: cell.z,
            };
            if self.is_free(one) {
                return Some(one);
            }
        }
        None
    }

    // Returns a free cell near a cell, or right of all rooms.
    fn free_around(&self, cell: Cell) -> Cell {
        if self.is_free(cell) {
            return cell;
        }
        for far in 1..=AROUND {
            if let Some(found) = self.free_on_ring(cell, far) {
                return found;
            }
        }
        Cell {
            x: self.right.saturating_add(1),
            y: cell.y,
            z: cell.z,
        }
    }

    // Returns a free cell for the end of an exit from a cell.
    fn free_from(&self, cell: Cell, step: Option<Step>) -> Cell {
        let Some(step) = step else {
            return self.free_around(cell);
        };
        let most = if step.is_vertical() { 1 } else { STRETCH };
        for count in 1..=most {
            let one = cell.moved(step, count);
            if self.is_free(one) {
                return one;
            }
        }
        self.free_around(cell.moved(step, 1))
    }

    // Returns the worth of a cell for a room with these ties: exits in their directions, and short ones.
    fn worth(&self, cell: Cell, ties: &[Tie]) -> u32 {
        let mut worth = 1_000_000u32;
        for tie in ties {
            let Some(from) = self.cell(tie.room) else {
                continue;
            };
            if let Some(step) = tie.step {
                if from.is_along(cell, step) {
                    worth = worth.saturating_add(KEPT_WAY);
                }
            }
            worth = worth.saturating_sub(from.distance(cell));
        }
        worth
    }

    // Places a room with these ties to placed rooms in the best of some cells.
    fn place(&mut self, room: u32, ties: &[Tie]) -> Result<(), AllocError> {
        let mut best = None;
        let mut most = 0;
        for tie in ties.iter().take(MOST_WEIGHED) {
            let Some(from) = self.cell(tie.room) else {
                continue;
            };
            let cell = self.free_from(from, tie.step);
            let worth = self.worth(cell, ties);
            if worth > most {
                best = Some(cell);
                most = worth;
            }
        }
        match best {
            Some(cell) => self.put(room, cell),
            None => Ok(()),
        }
    }

    // Returns those of the ties whose rooms are placed, first those with a direction.
    fn placed(&self, ties: &[Tie]) -> Result<Vec<Tie>, AllocError> {
        let mut found = Vec::new(self.alloc);
        for tie in ties {
            if self.cell(tie.room).is_some() && tie.step.is_some() {
                found.push(*tie)?;
            }
        }
        self.add_unnamed(ties, &mut found)?;
        Ok(found)
    }

    // Adds those of the ties without a direction whose rooms are placed.
    fn add_unnamed(&self, ties: &[Tie], found: &mut Vec<Tie>) -> Result<(), AllocError> {
        for tie in ties {
            if self.cell(tie.room).is_some() && tie.step.is_none() {
                found.push(*tie)?;
            }
        }
        Ok(())
    }

    // Places a room beside placed ones, and queues its neighbours.
    fn settle(&mut self, room: u32) -> Result<(), AllocError> {
        if self.cell(room).is_some() {
            return Ok(());
        }
        let ties = self.ties(room)?;
        let placed = self.placed(&ties)?;
        self.place(room, &placed)?;
        self.queue(&ties)
    }

    // Places all rooms that exits connect with a room, in the order in which they are found.
    fn spread(&mut self, room: u32) -> Result<(), AllocError> {
        let ties = self.ties(room)?;
        self.queue(&ties)?;
        let (mut first, mut second) = (0usize, 0usize);
        for _ in 0..self.world.next_number().saturating_mul(2) {
            if let Some(next) = self.named.get(first).copied() {
                first = first.saturating_add(1);
                self.settle(next)?;
            } else if let Some(next) = self.others.get(second).copied() {
                second = second.saturating_add(1);
                self.settle(next)?;
            } else {
                break;
            }
        }
        Ok(())
    }

    // Opens a sheet with a room, and places all rooms that exits connect with it.
    fn open(&mut self, room: u32) -> Result<(), AllocError> {
        self.taken.clear();
        self.named.clear();
        self.others.clear();
        self.sheet = self.sheet.saturating_add(1);
        self.right = MIDDLE;
        let cell = Cell {
            x: MIDDLE,
            y: MIDDLE,
            z: MIDDLE,
        };
        self.put(room, cell)?;
        self.spread(room)
    }

    // Places all rooms.
    fn fill(&mut self) -> Result<(), AllocError> {
        for room in 0..self.world.next_number() {
            if self.world.is_room(room) && self.cell(room).is_none() {
                self.open(room)?;
            }
        }
        Ok(())
    }
}

impl Block {
    // Returns the block of one cell.
    fn of(cell: Cell) -> Block {
        Block {
            floor: cell.z,
            left: cell.x,
            right: cell.x,
            top: cell.y,
            low: cell.y,
            column: 0,
            row: 0,
        }
    }

    // Widens the block so that it has a cell.
    fn add(&mut self, cell: Cell) {
        if cell.x < self.left {
            self.left = cell.x;
        }
        if cell.x > self.right {
            self.right = cell.x;
        }
        if cell.y < self.top {
            self.top = cell.y;
        }
        if cell.y > self.low {
            self.low = cell.y;
        }
    }

    fn width(&self) -> u32 {
        distance(self.left, self.right).saturating_add(1)
    }

    fn height(&self) -> u32 {
        distance(self.top, self.low).saturating_add(1)
    }
}

// The blocks of a layout.
#[derive(Drop)]
struct Blocks {
    list: Vec<Block>,
    // by sheet and floor
    places: IndexMap<u64, usize>,
    columns: u32,
    rows: u32,
}

fn floor_key(sheet: u32, cell: Cell) -> u64 {
    u64::from(sheet)
        .saturating_mul(SIDE)
        .saturating_add(u64::from(cell.z))
}

impl Blocks {
    // Adds a cell to the block of its floor.
    fn add(&mut self, sheet: u32, cell: Cell) -> Result<(), AllocError> {
        let key = floor_key(sheet, cell);
        if let Some(at) = self.places.get(&key).copied() {
            if let Some(block) = self.list.get_mut(at) {
                block.add(cell);
            }
            return Ok(());
        }
        self.places.insert(key, self.list.len())?;
        self.list.push(Block::of(cell))?;
        Ok(())
    }

    // Adds all cells.
    fn add_all(&mut self, cells: &[Option<(u32, Cell)>]) -> Result<(), AllocError> {
        for one in cells {
            if let Some((sheet, cell)) = *one {
                self.add(sheet, cell)?;
            }
        }
        Ok(())
    }

    // Lays the blocks beside each other, in rows.
    fn spread(&mut self) {
        let (mut column, mut row, mut height) = (0u32, 0u32, 0u32);
        for block in self.list.iter_mut() {
            let end = column.saturating_add(block.width());
            if column > 0 && end > MOST_COLUMNS {
                row = row.saturating_add(height);
                column = 0;
                height = 0;
            }
            block.column = column;
            block.row = row;
            column = column.saturating_add(block.width());
            if block.height() > height {
                height = block.height();
            }
            if column > self.columns {
                self.columns = column;
            }
        }
        self.rows = row.saturating_add(height);
    }

    // Returns the place of a cell.
    fn place(&self, sheet: u32, cell: Cell) -> Option<Place> {
        let at = self.places.get(&floor_key(sheet, cell)).copied()?;
        let block = self.list.get(at)?;
        Some(Place {
            block: at,
            column: block.column.saturating_add(distance(block.left, cell.x)),
            row: block.row.saturating_add(distance(block.top, cell.y)),
        })
    }
}

// Returns the places of cells, by number.
fn places_of(
    alloc: Global,
    blocks: &Blocks,
    cells: &[Option<(u32, Cell)>],
) -> Result<Vec<Option<Place>>, AllocError> {
    let mut places = Vec::new(alloc);
    for one in cells {
        let place = match *one {
            Some((sheet, cell)) => blocks.place(sheet, cell),
            None => None,
        };
        places.push(place)?;
    }
    Ok(places)
}

/// Returns the places of all rooms of a world. The only error is out of memory.
pub(crate) fn plane_of(alloc: Global, world: &World) -> Result<Plane, AllocError> {
    let mut layout = Layout {
        alloc,
        world,
        cells: vec![in alloc; None; world.next_number() as usize]?,
        taken: IndexMap::new(alloc),
        sheet: 0,
        right: MIDDLE,
        named: Vec::new(alloc),
        others: Vec::new(alloc),
    };
    layout.fill()?;
    let mut blocks = Blocks {
        list: Vec::new(alloc),
        places: IndexMap::new(alloc),
        columns: 1,
        rows: 1,
    };
    blocks.add_all(&layout.cells)?;
    blocks.spread();
    let places = places_of(alloc, &blocks, &layout.cells)?;
    let Blocks {
        list,
        columns,
        rows,
        ..
    } = blocks;
    Ok(Plane {
        places,
        blocks: list,
        columns,
        rows,
    })
}
