//! The result of a search.

ghost use Rattle.std.specs.Prelude.{◌≡◌, ◌++◌, map, IfOk, OnOk, OnErr};
ghost use Rattle.mud_search.specs.Slots.{label_of};
ghost use Rattle.mud_search.specs.Tables.{table};
ghost use Rattle.mud_search.specs.inner.Tables.{lists_in};
ghost use Rattle.mud_search.specs.Least.{label_in, AreLabelsBelow};

use crate::board::Board;
use mud_roads::Label;
use std::alloc::{AllocError, Global};
use std::marker::Model;

/// The labels of each member of a party at each room. A contract sees a label, or none, for each member and room.
#[derive(Drop)]
pub struct Labels {
    boards: Vec<Board>,
}

impl Model for Labels {
    ghost use Rattle.std.specs.Prelude.{Option, map};
    ghost use Rattle.std.specs.Coded.{coded_option};
    ghost use Rattle.mud_roads.specs.declared.label.Label.{Label};
    ghost use Rattle.mud_roads.specs.contracts.label.Label as label;
    ghost use Rattle.mud_search.specs.Slots.{label_of};
    ghost use Rattle.mud_search.specs.Tables.{Table, table, table_code};

    ghost Value = { Table (Option Label) };

    ghost coded = { table_code (coded_option label.the_row.coded) };

    ghost view = { λ l. table (map (map label_of) l.boards.items) };
}

impl Labels {
    // Returns the labels of the boards.
    pub(crate) fn of(boards: Vec<Board>) -> Labels
        ensures { result ≡ table (map (map label_of) boards.items) }
    {
        Labels { boards }
    }

    // Appends the labels of further members. If an allocation fails, nothing changes.
    pub(crate) fn append(&mut self, other: Labels) -> Result<(), AllocError>
        ensures ok { OnOk result (lists_in self.new ≡ lists_in self.old ++ lists_in other) }
        ensures err { OnErr result (self.new ≡ self.old) }
    {
        let Labels { mut boards } = other;
        self.boards.append(&mut boards)
    }

    /// Returns the label of a member at a room: the cost and the number of exits of a walk there. Returns `None` if no
    /// walk of the member leads there, or if the member or the number is past the last one.
    pub fn get(&self, member: usize, room: u32) -> Option<Label>
        ensures { result ≡ label_in self.now member room }
    {
        if member < self.boards.len() {
            self.boards[member].label(room)
        } else {
            None
        }
    }

    /// Returns the labels of a member at the numbers below `next`, each with its number, sorted. The list is empty for
    /// a member past the last one. The only error is out of memory.
    pub fn below(
        &self,
        alloc: Global,
        member: usize,
        next: u32,
    ) -> Result<Vec<(u32, Label)>, AllocError>
        ensures { IfOk result (λ found. AreLabelsBelow (label_in self.now member) next found.items) }
    {
        if member < self.boards.len() {
            self.boards[member].labels_below(alloc, next)
        } else {
            Ok(Vec::new(alloc))
        }
    }
}
