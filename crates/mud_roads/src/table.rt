//! Steps by room.

ghost use Rattle.std.specs.Prelude.{◌≡◌, suc, ◌-◌, ◌^◌, ◌<◌, ◌≤◌, [], ◌∷◌, ◌++◌, length, take, drop, map};
ghost use Rattle.std.specs.Prelude.{slice_index_or, slice_set, replicate, filter, position, nat_eq, All, OnOk, OnErr};
ghost use Rattle.mud_roads.specs.inner.Tables.{rows, Fit, costing, is_apart, end_without};

use crate::Step;
use std::alloc::AllocError;
use std::marker::Model;

// A row of steps for each room, sorted by number. A contract sees the rows.
#[derive(Drop)]
pub(crate) struct Table {
    // the steps of all rows, concatenated
    steps: Vec<Step>,
    // the index among the steps at which each row ends
    ends: Vec<usize>,
}

impl Model for Table {
    ghost use Rattle.std.specs.Prelude.{List};
    ghost use Rattle.mud_roads.specs.declared.label.Step.{Step};
    ghost use Rattle.mud_roads.specs.inner.Tables.{rows, Fit};

    ghost Value = { List (List Step) };

    ghost view = { λ t. rows 0 t.ends.items t.steps.items };

    ghost invariant = { λ t. Fit 0 t.ends.items t.steps.items };
}

impl Table {
    // Returns the rows that end at these indices of the steps.
    pub(crate) fn of(steps: Vec<Step>, ends: Vec<usize>) -> Table
        requires { Fit 0 ends.items steps.items }
        ensures { result ≡ rows 0 ends.items steps.items }
    {
        Table { steps, ends }
    }

    // Returns the row of a number, or the empty row past the last one.
    pub(crate) fn row(&self, number: u32) -> &[Step]
        ensures { result.now ≡ slice_index_or self.now number [] }
    {
        let at = number as usize;
        if at < self.ends.len() {
            let begin = begin_of(&self.ends, at);
            let end = self.ends[at];
            part(&self.steps, begin, end)
        } else {
            &[]
        }
    }

    // Returns the number of rows.
    pub(crate) fn count(&self) -> usize
        ensures { result ≡ length self.now }
    {
        self.ends.len()
    }

    // Appends this many empty rows. If an allocation fails, some of them are there.
    pub(crate) fn grow_by(&mut self, count: usize) -> Result<(), AllocError>
        ensures { OnOk result (self.new ≡ self.old ++ replicate count []) }
    {
        for _ in 0..count {
            self.grow()?;
        }
        Ok(())
    }

    // Appends an empty row. If the allocation fails, the table stays as it was.
    pub(crate) fn grow(&mut self) -> Result<(), AllocError>
        ensures ok { OnOk result (self.new ≡ self.old ++ ([] ∷ [])) }
        ensures err { OnErr result (self.new ≡ self.old) }
    {
        self.ends.push(self.steps.len())?;
        Ok(())
    }

    // Appends a step to the row of a number. If the allocation fails, the table stays as it was.
    pub(crate) fn add(&mut self, room: u32, step: Step) -> Result<(), AllocError>
        requires { room < length self.old }
        ensures ok { OnOk result (self.new ≡ slice_set self.old room (slice_index_or self.old room [] ++ (step ∷ []))) }
        ensures err { OnErr result (self.new ≡ self.old) }
    {
        let row = room as usize;
        let end = self.ends[row];
        // Only the insertion can fail, so it comes first.
        self.steps.insert(end, step)?;
        raise_from(&mut self.ends, row);
        Ok(())
    }

    // Gives the steps of an exit this cost.
    pub(crate) fn set_cost(&mut self, exit: u32, cost: u32)
        ensures { self.new ≡ map (map (costing exit cost)) self.old }
    {
        set_costs(&mut self.steps, exit, cost);
    }

    // Removes the steps of an exit.
    pub(crate) fn remove(&mut self, exit: u32)
        ensures { self.new ≡ map (filter (is_apart exit)) self.old }
    {
        while let Some(index) = index_of(&self.steps, exit) {
            self.steps.remove(index);
            lower(&mut self.ends, index);
        }
    }
}

// Returns the index at which a row begins: the end of the row before it.
fn begin_of(ends: &[usize], at: usize) -> usize
    requires { at < length ends.now }
    ensures { result ≡ slice_index_or (0 ∷ ends.now) at 0 }
{
    if at == 0 { 0 } else { ends[at - 1] }
}

// Returns the steps from one index to another.
fn part(steps: &[Step], begin: usize, end: usize) -> &[Step]
    requires rising { begin ≤ end }
    requires within { end ≤ length steps.now }
    ensures { result.now ≡ take (end - begin) (drop begin steps.now) }
{
    &steps[begin..end]
}

// Adds 1 to the end of each row from this one on.
fn raise_from(ends: &mut [usize], row: usize)
    requires within { row ≤ length ends.old }
    requires bounded { All (λ end. end < 2 ^ 63) ends.old }
    ensures { ends.new ≡ take row ends.old ++ map suc (drop row ends.old) }
{
    raise(&mut ends[row..]);
}

// Adds 1 to each end.
fn raise(ends: &mut [usize])
    requires { All (λ end. end < 2 ^ 63) ends.old }
    ensures { ends.new ≡ map suc ends.old }
{
    for end in ends.iter_mut() {
        *end += 1;
    }
}

// Gives the steps of an exit this cost.
fn set_costs(steps: &mut [Step], exit: u32, cost: u32)
    ensures { steps.new ≡ map (costing exit cost) steps.old }
{
    for step in steps.iter_mut() {
        if step.exit == exit {
            step.cost = cost;
        }
    }
}

// Returns the index of the first step of an exit.
fn index_of(steps: &[Step], exit: u32) -> Option<usize>
    ensures { result ≡ position (λ s. nat_eq exit s.exit) steps.now }
{
    steps.iter().position(|step| step.exit == exit)
}

// Subtracts 1 from each end after this index.
fn lower(ends: &mut [usize], index: usize)
    ensures { ends.new ≡ map (end_without index) ends.old }
{
    for end in ends.iter_mut() {
        if index < *end {
            *end -= 1;
        }
    }
}
