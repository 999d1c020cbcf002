//! The directions of exits.

use mud_key::Names;

/// A step to a neighbouring cell. Each number is 0, 1 or 2: one back, none, or one on.
#[derive(Clone, Copy)]
pub(crate) struct Step {
    /// To the east.
    pub(crate) east: u32,
    /// To the south.
    pub(crate) south: u32,
    /// To the floor above.
    pub(crate) up: u32,
}

impl Step {
    /// Returns whether the step leads to another floor.
    pub(crate) fn is_vertical(self) -> bool {
        self.up != 1
    }

    /// Returns the step back.
    pub(crate) fn back(self) -> Step {
        Step {
            east: 2u32.saturating_sub(self.east),
            south: 2u32.saturating_sub(self.south),
            up: 2u32.saturating_sub(self.up),
        }
    }
}

// A direction: its names, and its step.
struct Direction {
    names: &'static [&'static str],
    step: Step,
}

// The directions, as the page reads them (docs/WEB.md, "The page").
static DIRECTIONS: [Direction; 10] = [
    Direction {
        names: &["north", "n"],
        step: Step {
            east: 1,
            south: 0,
            up: 1,
        },
    },
    Direction {
        names: &["south", "s"],
        step: Step {
            east: 1,
            south: 2,
            up: 1,
        },
    },
    Direction {
        names: &["east", "e"],
        step: Step {
            east: 2,
            south: 1,
            up: 1,
        },
    },
    Direction {
        names: &["west", "w"],
        step: Step {
            east: 0,
            south: 1,
            up: 1,
        },
    },
    Direction {
        names: &["northeast", "north-east", "north east", "ne"],
        step: Step {
            east: 2,
            south: 0,
            up: 1,
        },
    },
    Direction {
        names: &["northwest", "north-west", "north west", "nw"],
        step: Step {
            east: 0,
            south: 0,
            up: 1,
        },
    },
    Direction {
        names: &["southeast", "south-east", "south east", "se"],
        step: Step {
            east: 2,
            south: 2,
            up: 1,
        },
    },
    Direction {
        names: &["southwest", "south-west", "south west", "sw"],
        step: Step {
            east: 0,
            south: 2,
            up: 1,
        },
    },
    Direction {
        names: &["up", "u"],
        step: Step {
            east: 1,
            south: 1,
            up: 2,
        },
    },
    Direction {
        names: &["down", "d"],
        step: Step {
            east: 1,
            south: 1,
            up: 0,
        },
    },
];

// Returns whether the text is one of the names, ignoring ASCII case.
fn is_among(names: &[&str], text: &str) -> bool {
    for name in names {
        if name.eq_ignore_ascii_case(text) {
            return true;
        }
    }
    false
}

/// Returns the step of an exit with these names, if its first name is a direction.
pub(crate) fn step_of(names: &Names) -> Option<Step> {
    let first = names.list().first()?;
    for direction in &DIRECTIONS {
        if is_among(direction.names, first.as_str()) {
            return Some(direction.step);
        }
    }
    None
}
