//! Names of halls.

ghost use Rattle.std.specs.Prelude.{[]};

use std::marker::Brand;

/// The identity of a hall: the names of the cells of its history, and its initial entries. A type that carries it
/// belongs to that hall, so a desk fits its hall even after it was behind a lock. It does not exist at run time. A
/// function that opens a hall picks the name where it calls the function that continues with it.
pub trait HallName {
    ghost use Rattle.std.specs.Prelude.{List, ℕ};
    ghost use Rattle.mud_chron.specs.Entry.{Entry};

    ghost cells: { List ℕ };

    ghost loaded: { List Entry };
}

impl HallName for Brand {
    ghost cells = { [] };

    ghost loaded = { [] };
}
