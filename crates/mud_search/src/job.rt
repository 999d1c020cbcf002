//! The subject of a search, for contracts only.

use std::marker::Brand;

/// A world and its travellers, for contracts only. With it the type of a [`Frontier`](crate::Frontier) says to which
/// world its invariant refers.
pub trait Job {
    ghost use Rattle.std.specs.Prelude.{List};
    ghost use Rattle.mud_world.specs.State.{State};
    ghost use Rattle.mud_roads.specs.Passable.{Knowledge};

    ghost world: { State };

    ghost travellers: { List Knowledge };
}

impl Job for Brand {
    ghost use Rattle.std.specs.Prelude.{[]};

    ghost world = { record { objects = []; next = 0 } };

    ghost travellers = { [] };
}
