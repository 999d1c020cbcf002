//! Walks with their costs.

ghost use Rattle.std.specs.Prelude.{◌≡◌};
ghost use Rattle.mud_guide.specs.Ways.{cost_of};

use mud_roads::Step;
use std::marker::Model;

/// A walk and its cost. Contracts see its steps.
#[derive(Drop)]
pub(crate) struct Way {
    cost: u32,
    steps: Vec<Step>,
}

impl Model for Way {
    ghost use Rattle.std.specs.Prelude.{◌≡◌, List};
    ghost use Rattle.mud_roads.specs.declared.label.Step.{Step};
    ghost use Rattle.mud_guide.specs.Ways.{cost_of};

    ghost Value = { List Step };

    ghost view = { λ w. w.steps.items };

    ghost invariant = { λ w. w.cost ≡ cost_of w.steps.items };
}

impl Way {
    /// Returns the walk with these steps.
    pub(crate) fn new(cost: u32, steps: Vec<Step>) -> Way
        requires { cost ≡ cost_of steps.items }
        ensures { result ≡ steps.items }
    {
        Way { cost, steps }
    }

    /// Returns the sum of the costs of its exits.
    pub(crate) fn cost(&self) -> u32
        ensures { result ≡ cost_of self.now }
    {
        self.cost
    }

    /// Returns its steps, beginning at the start.
    pub(crate) fn steps(&self) -> &[Step]
        ensures { result.now ≡ self.now }
    {
        self.steps.as_slice()
    }
}
