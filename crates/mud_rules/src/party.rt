//! The members of a meeting.

ghost use Rattle.std.specs.Prelude.{◌≡◌};
ghost use Rattle.mud_rules.specs.Party.{IsParty};

use std::marker::Model;

/// The players of a meeting by their numbers: 2 to 8, all different, in the given order. A contract sees the list of
/// the numbers.
#[derive(Drop)]
pub struct Party {
    members: Vec<u32>,
}

impl Model for Party {
    ghost use Rattle.std.specs.Prelude.{ℕ, List};

    ghost Value = { List ℕ };

    ghost view = { λ a. a.members.items };

    ghost use Rattle.mud_rules.specs.Party.{IsParty};

    ghost invariant = { λ a. IsParty a.members.items };
}

impl Party {
    // Returns the party of these players.
    pub(crate) fn of(members: Vec<u32>) -> Party
        requires { IsParty members.items }
        ensures { result ≡ members.items }
    {
        Party { members }
    }

    /// Returns the numbers of the players, in the given order.
    pub fn members(&self) -> &[u32]
        ensures members { result.now ≡ self.now }
        ensures party { IsParty self.now }
    {
        self.members.as_slice()
    }
}
