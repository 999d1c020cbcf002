//! Labels by room.

ghost use Rattle.std.specs.Prelude.{◌≡◌};
ghost use Rattle.mud_roads.specs.Walks.{after};
ghost use Rattle.mud_cert.specs.Lookup.{label_at};
ghost use Rattle.mud_cert.specs.inner.Labels.{Rises, label_in};
ghost use Rattle.mud_cert.specs.inner.Tests.{is_at_most};

use crate::Member;
use mud_roads::{Label, Step};

// Returns the label of the room, by binary search.
fn label_in(labels: &[(u32, Label)], room: u32) -> Option<Label>
    requires { Rises labels.now }
    ensures { result ≡ label_in labels.now room }
{
    match labels.binary_search_by_key(&room, |entry| entry.0) {
        Ok(at) => Some(labels[at].1),
        Err(_) => None,
    }
}

// Returns the member's label of the room.
pub(crate) fn label_at(member: &Member, room: u32) -> Option<Label>
    ensures { result ≡ label_at member.now room }
{
    label_in(&member.labels, room)
}

// Returns whether the label is at most the label after the step.
pub(crate) fn is_after(label: Label, before: Label, hop: u32, step: Step) -> bool
    ensures { result ≡ is_at_most label (after hop before step) }
{
    let cost = u64::from(before.cost) + u64::from(step.cost);
    let exits = u64::from(before.exits) + u64::from(hop);
    let is = u64::from(label.cost);
    is < cost || (is == cost && u64::from(label.exits) <= exits)
}
