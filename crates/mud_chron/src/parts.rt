//! Tells the prover the invariants of a change's parts. The results of the calls are not used.

ghost use Rattle.mud_chron.specs.Entry.{HasParts, IsTarget};
ghost use Rattle.mud_world.specs.inner.Fields.{AreDoors, AreBackNames};

use mud_key::Names;
use mud_world::{Change, Deed, Doors, Target};

// Tells the prover about the names of an exit back.
fn has_back_names(back: &Option<Names>)
    ensures { AreBackNames back.now }
{
    if let Some(names) = back {
        names.list();
    }
}

// Tells the prover about the names of exits.
fn has_doors(doors: &Option<Doors>)
    ensures { AreDoors doors.now }
{
    if let Some(doors) = doors {
        doors.out.list();
        has_back_names(&doors.back);
    }
}

// Tells the prover about the target of a dig.
fn has_target(target: &Target)
    ensures { IsTarget target.now }
{
    if let Target::New(names) = target {
        names.list();
    }
}

// Tells the prover about the names, the key and the text of a change.
pub(crate) fn has_parts(change: &Change)
    ensures { HasParts change.now.deed }
{
    match &change.deed {
        Deed::Dig(target, doors) => {
            has_target(target);
            has_doors(doors);
        }
        Deed::Make(names) | Deed::Rename { names, .. } => {
            names.list();
        }
        Deed::Player(name) => {
            name.as_str();
        }
        Deed::Lock { key, .. } => {
            key.node();
        }
        Deed::Say(text) | Deed::Emote(text) => {
            text.as_str();
        }
        Deed::Unlock { .. }
        | Deed::Move { .. }
        | Deed::Walk { .. }
        | Deed::Cost { .. }
        | Deed::Recycle { .. } => {}
    }
}
