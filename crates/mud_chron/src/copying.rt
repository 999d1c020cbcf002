//! Copies of changes.

ghost use Rattle.std.specs.Prelude.{◌≡◌, IfOk};

use mud_key::Names;
use mud_world::{Change, Deed, Doors, Target};
use std::alloc::{AllocError, Global};

fn copy_target(target: &Target) -> Result<Target, AllocError>
    ensures { IfOk result (λ t. t ≡ target.now) }
{
    match target {
        Target::New(names) => Ok(Target::New(names.copy()?)),
        Target::Old(room) => Ok(Target::Old(*room)),
    }
}

fn copy_back(back: &Option<Names>) -> Result<Option<Names>, AllocError>
    ensures { IfOk result (λ b. b ≡ back.now) }
{
    match back {
        Some(names) => Ok(Some(names.copy()?)),
        None => Ok(None),
    }
}

fn copy_doors(doors: &Option<Doors>) -> Result<Option<Doors>, AllocError>
    ensures { IfOk result (λ d. d ≡ doors.now) }
{
    match doors {
        Some(doors) => Ok(Some(Doors {
            out: doors.out.copy()?,
            back: copy_back(&doors.back)?,
        })),
        None => Ok(None),
    }
}

fn copy_deed(alloc: Global, deed: &Deed) -> Result<Deed, AllocError>
    ensures { IfOk result (λ d. d ≡ deed.now) }
{
    Ok(match deed {
        Deed::Dig(target, doors) => Deed::Dig(copy_target(target)?, copy_doors(doors)?),
        Deed::Make(names) => Deed::Make(names.copy()?),
        Deed::Player(name) => Deed::Player(name.copy(alloc)?),
        Deed::Lock { object, key } => Deed::Lock {
            object: *object,
            key: key.copy()?,
        },
        Deed::Unlock { object } => Deed::Unlock { object: *object },
        Deed::Move { thing, to } => Deed::Move {
            thing: *thing,
            to: *to,
        },
        Deed::Walk { exit } => Deed::Walk { exit: *exit },
        Deed::Cost { exit, cost } => Deed::Cost {
            exit: *exit,
            cost: *cost,
        },
        Deed::Rename { object, names } => Deed::Rename {
            object: *object,
            names: names.copy()?,
        },
        Deed::Recycle { object } => Deed::Recycle { object: *object },
        Deed::Say(text) => Deed::Say(text.copy(alloc)?),
        Deed::Emote(text) => Deed::Emote(text.copy(alloc)?),
    })
}

// Returns an equal change.
pub(crate) fn copy_change(alloc: Global, change: &Change) -> Result<Change, AllocError>
    ensures { IfOk result (λ c. c ≡ change.now) }
{
    Ok(Change {
        actor: change.actor,
        deed: copy_deed(alloc, &change.deed)?,
    })
}
