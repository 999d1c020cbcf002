//! The choice of changes to leave out.

ghost use Rattle.std.specs.Prelude.{◌≡◌};
ghost use Rattle.mud_undo.specs.Choices.{leaves_out};

use mud_chron::Entry;

/// The changes of a history that are left out. Change n makes version n, counted from 1.
#[derive(Debug, Drop)]
pub enum Choice {
    /// The changes that make these versions.
    Versions(Vec<u32>),
    /// The changes of the actor from this version on, or all of them if there is no actor.
    Since { first: u32, actor: Option<u32> },
}

/// Returns whether the entry that makes this version is left out.
pub(crate) fn leaves_out(choice: &Choice, version: u32, entry: &Entry) -> bool
    ensures { result ≡ leaves_out choice.now version entry.now }
{
    match choice {
        Choice::Versions(versions) => versions.contains(&version),
        Choice::Since { first, actor: None } => *first <= version,
        Choice::Since {
            first,
            actor: Some(actor),
        } => { *first <= version && entry.change().actor == *actor }
    }
}
