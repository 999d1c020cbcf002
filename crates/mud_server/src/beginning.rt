//! The beginning of the next volume.

ghost use Rattle.std.specs.Prelude.{◌≡◌, ◌≤◌, IfOk, length, false};
ghost use Rattle.std.specs.Option.{option_map};
ghost use Rattle.mud_journal.specs.Disk.{Holds};
ghost use Rattle.mud_shelf.specs.Volume.{durable};
ghost use Rattle.mud_journal.specs.declared.fault.OpenFault.{OpenFault};
ghost use Rattle.mud_server_volume.specs.Marks.{most_begun};
ghost use Rattle.mud_server.specs.MayBegin.{MayBegin};

use crate::continued::continued;
use log::{Log, warn};
use mud_chron::Entry;
use mud_compact::shorten;
use mud_journal::{Journal, Nameless};
use mud_server_volume::Proposal;
use mud_server_volume::marks::most_begun;
use mud_shelf::{Shelf, TurnFault, Volume, next_volume, turn};
use std::alloc::Global;

/// The folder of the volumes, and the name of the journal in it.
#[derive(Drop)]
pub struct Volumes<'a, S> {
    pub shelf: S,
    pub journal: &'a str,
}

/// The next volume: its journal, and the entries that it begins with.
#[derive(Drop)]
pub(crate) struct Next<D: mud_journal::Disk + Drop> {
    pub(crate) journal: Journal<Nameless, D>,
    pub(crate) begun: Vec<Entry>,
}

/// The reason why there is no next volume.
#[derive(Clone, Copy, Debug, PartialEq, Eq)]
pub(crate) enum NoNext {
    /// The world takes this many changes, most of a volume.
    Large(usize),
    /// The turn was called off: whatever a crash leaves, there is no next volume.
    CalledOff,
    /// A crash may leave the next volume or not.
    Unknown,
}

/// Returns the entries with which the next volume begins: a history of the same world, short enough for a volume. It is
/// the proposal with the entries that came since, if that will do.
pub(crate) fn beginning_of(
    alloc: Global,
    capacity: u32,
    history: &[Entry],
    proposal: Option<Proposal>,
) -> Result<Vec<Entry>, NoNext>
    ensures begins { IfOk result (λ begun. MayBegin history.now begun.items) }
    ensures few { IfOk result (λ begun. length begun.items ≤ most_begun capacity) }
{
    let most = most_begun(capacity as usize);
    if let Some(proposal) = proposal {
        if let Ok(Some(begun)) = continued(alloc, history, proposal, most) {
            return Ok(begun);
        }
    }
    let Ok(begun) = shorten(alloc, history) else {
        return Err(NoNext::CalledOff);
    };
    if begun.len() <= most {
        Ok(begun)
    } else {
        Err(NoNext::Large(begun.len()))
    }
}

// Returns the reason for a turn that failed, and logs it.
fn of_fault<R: Log>(rt: &R, volume: u32, fault: TurnFault) -> NoNext
    ensures { result ≡ NoNext.CalledOff → (why : OpenFault) × (fault ≡ TurnFault.CalledOff why) }
{
    warn!(rt; "no-turn volume={volume} why=\"{fault}\"");
    match fault {
        TurnFault::CalledOff(_) => NoNext::CalledOff,
        TurnFault::Unknown(_) => NoNext::Unknown,
    }
}

/// Makes the volume after this one, which begins with these entries.
pub(crate) fn make_next<S: Shelf, R: Log>(
    rt: &R,
    alloc: Global,
    volumes: &mut Volumes<'_, S>,
    volume: u32,
    begun: Vec<Entry>,
) -> Result<Next<Volume<S::Draft>>, NoNext>
    ensures begun { IfOk result (λ n. n.begun.items ≡ begun.items) }
    ensures holds { IfOk result (λ n. Holds (option_map durable (S.Draft.stage n.journal.disk.draft)) begun.items) }
    ensures count { IfOk result (λ n. n.journal.count ≡ length begun.items) }
    ensures going { IfOk result (λ n. n.journal.has_failed ≡ false) }
    ensures finished { S.finished volumes.new.shelf ≡ S.finished volumes.old.shelf }
{
    let found = match next_volume(alloc, &mut volumes.shelf, volumes.journal, volume) {
        Ok(found) => found,
        Err(fault) => {
            warn!(rt; "no-turn volume={volume} why=\"{fault}\"");
            return Err(NoNext::CalledOff);
        }
    };
    match turn(alloc, found, &begun) {
        Ok(journal) => Ok(Next { journal, begun }),
        Err((volume_left, fault)) => {
            drop(volume_left);
            Err(of_fault(rt, volume, fault))
        }
    }
}
