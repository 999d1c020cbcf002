//! The turn of a journal to its next volume.

ghost use Rattle.std.specs.Prelude.{◌≡◌, ◌⊎◌, ℕ, List, [], Option, Some, IfOk, IfErr, length, false};
ghost use Rattle.mud_chron.specs.declared.format.Format.TheVariants.{Two};
ghost use Rattle.mud_chron.specs.Text.{journal_text};
ghost use Rattle.mud_journal.specs.Disk.{made};
ghost use Rattle.mud_journal.specs.declared.fault.OpenFault.{OpenFault};
ghost use Rattle.mud_journal.specs.OpenFaults.{IsBeginFault};
ghost use Rattle.mud_shelf.specs.Draft.{Temporary, IsFresh, IsCalledOff, IsPublished, IsNoneOrAll};
ghost use Rattle.mud_shelf.specs.Faults.{IsTurnFault};

use crate::draft::Draft;
use crate::fault::TurnFault;
use crate::standing::Standing;
use crate::volume::Volume;
use mud_chron::Entry;
use mud_journal::{Found, Journal, Nameless, OpenFault, recover};
use std::alloc::Global;

/// Returns the volume that this file is to be, with a journal without entries. Nothing was written to the file.
pub fn fresh_volume<N: Draft + Drop>(alloc: Global, draft: N) -> Result<Found<Volume<N>>, OpenFault>
    requires { IsFresh (N.stage draft) }
    ensures draft { IfOk result (λ f. f.disk.draft ≡ draft) }
    ensures text { IfOk result (λ f. f.text.items ≡ journal_text Two []) }
    ensures count { IfOk result (λ f. f.count ≡ 0) }
{
    let (found, _, _) = recover(alloc, Volume::new(draft), Vec::new(alloc))?;
    Ok(found)
}

// Returns the fault of a turn whose volume has this standing.
fn turn_fault(standing: Standing, fault: OpenFault) -> TurnFault
    ensures called_off { (why : OpenFault) → result ≡ TurnFault.CalledOff why
        → (standing ≡ Standing.Fresh) ⊎ (standing ≡ Standing.CalledOff) }
    ensures fault { (count : ℕ) → IsBeginFault count fault → IsTurnFault count result }
{
    match standing {
        Standing::Fresh | Standing::CalledOff => TurnFault::CalledOff(fault),
        Standing::Begun | Standing::Unknown => TurnFault::Unknown(fault),
    }
}

/// Begins the next volume with these entries. Once it has returned Ok, a start finds the volume after every crash. A
/// crash meanwhile, or after a fault, leaves no next volume, or all of these entries. An error returns the volume.
pub fn turn<N: Draft + Drop>(
    alloc: Global,
    found: Found<Volume<N>>,
    begun: &[Entry],
) -> Result<Journal<Nameless, Volume<N>>, (Volume<N>, TurnFault)>
    requires text { found.text.items ≡ journal_text Two [] }
    requires count { found.count ≡ 0 }
    ensures there { IfOk result (λ j. IsPublished (N.stage j.disk.draft) (journal_text Two begun.now)) }
    ensures count { IfOk result (λ j. j.count ≡ length begun.now) }
    ensures going { IfOk result (λ j. j.has_failed ≡ false) }
    ensures crash { IfOk result (λ j. N.stage found.disk.draft ≡ Some (Temporary (made []))
        → (left : Option (List ℕ)) → N.left_since j.disk.draft (N.moment found.disk.draft) left
        → IsNoneOrAll N.tears (journal_text Two begun.now) left) }
    ensures called_off { IfErr result (λ e. (why : OpenFault) → e.1 ≡ TurnFault.CalledOff why
        → IsCalledOff (N.stage e.0.draft)) }
    ensures crash_err { IfErr result (λ e. N.stage found.disk.draft ≡ Some (Temporary (made []))
        → (left : Option (List ℕ)) → N.left_since e.0.draft (N.moment found.disk.draft) left
        → IsNoneOrAll N.tears (journal_text Two begun.now) left) }
    ensures err { IfErr result (λ e. IsTurnFault (length begun.now) e.1) }
{
    match found.begin(alloc, begun) {
        Ok(journal) => Ok(journal),
        Err((volume, fault)) => {
            let why = turn_fault(volume.standing(), fault);
            Err((volume, why))
        }
    }
}
