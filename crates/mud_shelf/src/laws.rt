//! Laws of the definitions: each contract is a law, and its function does nothing.

ghost use Rattle.mud_shelf.specs.Laws.{NamesDiffer, TurnLosesNothing, OnAnyFolder};

use mud_journal::laws::{always_read, nothing_is_lost, on_any_disk};

/// Volumes with different numbers have different names.
pub fn names_differ()
    ensures { NamesDiffer }
{}

/// Whatever a crash leaves in a turn, a start finds the old volume or the next one, whole.
pub fn turn_loses_nothing()
    ensures { TurnLosesNothing }
{
    nothing_is_lost();
    always_read();
}

/// Whatever a crash leaves in a turn on a disk of any kind, a start finds all entries of the old volume or of the next
/// one.
pub fn on_any_folder()
    ensures { OnAnyFolder }
{
    on_any_disk();
}
