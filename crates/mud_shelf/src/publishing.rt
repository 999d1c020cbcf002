//! Makes a temporary file the next volume.

ghost use Rattle.std.specs.Prelude.{◌≡◌, ℕ, List, Option, None, Err, OnOk, OnErr};
ghost use Rattle.mud_journal.specs.Disk.{Kept, made};
ghost use Rattle.mud_journal.specs.declared.disk.DiskFault.{DiskFault};
ghost use Rattle.mud_shelf.specs.Draft.{IsFresh, IsCalledOff, IsPublished, IsNoneOrAll, Elapses};
ghost use Rattle.mud_shelf.specs.inner.Publishing.{IsTemporary, HasText, IsEither};

use crate::draft::Draft;
use mud_journal::DiskFault;

// The reason why the file is not the next volume. The call is called off if no crash leaves the volume, and unknown if
// a crash may leave it.
#[derive(Clone, Copy)]
pub(crate) enum PublishFault {
    CalledOff(DiskFault),
    Unknown(DiskFault),
}

// Writes the whole text, and waits until it is durable.
fn fill<N: Draft>(draft: &mut N, text: &[u8]) -> Result<(), DiskFault>
    ensures ok { IsFresh (N.stage draft.old) → OnOk result (HasText (N.stage draft.new) text.now) }
    ensures err { IsFresh (N.stage draft.old) → OnErr result (IsTemporary (N.stage draft.new)) }
    ensures crash { IsFresh (N.stage draft.old) → Elapses (N.moment draft.old) (N.moment draft.new)
        (N.left_since draft.old) (N.left_since draft.new) (IsNoneOrAll N.tears text.now) }
{
    match draft.append(text) {
        Ok(()) => draft.sync(),
        Err(fault) => Err(fault),
    }
}

// Returns the fault of a failed rename. The volume is called off only if the file is known to have its temporary name.
fn after_fault<N: Draft>(draft: &mut N, fault: DiskFault) -> PublishFault
    ensures called_off { (text : List ℕ) → IsEither (N.stage draft.old) text → (why : DiskFault)
        → result ≡ PublishFault.CalledOff why → IsCalledOff (N.stage draft.new) }
    ensures crash { (text : List ℕ) → IsEither (N.stage draft.old) text
        → Elapses (N.moment draft.old) (N.moment draft.new) (N.left_since draft.old) (N.left_since draft.new)
        (IsNoneOrAll N.tears text) }
{
    match draft.is_renamed() {
        Ok(false) => {
            draft.discard();
            PublishFault::CalledOff(fault)
        }
        _ => PublishFault::Unknown(fault),
    }
}

// Makes a file to which nothing was written the next volume, with this text.
pub(crate) fn publish<N: Draft>(draft: &mut N, text: &[u8]) -> Result<(), PublishFault>
    ensures ok { IsFresh (N.stage draft.old) → OnOk result (IsPublished (N.stage draft.new) text.now) }
    ensures called_off { IsFresh (N.stage draft.old) → (why : DiskFault) → result ≡ Err (PublishFault.CalledOff why)
        → IsCalledOff (N.stage draft.new) }
    ensures crash { IsFresh (N.stage draft.old) → Elapses (N.moment draft.old) (N.moment draft.new)
        (N.left_since draft.old) (N.left_since draft.new) (IsNoneOrAll N.tears text.now) }
{
    if let Err(fault) = fill(draft, text) {
        draft.discard();
        return Err(PublishFault::CalledOff(fault));
    }
    if let Err(fault) = draft.rename() {
        return Err(after_fault(draft, fault));
    }
    match draft.sync_folder() {
        Ok(()) => Ok(()),
        Err(fault) => Err(PublishFault::Unknown(fault)),
    }
}
