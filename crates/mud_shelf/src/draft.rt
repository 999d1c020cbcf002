//! A temporary file that is to be the next volume.

ghost use Rattle.std.specs.Prelude.{◌≡◌, ◌⊎◌, ℕ, List, Option, Some, None, OnOk, OnErr, IfOk, take, true, false};
ghost use Rattle.mud_journal.specs.Disk.{Kept};
ghost use Rattle.mud_shelf.specs.Draft.{Stage, Temporary, Renamed, Becomes, MayLeaveNow, Elapses};
ghost use Rattle.mud_shelf.specs.Draft.{after_append, after_sync, after_rename, after_folder_sync, after_discard};

use mud_journal::DiskFault;

/// A temporary file in the folder of a journal. Once all of it is synced, one rename makes it the next volume. A crash
/// may undo the rename until the folder is synced.
pub trait Draft {
    /// The bytes that this process wrote and synced, and the file's name; `None` while nothing is known.
    ghost stage: { Self → Option Stage };

    /// The number of the volume that it is to be, which no call changes; `None` while nothing is known.
    ghost number: { Self → Option ℕ };

    /// The bytes that a crash may leave of those that were written and not synced.
    ghost tears: { List ℕ → List ℕ → Type 0 };

    /// A number of the present moment, which no call lowers.
    ghost moment: { Self → ℕ };

    /// The file that a crash may have left under the volume's name at a moment since that one, in a call or between
    /// two: none, or one with these bytes.
    ghost left_since: { Self → ℕ → Option (List ℕ) → Type 0 };

    /// Appends the bytes. After a fault a prefix of them was appended.
    fn append(&mut self, bytes: &[u8]) -> Result<(), DiskFault>
        ensures ok { OnOk result (Becomes (after_append bytes.now) (stage self.old) (stage self.new)) }
        ensures err { OnErr result ((n : ℕ)
            × Becomes (after_append (take n bytes.now)) (stage self.old) (stage self.new)) }
        ensures crash { Elapses (moment self.old) (moment self.new) (left_since self.old) (left_since self.new)
            (MayLeaveNow tears (stage self.new)) };

    /// Waits until all appended bytes are durable. After a fault no more bytes are known to be durable.
    fn sync(&mut self) -> Result<(), DiskFault>
        ensures ok { OnOk result (Becomes after_sync (stage self.old) (stage self.new)) }
        ensures err { OnErr result (stage self.new ≡ stage self.old) }
        ensures crash { Elapses (moment self.old) (moment self.new) (left_since self.old) (left_since self.new)
            (MayLeaveNow tears (stage self.old)) };

    /// Renames the file to the volume's name, which no file has. After a fault it has either name.
    fn rename(&mut self) -> Result<(), DiskFault>
        ensures ok { OnOk result (Becomes after_rename (stage self.old) (stage self.new)) }
        ensures err { OnErr result ((stage self.new ≡ stage self.old)
            ⊎ Becomes after_rename (stage self.old) (stage self.new)) }
        ensures crash { Elapses (moment self.old) (moment self.new) (left_since self.old) (left_since self.new)
            (MayLeaveNow tears (stage self.new)) };

    /// Returns whether the file has the volume's name.
    fn is_renamed(&mut self) -> Result<bool, DiskFault>
        ensures yes { IfOk result (λ b. (file : Kept) → stage self.old ≡ Some (Renamed file) → b ≡ true) }
        ensures no { IfOk result (λ b. (file : Kept) → stage self.old ≡ Some (Temporary file) → b ≡ false) }
        ensures same { stage self.new ≡ stage self.old }
        ensures crash { Elapses (moment self.old) (moment self.new) (left_since self.old) (left_since self.new)
            (MayLeaveNow tears (stage self.old)) };

    /// Waits until the names in the folder are durable. After a fault they are not known to be.
    fn sync_folder(&mut self) -> Result<(), DiskFault>
        ensures ok { OnOk result (Becomes after_folder_sync (stage self.old) (stage self.new)) }
        ensures err { OnErr result (stage self.new ≡ stage self.old) }
        ensures crash { Elapses (moment self.old) (moment self.new) (left_since self.old) (left_since self.new)
            (MayLeaveNow tears (stage self.old)) };

    /// Removes the file if it has its temporary name. If that fails, the next turn or start removes it.
    fn discard(&mut self)
        ensures removed { Becomes after_discard (stage self.old) (stage self.new) }
        ensures crash { Elapses (moment self.old) (moment self.new) (left_since self.old) (left_since self.new)
            (MayLeaveNow tears (stage self.old)) };

    /// While nothing is known, a crash may leave anything.
    ghost unknown: { (draft : Self) (moment : ℕ) (left : Option (List ℕ)) → stage draft ≡ None
        → left_since draft moment left };

    /// A crash at the present moment leaves what it may leave at this stage.
    ghost left: { (draft : Self) (left : Option (List ℕ)) → left_since draft (moment draft) left
        → MayLeaveNow tears (stage draft) left };
}
