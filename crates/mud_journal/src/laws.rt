//! Laws of the definitions. Each contract is a law, and its function does nothing.

ghost use Rattle.mud_journal.specs.Laws.{IsAlwaysRead, NothingIsLost, WhateverFollows, OnAnyDisk};

/// Whatever a crash leaves of a journal can be recovered, if it leaves each written byte or a zero in its place.
pub fn always_read()
    ensures { IsAlwaysRead }
{}

/// From whatever such a crash leaves of a journal, recovery finds every synced entry, and only written ones.
pub fn nothing_is_lost()
    ensures { NothingIsLost }
{}

/// Whatever bytes follow the synced text, recovery finds all synced entries, or rejects a line after them. It may take
/// a line that follows them for the next entry, if it is one.
pub fn whatever_follows()
    ensures { WhateverFollows }
{}

/// From whatever a crash leaves of a journal on a disk of any kind, recovery finds all synced entries, or rejects a
/// line after them.
pub fn on_any_disk()
    ensures { OnAnyDisk }
{}
