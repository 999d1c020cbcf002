//! Laws of the definitions. Each contract is a law, and its function does nothing.

ghost use Rattle.mud_compact.specs.Laws.{TalkChangesNothing};

/// A legal history without its talk is legal, and leads to the same world.
pub fn talk_changes_nothing()
    ensures { TalkChangesNothing }
{}
