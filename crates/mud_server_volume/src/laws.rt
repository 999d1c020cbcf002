//! A law of the definitions. Its contract is the law, and its function does nothing.

ghost use Rattle.mud_server_volume.specs.Marks.{NoTurnAtOnce};

/// Unless the host requests it, a server turns to its next volume only with more changes than any volume begins with.
/// So a next volume turns by itself only after further changes.
pub fn no_turn_at_once()
    ensures { NoTurnAtOnce }
{}
