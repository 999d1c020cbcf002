//! Laws of the definitions. Each contract is a law, and its function does nothing.

ghost use Rattle.std.specs.Prelude.{◌≡◌};
ghost use Rattle.mud_key.specs.Laws.{AreTheNames, IsTheName, IsTheKey};
ghost use Rattle.mud_key.specs.declared.limits.TheConstants.{LAST_NUMBER, MOST_NAMES, MOST_NAME_BYTES, MOST_OBJECTS};
ghost use Rattle.mud_key.specs.declared.limits.TheConstants.{MOST_NOTS, MOST_DIGITS, AMOUNTS};
ghost use Rattle.mud_key.specs.declared.codes.TheConstants.{SPACE, TILDE, SHARP, COMMA, PARENTHESIS};
ghost use Rattle.mud_key.specs.declared.codes.TheConstants.{ZERO, NINE, LF, CR};

/// The names in a text are its parts, if there are 1 to 4 and each is a name. Otherwise there are no names in it.
pub fn names()
    ensures { AreTheNames }
{}

/// A text is found to be a name exactly if it is one.
pub fn name()
    ensures { IsTheName }
{}

/// The key found in a text is the key that the text spells, if it is within the limits. No other key is found.
pub fn key()
    ensures { IsTheKey }
{}

/// Promises the limits of names, keys and numbers.
pub fn limits()
    ensures last_number { LAST_NUMBER ≡ 8191 }
    ensures most_names { MOST_NAMES ≡ 4 }
    ensures most_name_bytes { MOST_NAME_BYTES ≡ 60 }
    ensures most_objects { MOST_OBJECTS ≡ 16 }
    ensures most_nots { MOST_NOTS ≡ 64 }
    ensures most_digits { MOST_DIGITS ≡ 9 }
    ensures amounts { AMOUNTS ≡ 1000000000 }
{}

/// Promises that the named bytes have the values of US-ASCII.
pub fn codes()
    ensures space { SPACE ≡ 32 }
    ensures tilde { TILDE ≡ 126 }
    ensures sharp { SHARP ≡ 35 }
    ensures comma { COMMA ≡ 44 }
    ensures parenthesis { PARENTHESIS ≡ 40 }
    ensures zero { ZERO ≡ 48 }
    ensures nine { NINE ≡ 57 }
    ensures lf { LF ≡ 10 }
    ensures cr { CR ≡ 13 }
{}
