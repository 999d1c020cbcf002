//! Laws of the definitions. Each contract is a law, and its function does nothing.

ghost use Rattle.mud_cert.specs.Laws.{NoDoubtIsValid, ValidOrDoubted, OneFirstDoubt, ValidIsOptimal};

/// A certificate is valid exactly if none of the doubts holds.
pub fn no_doubt_is_valid()
    ensures { NoDoubtIsValid }
{}

/// A certificate is valid or has a first doubt.
pub fn valid_or_doubted()
    ensures { ValidOrDoubted }
{}

/// A certificate has at most one first doubt.
pub fn one_first_doubt()
    ensures { OneFirstDoubt }
{}

/// The conclusion of a valid certificate is optimal.
pub fn valid_is_optimal()
    ensures { ValidIsOptimal }
{}
