//! Laws of the definitions. Each contract is a law, and its function does nothing.

ghost use Rattle.mud_chron.specs.Laws.{LegalIsSpellable, SpellsOne, HasOneFault, HasNoReturns, FaultsAreNoTexts};
ghost use Rattle.mud_chron.specs.Laws.{AreWhole};
ghost use Rattle.mud_chron.specs.Laws.{IsWrittenAgain, FaultsAreNoFronts, NothingIsLost};
ghost use Rattle.mud_chron.specs.History.{AreEntriesOf};
ghost use Rattle.mud_chron.specs.Text.{journal_text};
ghost use Rattle.mud_chron.specs.Fronts.{Recovers};
ghost use Rattle.std.specs.Prelude.{◌≡◌, ℕ, List, take};
ghost use Rattle.mud_chron.specs.declared.codes.TheConstants.{QUOTE};
ghost use Rattle.mud_chron.specs.declared.limits.TheConstants.{MOST_DESKS};
ghost use Rattle.mud_chron.specs.Entry.{Entry};
ghost use Rattle.mud_chron.specs.declared.format.Format.{Format};

/// A change that is legal in a sound world is spellable for every desk.
pub fn legal_is_spellable()
    ensures { LegalIsSpellable }
{}

/// Bytes are the text of at most one list of entries, in either format.
pub fn one_history()
    ensures { SpellsOne }
{}

/// Bytes have at most one fault.
pub fn one_fault()
    ensures { HasOneFault }
{}

/// Bytes with a fault are not the text of any entries.
pub fn no_text_with_a_fault()
    ensures { FaultsAreNoTexts }
{}

/// The text of a history contains no carriage return: its lines end with a line feed only.
pub fn no_returns()
    ensures { HasNoReturns }
{}

/// A written text reads back as exactly its entries.
pub fn again()
    ensures { IsWrittenAgain }
{}

/// From a journal cut at any byte, recovery finds exactly the entries with complete lines.
pub fn recovers_whole()
    ensures { (format found : Format) (entries got : List Entry) (n keep : ℕ) → AreEntriesOf format entries
        → Recovers (take n (journal_text format entries)) found got keep → AreWhole format entries n found got keep }
{}

/// Bytes with a fault are not a prefix of any journal.
pub fn no_front_with_a_fault()
    ensures { FaultsAreNoFronts }
{}

/// From a journal that was cut after its synced part, recovery finds every synced entry.
pub fn nothing_is_lost()
    ensures { NothingIsLost }
{}

/// Promises the greatest number of desks.
pub fn limits()
    ensures most_desks { MOST_DESKS ≡ 64 }
{}

/// Promises that the named byte has the value of US-ASCII.
pub fn codes()
    ensures quote { QUOTE ≡ 34 }
{}
