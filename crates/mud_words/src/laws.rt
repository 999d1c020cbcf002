//! Laws of the definitions. Each contract is a law, and its function does nothing.

ghost use Rattle.std.specs.Prelude.{◌≡◌, ◌↔◌, List, ℕ, Some, None};
ghost use Rattle.mud_words.specs.Prepositions.{Found, Stands, Counts, preposition_of};
ghost use Rattle.mud_words.specs.Laws.{QuotedWordsReadBack, PlainLinesSplitAtSpaces, WordsAreSpelled};
ghost use Rattle.mud_words.specs.Laws.{RestFollowsFirstWord};
ghost use Rattle.mud_words.specs.declared.codes.TheConstants.{SPACE, QUOTE, COLON, SEMICOLON, BACKSLASH};

/// The preposition that the search finds is the one that counts: the longest at the earliest place. The search finds
/// none exactly if the words contain no preposition.
pub fn preposition()
    ensures counts { (args : List (List ℕ)) (f : Found) → (preposition_of args ≡ Some f) ↔ Counts args f }
    ensures none { (args : List (List ℕ)) → (preposition_of args ≡ None) ↔ ((f : Found) → ¬ Stands args f) }
{}

/// Quoted words read back. For every list of words, write each between double quotes, with a backslash before each of
/// its quotes and backslashes, and one space between two words. The words of this line are the list.
pub fn quoted_words()
    ensures { QuotedWordsReadBack }
{}

/// The words of a line without quotes and backslashes are the pieces between its spaces.
pub fn plain_words()
    ensures { PlainLinesSplitAtSpaces }
{}

/// The grammar gives a line exactly the words of the definition. A word consists of plain characters, of backslashes
/// each with the next character, and of quotations. Only at the end of a line may a quote stay open, or a backslash
/// stand alone.
pub fn grammar()
    ensures { WordsAreSpelled }
{}

/// The rest after the first word begins after the space that ends the word, and reaches to the last byte.
pub fn rest()
    ensures { RestFollowsFirstWord }
{}

/// Promises that the named bytes have the values of US-ASCII.
pub fn codes()
    ensures space { SPACE ≡ 32 }
    ensures quote { QUOTE ≡ 34 }
    ensures colon { COLON ≡ 58 }
    ensures semicolon { SEMICOLON ≡ 59 }
    ensures backslash { BACKSLASH ≡ 92 }
{}
