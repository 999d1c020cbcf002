//! Laws of the definitions. Each contract is a law, and its function does nothing.

ghost use Rattle.std.specs.Prelude.{◌≡◌};
ghost use Rattle.mud_meter.specs.declared.meter.TheConstants.{TOKEN};
ghost use Rattle.mud_meter.specs.Laws.{LetsThroughAtMost, WaitIsExact, SlowNeverWaits, LetsThroughAll, RefillsAlike};
ghost use Rattle.mud_meter.specs.Laws.{OwesAtMost, ActsWithoutDebt};

/// Promises the number of units in a token.
pub fn limits()
    ensures token { TOKEN ≡ 60000000 }
{}

/// In any period a meter lets through at most its burst and the gain of the period.
pub fn bound()
    ensures { LetsThroughAtMost }
{}

/// A caller that waits as long as the meter said gets its tokens, and a caller that waits less does not.
pub fn waits()
    ensures { WaitIsExact }
{}

/// A caller that asks no faster than the rate never waits.
pub fn slow_never_waits()
    ensures { SlowNeverWaits }
{}

/// A meter that is full at first lets through all calls that stay within the bound.
pub fn within_the_bound()
    ensures { LetsThroughAll }
{}

/// The gain of a meter does not depend on how often it is asked.
pub fn asked_often()
    ensures { RefillsAlike }
{}

/// In any period, the callers of a debt owe at most the burst, the gain of the period, and what is owed at its end.
pub fn debts()
    ensures { OwesAtMost }
{}

/// Nothing is owed when a caller may act.
pub fn debt_free()
    ensures { ActsWithoutDebt }
{}
