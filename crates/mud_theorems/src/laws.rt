//! Laws of the definitions: each contract is a law, and its function does nothing.

ghost use Rattle.mud_theorems.specs.Laws.{ThreadsMakeRuns, WhatWasToldLasts, OnlyOwnersChange};
ghost use Rattle.mud_theorems.specs.Laws.{RouteTextIsOne, MeetTextIsOne, BrowsersTypeLines, SessionsAreSmall};

use mud_guide::laws::{one_meet_answer, routes};
use mud_hall::laws::{going_on, guide};
use mud_journal::laws::{always_read, nothing_is_lost};
use mud_roads::laws::roads;
use mud_web::laws::{messages, texts_arrive};
use mud_world::laws::refusals;

/// The one-run theorem. The calls of any threads at the desks of a settled hall are one run of the hall, and the part
/// of each desk in it is that desk's calls. A hall can begin with the history of the run.
pub fn one_run()
    ensures { ThreadsMakeRuns }
{
    going_on();
}

/// The survival theorem. The journal of a hall can be read after any crash. Each change up to the last synced version
/// is in the history found, and each answer by such a version is by equal entries. The checker accepts its certificate
/// with the history found, and with each legal history that continues it.
pub fn survival()
    ensures { WhatWasToldLasts }
{
    guide();
    going_on();
    always_read();
    nothing_is_lost();
}

/// A legal change leaves an object as it was, unless its actor owns the object or is #1, or the change moves it. The
/// object's own walk, or a move of it, changes only its place.
pub fn owners()
    ensures { OnlyOwnersChange }
{
    refusals();
}

/// Two routes in one world that have one text go the same way between the same rooms. Two meetings with one text are of
/// one party, with equal answers.
pub fn texts()
    ensures route { RouteTextIsOne }
    ensures meeting { MeetTextIsOne }
{
    roads();
    routes();
    one_meet_answer();
}

/// A browser's text messages, under any masks and however their bytes are cut, are the lines that its session receives.
/// The browser reads the client's output as text messages, which concatenate to a prefix of the greeting and the text
/// of the session's turns. The output must be ASCII.
pub fn browsers()
    ensures { BrowsersTypeLines }
{
    messages();
    texts_arrive();
}

/// Between two steps of a client its session keeps at most the 1,000 characters of a line. It keeps no output, except
/// its greeting before the first step.
pub fn sizes()
    ensures { SessionsAreSmall }
{}
