//! The refusals of changes that no line can ask for.

use crate::rows::same;
use crate::village::{entry, world};
use mud_chron::ChronFault;
use mud_rules::refusal_text;
use mud_world::{Change, World};
use std::alloc::Global;
use std::process::Abort;
use std::test::Fail;

// The hall #0 with the wizard #1, who carries the box #5 with the coin #6 in it, and with Bob #7, who carries the hat
// #8. The exit #3 leads from the hall to the yard #2, and #4 back. No exit leads to the cellar #9. The next number is
// 10.
const VILLAGE: &str = "mud history 2
1 1 dig #1 new \"Yard\" out \"north\" back \"south\"
2 1 make #1 \"box\"
3 1 make #1 \"coin\"
4 1 player #7 \"Bob\"
5 1 make #7 \"hat\"
6 1 dig #1 new \"Cellar\"
7 1 move #1 #6 #5
end 7
";

// The refusals of changes that no line asks for. Each kind of change is made by an actor that is not a player, is
// missing or is a thing. Other changes are of objects that do not exist or have the wrong kind.
const ROWS: &str = "
dig #99 old #9 out \"down\" => There is no such thing.
dig #5 old #9 out \"down\" => That is the wrong kind of thing.
make #99 \"Bob\" => There is no such thing.
make #5 \"Bob\" => That is the wrong kind of thing.
lock #99 #5 #1 => There is no such thing.
lock #5 #5 #1 => That is the wrong kind of thing.
unlock #99 #5 => There is no such thing.
unlock #5 #5 => That is the wrong kind of thing.
move #99 #5 #0 => There is no such thing.
move #5 #5 #0 => That is the wrong kind of thing.
walk #99 #3 => There is no such thing.
walk #5 #3 => That is the wrong kind of thing.
cost #99 #3 1 => There is no such thing.
cost #5 #3 1 => That is the wrong kind of thing.
rename #99 #5 \"crate\" => There is no such thing.
rename #5 #5 \"crate\" => That is the wrong kind of thing.
recycle #99 #5 => There is no such thing.
recycle #5 #5 => That is the wrong kind of thing.
say #99 hello => There is no such thing.
say #5 hello => That is the wrong kind of thing.
emote #99 waves => There is no such thing.
emote #5 waves => That is the wrong kind of thing.
player #9 \"Ann\" => There is no such thing.
player #11 \"Ann\" => There is no such thing.
player #10 \"bOB\" => That name is taken.
player #10 \"box\" => legal
dig #1 old #99 out \"down\" => There is no such thing.
dig #1 old #5 out \"down\" => That is the wrong kind of thing.
dig #7 old #9 out \"down\" => legal
lock #7 #5 #99 => That is not yours.
lock #1 #5 !#99 => That key is not understood.
lock #1 #5 ?#99 => That key is not understood.
lock #1 #5 ?#5 => That key nests too deep.
lock #1 #5 #5 => legal
lock #7 #8 #1 && ?#1 => legal
make #7 \"Bob\" => legal
say #7 hello => legal
emote #7 waves => legal
move #1 #2 #0 => That is the wrong kind of thing.
move #1 #7 #1 => That is the wrong kind of thing.
move #1 #5 #3 => That is the wrong kind of thing.
move #1 #5 #1 => That is not here.
move #1 #5 #2 => That is not here.
move #1 #5 #8 => That is not here.
move #1 #5 #5 => It can't hold itself.
move #1 #5 #6 => It can't hold itself.
move #1 #5 #0 => legal
move #1 #5 #7 => legal
move #1 #6 #1 => legal
move #7 #8 #0 => legal
";

// Returns the refusal of a change as a word.
fn refusal_word(world: &World, change: &Change) -> &'static str {
    match world.legal(change) {
        Ok(()) => "legal",
        Err(refusal) => refusal_text(refusal),
    }
}

// Returns the refusal of a change, which is given as its text, as a word.
fn refusal_of(alloc: Global, world: &World, change: &str) -> Result<&'static str, ChronFault> {
    Ok(refusal_word(world, entry(alloc, change)?.change()))
}

// Checks the row `CHANGE => REFUSAL`.
fn check_row(rt: &impl Abort, alloc: Global, world: &World, row: &str) -> Result<(), ChronFault> {
    if let Some((asked, wanted)) = row.split_once(" => ") {
        same(rt, asked, refusal_of(alloc, world, asked)?, wanted);
    }
    Ok(())
}

#[test]
fn what_refuses_changes(rt: HostRuntime) -> Result<(), Fail> {
    let world = world(rt.alloc(), VILLAGE)?;
    for row in ROWS.split('\n') {
        check_row(&rt, rt.alloc(), &world, row)?;
    }
    Ok(())
}
