//! Players who type at once: all of them play to the end. A body that always gives up meets the contract.

ghost use Rattle.std.specs.Prelude.{◌≡◌};

use crate::lines::script;
use mud_hall::{HallName, NewHall};
use mud_theorems::{Transcript, play_together};
use std::alloc::{AllocError, Global};
use std::marker::Brand;
use std::process::Abort;
use std::sync::Wait;
use std::test::Fail;
use std::thread::Threads;

const NAMES: [&str; 4] = ["Ann", "Bob", "Cyd", "Dan"];

// The number of `say` lines of each player.
const SAID: u32 = 200;

// Returns the scripts of the players.
fn scripts(alloc: Global) -> Result<Vec<Vec<u8>>, AllocError> {
    let mut scripts = Vec::new(alloc);
    for name in NAMES {
        scripts.push(script(alloc, name, SAID)?)?;
    }
    Ok(scripts)
}

// Checks that the text has the answer to each line of a player, in order: `[n] welcome #p`, `[n] said` for each `say`,
// `[n] bye`.
fn check_text(rt: &impl Abort, text: &str) {
    let mut lines = text.split("\r\n").filter(|line| !line.starts_with('('));
    assert!(rt; lines.next() == Some("Welcome. Type: connect NAME"));
    assert!(rt;
        lines
            .next()
            .is_some_and(|line| line.contains("] welcome #"))
    );
    for _ in 0..SAID {
        assert!(rt; lines.next().is_some_and(|line| line.ends_with("] said")));
    }
    assert!(rt; lines.next().is_some_and(|line| line.ends_with("] bye")));
    assert!(rt; lines.next() == Some("") && lines.next().is_none());
}

// Checks that each line of a player was answered.
fn check_sent(rt: &impl Abort, alloc: Global, player: &Transcript) -> Result<(), AllocError> {
    let text = String::from_utf8_lossy(alloc, player.sent.as_slice())?;
    check_text(rt, text.as_str());
    Ok(())
}

// Checks this for all players.
fn check_all_sent(
    rt: &impl Abort,
    alloc: Global,
    players: &[Transcript],
) -> Result<(), AllocError> {
    assert!(rt; players.len() == 4);
    for player in players {
        check_sent(rt, alloc, player)?;
    }
    Ok(())
}

// Checks that all players play at a hall, and that its history has exactly their changes.
fn check_players<J: HallName + Send + Sync, R: Threads + Wait + Sync + Abort>(
    rt: &R,
    alloc: Global,
    hall: NewHall,
) -> Result<(), Fail>
    requires cells { hall.cells ≡ J.cells }
    requires loaded { hall.loaded ≡ J.loaded }
{
    let scripts = scripts(alloc)?;
    let (settled, players) = play_together(rt, alloc, hall.with_name::<J>(), scripts)?;
    assert!(rt; settled.accepted == 4 * (SAID + 1));
    Ok(check_all_sent(rt, alloc, &players)?)
}

#[test]
fn players_at_once(rt: HostRuntime) -> Result<(), Fail> {
    let hall = NewHall::open(rt.alloc(), 1_024)?;
    check_players::<Brand, _>(&rt, rt.alloc(), hall)
}
