//! The command that makes a session a player's.

ghost use Rattle.std.specs.Prelude.{◌≡◌, IfOk};
ghost use Rattle.mud_words.specs.Line.{line_of};
ghost use Rattle.mud_rules.specs.Table.{connect_line};

use crate::Verdict;
use crate::actor::Actor;
use crate::naming::name_in;
use crate::shapes::first_of;
use mud_words::Parsed;
use mud_world::{Deed, Refusal, World};
use std::alloc::{AllocError, Global};

pub(crate) fn connect(alloc: Global, world: &World, parsed: &Parsed) -> Result<Verdict, AllocError>
    ensures { IfOk result (λ v. v ≡ connect_line world.now (line_of parsed.now)) }
{
    let text = first_of(parsed);
    if text.is_empty() {
        return Ok(Verdict::Refused(Refusal::NotUnderstood));
    }
    let Some(name) = name_in(alloc, text)? else {
        return Ok(Verdict::Refused(Refusal::BadName));
    };
    if let Some(player) = world.player_named(name.as_str()) {
        return Ok(Verdict::Become(player));
    }
    // the actor of the change is the new player, whose number is the next one
    let comer = Actor {
        alloc,
        world,
        player: world.next_number(),
    };
    Ok(comer.does(None, Deed::Player(name)))
}
