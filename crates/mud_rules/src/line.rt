//! Decides a line of a player or of a guest.

ghost use Rattle.std.specs.Prelude.{◌≡◌, Option, Some, IfOk};
ghost use Rattle.mud_words.specs.Line.{line_of};
ghost use Rattle.mud_rules.specs.Outcome.{IsLawful};
ghost use Rattle.mud_rules.specs.Table.{command, other_line, guest, decision, is_question, is_quit};

use crate::actor::Actor;
use crate::comparing::is_word;
use crate::connecting::connect;
use crate::matching::{Likeness, Match, sole_fit};
use crate::outcome::if_shaped;
use crate::shapes::whole_of;
use crate::verb::Verb;
use crate::{Query, Verdict, View};
use mud_words::Parsed;
use mud_world::{Refusal, World};
use std::alloc::{AllocError, Global};

/// Returns whether a line has the verb of a question; its other words do not matter (docs/COMMANDS.md, "Questions").
pub fn is_question(parsed: &Parsed) -> bool
    ensures { result ≡ is_question (line_of parsed.now) }
{
    Verb::asks(&parsed.verb)
}

/// Returns whether a line is `quit` without more words. Its answer is the last one of a session.
pub fn is_quit(parsed: &Parsed) -> bool
    ensures { result ≡ is_quit (line_of parsed.now) }
{
    parsed.args.is_empty() && is_word(&parsed.verb, "quit")
}

/// Decides a line in a world: a legal change, a question, a player to become, or the refusal with the least number
/// (docs/COMMANDS.md). A room in a question is one of that world, and a party consists of its players. Without a
/// player, the line is a guest's, who has only `connect` and `quit`.
///
/// A given player should be one of that world. The table also decides a line for any other number. The only error is
/// out of memory.
#[tactic(auto, unfolding(crate::specs::Table::decision))]
#[inline(always)]
pub fn decide(
    alloc: Global,
    world: &World,
    player: Option<u32>,
    parsed: &Parsed,
) -> Result<Verdict, AllocError>
    ensures decision { IfOk result (λ v. v ≡ decision world.now player (line_of parsed.now)) }
    ensures lawful { IfOk result (IsLawful world.now player) }
{
    // for the prover: `next_number` shows that the world is sound
    let _known = world.next_number();
    let verb = Verb::of_word(&parsed.verb);
    let Some(player) = player else {
        return guest(alloc, world, parsed, verb);
    };
    let actor = Actor {
        alloc,
        world,
        player,
    };
    match verb {
        Some(verb) => actor.command(parsed, verb),
        None => actor.other_line(parsed),
    }
}

impl Actor<'_> {
    // only `decide` calls it, and moving a verdict is expensive
    #[inline(always)]
    fn command(&self, parsed: &Parsed, verb: Verb) -> Result<Verdict, AllocError>
        ensures { IfOk result (λ v. v ≡ command self.now.world.now self.now.player (line_of parsed.now) verb) }
    {
        match verb {
            Verb::Connect => connect(self.alloc, self.world, parsed),
            Verb::Look => self.look(parsed),
            Verb::Inventory => self.inventory(parsed),
            Verb::Go => self.go(parsed),
            Verb::Take => self.take(parsed),
            Verb::Drop => self.drop(parsed),
            Verb::Put => self.put(parsed),
            Verb::Give => self.give(parsed),
            Verb::Say => self.say(parsed),
            Verb::Emote => self.emote(parsed),
            Verb::Dig => self.dig(parsed),
            Verb::Create => self.create(parsed),
            Verb::Lock => self.lock(parsed),
            Verb::Unlock => self.unlock(parsed),
            Verb::Key => self.key(parsed),
            Verb::Cost => self.cost(parsed),
            Verb::Rename => self.rename(parsed),
            Verb::Recycle => self.recycle(parsed),
            Verb::Route => self.route(parsed),
            Verb::Meet => self.meet(parsed),
            Verb::Proof => self.proof(parsed),
            Verb::Version => self.version(parsed),
            Verb::History => self.history(parsed),
            Verb::Quit => self.quit(parsed),
        }
    }

    // Decides any other line: it may name an exit of the player's room.
    fn other_line(&self, parsed: &Parsed) -> Result<Verdict, AllocError>
        ensures { IfOk result (λ v. v ≡ other_line self.now.world.now self.now.player (line_of parsed.now)) }
    {
        let whole = whole_of(self.alloc, parsed)?;
        let found = match self.world.place(self.player) {
            Some(room) => sole_fit(
                self.world,
                self.world.leaving(room),
                &whole,
                Likeness::Equal,
            ),
            None => Err(Match::NoSuch),
        };
        Ok(self.walk(found))
    }
}

fn guest(
    alloc: Global,
    world: &World,
    parsed: &Parsed,
    verb: Option<Verb>,
) -> Result<Verdict, AllocError>
    ensures { IfOk result (λ v. v ≡ guest world.now (line_of parsed.now) verb) }
{
    match verb {
        Some(Verb::Connect) => connect(alloc, world, parsed),
        Some(Verb::Quit) => Ok(if_shaped(parsed.args.is_empty(), Query::View(View::Quit))),
        _ => Ok(Verdict::Refused(Refusal::NotUnderstood)),
    }
}
