//! The commands that move players and things.

ghost use Rattle.std.specs.Prelude.{◌≡◌, None, IfOk};
ghost use Rattle.mud_words.specs.Line.{line_of};
ghost use Rattle.mud_world.specs.Conditions.{shares_room};
ghost use Rattle.mud_world.specs.declared.change.Deed.TheVariants as deed;
ghost use Rattle.mud_rules.specs.Outcome.{object_meant, on_found, does};
ghost use Rattle.mud_rules.specs.Commands.{give, drop_down, put};
ghost use Rattle.mud_rules.specs.Table.{command};
ghost use Rattle.mud_rules.specs.declared.verb.Verb.{Verb};

use crate::Verdict;
use crate::actor::Actor;
use crate::matching::Match;
use crate::outcome::{kind_then_here, on_found, on_given};
use mud_words::{Parsed, Prep};
use mud_world::{Deed, Refusal, World, refused_if};
use std::alloc::AllocError;

impl Actor<'_> {
    pub(crate) fn go(&self, parsed: &Parsed) -> Result<Verdict, AllocError>
        ensures { IfOk result (λ v. v
            ≡ command self.now.world.now self.now.player (line_of parsed.now) Verb.Go) }
    {
        on_given!(self.object_behind(parsed), exit => Ok(self.does(None, Deed::Walk { exit })))
    }

    pub(crate) fn take(&self, parsed: &Parsed) -> Result<Verdict, AllocError>
        ensures { IfOk result (λ v. v
            ≡ command self.now.world.now self.now.player (line_of parsed.now) Verb.Take) }
    {
        on_given!(self.object_behind(parsed), thing => {
            let to = self.player;
            Ok(self.does(None, Deed::Move { thing, to }))
        })
    }

    pub(crate) fn drop(&self, parsed: &Parsed) -> Result<Verdict, AllocError>
        ensures { IfOk result (λ v. v
            ≡ command self.now.world.now self.now.player (line_of parsed.now) Verb.Drop) }
    {
        on_given!(self.object_behind(parsed), thing => Ok(self.drop_down(thing)))
    }

    // Moves a carried thing to the player's room.
    fn drop_down(&self, thing: u32) -> Verdict
        ensures { result ≡ drop_down self.now.world.now self.now.player thing }
    {
        let own = refused_if(!self.world.holds(self.player, thing), Refusal::NotHere);
        let to = self.world.place(self.player).unwrap_or(0);
        self.does(own, Deed::Move { thing, to })
    }

    pub(crate) fn put(&self, parsed: &Parsed) -> Result<Verdict, AllocError>
        ensures { IfOk result (λ v. v
            ≡ command self.now.world.now self.now.player (line_of parsed.now) Verb.Put) }
    {
        on_found!(self.objects_round(Prep::In, parsed), objects => Ok(self.put_into(objects)))
    }

    // Moves a thing into another thing in reach.
    fn put_into(&self, objects: (u32, u32)) -> Verdict
        ensures { result ≡ put self.now.world.now self.now.player objects }
    {
        let (thing, to) = objects;
        let away = !self.world.in_reach(self.player, to);
        let own = kind_then_here(!self.world.is_thing(to), away);
        self.does(own, Deed::Move { thing, to })
    }

    pub(crate) fn give(&self, parsed: &Parsed) -> Result<Verdict, AllocError>
        ensures { IfOk result (λ v. v
            ≡ command self.now.world.now self.now.player (line_of parsed.now) Verb.Give) }
    {
        on_found!(self.objects_round(Prep::To, parsed), objects => Ok(self.give_to(objects)))
    }

    // Moves a carried thing to a player in the room.
    fn give_to(&self, objects: (u32, u32)) -> Verdict
        ensures { result ≡ give self.now.world.now self.now.player objects }
    {
        let (thing, to) = objects;
        let away = !self.world.holds(self.player, thing) || !together(self.world, self.player, to);
        let own = kind_then_here(!self.world.is_player(to), away);
        self.does(own, Deed::Move { thing, to })
    }

    // Walks by the exit that a line which is not a command names.
    pub(crate) fn walk(&self, found: Result<u32, Match>) -> Verdict
        ensures { result ≡ on_found (object_meant Refusal.NotUnderstood found)
            (λ x. does self.now.world.now self.now.player None (deed.Walk x)) }
    {
        match found {
            Ok(exit) => self.does(None, Deed::Walk { exit }),
            Err(Match::Ambiguous) => Verdict::Refused(Refusal::Ambiguous),
            Err(Match::NoSuch | Match::Nothing) => Verdict::Refused(Refusal::NotUnderstood),
        }
    }
}

// Returns whether two players are in one room.
pub(crate) fn together(world: &World, one: u32, other: u32) -> bool
    ensures { result ≡ shares_room world.now one other }
{
    match world.place(one) {
        Some(room) => world.is_in(other, room),
        None => false,
    }
}
