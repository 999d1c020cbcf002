//! The commands that build: rooms, exits and things, their costs and names.

ghost use Rattle.std.specs.Prelude.{◌≡◌, IfOk};
ghost use Rattle.mud_words.specs.Line.{line_of};
ghost use Rattle.mud_rules.specs.Commands.{dig_between, cost, create, dig_exits, dig_room, rename};
ghost use Rattle.mud_rules.specs.Outcome.{on_found};
ghost use Rattle.mud_rules.specs.Shapes.{text_behind};
ghost use Rattle.mud_rules.specs.Table.{command};
ghost use Rattle.mud_rules.specs.declared.verb.Verb.{Verb};

use crate::Verdict;
use crate::actor::Actor;
use crate::digging::{doors_in, has_empty_side, target_in};
use crate::matching::number_in;
use crate::naming::names_in;
use crate::outcome::{on_found, on_given, refuse_unreadable};
use crate::shapes::is_pair;
use mud_words::{Parsed, Prep};
use mud_world::{Deed, Doors, Refusal, Target};
use std::alloc::AllocError;

impl Actor<'_> {
    pub(crate) fn dig(&self, parsed: &Parsed) -> Result<Verdict, AllocError>
        ensures { IfOk result (λ v. v
            ≡ command self.now.world.now self.now.player (line_of parsed.now) Verb.Dig) }
    {
        if parsed.prep.is_none() {
            self.dig_alone(parsed)
        } else if is_pair(Prep::To, parsed) && !has_empty_side(&parsed.direct) {
            self.dig_exits(&parsed.direct, &parsed.indirect)
        } else {
            Ok(Verdict::Refused(Refusal::NotUnderstood))
        }
    }

    // Digs a room without exits.
    fn dig_alone(&self, parsed: &Parsed) -> Result<Verdict, AllocError>
        ensures { IfOk result (λ v. v
            ≡ on_found (text_behind (line_of parsed.now)) (dig_room self.now.world.now self.now.player)) }
    {
        on_given!(self.text_behind(parsed), text => self.dig_room(&text))
    }

    #[tactic(auto, using(crate::proofs::Barred::room_barred))]
    fn dig_room(&self, text: &str) -> Result<Verdict, AllocError>
        ensures { IfOk result (λ v. v ≡ dig_room self.now.world.now self.now.player text.now) }
    {
        match names_in(self.alloc, text)? {
            Some(names) => Ok(self.does(None, Deed::Dig(Target::New(names), None))),
            None => Ok(refuse_unreadable(self.no_player(), Refusal::BadName)),
        }
    }

    fn dig_exits(&self, doors: &str, target: &str) -> Result<Verdict, AllocError>
        ensures { IfOk result (λ v. v ≡ dig_exits self.now.world.now self.now.player doors.now target.now) }
    {
        let doors = doors_in(self.alloc, doors)?;
        let target = target_in(self.alloc, target)?;
        Ok(self.dig_between(doors, target))
    }

    #[tactic(auto, using(crate::proofs::Barred::room_barred, crate::proofs::Barred::exits_barred))]
    fn dig_between(&self, doors: Option<Doors>, target: Option<Target>) -> Verdict
        ensures { result ≡ dig_between self.now.world.now self.now.player doors target }
    {
        let Some(target) = target else {
            return refuse_unreadable(self.no_player(), Refusal::BadName);
        };
        match doors {
            Some(doors) => self.does(None, Deed::Dig(target, Some(doors))),
            None => refuse_unreadable(self.no_room(&target), Refusal::BadName),
        }
    }

    pub(crate) fn create(&self, parsed: &Parsed) -> Result<Verdict, AllocError>
        ensures { IfOk result (λ v. v
            ≡ command self.now.world.now self.now.player (line_of parsed.now) Verb.Create) }
    {
        on_given!(self.text_behind(parsed), text => self.make(&text))
    }

    #[tactic(auto, using(crate::proofs::Barred::names_barred))]
    fn make(&self, text: &str) -> Result<Verdict, AllocError>
        ensures { IfOk result (λ v. v ≡ create self.now.world.now self.now.player text.now) }
    {
        match names_in(self.alloc, text)? {
            Some(names) => Ok(self.does(None, Deed::Make(names))),
            None => Ok(refuse_unreadable(self.no_player(), Refusal::BadName)),
        }
    }

    pub(crate) fn cost(&self, parsed: &Parsed) -> Result<Verdict, AllocError>
        ensures { IfOk result (λ v. v
            ≡ command self.now.world.now self.now.player (line_of parsed.now) Verb.Cost) }
    {
        on_found!(self.object_before(Prep::Is, parsed), exit => Ok(self.set_cost(exit, &parsed.indirect)))
    }

    #[tactic(auto, using(crate::proofs::Barred::cost_barred))]
    fn set_cost(&self, exit: u32, text: &str) -> Verdict
        ensures { result ≡ cost self.now.world.now self.now.player exit text.now }
    {
        match number_in(text.as_bytes()) {
            Some(cost) => self.does(None, Deed::Cost { exit, cost }),
            None => {
                let bar = self.not_his(exit, !self.world.is_exit(exit));
                refuse_unreadable(bar, Refusal::BadCost)
            }
        }
    }

    pub(crate) fn rename(&self, parsed: &Parsed) -> Result<Verdict, AllocError>
        ensures { IfOk result (λ v. v
            ≡ command self.now.world.now self.now.player (line_of parsed.now) Verb.Rename) }
    {
        on_found!(self.object_before(Prep::To, parsed), object => self.set_names(object, &parsed.indirect))
    }

    #[tactic(auto, using(crate::proofs::Barred::renaming_barred))]
    fn set_names(&self, object: u32, text: &str) -> Result<Verdict, AllocError>
        ensures { IfOk result (λ v. v ≡ rename self.now.world.now self.now.player object text.now) }
    {
        match names_in(self.alloc, text)? {
            Some(names) => Ok(self.does(None, Deed::Rename { object, names })),
            None => Ok(refuse_unreadable(self.not_his(object, false), Refusal::BadName)),
        }
    }

    pub(crate) fn recycle(&self, parsed: &Parsed) -> Result<Verdict, AllocError>
        ensures { IfOk result (λ v. v
            ≡ command self.now.world.now self.now.player (line_of parsed.now) Verb.Recycle) }
    {
        on_given!(self.object_behind(parsed), object => Ok(self.does(None, Deed::Recycle { object })))
    }
}
