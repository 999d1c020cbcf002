//! The commands that ask.

ghost use Rattle.std.specs.Prelude.{◌≡◌, Some, IfOk};
ghost use Rattle.mud_words.specs.Line.{line_of};
ghost use Rattle.mud_rules.specs.Table.{command, journey_of, verb_named};

use crate::actor::Actor;
use crate::outcome::{asked_journey, asked_proof, if_shaped, on_found, on_given};
use crate::shapes::{all_of, is_aimed, join_words, looked_at};
use crate::verb::Verb;
use crate::{Journey, Query, Verdict, View};
use mud_words::{Parsed, Prep, parse};
use mud_world::Refusal;
use std::alloc::AllocError;

impl Actor<'_> {
    pub(crate) fn look(&self, parsed: &Parsed) -> Result<Verdict, AllocError>
        ensures { IfOk result (λ v. v
            ≡ command self.now.world.now self.now.player (line_of parsed.now) Verb.Look) }
    {
        if parsed.args.is_empty() {
            return Ok(Verdict::Ask(Query::View(View::Look)));
        }
        let text = join_words(self.alloc, looked_at(&parsed.args))?;
        let found = self.object_named(&text);
        on_found!(found, object => Ok(Verdict::Ask(Query::View(View::LookAt(object)))))
    }

    pub(crate) fn inventory(&self, parsed: &Parsed) -> Result<Verdict, AllocError>
        ensures { IfOk result (λ v. v
            ≡ command self.now.world.now self.now.player (line_of parsed.now) Verb.Inventory) }
    {
        Ok(if_shaped(parsed.args.is_empty(), Query::View(View::Inventory)))
    }

    pub(crate) fn key(&self, parsed: &Parsed) -> Result<Verdict, AllocError>
        ensures { IfOk result (λ v. v
            ≡ command self.now.world.now self.now.player (line_of parsed.now) Verb.Key) }
    {
        on_given!(self.object_behind(parsed), object => Ok(Verdict::Ask(Query::View(View::KeyOf(object)))))
    }

    pub(crate) fn route(&self, parsed: &Parsed) -> Result<Verdict, AllocError>
        ensures { IfOk result (λ v. v
            ≡ command self.now.world.now self.now.player (line_of parsed.now) Verb.Route) }
    {
        Ok(asked_journey(self.route_meant(parsed)))
    }

    pub(crate) fn meet(&self, parsed: &Parsed) -> Result<Verdict, AllocError>
        ensures { IfOk result (λ v. v
            ≡ command self.now.world.now self.now.player (line_of parsed.now) Verb.Meet) }
    {
        Ok(asked_journey(self.meeting_meant(parsed)?))
    }

    pub(crate) fn proof(&self, parsed: &Parsed) -> Result<Verdict, AllocError>
        ensures { IfOk result (λ v. v
            ≡ command self.now.world.now self.now.player (line_of parsed.now) Verb.Proof) }
    {
        let line = parse(self.alloc, parsed.rest)?;
        Ok(asked_proof(self.journey_meant(&line)?))
    }

    pub(crate) fn version(&self, parsed: &Parsed) -> Result<Verdict, AllocError>
        ensures { IfOk result (λ v. v
            ≡ command self.now.world.now self.now.player (line_of parsed.now) Verb.Version) }
    {
        Ok(if_shaped(parsed.args.is_empty(), Query::View(View::Version)))
    }

    pub(crate) fn history(&self, parsed: &Parsed) -> Result<Verdict, AllocError>
        ensures { IfOk result (λ v. v
            ≡ command self.now.world.now self.now.player (line_of parsed.now) Verb.History) }
    {
        Ok(if_shaped(parsed.args.is_empty(), Query::History))
    }

    pub(crate) fn quit(&self, parsed: &Parsed) -> Result<Verdict, AllocError>
        ensures { IfOk result (λ v. v
            ≡ command self.now.world.now self.now.player (line_of parsed.now) Verb.Quit) }
    {
        Ok(if_shaped(parsed.args.is_empty(), Query::View(View::Quit)))
    }

    // Returns the journey that a line asks for.
    fn journey_meant(&self, parsed: &Parsed) -> Result<Result<Journey, Refusal>, AllocError>
        ensures { IfOk result (λ journey. journey
            ≡ journey_of self.now.world.now self.now.player (line_of parsed.now)
            (verb_named (line_of parsed.now).verb)) }
    {
        match Verb::of_word(&parsed.verb) {
            Some(Verb::Route) => Ok(self.route_meant(parsed)),
            Some(Verb::Meet) => self.meeting_meant(parsed),
            _ => Ok(Err(Refusal::NotUnderstood)),
        }
    }

    fn route_meant(&self, parsed: &Parsed) -> Result<Journey, Refusal>
        ensures { result ≡ journey_of self.now.world.now self.now.player (line_of parsed.now) (Some Verb.Route) }
    {
        if is_aimed(Prep::To, parsed) {
            self.route_to(&parsed.indirect)
        } else {
            Err(Refusal::NotUnderstood)
        }
    }

    fn meeting_meant(&self, parsed: &Parsed) -> Result<Result<Journey, Refusal>, AllocError>
        ensures { IfOk result (λ journey. journey
            ≡ journey_of self.now.world.now self.now.player (line_of parsed.now) (Some Verb.Meet)) }
    {
        let text = all_of(self.alloc, parsed)?;
        if text.is_empty() {
            Ok(Err(Refusal::NotUnderstood))
        } else {
            self.meeting_of(&text)
        }
    }
}
