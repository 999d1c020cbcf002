//! The commands that talk.

ghost use Rattle.std.specs.Prelude.{◌≡◌, IfOk};
ghost use Rattle.mud_words.specs.Line.{line_of};
ghost use Rattle.mud_rules.specs.Table.{command};
ghost use Rattle.mud_rules.specs.declared.verb.Verb.{Verb};

use crate::Verdict;
use crate::actor::Actor;
use crate::outcome::refuse_unreadable;
use mud_words::Parsed;
use mud_world::{Deed, Refusal, Speech};
use std::alloc::AllocError;

impl Actor<'_> {
    #[tactic(auto, using(crate::proofs::Barred::saying_barred))]
    pub(crate) fn say(&self, parsed: &Parsed) -> Result<Verdict, AllocError>
        ensures { IfOk result (λ v. v
            ≡ command self.now.world.now self.now.player (line_of parsed.now) Verb.Say) }
    {
        match Speech::read(self.alloc, parsed.rest)? {
            Some(speech) => Ok(self.does(None, Deed::Say(speech))),
            None => Ok(refuse_unreadable(self.no_player(), Refusal::BadName)),
        }
    }

    #[tactic(auto, using(crate::proofs::Barred::emoting_barred))]
    pub(crate) fn emote(&self, parsed: &Parsed) -> Result<Verdict, AllocError>
        ensures { IfOk result (λ v. v
            ≡ command self.now.world.now self.now.player (line_of parsed.now) Verb.Emote) }
    {
        match Speech::read(self.alloc, parsed.rest)? {
            Some(speech) => Ok(self.does(None, Deed::Emote(speech))),
            None => Ok(refuse_unreadable(self.no_player(), Refusal::BadName)),
        }
    }
}
