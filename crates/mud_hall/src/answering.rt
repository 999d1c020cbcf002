//! Answers that a desk of a hall and a single-user desk share.

ghost use Rattle.std.specs.Prelude.{◌≡◌, ◌≤◌, None, IfOk, string_bytes, IfSome, IsTrue};
ghost use Rattle.std.specs.Option.{IsSome};
ghost use Rattle.mud_words.specs.Line.{line_of};
ghost use Rattle.mud_world.specs.State.{is_player};
ghost use Rattle.mud_roads.specs.Passable.{IsFollower};
ghost use Rattle.mud_rules.specs.Outcome.{IsLawful};
ghost use Rattle.mud_rules.specs.inner.Outcome.{IsJourney, IsQuestion};
ghost use Rattle.mud_rules.specs.Replies.{refusal_text};
ghost use Rattle.mud_rules.specs.Answers.{show_text};
ghost use Rattle.mud_rules.specs.Table.{decision};
ghost use Rattle.mud_world.specs.declared.limits.TheConstants.{MOST_ENTRIES};
ghost use Rattle.mud_hall.specs.Answers.{IsGuided};
ghost use Rattle.mud_hall.specs.inner.Answers.{IsProven, CanAsk};
ghost use Rattle.mud_hall.specs.inner.Desks.{IsResponse, IsSight};

use crate::guide::Guide;
use crate::texts::proof_answer;
use crate::travel::{find_traveller, traveller_of};
use mud_guide::Answer;
use mud_roads::Traveller;
use mud_rules::{Journey, Query, Refusal, Verdict, View, decide, refusal_text, show};
use mud_words::Parsed;
use mud_world::World;
use std::alloc::{AllocError, Global};

/// Returns the answer to a line in a world at its version, and `None` if the line asks for the history, which the
/// caller has. It keeps the traveller of a player who asks for a route.
pub(crate) fn respond<S: Guide>(
    by: &S,
    alloc: Global,
    world: &World,
    version: u32,
    player: Option<u32>,
    traveller: &mut Option<Traveller>,
    said: &Parsed,
) -> Result<Option<Answer>, AllocError>
    requires ready { S.ready by.now }
    requires version { version ≤ MOST_ENTRIES }
    requires seated { IfSome player (λ p. IsTrue (is_player world.now p)) }
    requires known { IfSome traveller.old (IsFollower world.now) }
    ensures known { IfSome traveller.new (IsFollower world.now) }
    ensures response { IfOk result
        (IsResponse world.now version player (decision world.now player (line_of said.now))) }
{
    match decide(alloc, world, player, said) {
        Ok(verdict) => respond_to(by, alloc, world, version, player, traveller, &verdict),
        Err(fault) => Err(fault),
    }
}

// Returns the answer to the verdict on a line. It keeps the traveller of a player who asks for a route.
fn respond_to<S: Guide>(
    by: &S,
    alloc: Global,
    world: &World,
    version: u32,
    player: Option<u32>,
    traveller: &mut Option<Traveller>,
    verdict: &Verdict,
) -> Result<Option<Answer>, AllocError>
    requires ready { S.ready by.now }
    requires version { version ≤ MOST_ENTRIES }
    requires seated { IfSome player (λ p. IsTrue (is_player world.now p)) }
    requires known { IfSome traveller.old (IsFollower world.now) }
    requires lawful { IsLawful world.now player verdict.now }
    requires asked { (q : _) → verdict.now ≡ Verdict.Ask q → CanAsk player q }
    ensures known { IfSome traveller.new (IsFollower world.now) }
    ensures response { IfOk result (IsResponse world.now version player verdict.now) }
{
    find_traveller(alloc, world, player, traveller, verdict)?;
    let sight = Sight {
        alloc,
        world,
        version,
        player,
        traveller,
    };
    sight.answer(by, verdict)
}

// The context of an answer: a world at its version, the asking player, and the known traveller. The answers are its
// methods.
#[derive(Clone, Copy)]
struct Sight<'a> {
    alloc: Global,
    world: &'a World,
    version: u32,
    player: Option<u32>,
    traveller: &'a Option<Traveller>,
}

impl Sight<'_> {
    // Returns the answer to a verdict.
    fn answer<S: Guide>(&self, by: &S, verdict: &Verdict) -> Result<Option<Answer>, AllocError>
        requires ready { S.ready by.now }
        requires sight { IsSight self.now.world.now self.now.version self.now.player self.now.traveller.now }
        requires lawful { IsLawful self.now.world.now self.now.player verdict.now }
        requires asked { (q : _) → verdict.now ≡ Verdict.Ask q → CanAsk self.now.player q }
        ensures { IfOk result (IsResponse self.now.world.now self.now.version self.now.player verdict.now) }
    {
        match verdict {
            Verdict::Ask(query) => self.explain(by, query),
            Verdict::Refused(refusal) => Ok(Some(self.plain(refusal_text(*refusal))?)),
            _ => Ok(Some(self.plain(refusal_text(Refusal::NotUnderstood))?)),
        }
    }

    // Returns the answer to a question, and `None` to the one for the history.
    fn explain<S: Guide>(&self, by: &S, query: &Query) -> Result<Option<Answer>, AllocError>
        requires ready { S.ready by.now }
        requires sight { IsSight self.now.world.now self.now.version self.now.player self.now.traveller.now }
        requires question { IsQuestion self.now.world.now query.now }
        requires player { CanAsk self.now.player query.now }
        ensures { IfOk result
            (IsResponse self.now.world.now self.now.version self.now.player (Verdict.Ask query.now)) }
    {
        match query {
            Query::View(shown) => Ok(Some(self.view(shown)?)),
            Query::Journey(journey) => Ok(Some(self.guide(by, journey)?)),
            Query::Proof(journey) => Ok(Some(self.prove(by, journey)?)),
            Query::History => Ok(None),
        }
    }

    // Returns an answer without a certificate.
    fn plain(&self, text: &str) -> Result<Answer, AllocError>
        requires { self.now.version ≤ MOST_ENTRIES }
        ensures version { IfOk result (λ a. a.version ≡ self.now.version) }
        ensures text { IfOk result (λ a. string_bytes a.text ≡ text.now) }
        ensures cert { IfOk result (λ a. a.cert ≡ None) }
    {
        Ok(Answer {
            version: self.version,
            text: String::from_str(self.alloc, text)?,
            cert: None,
        })
    }

    // Returns the answer to a view of a player or of a guest.
    fn view(&self, view: &View) -> Result<Answer, AllocError>
        requires { self.now.version ≤ MOST_ENTRIES }
        ensures version { IfOk result (λ a. a.version ≡ self.now.version) }
        ensures text { IfOk result
            (λ a. string_bytes a.text ≡ show_text self.now.world.now self.now.player view.now) }
        ensures cert { IfOk result (λ a. a.cert ≡ None) }
    {
        Ok(Answer {
            version: self.version,
            text: show(self.alloc, self.world, self.player, view)?,
            cert: None,
        })
    }

    // Returns the guide's answer to a player's question for a journey.
    fn guide<S: Guide>(&self, by: &S, journey: &Journey) -> Result<Answer, AllocError>
        requires ready { S.ready by.now }
        requires sight { IsSight self.now.world.now self.now.version self.now.player self.now.traveller.now }
        requires player { IsSome self.now.player }
        requires journey { IsJourney self.now.world.now journey.now }
        ensures version { IfOk result (λ a. a.version ≡ self.now.version) }
        ensures guided { IfOk result
            (IsGuided self.now.world.now self.now.version self.now.player journey.now) }
    {
        let Some(player) = self.player else {
            unreachable!();
        };
        let traveller = traveller_of(self.world, self.traveller, player);
        by.journey(
            self.alloc,
            self.world,
            self.version,
            player,
            traveller,
            journey,
        )
    }

    // Returns the certificate of that answer as a text.
    fn prove<S: Guide>(&self, by: &S, journey: &Journey) -> Result<Answer, AllocError>
        requires ready { S.ready by.now }
        requires sight { IsSight self.now.world.now self.now.version self.now.player self.now.traveller.now }
        requires player { IsSome self.now.player }
        requires journey { IsJourney self.now.world.now journey.now }
        ensures version { IfOk result (λ a. a.version ≡ self.now.version) }
        ensures proven { IfOk result
            (IsProven self.now.world.now self.now.version self.now.player journey.now) }
    {
        let answer = self.guide(by, journey)?;
        let text = match &answer.cert {
            Some(cert) => proof_answer(self.alloc, cert)?,
            None => unreachable!(),
        };
        Ok(Answer {
            version: self.version,
            text,
            cert: answer.cert,
        })
    }
}
