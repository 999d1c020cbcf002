//! Clients between two halls.

ghost use Rattle.std.specs.Prelude.{◌≡◌, ◌≢◌, ℕ, List, [], length, false, IfOk, IfErr};
ghost use Rattle.mud_hall.specs.Desk.{as_guest};
ghost use Rattle.mud_hall.specs.Steps.{IsSeated};
ghost use Rattle.mud_session.specs.Talks.{Start, next_start};
ghost use Rattle.mud_client.specs.Client.{ClientState, StandsFrom};
ghost use Rattle.mud_client.specs.Resting.{at_rest, IsLast};

use crate::client::{Client, Link};
use mud_hall::{Desk, Hall, HallName};
use mud_web::Ending;
use std::alloc::Global;
use std::marker::Model;
use std::sync::Wait;

/// A client without its desk, and the player that it was. It names no hall. The typed text that waits for an answer
/// goes along, and so does the line that its player has begun to type. No output waits.
#[derive(Drop)]
pub struct RestingClient {
    alloc: Global,
    link: Box<Link>,
    player: Option<u32>,
    has_ended: bool,
}

impl Model for RestingClient {
    ghost use Rattle.mud_client.specs.Resting.{RestingState, resting_of, IsAtRest};
    ghost use Rattle.mud_key.specs.TreeCode.{coded_number_tree};
    ghost use Rattle.std.specs.Coded.{codes};

    ghost Value = { RestingState };

    ghost coded = { Prim.hlevel (codes, coded_number_tree) };

    ghost view = { λ r. resting_of r.link.value.framing r.link.value.waiting.items r.link.value.session r.player
        r.has_ended };

    ghost invariant = { λ r. IsAtRest (resting_of r.link.value.framing r.link.value.waiting.items r.link.value.session
        r.player r.has_ended) };
}

impl RestingClient {
    /// Returns the last output of a client that goes to no other hall, like [`Client::part`].
    pub fn part(self, line: &str, ending: Option<Ending>) -> Vec<u8>
        ensures { IsLast line.now ending self.framing result.items }
    {
        let mut boxed = self.link;
        let mut text = Vec::new(self.alloc);
        let link = &mut *boxed;
        link.framing.say_last(line, &mut text);
        link.framing.close(ending, &mut text);
        text
    }
}

impl<J: HallName> Client<J> {
    /// Returns the client without its desk, and the desk, as a guest's. The error is the client, unchanged, exactly if
    /// output of its session waits.
    pub fn rest(self) -> Result<(RestingClient, Desk<J>), Client<J>>
        ensures rests { IfOk result (λ r. r.0 ≡ at_rest self) }
        ensures silent { IfOk result (λ r. self.session.out ≡ []) }
        ensures desk { IfOk result (λ r. r.1.state ≡ as_guest self.desk) }
        ensures err { IfErr result (λ back. (back ≡ self) × (self.session.out ≢ [])) }
    {
        if !self.link.session.is_silent() {
            return Err(self);
        }
        let Client {
            alloc,
            link,
            mut desk,
            has_ended,
        } = self;
        let player = desk.player();
        desk.guest();
        let resting = RestingClient {
            alloc,
            link,
            player,
            has_ended,
        };
        Ok((resting, desk))
    }

    /// Returns the client at a desk of its next hall, and whether that became its player's; if not, it is a guest's.
    pub fn again<R: Wait>(
        resting: RestingClient,
        rt: &R,
        hall: &Hall<J>,
        desk: Desk<J>,
    ) -> (Client<J>, bool)
        ensures same { at_rest result.0 ≡ record resting { player = result.0.desk.player } }
        ensures capacity { result.0.capacity ≡ length J.cells }
        ensures desk { IsSeated (length J.cells) resting.player result.1 desk.state result.0.desk }
        ensures stands { (client : ClientState) (start : Start) (came sent : List ℕ) → resting ≡ at_rest client
            → resting.session.has_ended ≡ false → (s : StandsFrom start came sent client)
            → StandsFrom (next_start start s.talk.turns result.0.desk.player) came sent result.0 }
    {
        let RestingClient {
            alloc,
            link,
            player,
            has_ended,
        } = resting;
        let mut desk = desk;
        let sits = hall.sit(rt, &mut desk, player);
        let client = Client {
            alloc,
            link,
            desk,
            has_ended,
        };
        (client, sits)
    }
}
