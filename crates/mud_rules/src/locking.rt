//! The commands that set and remove keys.

ghost use Rattle.std.specs.Prelude.{◌≡◌, ◌≤◌, Result, IfOk, if◌then◌else◌};
ghost use Rattle.mud_key.specs.declared.limits.TheConstants.{LAST_NUMBER};
ghost use Rattle.mud_words.specs.Line.{line_of};
ghost use Rattle.mud_world.specs.State.{exists};
ghost use Rattle.mud_rules.specs.Commands.{key_meant, lock, near_named};
ghost use Rattle.mud_rules.specs.Table.{command};
ghost use Rattle.mud_rules.specs.declared.verb.Verb.{Verb};

use crate::Verdict;
use crate::actor::Actor;
use crate::matching::local_match;
use crate::outcome::{on_found, on_given, refuse_unreadable};
use mud_key::{Key, KeyFault, Miss, Namer, read, resolve};
use mud_words::{Parsed, Prep};
use mud_world::{Deed, Refusal, World};
use std::alloc::AllocError;

// Resolves the names of a key text near the player. A line does not distinguish why a name means no object.
impl Namer for Actor<'_> {
    ghost meaning = { λ actor text. near_named actor.world.now actor.player text };

    fn name(&self, text: &str) -> Result<u32, Miss> {
        match local_match(self.world, self.player, text) {
            Ok(number) => check_object(self.world, number),
            Err(_) => Err(Miss::NoSuch),
        }
    }
}

// Returns the object if it exists.
fn check_object(world: &World, number: u32) -> Result<u32, Miss>
    ensures found { result ≡ (if exists world.now number then Result.Ok number else Result.Err Miss.NoSuch) }
    ensures number { IfOk result (λ n. n ≤ LAST_NUMBER) }
{
    // for the prover: `next_number` shows that the world is sound
    let _known = world.next_number();
    if world.exists(number) {
        Ok(number)
    } else {
        Err(Miss::NoSuch)
    }
}

impl Actor<'_> {
    pub(crate) fn lock(&self, parsed: &Parsed) -> Result<Verdict, AllocError>
        ensures { IfOk result (λ v. v
            ≡ command self.now.world.now self.now.player (line_of parsed.now) Verb.Lock) }
    {
        on_found!(self.object_before(Prep::With, parsed), object => self.set_key(object, &parsed.indirect))
    }

    #[tactic(auto, using(crate::proofs::Barred::key_barred))]
    fn set_key(&self, object: u32, text: &str) -> Result<Verdict, AllocError>
        ensures { IfOk result (λ v. v ≡ lock self.now.world.now self.now.player object text.now) }
    {
        match self.key_meant(text)? {
            Some(key) => Ok(self.does(None, Deed::Lock { object, key })),
            None => {
                let bar = self.not_his(object, self.world.is_player(object));
                Ok(refuse_unreadable(bar, Refusal::BadKey))
            }
        }
    }

    // Returns the key that a text means to the player, if it means one.
    fn key_meant(&self, text: &str) -> Result<Option<Key>, AllocError>
        ensures { IfOk result (λ key. key ≡ key_meant self.now.world.now self.now.player text.now) }
    {
        let key = match read(self.alloc, text) {
            Ok(key) => key,
            Err(KeyFault::OutOfMemory) => return Err(AllocError),
            Err(_) => return Ok(None),
        };
        match resolve(self.alloc, &key, self) {
            Ok(key) => Ok(Some(key)),
            Err(KeyFault::OutOfMemory) => Err(AllocError),
            Err(_) => Ok(None),
        }
    }

    pub(crate) fn unlock(&self, parsed: &Parsed) -> Result<Verdict, AllocError>
        ensures { IfOk result (λ v. v
            ≡ command self.now.world.now self.now.player (line_of parsed.now) Verb.Unlock) }
    {
        on_given!(self.object_behind(parsed), object => Ok(self.does(None, Deed::Unlock { object })))
    }
}
