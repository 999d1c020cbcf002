//! The arguments that a line gives to its command: a text, or one or two objects, or the refusal of a wrong shape.

ghost use Rattle.std.specs.Prelude.{◌≡◌, IfOk};
ghost use Rattle.std.specs.Cow.{cow_str_bytes};
ghost use Rattle.std.specs.Result.{result_map_both};
ghost use Rattle.mud_words.specs.Line.{line_of};
ghost use Rattle.mud_rules.specs.Shapes.{all_of, text_behind, object_named, object_before, objects_round};

use crate::actor::Actor;
use crate::matching::local_match;
use crate::outcome::{both, object_meant};
use crate::shapes::{all_of, is_pair};
use mud_words::{Parsed, Prep};
use mud_world::Refusal;
use std::alloc::{AllocError, Global};
use std::borrow::CowStr;

impl Actor<'_> {
    // Returns the text after the verb.
    pub(crate) fn text_behind<'a>(
        &self,
        parsed: &'a Parsed,
    ) -> Result<Result<CowStr<'a, Global>, Refusal>, AllocError>
        ensures { IfOk result (λ text. result_map_both cow_str_bytes (λ f. f) text
            ≡ text_behind (line_of parsed.now)) }
    {
        let text = all_of(self.alloc, parsed)?;
        if text.is_empty() {
            Ok(Err(Refusal::NotUnderstood))
        } else {
            Ok(Ok(text))
        }
    }

    // Returns the object that a text means.
    pub(crate) fn object_named(&self, text: &str) -> Result<u32, Refusal>
        ensures { result ≡ object_named self.now.world.now self.now.player text.now }
    {
        if text.is_empty() {
            Err(Refusal::NotUnderstood)
        } else {
            object_meant(local_match(self.world, self.player, text))
        }
    }

    // Returns the object that the text after the verb means.
    pub(crate) fn object_behind(&self, parsed: &Parsed) -> Result<Result<u32, Refusal>, AllocError>
        ensures { IfOk result (λ object. object
            ≡ object_named self.now.world.now self.now.player (all_of (line_of parsed.now))) }
    {
        let text = all_of(self.alloc, parsed)?;
        Ok(self.object_named(&text))
    }

    // Returns the object before a preposition, if there are texts on both sides of it.
    pub(crate) fn object_before(&self, prep: Prep, parsed: &Parsed) -> Result<u32, Refusal>
        ensures { result ≡ object_before prep self.now.world.now self.now.player (line_of parsed.now) }
    {
        if is_pair(prep, parsed) {
            object_meant(local_match(self.world, self.player, &parsed.direct))
        } else {
            Err(Refusal::NotUnderstood)
        }
    }

    // Returns the objects before and after a preposition.
    pub(crate) fn objects_round(&self, prep: Prep, parsed: &Parsed) -> Result<(u32, u32), Refusal>
        ensures { result ≡ objects_round prep self.now.world.now self.now.player (line_of parsed.now) }
    {
        if is_pair(prep, parsed) {
            both(
                object_meant(local_match(self.world, self.player, &parsed.direct)),
                object_meant(local_match(self.world, self.player, &parsed.indirect)),
            )
        } else {
            Err(Refusal::NotUnderstood)
        }
    }
}
