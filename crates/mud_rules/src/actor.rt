//! The player who gives a line, the world, and the refusals that apply before a text is read.

ghost use Rattle.std.specs.Prelude.{◌≡◌};
ghost use Rattle.mud_rules.specs.Outcome.{does};
ghost use Rattle.mud_rules.specs.inner.Bars.{no_player, no_room, not_his};

use crate::Verdict;
use mud_world::{Change, Deed, Refusal, Target, World, lesser};
use std::alloc::Global;

// A player in a world, and the allocator. Each command is a method of it.
#[derive(Clone, Copy)]
pub(crate) struct Actor<'a> {
    pub(crate) alloc: Global,
    pub(crate) world: &'a World,
    pub(crate) player: u32,
}

impl Actor<'_> {
    // Returns the change of this deed, or the least refusal: the command's own, or the change's. It is inlined, because
    // moving a verdict is expensive.
    #[inline(always)]
    pub(crate) fn does(&self, own: Option<Refusal>, deed: Deed) -> Verdict
        ensures { result ≡ does self.now.world.now self.now.player own deed }
    {
        let change = Change {
            actor: self.player,
            deed,
        };
        match lesser(own, self.world.legal(&change).err()) {
            Some(refusal) => Verdict::Refused(refusal),
            None => Verdict::Change(change),
        }
    }

    // Returns the refusal of an actor who is not a player.
    pub(crate) fn no_player(&self) -> Option<Refusal>
        ensures { result ≡ no_player self.now.world.now self.now.player }
    {
        if !self.world.exists(self.player) {
            Some(Refusal::NoSuch)
        } else if !self.world.is_player(self.player) {
            Some(Refusal::WrongKind)
        } else {
            None
        }
    }

    // Returns the refusal that stops a dig to an existing room before any text is read.
    pub(crate) fn no_room(&self, target: &Target) -> Option<Refusal>
        ensures { result ≡ no_room self.now.world.now self.now.player target.now }
    {
        match target {
            Target::New(_) => self.no_player(),
            Target::Old(room) => {
                if !self.world.exists(self.player) || !self.world.exists(*room) {
                    Some(Refusal::NoSuch)
                } else if !self.world.is_player(self.player) || !self.world.is_room(*room) {
                    Some(Refusal::WrongKind)
                } else {
                    None
                }
            }
        }
    }

    // Returns the refusal that stops a change of an object before any text is read.
    pub(crate) fn not_his(&self, object: u32, wrong_kind: bool) -> Option<Refusal>
        ensures { result ≡ not_his self.now.world.now self.now.player object wrong_kind }
    {
        if !self.world.exists(self.player) || !self.world.exists(object) {
            Some(Refusal::NoSuch)
        } else if !self.world.is_player(self.player) || wrong_kind {
            Some(Refusal::WrongKind)
        } else if !self.world.owns(self.player, object) {
            Some(Refusal::Denied)
        } else {
            None
        }
    }
}
