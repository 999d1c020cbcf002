//! Asking: lines that change nothing.

ghost use Rattle.std.specs.Prelude.{◌≡◌, ◌++◌, length, codes, string_bytes, None, IfOk, OnOk, IfSome, IsTrue};
ghost use Rattle.mud_words.specs.Line.{line_of};
ghost use Rattle.mud_chron.specs.inner.Texts.{written_text};
ghost use Rattle.mud_hall.specs.Notices.{world_after};
ghost use Rattle.mud_hall.specs.Answers.{answer_shown, Answers};
ghost use Rattle.mud_world.specs.State.{is_player};

use crate::answering;
use crate::desk::Desk;
use crate::guide::Guide;
use crate::name::HallName;
use crate::texts::known_answer;
use mud_guide::Answer;
use mud_row::Row;
use mud_words::Parsed;
use mud_world::World;
use std::alloc::{AllocError, Global};

impl<J: HallName> Desk<J> {
    // Answers a line by exactly the entries that the desk has seen.
    pub(crate) fn answer<S: Guide>(
        &mut self,
        by: &S,
        alloc: Global,
        row: &Row,
        said: &Parsed,
    ) -> Result<Answer, AllocError>
        requires ready { S.ready by.now }
        requires row { row.now ≡ J.cells }
        ensures same { self.new.state ≡ self.old.state }
        ensures all { OnOk result (self.new.at ≡ length self.new.state.seen) }
        ensures ok { IfOk result (λ a. Answers self.old.state (line_of said.now) (answer_shown a)) }
    {
        self.catch_up(alloc, row)?;
        self.respond(by, alloc, row, said)
    }

    // Answers a line in the world of all entries that the desk has seen.
    fn respond<S: Guide>(
        &mut self,
        by: &S,
        alloc: Global,
        row: &Row,
        said: &Parsed,
    ) -> Result<Answer, AllocError>
        requires ready { S.ready by.now }
        requires row { row.now ≡ J.cells }
        requires all { self.old.at ≡ length self.old.state.seen }
        ensures same { self.new.state ≡ self.old.state }
        ensures all { self.new.at ≡ length self.new.state.seen }
        ensures ok { IfOk result (λ a. Answers self.old.state (line_of said.now) (answer_shown a)) }
    {
        let (version, player) = (self.seen(), self.player());
        let inner = &mut *self.inner;
        let (world, traveller) = (inner.replica.world(), &mut inner.traveller);
        match answering::respond(by, alloc, world, version, player, traveller, said)? {
            Some(answer) => Ok(answer),
            None => self.history(alloc, row),
        }
    }

    // Returns the world of all entries that the desk has seen.
    pub(crate) fn world(&self) -> &World
        requires { self.now.at ≡ length self.now.state.seen }
        ensures { result.now ≡ world_after self.now.state.seen }
    {
        self.inner.replica.world()
    }

    /// Returns the player of this desk, who is one of that world, or `None` for a guest.
    pub fn player(&self) -> Option<u32>
        ensures player { result ≡ self.now.state.player }
        ensures seated { IfSome self.now.state.player
            (λ p. IsTrue (is_player (world_after self.now.state.seen) p)) }
    {
        self.player
    }

    // Returns the answer to the question for the history.
    fn history(&mut self, alloc: Global, row: &Row) -> Result<Answer, AllocError>
        requires { row.now ≡ J.cells }
        ensures same { self.new.state ≡ self.old.state }
        ensures at { self.new.at ≡ self.old.at }
        ensures version { IfOk result (λ a. a.version ≡ length self.old.state.seen) }
        ensures text { IfOk result
            (λ a. string_bytes a.text ++ codes "\n" ≡ codes "history\n" ++ written_text self.old.state.seen) }
        ensures cert { IfOk result (λ a. a.cert ≡ None) }
    {
        let version = self.seen();
        Ok(Answer {
            version,
            text: known_answer(alloc, row, &mut self.inner.replica)?,
            cert: None,
        })
    }
}
