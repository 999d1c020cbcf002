//! A player who types lines in a separate world.

ghost use Rattle.std.specs.Prelude.{◌≡◌, Some, None, IfOk, OnOk};
ghost use Rattle.mud_world.specs.Legal.{refusal};
ghost use Rattle.mud_rules.specs.Outcome.{IsLawful};
ghost use Rattle.mud_rules.specs.declared.verdict.Verdict.TheVariants.{Change as Changes};
ghost use Rattle.mud_lines.specs.Typing.{after_verdict, after_line};
ghost use Rattle.mud_words.specs.Parse.{parse_of};
ghost use Rattle.mud_rules.specs.Table.{decision};
ghost use Rattle.mud_lines.specs.inner.Typed.{scene_of, IsTyped};

use crate::stop::Stop;
use mud_rules::{Verdict, decide};
use mud_words::parse;
use mud_world::{Change, Deed, World};
use std::alloc::{AllocError, Global};

/// The length of the longest line of a server and a script, in bytes (docs/TELNET.md, "Lines").
pub const MOST_LINE: usize = 1_000;

// The player who types first: the only one of the opening world.
const WIZARD: u32 = 1;

/// The lines typed so far, and the world and player after them.
#[derive(Drop)]
pub(crate) struct Typist {
    pub(crate) alloc: Global,
    pub(crate) world: World,
    pub(crate) player: u32,
    pub(crate) lines: Vec<String>,
}

impl Typist {
    /// Returns the typist before the first line, in the opening world.
    pub(crate) fn new(alloc: Global) -> Result<Typist, AllocError>
        ensures { IfOk result IsTyped }
    {
        Ok(Typist {
            alloc,
            world: World::opening(alloc)?,
            player: WIZARD,
            lines: Vec::new(alloc),
        })
    }

    // Makes a legal change; a new player types from then on.
    fn make(&mut self, change: &Change) -> Result<(), AllocError>
        requires { refusal self.old.world change.now ≡ None }
        ensures scene { OnOk result (scene_of self.new ≡ after_verdict (scene_of self.old) (Changes change.now)) }
        ensures lines { self.new.lines ≡ self.old.lines }
    {
        self.world.apply(change)?;
        if matches!(&change.deed, Deed::Player(_)) {
            self.player = change.actor;
        }
        Ok(())
    }

    // Returns the verdict on a line.
    fn verdict_on(&self, line: &str) -> Result<Verdict, AllocError>
        ensures decision { IfOk result (λ v. v ≡ decision self.now.world (Some self.now.player) (parse_of line.now)) }
        ensures lawful { IfOk result (IsLawful self.now.world (Some self.now.player)) }
    {
        let parsed = parse(self.alloc, line)?;
        decide(self.alloc, &self.world, Some(self.player), &parsed)
    }

    // Acts on a line, if it asks for a change or for another player.
    fn act(&mut self, line: &str) -> Result<(), Stop>
        ensures scene { OnOk result (scene_of self.new ≡ after_line (scene_of self.old) line.now) }
        ensures lines { self.new.lines ≡ self.old.lines }
    {
        match self.verdict_on(line)? {
            Verdict::Change(change) => {
                self.make(&change)?;
                Ok(())
            }
            Verdict::Become(player) => {
                self.player = player;
                Ok(())
            }
            Verdict::Ask(_) | Verdict::Refused(_) => Err(Stop::GivenUp),
        }
    }

    /// Types a line. It has to make a change, or to change the player who types.
    pub(crate) fn type_line(&mut self, line: String) -> Result<(), Stop>
        ensures { IsTyped self.old → OnOk result (IsTyped self.new) }
    {
        if line.len() > MOST_LINE || line.as_bytes().contains(&b'\n') {
            return Err(Stop::GivenUp);
        }
        self.act(&line)?;
        self.lines.push(line)?;
        Ok(())
    }

    /// Types the line of these words.
    pub(crate) fn type_words(&mut self, words: &[&str]) -> Result<(), Stop>
        ensures { IsTyped self.old → OnOk result (IsTyped self.new) }
    {
        let line = words.join(self.alloc, " ")?;
        self.type_line(line)
    }
}

/// Types these lines in a new world.
pub(crate) fn typed(alloc: Global, lines: &[String]) -> Result<Typist, Stop>
    ensures { IfOk result IsTyped }
{
    let mut typist = Typist::new(alloc)?;
    for line in lines {
        typist.type_line(String::from_str(alloc, line.as_str())?)?;
    }
    Ok(typist)
}
