//! A single-user desk with a world of its own.

ghost use Rattle.std.specs.Prelude.{◌≡◌, ◌≢◌, ◌≤◌, ◌<◌, ◌++◌, ◌⊎◌, [], length, codes, string_bytes};
ghost use Rattle.std.specs.Prelude.{ℕ, Some, None, IfOk, IfErr, IfSome, OnOk, OnErr, IsTrue, vec_len, vec_capacity};
ghost use Rattle.std.specs.Prelude.{MatchOption};
ghost use Rattle.std.specs.Thread.{IsSync};
ghost use Rattle.mud_world.specs.State.{is_player};
ghost use Rattle.mud_world.specs.Legal.{refusal, after};
ghost use Rattle.mud_roads.specs.Passable.{IsFollower};
ghost use Rattle.mud_world.specs.declared.limits.TheConstants.{MOST_ENTRIES};
ghost use Rattle.mud_chron.specs.inner.Texts.{written_text};
ghost use Rattle.mud_words.specs.Line.{line_of};
ghost use Rattle.mud_rules.specs.Outcome.{IsLawful};
ghost use Rattle.mud_rules.specs.inner.Outcome.{IsJourney};
ghost use Rattle.mud_rules.specs.Replies.{reply_text};
ghost use Rattle.std.specs.Cow.{cow_str_bytes};
ghost use Rattle.mud_hall.specs.Notices.{world_after};
ghost use Rattle.mud_hall.specs.Desk.{as_player, as_accepted, with_told};
ghost use Rattle.mud_hall.specs.Replies.{reply_shown, verdict_on, Replies, Stores};
ghost use Rattle.mud_hall.specs.Answers.{answer_shown, Answers, IsGuided};
ghost use Rattle.mud_hall.specs.Alone.{Alone, alone, IsNamed, IsResumed, IsResumeFault};
ghost use Rattle.mud_chron.specs.Replay.{changes_of, AreLegal, HasIllegal};
ghost use Rattle.mud_rules.specs.Table.{decision};
ghost use Rattle.mud_hall.specs.inner.Desks.{IsResponse, Travels};

use crate::answering;
use crate::fault::{Fault, ResumeFault};
use crate::guide::{Through, by_workers};
use crate::reply::Reply;
use crate::texts::history_answer;
use crate::travel::follow_change;
use mud_chron::{ChronFault, Entry, replay};
use mud_guide::{Answer, Workers};
use mud_roads::Traveller;
use mud_rules::{Journey, Verdict, decide, player_match, refusal_text, reply_text, welcome_text};
use mud_search::OpenGate;
use mud_words::Parsed;
use mud_world::{Change, World};
use std::alloc::{AllocError, Global};
use std::borrow::CowStr;
use std::marker::Model;
use std::sync::Wait;
use std::thread::Threads;

/// A desk without a hall: its player, its world, and the history. It makes its entries as desk 1. It replies like a
/// desk of a hall, but an entry is always stored.
#[derive(Drop)]
pub struct Solo {
    alloc: Global,
    capacity: u32,
    world: World,
    history: Vec<Entry>,
    player: u32,
    workers: u32,
    // the traveller of its player, as long as nothing is opened or closed
    traveller: Option<Traveller>,
}

impl Model for Solo {
    ghost use Rattle.mud_hall.specs.Alone.{Alone, alone, IsAlone};

    ghost Value = { Alone };

    ghost use Rattle.mud_key.specs.TreeCode.{coded_number_tree};
    ghost use Rattle.std.specs.Coded.{codes};

    ghost coded = { Prim.hlevel (codes, coded_number_tree) };

    ghost view = { λ a. alone a.capacity a.player a.history.items };

    ghost invariant = { λ a. IsAlone a.capacity a.player a.traveller a.world a.history.items };
}

impl Solo {
    /// Returns the desk in the initial world, with an empty history and the wizard, #1. The history holds at most
    /// `capacity` entries, up to 65,536. The only error is out of memory.
    pub fn open(alloc: Global, capacity: u32) -> Result<Solo, AllocError>
        requires { capacity ≤ MOST_ENTRIES }
        ensures { IfOk result (λ solo. solo ≡ alone capacity 1 []) }
    {
        let world = World::opening(alloc)?;
        Ok(Solo {
            alloc,
            capacity,
            world,
            history: Vec::new(alloc),
            player: 1,
            workers: 0,
            traveller: None,
        })
    }

    /// Returns the desk of a player after these entries. `word` means the player, as in `meet` (docs/COMMANDS.md); `me`
    /// and `here` are those of #1. The history holds at most `capacity` entries, up to 65,536, these included. The
    /// first entry whose change is illegal, too many entries, and a word that means no player are errors, in this
    /// order. The only other error is out of memory.
    pub fn resume(
        alloc: Global,
        capacity: u32,
        entries: Vec<Entry>,
        word: &str,
    ) -> Result<Solo, ResumeFault>
        requires { capacity ≤ MOST_ENTRIES }
        ensures ok { IfOk result (λ solo. IsResumed capacity entries.items word.now solo) }
        ensures fault { IfErr result (IsResumeFault capacity entries.items word.now) }
    {
        let world = match replay(alloc, &entries) {
            Ok(world) => world,
            Err(ChronFault::OutOfMemory) => return Err(ResumeFault::OutOfMemory),
            Err(ChronFault::BadChange(n)) => return Err(ResumeFault::BadChange(n)),
            Err(_) => unreachable!(),
        };
        if entries.len() > capacity as usize {
            return Err(ResumeFault::OverCapacity);
        }
        let Some(player) = player_named(&world, word) else {
            return Err(ResumeFault::NoPlayer);
        };
        Ok(Solo {
            alloc,
            capacity,
            world,
            history: entries,
            player,
            workers: 0,
            traveller: None,
        })
    }

    /// Returns the entries of the history, at most 65,536.
    pub fn into_history(self) -> Vec<Entry>
        ensures history { result.items ≡ self.state.seen }
        ensures few { length result.items ≤ MOST_ENTRIES }
    {
        self.history
    }

    /// Sets the number of workers that the guide uses. It is zero at first: only the caller's thread searches. The
    /// answers do not depend on it.
    pub fn set_workers(&mut self, workers: u32)
        ensures { self.new ≡ self.old }
    {
        self.workers = workers;
    }

    /// Acts on a line, like `Hall::act`. A change is made, or the error is `HistoryFull`; after a fault the desk is
    /// unchanged.
    pub fn act(&mut self, said: &Parsed) -> Result<Reply, Fault>
        ensures capacity { self.new.capacity ≡ self.old.capacity }
        ensures replies { Replies self.old.capacity self.old.state (line_of said.now) (reply_shown result)
            self.new.state }
        ensures stored { IfErr result (λ f. f ≢ Fault.Unpublished) }
    {
        match self.verdict(said)? {
            Verdict::Refused(refusal) => {
                Ok(Reply::Refused {
                    version: self.version(),
                    refusal,
                    text: CowStr::Borrowed(refusal_text(refusal)),
                })
            }
            Verdict::Ask(_) => Ok(Reply::Question {
                version: self.version(),
            }),
            Verdict::Become(player) => {
                let text = CowStr::Owned(welcome_text(self.alloc, player)?);
                self.seat(player);
                Ok(Reply::Became {
                    version: self.version(),
                    text,
                })
            }
            Verdict::Change(change) => self.store(change),
        }
    }

    // Decides a line. It is inlined, because moving a verdict is expensive.
    #[inline(always)]
    fn verdict(&self, said: &Parsed) -> Result<Verdict, AllocError>
        ensures decision { IfOk result (λ v. v
            ≡ verdict_on self.now.state.seen self.now.state.player (line_of said.now)) }
        ensures lawful { IfOk result (IsLawful (world_after self.now.state.seen) self.now.state.player) }
    {
        decide(self.alloc, &self.world, Some(self.player), said)
    }

    // Returns the number of accepted changes.
    fn version(&self) -> u32
        ensures version { result ≡ length self.now.state.seen }
        ensures limit { result ≤ MOST_ENTRIES }
    {
        // for the prover: reading the field shows that the history has at most 65,536 entries
        let _known = self.capacity;
        self.history.len() as u32
    }

    // Gives the desk to an existing player.
    fn seat(&mut self, player: u32)
        requires { IsLawful (world_after self.old.state.seen) self.old.state.player (Verdict.Become player) }
        ensures capacity { self.new.capacity ≡ self.old.capacity }
        ensures state { self.new.state ≡ as_player self.old.state player }
    {
        self.player = player;
    }

    // Makes a change, and stores it.
    #[inline(always)]
    fn store(&mut self, change: Change) -> Result<Reply, Fault>
        requires { IsLawful (world_after self.old.state.seen) self.old.state.player (Verdict.Change change) }
        ensures capacity { self.new.capacity ≡ self.old.capacity }
        ensures stores { Stores self.old.capacity self.old.state change (reply_shown result) self.new.state }
        ensures stored { IfErr result (λ f. f ≢ Fault.Unpublished) }
    {
        let version = self.version() + 1;
        let text = self.text(&change)?;
        self.keep(change)?;
        Ok(Reply::Accepted { version, text })
    }

    // Returns the reply to a change, if the history has room for one more.
    fn text(&self, change: &Change) -> Result<CowStr<'static, Global>, Fault>
        ensures text { IfOk result
            (λ text. cow_str_bytes text ≡ reply_text (world_after self.now.state.seen) change.now) }
        ensures room { OnOk result (length self.now.state.seen < self.now.capacity) }
        ensures fault { IfErr result (λ f. (f ≡ Fault.OutOfMemory)
            ⊎ ((f ≡ Fault.HistoryFull) × (length self.now.state.seen ≡ self.now.capacity))) }
    {
        if self.version() == self.capacity {
            return Err(Fault::HistoryFull);
        }
        Ok(reply_text(self.alloc, &self.world, change)?)
    }

    // Makes a change, and stores it as the next entry.
    #[inline(always)]
    fn keep(&mut self, change: Change) -> Result<(), AllocError>
        requires room { length self.old.state.seen < self.old.capacity }
        requires lawful { IsLawful (world_after self.old.state.seen) self.old.state.player (Verdict.Change change) }
        ensures capacity { self.new.capacity ≡ self.old.capacity }
        ensures ok { OnOk result (self.new.state ≡ as_accepted self.old.state change) }
        ensures err { OnErr result (self.new.state ≡ self.old.state) }
    {
        apply(&mut self.history, &mut self.world, &change)?;
        follow_change(&mut self.traveller, &self.world, &change);
        self.player = change.actor;
        self.history.push_reserved(Entry::new(1, change));
        Ok(())
    }

    /// Answers a line, like `Desk::ask_with` with an open gate. The traveller of its player is kept for the next route.
    pub fn ask<R: Threads + Wait + Sync>(
        &mut self,
        rt: &R,
        said: &Parsed,
    ) -> Result<Answer, AllocError>
        ensures same { self.new ≡ self.old }
        ensures answers { IfOk result (λ a. Answers self.old.state (line_of said.now) (answer_shown a)) }
    {
        let by = Workers {
            rt,
            count: self.workers as usize,
            gate: &OpenGate,
        };
        let (alloc, version, player) = (self.alloc, self.version(), self.player);
        let (world, traveller) = (&self.world, &mut self.traveller);
        match respond(&by, alloc, world, version, player, traveller, said)? {
            Some(answer) => Ok(answer),
            None => self.told_history(),
        }
    }

    // Returns the answer to the question for the history.
    fn told_history(&self) -> Result<Answer, AllocError>
        ensures version { IfOk result (λ a. a.version ≡ length self.now.state.seen) }
        ensures text { IfOk result
            (λ a. string_bytes a.text ++ codes "\n" ≡ codes "history\n" ++ written_text self.now.state.seen) }
        ensures cert { IfOk result (λ a. a.cert ≡ None) }
    {
        Ok(Answer {
            version: self.version(),
            text: history_answer(self.alloc, &self.history)?,
            cert: None,
        })
    }

    /// Returns its notices: none, because there are no other players. It does not allocate.
    pub fn take_told(&mut self) -> Vec<String>
        ensures same { self.new ≡ self.old }
        ensures none { result.items ≡ [] }
        ensures rest { self.new.state ≡ with_told self.old.state [] }
    {
        Vec::new(self.alloc)
    }
}

// The player for whom `me` and `here` stand in a word.
const WIZARD: u32 = 1;

// Returns the player that a word means, if there is one.
fn player_named(world: &World, word: &str) -> Option<u32>
    ensures { MatchOption result ((player : ℕ) → IsNamed world.now word.now player → ⊥) (IsNamed world.now word.now) }
{
    match player_match(world, WIZARD, word) {
        Ok(player) => {
            if world.is_player(player) {
                Some(player)
            } else {
                None
            }
        }
        Err(_) => None,
    }
}

// Makes a change in the world, after the history has room for it.
fn apply(history: &mut Vec<Entry>, world: &mut World, change: &Change) -> Result<(), AllocError>
    requires { refusal world.old change.now ≡ None }
    ensures items { history.new.items ≡ history.old.items }
    ensures room { OnOk result (vec_len history.new < vec_capacity history.new) }
    ensures ok { OnOk result (world.new ≡ after world.old change.now) }
    ensures err { OnErr result (world.new ≡ world.old) }
{
    history.reserve(1)?;
    world.apply(change)
}

// Answers a line at the version of a world, and returns `None` if the line asks for the history. The traveller of a
// player who asks for a route is kept in `traveller`.
fn respond<R: Threads + Wait + Sync>(
    by: &Workers<'_, R, OpenGate>,
    alloc: Global,
    world: &World,
    version: u32,
    player: u32,
    traveller: &mut Option<Traveller>,
    said: &Parsed,
) -> Result<Option<Answer>, AllocError>
    requires version { version ≤ MOST_ENTRIES }
    requires seated { IsTrue (is_player world.now player) }
    requires known { IfSome traveller.old (IsFollower world.now) }
    ensures known { IfSome traveller.new (IsFollower world.now) }
    ensures response { IfOk result
        (IsResponse world.now version (Some player) (decision world.now (Some player) (line_of said.now))) }
{
    let through = Through {
        find: |alloc: Global, world: &World, version: u32, player: u32, traveller: Option<
            &Traveller,
        >, journey: &Journey| -> Result<Answer, AllocError>
            requires { IsSync R.row × (version ≤ MOST_ENTRIES)
                × IsTrue (is_player world.now player) × IfSome traveller (λ t. Travels world.now player t.now)
                × IsJourney world.now journey.now }
            ensures version { IfOk result (λ a. a.version ≡ version) }
            ensures guided { IfOk result (IsGuided world.now version (Some player) journey.now) }
        { by_workers(by, alloc, world, version, player, traveller, journey) },
    };
    answering::respond(
        &through,
        alloc,
        world,
        version,
        Some(player),
        traveller,
        said,
    )
}
