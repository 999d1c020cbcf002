//! Desks: one caller's side of a hall.

ghost use Rattle.std.specs.Prelude.{◌≡◌, ◌++◌, ◌∷◌, ◌<◌, ◌≤◌, ◌+◌, [], length, max, if◌then◌else◌};
ghost use Rattle.std.specs.Prelude.{map, is_some, Some, None, IfOk, OnErr, OnOk, MatchBool, string_bytes};
ghost use Rattle.std.specs.Prelude.{vec_len, vec_capacity};
ghost use mathlib.Core.List.{IsPrefix};
ghost use Rattle.mud_world.specs.declared.limits.TheConstants.{MOST_ENTRIES};
ghost use Rattle.mud_chron.specs.declared.limits.TheConstants.{MOST_DESKS};
ghost use Rattle.mud_hall.specs.inner.Desks.{IsUnused, if_told, notice_in};
ghost use Rattle.mud_hall.specs.Desk.{View, TakesIn, Learns, IsNew, as_guest, pending, with_told};

use crate::name::HallName;
use crate::travel::follow_change;
use mud_chron::Entry;
use mud_roads::Traveller;
use mud_row::{Replica, Row};
use mud_rules::push_notice;
use mud_world::World;
use std::alloc::{AllocError, Global};
use std::marker::{Model, PhantomData};
use std::mem;

// The number of notices up to which their list is used again.
const REUSED_NOTICES: usize = 16;

/// One caller's side of a hall: its player, its replica of the history, its accepted calls, and its notices. All but
/// the number and the player is boxed, so that a desk is cheap to move.
pub struct Desk<J: HallName> {
    pub(crate) number: u32,
    pub(crate) player: Option<u32>,
    pub(crate) inner: Box<Inner>,
    of: PhantomData<J>,
}

impl<J: HallName> Drop for Desk<J> {
    fn drop(self) {
        let Desk {
            number: _,
            player: _,
            inner,
            of: _,
        } = self;
        drop(inner);
    }
}

/// The boxed parts of a desk.
#[derive(Drop)]
pub(crate) struct Inner {
    pub(crate) replica: Replica,
    pub(crate) calls: Vec<u32>,
    pub(crate) told: Vec<String>,
    // the memory of a notice that was sent
    spare: Option<String>,
    // the traveller of its player, as long as nothing is opened or closed
    pub(crate) traveller: Option<Traveller>,
}

impl Inner {
    // Returns the boxed parts of a new guest's desk with this replica.
    pub(crate) fn new(alloc: Global, replica: Replica) -> Result<Box<Inner>, AllocError>
        ensures { IfOk result (λ inner. IsUnused replica inner.value) }
    {
        let inner = Inner {
            replica,
            calls: Vec::new(alloc),
            told: Vec::new(alloc),
            spare: None,
            traveller: None,
        };
        Ok(Box::new(alloc, inner)?)
    }
}

impl<J: HallName> Model for Desk<J> {
    ghost use Rattle.std.specs.Prelude.{◌++◌, map, take, drop, string_bytes};
    ghost use Rattle.mud_hall.specs.Notices.{notices};
    ghost use Rattle.mud_hall.specs.Desk.{View, IsHeld};

    ghost Value = { View };

    ghost use Rattle.mud_key.specs.TreeCode.{coded_number_tree};
    ghost use Rattle.std.specs.Coded.{codes};

    ghost coded = { Prim.hlevel (codes, coded_number_tree) };

    // The desk also has notices of entries that its world has not applied yet.
    ghost view = { λ d. record {
      state = record {
        number = d.number;
        player = d.player;
        seen = d.inner.value.replica.list;
        calls = d.inner.value.calls.items;
        told = map string_bytes d.inner.value.told.items
            ++ notices d.player (take d.inner.value.replica.at d.inner.value.replica.list)
            (drop d.inner.value.replica.at d.inner.value.replica.list);
      };
      at = d.inner.value.replica.at;
    } };

    ghost invariant = { λ d.
        IsHeld J.cells J.loaded d.number d.player d.inner.value.traveller d.inner.value.replica };
}

impl<J: HallName> Desk<J> {
    // Returns a new guest's desk with this number and these parts.
    pub(crate) fn guest_at(inner: Box<Inner>, number: u32) -> Desk<J>
        requires unused { IsUnused inner.value.replica inner.value }
        requires row { inner.value.replica.row ≡ J.cells }
        requires loaded { IsPrefix J.loaded inner.value.replica.list }
        requires number { (1 ≤ number) × (number ≤ MOST_DESKS) }
        ensures new { IsNew J.loaded result.state }
        ensures number { result.state.number ≡ number }
    {
        Desk {
            number,
            player: None,
            inner,
            of: PhantomData,
        }
    }

    /// Returns its number in its hall, 1 to 64.
    pub fn number(&self) -> u32
        ensures { result ≡ self.now.state.number }
    {
        self.number
    }

    /// Returns whether it is a player's; otherwise it is a guest's.
    pub fn has_player(&self) -> bool
        ensures { result ≡ is_some self.now.state.player }
    {
        self.player.is_some()
    }

    /// Returns the number of entries that it has seen.
    pub fn seen(&self) -> u32
        ensures seen { result ≡ length self.now.state.seen }
        ensures limit { result ≤ MOST_ENTRIES }
    {
        self.inner.replica.known()
    }

    /// Returns the number of its accepted changes.
    pub fn accepted_count(&self) -> usize
        ensures { result ≡ length self.now.state.calls }
    {
        self.inner.calls.len()
    }

    // Applies one more known entry to its world, and stores the notice for its player.
    fn take_one(&mut self, alloc: Global, row: &Row) -> Result<bool, AllocError>
        requires { row.now ≡ J.cells }
        ensures still { self.new.state ≡ self.old.state }
        ensures ok { IfOk result (λ more. MatchBool more ((self.old.at < length self.old.state.seen)
            × (self.new.at ≡ self.old.at + 1)) ((self.old.at ≡ length self.old.state.seen)
            × (self.new.at ≡ self.old.at))) }
        ensures err { OnErr result (self.new.at ≡ self.old.at) }
    {
        let inner = &mut *self.inner;
        let replica = &mut inner.replica;
        let Some(entry) = replica.peek(row) else {
            return Ok(false);
        };
        let version = replica.at() + 1;
        let mut line = inner.spare.take().unwrap_or(String::new(alloc));
        let hears = write_notice(&mut line, self.player, version, replica.world(), entry)?;
        inner.told.reserve(1)?;
        replica.step(row)?;
        follow_change(&mut inner.traveller, replica.world(), entry.change());
        keep_line(&mut inner.told, &mut inner.spare, line, hears);
        Ok(true)
    }

    // Makes the cells known that are set, but none after the `most`-th.
    pub(crate) fn extend_to(&mut self, row: &Row, most: u32)
        requires { row.now ≡ J.cells }
        ensures at { self.new.at ≡ self.old.at }
        ensures state { TakesIn self.old.state self.new.state }
        ensures most { length self.new.state.seen ≤ max (length self.old.state.seen) most }
    {
        self.inner.replica.extend_to(row, most);
    }

    // Applies all known entries to its world.
    pub(crate) fn catch_up(&mut self, alloc: Global, row: &Row) -> Result<(), AllocError>
        requires { row.now ≡ J.cells }
        ensures still { self.new.state ≡ self.old.state }
        ensures ok { OnOk result (self.new.at ≡ length self.new.state.seen) }
    {
        for _ in self.inner.replica.at()..self.inner.replica.known() {
            self.take_one(alloc, row)?;
        }
        Ok(())
    }

    /// Advances to the entries that another desk of its hall has seen, if those are more. It does not allocate.
    pub fn learn(&mut self, other: &mut Desk<J>)
        ensures other_same { other.new ≡ other.old }
        ensures at { self.new.at ≡ self.old.at }
        ensures learns { Learns self.old.state other.old.state self.new.state }
        ensures theirs { IsPrefix other.old.state.seen self.new.state.seen }
    {
        self.inner.replica.learn(&mut other.inner.replica);
    }

    /// Makes it a guest's desk again. Its number, its known entries and its calls stay. It does not allocate.
    pub fn guest(&mut self)
        ensures { self.new ≡ record { state = as_guest self.old.state; at = self.old.at } }
    {
        self.player = None;
        self.inner.told.clear();
    }

    /// Returns the notices of the entries that its world has applied, each once. The notices of the other entries come
    /// later. It does not allocate.
    pub fn take_told(&mut self) -> Vec<String>
        ensures told { self.old.state.told ≡ map string_bytes result.items ++ self.new.state.told }
        ensures rest { self.new ≡ record { state = with_told self.old.state (pending self.old); at = self.old.at } }
    {
        let told = &mut self.inner.told;
        let empty = Vec::new(*Vec::allocator(told));
        mem::replace(told, empty)
    }

    /// Takes the memory of notices that were sent, and uses it for the notices to come: that of one notice, and that of
    /// a list of up to 16. It does not allocate.
    pub fn reuse(&mut self, sent: Vec<String>)
        ensures { self.new ≡ self.old }
    {
        let mut sent = sent;
        let inner = &mut *self.inner;
        if !inner.told.is_empty() || sent.capacity() > REUSED_NOTICES {
            return;
        }
        if let Some(line) = sent.pop() {
            inner.spare = Some(line);
        }
        sent.clear();
        inner.told = sent;
    }
}

// Appends a line to the notices if the player hears it, and keeps its memory otherwise. There is capacity for the line.
fn keep_line(told: &mut Vec<String>, spare: &mut Option<String>, line: String, hears: bool)
    requires { vec_len told.old < vec_capacity told.old }
    ensures { map string_bytes told.new.items ≡ map string_bytes told.old.items ++ if_told hears (string_bytes line) }
{
    if hears {
        told.push_reserved(line);
    } else {
        *spare = Some(line);
    }
}

// Writes the notice of an entry for a player into the line, if the player hears it, given the world before the entry.
// Returns whether the player hears it.
fn write_notice(
    line: &mut String,
    player: Option<u32>,
    version: u32,
    world: &World,
    entry: &Entry,
) -> Result<bool, AllocError>
    ensures { IfOk result (λ hears. if_told hears (string_bytes line.new)
        ≡ notice_in player version world.now entry.now) }
{
    let Some(player) = player else {
        return Ok(false);
    };
    line.clear();
    push_notice(line, version, world, entry.change(), player)
}
