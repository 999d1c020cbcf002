//! A desk of a hall as the backend of a session.

ghost use Rattle.std.specs.Prelude.{◌≡◌, ◌≤◌, length, is_some};
ghost use Rattle.mud_hall.specs.Desk.{pending};
ghost use Rattle.mud_search.specs.declared.limits.TheConstants.{MOST_WORKERS};

use crate::door::Door;
use mud_guide::Answer;
use mud_hall::{Desk, Fault, Hall, HallName, Reply};
use mud_search::OpenGate;
use mud_words::Parsed;
use std::marker::Model;
use std::sync::Wait;
use std::thread::Threads;

/// A desk and its hall. A contract sees the capacity of the history, the desk, and its pending notices.
#[derive(Drop)]
pub struct Seat<'h, J: HallName> {
    hall: &'h Hall<J>,
    desk: Desk<J>,
    workers: u32,
    most: u32,
}

impl<'h, J: HallName> Model for Seat<'h, J> {
    ghost use Rattle.std.specs.Prelude.{◌≤◌, length};
    ghost use Rattle.mud_hall.specs.Desk.{pending};
    ghost use Rattle.mud_session.specs.State.{DoorState};
    ghost use Rattle.mud_search.specs.declared.limits.TheConstants.{MOST_WORKERS};

    ghost Value = { DoorState };

    ghost use Rattle.mud_key.specs.TreeCode.{coded_number_tree};
    ghost use Rattle.std.specs.Coded.{codes};

    ghost coded = { Prim.hlevel (codes, coded_number_tree) };

    ghost view = { λ s. record { capacity = length J.cells; desk = s.desk.state; pending = pending s.desk } };

    ghost invariant = { λ s. s.workers ≤ MOST_WORKERS };
}

impl<'h, J: HallName> Seat<'h, J> {
    /// Connects the desk to its hall. The guide uses `workers` threads, 0 to 8; the answers do not depend on it.
    pub fn new(hall: &'h Hall<J>, desk: Desk<J>, workers: u32) -> Seat<'h, J>
        requires { workers ≤ MOST_WORKERS }
        ensures { result ≡ record { capacity = length J.cells; desk = desk.state; pending = pending desk } }
    {
        Seat::up_to(hall, desk, workers, u32::MAX)
    }

    /// Connects the desk to its hall, but lets it see no entry after the `most`-th when it looks for changes or answers
    /// a question. A line that acts sees all entries.
    pub fn up_to(hall: &'h Hall<J>, desk: Desk<J>, workers: u32, most: u32) -> Seat<'h, J>
        requires { workers ≤ MOST_WORKERS }
        ensures { result ≡ record { capacity = length J.cells; desk = desk.state; pending = pending desk } }
    {
        Seat {
            hall,
            desk,
            workers,
            most,
        }
    }

    /// Returns the number of the desk in its hall.
    pub fn number(&self) -> u32
        ensures { result ≡ self.now.desk.number }
    {
        self.desk.number()
    }

    /// Returns whether the desk is a player's; otherwise it is a guest's.
    pub fn has_player(&self) -> bool
        ensures { result ≡ is_some self.now.desk.player }
    {
        self.desk.has_player()
    }

    /// Returns the number of entries that the desk has seen.
    pub fn seen(&self) -> u32
        ensures { result ≡ length self.now.desk.seen }
    {
        self.desk.seen()
    }

    /// Returns the number of changes that were accepted at the desk.
    pub fn accepted_count(&self) -> usize
        ensures { result ≡ length self.now.desk.calls }
    {
        self.desk.accepted_count()
    }

    /// Returns the desk.
    pub fn into_desk(self) -> Desk<J>
        ensures state { result.state ≡ self.entry.desk }
        ensures told { pending result ≡ self.entry.pending }
    {
        self.desk
    }
}

impl<'h, J: HallName> Door for Seat<'h, J> {
    ghost use Rattle.mud_hall.specs.Desk.{TakesIn};

    ghost state = { λ seat. seat };

    ghost takes_in = { TakesIn };

    fn act<X: Threads + Wait + Sync>(&mut self, rt: &X, line: &Parsed) -> Result<Reply, Fault> {
        self.hall.act(rt, &mut self.desk, line)
    }

    fn see(&mut self) -> Result<(), Fault> {
        self.desk.see_to(self.hall, self.most)
    }

    fn ask<X: Threads + Wait + Sync>(&mut self, rt: &X, line: &Parsed) -> Result<Answer, Fault> {
        let workers = self.workers as usize;
        self.desk.ask_with(rt, self.hall, line, workers, &OpenGate)
    }

    fn take_told(&mut self) -> Vec<String> {
        self.desk.take_told()
    }

    fn reuse(&mut self, sent: Vec<String>) {
        self.desk.reuse(sent);
    }
}
