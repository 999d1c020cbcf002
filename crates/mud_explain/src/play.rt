//! Plays steps of the desks of one hall.

ghost use Rattle.std.specs.Prelude.{◌≡◌, ◌<◌, ◌++◌, ◌⊎◌, ℕ, List, length, slice_get, Some, None};
ghost use Rattle.std.specs.Prelude.{IfOk, IfSome, IfNone, OnOk, codes, string_bytes};
ghost use Rattle.std.specs.Vec.{vec_len};
ghost use Rattle.mud_hall.specs.Settlement.{HasNumber};
ghost use Rattle.std.specs.List.Sorted.{IsPermutation};
ghost use Rattle.mud_hall.specs.Desk.{View};
ghost use Rattle.mud_explain.specs.inner.Steps.{Turns, TurnsOne, Gives, Lacks, DoesNothing, AreHanded, Settles};
ghost use Rattle.mud_explain.specs.inner.Steps.{GoesOn};

use crate::step::{Row, Turn, step_of};
use crate::told::{
    push_answer, push_fault, push_reply, push_seen, push_settled, push_told, push_unsettled,
};
use mud_hall::{Desk, Hall, HallName, NewHall};
use mud_words::parse;
use std::alloc::{AllocError, Global};
use std::sync::Wait;

/// A hall, until it is closed, and its desks.
#[derive(Drop)]
pub(crate) struct Play<J: HallName> {
    alloc: Global,
    hall: Option<Hall<J>>,
    desks: Vec<Desk<J>>,
}

impl<J: HallName> Play<J> {
    /// Returns a hall without desks.
    pub(crate) fn new(alloc: Global, hall: NewHall) -> Play<J>
        requires cells { hall.cells ≡ J.cells }
        requires loaded { hall.loaded ≡ J.loaded }
    {
        Play {
            alloc,
            hall: Some(hall.with_name()),
            desks: Vec::new(alloc),
        }
    }

    /// Plays a line, and appends its result.
    pub(crate) fn play_line<R: Wait>(
        &mut self,
        rt: &R,
        line: &[u8],
        out: &mut String,
    ) -> Result<(), AllocError> {
        match str::from_utf8(line) {
            Ok(text) => self.play_text(rt, text, out),
            Err(_) => out.push_str("not text\n"),
        }
    }

    // Plays a line that is a text.
    fn play_text<R: Wait>(
        &mut self,
        rt: &R,
        text: &str,
        out: &mut String,
    ) -> Result<(), AllocError> {
        match step_of(self.alloc, text)? {
            Some(Row::Desk) => self.desk(rt, out),
            Some(Row::Close(numbers)) => self.close(rt, numbers.as_slice(), out),
            Some(Row::Learn(number, other)) => self.learn(number, other, out),
            Some(Row::At(number, turn)) => self.turn(rt, number, turn, out),
            None => not_understood(out),
        }
    }

    // Gives a new desk.
    fn desk<R: Wait>(&mut self, rt: &R, out: &mut String) -> Result<(), AllocError>
        ensures hall { self.new.hall ≡ self.old.hall }
        ensures told { OnOk result ((told : List ℕ) × (string_bytes out.new ≡ string_bytes out.old ++ told)
            × (Gives J.loaded self.old.desks.items self.new.desks.items told
            ⊎ ((self.old.hall ≡ None) × DoesNothing self.old.desks.items self.new.desks.items told))) }
    {
        let Some(hall) = &self.hall else {
            return not_understood(out);
        };
        self.desks.reserve(1)?;
        match hall.desk(rt) {
            Ok(desk) => {
                writeln!(out, "desk {}", desk.number())?;
                self.desks.push_reserved(desk);
                Ok(())
            }
            Err(fault) => push_fault(out, fault),
        }
    }

    // Plays the turn of one desk.
    fn turn<R: Wait>(
        &mut self,
        rt: &R,
        number: u32,
        turn: Turn<'_>,
        out: &mut String,
    ) -> Result<(), AllocError>
        ensures hall { self.new.hall ≡ self.old.hall }
        ensures told { OnOk result ((told : List ℕ) × (string_bytes out.new ≡ string_bytes out.old ++ told)
            × (TurnsOne (length J.cells) number turn.entry self.old.desks.items self.new.desks.items told
            ⊎ (Lacks self.old.hall self.old.desks.items number
            × DoesNothing self.old.desks.items self.new.desks.items told))) }
    {
        let Some(hall) = &self.hall else {
            return not_understood(out);
        };
        match place_of(&self.desks, number) {
            Some(at) => turn_at(rt, self.alloc, hall, &mut self.desks[at], turn, out),
            None => not_understood(out),
        }
    }

    // Advances the desk to what the other one has seen.
    fn learn(&mut self, number: u32, other: u32, out: &mut String) -> Result<(), AllocError> {
        if self.hall.is_none() {
            return not_understood(out);
        }
        match (place_of(&self.desks, number), place_of(&self.desks, other)) {
            (Some(at), Some(from)) => {
                learn_at(self.desks.as_mut_slice(), at, from);
                push_seen(out, self.desks[at].seen())
            }
            _ => not_understood(out),
        }
    }

    // Hands in the desks with these numbers.
    fn close<R: Wait>(
        &mut self,
        rt: &R,
        numbers: &[u32],
        out: &mut String,
    ) -> Result<(), AllocError> {
        let Some(hall) = self.hall.take() else {
            return not_understood(out);
        };
        match handed_in(self.alloc, &mut self.desks, numbers)? {
            Some(handed) => self.settle(rt, hall, handed, out),
            None => {
                self.hall = Some(hall);
                not_understood(out)
            }
        }
    }

    // Closes the hall, or keeps it with all its desks.
    fn settle<R: Wait>(
        &mut self,
        rt: &R,
        hall: Hall<J>,
        handed: Vec<Desk<J>>,
        out: &mut String,
    ) -> Result<(), AllocError>
        requires { self.old.hall ≡ None }
        ensures { OnOk result ((told : List ℕ) × (string_bytes out.new ≡ string_bytes out.old ++ told)
            × (Settles J.loaded handed.items self.new.hall told
            ⊎ GoesOn J.loaded handed.items self.old.desks.items (Some hall) self.new.hall self.new.desks.items told)) }
    {
        match hall.close(rt, handed) {
            Ok(settled) => push_settled(out, self.alloc, settled),
            Err((hall, handed, fault)) => {
                self.hall = Some(hall);
                take_back(&mut self.desks, handed)?;
                push_unsettled(out, fault)
            }
        }
    }
}

// Appends that a line is not a step of the present desks.
fn not_understood(out: &mut String) -> Result<(), AllocError>
    ensures { OnOk result (string_bytes out.new ≡ string_bytes out.old ++ codes "not understood\n") }
{
    out.push_str("not understood\n")
}

// Returns the place of the desk with this number.
fn place_of<J: HallName>(desks: &Vec<Desk<J>>, number: u32) -> Option<usize>
    ensures some { IfSome result (λ i. i < vec_len desks.now) }
    ensures inside { IfSome result (λ i. i < length desks.now.items) }
    ensures desk { IfSome result (λ i. (d : View)
        × (slice_get desks.now.items i ≡ Some d) × (d.state.number ≡ number)) }
    ensures none { IfNone result (HasNumber desks.now.items number → ⊥) }
{
    for i in 0..desks.len() {
        if desks[i].number() == number {
            return Some(i);
        }
    }
    None
}

// Takes the desks with these numbers, in that order. If one is missing, all stay.
fn handed_in<J: HallName>(
    alloc: Global,
    desks: &mut Vec<Desk<J>>,
    numbers: &[u32],
) -> Result<Option<Vec<Desk<J>>>, AllocError>
    ensures some { IfOk result (λ r. IfSome r
        (λ handed. AreHanded numbers.now desks.old.items handed.items desks.new.items)) }
    ensures none { IfOk result (λ r. IfNone r (IsPermutation desks.old.items desks.new.items)) }
{
    let mut handed = Vec::with_capacity(alloc, numbers.len())?;
    for number in numbers {
        let Some(at) = place_of(desks, *number) else {
            take_back(desks, handed)?;
            return Ok(None);
        };
        handed.push(desks.remove(at))?;
    }
    Ok(Some(handed))
}

// Puts the desks that were handed in back.
fn take_back<J: HallName>(desks: &mut Vec<Desk<J>>, handed: Vec<Desk<J>>) -> Result<(), AllocError>
    ensures { OnOk result (desks.new.items ≡ desks.old.items ++ handed.items) }
{
    let mut handed = handed;
    desks.append(&mut handed)
}

// Makes one desk learn from another.
fn learn_at<J: HallName>(desks: &mut [Desk<J>], at: usize, from: usize)
    requires at { at < length desks.old }
    requires from { from < length desks.old }
    ensures { length desks.new ≡ length desks.old }
{
    if at < from {
        let (front, back) = desks.split_at_mut(from);
        front[at].learn(&mut back[0]);
    } else if from < at {
        let (front, back) = desks.split_at_mut(at);
        back[0].learn(&mut front[from]);
    }
}

// Plays the turn of a desk, and appends its result.
fn turn_at<J: HallName, R: Wait>(
    rt: &R,
    alloc: Global,
    hall: &Hall<J>,
    desk: &mut Desk<J>,
    turn: Turn<'_>,
    out: &mut String,
) -> Result<(), AllocError>
    ensures { OnOk result ((told : List ℕ) × (string_bytes out.new ≡ string_bytes out.old ++ told)
        × Turns (length J.cells) turn.entry desk.old desk.new told) }
{
    match turn {
        Turn::Act(line) => act_at(rt, alloc, hall, desk, line, out),
        Turn::Ask(line) => ask_at(alloc, hall, desk, line, out),
        Turn::See => match desk.see(hall) {
            Ok(()) => push_seen(out, desk.seen()),
            Err(fault) => push_fault(out, fault),
        },
        Turn::Seen => push_seen(out, desk.seen()),
        Turn::Told => push_told(out, desk.take_told().as_slice()),
        Turn::Guest => {
            desk.guest();
            out.push_str("guest\n")
        }
    }
}

// Acts on a line, and appends the reply.
fn act_at<J: HallName, R: Wait>(
    rt: &R,
    alloc: Global,
    hall: &Hall<J>,
    desk: &mut Desk<J>,
    line: &str,
    out: &mut String,
) -> Result<(), AllocError>
    ensures { OnOk result ((told : List ℕ) × (string_bytes out.new ≡ string_bytes out.old ++ told)
        × Turns (length J.cells) (Turn.Act line.entry) desk.old desk.new told) }
{
    match hall.act(rt, desk, &parse(alloc, line)?) {
        Ok(reply) => push_reply(out, &reply),
        Err(fault) => push_fault(out, fault),
    }
}

// Asks a line, and appends the answer.
fn ask_at<J: HallName>(
    alloc: Global,
    hall: &Hall<J>,
    desk: &mut Desk<J>,
    line: &str,
    out: &mut String,
) -> Result<(), AllocError>
    ensures { OnOk result ((told : List ℕ) × (string_bytes out.new ≡ string_bytes out.old ++ told)
        × Turns (length J.cells) (Turn.Ask line.entry) desk.old desk.new told) }
{
    match desk.ask(hall, &parse(alloc, line)?) {
        Ok(answer) => push_answer(out, &answer),
        Err(fault) => push_fault(out, fault),
    }
}
