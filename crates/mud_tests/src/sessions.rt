//! Sessions: the output for two guests of one hall, and its order. All are on one thread.

ghost use Rattle.std.specs.Prelude.{◌≡◌};

use crate::lines::act;
use crate::rows::same;
use mud_hall::{Desk, Fault, Hall, HallName, NewHall};
use mud_session::{Seat, Session, SessionFault};
use std::alloc::{AllocError, Global};
use std::marker::Brand;
use std::process::Abort;
use std::sync::Wait;
use std::test::Fail;
use std::thread::Threads;

// Appends output, with a `;` in place of each line end.
fn push_sent(alloc: Global, bytes: &[u8], out: &mut String) -> Result<(), AllocError> {
    let text = String::from_utf8_lossy(alloc, bytes)?;
    out.push_str(text.replace(alloc, "\r\n", ";")?.as_str())
}

// Returns the first word of a text, and the text after it.
fn split_word(text: &str) -> (&str, &str) {
    match text.split_once(' ') {
        Some(parts) => parts,
        None => (text, ""),
    }
}

// A guest's session, and its desk.
#[derive(Drop)]
struct Guest<'h, J: HallName> {
    session: Session,
    seat: Seat<'h, J>,
}

// Begins a guest's session.
fn greet<'h, J: HallName, R: Wait + AllocGlobal>(
    rt: &R,
    alloc: Global,
    hall: &'h Hall<J>,
) -> Result<Guest<'h, J>, Fail> {
    let desk = hall.desk(rt)?;
    Ok(Guest {
        session: Session::new(alloc, true)?,
        seat: Seat::new(hall, desk, 0),
    })
}

// Types a line of a guest. For an empty line the guest types nothing, and the session looks for changes of others.
fn type_line<J: HallName, R: Threads + Wait + AllocGlobal + Sync>(
    rt: &R,
    alloc: Global,
    guest: &mut Guest<'_, J>,
    line: &str,
) -> Result<Result<(), SessionFault>, AllocError> {
    let (session, seat) = (&mut guest.session, &mut guest.seat);
    if line.is_empty() {
        return Ok(session.nudge(seat));
    }
    let line = [line, "\r\n"].as_slice().join(alloc, "")?;
    Ok(session.feed(rt, seat, line.as_bytes()))
}

// Appends the output for a guest's line.
fn push_typed<J: HallName, R: Threads + Wait + AllocGlobal + Sync>(
    rt: &R,
    alloc: Global,
    guest: &mut Guest<'_, J>,
    line: &str,
    out: &mut String,
) -> Result<(), AllocError> {
    match type_line(rt, alloc, guest, line)? {
        Err(SessionFault::Ended) => out.push_str("the session has ended"),
        _ => push_sent(alloc, &guest.session.take_out(), out),
    }
}

// Rejects a session that sends its guest no notices, sends them late, twice or after its reply, greets twice or not at
// all, or continues after `quit`.
const GUESTS: &str = "
1 => Welcome. Type: connect NAME;
2 => Welcome. Type: connect NAME;
1 connect Wizard => [0] welcome #1;
2 connect Bob => [1] welcome #2;
1 \"hi => (1) Bob arrives.;[2] said;
2 => (2) Wizard says, \"hi\";
2 => 
1 => 
2 quit => [2] bye;
2 look => the session has ended
2 => the session has ended
1 @version => [2] version;
";

// Checks the row `GUEST LINE => TEXT`.
fn check_row<'h, J: HallName, R: Threads + Wait + AllocGlobal + Sync + Abort>(
    rt: &R,
    alloc: Global,
    first: &mut Guest<'h, J>,
    second: &mut Guest<'h, J>,
    row: &str,
    found: &mut String,
) -> Result<(), AllocError> {
    if let Some((asked, wanted)) = row.split_once(" => ") {
        let (who, line) = split_word(asked);
        let guest = if who == "1" { first } else { second };
        found.clear();
        push_typed(rt, alloc, guest, line, found)?;
        same(rt, asked, found.as_str(), wanted);
    }
    Ok(())
}

// Checks all rows.
fn check_guests<'h, J: HallName, R: Threads + Wait + AllocGlobal + Sync + Abort>(
    rt: &R,
    alloc: Global,
    first: &mut Guest<'h, J>,
    second: &mut Guest<'h, J>,
) -> Result<(), AllocError> {
    let mut found = String::new(alloc);
    for row in GUESTS.split('\n') {
        check_row(rt, alloc, first, second, row, &mut found)?;
    }
    Ok(())
}

// Checks the rows for two guests of a hall.
fn play_at<J: HallName, R: Threads + Wait + AllocGlobal + Sync + Abort>(
    rt: &R,
    alloc: Global,
    hall: &Hall<J>,
) -> Result<(), Fail> {
    let mut first = greet(rt, alloc, hall)?;
    let mut second = greet(rt, alloc, hall)?;
    Ok(check_guests(rt, alloc, &mut first, &mut second)?)
}

// Checks the rows for two guests of a new hall.
fn play<J: HallName, R: Threads + Wait + AllocGlobal + Sync + Abort>(
    rt: &R,
    alloc: Global,
    hall: NewHall,
) -> Result<(), Fail>
    requires cells { hall.cells ≡ J.cells }
    requires loaded { hall.loaded ≡ J.loaded }
{
    play_at(rt, alloc, &hall.with_name::<J>())
}

#[test]
fn guests_at_one_hall(rt: HostRuntime) -> Result<(), Fail> {
    let hall = NewHall::open(rt.alloc(), 16)?;
    play::<Brand, _>(&rt, rt.alloc(), hall)
}

// Returns a desk; one allocation may fail.
fn desk<J: HallName, R: Wait + AllocGlobal>(rt: &R, hall: &Hall<J>) -> Result<Desk<J>, Fault> {
    match hall.desk(rt) {
        Ok(desk) => Ok(desk),
        Err(_) => hall.desk(rt),
    }
}

// Acts on a line; one allocation may fail.
fn act_twice<J: HallName, R: Wait + AllocGlobal>(
    rt: &R,
    hall: &Hall<J>,
    desk: &mut Desk<J>,
    line: &str,
) {
    if act(rt, hall, desk, line).is_err() {
        let _ = act(rt, hall, desk, line);
    }
}

// Makes the changes of the wizard that Bob hears.
fn act_all<J: HallName, R: Wait + AllocGlobal>(
    rt: &R,
    hall: &Hall<J>,
    wizard: &mut Desk<J>,
    bob: &mut Desk<J>,
) {
    act_twice(rt, hall, wizard, "connect wizard");
    act_twice(rt, hall, bob, "connect Bob");
    act_twice(rt, hall, wizard, "say hi");
    act_twice(rt, hall, wizard, ":waves.");
    act_twice(rt, hall, wizard, "say ho");
}

// Returns whether the output is each line once, in order. If an allocation of the session itself fails, it ends after a
// prefix of them.
fn is_each_once(sent: &[u8], ended: bool) -> bool {
    HEARD.as_bytes().starts_with(sent) && (ended || sent.len() == HEARD.len())
}

// Returns the output of two looks of a guest who has not looked before, if it is correct.
fn hears_each_once<J: HallName>(
    alloc: Global,
    hall: &Hall<J>,
    desk: Desk<J>,
) -> Result<bool, AllocError> {
    let mut seat = Seat::new(hall, desk, 0);
    let mut session = Session::new(alloc, false)?;
    let _ = session.nudge(&mut seat);
    let _ = session.nudge(&mut seat);
    let ended = session.ended();
    Ok(is_each_once(&session.take_out(), ended))
}

// Returns whether Bob hears the wizard's changes in this way.
fn is_told_once<J: HallName, R: Threads + Wait + AllocGlobal + Sync>(
    rt: &R,
    alloc: Global,
    hall: &Hall<J>,
) -> Result<bool, Fault> {
    let mut wizard = desk(rt, hall)?;
    let mut bob = desk(rt, hall)?;
    act_all(rt, hall, &mut wizard, &mut bob);
    Ok(hears_each_once(alloc, hall, bob)?)
}

// Returns whether Bob hears the wizard's changes in this way in a new hall.
fn is_told_once_in<J: HallName, R: Threads + Wait + AllocGlobal + Sync>(
    rt: &R,
    alloc: Global,
    hall: NewHall,
) -> Result<bool, Fault>
    requires cells { hall.cells ≡ J.cells }
    requires loaded { hall.loaded ≡ J.loaded }
{
    is_told_once(rt, alloc, &hall.with_name::<J>())
}

const HEARD: &str = "(2) Wizard says, \"hi\"\r\n(3) Wizard waves.\r\n(4) Wizard says, \"ho\"\r\n";

// Returns a hall; one allocation may fail.
fn hall(alloc: Global) -> Result<NewHall, AllocError> {
    match NewHall::open(alloc, 16) {
        Ok(hall) => Ok(hall),
        Err(_) => NewHall::open(alloc, 16),
    }
}

// A look for which an allocation failed loses no line and repeats none. The gate runs this test once for each
// allocation, and makes that one fail.
#[test]
fn each_line_is_told_once(rt: HostRuntime) -> Result<(), Fail> {
    let hall = hall(rt.alloc())?;
    assert!(rt; is_told_once_in::<Brand, _>(&rt, rt.alloc(), hall)?);
    Ok(())
}
