//! A replica that follows a row although no memory is left.

ghost use Rattle.std.specs.Prelude.{◌≡◌};

use crate::village::entry;
use mud_chron::ChronFault;
use mud_row::{Replica, Row};
use std::alloc::Global;
use std::boxed::Box;
use std::process::Abort;
use std::test::Fail;

// Makes a replica publish a change without applying it.
fn say(alloc: Global, row: &Row, replica: &mut Replica, change: &str) -> Result<(), ChronFault>
    requires { replica.old.row ≡ row.now }
    ensures { replica.new.row ≡ row.now }
{
    let entry = Box::new(alloc, entry(alloc, change)?)?;
    let _ = replica.publish(row, entry);
    Ok(())
}

// Checks that a replica that knows three entries applies them, and then nothing new.
fn catch_up(rt: &impl Abort, row: &Row, replica: &mut Replica)
    requires { replica.old.row ≡ row.now }
{
    assert!(rt; replica.catch_up(row).is_ok());
    assert!(rt; replica.catch_up(row).is_ok());
    assert!(rt; replica.at() == 3 && replica.known() == 3);
}

// Makes the wizard say three things.
fn say_three(alloc: Global, row: &Row, replica: &mut Replica) -> Result<(), ChronFault>
    requires { replica.old.row ≡ row.now }
    ensures { replica.new.row ≡ row.now }
{
    say(alloc, row, replica, "say #1 a")?;
    say(alloc, row, replica, "say #1 b")?;
    say(alloc, row, replica, "say #1 c")
}

// Makes a replica apply three says.
fn says(rt: &impl Abort, alloc: Global) -> Result<(), ChronFault> {
    let row = Row::new(alloc, 4)?;
    let mut replica = Replica::new(alloc, &row)?;
    say_three(alloc, &row, &mut replica)?;
    catch_up(rt, &row, &mut replica);
    Ok(())
}

// A say does not change the world, so applying it does not allocate. The gate runs this test once for each allocation,
// and makes that one fail.
#[test]
fn says_are_taken_in_without_memory(rt: HostRuntime) -> Result<(), Fail> {
    if says(&rt, rt.alloc()).is_err() {
        says(&rt, rt.alloc())?;
    }
    Ok(())
}
