ghost use Rattle.std.specs.Prelude.{◌<◌};
ghost use Rattle.gl_model.specs.declared.limits.TheConstants.{THREADS};

use crate::position_fault;
use gl_model::{Act, Entry, Record};
use gl_places::Place;
use std::alloc::{AllocError, Global};
use std::test::Fail;

fn print(made: &mut Record, thread: u8, at: u64) -> Result<(), AllocError>
    requires { thread < THREADS }
{
    let act = Act::Print;
    match made.push(thread, Entry::Sync { at, act, value: 0 }) {
        Ok(()) => Ok(()),
        Err(_) => Err(AllocError),
    }
}

// Two events of thread 0 and two of thread 1, at these positions.
fn four_events(alloc: Global, first: [u64; 2], second: [u64; 2]) -> Result<Record, AllocError> {
    let mut made = Record::empty(alloc);
    print(&mut made, 0, first[0])?;
    print(&mut made, 0, first[1])?;
    print(&mut made, 1, second[0])?;
    print(&mut made, 1, second[1])?;
    Ok(made)
}

fn at(thread: u8, index: u64) -> Option<Place> {
    Some(Place { thread, index })
}

// A position that is used twice fails at its second use, by thread and then by place; one that is not below the count of events fails
// where it stands, though a lower one is used twice later.
#[test]
fn positions_that_fail(rt: HostRuntime) -> Result<(), Fail> {
    let alloc = rt.alloc();
    assert!(rt; position_fault(alloc, &Record::empty(alloc))?.is_none());
    let listed = four_events(alloc, [1, 2], [0, 3])?;
    assert!(rt; position_fault(alloc, &listed)?.is_none());
    let twice = four_events(alloc, [0, 2], [2, 3])?;
    assert!(rt; position_fault(alloc, &twice)? == at(1, 0));
    let large = four_events(alloc, [0, 4], [0, 1])?;
    assert!(rt; position_fault(alloc, &large)? == at(0, 1));
    let later = four_events(alloc, [0, 1], [3, 1])?;
    assert!(rt; position_fault(alloc, &later)? == at(1, 1));
    Ok(())
}
