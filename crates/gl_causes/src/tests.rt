ghost use Rattle.std.specs.Prelude.{◌<◌};
ghost use Rattle.gl_model.specs.Elements.{IsActInRange};
ghost use Rattle.gl_model.specs.Entries.{seen};
ghost use Rattle.gl_model.specs.Kept.{IsEntryInRange};
ghost use Rattle.gl_model.specs.declared.limits.TheConstants.{THREADS};

use crate::leading::last_known;
use crate::owned_at;
use crate::races::{Asked, find};
use crate::refusals::Refusal;
use crate::stands::stands_of;
use gl_model::{Act, Entry, Record};
use gl_places::Place;
use std::alloc::AllocError;
use std::test::Fail;

fn add(made: &mut Record, thread: u8, entry: Entry) -> Result<(), AllocError>
    requires thread { thread < THREADS }
    requires entry { IsEntryInRange (seen entry) }
{
    match made.push(thread, entry) {
        Ok(()) => Ok(()),
        Err(_) => Err(AllocError),
    }
}

fn act(made: &mut Record, thread: u8, at: u64, act: Act) -> Result<(), AllocError>
    requires thread { thread < THREADS }
    requires act { IsActInRange act }
{
    add(made, thread, Entry::Sync { at, act, value: 0 })
}

// A performed access of variable 7 by thread 0.
fn access(made: &mut Record, nth: u64, write: bool, cached: bool) -> Result<(), AllocError> {
    let entry = Entry::Plain {
        var: 7,
        nth,
        cached,
        write,
        value: 0,
        raised: false,
    };
    add(made, 0, entry)
}

// A refused access of variable 7.
fn refused(made: &mut Record, thread: u8, nth: u64, write: bool) -> Result<(), AllocError>
    requires thread { thread < THREADS }
{
    let entry = Entry::Plain {
        var: 7,
        nth,
        cached: false,
        write,
        value: 0,
        raised: true,
    };
    add(made, thread, entry)
}

// Thread 0 forks thread 1, writes, forks thread 2, reads twice and writes; what threads 1 and 2 do then is refused.
fn add_accesses(made: &mut Record) -> Result<(), AllocError> {
    act(made, 0, 0, Act::Begin(0))?;
    act(made, 0, 1, Act::Fork { child: 1, func: 1 })?;
    access(made, 0, true, false)?;
    act(made, 0, 2, Act::Fork { child: 2, func: 2 })?;
    access(made, 1, false, false)?;
    access(made, 1, false, true)?;
    access(made, 2, true, false)?;
    act(made, 1, 3, Act::Begin(1))?;
    refused(made, 1, 3, false)?;
    act(made, 2, 4, Act::Begin(2))?;
    refused(made, 2, 4, true)
}

// Thread 2 knows of thread 0 what it did before the event at 2, that is below 3, and nothing of thread 1. So its write races with the
// read and with the last write, of which the write has the greater number, and not with the repeat of the read, the first write or the
// refused read.
#[test]
fn the_last_access_is_found(rt: HostRuntime) -> Result<(), Fail> {
    let alloc = rt.alloc();
    let mut made = Record::empty(alloc);
    add_accesses(&mut made)?;
    let stands = stands_of(alloc, &made)?;
    let asked = Asked {
        thread: 2,
        refusal: Refusal {
            var: 7,
            nth: 4,
            plain: true,
            write: true,
        },
        known: [3, 0, 6, 0, 0, 0, 0, 0, 0, 0, 0, 0, 0, 0, 0, 0],
    };
    let found = find(&stands, &asked);
    let last = found.last.ok_or("nothing was found")?;
    assert_eq!(rt;
        last.place,
        Place {
            thread: 0,
            index: 6
        }
    );
    assert_eq!(rt; last.nth, 2);
    assert_eq!(rt; found.count, 2);
    Ok(())
}

// Thread 0 forks thread 1 by its entry at place 1, which is the event at 1, and thread 2 by that at place 3, the event at 2. So thread 1
// knows of it what comes before 2, and thread 2 what comes before 3; thread 2 knows nothing of thread 1. The accesses behind the fork of
// thread 2 lead nowhere.
#[test]
fn the_last_event_that_is_known_is_found(rt: HostRuntime) -> Result<(), Fail> {
    let alloc = rt.alloc();
    let mut made = Record::empty(alloc);
    add_accesses(&mut made)?;
    let to_first = Place {
        thread: 0,
        index: 1,
    };
    let to_second = Place {
        thread: 0,
        index: 3,
    };
    assert_eq!(rt; last_known(&made, 0, 2), Some(to_first));
    assert_eq!(rt; last_known(&made, 0, 3), Some(to_second));
    assert_eq!(rt; last_known(&made, 1, 0), None);
    assert_eq!(rt; last_known(&made, 3, 0), None);
    Ok(())
}

// Monitor 3 is entered twice and left once before place 5, and left again there; monitor 1 is entered once.
#[test]
fn monitors_are_owned_until_they_are_left(rt: HostRuntime) -> Result<(), Fail> {
    let alloc = rt.alloc();
    let mut made = Record::empty(alloc);
    act(&mut made, 0, 0, Act::Begin(0))?;
    act(&mut made, 0, 1, Act::Acq(3))?;
    act(&mut made, 0, 2, Act::Acq(3))?;
    act(&mut made, 0, 3, Act::Acq(1))?;
    act(&mut made, 0, 4, Act::Rel(3))?;
    act(&mut made, 0, 5, Act::Rel(3))?;
    let twice = owned_at(
        alloc,
        &made,
        Place {
            thread: 0,
            index: 5,
        },
    )?;
    assert_eq!(rt; twice.len(), 2);
    assert_eq!(rt; twice.first(), Some(&1));
    assert_eq!(rt; twice.last(), Some(&3));
    let once = owned_at(
        alloc,
        &made,
        Place {
            thread: 0,
            index: 6,
        },
    )?;
    assert_eq!(rt; once.len(), 1);
    assert_eq!(rt; once.first(), Some(&1));
    Ok(())
}
