ghost use Rattle.std.specs.Prelude.{◌<◌};
ghost use Rattle.gl_model.specs.Elements.{IsActInRange};
ghost use Rattle.gl_model.specs.Entries.{seen};
ghost use Rattle.gl_model.specs.Kept.{IsEntryInRange};
ghost use Rattle.gl_model.specs.declared.limits.TheConstants.{THREADS};

use crate::looks::look_fault;
use crate::word_fault;
use gl_form::form_fault;
use gl_listing::position_fault;
use gl_model::{Act, Ending, Entry, Look, Looks, Number, Numbers, Pairs, Record, Tx, Why};
use gl_places::Place;
use std::alloc::{AllocError, Global};
use std::test::Fail;

fn add(made: &mut Record, thread: u8, entry: Entry) -> Result<(), AllocError>
    requires thread { thread < THREADS }
    requires entry { IsEntryInRange (seen entry) }
{
    match made.push(thread, entry) {
        Ok(()) => Ok(()),
        Err(_) => Err(AllocError),
    }
}

// A plain write of variable 0 by thread 0.
fn write(
    made: &mut Record,
    nth: u64,
    cached: bool,
    value: i64,
    raised: bool,
) -> Result<(), AllocError> {
    let entry = Entry::Plain {
        var: 0,
        nth,
        cached,
        write: true,
        value,
        raised,
    };
    add(made, 0, entry)
}

// An attempt that looked at variable 0, and whose end drew a number on it.
fn attempt(alloc: Global, value: i64, nth: u64, end: u64) -> Result<Box<Tx>, AllocError> {
    let mut looks = Looks::empty();
    let mut numbers = Numbers::empty();
    if looks.put(Look { var: 0, value, nth }).is_err() {
        return Err(AllocError);
    }
    if numbers.put(Number { var: 0, nth: end }).is_err() {
        return Err(AllocError);
    }
    let tx = Tx {
        looks,
        writes: Pairs::empty(),
        numbers,
    };
    Ok(Box::new(alloc, tx)?)
}

// Thread 0 writes 5 and again 7 with the number 0, and is refused the write of 9 with the number 2; thread 1 looks.
fn written(alloc: Global) -> Result<Record, AllocError> {
    let mut made = Record::empty(alloc);
    write(&mut made, 0, false, 5, false)?;
    write(&mut made, 0, true, 7, false)?;
    write(&mut made, 2, false, 9, true)?;
    Ok(made)
}

fn with_commit(alloc: Global, value: i64, nth: u64) -> Result<Option<Place>, AllocError> {
    let mut made = written(alloc)?;
    let tx = attempt(alloc, value, nth, 4)?;
    add(&mut made, 1, Entry::Commit { at: 0, tx })?;
    look_fault(alloc, &made)
}

fn with_change(alloc: Global, found: i64, end: u64) -> Result<Option<Place>, AllocError> {
    let mut made = written(alloc)?;
    let tx = attempt(alloc, 0, 0, end)?;
    let why = Why::Changed {
        var: 0,
        read: 0,
        found,
    };
    add(&mut made, 1, Entry::Abort { tx, why })?;
    look_fault(alloc, &made)
}

const SECOND: Option<Place> = Some(Place {
    thread: 1,
    index: 0,
});

// A look has a value that was written with the greatest number below its own, by a repeat too, or 0 where there is none.
#[test]
fn looks_that_fail(rt: HostRuntime) -> Result<(), Fail> {
    let alloc = rt.alloc();
    assert!(rt; look_fault(alloc, &written(alloc)?)?.is_none());
    assert!(rt; with_commit(alloc, 5, 1)?.is_none());
    assert!(rt; with_commit(alloc, 7, 1)?.is_none());
    assert!(rt; with_commit(alloc, 7, 3)?.is_none());
    assert!(rt; with_commit(alloc, 9, 3)? == SECOND);
    assert!(rt; with_commit(alloc, 0, 1)? == SECOND);
    assert!(rt; with_commit(alloc, 0, 0)?.is_none());
    assert!(rt; with_commit(alloc, 7, 0)? == SECOND);
    Ok(())
}

// So has what a changed attempt found, by the number that its end drew.
#[test]
fn changes_that_fail(rt: HostRuntime) -> Result<(), Fail> {
    let alloc = rt.alloc();
    assert!(rt; with_change(alloc, 5, 1)?.is_none());
    assert!(rt; with_change(alloc, 7, 1)?.is_none());
    assert!(rt; with_change(alloc, 9, 3)? == SECOND);
    assert!(rt; with_change(alloc, 6, 1)? == SECOND);
    Ok(())
}

fn act(made: &mut Record, thread: u8, at: u64, act: Act) -> Result<(), AllocError>
    requires thread { thread < THREADS }
    requires act { IsActInRange act }
{
    add(made, thread, Entry::Sync { at, act, value: 0 })
}

// A plain read of variable 0.
fn read(made: &mut Record, thread: u8, nth: u64, value: i64) -> Result<(), AllocError>
    requires { thread < THREADS }
{
    let entry = Entry::Plain {
        var: 0,
        nth,
        cached: false,
        write: false,
        value,
        raised: false,
    };
    add(made, thread, entry)
}

// Thread 0 writes 5 and forks thread 1, which reads; thread 0 joins it, and then reads too.
fn two_reads(alloc: Global, first: i64, second: i64) -> Result<Record, AllocError> {
    let mut made = Record::empty(alloc);
    act(&mut made, 0, 0, Act::Begin(0))?;
    write(&mut made, 0, false, 5, false)?;
    act(&mut made, 0, 1, Act::Fork { child: 1, func: 0 })?;
    act(&mut made, 0, 4, Act::Join(1))?;
    read(&mut made, 0, 2, second)?;
    act(&mut made, 0, 5, Act::End)?;
    add(&mut made, 0, Entry::Over(Ending::Halt))?;
    act(&mut made, 1, 2, Act::Begin(0))?;
    read(&mut made, 1, 1, first)?;
    act(&mut made, 1, 3, Act::End)?;
    add(&mut made, 1, Entry::Over(Ending::Halt))?;
    Ok(made)
}

// The first wrong word of a record, or none where it is not well-formed or not listed.
fn fault(alloc: Global, made: &Record) -> Result<Option<Option<Place>>, AllocError> {
    if let Some(_) = form_fault(alloc, made)? {
        return Ok(None);
    }
    if let Some(_) = position_fault(alloc, made)? {
        return Ok(None);
    }
    Ok(Some(word_fault(alloc, made)?))
}

fn at(thread: u8, index: u64) -> Option<Option<Place>> {
    Some(Some(Place { thread, index }))
}

// Of two wrong reads that is the first which comes first along the flat history, whatever their threads.
#[test]
fn reads_that_fail(rt: HostRuntime) -> Result<(), Fail> {
    let alloc = rt.alloc();
    assert!(rt; fault(alloc, &two_reads(alloc, 5, 5)?)? == Some(None));
    assert!(rt; fault(alloc, &two_reads(alloc, 6, 5)?)? == at(1, 1));
    assert!(rt; fault(alloc, &two_reads(alloc, 6, 6)?)? == at(1, 1));
    assert!(rt; fault(alloc, &two_reads(alloc, 5, 6)?)? == at(0, 4));
    Ok(())
}
