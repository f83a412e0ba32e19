ghost use Rattle.std.specs.Prelude.{◌<◌};
ghost use Rattle.gl_model.specs.Elements.{IsActInRange};
ghost use Rattle.gl_model.specs.Entries.{seen};
ghost use Rattle.gl_model.specs.Kept.{IsEntryInRange, IsWhyKept};
ghost use Rattle.gl_model.specs.declared.limits.TheConstants.{THREADS, VARIABLES};

use crate::form_fault;
use gl_model::{
    Act, Ending, Entry, Look, Looks, Number, Numbers, Pair, Pairs, Record, THREADS, Tx, VARIABLES,
    Why,
};
use gl_places::Place;
use std::alloc::{AllocError, Global};
use std::test::Fail;

fn add(made: &mut Record, thread: u8, entry: Entry) -> Result<(), AllocError>
    requires thread { thread < THREADS }
    requires entry { IsEntryInRange (seen entry) }
{
    match made.push(thread, entry) {
        Ok(()) => Ok(()),
        Err(_) => Err(AllocError),
    }
}

fn act(made: &mut Record, thread: u8, at: u64, act: Act, value: i64) -> Result<(), AllocError>
    requires thread { thread < THREADS }
    requires act { IsActInRange act }
{
    add(made, thread, Entry::Sync { at, act, value })
}

// An access of variable 3 by thread 0 that is performed.
fn access(made: &mut Record, nth: u64, cached: bool, write: bool) -> Result<(), AllocError> {
    let access = Entry::Plain {
        var: 3,
        nth,
        cached,
        write,
        value: 8,
        raised: false,
    };
    add(made, 0, access)
}

// An access of variable 3 by thread 0 that is raised.
fn refused(made: &mut Record, cached: bool, write: bool, value: i64) -> Result<(), AllocError> {
    let access = Entry::Plain {
        var: 3,
        nth: 6,
        cached,
        write,
        value,
        raised: true,
    };
    add(made, 0, access)
}

fn trim(made: &mut Record, low: u64) -> Result<(), AllocError> {
    add(made, 0, Entry::Trim { low })
}

// A record in which thread 0 has begun.
fn begun(alloc: Global) -> Result<Record, AllocError> {
    let mut made = Record::empty(alloc);
    act(&mut made, 0, 0, Act::Begin(0), 0)?;
    Ok(made)
}

// Thread 0's list, ended at position 90.
fn end(made: &mut Record) -> Result<(), AllocError> {
    act(made, 0, 90, Act::End, 0)?;
    add(made, 0, Entry::Over(Ending::Halt))
}

// The first place that fails, once thread 0 has ended.
fn fault(alloc: Global, mut made: Record) -> Result<Option<Place>, AllocError> {
    end(&mut made)?;
    form_fault(alloc, &made)
}

fn place(index: u64) -> Option<Place> {
    Some(Place { thread: 0, index })
}

// An attempt that read 5 at variable 2 with this number, wrote a variable, and drew a number of its own.
fn attempt(alloc: Global, look: u64, written: u16, own: Number) -> Result<Box<Tx>, AllocError>
    requires written { written < VARIABLES }
    requires own { own.var < VARIABLES }
{
    let mut looks = Looks::empty();
    let _ = looks.put(Look {
        var: 2,
        value: 5,
        nth: look,
    });
    let mut writes = Pairs::empty();
    let _ = writes.put(Pair {
        var: written,
        value: 1,
    });
    let mut numbers = Numbers::empty();
    let _ = numbers.put(own);
    let tx = Tx {
        looks,
        writes,
        numbers,
    };
    Ok(Box::new(alloc, tx)?)
}

// The first place that fails where thread 0 begins, commits this, and ends.
fn commit_fault(
    alloc: Global,
    look: u64,
    written: u16,
    own: Number,
) -> Result<Option<Place>, AllocError>
    requires written { written < VARIABLES }
    requires own { own.var < VARIABLES }
{
    let mut made = begun(alloc)?;
    let tx = attempt(alloc, look, written, own)?;
    add(&mut made, 0, Entry::Commit { at: 1, tx })?;
    fault(alloc, made)
}

// The same where it drops an attempt that wrote variable 2.
fn abort_fault(alloc: Global, own: Number, why: Why) -> Result<Option<Place>, AllocError>
    requires own { own.var < VARIABLES }
    requires why { IsWhyKept why }
{
    let mut made = begun(alloc)?;
    let tx = attempt(alloc, 3, 2, own)?;
    add(&mut made, 0, Entry::Abort { tx, why })?;
    fault(alloc, made)
}

#[test]
fn thread_0_is_there(rt: HostRuntime) -> Result<(), Fail> {
    let alloc = rt.alloc();
    let mut made = Record::empty(alloc);
    assert_eq!(rt; form_fault(alloc, &made)?, place(0));
    act(&mut made, 1, 0, Act::Begin(0), 4)?;
    act(&mut made, 1, 1, Act::End, 0)?;
    add(&mut made, 1, Entry::Over(Ending::Halt))?;
    assert_eq!(rt; form_fault(alloc, &made)?, place(0));
    Ok(())
}

#[test]
fn a_list_begins(rt: HostRuntime) -> Result<(), Fail> {
    let alloc = rt.alloc();
    let mut made = Record::empty(alloc);
    trim(&mut made, 0)?;
    act(&mut made, 0, 0, Act::Print, 5)?;
    act(&mut made, 0, 1, Act::Begin(0), 0)?;
    assert_eq!(rt; fault(alloc, made)?, place(1));
    Ok(())
}

#[test]
fn positions_and_lows_rise(rt: HostRuntime) -> Result<(), Fail> {
    let alloc = rt.alloc();
    let mut made = begun(alloc)?;
    act(&mut made, 0, 7, Act::Print, 5)?;
    access(&mut made, 0, false, false)?;
    act(&mut made, 0, 7, Act::Print, 5)?;
    assert_eq!(rt; fault(alloc, made)?, place(3));
    let mut made = begun(alloc)?;
    trim(&mut made, 3)?;
    access(&mut made, 0, false, false)?;
    trim(&mut made, 3)?;
    assert_eq!(rt; fault(alloc, made)?, place(3));
    Ok(())
}

#[test]
fn numbers_rise(rt: HostRuntime) -> Result<(), Fail> {
    let alloc = rt.alloc();
    let mut made = begun(alloc)?;
    access(&mut made, 4, false, false)?;
    act(&mut made, 0, 7, Act::Print, 5)?;
    access(&mut made, 4, false, false)?;
    assert_eq!(rt; fault(alloc, made)?, place(3));
    let own = Number { var: 2, nth: 4 };
    assert_eq!(rt; commit_fault(alloc, 3, 2, own)?, None);
    assert_eq!(rt; commit_fault(alloc, 4, 2, own)?, place(1));
    Ok(())
}

#[test]
fn values_are_0(rt: HostRuntime) -> Result<(), Fail> {
    let alloc = rt.alloc();
    let mut made = begun(alloc)?;
    act(&mut made, 0, 7, Act::Fail(11), 9)?;
    act(&mut made, 0, 8, Act::Fail(7), 9)?;
    assert_eq!(rt; fault(alloc, made)?, place(2));
    let mut made = begun(alloc)?;
    refused(&mut made, false, true, 8)?;
    act(&mut made, 0, 8, Act::Acq(1), 9)?;
    assert_eq!(rt; fault(alloc, made)?, place(2));
    Ok(())
}

#[test]
fn raised_entries(rt: HostRuntime) -> Result<(), Fail> {
    let alloc = rt.alloc();
    let mut made = begun(alloc)?;
    refused(&mut made, true, true, 8)?;
    assert_eq!(rt; fault(alloc, made)?, place(1));
    let mut made = begun(alloc)?;
    refused(&mut made, false, false, 8)?;
    assert_eq!(rt; fault(alloc, made)?, place(1));
    Ok(())
}

#[test]
fn over_follows_end(rt: HostRuntime) -> Result<(), Fail> {
    let alloc = rt.alloc();
    let mut made = begun(alloc)?;
    act(&mut made, 0, 7, Act::End, 0)?;
    act(&mut made, 0, 8, Act::Print, 5)?;
    assert_eq!(rt; fault(alloc, made)?, place(2));
    let mut made = begun(alloc)?;
    add(&mut made, 0, Entry::Over(Ending::Spent))?;
    assert_eq!(rt; fault(alloc, made)?, place(1));
    let mut made = begun(alloc)?;
    act(&mut made, 0, 7, Act::End, 0)?;
    assert_eq!(rt; form_fault(alloc, &made)?, place(2));
    add(&mut made, 0, Entry::Over(Ending::Spent))?;
    assert_eq!(rt; form_fault(alloc, &made)?, None);
    trim(&mut made, 0)?;
    assert_eq!(rt; form_fault(alloc, &made)?, place(3));
    Ok(())
}

#[test]
fn cached_entries_have_a_right(rt: HostRuntime) -> Result<(), Fail> {
    let alloc = rt.alloc();
    let mut made = begun(alloc)?;
    access(&mut made, 2, false, true)?;
    trim(&mut made, 0)?;
    access(&mut made, 2, true, true)?;
    access(&mut made, 4, false, false)?;
    access(&mut made, 4, true, false)?;
    access(&mut made, 2, true, false)?;
    assert_eq!(rt; fault(alloc, made)?, place(6));
    let mut made = begun(alloc)?;
    access(&mut made, 2, false, false)?;
    access(&mut made, 2, true, true)?;
    assert_eq!(rt; fault(alloc, made)?, place(2));
    let mut made = begun(alloc)?;
    access(&mut made, 2, false, true)?;
    act(&mut made, 0, 8, Act::Print, 5)?;
    access(&mut made, 2, true, false)?;
    assert_eq!(rt; fault(alloc, made)?, place(3));
    Ok(())
}

#[test]
fn numbers_name_the_variables(rt: HostRuntime) -> Result<(), Fail> {
    let alloc = rt.alloc();
    let own = Number { var: 2, nth: 4 };
    let other = Number { var: 3, nth: 4 };
    let raised = Why::Raised { var: 2 };
    assert_eq!(rt; commit_fault(alloc, 3, 3, own)?, place(1));
    assert_eq!(rt; commit_fault(alloc, 3, 2, other)?, place(1));
    assert_eq!(rt; abort_fault(alloc, own, raised)?, None);
    assert_eq!(rt; abort_fault(alloc, other, raised)?, place(1));
    Ok(())
}

#[test]
fn changed_variables(rt: HostRuntime) -> Result<(), Fail> {
    let alloc = rt.alloc();
    let own = Number { var: 2, nth: 4 };
    let other = Number { var: 3, nth: 4 };
    let good = Why::Changed {
        var: 2,
        read: 5,
        found: 6,
    };
    assert_eq!(rt; abort_fault(alloc, own, good)?, None);
    assert_eq!(rt; abort_fault(alloc, other, good)?, place(1));
    let unlooked = Why::Changed {
        var: 3,
        read: 5,
        found: 6,
    };
    assert_eq!(rt; abort_fault(alloc, other, unlooked)?, place(1));
    let unread = Why::Changed {
        var: 2,
        read: 4,
        found: 6,
    };
    assert_eq!(rt; abort_fault(alloc, own, unread)?, place(1));
    let same = Why::Changed {
        var: 2,
        read: 5,
        found: 5,
    };
    assert_eq!(rt; abort_fault(alloc, own, same)?, place(1));
    Ok(())
}

#[test]
fn the_least_thread_is_first(rt: HostRuntime) -> Result<(), Fail> {
    let alloc = rt.alloc();
    let mut made = begun(alloc)?;
    act(&mut made, 2, 3, Act::Print, 5)?;
    act(&mut made, 1, 2, Act::Begin(0), 5)?;
    act(&mut made, 1, 4, Act::Print, 5)?;
    let first = Some(Place {
        thread: 1,
        index: 2,
    });
    assert_eq!(rt; fault(alloc, made)?, first);
    Ok(())
}
