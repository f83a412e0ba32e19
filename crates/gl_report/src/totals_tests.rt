ghost use Rattle.std.specs.Prelude.{◌<◌};
ghost use Rattle.gl_model.specs.Entries.{seen};
ghost use Rattle.gl_model.specs.Kept.{IsEntryInRange};
ghost use Rattle.gl_model.specs.declared.limits.TheConstants.{THREADS};

use crate::summary;
use gl_model::{Act, Ending, Entry, Looks, Numbers, Pairs, Record, Tx, Why};
use std::alloc::{AllocError, Global};
use std::test::Fail;

fn add(made: &mut Record, thread: u8, entry: Entry) -> Result<(), AllocError>
    requires thread { thread < THREADS }
    requires entry { IsEntryInRange (seen entry) }
{
    match made.push(thread, entry) {
        Ok(()) => Ok(()),
        Err(_) => Err(AllocError),
    }
}

// An attempt that looks at nothing and writes nothing.
fn attempt(alloc: Global) -> Result<Box<Tx>, AllocError> {
    let tx = Tx {
        looks: Looks::empty(),
        writes: Pairs::empty(),
        numbers: Numbers::empty(),
    };
    Ok(Box::new(alloc, tx)?)
}

fn print(made: &mut Record, thread: u8, at: u64, value: i64) -> Result<(), AllocError>
    requires { thread < THREADS }
{
    let act = Act::Print;
    add(made, thread, Entry::Sync { at, act, value })
}

// A print at position 3, a refused read, and a commit.
fn add_thread_0(alloc: Global, made: &mut Record) -> Result<(), AllocError> {
    print(made, 0, 3, -7)?;
    let refused = Entry::Plain {
        var: 2,
        nth: 0,
        cached: false,
        write: false,
        value: 0,
        raised: true,
    };
    add(made, 0, refused)?;
    let tx = attempt(alloc)?;
    add(made, 0, Entry::Commit { at: 2, tx })?;
    add(made, 0, Entry::Over(Ending::Halt))
}

// A print at position 1, an attempt that was dropped for a change, a commit, and an attempt that was refused.
fn add_thread_1(alloc: Global, made: &mut Record) -> Result<(), AllocError> {
    print(made, 1, 1, 40)?;
    let tx = attempt(alloc)?;
    let why = Why::Changed {
        var: 4,
        read: 1,
        found: 2,
    };
    add(made, 1, Entry::Abort { tx, why })?;
    let tx = attempt(alloc)?;
    add(made, 1, Entry::Commit { at: 0, tx })?;
    let tx = attempt(alloc)?;
    let why = Why::Raised { var: 5 };
    add(made, 1, Entry::Abort { tx, why })?;
    add(made, 1, Entry::Over(Ending::Halt))
}

// The last print is the one with the greatest position, whatever its thread.
#[test]
fn summary_of_two_threads(rt: HostRuntime) -> Result<(), Fail> {
    let alloc = rt.alloc();
    let mut made = Record::empty(alloc);
    assert_eq!(rt;
        summary(alloc, &made)?.as_str(),
        "total 0\ncommits 0\nraces 0\n"
    );
    add_thread_0(alloc, &mut made)?;
    add_thread_1(alloc, &mut made)?;
    assert_eq!(rt;
        summary(alloc, &made)?.as_str(),
        "total -7\ncommits 2\nraces 2\n"
    );
    Ok(())
}
