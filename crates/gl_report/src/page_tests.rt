ghost use Rattle.std.specs.Prelude.{◌<◌};
ghost use Rattle.gl_model.specs.Elements.{IsActInRange};
ghost use Rattle.gl_model.specs.Entries.{seen};
ghost use Rattle.gl_model.specs.Kept.{IsEntryInRange};
ghost use Rattle.gl_model.specs.declared.limits.TheConstants.{THREADS, VARIABLES};

use crate::report;
use gl_model::{Act, Ending, Entry, Looks, Numbers, Pairs, Record, Tx, Why};
use std::alloc::{AllocError, Global};
use std::test::Fail;

fn add(made: &mut Record, thread: u8, entry: Entry) -> Result<(), AllocError>
    requires thread { thread < THREADS }
    requires entry { IsEntryInRange (seen entry) }
{
    match made.push(thread, entry) {
        Ok(()) => Ok(()),
        Err(_) => Err(AllocError),
    }
}

fn act(made: &mut Record, thread: u8, at: u64, act: Act, value: i64) -> Result<(), AllocError>
    requires thread { thread < THREADS }
    requires act { IsActInRange act }
{
    add(made, thread, Entry::Sync { at, act, value })
}

fn access(
    made: &mut Record,
    thread: u8,
    var: u16,
    write: bool,
    raised: bool,
) -> Result<(), AllocError>
    requires thread { thread < THREADS }
    requires var { var < VARIABLES }
{
    let access = Entry::Plain {
        var,
        nth: 0,
        cached: false,
        write,
        value: 0,
        raised,
    };
    add(made, thread, access)
}

// An attempt that looks at nothing and writes nothing.
fn attempt(alloc: Global) -> Result<Box<Tx>, AllocError> {
    let tx = Tx {
        looks: Looks::empty(),
        writes: Pairs::empty(),
        numbers: Numbers::empty(),
    };
    Ok(Box::new(alloc, tx)?)
}

// Prints at positions 6 and 10, a refused read and a write.
fn add_thread_0(made: &mut Record) -> Result<(), AllocError> {
    act(made, 0, 0, Act::Begin(0), 0)?;
    act(made, 0, 1, Act::Fork { child: 1, func: 1 }, 0)?;
    act(made, 0, 3, Act::Fork { child: 2, func: 2 }, 0)?;
    act(made, 0, 6, Act::Print, 10)?;
    access(made, 0, 3, false, true)?;
    act(made, 0, 10, Act::Print, 11)?;
    access(made, 0, 1, true, false)?;
    act(made, 0, 14, Act::End, 0)?;
    add(made, 0, Entry::Over(Ending::Halt))
}

// Prints at positions 7 and 11, a refused write, a commit and an attempt that was dropped for a change.
fn add_thread_1(alloc: Global, made: &mut Record) -> Result<(), AllocError> {
    act(made, 1, 2, Act::Begin(1), 0)?;
    access(made, 1, 2, true, true)?;
    act(made, 1, 7, Act::Print, -20)?;
    let tx = attempt(alloc)?;
    add(made, 1, Entry::Commit { at: 8, tx })?;
    act(made, 1, 11, Act::Print, 21)?;
    let tx = attempt(alloc)?;
    let why = Why::Changed {
        var: 4,
        read: 1,
        found: 2,
    };
    add(made, 1, Entry::Abort { tx, why })?;
    act(made, 1, 12, Act::End, 0)?;
    add(made, 1, Entry::Over(Ending::Uncaught(100)))
}

// Prints at positions 5 and 9, a refused attempt and then a refused write of a lesser variable.
fn add_thread_2(alloc: Global, made: &mut Record) -> Result<(), AllocError> {
    act(made, 2, 4, Act::Begin(2), 0)?;
    act(made, 2, 5, Act::Print, 30)?;
    let tx = attempt(alloc)?;
    let why = Why::Raised { var: 5 };
    add(made, 2, Entry::Abort { tx, why })?;
    act(made, 2, 9, Act::Print, 31)?;
    access(made, 2, 0, true, true)?;
    act(made, 2, 13, Act::End, 0)?;
    add(made, 2, Entry::Over(Ending::Spent))
}

// The prints come by their positions; the races and the ends by thread, and then by place.
#[test]
fn report_of_three_threads(rt: HostRuntime) -> Result<(), Fail> {
    let alloc = rt.alloc();
    let mut made = Record::empty(alloc);
    add_thread_2(alloc, &mut made)?;
    add_thread_0(&mut made)?;
    add_thread_1(alloc, &mut made)?;
    let text = report(alloc, &made)?;
    assert_eq!(rt;
        text.as_str(),
        "out 30\nout 10\nout -20\nout 31\nout 11\nout 21\n\
         race 0 3 read\nrace 1 2 write\nrace 2 5 commit\nrace 2 0 write\n\
         end 0 halt\nend 1 uncaught 100\nend 2 spent\nraces 4\n"
    );
    Ok(())
}
