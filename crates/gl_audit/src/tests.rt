use crate::{Finding, audit};
use gl_asm::assemble;
use gl_journal::read_record;
use std::alloc::{AllocError, Global};
use std::process::Abort;
use std::test::Fail;

// A change of a record's text: what goes, what stands there then, and what is found: `lawful`, or the thread, the place and the clause.
type Change = (&'static str, &'static str, &'static str);

fn told(alloc: Global, found: Finding) -> Result<String, AllocError> {
    match found {
        Finding::Lawful => String::from_str(alloc, "lawful"),
        Finding::Not {
            thread,
            index,
            clause,
        } => format!(in alloc; "{thread} {index} {clause}"),
    }
}

// What is found of the record of a text, for the program of another.
fn finding(alloc: Global, program: &str, record: &str) -> Result<String, Fail> {
    let bytes = record.as_bytes();
    if bytes.len() > 10_000 {
        return Err(Fail::from("a record is too long"));
    }
    let assembled = assemble(alloc, program.as_bytes())?;
    let (steps, made) = read_record(alloc, bytes, 1)?;
    let found = audit(alloc, &assembled.program, &assembled.inputs, steps, &made)?;
    Ok(told(alloc, found)?)
}

// The record with `new` in place of `old`.
fn changed(alloc: Global, record: &str, old: &str, new: &str) -> Result<String, Fail> {
    let (before, after) = record.split_once(old).ok_or("nothing to change")?;
    Ok(format!(in alloc; "{before}{new}{after}")?)
}

// Of the record this is found.
fn finds(
    rt: &impl Abort,
    alloc: Global,
    program: &str,
    record: &str,
    wanted: &str,
) -> Result<(), Fail> {
    let found = finding(alloc, program, record)?;
    assert_eq!(rt; found.as_str(), wanted, "{record}");
    Ok(())
}

// Of the changed record this is found.
fn finds_changed(
    rt: &impl Abort,
    alloc: Global,
    program: &str,
    record: &str,
    change: Change,
) -> Result<(), Fail> {
    let (old, new, wanted) = change;
    let text = changed(alloc, record, old, new)?;
    finds(rt, alloc, program, &text, wanted)
}

// A program that prints, and the record of its run.
const PRINTS: &str = "func main 0 0
push 5
print
halt
";

const PRINTED: &str = "record 1 3
thread 0
sync 0 begin 0 0
sync 1 print 0 5
sync 2 end 0 0
over halt
done
";

const OF_PRINTED: &[Change] = &[
    // form
    ("over halt\n", "", "0 3 1"),
    (
        "thread 0\nsync 0 begin 0 0\nsync 1 print 0 5\nsync 2 end 0 0\nover halt\n",
        "",
        "0 0 1",
    ),
    ("thread 0", "thread 1", "0 0 1"),
    // positions
    ("sync 2 end", "sync 3 end", "0 2 2"),
    (
        "over halt",
        "over halt\nthread 1\nsync 2 begin 0 0\nsync 4 end 0 0\nover halt",
        "1 0 2",
    ),
    (
        "sync 2 end 0 0\nover halt",
        "sync 5 end 0 0\nover halt\nthread 1\nsync 0 begin 0 0\nsync 2 end 0 0\nover halt",
        "0 2 2",
    ),
    // numbers
    ("sync 1", "plain 5 1 rd 0 own ok\nsync 1", "0 1 3"),
    (
        "sync 1",
        "plain 7 1 rd 0 own ok\nplain 3 1 rd 0 own ok\nsync 1",
        "0 1 3",
    ),
    ("sync 1 print 0 5", "commit 1 r 0:0:0 w - n 0:2", "0 1 3"),
    // the machine
    ("sync 1 print 0 5", "sync 1 rel 0 0", "0 1 4"),
    ("sync 1 print 0 5", "sync 1 input 0 5", "0 1 4"),
    ("sync 1 print 0 5", "sync 1 fail 7 0", "0 1 4"),
    (
        "over halt",
        "over halt\nthread 1\nsync 3 begin 0 0\nsync 4 end 0 0\nover halt",
        "1 0 4",
    ),
    // races: no thread races with itself
    (
        "sync 1",
        "plain 0 0 rd 0 own ok\nplain 0 1 wr 7 own race\nplain 0 0 rd 0 cached ok\nsync 1",
        "0 2 5",
    ),
    // words
    ("sync 1", "plain 0 0 rd 3 own ok\nsync 1", "0 1 6"),
    ("sync 1 print 0 5", "commit 1 r 0:4:0 w - n 0:1", "0 1 6"),
    (
        "sync 1",
        "plain 0 0 wr 3 own ok\nplain 0 0 wr 4 cached ok\nplain 0 0 rd 3 cached ok\nsync 1",
        "0 3 6",
    ),
    // the instructions
    (
        "sync 1",
        "plain 0 0 wr 3 own ok\nplain 0 0 wr 4 cached ok\nplain 0 0 rd 4 cached ok\nsync 1",
        "0 1 7",
    ),
    ("sync 1 print 0 5", "commit 1 r 0:0:0 w - n 0:1", "0 1 7"),
    ("sync 1 print 0 5", "sync 1 fail 8 0", "0 1 7"),
    ("print 0 5", "print 0 6", "0 1 7"),
    (
        "sync 0 begin 0 0\nsync 1 print 0 5",
        "trim 0\nsync 0 begin 0 0\ntrim 1\nsync 1 print 0 5",
        "lawful",
    ),
    (
        "sync 0 begin 0 0\nsync 1 print 0 5",
        "trim 0\nsync 0 begin 0 0\ntrim 1\nsync 1 print 0 6",
        "0 3 7",
    ),
    ("record 1 3", "record 1 2", "0 3 7"),
    ("over halt", "over spent", "0 3 7"),
];

#[test]
fn one_print(rt: HostRuntime) -> Result<(), Fail> {
    finds(&rt, rt.alloc(), PRINTS, PRINTED, "lawful")?;
    for change in OF_PRINTED {
        finds_changed(&rt, rt.alloc(), PRINTS, PRINTED, *change)?;
    }
    Ok(())
}

// A program that takes one input more than it is given, and the record of its run.
const TAKES: &str = "func main 0 0
input
print
input
halt
input 41
";

const TAKEN: &str = "record 1 9
thread 0
sync 0 begin 0 0
sync 1 input 0 41
sync 2 print 0 41
sync 3 fail 8 0
sync 4 end 0 0
over uncaught 8
done
";

const OF_TAKEN: &[Change] = &[
    ("input 0 41", "input 0 40", "0 1 4"),
    ("sync 1 input 0 41", "sync 1 fail 8 0", "0 1 4"),
    ("sync 3 fail 8 0", "sync 3 input 0 41", "0 3 4"),
    ("fail 8 0", "fail 8 1", "0 3 1"),
    ("print 0 41", "print 0 40", "0 2 7"),
    ("over uncaught 8", "over uncaught 1", "0 5 7"),
];

#[test]
fn one_input(rt: HostRuntime) -> Result<(), Fail> {
    finds(&rt, rt.alloc(), TAKES, TAKEN, "lawful")?;
    for change in OF_TAKEN {
        finds_changed(&rt, rt.alloc(), TAKES, TAKEN, *change)?;
    }
    Ok(())
}

// A thread that writes a field once it has forked another, which reads it later: the read is raised.
const RACES: &str = "class C 1 0
func main 0 1
new C
store 0
load 0
fork f
load 0
push 1
put 0
join
halt
func f 1 1
load 0
get 0
print
push 0
ret
";

const RACED: &str = "record 1 9
thread 0
sync 0 begin 0 0
sync 1 alloc 0 1
sync 2 fork 17 1
plain 0 0 wr 1 own ok
sync 5 join 1 0
sync 6 end 0 0
over halt
thread 1
sync 3 begin 1 1
plain 0 1 rd 0 own race
sync 4 end 0 0
over uncaught 1
done
";

const OF_RACED: &[Change] = &[
    // a race that is let pass, an access that is raised and does not race, and one that would race if it were not ordered
    ("rd 0 own race", "rd 1 own ok", "1 1 5"),
    ("wr 1 own ok", "wr 1 own race", "0 3 5"),
    (
        "sync 2 fork 17 1\nplain 0 0 wr 1 own ok",
        "plain 0 0 wr 1 own ok\nsync 2 fork 17 1",
        "1 1 5",
    ),
    // a number that is used twice, and a forked thread that has no list
    ("0 1 rd 0 own race", "0 0 rd 0 own race", "1 1 3"),
    (
        "sync 5 join 1 0\nsync 6 end 0 0\nover halt\nthread 1\nsync 3 begin 1 1\nplain 0 1 rd 0 own race\nsync 4 end 0 0\nover uncaught 1",
        "sync 3 end 0 0\nover halt",
        "0 2 4",
    ),
    (
        "sync 5 join 1 0\nsync 6 end",
        "sync 4 join 1 0\nsync 5 end",
        "1 2 2",
    ),
    ("alloc 0 1", "alloc 0 2", "0 1 4"),
    ("fork 17 1", "fork 18 1", "0 2 4"),
    ("fork 17 1", "fork 1 1", "0 2 4"),
    ("begin 1 1", "begin 1 0", "1 0 4"),
    ("join 1 0", "join 2 0", "0 4 4"),
    ("wr 1 own ok", "wr 2 own ok", "0 3 7"),
    ("record 1 9", "record 1 8", "0 6 7"),
];

#[test]
fn one_race(rt: HostRuntime) -> Result<(), Fail> {
    finds(&rt, rt.alloc(), RACES, RACED, "lawful")?;
    for change in OF_RACED {
        finds_changed(&rt, rt.alloc(), RACES, RACED, *change)?;
    }
    Ok(())
}

// A thread that writes x, commits y and writes z; and one that looks at x and y before the commit, has to begin anew, commits, and is
// refused a commit of z.
const TRIES: &str = "class D 3 0
func main 0 2
new D
store 0
load 0
fork u
store 1
load 0
fork t
join
load 1
join
halt
func u 1 1
load 0
push 2
put 0
txbegin
load 0
push 7
put 1
commit
load 0
push 3
put 2
push 0
ret
func t 1 2
txbegin
load 0
get 0
load 0
get 1
add
store 1
load 0
push 8
put 1
commit
load 1
print
txbegin
load 0
push 9
put 2
commit
push 0
ret
";

const TRIED: &str = "record 1 29
thread 0
sync 0 begin 0 0
sync 1 alloc 0 1
sync 2 fork 17 1
sync 3 fork 34 1
sync 11 join 2 0
sync 12 join 1 0
sync 13 end 0 0
over halt
thread 1
sync 4 begin 1 1
plain 0 0 wr 2 own ok
commit 6 r - w 1:7 n 1:1
plain 2 0 wr 3 own ok
sync 8 end 0 0
over halt
thread 2
sync 5 begin 2 1
abort changed 1 0 7 r 0:2:1,1:0:0 w 1:8 n 1:2
commit 7 r 0:2:2,1:7:3 w 1:8 n 0:3,1:4
sync 9 print 0 9
abort raised 2 r - w 2:9 n 2:1
sync 10 end 0 0
over uncaught 1
done
";

const OF_TRIED: &[Change] = &[
    // form
    ("join 2 0", "join 2 5", "0 4 1"),
    ("changed 1 0 7", "changed 1 7 7", "2 1 1"),
    ("changed 1 0 7", "changed 1 0 0", "2 1 1"),
    ("changed 1 0 7", "changed 0 2 7", "2 1 1"),
    ("w 2:9 n 2:1", "w 2:9 n 0:4", "2 4 1"),
    ("commit 7", "commit 14", "2 3 1"),
    // positions
    ("sync 10 end", "sync 14 end", "2 5 2"),
    ("sync 10 end", "sync 12 end", "2 5 2"),
    ("commit 6", "commit 5", "2 0 2"),
    // numbers
    ("n 2:1", "n 2:0", "2 4 3"),
    ("n 2:1", "n 2:2", "2 4 3"),
    ("plain 2 0", "plain 2 1", "2 4 3"),
    ("plain 2 0", "plain 2 2", "1 3 3"),
    ("1:0:0 w", "1:0:1 w", "2 1 3"),
    ("1:8 n 0:3,1:4", "1:8 n 0:3,1:5", "2 2 3"),
    // the machine
    ("fork 17 1", "fork 17 2", "1 0 4"),
    ("fork 34 1", "fork 18 1", "2 0 4"),
    ("begin 2 1", "begin 2 2", "2 0 4"),
    ("fork 17 1", "fork 20 1", "0 2 4"),
    // races
    ("wr 3 own ok", "wr 3 own race", "1 3 5"),
    ("raised 2", "raised 0", "2 4 5"),
    ("sync 9 print 0 9\nabort raised 2", "commit 9", "2 3 5"),
    // words: first along the flat history, then the looks and what was found
    ("wr 2 own ok", "wr 3 own ok", "2 2 6"),
    ("w 1:7", "w 1:6", "2 2 6"),
    ("r 0:2:2", "r 0:3:2", "2 2 6"),
    ("r 0:2:1", "r 0:3:1", "2 1 6"),
    ("changed 1 0 7", "changed 1 0 8", "2 1 6"),
    // the instructions
    ("wr 3 own ok", "wr 4 own ok", "1 3 7"),
    ("w 1:8 n 1:2", "w 1:9 n 1:2", "2 1 7"),
    ("w 1:8 n 0:3", "w 1:9 n 0:3", "2 2 7"),
    ("print 0 9", "print 0 8", "2 3 7"),
    ("w 2:9", "w 2:8", "2 4 7"),
    ("over uncaught 1", "over halt", "2 6 7"),
    ("record 1 29", "record 1 28", "2 4 7"),
];

#[test]
fn three_threads(rt: HostRuntime) -> Result<(), Fail> {
    finds(&rt, rt.alloc(), TRIES, TRIED, "lawful")?;
    for change in OF_TRIED {
        finds_changed(&rt, rt.alloc(), TRIES, TRIED, *change)?;
    }
    Ok(())
}
