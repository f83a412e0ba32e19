ghost use Rattle.std.specs.Prelude.{IsTrue};
ghost use Rattle.gl_model.specs.TraceSteps.{IsLineAct, IsStep};

use crate::SlowJudge;
use gl_model::{Act, Item, Judged, MONITORS, THREADS, VARIABLES, VOLATILES, VarSet};
use std::test::Fail;

const FORK: Act = Act::Fork { child: 1, func: 0 };

const FORK_TWO: Act = Act::Fork { child: 2, func: 0 };

fn rd(var: u16) -> Item {
    Item::Access { var, write: false }
}

fn wr(var: u16) -> Item {
    Item::Access { var, write: true }
}

fn set(ids: &[u16]) -> VarSet {
    let mut all = VarSet::empty();
    for id in ids {
        if *id < VARIABLES {
            let _ = all.insert(*id);
        }
    }
    all
}

fn commit(reads: &[u16], writes: &[u16]) -> Item {
    Item::Commit {
        reads: set(reads),
        writes: set(writes),
    }
}

fn act(act: Act) -> Item {
    Item::Act(act)
}

// What is said of each line: n for no access, o for a performed one, and of one that was raised its variable.
fn said(judged: Judged) -> char {
    match judged {
        Judged::NoAccess => 'n',
        Judged::Performed => 'o',
        Judged::Raised { var } => char::from(b'0' + (var % 10) as u8),
    }
}

fn is_line_act(act: Act) -> bool
    ensures { IsTrue result → IsLineAct act }
{
    match act {
        Act::Acq(o) | Act::Rel(o) => o < MONITORS,
        Act::VRead(v) | Act::VWrite(v) => v < VOLATILES,
        Act::Fork { child, func } => child < THREADS && func == 0,
        Act::Join(other) => other < THREADS,
        _ => false,
    }
}

fn is_line(thread: u8, item: &Item) -> bool
    ensures { IsTrue result → IsStep (thread, item.now) }
{
    if thread >= THREADS {
        return false;
    }
    match item {
        Item::Act(act) => is_line_act(*act),
        Item::Access { var, .. } => *var < VARIABLES,
        Item::Commit { .. } => true,
    }
}

// What is said of each line that a trace can have.
fn all_said(rt: &HostRuntime, lines: &[(u8, Item)]) -> Result<String, Fail> {
    let mut judge = SlowJudge::new(rt.alloc())?;
    let mut found = String::new(rt.alloc());
    for (thread, item) in lines {
        if is_line(*thread, item) {
            found.push(said(judge.step(rt.alloc(), *thread, item)?))?;
        }
    }
    Ok(found)
}

#[test]
fn worked_rows(rt: HostRuntime) -> Result<(), Fail> {
    let two = [(0, act(FORK)), (0, wr(1)), (1, rd(1))];
    let three = [(0, wr(1)), (0, act(FORK)), (1, rd(1))];
    let four = [
        (0, act(FORK)),
        (0, act(Act::Acq(0))),
        (0, wr(7)),
        (0, act(Act::Rel(0))),
        (1, act(Act::Acq(0))),
        (1, act(Act::Acq(1))),
        (1, act(Act::Rel(0))),
        (1, wr(7)),
        (1, act(Act::Rel(1))),
        (0, act(Act::Acq(1))),
        (0, rd(7)),
    ];
    let five = [
        (0, act(FORK)),
        (1, wr(3)),
        (0, act(Act::Join(1))),
        (0, rd(3)),
    ];
    let six = [
        (0, act(FORK)),
        (0, wr(2)),
        (0, act(Act::VWrite(0))),
        (1, act(Act::VWrite(0))),
        (1, rd(2)),
    ];
    let seven = [
        (0, act(FORK)),
        (0, act(FORK_TWO)),
        (2, rd(3)),
        (1, rd(3)),
        (1, act(Act::VWrite(0))),
        (0, act(Act::VRead(0))),
        (0, wr(3)),
    ];
    let eight = [
        (0, act(FORK)),
        (0, act(FORK_TWO)),
        (0, wr(4)),
        (1, wr(4)),
        (0, act(Act::Acq(0))),
        (0, act(Act::Rel(0))),
        (2, act(Act::Acq(0))),
        (2, rd(4)),
    ];
    let nine = [
        (0, act(FORK)),
        (0, wr(5)),
        (0, commit(&[], &[2])),
        (1, commit(&[2], &[5])),
    ];
    let nine_apart = [
        (0, act(FORK)),
        (0, wr(5)),
        (0, commit(&[], &[2])),
        (1, commit(&[3], &[5])),
    ];
    let least = [
        (0, act(FORK)),
        (0, wr(2)),
        (0, wr(6)),
        (1, commit(&[6, 7], &[2])),
        (0, rd(7)),
        (1, rd(7)),
    ];
    let rows: [(&[(u8, Item)], &str); 10] = [
        (&two, "no1"),
        (&three, "ono"),
        (&four, "nnonnnnonno"),
        (&five, "nono"),
        (&six, "nonn2"),
        (&seven, "nnoonn3"),
        (&eight, "nno4nnno"),
        (&nine, "nooo"),
        (&nine_apart, "noo5"),
        (&least, "noo2oo"),
    ];
    for (lines, wanted) in rows {
        assert_eq!(rt; all_said(&rt, lines)?.as_str(), wanted);
    }
    Ok(())
}
