//! Compares the detector with the plain judge, and with rows of locksets, line by line: over all sound small traces, and over some longer ones that are drawn.
//!
//! The small ones are of two threads, one monitor, one volatile and two variables: those of five lines in which a commit reads or writes
//! each variable that it has and not both, and those of four lines with all sixteen commits. A shorter trace is the front of one of
//! these, since a thread that runs is always left, and it can read. All traces of five lines with all commits would be sixteen million.
//! `checks/compared.py` works out, apart from this program, what it has to print.
#![tactic(auto)]

mod all;
mod compare;
mod drawn;
mod events;
mod owned;
mod row_judge;
mod rows;
mod shown;
mod small;
mod soundness;

use compare::{Outcome, Tally};
use drawn::compare_drawn;
use shown::print_line;
use small::{WITH_ALL, WITH_DISJOINT, compare_small};
use std::io;
use std::process::ExitCode;

// Says what was compared, and whether all three agreed.
fn told(rt: &impl Print, name: &str, outcome: &Outcome) -> io::Result<bool> {
    let tally = &outcome.tally;
    println!(rt;
        "{name}: {} traces, {} lines, {} raised",
        tally.traces, tally.lines, tally.raised
    )?;
    if let Some(trace) = &outcome.differing {
        println!(rt; "they differ over")?;
        for (thread, item) in trace {
            print_line(rt, *thread, item)?;
        }
    }
    Ok(outcome.differing.is_none())
}

// What the rows said of all of them.
fn told_of_rows(rt: &impl Print, outcomes: [&Tally; 3]) -> io::Result<()> {
    let mut all = Tally::new();
    for tally in outcomes {
        all.add(tally);
    }
    println!(rt;
        "the rows over all of them: {} traces, {} lines, {} raised",
        all.traces, all.lines, all.raised
    )
}

fn compared(rt: &(impl Print + AllocGlobal)) -> io::Result<bool> {
    let alloc = rt.alloc();
    let disjoint = compare_small(alloc, WITH_DISJOINT, 5)?;
    let five = told(rt, "5 lines, commits of disjoint sets", &disjoint)?;
    let all = compare_small(alloc, WITH_ALL, 4)?;
    let four = told(rt, "4 lines, all commits", &all)?;
    let longer = compare_drawn(alloc, 3000)?;
    let drawn = told(rt, "20 to 60 lines, drawn", &longer)?;
    let agreed = five & four & drawn;
    if agreed {
        println!(rt; "all agree")?;
    }
    told_of_rows(rt, [&disjoint.rows, &all.rows, &longer.rows])?;
    Ok(agreed)
}

fn main(rt: HostRuntime) -> ExitCode {
    match compared(&rt) {
        Ok(true) => ExitCode::SUCCESS,
        _ => ExitCode::FAILURE,
    }
}
