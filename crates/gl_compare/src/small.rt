// All small traces.
ghost use Rattle.std.specs.Prelude.{◌<◌, ◌≤◌, All};
ghost use Rattle.gl_model.specs.declared.limits.TheConstants.{THREADS as ALL_THREADS, TX_VARIABLES};
ghost use Rattle.gl_model.specs.TraceSteps.{IsLineItem, IsStep};

use crate::all::all_agree;
use crate::compare::{Line, Outcome, Tally};
use crate::soundness::is_sound;
use gl_model::{Act, Item, VarSet};
use std::alloc::{AllocError, Global};

const THREADS: u8 = 2;

/// How many things a thread can say: with commits that read or write each of their variables and not both, and with all commits.
pub const WITH_DISJOINT: u32 = 18;

pub const WITH_ALL: u32 = 26;

// What is no commit comes first.
const FIRST_COMMIT: u32 = 10;

// The variables that each commit reads and writes, as bits; the first eight commits have some variable and none in both.
const COMMITS: [(u32, u32); 16] = [
    (1, 0),
    (2, 0),
    (3, 0),
    (0, 1),
    (0, 2),
    (0, 3),
    (1, 2),
    (2, 1),
    (0, 0),
    (1, 1),
    (1, 3),
    (2, 2),
    (2, 3),
    (3, 1),
    (3, 2),
    (3, 3),
];

/// The variables of which these bits are set.
pub fn variables(bits: u32, count: u16) -> VarSet
    requires { count ≤ TX_VARIABLES }
{
    let mut set = VarSet::empty();
    for var in 0..count {
        if bits >> var & 1 == 1 {
            let _ = set.insert(var);
        }
    }
    set
}

fn commit(number: u32) -> Item
    ensures { IsLineItem result }
{
    let (reads, writes) = COMMITS.get(number as usize).copied().unwrap_or((0, 0));
    Item::Commit {
        reads: variables(reads, 2),
        writes: variables(writes, 2),
    }
}

// What a thread says by that number. It forks and joins the other alone: a line that forks or joins its own thread is never sound.
fn said(kind: u32, other: u8) -> Item
    requires { other < ALL_THREADS }
    ensures { IsLineItem result }
{
    match kind {
        0 => Item::Access {
            var: 0,
            write: false,
        },
        1 => Item::Access {
            var: 1,
            write: false,
        },
        2 => Item::Access {
            var: 0,
            write: true,
        },
        3 => Item::Access {
            var: 1,
            write: true,
        },
        4 => Item::Act(Act::Acq(0)),
        5 => Item::Act(Act::Rel(0)),
        6 => Item::Act(Act::VRead(0)),
        7 => Item::Act(Act::VWrite(0)),
        8 => Item::Act(Act::Fork {
            child: other,
            func: 0,
        }),
        9 => Item::Act(Act::Join(other)),
        _ => commit(kind.wrapping_sub(FIRST_COMMIT)),
    }
}

// Makes the trace of that number, and tells whether it is sound.
fn make(trace: &mut Vec<Line>, number: u32, kinds: u32, lines: u32) -> Result<bool, AllocError>
    requires { 0 < kinds }
    ensures { All IsStep trace.new.items }
{
    trace.clear();
    let mut rest = number;
    for _ in 0..lines {
        let thread = if rest % 2 == 0 { 0 } else { 1 };
        let item = said(rest / 2 % kinds, 1 - thread);
        if !is_sound(trace, thread, &item, THREADS) {
            return Ok(false);
        }
        trace.push((thread, item))?;
        rest = rest / 2 / kinds;
    }
    Ok(true)
}

/// Compares all sound traces of so many lines.
pub fn compare_small(alloc: Global, kinds: u32, lines: u32) -> Result<Outcome, AllocError>
    requires { 0 < kinds }
{
    let mut tally = Tally::new();
    let mut rows = Tally::new();
    let mut trace = Vec::new(alloc);
    for number in 0..kinds.wrapping_mul(2).wrapping_pow(lines) {
        if make(&mut trace, number, kinds, lines)?
            && !all_agree(alloc, &trace, &mut tally, &mut rows)?
        {
            return Ok(Outcome {
                tally,
                rows,
                differing: Some(trace),
            });
        }
    }
    Ok(Outcome {
        tally,
        rows,
        differing: None,
    })
}
