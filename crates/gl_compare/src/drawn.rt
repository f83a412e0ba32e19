// Longer traces, drawn by a generator with a fixed seed.

use crate::all::all_agree;
use crate::compare::{Line, Outcome, Tally};
use crate::small::variables;
use crate::soundness::is_sound;
use gl_model::{Act, Item};
use std::alloc::{AllocError, Global};

const THREADS: u8 = 4;

const MONITORS: u16 = 3;

const VOLATILES: u16 = 2;

const VARIABLES: u16 = 6;
// The lines that are tried for each trace, sound or not.
const TRIES: u32 = 400;

/// A generator by shifts and exclusive or (xorshift, 32 bits).
#[derive(Drop)]
struct Draws {
    state: u32,
}

impl Draws {
    ghost use Rattle.std.specs.Prelude.{◌<◌, All};
    ghost use Rattle.gl_model.specs.declared.limits.TheConstants.{THREADS as ALL_THREADS};
    ghost use Rattle.gl_model.specs.TraceSteps.{IsLineItem, IsStep};

    // A number below that.
    fn below(&mut self, most: u32) -> u32
        requires { 0 < most }
        ensures { result < most }
    {
        let mut x = self.state;
        x ^= x << 13;
        x ^= x >> 17;
        x ^= x << 5;
        self.state = x;
        x % most
    }

    fn id(&mut self, count: u16) -> u16
        requires { 0 < count }
        ensures { result < count }
    {
        self.below(u32::from(count)) as u16
    }

    fn thread(&mut self) -> u8
        ensures { result < ALL_THREADS }
    {
        self.below(u32::from(THREADS)) as u8
    }

    fn item(&mut self) -> Item
        ensures { IsLineItem result }
    {
        match self.below(24) {
            0..=5 => Item::Access {
                var: self.id(VARIABLES),
                write: false,
            },
            6..=9 => Item::Access {
                var: self.id(VARIABLES),
                write: true,
            },
            10..=12 => Item::Act(Act::Acq(self.id(MONITORS))),
            13..=15 => Item::Act(Act::Rel(self.id(MONITORS))),
            16 => Item::Act(Act::VRead(self.id(VOLATILES))),
            17 => Item::Act(Act::VWrite(self.id(VOLATILES))),
            18..=19 => Item::Act(Act::Fork {
                child: self.thread(),
                func: 0,
            }),
            20 => Item::Act(Act::Join(self.thread())),
            _ => {
                let reads = self.below(64) & self.below(64);
                let writes = self.below(64) & self.below(64);
                Item::Commit {
                    reads: variables(reads, VARIABLES),
                    writes: variables(writes, VARIABLES),
                }
            }
        }
    }

    // Draws a sound trace of 20 to 60 lines, or of those that were found.
    fn trace(&mut self, trace: &mut Vec<Line>) -> Result<(), AllocError>
        ensures { All IsStep trace.new.items }
    {
        trace.clear();
        let wanted = self.below(41) + 20;
        for _ in 0..TRIES {
            let thread = self.thread();
            let item = self.item();
            if trace.len() < wanted as usize && is_sound(trace, thread, &item, THREADS) {
                trace.push((thread, item))?;
            }
        }
        Ok(())
    }
}

/// Compares so many traces that are drawn.
pub fn compare_drawn(alloc: Global, count: u32) -> Result<Outcome, AllocError> {
    let mut tally = Tally::new();
    let mut rows = Tally::new();
    let mut draws = Draws { state: 2463534242 };
    let mut trace = Vec::new(alloc);
    for _ in 0..count {
        draws.trace(&mut trace)?;
        if !all_agree(alloc, &trace, &mut tally, &mut rows)? {
            return Ok(Outcome {
                tally,
                rows,
                differing: Some(trace),
            });
        }
    }
    Ok(Outcome {
        tally,
        rows,
        differing: None,
    })
}
