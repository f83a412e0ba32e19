// How often a thread is in each monitor, as its own entries say.
ghost use Rattle.std.specs.Prelude.{◌≡◌, ℕ, ◌+◌, ◌-◌, ◌<◌, ◌^◌, IfOk, replicate, length, slice_index, slice_set};
ghost use Rattle.gl_model.specs.declared.limits.TheConstants.{MONITORS};
ghost use Rattle.gl_model.specs.Elements.{IsActInRange};
ghost use Rattle.gl_model.specs.Entries.{seen};
ghost use Rattle.gl_model.specs.Kept.{IsEntryKept};
ghost use Rattle.gl_rule.specs.Levels.{levels_act, levels_entry, AreLeastEntered};
ghost use Rattle.gl_table.specs.LevelsInside.{AreCandidates, HasEntered, HasLeft};

use gl_model::{Act, Entry, HELD, Held};
use std::alloc::{AllocError, Global};
use std::marker::Model;

const COUNTS: usize = 256;

const KEPT: usize = HELD as usize;

/// How often a thread is in each monitor, with the least that it is in.
#[derive(Drop)]
pub struct Levels {
    counts: Vec<u64>,
    least: Held,
}

impl Model for Levels {
    ghost use Rattle.std.specs.Prelude.{ℕ, List};

    ghost Value = { List ℕ };

    ghost use Rattle.gl_table.specs.LevelsInside.{levels_view, AreLevels};

    ghost view = { levels_view };

    ghost invariant = { AreLevels };
}

// The least monitors with a level above 0, as many as are kept.
fn least(counts: &[u64]) -> Held
    requires { length counts.now ≡ MONITORS }
    ensures { AreLeastEntered counts.now result }
{
    let mut held = Held::empty();
    for (monitor, count) in counts.iter().enumerate() {
        if *count > 0 {
            held.add(monitor as u16);
        }
    }
    held
}

// The same, where these are all that have a level above 0, and maybe others.
fn least_among(counts: &[u64], monitors: &[u16]) -> Held
    requires long { length counts.now ≡ MONITORS }
    requires all { AreCandidates counts.now monitors.now }
    ensures { AreLeastEntered counts.now result }
{
    let mut held = Held::empty();
    for monitor in monitors {
        if counts[*monitor as usize] > 0 {
            held.add(*monitor);
        }
    }
    held
}

// The same, by those before the monitor was entered: where they were fewer than are kept, they were all.
fn least_with(counts: &[u64], before: &Held, monitor: u16) -> Held
    requires long { length counts.now ≡ MONITORS }
    requires there { monitor < MONITORS }
    requires entered { HasEntered before.now counts.now monitor }
    ensures { AreLeastEntered counts.now result }
{
    if before.monitors().len() < KEPT {
        let mut held = *before;
        held.add(monitor);
        return held;
    }
    least(counts)
}

// The same, by those before one was left.
fn least_without(counts: &[u64], before: &Held) -> Held
    requires long { length counts.now ≡ MONITORS }
    requires left { HasLeft before.now counts.now }
    ensures { AreLeastEntered counts.now result }
{
    let monitors = before.monitors();
    if monitors.len() < KEPT {
        return least_among(counts, monitors);
    }
    least(counts)
}

impl Levels {
    /// It is in none.
    pub fn none(alloc: Global) -> Result<Levels, AllocError>
        ensures { IfOk result (λ l. l ≡ replicate MONITORS 0) }
    {
        let mut counts = Vec::with_capacity(alloc, COUNTS)?;
        for _ in 0..COUNTS {
            counts.push_reserved(0);
        }
        Ok(Levels {
            counts,
            least: Held::empty(),
        })
    }

    /// The least monitors that it is in, as many as are kept.
    pub fn least(&self) -> Held
        ensures { AreLeastEntered self.now result }
    {
        self.least
    }

    // It enters the monitor once more.
    fn enter(&mut self, monitor: u16)
        requires there { monitor < MONITORS }
        requires few { (o : ℕ) → slice_index self.old o + 1 < 2 ^ 64 }
        ensures { self.new ≡ slice_set self.old monitor (slice_index self.old monitor + 1) }
    {
        let count = self.counts[monitor as usize];
        self.counts[monitor as usize] = count + 1;
        if count == 0 {
            self.least = least_with(self.counts.as_slice(), &self.least, monitor);
        }
    }

    // It leaves the monitor once.
    fn leave(&mut self, monitor: u16)
        requires there { monitor < MONITORS }
        ensures { self.new ≡ slice_set self.old monitor (slice_index self.old monitor - 1) }
    {
        let count = self.counts[monitor as usize];
        self.counts[monitor as usize] = count.saturating_sub(1);
        if count < 2 {
            self.least = least_without(self.counts.as_slice(), &self.least);
        }
    }

    fn act(&mut self, act: &Act)
        requires there { IsActInRange act.now }
        requires few { (o : ℕ) → slice_index self.old o + 1 < 2 ^ 64 }
        ensures { self.new ≡ levels_act self.old act.now }
    {
        match *act {
            Act::Acq(monitor) => self.enter(monitor),
            Act::Rel(monitor) => self.leave(monitor),
            Act::Begin(_)
            | Act::End
            | Act::VRead(_)
            | Act::VWrite(_)
            | Act::Fork { child: _, func: _ }
            | Act::Join(_)
            | Act::Alloc(_)
            | Act::Print
            | Act::Input
            | Act::Fail(_) => {}
        }
    }

    /// It stores the entry.
    pub fn note(&mut self, entry: &Entry)
        requires there { IsEntryKept (seen entry.now) }
        requires few { (o : ℕ) → slice_index self.old o + 1 < 2 ^ 64 }
        ensures { self.new ≡ levels_entry self.old (seen entry.now) }
    {
        match entry {
            Entry::Sync {
                at: _,
                act,
                value: _,
            } => self.act(act),
            Entry::Commit { .. }
            | Entry::Plain { .. }
            | Entry::Abort { .. }
            | Entry::Trim { .. }
            | Entry::Over(_) => {}
        }
    }
}
