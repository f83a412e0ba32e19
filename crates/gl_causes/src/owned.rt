// The monitors that a thread owns, told from its own list.
ghost use Rattle.std.specs.Prelude.{◌≡◌, ◌≤◌, ◌<◌, ◌+◌, ◌-◌, ◌^◌, ◌∷◌, ◌++◌, [], ℕ, List, IfOk, map, length, nat_lt, slice_index_or, take};
ghost use Rattle.std.specs.List.{AllByRecursion};
ghost use Rattle.gl_causes.specs.Owned.{AreDepths, AreOwned, AreWithin};
ghost use Rattle.gl_model.specs.Entries.{Entry as AnEntry, seen};
ghost use Rattle.gl_model.specs.Kept.{IsEntryKept};
ghost use Rattle.gl_model.specs.Lists.{lists_of};
ghost use Rattle.gl_model.specs.declared.limits.TheConstants.{MONITORS};

use gl_model::{Act, Entry, MONITORS, Record};
use gl_places::Place;
use std::alloc::{AllocError, Global};

const MONITOR_ROOM: usize = MONITORS as usize;

// Takes an entry: a monitor is entered or left, or none.
fn take_entry(depths: &mut [u64; MONITOR_ROOM], entry: &Entry)
    requires kept { IsEntryKept (seen entry.now) }
    requires room { AreWithin (2 ^ 64 - 2) depths.old }
    ensures depths { (es : List AnEntry) → AreDepths es depths.old → AreDepths (es ++ seen entry.now ∷ []) depths.new }
    ensures within { (most : ℕ) → AreWithin most depths.old → AreWithin (most + 1) depths.new }
{
    if let Entry::Sync { act, .. } = entry {
        match act {
            Act::Acq(monitor) => {
                let depth = &mut depths[usize::from(*monitor)];
                *depth += 1;
            }
            Act::Rel(monitor) => {
                let depth = &mut depths[usize::from(*monitor)];
                *depth = depth.saturating_sub(1);
            }
            Act::Begin(_)
            | Act::End
            | Act::VRead(_)
            | Act::VWrite(_)
            | Act::Fork { .. }
            | Act::Join(_)
            | Act::Alloc(_)
            | Act::Print
            | Act::Input
            | Act::Fail(_) => {}
        }
    }
}

// How often each monitor is entered after the first entries of a list.
fn depths_after(list: &[Entry], count: usize) -> [u64; MONITOR_ROOM]
    requires near { count ≤ length list.now }
    requires kept { AllByRecursion IsEntryKept (map seen list.now) }
    ensures { AreDepths (take count (map seen list.now)) result }
{
    let mut depths = [0; MONITOR_ROOM];
    for i in 0..count {
        take_entry(&mut depths, &list[i]);
    }
    depths
}

// Whether the monitor is entered, by the table.
fn is_owned(depths: &[u64; MONITOR_ROOM], monitor: u16) -> bool
    requires { monitor < MONITORS }
    ensures { result ≡ nat_lt 0 (slice_index_or depths.now monitor 0) }
{
    let depth = depths[usize::from(monitor)];
    0 < depth
}

/// The monitors that the thread owns where the place is, told from the entries before it in its own list: those that it has entered more
/// often than left, rising, where leaving a monitor that it has not entered counts for nothing. None where the thread has no list. The
/// only error is want of memory.
pub fn owned_at(alloc: Global, made: &Record, place: Place) -> Result<Vec<u16>, AllocError>
    ensures { IfOk result (λ monitors. AreOwned (take place.index (lists_of made.now place.thread)) monitors.items) }
{
    made.keeps();
    let mut monitors = Vec::new(alloc);
    let Some(list) = made.thread(place.thread) else {
        return Ok(monitors);
    };
    let count = list.len().min(place.index as usize);
    let depths = depths_after(list, count);
    for m in 0..MONITORS {
        if is_owned(&depths, m) {
            monitors.push(m)?;
        }
    }
    Ok(monitors)
}
