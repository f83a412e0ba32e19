// The monitors that a thread owns.
ghost use Rattle.std.specs.Prelude.{◌≡◌, ◌<◌, ◌≤◌, ◌^◌, ◌-◌, ◌+◌, ◌∷◌, ◌++◌, ℕ, List, [], length, map, IfOk, Some, None, slice_get, slice_index_or};
ghost use Rattle.gl_model.specs.TraceSteps.{Step, IsLineAct, IsLineItem, is_held_by};
ghost use Rattle.gl_model.specs.declared.limits.TheConstants.{MONITORS};
ghost use Rattle.gl_model.specs.declared.row.Item.TheVariants.{Act as Acts};
ghost use Rattle.gl_explain.specs.Owned.{AreHolders, AreOwned, IsWithin};
ghost use Rattle.gl_explain.specs.Told.{step_of, told_of};
ghost use Rattle.gl_explain.specs.declared.told.Kept.{Kept as AKept};

use crate::told::Kept;
use gl_model::{Act, Item, MONITORS};
use std::alloc::{AllocError, Global};

const MONITOR_ROOM: usize = MONITORS as usize;

// Takes an act: a monitor is entered or left.
fn take_act(holders: &mut [Option<(u8, u32)>; MONITOR_ROOM], thread: u8, act: Act)
    requires act { IsLineAct act }
    requires room { IsWithin (2 ^ 32 - 2) holders.old }
    ensures holders { (steps : List Step) → AreHolders steps holders.old → AreHolders (steps ++ (thread, Acts act) ∷ []) holders.new }
    ensures within { (most : ℕ) → IsWithin most holders.old → IsWithin (most + 1) holders.new }
{
    match act {
        Act::Acq(monitor) => {
            let hold = &mut holders[usize::from(monitor)];
            *hold = match *hold {
                Some((owner, depth)) => Some((owner, depth + 1)),
                None => Some((thread, 1)),
            };
        }
        Act::Rel(monitor) => {
            let hold = &mut holders[usize::from(monitor)];
            *hold = match *hold {
                Some((owner, depth)) if depth != 1 => Some((owner, depth - 1)),
                _ => None,
            };
        }
        Act::Begin(_)
        | Act::End
        | Act::VRead(_)
        | Act::VWrite(_)
        | Act::Fork { .. }
        | Act::Join(_)
        | Act::Alloc(_)
        | Act::Print
        | Act::Input
        | Act::Fail(_) => {}
    }
}

// Takes a step.
fn take(holders: &mut [Option<(u8, u32)>; MONITOR_ROOM], thread: u8, item: &Item)
    requires item { IsLineItem item.now }
    requires room { IsWithin (2 ^ 32 - 2) holders.old }
    ensures holders { (steps : List Step) → AreHolders steps holders.old → AreHolders (steps ++ (thread, item.now) ∷ []) holders.new }
    ensures within { (most : ℕ) → IsWithin most holders.old → IsWithin (most + 1) holders.new }
{
    match item {
        Item::Act(act) => take_act(holders, thread, *act),
        Item::Access { .. } | Item::Commit { .. } => {}
    }
}

// The owner of each monitor behind these lines, and how often it has entered it.
fn holders_behind(kept: &[Kept]) -> [Option<(u8, u32)>; MONITOR_ROOM]
    requires few { length kept.now ≤ 2 ^ 32 - 2 }
    requires lines { (i : ℕ) (k : AKept) → slice_get kept.now i ≡ Some k → IsLineItem k.told.item }
    ensures { AreHolders (map step_of (told_of kept.now)) result }
{
    let mut holders = [None; MONITOR_ROOM];
    for k in kept {
        take(&mut holders, k.told.thread, &k.told.item);
    }
    holders
}

// Whether the thread owns the monitor.
fn is_owner(holders: &[Option<(u8, u32)>; MONITOR_ROOM], monitor: u16, thread: u8) -> bool
    requires { monitor < MONITORS }
    ensures { result ≡ is_held_by thread (slice_index_or holders.now monitor None) }
{
    let hold = holders[usize::from(monitor)];
    match hold {
        Some((owner, _)) => owner == thread,
        None => false,
    }
}

/// The monitors that the thread owns behind these lines, rising.
pub fn owned(alloc: Global, kept: &[Kept], thread: u8) -> Result<Vec<u16>, AllocError>
    requires few { length kept.now ≤ 2 ^ 32 - 2 }
    requires lines { (i : ℕ) (k : AKept) → slice_get kept.now i ≡ Some k → IsLineItem k.told.item }
    ensures { IfOk result (λ monitors. AreOwned (told_of kept.now) thread monitors.items) }
{
    let holders = holders_behind(kept);
    let mut monitors = Vec::new(alloc);
    for m in 0..MONITORS {
        if is_owner(&holders, m, thread) {
            monitors.push(m)?;
        }
    }
    Ok(monitors)
}
