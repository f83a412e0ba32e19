// A small check of soundness of its own: whether a line can stand behind those before it.
ghost use Rattle.std.specs.Prelude.{◌≡◌, true, IsTrue};
ghost use Rattle.std.specs.List.{list_any};
ghost use Rattle.gl_model.specs.TraceSteps.{item_forks, item_joins, is_started as was_started, is_ended as was_ended, is_running as is_left_running};

use crate::compare::Line;
use gl_model::{Act, Item};

fn forks(item: &Item, thread: u8) -> bool
    ensures { result ≡ item_forks thread item.now }
{
    match item {
        Item::Act(Act::Fork { child, .. }) => *child == thread,
        _ => false,
    }
}

fn joins(item: &Item, thread: u8) -> bool
    ensures { result ≡ item_joins thread item.now }
{
    match item {
        Item::Act(Act::Join(other)) => *other == thread,
        _ => false,
    }
}

fn is_forked(before: &[Line], thread: u8) -> bool
    ensures { result ≡ list_any (λ s. item_forks thread s.1) before.now }
{
    before.iter().any(|(_, item)| forks(item, thread))
}

fn is_started(before: &[Line], thread: u8) -> bool
    ensures { result ≡ was_started before.now thread }
{
    thread == 0 || is_forked(before, thread)
}

fn is_ended(before: &[Line], thread: u8) -> bool
    ensures { result ≡ was_ended before.now thread }
{
    before.iter().any(|(_, item)| joins(item, thread))
}

fn is_running(before: &[Line], thread: u8) -> bool
    ensures { result ≡ is_left_running before.now thread }
{
    is_started(before, thread) && !is_ended(before, thread)
}

fn enters(item: &Item, monitor: u16) -> bool {
    matches!(item, Item::Act(Act::Acq(entered)) if *entered == monitor)
}

fn leaves(item: &Item, monitor: u16) -> bool {
    matches!(item, Item::Act(Act::Rel(left)) if *left == monitor)
}

// Whether the thread has entered the monitor more often than it has left it.
fn owns(before: &[Line], thread: u8, monitor: u16) -> bool {
    let entered = before
        .iter()
        .filter(|(t, item)| *t == thread && enters(item, monitor))
        .count();
    let left = before
        .iter()
        .filter(|(t, item)| *t == thread && leaves(item, monitor))
        .count();
    entered > left
}

fn is_owned_by_another(before: &[Line], thread: u8, monitor: u16, threads: u8) -> bool {
    for other in 0..threads {
        if other != thread && owns(before, other, monitor) {
            return true;
        }
    }
    false
}

fn can_act(before: &[Line], thread: u8, act: Act, threads: u8) -> bool {
    match act {
        Act::Fork { child, .. } => !is_started(before, child),
        Act::Join(other) => other != thread && is_started(before, other),
        Act::Acq(monitor) => !is_owned_by_another(before, thread, monitor, threads),
        Act::Rel(monitor) => owns(before, thread, monitor),
        _ => true,
    }
}

/// Whether the line has no fault behind those before it, of so many threads.
pub fn is_sound(before: &[Line], thread: u8, item: &Item, threads: u8) -> bool
    ensures { IsTrue result → is_left_running before.now thread ≡ true }
{
    if !is_running(before, thread) {
        return false;
    }
    match item {
        Item::Act(act) => can_act(before, thread, *act, threads),
        Item::Access { .. } | Item::Commit { .. } => true,
    }
}
