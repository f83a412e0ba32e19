// What a line of a trace leaves of the events, of the performed accesses and of who has ended.
ghost use Rattle.std.specs.Prelude.{◌≡◌, ◌+◌, ◌<◌, ◌≤◌, ℕ, false, IfOk, ◌++◌, [], ◌||◌, length, map, vec_len, vec_capacity, slice_index_or};
ghost use Rattle.gl_model.specs.declared.limits.TheConstants.{THREADS, VARIABLES, TX_VARIABLES};
ghost use Rattle.gl_model.specs.declared.event.Act.TheVariants.{Begin, Join};
ghost use Rattle.gl_model.specs.declared.event.Event.TheVariants.{Act as Does};
ghost use Rattle.gl_model.specs.Elements.{IsActInRange};
ghost use Rattle.gl_model.specs.Rising.{with_one, with_all};
ghost use Rattle.gl_model.specs.Trace.{is_in};
ghost use Rattle.gl_model.specs.TraceSteps.{act_joins};
ghost use Rattle.gl_lines.specs.Traced.{Traced, after_act, with_stamp};
ghost use Rattle.gl_reference.specs.Lines.{IsLastOf, part_done};

use crate::races::Performed;
use crate::reach::Access;
use gl_model::{Act, Event, Stamp, THREADS, VarSet};
use std::alloc::{AllocError, Global};

// The events before the first line: thread 0 begins.
pub(crate) fn first_events(alloc: Global) -> Result<Vec<Stamp>, AllocError>
    ensures { IfOk result (λ events. events.items ≡ with_stamp [] 0 (Does (Begin 0))) }
{
    let mut events = Vec::with_capacity(alloc, 1)?;
    events.push_reserved(Stamp {
        thread: 0,
        event: Event::Act(Act::Begin(0)),
    });
    Ok(events)
}

// One event more, of the thread.
fn push_one(events: &mut Vec<Stamp>, thread: u8, act: Act)
    requires { vec_len events.old + 1 ≤ vec_capacity events.old }
    ensures items { events.new.items ≡ with_stamp events.old.items thread (Does act) }
    ensures len { vec_len events.new ≡ vec_len events.old + 1 }
    ensures capacity { vec_capacity events.new ≡ vec_capacity events.old }
{
    events.push_reserved(Stamp {
        thread,
        event: Event::Act(act),
    });
}

// The events of an act: who is joined ends first, where it has not ended, and who is forked begins.
pub(crate) fn push_act(events: &mut Vec<Stamp>, thread: u8, act: Act, over: bool)
    requires { vec_len events.old + 2 ≤ vec_capacity events.old }
    ensures { (s : Traced) → s.history ≡ events.old.items → ((u : ℕ) → act ≡ Join u → over ≡ s.tracing.ended u) → events.new.items ≡ (after_act thread act s).history }
{
    match act {
        Act::Fork { child, func } => {
            push_one(events, thread, act);
            push_one(events, child, Act::Begin(func));
        }
        Act::Join(other) => {
            if !over {
                push_one(events, other, Act::End);
            }
            push_one(events, thread, act);
        }
        Act::Begin(_)
        | Act::End
        | Act::Acq(_)
        | Act::Rel(_)
        | Act::VRead(_)
        | Act::VWrite(_)
        | Act::Alloc(_)
        | Act::Print
        | Act::Input
        | Act::Fail(_) => push_one(events, thread, act),
    }
}

// Whether the act joins a thread that has ended.
pub(crate) fn joins_ended(ended: &[bool; THREADS as usize], act: Act) -> bool
    requires { IsActInRange act }
    ensures { (u : ℕ) → act ≡ Join u → result ≡ slice_index_or ended.now u false }
{
    match act {
        Act::Join(other) => ended[other as usize],
        Act::Begin(_)
        | Act::End
        | Act::Acq(_)
        | Act::Rel(_)
        | Act::VRead(_)
        | Act::VWrite(_)
        | Act::Fork { .. }
        | Act::Alloc(_)
        | Act::Print
        | Act::Input
        | Act::Fail(_) => false,
    }
}

// Who is joined by the act has ended.
pub(crate) fn end_joined(ended: &mut [bool; THREADS as usize], act: Act)
    requires { IsActInRange act }
    ensures { (u : ℕ) → slice_index_or ended.new u false ≡ (slice_index_or ended.old u false || act_joins u act) }
{
    match act {
        Act::Join(other) => ended[other as usize] = true,
        Act::Begin(_)
        | Act::End
        | Act::Acq(_)
        | Act::Rel(_)
        | Act::VRead(_)
        | Act::VWrite(_)
        | Act::Fork { .. }
        | Act::Alloc(_)
        | Act::Print
        | Act::Input
        | Act::Fail(_) => {}
    }
}

// The position of the thread's last event.
pub(crate) fn last_of(events: &[Stamp], thread: u8) -> usize
    ensures { (p : ℕ) → IsLastOf events.now thread p → result ≡ p }
{
    let mut last = 0;
    for p in 0..events.len() {
        if events[p].thread == thread {
            last = p;
        }
    }
    last
}

// Puts the variable in, where there is room.
fn insert_one(all: &mut VarSet, var: u16)
    requires { var < VARIABLES }
    ensures { length (with_one var all.old) ≤ TX_VARIABLES → all.new ≡ with_one var all.old }
{
    let _ = all.insert(var);
}

// The variables of a commit that reads and writes these.
pub(crate) fn all_of(reads: &VarSet, writes: &VarSet) -> VarSet
    ensures { length (with_all writes.now reads.now) ≤ TX_VARIABLES → result ≡ with_all writes.now reads.now }
{
    let mut all = *reads;
    for var in writes.ids() {
        insert_one(&mut all, *var);
    }
    all
}

fn writes_to(writes: &VarSet, var: u16) -> bool
    ensures { result ≡ is_in var writes.now }
{
    writes.has(var)
}

// Keeps the access of each variable that is part of the commit, whose event is at that position.
pub(crate) fn keep_each(
    performed: &mut Vec<Performed>,
    thread: u8,
    block: usize,
    variables: &VarSet,
    writes: &VarSet,
)
    requires { vec_len performed.old + length variables.now ≤ vec_capacity performed.old }
    ensures { performed.new.items ≡ performed.old.items ++ map (part_done block thread variables.now writes.now) variables.now }
{
    for var in variables.ids() {
        performed.push_reserved(Performed {
            access: Access {
                thread,
                block,
                variables: Some(*variables),
            },
            var: *var,
            write: writes_to(writes, *var),
        });
    }
}
