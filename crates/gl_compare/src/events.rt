// The events of a trace, as the judge by rows keeps them, and who has ended.
ghost use Rattle.std.specs.Prelude.{◌≡◌, ◌<◌, ◌||◌, ℕ, false, All, IfOk, slice_index_or};
ghost use Rattle.gl_model.specs.declared.limits.TheConstants.{THREADS};
ghost use Rattle.gl_model.specs.declared.event.Act.TheVariants.{Join};
ghost use Rattle.gl_model.specs.Elements.{IsStampInRange, IsActInRange, IsEventInRange};
ghost use Rattle.gl_model.specs.TraceSteps.{act_joins};
ghost use Rattle.gl_lines.specs.Traced.{Traced, after_act, with_stamp};
ghost use Rattle.gl_compare.specs.Kept.{GoesOn};

use gl_model::{Act, Event, Stamp, THREADS};
use std::alloc::AllocError;

/// One event more, of the thread.
pub fn push(events: &mut Vec<Stamp>, thread: u8, event: Event) -> Result<(), AllocError>
    requires range { All IsStampInRange events.old.items }
    requires thread { thread < THREADS }
    requires event { IsEventInRange event }
    ensures range { IfOk result (λ _. GoesOn events.old.items events.new.items) }
    ensures items { IfOk result (λ _. events.new.items ≡ with_stamp events.old.items thread event) }
{
    events.push(Stamp { thread, event })?;
    Ok(())
}

/// The events of an act: who is joined ends first, where it has not ended, and who is forked begins.
pub fn push_act(events: &mut Vec<Stamp>, thread: u8, act: Act, over: bool) -> Result<(), AllocError>
    requires range { All IsStampInRange events.old.items }
    requires thread { thread < THREADS }
    requires act { IsActInRange act }
    ensures range { IfOk result (λ _. GoesOn events.old.items events.new.items) }
    ensures items { IfOk result (λ _. (s : Traced) → s.history ≡ events.old.items → ((u : ℕ) → act ≡ Join u → over ≡ s.tracing.ended u) → events.new.items ≡ (after_act thread act s).history) }
{
    match act {
        Act::Fork { child, func } => {
            push(events, thread, Event::Act(act))?;
            push(events, child, Event::Act(Act::Begin(func)))
        }
        Act::Join(other) => {
            if !over {
                push(events, other, Event::Act(Act::End))?;
            }
            push(events, thread, Event::Act(act))
        }
        Act::Begin(_)
        | Act::End
        | Act::Acq(_)
        | Act::Rel(_)
        | Act::VRead(_)
        | Act::VWrite(_)
        | Act::Alloc(_)
        | Act::Print
        | Act::Input
        | Act::Fail(_) => push(events, thread, Event::Act(act)),
    }
}

/// Whether the act joins a thread that has ended.
pub fn joins_ended(ended: &[bool; THREADS as usize], act: Act) -> bool
    requires { IsActInRange act }
    ensures { (u : ℕ) → act ≡ Join u → result ≡ slice_index_or ended.now u false }
{
    match act {
        Act::Join(other) => ended[other as usize],
        Act::Begin(_)
        | Act::End
        | Act::Acq(_)
        | Act::Rel(_)
        | Act::VRead(_)
        | Act::VWrite(_)
        | Act::Fork { .. }
        | Act::Alloc(_)
        | Act::Print
        | Act::Input
        | Act::Fail(_) => false,
    }
}

/// Who is joined by the act has ended.
pub fn end_joined(ended: &mut [bool; THREADS as usize], act: Act)
    requires { IsActInRange act }
    ensures { (u : ℕ) → slice_index_or ended.new u false ≡ (slice_index_or ended.old u false || act_joins u act) }
{
    match act {
        Act::Join(other) => ended[other as usize] = true,
        Act::Begin(_)
        | Act::End
        | Act::Acq(_)
        | Act::Rel(_)
        | Act::VRead(_)
        | Act::VWrite(_)
        | Act::Fork { .. }
        | Act::Alloc(_)
        | Act::Print
        | Act::Input
        | Act::Fail(_) => {}
    }
}
