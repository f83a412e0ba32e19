// Who owns which monitors behind a list of events.
ghost use Rattle.std.specs.Prelude.{◌≡◌, ◌+◌, ◌^◌, ◌<◌, ◌≤◌, ℕ, None, All, IfSome};
ghost use Rattle.gl_model.specs.declared.limits.TheConstants.{MONITORS};
ghost use Rattle.gl_model.specs.Elements.{IsStampInRange, IsActInRange};
ghost use Rattle.gl_model.specs.TraceSteps.{entered, left, act_leaves, is_held_by};
ghost use Rattle.gl_compare.specs.Held.{event_leaves, hold_of, AreLeastHeld};

use gl_model::{Act, Event, Held, Stamp};

// A monitor's owner and how often it has entered it, entered once more by the thread.
fn entered_once(hold: Option<(u8, u64)>, thread: u8) -> Option<(u8, u64)>
    requires { IfSome hold (λ h. h.1 + 1 < 2 ^ 64) }
    ensures { result ≡ entered thread hold }
{
    match hold {
        Some((owner, depth)) => Some((owner, depth + 1)),
        None => Some((thread, 1)),
    }
}

fn left_once(hold: Option<(u8, u64)>) -> Option<(u8, u64)>
    ensures { result ≡ left hold }
{
    match hold {
        Some((_, 1)) | None => None,
        Some((owner, depth)) => Some((owner, depth.saturating_sub(1))),
    }
}

// What the act of a thread leaves of the monitor.
fn after_act(hold: Option<(u8, u64)>, thread: u8, act: Act, monitor: u16) -> Option<(u8, u64)>
    requires { IfSome hold (λ h. h.1 + 1 < 2 ^ 64) }
    ensures { result ≡ act_leaves monitor thread act hold }
{
    match act {
        Act::Acq(other) if other == monitor => entered_once(hold, thread),
        Act::Rel(other) if other == monitor => left_once(hold),
        Act::Acq(_)
        | Act::Rel(_)
        | Act::Begin(_)
        | Act::End
        | Act::VRead(_)
        | Act::VWrite(_)
        | Act::Fork { .. }
        | Act::Join(_)
        | Act::Alloc(_)
        | Act::Print
        | Act::Input
        | Act::Fail(_) => hold,
    }
}

// What the event leaves of the monitor.
fn after(hold: Option<(u8, u64)>, stamp: &Stamp, monitor: u16) -> Option<(u8, u64)>
    requires { IfSome hold (λ h. h.1 + 1 < 2 ^ 64) }
    ensures { result ≡ event_leaves monitor stamp.now hold }
{
    match stamp.event {
        Event::Act(act) => after_act(hold, stamp.thread, act, monitor),
        Event::Commit(_) => hold,
    }
}

// The monitor's owner behind the events, and how often it has entered it.
fn holder(events: &[Stamp], monitor: u16) -> Option<(u8, u64)>
    ensures { result ≡ hold_of monitor events.now }
{
    let mut hold = None;
    for p in 0..events.len() {
        hold = after(hold, &events[p], monitor);
    }
    hold
}

fn holds(events: &[Stamp], thread: u8, monitor: u16) -> bool
    ensures { result ≡ is_held_by thread (hold_of monitor events.now) }
{
    match holder(events, monitor) {
        Some((owner, _)) => thread == owner,
        None => false,
    }
}

// The monitor behind those so far and the one that the act enters.
fn past_act(past: u16, act: Act) -> u16
    requires act { IsActInRange act }
    requires past { past ≤ MONITORS }
    ensures past { past ≤ result }
    ensures within { result ≤ MONITORS }
    ensures none { (m t : ℕ) → result ≤ m → act_leaves m t act None ≡ None }
{
    match act {
        Act::Acq(monitor) => past.max(monitor + 1),
        Act::Rel(_)
        | Act::Begin(_)
        | Act::End
        | Act::VRead(_)
        | Act::VWrite(_)
        | Act::Fork { .. }
        | Act::Join(_)
        | Act::Alloc(_)
        | Act::Print
        | Act::Input
        | Act::Fail(_) => past,
    }
}

// The monitor behind those so far and the one that the event enters.
fn past_event(past: u16, stamp: &Stamp) -> u16
    requires stamp { IsStampInRange stamp.now }
    requires past { past ≤ MONITORS }
    ensures past { past ≤ result }
    ensures within { result ≤ MONITORS }
    ensures none { (m : ℕ) → result ≤ m → event_leaves m stamp.now None ≡ None }
{
    match stamp.event {
        Event::Act(act) => past_act(past, act),
        Event::Commit(_) => past,
    }
}

// A monitor from which on none is owned by anyone.
fn past_all(events: &[Stamp]) -> u16
    requires { All IsStampInRange events.now }
    ensures within { result ≤ MONITORS }
    ensures none { (m : ℕ) → result ≤ m → hold_of m events.now ≡ None }
{
    let mut past = 0;
    for stamp in events {
        past = past_event(past, stamp);
    }
    past
}

/// The least monitors that the thread owns.
pub fn held(events: &[Stamp], thread: u8) -> Held
    requires { All IsStampInRange events.now }
    ensures { AreLeastHeld (λ m. hold_of m events.now) thread result }
{
    let mut held = Held::empty();
    for monitor in 0..past_all(events) {
        if holds(events, thread, monitor) {
            held.add(monitor);
        }
    }
    held
}
