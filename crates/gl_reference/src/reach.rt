ghost use Rattle.std.specs.Prelude.{◌≡◌, ◌↔◌, ◌⊎◌, ◌<◌, ◌≤◌, length, IsTrue, IfOk};
ghost use Rattle.gl_model.specs.declared.event.Stamp.{Stamp as AStamp};
ghost use Rattle.gl_model.specs.Edges.{EventAt};
ghost use Rattle.gl_model.specs.Next.{IsCommitOn, HappensBeforeNext};
ghost use Rattle.gl_reference.specs.Steps.{access_of, IsCommitEdge, Starts, Leads, IsMarked, HasMarked, IsCommitWith, AreMarks};

use crate::edges::synchronizes;
use gl_model::{Event, Stamp, VarSet};
use std::alloc::{AllocError, Global};

/// An access in a list of events.
#[derive(Clone, Copy)]
pub struct Access {
    pub thread: u8,
    /// The position of its thread's last event at or before it.
    pub block: usize,
    /// Its variables, if it is a commit.
    pub variables: Option<VarSet>,
}

// Whether the access is a commit on one of these variables.
fn is_commit_on(access: &Access, variables: &VarSet) -> bool
    ensures { IsTrue result ↔ IsCommitOn (access_of access.now) variables.now }
{
    match &access.variables {
        Some(own) => own.meets(variables),
        None => false,
    }
}

fn is_commit_edge(access: &Access, event: &Event) -> bool
    ensures { IsTrue result ↔ IsCommitEdge (access_of access.now) event.now }
{
    match event {
        Event::Commit(variables) => is_commit_on(access, variables),
        Event::Act(_) => false,
    }
}

// Whether the access orders the event s at q directly.
fn starts(access: &Access, q: usize, s: &Stamp) -> bool
    ensures { IsTrue result ↔ Starts (access_of access.now) q s.now }
{
    let commit = is_commit_edge(access, &s.event);
    let own = s.thread == access.thread;
    let later = access.block < q;
    later & (own | commit)
}

// Whether the event r orders the event s, which comes later, directly.
fn leads(r: &Stamp, s: &Stamp) -> bool
    ensures { IsTrue result ↔ Leads r.now s.now }
{
    let edge = synchronizes(r, s);
    let own = s.thread == r.thread;
    own | edge
}

fn leads_from(events: &[Stamp], marks: &[bool], p: usize, s: &Stamp) -> bool
    requires here { p < length marks.now }
    requires within { length marks.now ≤ length events.now }
    ensures { IsTrue result ↔ IsMarked events.now marks.now (λ r. Leads r s.now) p }
{
    let marked = marks[p];
    let r = &events[p];
    let led = leads(r, s);
    marked & led
}

fn is_led_to(events: &[Stamp], marks: &[bool], s: &Stamp) -> bool
    requires { length marks.now ≤ length events.now }
    ensures { IsTrue result ↔ HasMarked events.now marks.now (λ r. Leads r s.now) }
{
    for p in 0..marks.len() {
        if leads_from(events, marks, p, s) {
            return true;
        }
    }
    false
}

// Whether the access reaches the event behind those that are marked.
fn is_reached(events: &[Stamp], access: &Access, marks: &[bool]) -> bool
    requires { length marks.now < length events.now }
    ensures { (s : AStamp) → EventAt events.now (length marks.now) s → IsTrue result ↔ (Starts (access_of access.now) (length marks.now) s ⊎ HasMarked events.now marks.now (λ r. Leads r s)) }
{
    let s = &events[marks.len()];
    let first = starts(access, marks.len(), s);
    let later = is_led_to(events, marks, s);
    first | later
}

// Which events the access reaches.
fn reached(alloc: Global, events: &[Stamp], access: &Access) -> Result<Vec<bool>, AllocError>
    ensures { IfOk result (λ marks. AreMarks events.now (access_of access.now) marks.items × (length marks.items ≡ length events.now)) }
{
    let mut marks = Vec::new(alloc);
    for i in 0..events.len() {
        let mark = is_reached(events, access, &marks);
        marks.push(mark)?;
    }
    Ok(marks)
}

fn is_of(events: &[Stamp], marks: &[bool], p: usize, u: u8) -> bool
    requires here { p < length marks.now }
    requires within { length marks.now ≤ length events.now }
    ensures { IsTrue result ↔ IsMarked events.now marks.now (λ r. r.thread ≡ u) p }
{
    let marked = marks[p];
    let r = &events[p];
    let own = r.thread == u;
    marked & own
}

// Whether an event of the thread is marked.
fn has_one_of(events: &[Stamp], marks: &[bool], u: u8) -> bool
    requires { length marks.now ≤ length events.now }
    ensures { IsTrue result ↔ HasMarked events.now marks.now (λ r. r.thread ≡ u) }
{
    for p in 0..marks.len() {
        if is_of(events, marks, p, u) {
            return true;
        }
    }
    false
}

fn is_commit_with(s: &Stamp, variables: &VarSet) -> bool
    ensures { IsTrue result ↔ IsCommitWith variables.now s.now }
{
    match &s.event {
        Event::Commit(own) => own.meets(variables),
        Event::Act(_) => false,
    }
}

fn is_marked_commit(events: &[Stamp], marks: &[bool], p: usize, variables: &VarSet) -> bool
    requires here { p < length marks.now }
    requires within { length marks.now ≤ length events.now }
    ensures { IsTrue result ↔ IsMarked events.now marks.now (IsCommitWith variables.now) p }
{
    let marked = marks[p];
    let r = &events[p];
    let commit = is_commit_with(r, variables);
    marked & commit
}

// Whether a commit on one of these variables is marked.
fn has_commit_with(events: &[Stamp], marks: &[bool], variables: &VarSet) -> bool
    requires { length marks.now ≤ length events.now }
    ensures { IsTrue result ↔ HasMarked events.now marks.now (IsCommitWith variables.now) }
{
    for p in 0..marks.len() {
        if is_marked_commit(events, marks, p, variables) {
            return true;
        }
    }
    false
}

/// Whether the access happens before a next access of thread u behind these events: a plain one, or a commit on these variables.
pub fn happens_before_next(
    alloc: Global,
    events: &[Stamp],
    access: &Access,
    u: u8,
    variables: Option<VarSet>,
) -> Result<bool, AllocError>
    ensures { IfOk result (λ ordered. IsTrue ordered ↔ HappensBeforeNext events.now (access_of access.now) u variables) }
{
    let marks = reached(alloc, events, access)?;
    let thread = has_one_of(events, &marks, u);
    let own = access.thread == u;
    match variables {
        None => Ok(own | thread),
        Some(variables) => {
            let one = is_commit_on(access, &variables);
            let later = has_commit_with(events, &marks, &variables);
            Ok(own | thread | one | later)
        }
    }
}
