// Which rows lead to which.
ghost use Rattle.std.specs.Prelude.{◌≡◌, ◌↔◌, ◌<◌, ◌≤◌, ◌+◌, ℕ, false, IfOk, IsTrue, Some, length, slice_get};
ghost use Rattle.gl_model.specs.Edges.{SynchronizesWith};
ghost use Rattle.gl_model.specs.TraceSteps.{is_too_wide};
ghost use Rattle.gl_model.specs.declared.event.Event.{Event as AnEvent};
ghost use Rattle.gl_explain.specs.declared.told.Told.{Told as ATold};
ghost use Rattle.gl_picture.specs.Arrows.{AreNarrow, HasRow, IsArrow, IsBetween, Leads, Selects, event_of, handed_of, stamped};

use gl_explain::Told;
use gl_model::{Act, Event, Item, Judged, Stamp};
use gl_reference::synchronizes;
use std::alloc::{AllocError, Global};

// The event that a line makes, or would have made.
fn event(item: &Item) -> Option<Event>
    requires { is_too_wide item.now ≡ false }
    ensures { result ≡ event_of item.now }
{
    match item {
        Item::Act(act) => Some(Event::Act(*act)),
        Item::Access { .. } => None,
        Item::Commit { reads, writes } => match (*reads).union(writes) {
            Some(variables) => Some(Event::Commit(variables)),
            None => None,
        },
    }
}

// The event by which it hands on.
fn handed(told: &Told) -> Option<Event>
    requires { is_too_wide told.now.item ≡ false }
    ensures { result ≡ handed_of told.now }
{
    match told.judged {
        Judged::Raised { .. } => None,
        Judged::NoAccess | Judged::Performed => event(&told.item),
    }
}

// Whether both are there, and the event of one thread synchronizes with that of the other.
fn meet(first: u8, given: &Option<Event>, second: u8, taken: &Option<Event>) -> bool
    ensures { IsTrue result ↔ ((e : AnEvent) × (f : AnEvent) × (given.now ≡ Some e) × (taken.now ≡ Some f) × SynchronizesWith (stamped first e) (stamped second f)) }
{
    match (given, taken) {
        (Some(given), Some(taken)) => {
            let from = Stamp {
                thread: first,
                event: *given,
            };
            let to = Stamp {
                thread: second,
                event: *taken,
            };
            synchronizes(&from, &to)
        }
        _ => false,
    }
}

/// Whether one of the rows from one place up to another is of the thread.
pub fn has_row(rows: &[Told], thread: u8, from: usize, to: usize) -> bool
    requires { to ≤ length rows.now }
    ensures { IsTrue result ↔ HasRow rows.now thread from to }
{
    for i in from..to {
        if rows[i].thread == thread {
            return true;
        }
    }
    false
}

// Whether the row i, which is the line a, synchronizes with the later row j, which is the line b.
fn leads(rows: &[Told], a: &Told, i: usize, b: &Told, j: usize) -> bool
    requires first { i < length rows.now }
    requires second { j < length rows.now }
    requires narrow { (is_too_wide a.now.item ≡ false) × (is_too_wide b.now.item ≡ false) }
    ensures { IsTrue result ↔ Leads rows.now a.now b.now i j }
{
    let given = handed(a);
    let taken = event(&b.item);
    let begin = Some(Event::Act(Act::Begin(0)));
    let end = Some(Event::Act(Act::End));
    let begun = has_row(rows, b.thread, 0, j);
    let goes_on = has_row(rows, a.thread, i + 1, rows.len());
    let events = meet(a.thread, &given, b.thread, &taken);
    let first = meet(a.thread, &given, b.thread, &begin);
    let last = meet(a.thread, &end, b.thread, &taken);
    events | (first & !begun) | (last & !goes_on)
}

// Whether the row k stands between the rows i and j.
fn is_between(rows: &[Told], i: usize, j: usize, k: usize) -> bool
    requires order { (i < k) × (k < j) × (j < length rows.now) }
    requires narrow { AreNarrow rows.now }
    ensures { (a b c : ATold) → slice_get rows.now i ≡ Some a → slice_get rows.now j ≡ Some b → slice_get rows.now k ≡ Some c → IsTrue result ↔ IsBetween rows.now a b i j k c }
{
    let a = &rows[i];
    let b = &rows[j];
    let c = &rows[k];
    let behind = c.thread == a.thread;
    let before = c.thread == b.thread;
    let to = leads(rows, c, k, b, j);
    let from = leads(rows, a, i, c, k);
    (behind & to) | (before & from)
}

// Whether some row stands between the rows i and j.
fn has_between(rows: &[Told], i: usize, j: usize) -> bool
    requires order { (i < j) × (j < length rows.now) }
    requires narrow { AreNarrow rows.now }
    ensures { (a b : ATold) → slice_get rows.now i ≡ Some a → slice_get rows.now j ≡ Some b → IsTrue result ↔ ((k : ℕ) × (c : ATold) × (i < k) × (k < j) × (slice_get rows.now k ≡ Some c) × IsBetween rows.now a b i j k c) }
{
    for k in i + 1..j {
        if is_between(rows, i, j, k) {
            return true;
        }
    }
    false
}

// Whether an arrow is drawn from row i to the later row j.
fn is_arrow(rows: &[Told], i: usize, j: usize) -> bool
    requires order { (i < j) × (j < length rows.now) }
    requires narrow { AreNarrow rows.now }
    ensures { IsTrue result ↔ IsArrow rows.now i j }
{
    let a = &rows[i];
    let b = &rows[j];
    let apart = a.thread != b.thread;
    let leads = leads(rows, a, i, b, j);
    let between = has_between(rows, i, j);
    apart & leads & !between
}

/// The rows that arrows lead from to row j.
pub fn arrows_to(alloc: Global, rows: &[Told], j: usize) -> Result<Vec<usize>, AllocError>
    requires row { j < length rows.now }
    requires narrow { AreNarrow rows.now }
    ensures { IfOk result (λ from. Selects (λ i. IsArrow rows.now i j) j from.items) }
{
    let mut from = Vec::new(alloc);
    for i in 0..j {
        if is_arrow(rows, i, j) {
            from.push(i)?;
        }
    }
    Ok(from)
}
