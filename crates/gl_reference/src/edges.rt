ghost use Rattle.std.specs.Prelude.{◌≡◌, ◌↔◌, ℕ, IsTrue, Contains, Option, Some, None, List};
ghost use Rattle.gl_model.specs.Edges.{SynchronizesWith, monitor, volatile, released, acquired};
ghost use Rattle.gl_model.specs.declared.event.Act.TheVariants.{Begin, End, Fork, Join};
ghost use Rattle.gl_model.specs.declared.event.Event.TheVariants.{Act as Does, Commit};

use gl_model::{Act, Event, Stamp};

// The monitor that the event leaves.
fn unlocked(event: &Event) -> Option<u16>
    ensures { (o : ℕ) → (released event.now ≡ Some (monitor o)) ↔ (result ≡ Some o) }
{
    match event {
        Event::Act(Act::Rel(o)) => Some(*o),
        Event::Act(_) | Event::Commit(_) => None,
    }
}

// The monitor that the event enters.
fn locked(event: &Event) -> Option<u16>
    ensures { (o : ℕ) → (acquired event.now ≡ Some (monitor o)) ↔ (result ≡ Some o) }
{
    match event {
        Event::Act(Act::Acq(o)) => Some(*o),
        Event::Act(_) | Event::Commit(_) => None,
    }
}

// The volatile that the event writes.
fn written(event: &Event) -> Option<u16>
    ensures { (v : ℕ) → (released event.now ≡ Some (volatile v)) ↔ (result ≡ Some v) }
{
    match event {
        Event::Act(Act::VWrite(v)) => Some(*v),
        Event::Act(_) | Event::Commit(_) => None,
    }
}

// The volatile that the event reads.
fn read(event: &Event) -> Option<u16>
    ensures { (v : ℕ) → (acquired event.now ≡ Some (volatile v)) ↔ (result ≡ Some v) }
{
    match event {
        Event::Act(Act::VRead(v)) => Some(*v),
        Event::Act(_) | Event::Commit(_) => None,
    }
}

// Whether the event is a fork of the thread.
fn forks(event: &Event, u: u8) -> bool
    ensures { IsTrue result ↔ ((g : ℕ) × (event.now ≡ Does (Fork u g))) }
{
    match event {
        Event::Act(Act::Fork { child, .. }) => *child == u,
        Event::Act(_) | Event::Commit(_) => false,
    }
}

// Whether the event is the first of a thread.
fn begins(event: &Event) -> bool
    ensures { IsTrue result ↔ ((k : ℕ) × (event.now ≡ Does (Begin k))) }
{
    matches!(event, Event::Act(Act::Begin(_)))
}

// Whether the event is the last of a thread.
fn ends(event: &Event) -> bool
    ensures { IsTrue result ↔ (event.now ≡ Does End) }
{
    matches!(event, Event::Act(Act::End))
}

// Whether the event is a join of the thread.
fn joins(event: &Event, u: u8) -> bool
    ensures { IsTrue result ↔ (event.now ≡ Does (Join u)) }
{
    match event {
        Event::Act(Act::Join(other)) => *other == u,
        Event::Act(_) | Event::Commit(_) => false,
    }
}

// Whether both are commits and have a variable in common.
fn commits(e: &Event, f: &Event) -> bool
    ensures { IsTrue result ↔ ((x : ℕ) × (xs : List ℕ) × (ys : List ℕ) × (e.now ≡ Commit xs) × (f.now ≡ Commit ys) × Contains xs x × Contains ys x) }
{
    match (e, f) {
        (Event::Commit(xs), Event::Commit(ys)) => xs.meets(ys),
        _ => false,
    }
}

// Whether both are there and are one.
fn are_one(a: Option<u16>, b: Option<u16>) -> bool
    ensures { IsTrue result ↔ ((x : ℕ) × (a ≡ Some x) × (b ≡ Some x)) }
{
    match (a, b) {
        (Some(x), Some(y)) => x == y,
        _ => false,
    }
}

/// Whether the event e synchronizes with the event f, if f comes later.
pub fn synchronizes(e: &Stamp, f: &Stamp) -> bool
    ensures { IsTrue result ↔ SynchronizesWith e.now f.now }
{
    let monitor = are_one(unlocked(&e.event), locked(&f.event));
    let volatile = are_one(written(&e.event), read(&f.event));
    let fork = forks(&e.event, f.thread);
    let begin = begins(&f.event);
    let end = ends(&e.event);
    let join = joins(&f.event, e.thread);
    let commit = commits(&e.event, &f.event);
    monitor | volatile | (fork & begin) | (end & join) | commit
}
