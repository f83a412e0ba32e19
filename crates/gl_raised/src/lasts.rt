// What is kept of a variable: of each thread the last plain read, plain write, commit read and commit write.
ghost use Rattle.std.specs.Prelude.{◌≡◌, ◌≢◌, ℕ, ◌<◌, Bool, true, IsTrue, ◌↔◌, Option, None, slice_index_or};
ghost use Rattle.gl_core.specs.Cells.{at};
ghost use Rattle.gl_model.specs.declared.limits.TheConstants.{THREADS};
ghost use Rattle.gl_raised.specs.Lasts.{at_least, later, mark_of, noted, noted_where, thread_fails};

use crate::access::Access;
use crate::rows::ALL;

// Of each thread the greatest tick of an access of one kind, if it made any.
type Ticks = [Option<u64>; ALL];

/// Of each thread the greatest tick of its plain reads of a variable, of its plain writes, and of the commits that read it and that write
/// it.
#[derive(Clone, Copy)]
pub(crate) struct Lasts {
    plain_reads: Ticks,
    plain_writes: Ticks,
    commit_reads: Ticks,
    commit_writes: Ticks,
}

// No access.
fn no_ticks() -> Ticks
    ensures { (t : ℕ) → slice_index_or result t None ≡ None }
{
    [None; ALL]
}

// Whether the last access of a kind is not known to who knows so much of its thread.
fn at_least(last: Option<u64>, known: u32) -> bool
    ensures { result ≡ at_least last known }
{
    match last {
        Some(tick) => u64::from(known) <= tick,
        None => false,
    }
}

// The greater of the last tick and of this one.
fn later(last: Option<u64>, tick: u64) -> Option<u64>
    ensures { result ≡ later last tick }
{
    match last {
        Some(before) => Some(before.max(tick)),
        None => Some(tick),
    }
}

// Notes the access, where it is of the kind.
fn note_where(ticks: &mut Ticks, of_kind: bool, access: &Access)
    requires { access.now.thread < THREADS }
    ensures { (t : ℕ) → slice_index_or ticks.new t None ≡ noted_where access.now of_kind t (slice_index_or ticks.old t None) }
{
    if of_kind {
        ticks[access.thread as usize] = later(ticks[access.thread as usize], access.tick);
    }
}

impl Lasts {
    /// No access.
    pub(crate) fn none() -> Lasts
        ensures { (commit write : Bool) (t : ℕ) → mark_of result commit write t ≡ None }
    {
        Lasts {
            plain_reads: no_ticks(),
            plain_writes: no_ticks(),
            commit_reads: no_ticks(),
            commit_writes: no_ticks(),
        }
    }

    /// Notes a performed access.
    pub(crate) fn note(&mut self, access: &Access)
        requires { access.now.thread < THREADS }
        ensures { (commit write : Bool) (t : ℕ) → mark_of self.new commit write t ≡ noted access.now commit write t (mark_of self.old commit write t) }
    {
        let Access { commit, write, .. } = *access;
        note_where(&mut self.plain_reads, !commit & !write, access);
        note_where(&mut self.plain_writes, !commit & write, access);
        note_where(&mut self.commit_reads, commit & !write, access);
        note_where(&mut self.commit_writes, commit & write, access);
    }

    // Whether an access that conflicts with one of thread t is not known to who knows so much of it: a commit and a commit do not
    // conflict, nor do two reads.
    fn thread_fails(&self, known: u32, t: usize, commit: bool, write: bool) -> bool
        requires { t < THREADS }
        ensures { result ≡ thread_fails self.now known t commit write }
    {
        at_least(self.plain_writes[t], known)
            | (write & at_least(self.plain_reads[t], known))
            | (!commit & at_least(self.commit_writes[t], known))
            | (!commit & write & at_least(self.commit_reads[t], known))
    }

    /// Whether an access of another thread that conflicts with this one is not known to it.
    pub(crate) fn fails(&self, known: &[u32; ALL], access: &Access) -> bool
        ensures { IsTrue result ↔ ((t : ℕ) × (t < THREADS) × (t ≢ access.now.thread) × (thread_fails self.now (at known.now t) t access.now.commit access.now.write ≡ true)) }
    {
        for t in 0..ALL {
            if t != access.thread as usize
                && self.thread_fails(known[t], t, access.commit, access.write)
            {
                return true;
            }
        }
        false
    }
}
