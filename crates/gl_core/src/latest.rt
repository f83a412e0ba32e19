// What is kept of a variable: its last write and each thread's last read since.
ghost use Rattle.std.specs.Prelude.{◌≡◌, ℕ, ◌<◌, nat_lt, false, replicate};
ghost use Rattle.gl_model.specs.declared.limits.TheConstants.{THREADS};
ghost use Rattle.gl_core.specs.Cells.{at};
ghost use Rattle.gl_core.specs.Marks.{marks_fail, IsAlone};

use gl_model::{Judged, THREADS};
use std::marker::Model;

// The threads as a length.
const ALL: usize = THREADS as usize;

/// When an access was performed: by which thread, behind how many events, and whether it is a commit. The mark is one more than the number
/// of events, so that 0 is the mark of no access.
#[derive(Clone, Copy)]
pub struct Epoch {
    pub thread: u8,
    pub mark: u32,
    pub commit: bool,
}

/// A variable's last write and each thread's last read since. A plain access has its mark among `reads` or in `written`, a
/// commit among `parts` or in `committed`. Where not many threads have read since, `reader` is the only one that may have.
#[derive(Drop)]
pub struct Latest {
    writer: u8,
    written: u32,
    committed: u32,
    reads: [u32; ALL],
    parts: [u32; ALL],
    reader: u8,
    many: bool,
}

impl Model for Latest {
    ghost use Rattle.std.specs.Prelude.{◌≡◌, ◌<◌, false};
    ghost use Rattle.gl_model.specs.declared.limits.TheConstants.{THREADS};
    ghost use Rattle.gl_core.specs.Marks.{Marks, IsAlone};

    ghost Value = { Marks };

    ghost view = { λ s. record { writer = s.writer; written = s.written; committed = s.committed; reads = s.reads; parts = s.parts } };

    ghost invariant = { λ s. (s.reader < THREADS) × (s.writer < THREADS) × (s.many ≡ false → IsAlone s.reader s.reads s.parts) };
}

// Whether an access with the mark is unknown to who knows so much of its thread.
fn mark_fails(known: u32, mark: u32) -> bool
    ensures { result ≡ nat_lt known mark }
{
    known < mark
}

// Whether the access of some thread is unknown.
fn any_fails(known: &[u32; ALL], marks: &[u32; ALL]) -> bool
    ensures { result ≡ marks_fail (at known.now) 0 marks.now }
{
    let mut fails = false;
    for u in 0..ALL {
        fails = fails | mark_fails(known[u], marks[u]);
    }
    fails
}

// Whether the access of some thread is unknown, where no thread but one may have made any.
fn only_fails(known: &[u32; ALL], marks: &[u32; ALL], reader: u8) -> bool
    requires reader { reader < THREADS }
    requires alone { (u : ℕ) → (u ≡ reader → ⊥) → at marks.now u ≡ 0 }
    ensures { result ≡ marks_fail (at known.now) 0 marks.now }
{
    mark_fails(known[reader as usize], marks[reader as usize])
}

// The marks of no access, in place of these.
fn wipe(marks: &mut [u32; ALL], reader: u8, many: bool)
    requires reader { reader < THREADS }
    requires alone { many ≡ false → (u : ℕ) → (u ≡ reader → ⊥) → at marks.old u ≡ 0 }
    ensures { marks.new ≡ replicate THREADS 0 }
{
    if many {
        *marks = [0; ALL];
    } else {
        marks[reader as usize] = 0;
    }
}

// Whether another thread may have read, where the thread reads now.
fn is_shared(many: bool, reader: u8, thread: u8, reads: &[u32; ALL], parts: &[u32; ALL]) -> bool
    requires reader { reader < THREADS }
    requires alone { many ≡ false → IsAlone reader reads.now parts.now }
    ensures { result ≡ false → IsAlone thread reads.now parts.now }
{
    if many {
        return true;
    }
    if reader == thread {
        return false;
    }
    reads[reader as usize] != 0 || parts[reader as usize] != 0
}

impl Epoch {
    ghost use Rattle.std.specs.Prelude.{◌≡◌};
    ghost use Rattle.gl_core.specs.Latests.{plain_mark, commit_mark};

    // Its mark where it is plain, else 0.
    fn plain_mark(&self) -> u32
        ensures { result ≡ plain_mark self.now }
    {
        if self.commit { 0 } else { self.mark }
    }

    // Its mark where it is a commit, else 0.
    fn commit_mark(&self) -> u32
        ensures { result ≡ commit_mark self.now }
    {
        if self.commit { self.mark } else { 0 }
    }
}

impl Latest {
    ghost use Rattle.std.specs.Prelude.{◌≡◌, ◌<◌, true, false};
    ghost use Rattle.gl_model.specs.declared.limits.TheConstants.{THREADS};
    ghost use Rattle.gl_core.specs.Cells.{at};
    ghost use Rattle.gl_core.specs.Marks.{write_fails, reads_fail, latest_fails};
    ghost use Rattle.gl_core.specs.Latests.{untouched, noted, PlainDone};

    // No access was performed.
    pub(crate) fn untouched() -> Latest
        ensures { result ≡ untouched }
    {
        Latest {
            writer: 0,
            written: 0,
            committed: 0,
            reads: [0; ALL],
            parts: [0; ALL],
            reader: 0,
            many: false,
        }
    }

    // Whether the last write is unknown; what commits make never conflicts with a commit.
    fn write_fails(&self, known: &[u32; ALL], commit: bool) -> bool
        ensures { result ≡ write_fails (at known.now) commit self.now }
    {
        let own = known[self.writer as usize];
        mark_fails(own, self.written) || (!commit && mark_fails(own, self.committed))
    }

    // Whether some read since is unknown.
    fn reads_fail(&self, known: &[u32; ALL], commit: bool) -> bool
        ensures { result ≡ reads_fail (at known.now) commit self.now }
    {
        if self.many {
            any_fails(known, &self.reads) || (!commit && any_fails(known, &self.parts))
        } else {
            only_fails(known, &self.reads, self.reader)
                || (!commit && only_fails(known, &self.parts, self.reader))
        }
    }

    // Whether an access that conflicts with a next one, by what its thread knows, does not happen before it.
    pub(crate) fn fails(&self, known: &[u32; ALL], commit: bool, write: bool) -> bool
        ensures { result ≡ latest_fails (at known.now) commit write self.now }
    {
        self.write_fails(known, commit) || (write && self.reads_fail(known, commit))
    }

    // The last write, which drops the reads.
    fn put_write(&mut self, epoch: &Epoch)
        requires { epoch.now.thread < THREADS }
        ensures { self.new ≡ noted true epoch.now self.old }
    {
        wipe(&mut self.reads, self.reader, self.many);
        wipe(&mut self.parts, self.reader, self.many);
        self.many = false;
        self.writer = epoch.thread;
        self.written = epoch.plain_mark();
        self.committed = epoch.commit_mark();
    }

    // Its thread's last read.
    fn put_read(&mut self, epoch: &Epoch)
        requires { epoch.now.thread < THREADS }
        ensures { self.new ≡ noted false epoch.now self.old }
    {
        self.many = is_shared(
            self.many,
            self.reader,
            epoch.thread,
            &self.reads,
            &self.parts,
        );
        self.reader = epoch.thread;
        self.reads[epoch.thread as usize] = epoch.plain_mark();
        self.parts[epoch.thread as usize] = epoch.commit_mark();
    }

    // A performed access is the last write, and drops the reads, or its thread's last read.
    pub(crate) fn note(&mut self, epoch: &Epoch, write: bool)
        requires { epoch.now.thread < THREADS }
        ensures { self.new ≡ noted write epoch.now self.old }
    {
        if write {
            self.put_write(epoch);
        } else {
            self.put_read(epoch);
        }
    }

    // Judges a plain access by what its thread knows, and notes it where it is performed.
    pub(crate) fn access(&mut self, known: &[u32; ALL], thread: u8, var: u16, write: bool) -> Judged
        requires { thread < THREADS }
        ensures { PlainDone (at known.now) self.old thread var write result self.new }
    {
        if self.fails(known, false, write) {
            return Judged::Raised { var };
        }
        let epoch = Epoch {
            thread,
            mark: known[thread as usize],
            commit: false,
        };
        self.note(&epoch, write);
        Judged::Performed
    }
}
