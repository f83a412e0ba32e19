ghost use Rattle.std.specs.Prelude.{◌≡◌, ◌<◌, None, length, replicate};
ghost use Rattle.gl_model.specs.declared.limits.TheConstants.{THREADS};
ghost use Rattle.gl_judge.specs.Noted.{IsNewInfo, IsNoted};

use gl_model::{Info, Lockset, Question, Row};

/// The Info of an access that is performed at a position.
pub fn new_info(q: &Question, pos: u64) -> Info
    requires { q.now.thread < THREADS }
    ensures { IsNewInfo q.now pos result }
{
    let set = match &q.commit {
        None => Lockset::start_plain(q.thread),
        Some(variables) => Lockset::start_commit(q.thread, variables),
    };
    Info {
        thread: q.thread,
        write: q.write,
        commit: q.commit.is_some(),
        held: q.held,
        pos,
        set,
    }
}

// Drops all reads.
fn forget(reads: &mut [Option<Info>])
    ensures { reads.new ≡ replicate (length reads.old) None }
{
    reads.fill(None);
}

/// Keeps a performed access, whose window begins at the position: a write drops the reads, a read takes the place of its
/// thread's.
pub fn note(row: &mut Row, q: &Question, pos: u64)
    requires { q.now.thread < THREADS }
    ensures { IsNoted row.old q.now pos row.new }
{
    let info = new_info(q, pos);
    if q.write {
        row.last_write = Some(info);
        forget(&mut row.reads);
    } else {
        row.reads[q.thread as usize] = Some(info);
    }
}
