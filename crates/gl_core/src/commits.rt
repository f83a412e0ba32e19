// A commit over what is kept of its variables.
ghost use Rattle.std.specs.Prelude.{◌≡◌, ℕ, ◌<◌, ◌≤◌, ◌==◌, length, find, if◌then◌else◌, vec_capacity, true, false};
ghost use Rattle.gl_model.specs.declared.limits.TheConstants.{THREADS, VARIABLES};
ghost use Rattle.gl_model.specs.Trace.{is_in};
ghost use Rattle.gl_core.specs.Cells.{at};
ghost use Rattle.gl_core.specs.Latests.{latest_of, part_fails, noted};
ghost use Rattle.gl_core.specs.Marks.{latest_fails};
ghost use Rattle.gl_model.specs.Rising.{with_all};
ghost use Rattle.std.specs.List.{list_any};

use crate::latest::{Epoch, Latest};
use gl_model::{THREADS, VarSet};

// The threads as a length.
const ALL: usize = THREADS as usize;

// Whether a commit with these writes writes the variable.
fn writes_to(writes: &VarSet, var: u16) -> bool
    ensures { result ≡ is_in var writes.now }
{
    writes.has(var)
}

// Whether a commit that writes the variable, or only reads it, is racy on it.
fn fails_on(latests: &[Latest], known: &[u32; ALL], var: u16, write: bool) -> bool
    ensures { result ≡ latest_fails (at known.now) true write (latest_of latests.now var) }
{
    match latests.get(var as usize) {
        Some(latest) => latest.fails(known, true, write),
        None => false,
    }
}

// Whether a commit that writes all of these variables, or only reads all, is racy on one of them.
fn some_fail(latests: &[Latest], known: &[u32; ALL], variables: &VarSet, write: bool) -> bool
    ensures { result ≡ list_any (λ x. latest_fails (at known.now) true write (latest_of latests.now x)) variables.now }
{
    variables
        .ids()
        .iter()
        .any(|var| fails_on(latests, known, *var, write))
}

// Whether a commit with these writes is racy on the variable.
fn fails_part(latests: &[Latest], known: &[u32; ALL], writes: &VarSet, var: u16) -> bool
    ensures { result ≡ part_fails (at known.now) writes.now latests.now var }
{
    fails_on(latests, known, var, writes_to(writes, var))
}

// The first variable on which a commit is racy, looked for among all.
fn find_race(
    latests: &[Latest],
    known: &[u32; ALL],
    variables: &VarSet,
    writes: &VarSet,
) -> Option<u16>
    ensures { result ≡ find (part_fails (at known.now) writes.now latests.now) variables.now }
{
    variables
        .ids()
        .iter()
        .copied()
        .find(|var| fails_part(latests, known, writes, *var))
}

// The first variable on which a commit is racy. Most are racy on none, and then it is not asked of each variable whether it is written.
pub(crate) fn first_race(
    latests: &[Latest],
    known: &[u32; ALL],
    reads: &VarSet,
    writes: &VarSet,
    variables: &VarSet,
) -> Option<u16>
    requires { variables.now ≡ with_all writes.now reads.now }
    ensures { result ≡ find (part_fails (at known.now) writes.now latests.now) variables.now }
{
    if some_fail(latests, known, reads, false) {
        return find_race(latests, known, variables, writes);
    }
    if some_fail(latests, known, writes, true) {
        return find_race(latests, known, variables, writes);
    }
    None
}

// What is kept of the variable has its place.
pub(crate) fn make_latest(latests: &mut Vec<Latest>, var: u16)
    requires within { var < VARIABLES }
    requires room { VARIABLES ≤ vec_capacity latests.old }
    ensures same { (y : ℕ) → latest_of latests.new.items y ≡ latest_of latests.old.items y }
    ensures there { var < length latests.new.items }
    ensures room { VARIABLES ≤ vec_capacity latests.new }
{
    while latests.len() <= var as usize {
        latests.push_reserved(Latest::untouched());
    }
}

// Notes a commit on one variable.
fn note_one(latests: &mut Vec<Latest>, var: u16, write: bool, epoch: &Epoch)
    requires thread { epoch.now.thread < THREADS }
    requires within { var < VARIABLES }
    requires room { VARIABLES ≤ vec_capacity latests.old }
    ensures noted { (y : ℕ) → latest_of latests.new.items y ≡ (if y == var then noted write epoch.now (latest_of latests.old.items y) else latest_of latests.old.items y) }
    ensures room { VARIABLES ≤ vec_capacity latests.new }
{
    make_latest(latests, var);
    latests[var as usize].note(epoch, write);
}

// Notes a commit on each of these variables, which it writes, or only reads.
fn note_each(latests: &mut Vec<Latest>, variables: &VarSet, write: bool, epoch: &Epoch)
    requires thread { epoch.now.thread < THREADS }
    requires room { VARIABLES ≤ vec_capacity latests.old }
    ensures noted { (y : ℕ) → latest_of latests.new.items y ≡ (if is_in y variables.now then noted write epoch.now (latest_of latests.old.items y) else latest_of latests.old.items y) }
    ensures room { VARIABLES ≤ vec_capacity latests.new }
{
    for var in variables.ids() {
        note_one(latests, *var, write, epoch);
    }
}

// Notes a commit on each of its variables. A write drops the reads, so one that is both read and written may be noted as read before.
pub(crate) fn note_all(
    latests: &mut Vec<Latest>,
    reads: &VarSet,
    writes: &VarSet,
    variables: &VarSet,
    epoch: &Epoch,
)
    requires thread { epoch.now.thread < THREADS }
    requires room { VARIABLES ≤ vec_capacity latests.old }
    requires variables { variables.now ≡ with_all writes.now reads.now }
    ensures noted { (y : ℕ) → latest_of latests.new.items y ≡ (if is_in y variables.now then noted (is_in y writes.now) epoch.now (latest_of latests.old.items y) else latest_of latests.old.items y) }
    ensures room { VARIABLES ≤ vec_capacity latests.new }
{
    note_each(latests, reads, false, epoch);
    note_each(latests, writes, true, epoch);
}
