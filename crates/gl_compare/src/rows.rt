// The rows of all variables, which are judged and noted as the shared table's are, with no short cut.
ghost use Rattle.std.specs.Prelude.{◌≡◌, ℕ, ◌<◌, ◌≤◌, ◌+◌, All, IfOk, Some, length};
ghost use Rattle.gl_model.specs.declared.limits.TheConstants.{THREADS};
ghost use Rattle.gl_model.specs.declared.row.Info.{Info as AnInfo};
ghost use Rattle.gl_model.specs.Elements.{IsStampInRange};
ghost use Rattle.gl_model.specs.Trace.{is_in};
ghost use Rattle.gl_draws.specs.RowFacts.{IsWithin, read_of};
ghost use Rattle.gl_judge.specs.Noted.{IsNoted};
ghost use Rattle.gl_compare.specs.Kept.{AreWithin};
ghost use Rattle.gl_compare.specs.Rows.{row_of, asked_part, Tells, TellsFirst, AreNoted};

use gl_judge::{Verdict, judge, note};
use gl_model::{Info, Question, Row, Stamp, THREADS, VarSet};
use gl_shortcut::Cuts;
use std::alloc::AllocError;

// There are at least so many rows; of the new ones no access was made.
fn make_rows(rows: &mut Vec<Row>, count: usize) -> Result<(), AllocError>
    ensures enough { IfOk result (λ _. count ≤ length rows.new.items) }
    ensures within { (n : ℕ) → AreWithin n rows.old.items → AreWithin n rows.new.items }
    ensures same { (y : ℕ) → row_of rows.new.items y ≡ row_of rows.old.items y }
{
    for _ in rows.len()..count {
        rows.push(Row {
            value: 0,
            last_write: None,
            reads: [None; THREADS as usize],
        })?;
    }
    Ok(())
}

fn lower(kept: &Option<Info>, from: usize) -> usize
    ensures upto { result ≤ from }
    ensures below { (i : AnInfo) → kept.now ≡ Some i → result ≤ i.pos }
{
    match kept {
        None => from,
        Some(info) => from.min(info.pos as usize),
    }
}

fn least_read(reads: &[Option<Info>], end: usize) -> usize
    ensures upto { result ≤ end }
    ensures below { (t : ℕ) (i : AnInfo) → read_of reads.now t ≡ Some i → result ≤ i.pos }
{
    let mut from = end;
    for read in reads {
        from = lower(read, from);
    }
    from
}

// What a row says of a next access, over the events from the least position of its Infos on.
fn is_race(row: &Row, q: &Question, events: &[Stamp]) -> bool
    requires thread { q.now.thread < THREADS }
    requires range { All IsStampInRange events.now }
    requires within { IsWithin row.now (length events.now) }
    ensures { Tells events.now row.now q.now result }
{
    let from = lower(&row.last_write, least_read(&row.reads, events.len()));
    match judge(row, q, from as u64, &events[from..], &Cuts::none()) {
        Verdict::Race => true,
        Verdict::Ordered => false,
    }
}

/// Whether a next access of the variable completes a race. Of a variable that has no row no access was performed.
pub fn races(rows: &[Row], var: u16, q: &Question, events: &[Stamp]) -> bool
    requires thread { q.now.thread < THREADS }
    requires range { All IsStampInRange events.now }
    requires within { AreWithin (length events.now) rows.now }
    ensures { Tells events.now (row_of rows.now var) q.now result }
{
    match rows.get(var as usize) {
        None => false,
        Some(row) => is_race(row, q, events),
    }
}

/// Notes a performed access in the row of its variable.
pub fn note_in(rows: &mut Vec<Row>, var: u16, q: &Question, pos: usize) -> Result<(), AllocError>
    requires thread { q.now.thread < THREADS }
    ensures noted { IfOk result (λ _. IsNoted (row_of rows.old.items var) q.now pos (row_of rows.new.items var)) }
    ensures others { IfOk result (λ _. (y : ℕ) → (y ≡ var → ⊥) → row_of rows.new.items y ≡ row_of rows.old.items y) }
    ensures within { (n : ℕ) → pos ≤ n → AreWithin n rows.old.items → IfOk result (λ _. AreWithin n rows.new.items) }
{
    make_rows(rows, var as usize + 1)?;
    note(&mut rows[var as usize], q, pos as u64);
    Ok(())
}

fn writes_to(writes: &VarSet, var: u16) -> bool
    ensures { result ≡ is_in var writes.now }
{
    writes.has(var)
}

// The part of a commit that speaks of one of its variables.
fn part(commit: &Question, writes: &VarSet, var: u16) -> Question
    ensures { result ≡ asked_part commit.now writes.now var }
{
    Question {
        thread: commit.thread,
        write: writes_to(writes, var),
        commit: commit.commit,
        held: commit.held,
    }
}

/// The least variable on which a next commit completes a race.
pub fn first_race(
    rows: &[Row],
    commit: &Question,
    variables: &VarSet,
    writes: &VarSet,
    events: &[Stamp],
) -> Option<u16>
    requires thread { commit.now.thread < THREADS }
    requires range { All IsStampInRange events.now }
    requires within { AreWithin (length events.now) rows.now }
    ensures { TellsFirst events.now rows.now variables.now (asked_part commit.now writes.now) result }
{
    for var in variables.ids() {
        if races(rows, *var, &part(commit, writes, *var), events) {
            return Some(*var);
        }
    }
    None
}

/// Notes a performed commit in the row of each of its variables.
pub fn note_each(
    rows: &mut Vec<Row>,
    commit: &Question,
    variables: &VarSet,
    writes: &VarSet,
    pos: usize,
) -> Result<(), AllocError>
    requires thread { commit.now.thread < THREADS }
    ensures noted { IfOk result (λ _. AreNoted variables.now (asked_part commit.now writes.now) pos rows.old.items rows.new.items) }
    ensures within { (n : ℕ) → pos ≤ n → AreWithin n rows.old.items → IfOk result (λ _. AreWithin n rows.new.items) }
{
    for var in variables.ids() {
        note_in(rows, *var, &part(commit, writes, *var), pos)?;
    }
    Ok(())
}
