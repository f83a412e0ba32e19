// The side of the rows: locksets walked over the list of events, as the shared table judges, with no short cut.
ghost use Rattle.std.specs.Prelude.{◌≡◌, ◌≤◌, length};
ghost use Rattle.gl_model.specs.declared.limits.TheConstants.{TX_VARIABLES};
ghost use Rattle.gl_model.specs.Rising.{with_all};
ghost use Rattle.gl_compare.specs.Rows.{asked_plain, asked_commit};

use crate::events::{end_joined, joins_ended, push, push_act};
use crate::owned::held;
use crate::rows::{first_race, note_each, note_in, races};
use gl_model::{Act, Event, Held, Item, Judged, Question, Row, Stamp, THREADS, VarSet};
use std::alloc::{AllocError, Global};

/// Judges the lines of a trace, one after another, by a row for each variable over the list of all events.
#[derive(Drop)]
pub struct RowJudge {
    events: Vec<Stamp>,
    // those of the variables up to the greatest of which an access was performed
    rows: Vec<Row>,
    ended: [bool; THREADS as usize],
}

// What a plain access of the thread asks, which owns these monitors.
fn plain(thread: u8, write: bool, held: Held) -> Question
    ensures { result ≡ asked_plain thread write held }
{
    Question {
        thread,
        write,
        commit: None,
        held,
    }
}

// What a commit of the thread on these variables asks, but for whether it writes.
fn commit_on(thread: u8, variables: &VarSet, held: Held) -> Question
    ensures { result ≡ asked_commit thread variables.now held }
{
    Question {
        thread,
        write: false,
        commit: Some(*variables),
        held,
    }
}

// The variables of a commit that reads and writes these; one has at most so many as a transaction may have.
fn all_of(reads: &VarSet, writes: &VarSet) -> VarSet
    ensures { length (with_all writes.now reads.now) ≤ TX_VARIABLES → result ≡ with_all writes.now reads.now }
{
    reads.union(writes).unwrap_or(*reads)
}

impl RowJudge {
    ghost use Rattle.std.specs.Prelude.{◌≡◌, ◌<◌, ◌≤◌, [], ℕ, List, length, IfOk};
    ghost use Rattle.gl_model.specs.declared.limits.TheConstants.{THREADS, TX_VARIABLES};
    ghost use Rattle.gl_model.specs.declared.row.Item.TheVariants.{Act as Acts};
    ghost use Rattle.gl_model.specs.declared.row.Judged.TheVariants.{NoAccess};
    ghost use Rattle.gl_model.specs.Elements.{IsActInRange};
    ghost use Rattle.gl_model.specs.Rising.{Rises, with_all};
    ghost use Rattle.gl_model.specs.TraceSteps.{IsStep};
    ghost use Rattle.gl_compare.specs.Held.{hold_of, AreLeastHeld};
    ghost use Rattle.gl_compare.specs.Kept.{IsReady};
    ghost use Rattle.gl_compare.specs.Rows.{row_of, asked_plain, asked_commit, asked_part, PlainDone, CommitDone};
    ghost use Rattle.gl_compare.specs.RowsFollow.{Follows, IsStepped};

    /// A judge before the first line: thread 0 has begun.
    pub fn new(alloc: Global) -> Result<RowJudge, AllocError>
        ensures ready { IfOk result IsReady }
        ensures follows { IfOk result (Follows []) }
    {
        let mut events = Vec::new(alloc);
        push(&mut events, 0, Event::Act(Act::Begin(0)))?;
        Ok(RowJudge {
            events,
            rows: Vec::new(alloc),
            ended: [false; THREADS as usize],
        })
    }

    /// Judges the next line, which a trace can have. Of a line that has a fault after those before it nothing is promised.
    pub fn step(&mut self, thread: u8, item: &Item) -> Result<Judged, AllocError>
        requires ready { IsReady self.old }
        requires step { IsStep (thread, item.now) }
        ensures ready { IfOk result (λ _. IsReady self.new) }
        ensures right { IfOk result (λ judged. IsStepped thread item.now judged self.old self.new) }
    {
        match item {
            Item::Act(act) => {
                self.act(thread, *act)?;
                Ok(Judged::NoAccess)
            }
            Item::Access { var, write } => self.access(thread, *var, *write),
            Item::Commit { reads, writes } => self.commit(thread, reads, writes),
        }
    }

    fn act(&mut self, thread: u8, act: Act) -> Result<(), AllocError>
        requires ready { IsReady self.old }
        requires thread { thread < THREADS }
        requires act { IsActInRange act }
        ensures ready { IfOk result (λ _. IsReady self.new) }
        ensures right { IfOk result (λ _. IsStepped thread (Acts act) NoAccess self.old self.new) }
    {
        let over = joins_ended(&self.ended, act);
        push_act(&mut self.events, thread, act, over)?;
        end_joined(&mut self.ended, act);
        Ok(())
    }

    fn access(&mut self, thread: u8, var: u16, write: bool) -> Result<Judged, AllocError>
        requires ready { IsReady self.old }
        requires thread { thread < THREADS }
        ensures ready { IfOk result (λ _. IsReady self.new) }
        ensures events { self.new.events.items ≡ self.old.events.items }
        ensures ended { self.new.ended ≡ self.old.ended }
        ensures others { IfOk result (λ _. (y : ℕ) → (y ≡ var → ⊥) → row_of self.new.rows.items y ≡ row_of self.old.rows.items y) }
        ensures done { IfOk result (λ judged. (held : List ℕ) × AreLeastHeld (λ m. hold_of m self.old.events.items) thread held × PlainDone self.old.events.items (row_of self.old.rows.items var) (asked_plain thread write held) var judged (row_of self.new.rows.items var)) }
    {
        let q = plain(thread, write, held(&self.events, thread));
        if races(&self.rows, var, &q, &self.events) {
            return Ok(Judged::Raised { var });
        }
        note_in(&mut self.rows, var, &q, self.events.len())?;
        Ok(Judged::Performed)
    }

    fn commit(&mut self, thread: u8, reads: &VarSet, writes: &VarSet) -> Result<Judged, AllocError>
        requires ready { IsReady self.old }
        requires thread { thread < THREADS }
        ensures ready { IfOk result (λ _. IsReady self.new) }
        ensures ended { self.new.ended ≡ self.old.ended }
        ensures done { IfOk result (λ judged. (held variables : List ℕ) × AreLeastHeld (λ m. hold_of m self.old.events.items) thread held × Rises variables × (length (with_all writes.now reads.now) ≤ TX_VARIABLES → variables ≡ with_all writes.now reads.now) × CommitDone self.old.events.items self.old.rows.items thread variables (asked_part (asked_commit thread variables held) writes.now) judged self.new.events.items self.new.rows.items) }
    {
        let variables = all_of(reads, writes);
        variables.keeps();
        let commit = commit_on(thread, &variables, held(&self.events, thread));
        if let Some(var) = first_race(&self.rows, &commit, &variables, writes, &self.events) {
            return Ok(Judged::Raised { var });
        }
        push(&mut self.events, thread, Event::Commit(variables))?;
        note_each(
            &mut self.rows,
            &commit,
            &variables,
            writes,
            self.events.len(),
        )?;
        Ok(Judged::Performed)
    }
}
