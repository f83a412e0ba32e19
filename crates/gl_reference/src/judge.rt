ghost use Rattle.std.specs.Prelude.{◌≡◌};

use crate::keeping::{all_of, end_joined, first_events, joins_ended, keep_each, last_of, push_act};
use crate::races::{Next, Performed, first_racy, is_racy};
use crate::reach::Access;
use gl_model::{Act, Event, Item, Judged, Stamp, THREADS, VarSet};
use std::alloc::{AllocError, Global};

/// Judges the lines of a trace, one after another, by the definition of a race.
#[derive(Drop)]
pub struct SlowJudge {
    events: Vec<Stamp>,
    performed: Vec<Performed>,
    ended: [bool; THREADS as usize],
}

impl SlowJudge {
    ghost use Rattle.std.specs.Prelude.{◌≡◌, ◌≤◌, [], ℕ, List, length, IfOk, OnErr};
    ghost use Rattle.gl_model.specs.declared.limits.TheConstants.{TX_VARIABLES};
    ghost use Rattle.gl_model.specs.declared.row.Item.TheVariants.{Act as Acts};
    ghost use Rattle.gl_model.specs.declared.row.Judged.TheVariants.{NoAccess};
    ghost use Rattle.gl_model.specs.Elements.{IsActInRange};
    ghost use Rattle.gl_model.specs.Rising.{Rises, with_all};
    ghost use Rattle.gl_model.specs.TraceSteps.{IsStep};
    ghost use Rattle.gl_reference.specs.Lines.{PlainDone, CommitDone};
    ghost use Rattle.gl_reference.specs.Follows.{Follows, IsAsBefore, IsStepped};

    /// A judge before the first line: thread 0 has begun.
    pub fn new(alloc: Global) -> Result<SlowJudge, AllocError>
        ensures { IfOk result (Follows []) }
    {
        let events = first_events(alloc)?;
        Ok(SlowJudge {
            events,
            performed: Vec::new(alloc),
            ended: [false; THREADS as usize],
        })
    }

    /// Judges the next line, which a trace can have and which has no fault behind those before it. Without memory the judge is as
    /// before.
    pub fn step(&mut self, alloc: Global, thread: u8, item: &Item) -> Result<Judged, AllocError>
        requires { IsStep (thread, item.now) }
        ensures right { IfOk result (λ judged. IsStepped thread item.now judged self.old self.new) }
        ensures err { OnErr result (IsAsBefore self.old self.new) }
    {
        match item {
            Item::Act(act) => {
                self.act(thread, *act)?;
                Ok(Judged::NoAccess)
            }
            Item::Access { var, write } => self.access(alloc, thread, *var, *write),
            Item::Commit { reads, writes } => self.commit(alloc, thread, reads, writes),
        }
    }

    fn act(&mut self, thread: u8, act: Act) -> Result<(), AllocError>
        requires { IsActInRange act }
        ensures right { IfOk result (λ _. IsStepped thread (Acts act) NoAccess self.old self.new) }
        ensures err { OnErr result (IsAsBefore self.old self.new) }
    {
        self.events.reserve(2)?;
        let over = joins_ended(&self.ended, act);
        push_act(&mut self.events, thread, act, over);
        end_joined(&mut self.ended, act);
        Ok(())
    }

    fn access(
        &mut self,
        alloc: Global,
        thread: u8,
        var: u16,
        write: bool,
    ) -> Result<Judged, AllocError>
        ensures events { self.new.events.items ≡ self.old.events.items }
        ensures ended { self.new.ended ≡ self.old.ended }
        ensures done { IfOk result (λ judged. PlainDone self.old.events.items self.old.performed.items thread var write judged self.new.performed.items) }
        ensures err { OnErr result (self.new.performed.items ≡ self.old.performed.items) }
    {
        self.performed.reserve(1)?;
        let next = Next {
            thread,
            var,
            write,
            variables: None,
        };
        if is_racy(alloc, &self.events, &self.performed, &next)? {
            return Ok(Judged::Raised { var });
        }
        let access = Access {
            thread,
            block: last_of(&self.events, thread),
            variables: None,
        };
        self.performed
            .push_reserved(Performed { access, var, write });
        Ok(Judged::Performed)
    }

    fn commit(
        &mut self,
        alloc: Global,
        thread: u8,
        reads: &VarSet,
        writes: &VarSet,
    ) -> Result<Judged, AllocError>
        ensures ended { self.new.ended ≡ self.old.ended }
        ensures done { IfOk result (λ judged. (variables : List ℕ) × Rises variables × (length (with_all writes.now reads.now) ≤ TX_VARIABLES → variables ≡ with_all writes.now reads.now) × CommitDone self.old.events.items self.old.performed.items thread variables writes.now judged self.new.events.items self.new.performed.items) }
        ensures err { OnErr result (IsAsBefore self.old self.new) }
    {
        let variables = all_of(reads, writes);
        variables.keeps();
        self.events.reserve(1)?;
        self.performed.reserve(variables.len())?;
        if let Some(var) = first_racy(
            alloc,
            &self.events,
            &self.performed,
            thread,
            variables,
            writes,
        )? {
            return Ok(Judged::Raised { var });
        }
        let block = self.events.len();
        self.events.push_reserved(Stamp {
            thread,
            event: Event::Commit(variables),
        });
        keep_each(&mut self.performed, thread, block, &variables, writes);
        Ok(Judged::Performed)
    }
}
