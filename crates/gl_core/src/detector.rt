ghost use Rattle.std.specs.Prelude.{◌≡◌, ℕ, ◌*◌, if◌then◌else◌, false, ◌||◌, length, slice_index_or};
ghost use Rattle.gl_model.specs.declared.limits.TheConstants.{THREADS};
ghost use Rattle.gl_model.specs.declared.event.Act.TheVariants.{Join};
ghost use Rattle.gl_model.specs.Elements.{IsActInRange};
ghost use Rattle.gl_model.specs.TraceSteps.{act_joins};

use crate::commits::{first_race, make_latest, note_all};
use crate::latest::Latest;
use crate::tables::Tables;
use gl_model::{Act, Item, Judged, THREADS, VARIABLES, VarSet};
use gl_shortcut::Cuts;
use std::alloc::{AllocError, Global};

// The threads as a length.
const ALL: usize = THREADS as usize;

/// Judges the lines of a trace, one after another, by vector clocks. It keeps no list of events and no set.
#[derive(Drop)]
pub struct Detector {
    tables: Tables,
    latests: Vec<Latest>,
    ended: [bool; THREADS as usize],
    ticks: u64,
}

// Whether the act joins a thread that has ended.
fn joins_ended(ended: &[bool; THREADS as usize], act: Act) -> bool
    requires { IsActInRange act }
    ensures { (u : ℕ) → act ≡ Join u → result ≡ slice_index_or ended.now u false }
{
    match act {
        Act::Join(other) => ended[other as usize],
        Act::Begin(_)
        | Act::End
        | Act::Acq(_)
        | Act::Rel(_)
        | Act::VRead(_)
        | Act::VWrite(_)
        | Act::Fork { .. }
        | Act::Alloc(_)
        | Act::Print
        | Act::Input
        | Act::Fail(_) => false,
    }
}

// Who is joined by the act has ended.
fn end_joined(ended: &mut [bool; THREADS as usize], act: Act)
    requires { IsActInRange act }
    ensures { (u : ℕ) → slice_index_or ended.new u false ≡ (slice_index_or ended.old u false || act_joins u act) }
{
    match act {
        Act::Join(other) => ended[other as usize] = true,
        Act::Begin(_)
        | Act::End
        | Act::Acq(_)
        | Act::Rel(_)
        | Act::VRead(_)
        | Act::VWrite(_)
        | Act::Fork { .. }
        | Act::Alloc(_)
        | Act::Print
        | Act::Input
        | Act::Fail(_) => {}
    }
}

// How many ticks of what is kept of a variable a plain access looks at, at most.
fn ticks_of_access(write: bool) -> u64
    ensures { result ≡ (if write then THREADS else 1) }
{
    if write { THREADS as u64 } else { 1 }
}

// How many ticks of what is kept of these variables are looked at, where each is looked at once.
fn ticks_of_parts(variables: &VarSet) -> u64
    ensures { result ≡ THREADS * length variables.now }
{
    THREADS as u64 * variables.len() as u64
}

impl Detector {
    ghost use Rattle.std.specs.Prelude.{◌≡◌, ◌+◌, ◌*◌, ◌^◌, ◌<◌, ◌≤◌, ℕ, [], length, IfOk, OnErr, IsErr};
    ghost use Rattle.gl_model.specs.declared.limits.TheConstants.{THREADS, VARIABLES, TX_VARIABLES};
    ghost use Rattle.gl_model.specs.declared.event.Event.TheVariants.{Commit as Commits};
    ghost use Rattle.gl_model.specs.declared.event.Element.TheVariants.{Thread};
    ghost use Rattle.gl_model.specs.declared.row.Item.TheVariants.{Act as Acts, Access as Accesses, Commit as CommitsOn};
    ghost use Rattle.gl_model.specs.declared.row.Judged.TheVariants.{NoAccess};
    ghost use Rattle.gl_model.specs.Elements.{IsActInRange};
    ghost use Rattle.gl_model.specs.Rising.{Rises, with_all};
    ghost use Rattle.gl_model.specs.TraceSteps.{IsStep};
    ghost use Rattle.gl_clocks.specs.Clocks.{taken};
    ghost use Rattle.gl_core.specs.Latests.{latest_of, PlainDone};
    ghost use Rattle.gl_core.specs.Lines.{CommitDone, ClocksDone};
    ghost use Rattle.gl_core.specs.TablesView.{clocks_in};
    ghost use Rattle.gl_core.specs.Follows.{Follows, IsReady, IsStepped, most_ticks};
    ghost use Rattle.std.specs.Prelude.{List, Some, None};
    ghost use Rattle.gl_model.specs.Trace.{Line};
    ghost use Rattle.gl_lines.specs.Traced.{history};
    ghost use Rattle.gl_core.specs.Cells.{at};
    ghost use Rattle.gl_core.specs.EpochLaws.{known_next};

    /// A detector before the first line: thread 0 has begun.
    pub fn new(alloc: Global) -> Result<Detector, AllocError>
        ensures ready { IfOk result IsReady }
        ensures follows { IfOk result (Follows []) }
    {
        let latests = Vec::with_capacity(alloc, VARIABLES as usize)?;
        let mut tables = Tables::new(alloc)?;
        let mut ticks = 0;
        tables.take_act(0, Act::Begin(0), &mut ticks);
        Ok(Detector {
            tables,
            latests,
            ended: [false; THREADS as usize],
            ticks,
        })
    }

    /// Judges the next line, which a trace can have; of a line that has a fault after those before it nothing is promised. It takes no
    /// memory: the error says that no more events can be counted, and the detector is as before. How many ticks are counted of a line is
    /// bounded by its item alone.
    pub fn step(&mut self, thread: u8, item: &Item, _cuts: &Cuts) -> Result<Judged, AllocError>
        requires ready { IsReady self.old }
        requires step { IsStep (thread, item.now) }
        ensures ready { IsReady self.new }
        ensures right { IfOk result (λ judged. IsStepped thread item.now judged self.old self.new) }
        ensures cost { self.new.ticks ≤ self.old.ticks + most_ticks item.now }
        ensures full { IsErr result → 2 ^ 31 ≤ self.old.tables.next }
        ensures err { OnErr result (self.new ≡ self.old) }
    {
        if !self.tables.has_room() {
            return Err(AllocError);
        }
        match item {
            Item::Act(act) => {
                self.act(thread, *act);
                Ok(Judged::NoAccess)
            }
            Item::Access { var, write } => Ok(self.access(thread, *var, *write)),
            Item::Commit { reads, writes } => Ok(self.commit(thread, reads, writes)),
        }
    }

    /// How many ticks of clocks and of what is kept of variables were counted so far, as looked at or moved, up to `u64::MAX`. All that is
    /// kept of one thread's accesses of a variable counts as one. docs/DECISIONS.md says what is not counted.
    pub fn ticks(&self) -> u64
        ensures { result ≡ self.now.ticks }
    {
        self.ticks
    }

    /// How far the thread knows what each thread did, when it makes its next plain access.
    pub fn known(&self, thread: u8) -> &[u32; ALL]
        requires { thread < THREADS }
        ensures { (lines : List Line) → Follows lines self.now → (u : ℕ) → at result.now u ≡ known_next (history lines) thread None u }
    {
        self.tables.known(thread)
    }

    /// The same, when its next access is a commit on these variables.
    pub fn known_to_commit(&self, thread: u8, variables: &VarSet) -> [u32; ALL]
        requires ready { IsReady self.now }
        requires thread { thread < THREADS }
        ensures { (lines : List Line) → Follows lines self.now → (u : ℕ) → at result u ≡ known_next (history lines) thread (Some variables.now) u }
    {
        let mut ticks = 0;
        self.tables.acquired_all(thread, variables, &mut ticks)
    }

    fn act(&mut self, thread: u8, act: Act)
        requires ready { IsReady self.old }
        requires thread { thread < THREADS }
        requires act { IsActInRange act }
        requires room { self.old.tables.next + 3 < 2 ^ 32 }
        ensures ready { IsReady self.new }
        ensures right { IsStepped thread (Acts act) NoAccess self.old self.new }
        ensures cost { self.new.ticks ≤ self.old.ticks + 6 * THREADS }
    {
        let over = joins_ended(&self.ended, act);
        self.tables.take_line(thread, act, over, &mut self.ticks);
        end_joined(&mut self.ended, act);
    }

    fn access(&mut self, thread: u8, var: u16, write: bool) -> Judged
        requires ready { IsReady self.old }
        requires thread { thread < THREADS }
        requires var { var < VARIABLES }
        ensures ready { IsReady self.new }
        ensures tables { self.new.tables ≡ self.old.tables }
        ensures ended { self.new.ended ≡ self.old.ended }
        ensures cost { self.new.ticks ≤ self.old.ticks + most_ticks (Accesses var write) }
        ensures others { (y : ℕ) → (y ≡ var → ⊥) → latest_of self.new.latests.items y ≡ latest_of self.old.latests.items y }
        ensures done { PlainDone (clocks_in self.old.tables (Thread thread)) (latest_of self.old.latests.items var) thread var write result (latest_of self.new.latests.items var) }
    {
        make_latest(&mut self.latests, var);
        self.ticks = self.ticks.saturating_add(ticks_of_access(write));
        self.latests[var as usize].access(self.tables.known(thread), thread, var, write)
    }

    // A commit of more variables than a transaction may have is no line of a trace, and nothing is done.
    fn commit(&mut self, thread: u8, reads: &VarSet, writes: &VarSet) -> Judged
        requires ready { IsReady self.old }
        requires thread { thread < THREADS }
        requires room { self.old.tables.next + 3 < 2 ^ 32 }
        ensures ready { IsReady self.new }
        ensures ended { self.new.ended ≡ self.old.ended }
        ensures cost { self.new.ticks ≤ self.old.ticks + most_ticks (CommitsOn reads.now writes.now) }
        ensures done { length (with_all writes.now reads.now) ≤ TX_VARIABLES → Rises (with_all writes.now reads.now) × CommitDone (taken (clocks_in self.old.tables) (record { thread = thread; event = Commits (with_all writes.now reads.now) })) self.old.latests.items thread self.old.tables.next (with_all writes.now reads.now) writes.now result self.new.latests.items × ClocksDone self.old.tables thread (with_all writes.now reads.now) result self.new.tables }
    {
        match (*reads).union(writes) {
            Some(variables) => self.commit_on(thread, &variables, reads, writes),
            None => Judged::NoAccess,
        }
    }

    // A commit on these variables, which are those that it reads or writes.
    fn commit_on(
        &mut self,
        thread: u8,
        variables: &VarSet,
        reads: &VarSet,
        writes: &VarSet,
    ) -> Judged
        requires ready { IsReady self.old }
        requires variables { variables.now ≡ with_all writes.now reads.now }
        requires thread { thread < THREADS }
        requires room { self.old.tables.next + 3 < 2 ^ 32 }
        ensures ready { IsReady self.new }
        ensures ended { self.new.ended ≡ self.old.ended }
        ensures rising { Rises variables.now }
        ensures cost { self.new.ticks ≤ self.old.ticks + THREADS * (length reads.now + length writes.now + 2 * length variables.now + 1) }
        ensures commit { CommitDone (taken (clocks_in self.old.tables) (record { thread = thread; event = Commits variables.now })) self.old.latests.items thread self.old.tables.next variables.now writes.now result self.new.latests.items }
        ensures clocks { ClocksDone self.old.tables thread variables.now result self.new.tables }
    {
        variables.keeps();
        self.ticks = self.ticks.saturating_add(ticks_of_parts(reads));
        self.ticks = self.ticks.saturating_add(ticks_of_parts(writes));
        let known = self.tables.acquired_all(thread, variables, &mut self.ticks);
        if let Some(var) = first_race(&self.latests, &known, reads, writes, variables) {
            self.ticks = self.ticks.saturating_add(ticks_of_parts(variables));
            return Judged::Raised { var };
        }
        let epoch = self.tables.commit_epoch(thread);
        self.tables
            .take_commit(thread, variables, &known, &mut self.ticks);
        note_all(&mut self.latests, reads, writes, variables, &epoch);
        Judged::Performed
    }
}
