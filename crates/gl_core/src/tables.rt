// The clocks of threads, monitors, volatiles and committed variables.
ghost use Rattle.std.specs.Prelude.{◌≡◌, ℕ, ◌+◌, ◌*◌, ◌^◌, ◌<◌, ◌≤◌, ◌==◌, List, length, max, if◌then◌else◌, slice_index_or, IfOk, [], vec_capacity};
ghost use Rattle.gl_model.specs.declared.limits.TheConstants.{THREADS, MONITORS, VOLATILES, VARIABLES};
ghost use Rattle.gl_model.specs.Trace.{is_in};
ghost use Rattle.gl_core.specs.Cells.{at, cell};

use crate::latest::Epoch;
use gl_model::{Act, MONITORS, THREADS, VARIABLES, VOLATILES, VarSet};
use std::alloc::{AllocError, Global};

// The threads as a length.
const ALL: usize = THREADS as usize;

/// How far each thread, monitor, volatile and committed variable knows what each thread did, and how many events there were.
#[derive(Drop)]
pub struct Tables {
    threads: [[u32; ALL]; ALL],
    monitors: Vec<[u32; ALL]>,
    volatiles: Vec<[u32; ALL]>,
    variables: Vec<[u32; ALL]>,
    next: u32,
}

// A clock that knows what both know.
fn join(into: &mut [u32; ALL], from: &[u32; ALL], ticks: &mut u64)
    ensures joined { (u : ℕ) → at into.new u ≡ max (at into.old u) (at from.now u) }
    ensures cost { ticks.new ≤ ticks.old + THREADS }
{
    for u in 0..ALL {
        into[u] = into[u].max(from[u]);
    }
    *ticks = ticks.saturating_add(THREADS as u64);
}

// A clock with what its own thread knows of itself.
fn put_own(clock: &mut [u32; ALL], thread: u8, own: u32)
    requires { thread < THREADS }
    ensures { (u : ℕ) → at clock.new u ≡ (if u == thread then own else at clock.old u) }
{
    clock[thread as usize] = own;
}

// A clock joined with one of a table.
fn join_at(into: &mut [u32; ALL], table: &[[u32; ALL]], i: usize, ticks: &mut u64)
    ensures joined { (u : ℕ) → at into.new u ≡ max (at into.old u) (cell table.now i u) }
    ensures cost { ticks.new ≤ ticks.old + THREADS }
{
    if let Some(clock) = table.get(i) {
        join(into, clock, ticks);
    }
}

// One clock of a table joined with a clock.
fn raise_at(table: &mut [[u32; ALL]], i: usize, by: &[u32; ALL], ticks: &mut u64)
    requires { i < length table.old }
    ensures joined { (j : ℕ) (u : ℕ) → cell table.new j u ≡ (if j == i then max (cell table.old j u) (at by.now u) else cell table.old j u) }
    ensures cost { ticks.new ≤ ticks.old + THREADS }
{
    let mut clock = table[i];
    join(&mut clock, by, ticks);
    table[i] = clock;
}

// One clock of a table joined with one of another table.
#[inline(always)]
fn raise_from(table: &mut [[u32; ALL]], i: usize, from: &[[u32; ALL]], k: usize, ticks: &mut u64)
    requires { i < length table.old }
    ensures joined { (j : ℕ) (u : ℕ) → cell table.new j u ≡ (if j == i then max (cell table.old j u) (cell from.now k u) else cell table.old j u) }
    ensures cost { ticks.new ≤ ticks.old + THREADS }
{
    if let Some(clock) = from.get(k) {
        raise_at(table, i, clock, ticks);
    }
}

// Room for so many clocks. A clock is only put there when it comes to know something, so no page of the room is touched before.
fn room_for_clocks(alloc: Global, count: u16) -> Result<Vec<[u32; ALL]>, AllocError>
    ensures { IfOk result (λ table. (count ≤ vec_capacity table) × (table.items ≡ [])) }
{
    Vec::with_capacity(alloc, count as usize)
}

// There is a clock at the place, where there is room for so many.
fn make_clock(table: &mut Vec<[u32; ALL]>, i: u16, most: u16)
    requires within { i < most }
    requires room { most ≤ vec_capacity table.old }
    ensures same { (j : ℕ) (u : ℕ) → cell table.new.items j u ≡ cell table.old.items j u }
    ensures there { i < length table.new.items }
    ensures room { most ≤ vec_capacity table.new }
{
    while table.len() <= i as usize {
        table.push_reserved([0; ALL]);
    }
}

// One clock of a table joined with a clock, where there is room for so many. It is joined in a copy, which nothing else can name, so
// that all threads are joined at once.
#[inline(always)]
fn raise_in(table: &mut Vec<[u32; ALL]>, i: u16, most: u16, by: &[u32; ALL], ticks: &mut u64)
    requires within { i < most }
    requires room { most ≤ vec_capacity table.old }
    ensures joined { (j : ℕ) (u : ℕ) → cell table.new.items j u ≡ (if j == i then max (cell table.old.items j u) (at by.now u) else cell table.old.items j u) }
    ensures room { most ≤ vec_capacity table.new }
    ensures cost { ticks.new ≤ ticks.old + THREADS }
{
    make_clock(table, i, most);
    let mut clock = table[i as usize];
    join(&mut clock, by, ticks);
    table[i as usize] = clock;
}

// The threads' clocks, which know nothing.
fn first_threads() -> [[u32; ALL]; ALL]
    ensures { (t u : ℕ) → cell result t u ≡ 0 }
{
    [[0; ALL]; ALL]
}

// These clocks of a table joined with a clock.
fn raise_each(table: &mut Vec<[u32; ALL]>, variables: &VarSet, by: &[u32; ALL], ticks: &mut u64)
    requires { VARIABLES ≤ vec_capacity table.old }
    ensures joined { (x : ℕ) (u : ℕ) → cell table.new.items x u ≡ (if is_in x variables.now then max (cell table.old.items x u) (at by.now u) else cell table.old.items x u) }
    ensures room { VARIABLES ≤ vec_capacity table.new }
    ensures cost { ticks.new ≤ ticks.old + THREADS * length variables.now }
{
    for var in variables.ids() {
        raise_in(table, *var, VARIABLES, by, ticks);
    }
}

impl Tables {
    ghost use Rattle.std.specs.Prelude.{◌≡◌, ◌+◌, ◌*◌, ◌^◌, ◌<◌, ◌≤◌, ℕ, List, [], length, max, if◌then◌else◌, IfOk};
    ghost use Rattle.gl_core.specs.TablesView.{clocks_in, IsSized, AreClocksOf};
    ghost use Rattle.gl_core.specs.Lines.{commit_epoch};
    ghost use Rattle.std.specs.Prelude.{◌↔◌, IsTrue, slice_index_or};
    ghost use Rattle.gl_clocks.specs.Clocks.{taken, is_thread, is_var_of, is_released_by};
    ghost use Rattle.gl_lines.specs.Traced.{Traced, with_stamp, after_act};
    ghost use Rattle.gl_model.specs.declared.event.Act.TheVariants.{Join};
    ghost use Rattle.gl_model.specs.declared.event.Element.{Element};
    ghost use Rattle.gl_model.specs.declared.event.Element.TheVariants.{Thread};
    ghost use Rattle.gl_model.specs.declared.event.Event.TheVariants.{Act as Does, Commit};
    ghost use Rattle.gl_model.specs.declared.event.Stamp.{Stamp};
    ghost use Rattle.gl_model.specs.Elements.{IsActInRange};

    /// The clocks before the first event.
    pub fn new(alloc: Global) -> Result<Tables, AllocError>
        ensures { IfOk result (λ s. IsSized s × AreClocksOf [] s) }
    {
        Ok(Tables {
            threads: first_threads(),
            monitors: room_for_clocks(alloc, MONITORS)?,
            volatiles: room_for_clocks(alloc, VOLATILES)?,
            variables: room_for_clocks(alloc, VARIABLES)?,
            next: 0,
        })
    }

    /// The thread knows what the act acquires.
    fn acquire(&mut self, thread: u8, act: Act, ticks: &mut u64)
        requires sized { IsSized self.old }
        requires thread { thread < THREADS }
        requires act { IsActInRange act }
        ensures sized { IsSized self.new }
        ensures next { self.new.next ≡ self.old.next }
        ensures known { (y : Element) (u : ℕ) → clocks_in self.new y u ≡ (if is_thread thread y then taken (clocks_in self.old) (record { thread = thread; event = Does act }) u else clocks_in self.old y u) }
        ensures cost { ticks.new ≤ ticks.old + THREADS }
    {
        let i = thread as usize;
        match act {
            Act::Acq(o) => raise_from(&mut self.threads, i, &self.monitors, o as usize, ticks),
            Act::VRead(v) => raise_from(&mut self.threads, i, &self.volatiles, v as usize, ticks),
            Act::Join(other) => {
                let known = self.threads[other as usize];
                raise_at(&mut self.threads, i, &known, ticks);
            }
            Act::Begin(_)
            | Act::End
            | Act::Rel(_)
            | Act::VWrite(_)
            | Act::Fork { .. }
            | Act::Alloc(_)
            | Act::Print
            | Act::Input
            | Act::Fail(_) => {}
        }
    }

    /// What the act releases knows what the thread knows.
    fn release(&mut self, thread: u8, act: Act, ticks: &mut u64)
        requires sized { IsSized self.old }
        requires thread { thread < THREADS }
        requires act { IsActInRange act }
        ensures sized { IsSized self.new }
        ensures next { self.new.next ≡ self.old.next }
        ensures raised { (y : Element) (u : ℕ) → clocks_in self.new y u ≡ (if is_released_by act y then max (clocks_in self.old y u) (clocks_in self.old (Thread thread) u) else clocks_in self.old y u) }
        ensures cost { ticks.new ≤ ticks.old + THREADS }
    {
        let by = &self.threads[thread as usize];
        match act {
            Act::Rel(o) => raise_in(&mut self.monitors, o, MONITORS, by, ticks),
            Act::VWrite(v) => raise_in(&mut self.volatiles, v, VOLATILES, by, ticks),
            Act::Fork { child, .. } => {
                let known = *by;
                raise_at(&mut self.threads, child as usize, &known, ticks);
            }
            Act::Begin(_)
            | Act::End
            | Act::Acq(_)
            | Act::VRead(_)
            | Act::Join(_)
            | Act::Alloc(_)
            | Act::Print
            | Act::Input
            | Act::Fail(_) => {}
        }
    }

    /// The thread knows so much of itself.
    fn put_own(&mut self, thread: u8, own: u32)
        requires sized { IsSized self.old }
        requires thread { thread < THREADS }
        ensures sized { IsSized self.new }
        ensures next { self.new.next ≡ self.old.next }
        ensures put { (y : Element) (u : ℕ) → clocks_in self.new y u ≡ (if is_thread thread y then (if u == thread then own else clocks_in self.old y u) else clocks_in self.old y u) }
    {
        put_own(&mut self.threads[thread as usize], thread, own);
    }

    /// The thread's clock is this one.
    fn put_thread(&mut self, thread: u8, clock: &[u32; ALL])
        requires sized { IsSized self.old }
        requires thread { thread < THREADS }
        ensures sized { IsSized self.new }
        ensures next { self.new.next ≡ self.old.next }
        ensures put { (y : Element) (u : ℕ) → clocks_in self.new y u ≡ (if is_thread thread y then at clock.now u else clocks_in self.old y u) }
    {
        self.threads[thread as usize] = *clock;
    }

    /// An act of the thread, more. The clocks are moved where they lie; the thread's own tick counts as one more.
    pub fn take_act(&mut self, thread: u8, act: Act, ticks: &mut u64)
        requires sized { IsSized self.old }
        requires thread { thread < THREADS }
        requires act { IsActInRange act }
        requires room { self.old.next + 2 < 2 ^ 32 }
        ensures sized { IsSized self.new }
        ensures next { self.new.next ≡ self.old.next + 1 }
        ensures clocks { (h : List Stamp) → AreClocksOf h self.old → AreClocksOf (with_stamp h thread (Does act)) self.new }
        ensures cost { ticks.new ≤ ticks.old + 3 * THREADS }
    {
        self.acquire(thread, act, ticks);
        self.put_own(thread, self.next + 1);
        self.release(thread, act, ticks);
        self.put_own(thread, self.next + 2);
        *ticks = ticks.saturating_add(1);
        self.next += 1;
    }

    /// What the thread knows after what a commit on these variables acquires.
    pub fn acquired_all(&self, thread: u8, variables: &VarSet, ticks: &mut u64) -> [u32; ALL]
        requires sized { IsSized self.now }
        requires thread { thread < THREADS }
        ensures known { (u : ℕ) → at result u ≡ taken (clocks_in self.now) (record { thread = thread; event = Commit variables.now }) u }
        ensures cost { ticks.new ≤ ticks.old + THREADS * length variables.now }
    {
        let mut known = self.threads[thread as usize];
        for var in variables.ids() {
            join_at(&mut known, &self.variables, *var as usize, ticks);
        }
        known
    }

    /// These variables know what the clock knows.
    fn release_all(&mut self, variables: &VarSet, by: &[u32; ALL], ticks: &mut u64)
        requires sized { IsSized self.old }
        ensures sized { IsSized self.new }
        ensures next { self.new.next ≡ self.old.next }
        ensures raised { (y : Element) (u : ℕ) → clocks_in self.new y u ≡ (if is_var_of variables.now y then max (clocks_in self.old y u) (at by.now u) else clocks_in self.old y u) }
        ensures cost { ticks.new ≤ ticks.old + THREADS * length variables.now }
    {
        raise_each(&mut self.variables, variables, by, ticks);
    }

    /// A commit of the thread, more, by what it knows after what it acquires.
    pub fn take_commit(
        &mut self,
        thread: u8,
        variables: &VarSet,
        acquired: &[u32; ALL],
        ticks: &mut u64,
    )
        requires sized { IsSized self.old }
        requires thread { thread < THREADS }
        requires known { (u : ℕ) → at acquired.now u ≡ taken (clocks_in self.old) (record { thread = thread; event = Commit variables.now }) u }
        requires room { self.old.next + 2 < 2 ^ 32 }
        ensures sized { IsSized self.new }
        ensures next { self.new.next ≡ self.old.next + 1 }
        ensures clocks { (h : List Stamp) → AreClocksOf h self.old → AreClocksOf (with_stamp h thread (Commit variables.now)) self.new }
        ensures cost { ticks.new ≤ ticks.old + THREADS * (length variables.now + 1) }
    {
        let mut known = *acquired;
        put_own(&mut known, thread, self.next + 1);
        self.release_all(variables, &known, ticks);
        put_own(&mut known, thread, self.next + 2);
        self.put_thread(thread, &known);
        *ticks = ticks.saturating_add(THREADS as u64);
        self.next += 1;
    }

    /// The events of an act of the thread, more: who is joined ends first, where it has not ended, and who is forked begins.
    pub(crate) fn take_line(&mut self, thread: u8, act: Act, over: bool, ticks: &mut u64)
        requires sized { IsSized self.old }
        requires thread { thread < THREADS }
        requires act { IsActInRange act }
        requires room { self.old.next + 3 < 2 ^ 32 }
        ensures sized { IsSized self.new }
        ensures clocks { (s : Traced) → AreClocksOf s.history self.old → ((u : ℕ) → act ≡ Join u → over ≡ s.tracing.ended u) → AreClocksOf (after_act thread act s).history self.new }
        ensures cost { ticks.new ≤ ticks.old + 6 * THREADS }
    {
        match act {
            Act::Fork { child, func } => {
                self.take_act(thread, act, ticks);
                self.take_act(child, Act::Begin(func), ticks);
            }
            Act::Join(other) => {
                if !over {
                    self.take_act(other, Act::End, ticks);
                }
                self.take_act(thread, act, ticks);
            }
            Act::Begin(_)
            | Act::End
            | Act::Acq(_)
            | Act::Rel(_)
            | Act::VRead(_)
            | Act::VWrite(_)
            | Act::Alloc(_)
            | Act::Print
            | Act::Input
            | Act::Fail(_) => self.take_act(thread, act, ticks),
        }
    }

    /// What the thread knows.
    pub fn known(&self, thread: u8) -> &[u32; ALL]
        requires { thread < THREADS }
        ensures { result.now ≡ slice_index_or self.now.threads thread [] }
    {
        &self.threads[thread as usize]
    }

    /// A commit of the thread that is the next event.
    pub(crate) fn commit_epoch(&self, thread: u8) -> Epoch
        requires { self.now.next + 2 < 2 ^ 32 }
        ensures { result ≡ commit_epoch thread self.now.next }
    {
        Epoch {
            thread,
            mark: self.next + 1,
            commit: true,
        }
    }

    /// Whether the events of one more line can be counted.
    pub fn has_room(&self) -> bool
        ensures { IsTrue result ↔ (self.now.next < 2 ^ 31) }
    {
        self.next < 1 << 31
    }
}
