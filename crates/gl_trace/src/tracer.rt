// The record of a trace, line by line.
ghost use Rattle.std.specs.Prelude.{◌≡◌, ◌+◌, ◌-◌, ◌*◌, ◌<◌, ◌≤◌, ◌^◌, ℕ, List, map, pos, length, nat_lt, false, true, not, slice_index, IfOk, OnOk};
ghost use Rattle.gl_model.specs.Elements.{IsActInRange};
ghost use Rattle.gl_model.specs.Entries.{seen};
ghost use Rattle.gl_model.specs.Kept.{IsEntryInRange};
ghost use Rattle.gl_model.specs.Lists.{lists_of};
ghost use Rattle.gl_model.specs.Rising.{with_all};
ghost use Rattle.gl_model.specs.Trace.{Line, Tracing, with_entry, with_act, with_end, with_line, with_plain, with_commit, with_item, with_over, with_ending, is_empty, with_numbers, before_lines, after_lines, trace_record, line_tx, look_count};
ghost use Rattle.gl_model.specs.TraceSteps.{IsLineAct, IsLineItem, is_too_wide};
ghost use Rattle.gl_model.specs.declared.limits.TheConstants.{THREADS, VARIABLES, TX_VARIABLES};
ghost use Rattle.gl_model.specs.Entries.{Commit as CommitEntry};
ghost use Rattle.gl_trace.specs.Judging.{Suits, AreJudged, judged_lines, line_of};
ghost use Rattle.gl_trace.specs.Traced.{KeepsRecorded, Traces, IsUpTo, nothing};
ghost use Rattle.gl_trace.specs.declared.limits.TheConstants.{TRACE_LINES};

use crate::kept::Trace;
use crate::union::both;
use gl_model::{
    Act, Ending, Entry, Item, Judged, Look, Looks, Number, Numbers, Pair, Pairs, Record, THREADS,
    Tx, VARIABLES, VarSet, Why,
};
use std::alloc::{AllocError, Global};

const THREAD_ROOM: usize = THREADS as usize;

const VARIABLE_ROOM: usize = VARIABLES as usize;

// The look at a variable, with its next number.
fn look_at(numbers: &[u64], var: u16) -> Look
    requires { var < length numbers.now }
    ensures { result ≡ record { var = var; value = pos 0; nth = slice_index numbers.now var } }
{
    Look {
        var,
        value: 0,
        nth: numbers[usize::from(var)],
    }
}

// The next number of a variable.
fn number_at(numbers: &[u64], var: u16) -> Number
    requires { var < length numbers.now }
    ensures { result ≡ record { var = var; nth = slice_index numbers.now var } }
{
    Number {
        var,
        nth: numbers[usize::from(var)],
    }
}

// The looks of a commit, each with the next number of its variable.
fn looks_of(numbers: &[u64], reads: &VarSet) -> Looks
    requires { length numbers.now ≡ VARIABLES }
    ensures { result ≡ map (λ x. record { var = x; value = pos 0; nth = slice_index numbers.now x }) reads.now }
{
    let mut looks = Looks::empty();
    reads.keeps();
    for var in reads.ids() {
        match looks.put(look_at(numbers, *var)) {
            Ok(()) => {}
            Err(_) => unreachable!(),
        }
    }
    looks
}

// The writes of a commit.
fn writes_of(writes: &VarSet) -> Pairs
    ensures { result ≡ map (λ x. record { var = x; value = pos 0 }) writes.now }
{
    let mut pairs = Pairs::empty();
    writes.keeps();
    for var in writes.ids() {
        match pairs.put(Pair {
            var: *var,
            value: 0,
        }) {
            Ok(()) => {}
            Err(_) => unreachable!(),
        }
    }
    pairs
}

// The next number of each variable.
fn numbers_of(numbers: &[u64], variables: &VarSet) -> Numbers
    requires { length numbers.now ≡ VARIABLES }
    ensures { result ≡ map (λ x. record { var = x; nth = slice_index numbers.now x }) variables.now }
{
    let mut drawn = Numbers::empty();
    variables.keeps();
    for var in variables.ids() {
        match drawn.put(number_at(numbers, *var)) {
            Ok(()) => {}
            Err(_) => unreachable!(),
        }
    }
    drawn
}

// Draws a number on each variable.
fn draw_each(numbers: &mut [u64], variables: &VarSet)
    requires room { length numbers.old ≡ VARIABLES }
    requires low { (x : ℕ) → x < VARIABLES → slice_index numbers.old x < 2 ^ 64 - 1 }
    ensures { (x : ℕ) → x < VARIABLES → slice_index numbers.new x ≡ slice_index numbers.old x + look_count variables.now x }
{
    variables.keeps();
    for var in variables.ids() {
        numbers[usize::from(*var)] += 1;
    }
}

/// Makes the record that a trace stands for, line by line: the record so far, the next position, the next number of each
/// variable, and who has ended.
#[derive(Drop)]
pub struct Tracer {
    history: Record,
    next: u64,
    numbers: [u64; VARIABLE_ROOM],
    ended: [bool; THREAD_ROOM],
}

impl Tracer {
    // Puts the entry behind those of its thread.
    fn push(&mut self, thread: u8, entry: Entry) -> Result<(), AllocError>
        requires thread { thread < THREADS }
        requires entry { IsEntryInRange (seen entry) }
        ensures lists { OnOk result ((u : ℕ) → lists_of self.new.history u ≡ with_entry (lists_of self.old.history) thread (seen entry) u) }
        ensures next { self.new.next ≡ self.old.next }
        ensures numbers { self.new.numbers ≡ self.old.numbers }
        ensures ended { self.new.ended ≡ self.old.ended }
        ensures kept { KeepsRecorded self.old self.new }
    {
        self.history.keeps();
        self.history
            .push(thread, entry)
            .map_err(|refused| refused.1)?;
        Ok(())
    }

    // The thread makes an event.
    fn act(&mut self, thread: u8, act: Act) -> Result<(), AllocError>
        requires thread { thread < THREADS }
        requires act { IsActInRange act }
        requires room { IsUpTo (2 ^ 64 - 2) self.old }
        ensures traces { (s : Tracing) → Traces s self.old → OnOk result (Traces (with_act thread act s) self.new) }
        ensures most { (a b : ℕ) → a + 1 ≤ b → IsUpTo a self.old → OnOk result (IsUpTo b self.new) }
        ensures kept { KeepsRecorded self.old self.new }
    {
        let at = self.next;
        self.push(thread, Entry::Sync { at, act, value: 0 })?;
        self.next += 1;
        Ok(())
    }

    // The thread makes its End.
    fn end(&mut self, thread: u8) -> Result<(), AllocError>
        requires thread { thread < THREADS }
        requires room { IsUpTo (2 ^ 64 - 2) self.old }
        ensures traces { (s : Tracing) → Traces s self.old → OnOk result (Traces (with_end thread s) self.new) }
        ensures most { (a b : ℕ) → a + 1 ≤ b → IsUpTo a self.old → OnOk result (IsUpTo b self.new) }
        ensures kept { KeepsRecorded self.old self.new }
    {
        self.act(thread, Act::End)?;
        self.ended[usize::from(thread)] = true;
        Ok(())
    }

    // The thread forks another, which begins.
    fn fork(&mut self, thread: u8, child: u8, func: u16) -> Result<(), AllocError>
        requires thread { thread < THREADS }
        requires act { IsLineAct (Act.Fork child func) }
        requires room { IsUpTo (2 ^ 64 - 3) self.old }
        ensures traces { (s : Tracing) → Traces s self.old → OnOk result (Traces (with_line thread (Act.Fork child func) s) self.new) }
        ensures most { (a b : ℕ) → a + 2 ≤ b → IsUpTo a self.old → OnOk result (IsUpTo b self.new) }
        ensures kept { KeepsRecorded self.old self.new }
    {
        self.act(thread, Act::Fork { child, func })?;
        self.act(child, Act::Begin(func))
    }

    // The thread joins another, which ends first if it has not ended.
    fn join(&mut self, thread: u8, other: u8) -> Result<(), AllocError>
        requires thread { thread < THREADS }
        requires other { other < THREADS }
        requires room { IsUpTo (2 ^ 64 - 3) self.old }
        ensures traces { (s : Tracing) → Traces s self.old → OnOk result (Traces (with_line thread (Act.Join other) s) self.new) }
        ensures most { (a b : ℕ) → a + 2 ≤ b → IsUpTo a self.old → OnOk result (IsUpTo b self.new) }
        ensures kept { KeepsRecorded self.old self.new }
    {
        if self.ended[usize::from(other)] {
            return self.act(thread, Act::Join(other));
        }
        self.end(other)?;
        self.act(thread, Act::Join(other))
    }

    // The events of a line that is no access.
    fn line(&mut self, thread: u8, act: Act) -> Result<(), AllocError>
        requires thread { thread < THREADS }
        requires act { IsLineAct act }
        requires room { IsUpTo (2 ^ 64 - 3) self.old }
        ensures traces { (s : Tracing) → Traces s self.old → OnOk result (Traces (with_line thread act s) self.new) }
        ensures most { (a b : ℕ) → a + 2 ≤ b → IsUpTo a self.old → OnOk result (IsUpTo b self.new) }
        ensures kept { KeepsRecorded self.old self.new }
    {
        match act {
            Act::Fork { child, func } => self.fork(thread, child, func),
            Act::Join(other) => self.join(thread, other),
            Act::Begin(_) => self.act(thread, act),
            Act::End => self.act(thread, act),
            Act::Acq(_) => self.act(thread, act),
            Act::Rel(_) => self.act(thread, act),
            Act::VRead(_) => self.act(thread, act),
            Act::VWrite(_) => self.act(thread, act),
            Act::Alloc(_) => self.act(thread, act),
            Act::Print => self.act(thread, act),
            Act::Input => self.act(thread, act),
            Act::Fail(_) => self.act(thread, act),
        }
    }

    // An access draws the next number of its variable.
    fn plain(&mut self, thread: u8, var: u16, write: bool, raised: bool) -> Result<(), AllocError>
        requires thread { thread < THREADS }
        requires var { var < VARIABLES }
        requires room { IsUpTo (2 ^ 64 - 2) self.old }
        ensures traces { (s : Tracing) → Traces s self.old → OnOk result (Traces (with_plain thread var write raised s) self.new) }
        ensures most { (a b : ℕ) → a + 2 ≤ b → IsUpTo a self.old → OnOk result (IsUpTo b self.new) }
        ensures kept { KeepsRecorded self.old self.new }
    {
        let nth = self.numbers[usize::from(var)];
        self.push(
            thread,
            Entry::Plain {
                var,
                nth,
                cached: false,
                write,
                value: 0,
                raised,
            },
        )?;
        self.numbers[usize::from(var)] += 1;
        Ok(())
    }

    // The transaction of a commit: its looks draw their numbers, and then it draws its own.
    fn draw(&mut self, reads: VarSet, writes: &VarSet) -> Tx
        requires few { nat_lt TX_VARIABLES (length (with_all writes.now reads)) ≡ false }
        requires room { IsUpTo (2 ^ 64 - 3) self.old }
        ensures tx { (s : Tracing) → Traces s self.old → result ≡ line_tx reads writes.now s.numbers }
        ensures drawn { (x : ℕ) → x < VARIABLES → slice_index self.new.numbers x ≡ with_numbers reads writes.now (slice_index self.old.numbers) x }
        ensures history { self.new.history ≡ self.old.history }
        ensures next { self.new.next ≡ self.old.next }
        ensures ended { self.new.ended ≡ self.old.ended }
    {
        reads.keeps();
        let all = match both(reads, writes) {
            Some(all) => all,
            None => unreachable!(),
        };
        all.keeps();
        let looks = looks_of(&self.numbers, &reads);
        draw_each(&mut self.numbers, &reads);
        let numbers = numbers_of(&self.numbers, &all);
        draw_each(&mut self.numbers, &all);
        Tx {
            looks,
            writes: writes_of(writes),
            numbers,
        }
    }

    // The commit stands in the thread's list, and in the list of events.
    fn publish(&mut self, thread: u8, tx: Box<Tx>) -> Result<(), AllocError>
        requires thread { thread < THREADS }
        requires room { self.old.next < 2 ^ 64 - 1 }
        ensures lists { OnOk result ((u : ℕ) → lists_of self.new.history u ≡ with_entry (lists_of self.old.history) thread (CommitEntry self.old.next tx.value) u) }
        ensures next { OnOk result (self.new.next ≡ self.old.next + 1) }
        ensures numbers { self.new.numbers ≡ self.old.numbers }
        ensures ended { self.new.ended ≡ self.old.ended }
        ensures kept { KeepsRecorded self.old self.new }
    {
        let at = self.next;
        self.push(thread, Entry::Commit { at, tx })?;
        self.next += 1;
        Ok(())
    }

    // A commit, or an attempt that was refused for a race.
    fn commit(
        &mut self,
        alloc: Global,
        thread: u8,
        reads: VarSet,
        writes: &VarSet,
        judged: Judged,
    ) -> Result<(), AllocError>
        requires thread { thread < THREADS }
        requires few { nat_lt TX_VARIABLES (length (with_all writes.now reads)) ≡ false }
        requires suits { Suits (Item.Commit reads writes.now) judged }
        requires room { IsUpTo (2 ^ 64 - 3) self.old }
        ensures traces { (s : Tracing) → Traces s self.old → OnOk result (Traces (with_commit thread reads writes.now judged s) self.new) }
        ensures most { (a b : ℕ) → a + 2 ≤ b → IsUpTo a self.old → OnOk result (IsUpTo b self.new) }
        ensures kept { KeepsRecorded self.old self.new }
    {
        reads.keeps();
        writes.keeps();
        let tx = Box::new(alloc, self.draw(reads, writes))?;
        match judged {
            Judged::Raised { var } => self.push(
                thread,
                Entry::Abort {
                    tx,
                    why: Why::Raised { var },
                },
            ),
            Judged::Performed | Judged::NoAccess => self.publish(thread, tx),
        }
    }

    /// The thread's next line says this, and this is said of it. After want of memory what was recorded is there still; of what the line
    /// adds a part may be, so nothing more can be recorded.
    #[inline(never)]
    pub fn item(
        &mut self,
        alloc: Global,
        thread: u8,
        item: &Item,
        judged: Judged,
    ) -> Result<(), AllocError>
        requires thread { thread < THREADS }
        requires item { IsLineItem item.now }
        requires few { is_too_wide item.now ≡ false }
        requires suits { Suits item.now judged }
        requires room { IsUpTo (2 ^ 64 - 3) self.old }
        ensures traces { (s : Tracing) → Traces s self.old → OnOk result (Traces (with_item thread item.now judged s) self.new) }
        ensures most { (a b : ℕ) → a + 2 ≤ b → IsUpTo a self.old → OnOk result (IsUpTo b self.new) }
        ensures kept { KeepsRecorded self.old self.new }
    {
        match item {
            Item::Act(act) => self.line(thread, *act),
            Item::Access { var, write } => {
                self.plain(
                    thread,
                    *var,
                    *write,
                    matches!(judged, Judged::Raised { .. }),
                )
            }
            Item::Commit { reads, writes } => self.commit(alloc, thread, *reads, writes, judged),
        }
    }

    // The thread's list is over.
    fn close(&mut self, thread: u8) -> Result<(), AllocError>
        requires thread { thread < THREADS }
        ensures traces { (s : Tracing) → Traces s self.old → OnOk result (Traces (with_over thread s) self.new) }
        ensures most { (a : ℕ) → IsUpTo a self.old → IsUpTo a self.new }
    {
        self.push(thread, Entry::Over(Ending::Halt))
    }

    // Whether the thread has a list.
    fn has_begun(&self, thread: u8) -> bool
        ensures { (s : Tracing) → Traces s self.now → result ≡ not (is_empty (s.lists thread)) }
    {
        self.history.keeps();
        self.history.thread(thread).is_some()
    }

    // The thread, if it has begun, makes its End, if it has not made it, and its list is over.
    fn finish(&mut self, thread: u8) -> Result<(), AllocError>
        requires thread { thread < THREADS }
        requires room { IsUpTo (2 ^ 64 - 2) self.old }
        ensures traces { (s : Tracing) → Traces s self.old → OnOk result (Traces (with_ending thread s) self.new) }
        ensures most { (a b : ℕ) → a + 1 ≤ b → IsUpTo a self.old → OnOk result (IsUpTo b self.new) }
    {
        if !self.has_begun(thread) {
            return Ok(());
        }
        if self.ended[usize::from(thread)] {
            return self.close(thread);
        }
        self.end(thread)?;
        self.close(thread)
    }

    // No thread has begun.
    fn empty(alloc: Global) -> Tracer
        ensures traces { Traces nothing result }
        ensures most { IsUpTo 0 result }
    {
        Tracer {
            history: Record::empty(alloc),
            next: 0,
            numbers: [0; VARIABLE_ROOM],
            ended: [false; THREAD_ROOM],
        }
    }

    /// The record before the first line: thread 0 has begun.
    pub fn new(alloc: Global) -> Result<Tracer, AllocError>
        ensures traces { IfOk result (Traces before_lines) }
        ensures most { IfOk result (IsUpTo 1) }
    {
        let mut tracer = Tracer::empty(alloc);
        tracer.act(0, Act::Begin(0))?;
        Ok(tracer)
    }

    /// The record after the last line: each thread's list ends with its End, if it has not ended, and is over.
    pub fn record(mut self) -> Result<Record, AllocError>
        requires room { IsUpTo (2 * TRACE_LINES + 1) self }
        ensures { (lines : List Line) → Traces (after_lines lines before_lines) self → IfOk result (λ r. (t : ℕ) → lists_of r t ≡ trace_record lines t) }
    {
        for thread in 0..THREADS {
            self.finish(thread)?;
        }
        Ok(self.history)
    }
}

// The record after the lines of a trace.
fn traced(alloc: Global, trace: &Trace, judged: &[Judged]) -> Result<Tracer, AllocError>
    requires { AreJudged trace.now judged.now }
    ensures traces { IfOk result (Traces (after_lines (map line_of (judged_lines trace.now judged.now)) before_lines)) }
    ensures most { IfOk result (IsUpTo (2 * TRACE_LINES + 1)) }
{
    let mut tracer = Tracer::new(alloc)?;
    trace.keeps();
    let lines = trace.lines();
    for i in 0..lines.len() {
        let (_, thread, item) = &lines[i];
        tracer.item(alloc, *thread, item, judged[i])?;
    }
    Ok(tracer)
}

/// The record that a trace stands for with what was said of its lines: each thread's entries, the numbers drawn line
/// by line, and at the end each thread's End and the end of its list.
pub fn trace_record(alloc: Global, trace: &Trace, judged: &[Judged]) -> Result<Record, AllocError>
    requires { AreJudged trace.now judged.now }
    ensures { IfOk result (λ r. (t : ℕ) → lists_of r t ≡ trace_record (map line_of (judged_lines trace.now judged.now)) t) }
{
    traced(alloc, trace, judged)?.record()
}
