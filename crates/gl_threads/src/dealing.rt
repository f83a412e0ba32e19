ghost use Rattle.gl_threads.specs.InRun.{AreBackIn, AreDoneIn, AreReadyIn};
ghost use Rattle.std.specs.Prelude.{◌≡◌, ◌<◌, ◌*◌, ◌++◌, ◌∷◌, [], false, slice_set, slice_index_or, length, vec_len, IfOk, OnOk, IfNone};
ghost use Rattle.std.specs.List.{All};
ghost use Rattle.std.specs.Option.{option_to_list};
ghost use Rattle.gl_threads.specs.Aboard.{IsAboard, rider_id};
ghost use Rattle.gl_segments.specs.Rings.{IsRing};
ghost use Rattle.gl_threads.specs.Dealing.{AreDealt, AreNew, IsEmptyCrew, new_own};
ghost use Rattle.gl_threads.specs.declared.crew.Crew.{Crew as ACrew};

use crate::crew::Crew;
use crate::rider::Rider;
use gl_bytecode::Program;
use gl_cache::WordCache;
use gl_riders::{Lent, Run, Thread};
use gl_rows::Window;
use gl_segments::Ring;
use gl_table::Pass;
use gl_vm::Machine;
use std::alloc::{AllocError, Global};

// How many threads there may be.
const PASSES: usize = 16;

// A thread that has done nothing.
fn board(alloc: Global, program: &Program, pass: Pass, limit: u32) -> Result<Rider, AllocError>
    requires { pass.own ≡ new_own pass.own.table pass.own.id }
    ensures aboard { IfOk result (λ r. IsAboard program.now limit pass.own.table r) }
    ensures id { IfOk result (λ r. rider_id r ≡ pass.own.id) }
{
    let machine = Machine::new(alloc, program, pass.id(), limit)?;
    let words = WordCache::new(alloc)?;
    Ok(Rider {
        thread: Thread {
            machine,
            pass,
            txn: None,
            words,
        },
        home: false,
        pause: 0,
        left: 0,
    })
}

// Workers without threads.
fn no_crews(alloc: Global, workers: usize, ring: Ring) -> Result<Vec<Crew>, AllocError>
    requires ring { IsRing ring }
    ensures long { IfOk result (λ v. vec_len v ≡ workers) }
    ensures none { IfOk result (λ v. All (IsEmptyCrew (ring.segments * ring.cells)) v.items) }
{
    let mut crews = Vec::new(alloc);
    for k in 0..workers {
        let _k = k;
        crews.push(empty_crew(alloc, ring)?)?;
    }
    Ok(crews)
}

fn empty_crew(alloc: Global, ring: Ring) -> Result<Crew, AllocError>
    requires ring { IsRing ring }
    ensures { IfOk result (IsEmptyCrew (ring.segments * ring.cells)) }
{
    Ok(Crew {
        riders: Vec::new(alloc),
        lent: Lent {
            alloc,
            window: Window::new(alloc, ring)?,
        },
        stopped: false,
    })
}

// Worker c gets a thread more.
fn take_on(crews: &mut Vec<Crew>, c: usize, rider: Rider) -> Result<(), AllocError>
    requires { c < length crews.old.items }
    ensures { OnOk result ((crew : ACrew) × (crew.riders.items ≡ (slice_index_or crews.old.items c crew).riders.items ++ rider ∷ []) × (crew.lent.window ≡ (slice_index_or crews.old.items c crew).lent.window) × (crews.new.items ≡ slice_set crews.old.items c crew)) }
{
    let crew = &mut crews[c];
    match crew.add(rider) {
        Ok(()) => Ok(()),
        Err(refused) => Err(refused),
    }
}

// Worker c gives its last thread away.
fn let_go(crews: &mut Vec<Crew>, c: usize) -> Option<Rider>
    requires { c < length crews.old.items }
    ensures none { IfNone result ((d : ACrew) → (slice_index_or crews.old.items c d).riders.items ≡ []) }
    ensures given { (crew : ACrew) × ((slice_index_or crews.old.items c crew).riders.items ≡ crew.riders.items ++ option_to_list result) × (crews.new.items ≡ slice_set crews.old.items c crew) }
{
    let crew = &mut crews[c];
    crew.remove_last()
}

// All passes, each with its machine, dealt to the workers.
pub(crate) fn deal(
    alloc: Global,
    run: &Run,
    passes: Vec<Pass>,
    workers: usize,
) -> Result<Vec<Crew>, AllocError>
    requires workers { 0 < workers }
    requires few { length passes.items ≡ 16 }
    requires new { AreNew run.now.table.now.id passes.items }
    ensures dealt { IfOk result (λ v. AreDealt workers 0 16 v.items) }
    ensures ready { IfOk result (λ v. AreReadyIn run.now v.items) }
{
    let mut crews = no_crews(alloc, workers, run.table.ring())?;
    let mut left = passes;
    'deals: loop {
        match left.pop() {
            Some(pass) => {
                let c = pass.id() as usize % workers;
                let rider = board(alloc, run.program, pass, run.steps)?;
                take_on(&mut crews, c, rider)?;
            }
            None => return Ok(crews),
        }
    }
}

// The passes of all workers' threads, in their order.
pub(crate) fn gather(
    alloc: Global,
    run: &Run,
    mut crews: Vec<Crew>,
    workers: usize,
) -> Result<Vec<Pass>, AllocError>
    requires workers { 0 < workers }
    requires dealt { AreDealt workers 0 16 crews.items }
    requires done { AreDoneIn run.now crews.items }
    ensures all { IfOk result (λ v. length v.items ≡ 16) }
    ensures back { IfOk result (λ v. AreBackIn run.now v.items) }
{
    let _run = run;
    let mut passes = Vec::new(alloc);
    for n in 0..PASSES {
        match let_go(&mut crews, n % workers) {
            Some(rider) => passes.push(pass_of(rider))?,
            None => unreachable!(),
        }
    }
    Ok(passes)
}

fn pass_of(rider: Rider) -> Pass
    ensures { result ≡ rider.thread.pass }
{
    let thread = rider.thread;
    thread.pass
}

impl Crew {
    fn add(&mut self, rider: Rider) -> Result<(), AllocError>
        ensures riders { OnOk result (self.new.riders.items ≡ self.old.riders.items ++ rider ∷ []) }
        ensures window { OnOk result (self.new.lent.window ≡ self.old.lent.window) }
    {
        self.riders.push(rider)?;
        Ok(())
    }

    fn remove_last(&mut self) -> Option<Rider>
        ensures none { IfNone result (self.old.riders.items ≡ []) }
        ensures given { self.old.riders.items ≡ self.new.riders.items ++ option_to_list result }
    {
        self.riders.pop()
    }
}
