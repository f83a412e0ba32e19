ghost use Rattle.gl_threads.specs.InRun.{AreReadyIn, CrewIsDoneIn};
ghost use Rattle.std.specs.Prelude.{◌≡◌, ◌≢◌, ◌<◌, [], length, IfOk, ℕ, slice_get, slice_index_or, Some};
ghost use Rattle.gl_threads.specs.declared.crew.Crew.{Crew as ACrew};
ghost use Rattle.std.specs.List.{All, list_any};
ghost use Rattle.gl_bytecode.specs.Runs.{Runs};
ghost use Rattle.gl_table.specs.Beginning.{fresh_from};
ghost use Rattle.gl_table.specs.Ending.{AreAllDone};
ghost use Rattle.gl_table.specs.PassView.{PassView};
ghost use Rattle.gl_riders.specs.Sparing.{IsSpared};
ghost use Rattle.gl_riders.specs.Threads.{IsSetUp};
ghost use Rattle.gl_riders.specs.Riding.{IsSetFor};
ghost use Rattle.gl_threads.specs.Options.{AreOptions};
ghost use Rattle.gl_threads.specs.Crews.{CrewIsDone, IsReady};

use crate::aids::Aids;
use crate::crew::{Crew, run_crew};
use crate::dealing::{deal, gather};
use crate::gate::Gate;
use crate::options::Options;
use crate::roll::RollCall;
use gl_bytecode::Program;
use gl_riders::Run;
use gl_shortcut::Cuts;
use gl_table::{Pass, Shared};
use std::alloc::AllocError;
use std::sync::Wait;
use std::thread;
use std::thread::Threads;

// All workers, each in a thread of its own where one can be made.
fn run_crews<G: Gate, R: Threads + Wait + Sync>(
    rt: &R,
    crews: &mut Vec<Crew>,
    run: &Run,
    cuts: &Cuts,
    gate: &G,
)
    requires some { 0 < length crews.old.items }
    requires set { IsSetUp run.now }
    requires ready { AreReadyIn run.now crews.old.items }
    ensures long { length crews.new.items ≡ length crews.old.items }
    ensures done { (c : ℕ) (d : ACrew) → c < length crews.old.items → CrewIsDoneIn run.now (slice_index_or crews.old.items c d) (slice_index_or crews.new.items c d) }
{
    let workers = crews.len();
    let roll = RollCall::of(workers as u64);
    let (shared, program, steps) = (run.table, run.program, run.steps);
    thread::for_each_mut(
        rt,
        crews.as_mut_slice(),
        workers,
        &|_, crew: &mut Crew|
            requires { IsSetFor program.now shared.now.key.setting × IsReady program.now steps shared.now crew.now }
            ensures { CrewIsDone program.entry.now steps shared.entry.now.id crew.entry.now crew.exit.now }
        {
            run_crew(
                rt,
                crew,
                &Run {
                    table: shared,
                    program,
                    steps,
                },
                &Aids::of(cuts, gate),
                &roll,
            )
        },
    );
}

// Has some worker stopped before its threads were done?
fn has_stopped(crews: &Vec<Crew>) -> bool
    ensures { result ≡ list_any (λ q. q.stopped) crews.now.items }
{
    crews.iter().any(|crew| crew.stopped)
}

// The same, of a run with these aids.
fn run_passes<G: Gate, R: Threads + Wait + Sync>(
    rt: &R,
    run: &Run,
    passes: Vec<Pass>,
    aids: &Aids<G>,
    workers: usize,
) -> Result<Vec<Pass>, AllocError>
    requires workers { 0 < workers }
    requires set { IsSetUp run.now }
    requires new { passes.items ≡ fresh_from run.now.table.now.id 0 16 }
    ensures done { IfOk result (λ v. AreAllDone run.now.table.now.id v.items) }
    ensures runs { IfOk result (λ v. (j : ℕ) (p : PassView) → slice_get v.items j ≡ Some p → p.own.mine ≢ [] → Runs run.now.program.now run.now.steps j p.own.mine) }
    ensures sparing { IfOk result (λ v. All (λ p. IsSpared p.own.mine) v.items) }
{
    let alloc = *passes.allocator();
    let mut crews = deal(alloc, run, passes, workers)?;
    run_crews(rt, &mut crews, run, aids.cuts, aids.gate);
    if has_stopped(&crews) {
        return Err(AllocError);
    }
    let back = gather(alloc, run, crews, workers)?;
    Ok(back)
}

/// Runs the threads of a program over the shared table: thread i is worker i mod the workers'. Gives the same passes back, in their
/// order, each done and holding nothing, with a list that its thread's instructions make of the answers in it. The only error is want of
/// memory.
pub fn work<G: Gate, R: Threads + Wait + Sync>(
    rt: &R,
    shared: &Shared,
    passes: Vec<Pass>,
    program: &Program,
    options: &Options,
    cuts: &Cuts,
    gate: &G,
) -> Result<Vec<Pass>, AllocError>
    requires options { AreOptions options.now }
    requires set { IsSetFor program.now shared.now.key.setting }
    requires new { passes.items ≡ fresh_from shared.now.id 0 16 }
    ensures done { IfOk result (λ v. AreAllDone shared.now.id v.items) }
    ensures runs { IfOk result (λ v. (j : ℕ) (p : PassView) → slice_get v.items j ≡ Some p → p.own.mine ≢ [] → Runs program.now options.now.steps j p.own.mine) }
    ensures sparing { IfOk result (λ v. All (λ p. IsSpared p.own.mine) v.items) }
{
    let run = Run {
        table: shared,
        program,
        steps: options.steps,
    };
    let aids = Aids { cuts, gate };
    run_passes(rt, &run, passes, &aids, options.workers as usize)
}
