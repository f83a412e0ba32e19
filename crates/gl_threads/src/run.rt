ghost use Rattle.std.specs.Prelude.{◌≡◌, IfOk};
ghost use Rattle.gl_model.specs.Form.{Sparing};
ghost use Rattle.gl_model.specs.Lists.{lists_of};
ghost use Rattle.gl_bytecode.specs.Lawful.{Lawful};
ghost use Rattle.gl_threads.specs.Options.{AreOptions};

use crate::gate::Gate;
use crate::layout::layout_of;
use crate::options::Options;
use crate::working::work;
use gl_bytecode::Program;
use gl_model::Inputs;
use gl_shortcut::Cuts;
use gl_table::{Sealed, Shared};
use std::alloc::{AllocError, Global};
use std::sync::Wait;
use std::thread::Threads;

/// Runs a program with these inputs, and answers the record of the run: it is lawful, however the threads went, and sparing. The only
/// error is want of memory. It may not return: a thread may wait for a monitor or another's end for ever.
pub fn run_program<G: Gate, R: Threads + Wait + Sync>(
    rt: &R,
    alloc: Global,
    program: &Program,
    inputs: Inputs,
    options: &Options,
    cuts: &Cuts,
    gate: &G,
) -> Result<Sealed, AllocError>
    requires options { AreOptions options.now }
    ensures lawful { IfOk result (λ s. Lawful program.now inputs options.now.steps (lists_of s.entries)) }
    ensures sparing { IfOk result (λ s. Sparing (lists_of s.entries)) }
    ensures ring { IfOk result (λ s. (s.key.segments ≡ options.now.ring.segments) × (s.key.cells ≡ options.now.ring.cells)) }
{
    let layout = layout_of(alloc, program, inputs, options.ring)?;
    let (shared, passes) = match Shared::new(alloc, layout) {
        Ok(made) => made,
        Err(_) => return Err(AllocError),
    };
    let passes = work(rt, &shared, passes, program, options, cuts, gate)?;
    match shared.close(passes) {
        Ok(sealed) => Ok(sealed),
        Err(_) => Err(AllocError),
    }
}
