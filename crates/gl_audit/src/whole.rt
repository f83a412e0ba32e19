ghost use Rattle.std.specs.Prelude.{◌≡◌, IfOk};
ghost use Rattle.gl_model.specs.Lists.{lists_of};
ghost use Rattle.gl_bytecode.specs.Lawful.{setting_of};
ghost use Rattle.gl_acts.specs.Acting.{RunsMachine};
ghost use Rattle.gl_follow.specs.Beginnings.{BeginsAreRight};
ghost use Rattle.gl_audit.specs.declared.finding.Finding.TheVariants.{Not};
ghost use Rattle.gl_audit.specs.Findings.{IsFinding};

use crate::clauses::{FORM, LIST, MACHINE, NUMBERS, PROGRAM, RACES, WORDS};
use crate::finding::Finding;
use gl_acts::act_fault;
use gl_bytecode::Program;
use gl_flat::word_fault;
use gl_follow::program_fault;
use gl_form::form_fault;
use gl_listing::{number_fault, position_fault};
use gl_model::{Inputs, Record};
use gl_places::Place;
use gl_raised::race_fault;
use std::alloc::{AllocError, Global};

// The record fails the clause here.
fn fails(place: Place, clause: u8) -> Finding
    ensures { result ≡ Not place.thread place.index clause }
{
    Finding::Not {
        thread: place.thread,
        index: place.index,
        clause,
    }
}

// In a run of the machine each thread begins in a function that is there and takes one argument at most.
fn begins_rightly(program: &Program, inputs: &Inputs, made: &Record)
    requires { RunsMachine (setting_of program.now inputs.now) (lists_of made.now) }
    ensures { BeginsAreRight program.now (lists_of made.now) }
{
    let _main = program.main();
}

/// Audits a record against the program that it is to be of, the inputs that the program was given, and how many instructions a thread
/// may start: it is lawful, or the least clause that it fails, and the first place where it fails it. The only error is want of memory.
pub fn audit(
    alloc: Global,
    program: &Program,
    inputs: &Inputs,
    steps: u32,
    made: &Record,
) -> Result<Finding, AllocError>
    ensures { IfOk result (IsFinding program.now inputs.now steps made.now) }
{
    if let Some(place) = form_fault(alloc, made)? {
        return Ok(fails(place, FORM));
    }
    if let Some(place) = position_fault(alloc, made)? {
        return Ok(fails(place, LIST));
    }
    if let Some(place) = number_fault(alloc, made)? {
        return Ok(fails(place, NUMBERS));
    }
    if let Some(place) = act_fault(alloc, program, inputs, made)? {
        return Ok(fails(place, MACHINE));
    }
    if let Some(place) = race_fault(alloc, made)? {
        return Ok(fails(place, RACES));
    }
    if let Some(place) = word_fault(alloc, made)? {
        return Ok(fails(place, WORDS));
    }
    begins_rightly(program, inputs, made);
    if let Some(place) = program_fault(alloc, program, steps, made)? {
        return Ok(fails(place, PROGRAM));
    }
    Ok(Finding::Lawful)
}
