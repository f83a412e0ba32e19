// What made each entry of a record.
ghost use Rattle.std.specs.Prelude.{◌≡◌, ◌≢◌, ◌<◌, ℕ, [], IfOk, map};
ghost use Rattle.gl_model.specs.Form.{Form};
ghost use Rattle.gl_model.specs.Lists.{lists_of};
ghost use Rattle.gl_model.specs.declared.limits.TheConstants.{THREADS};
ghost use Rattle.gl_bytecode.specs.Runs.{Runs};
ghost use Rattle.gl_follow.specs.Beginnings.{BeginsAreRight};
ghost use Rattle.gl_places.specs.Places.{seen as seen_place};
ghost use Rattle.gl_sites.specs.Makers.{AreMakers};
ghost use Rattle.gl_sites.specs.Recorded.{AreMakersOf, maker_at};

use crate::making::{Maker, makers};
use gl_bytecode::Program;
use gl_model::{Record, THREADS};
use gl_places::Place;
use std::alloc::{AllocError, Global};

// What made each entry of the thread's list, if it has one.
fn makers_in(
    alloc: Global,
    program: &Program,
    steps: u32,
    made: &Record,
    thread: u8,
) -> Result<Vec<Maker>, AllocError>
    requires form { Form (lists_of made.now) }
    requires begins { BeginsAreRight program.now (lists_of made.now) }
    requires runs { (t : ℕ) → lists_of made.now t ≢ [] → Runs program.now steps t (lists_of made.now t) }
    ensures { IfOk result (λ r. AreMakers program.now steps thread (lists_of made.now thread) r.items) }
{
    made.keeps();
    match made.thread(thread) {
        Some(list) => makers(alloc, program, thread, steps, list),
        None => Ok(Vec::new(alloc)),
    }
}

/// What made each entry of a record, by thread and then by place: each thread's machine is driven along its list, once. For each entry
/// there are 8 bytes. The only error is want of memory.
pub fn makers_of(
    alloc: Global,
    program: &Program,
    steps: u32,
    made: &Record,
) -> Result<Vec<Vec<Maker>>, AllocError>
    requires form { Form (lists_of made.now) }
    requires begins { BeginsAreRight program.now (lists_of made.now) }
    requires runs { (t : ℕ) → lists_of made.now t ≢ [] → Runs program.now steps t (lists_of made.now t) }
    ensures { IfOk result (λ r. AreMakersOf program.now steps (lists_of made.now) (map (λ v. v.items) r.items)) }
{
    made.keeps();
    let mut all = Vec::new(alloc);
    for thread in 0..THREADS {
        all.push(makers_in(alloc, program, steps, made, thread)?)?;
    }
    Ok(all)
}

/// What made the entry there, if there is one.
pub fn maker_at(makers: &[Vec<Maker>], place: Place) -> Option<Maker>
    ensures { result ≡ maker_at (map (λ v. v.items) makers.now) (seen_place place) }
{
    match makers.get(usize::from(place.thread)) {
        Some(list) => list.get(place.index as usize).copied(),
        None => None,
    }
}
