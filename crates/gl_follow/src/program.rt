ghost use Rattle.std.specs.Prelude.{◌≢◌, ℕ, ◌<◌, [], IfOk, IfSome, MatchOption};
ghost use Rattle.gl_model.specs.Form.{Form};
ghost use Rattle.gl_model.specs.Lists.{lists_of};
ghost use Rattle.gl_bytecode.specs.Runs.{Runs};
ghost use Rattle.gl_follow.specs.Beginnings.{BeginsAreRight, ProgramFailsAt};
ghost use Rattle.gl_places.specs.Places.{Before, IsFirstBy, seen};

use crate::follow::list_fault;
use gl_bytecode::Program;
use gl_model::{Record, THREADS};
use gl_places::Place;
use std::alloc::{AllocError, Global};

/// Where a thread's list is not what its machine makes of the answers in it: the first such thread, and in its list the length of the
/// longest beginning that its machine makes, where a Trim counts as a place and is passed over. The only error is want of memory.
pub fn program_fault(
    alloc: Global,
    program: &Program,
    steps: u32,
    made: &Record,
) -> Result<Option<Place>, AllocError>
    requires form { Form (lists_of made.now) }
    requires begins { BeginsAreRight program.now (lists_of made.now) }
    ensures runs { IfOk result (λ r. MatchOption r ((t : ℕ) → lists_of made.now t ≢ [] → Runs program.now steps t (lists_of made.now t)) (λ c. (u : ℕ) → u < c.thread → lists_of made.now u ≢ [] → Runs program.now steps u (lists_of made.now u))) }
    ensures first { IfOk result (λ r. IfSome r (λ c. IsFirstBy Before (ProgramFailsAt program.now steps (lists_of made.now)) (seen c))) }
{
    made.keeps();
    for thread in 0..THREADS {
        if let Some(list) = made.thread(thread) {
            if let Some(index) = list_fault(alloc, program, thread, steps, list)? {
                return Ok(Some(Place {
                    thread,
                    index: index as u64,
                }));
            }
        }
    }
    Ok(None)
}
