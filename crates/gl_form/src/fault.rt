ghost use Rattle.std.specs.Prelude.{◌<◌, length, map, IfOk, MatchOption};
ghost use Rattle.std.specs.List.{AllByRecursion};
ghost use Rattle.gl_model.specs.Entries.{seen as seen_entry};
ghost use Rattle.gl_model.specs.Form.{Form};
ghost use Rattle.gl_model.specs.Kept.{IsEntryKept};
ghost use Rattle.gl_model.specs.Lists.{lists_of};
ghost use Rattle.gl_places.specs.Places.{Before, IsFirstBy, seen};
ghost use Rattle.gl_form.specs.Come.{IsFirstIn};
ghost use Rattle.gl_form.specs.Rules.{FormFailsAt};

use crate::walk::Walk;
use gl_model::{Entry, Record, THREADS};
use gl_places::Place;
use std::alloc::{AllocError, Global};

// The first place of a thread's list where a rule of form is not kept.
fn list_fault(alloc: Global, thread: u8, list: &[Entry]) -> Result<Option<u64>, AllocError>
    requires some { 0 < length list.now }
    requires kept { AllByRecursion IsEntryKept (map seen_entry list.now) }
    ensures { IfOk result (IsFirstIn thread (map seen_entry list.now)) }
{
    let mut walk = Walk::new(alloc)?;
    for (i, entry) in list.iter().enumerate() {
        if !walk.takes(thread, i, entry) {
            return Ok(Some(i as u64));
        }
    }
    if walk.is_over() {
        return Ok(None);
    }
    Ok(Some(list.len() as u64))
}

// The same of a thread that may have no list: only thread 0 has to have one.
fn thread_fault(alloc: Global, made: &Record, thread: u8) -> Result<Option<u64>, AllocError>
    ensures { IfOk result (IsFirstIn thread (lists_of made.now thread)) }
{
    made.keeps();
    match made.thread(thread) {
        Some(list) => list_fault(alloc, thread, list),
        None => Ok(if thread == 0 { Some(0) } else { None }),
    }
}

/// The first place, by thread and then by place, where the record is not well-formed; `None` exactly where it is. The only error is want of
/// memory.
pub fn form_fault(alloc: Global, made: &Record) -> Result<Option<Place>, AllocError>
    ensures { IfOk result (λ found.
        MatchOption found (Form (lists_of made.now)) (λ c. IsFirstBy Before (FormFailsAt (lists_of made.now)) (seen c))) }
{
    made.keeps();
    for thread in 0..THREADS {
        if let Some(index) = thread_fault(alloc, made, thread)? {
            return Ok(Some(Place { thread, index }));
        }
    }
    Ok(None)
}
