// The first place where a record is no run of the machine.
ghost use Rattle.std.specs.Prelude.{◌≡◌, IfOk, IfSome, None, option_map, slice_get};
ghost use Rattle.gl_acts.specs.Acting.{IsActFault};
ghost use Rattle.gl_acts.specs.Applying.{AreShallow, Tells};
ghost use Rattle.gl_acts.specs.Making.{HasForked, Makes};
ghost use Rattle.gl_bytecode.specs.Lawful.{setting_of};
ghost use Rattle.gl_model.specs.Entries.{seen};
ghost use Rattle.gl_model.specs.Form.{Form, Listed};
ghost use Rattle.gl_model.specs.Lists.{lists_of};
ghost use Rattle.gl_model.specs.Records.{EntryAt};
ghost use Rattle.gl_places.specs.Places.{seen as seen_place};

use crate::apply::apply_entry;
use gl_bytecode::Program;
use gl_model::{Act, Entry, Inputs, Record};
use gl_places::{Place, event_places};
use gl_state::ListState;
use std::alloc::{AllocError, Global};

// The entry at the place, if there is one.
fn entry_at(made: &Record, place: Place) -> Option<&Entry>
    ensures some { IfSome result (λ e. EntryAt (lists_of made.now) (seen_place place) (seen e.now)) }
    ensures none { result ≡ None → slice_get (lists_of made.now place.thread) place.index ≡ None }
{
    let list = made.thread(place.thread)?;
    list.get(place.index as usize)
}

// The thread that an entry forks, if it forks one, has a list.
fn has_forked(made: &Record, entry: &Entry) -> bool
    ensures { Tells result (HasForked (lists_of made.now) (seen entry.now)) }
{
    made.keeps();
    match entry {
        Entry::Sync { act, .. } => match *act {
            Act::Fork { child, .. } => made.thread(child).is_some(),
            Act::Begin(_) | Act::End | Act::Acq(_) | Act::Rel(_) => true,
            Act::VRead(_) | Act::VWrite(_) | Act::Join(_) => true,
            Act::Alloc(_) | Act::Print | Act::Input | Act::Fail(_) => true,
        },
        Entry::Commit { .. } | Entry::Plain { .. } | Entry::Abort { .. } => true,
        Entry::Trim { .. } | Entry::Over(_) => true,
    }
}

// Makes the step of the event at the place, if it is one, and if a thread that it forks has a list.
pub(crate) fn makes_step(
    program: &Program,
    inputs: &Inputs,
    made: &Record,
    state: &mut ListState,
    place: Place,
) -> bool
    requires { AreShallow state.old }
    ensures { Makes (setting_of program.now inputs.now) (lists_of made.now) (seen_place place) state.old state.new result }
{
    made.keeps();
    match entry_at(made, place) {
        None => false,
        Some(entry) => {
            if !has_forked(made, entry) {
                return false;
            }
            apply_entry(program, inputs, state, place.thread, entry)
        }
    }
}

/// The first place where the record is no run of the machine that the program and its inputs set up: by position, the event that is no
/// step of the machine, or that forks a thread which has no list. None comes where the events are a run of the machine. The only error
/// is want of memory.
pub fn act_fault(
    alloc: Global,
    program: &Program,
    inputs: &Inputs,
    made: &Record,
) -> Result<Option<Place>, AllocError>
    requires form { Form (lists_of made.now) }
    requires listed { Listed (lists_of made.now) }
    ensures { IfOk result (λ found. IsActFault (setting_of program.now inputs.now) (lists_of made.now) (option_map seen_place found)) }
{
    let places = event_places(alloc, made)?;
    let mut state = ListState::new(alloc, program.main())?;
    for place in &places {
        if !makes_step(program, inputs, made, &mut state, *place) {
            return Ok(Some(*place));
        }
    }
    Ok(None)
}
