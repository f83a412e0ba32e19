ghost use Rattle.std.specs.Prelude.{◌≡◌, ◌↔◌, IfOk, List, MatchOption, None};
ghost use Rattle.gl_model.specs.Flat.{Legal};
ghost use Rattle.gl_model.specs.Form.{Form, IsMachineRun, Listed};
ghost use Rattle.gl_model.specs.Lists.{lists_of};
ghost use Rattle.gl_model.specs.Machine.{Setting};
ghost use Rattle.gl_model.specs.Records.{IsEventList};
ghost use Rattle.gl_model.specs.declared.event.Stamp.{Stamp as AStamp};
ghost use Rattle.gl_places.specs.Places.{seen as seen_place};
ghost use Rattle.gl_flat.specs.Words.{WordFailsFirst, WordsHold};

use crate::looks::look_fault;
use crate::walk::flat_fault;
use gl_model::Record;
use gl_places::{Place, event_places};
use std::alloc::{AllocError, Global};

/// The first place of a well-formed record, with its events listed, where a word is wrong: first along the flat history, a read or a
/// commit with a look that is not the word there; then, by thread and place, an entry with a look, or with what it found, that is not
/// the word below its own number. Where the events are a run of the machine, there is none exactly where the record is legal. The only
/// error is want of memory.
pub fn word_fault(alloc: Global, made: &Record) -> Result<Option<Place>, AllocError>
    requires form { Form (lists_of made.now) }
    requires listed { Listed (lists_of made.now) }
    ensures first { IfOk result (λ found. MatchOption found (WordsHold (lists_of made.now)) (λ c. WordFailsFirst (lists_of made.now) (seen_place c))) }
    ensures legal { (setting : Setting) (h : List AStamp) → IsEventList h (lists_of made.now) → IsMachineRun setting (lists_of made.now) h → IfOk result (λ found. (found ≡ None) ↔ Legal setting (lists_of made.now)) }
{
    made.keeps();
    let events = event_places(alloc, made)?;
    match flat_fault(made, &events) {
        Some(place) => Ok(Some(place)),
        None => look_fault(alloc, made),
    }
}
