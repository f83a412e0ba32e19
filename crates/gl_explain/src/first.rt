// The first race of a trace.
ghost use Rattle.std.specs.Prelude.{◌≡◌, ◌∷◌, ◌++◌, [], List, length, IfOk};
ghost use Rattle.gl_explain.specs.Explained.{Explains};
ghost use Rattle.gl_explain.specs.First.{IsFirstIn, IsSought};
ghost use Rattle.gl_explain.specs.declared.told.Told.{Told as ATold};

use crate::explainer::Explainer;
use crate::told::{Explanation, First, Sought};
use gl_shortcut::Cuts;
use gl_trace::{NO_ITEM, TraceReader};
use std::alloc::{AllocError, Global};

// The first race, where the one behind these lines may be one too.
fn earlier(first: Option<First>, race: usize, found: Option<Explanation>) -> Option<First>
    ensures { (done : List ATold) (next : ATold) → race ≡ length done → IsFirstIn done first → Explains done next found → IsFirstIn (done ++ next ∷ []) result }
{
    match (first, found) {
        (Some(first), _) => Some(first),
        (None, Some(explanation)) => Some(First { race, explanation }),
        (None, None) => None,
    }
}

/// The lines of a trace text, what is said of each, and the first that is a race; or the first fault of the text.
pub fn first_race(alloc: Global, input: &[u8], cuts: &Cuts) -> Result<Sought, AllocError>
    ensures { IfOk result (IsSought input.now) }
{
    let mut reader = match TraceReader::new(input) {
        Ok(reader) => reader,
        Err(fault) => {
            return Ok(Sought::Refused {
                line: fault.line,
                kind: fault.kind,
            });
        }
    };
    let mut explainer = Explainer::new(alloc, input)?;
    let mut first = None;
    let mut item = NO_ITEM;
    loop {
        match reader.next_line(&mut item) {
            Ok(Some((line, thread))) => {
                let race = explainer.count();
                let found = explainer.take(alloc, line, thread, &item, cuts)?;
                first = earlier(first, race, found);
            }
            Ok(None) => {
                let kept = explainer.lines();
                return Ok(Sought::Judged { kept, first });
            }
            Err(fault) => {
                return Ok(Sought::Refused {
                    line: fault.line,
                    kind: fault.kind,
                });
            }
        }
    }
}
