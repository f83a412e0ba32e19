// A whole trace text.
ghost use Rattle.std.specs.Prelude.{IfOk};
ghost use Rattle.gl_explain.specs.Answers.{ExplainsText};

use crate::explainer::Explainer;
use crate::page::{Page, refused};
use gl_shortcut::Cuts;
use gl_trace::{NO_ITEM, TraceReader};
use std::alloc::{AllocError, Global};

/// What a trace text is answered: why each of its races is one, with the names that the text gives, or its first fault.
pub fn explain_text(alloc: Global, input: &[u8], cuts: &Cuts) -> Result<Page, AllocError>
    ensures { IfOk result (λ p. ExplainsText input.now p.status p.text.items) }
{
    let mut reader = match TraceReader::new(input) {
        Ok(reader) => reader,
        Err(fault) => return refused(alloc, fault.line, fault.kind),
    };
    let mut explainer = Explainer::new(alloc, input)?;
    let mut item = NO_ITEM;
    loop {
        match reader.next_line(&mut item) {
            Ok(Some((line, thread))) => {
                explainer.take(alloc, line, thread, &item, cuts)?;
            }
            Ok(None) => return explainer.page(),
            Err(fault) => return refused(alloc, fault.line, fault.kind),
        }
    }
}
