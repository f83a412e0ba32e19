// The command `check`.
ghost use Rattle.std.specs.Prelude.{IfOk};
ghost use Rattle.gl_run.specs.Check.{ChecksText};
ghost use Rattle.gl_run.specs.Replies.{IsVerdict};

use crate::keep::Keep;
use crate::page::{Page, refused};
use crate::verdicts::Verdicts;
use gl_shortcut::Cuts;
use gl_trace::{NO_ITEM, TraceReader};
use std::alloc::{AllocError, Global};

// What a text is answered.
pub fn check(alloc: Global, input: &[u8], cuts: &Cuts, keep: Keep) -> Result<Page, AllocError>
    ensures answer { IfOk result (λ p. ChecksText keep input.now p.status p.text.items p.kept) }
    ensures status { IfOk result (λ p. IsVerdict p.status) }
{
    let mut reader = match TraceReader::new(input) {
        Ok(reader) => reader,
        Err(fault) => return refused(alloc, fault.line, fault.kind),
    };
    let mut verdicts = Verdicts::new(alloc, keep)?;
    let mut item = NO_ITEM;
    loop {
        match reader.next_line(&mut item) {
            Ok(Some((line, thread))) => verdicts.take(alloc, line, thread, &item, cuts)?,
            Ok(None) => return verdicts.page(),
            Err(fault) => return refused(alloc, fault.line, fault.kind),
        }
    }
}
