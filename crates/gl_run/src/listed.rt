// The command `list`.
ghost use Rattle.std.specs.Prelude.{IfOk};
ghost use Rattle.gl_run.specs.Listed.{ListsText};
ghost use Rattle.gl_run.specs.Replies.{IsVerdict};

use crate::page::{Page, refused};
use crate::status::ALL_WELL;
use gl_asm::assemble;
use gl_text::TextError;
use std::alloc::{AllocError, Global};

// What a text is answered.
pub fn list(alloc: Global, input: &[u8]) -> Result<Page, AllocError>
    ensures answer { IfOk result (λ p. ListsText input.now p.status p.text.items p.kept) }
    ensures status { IfOk result (λ p. IsVerdict p.status) }
{
    match assemble(alloc, input) {
        Ok(assembled) => Ok(Page {
            status: ALL_WELL,
            text: gl_asm::list(alloc, &assembled.program)?,
            kept: None,
        }),
        Err(TextError::Fault(fault)) => refused(alloc, fault.line, fault.kind),
        Err(TextError::Memory(error)) => Err(error),
    }
}
