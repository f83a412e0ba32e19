// What the text of an audit means.
ghost use Rattle.std.specs.Prelude.{IfErr, IfOk};
ghost use Rattle.gl_audited.specs.Meaning.{IsAuditText, TellsFirst};

use crate::cut::{cut_text, parts_at};
use crate::limits::AUDIT_BYTES;
use gl_asm::assemble;
use gl_bytecode::Program;
use gl_journal::read_record;
use gl_model::{Inputs, Record};
use gl_text::kinds::TOO_LONG;
use gl_text::{TextError, TextFault};
use std::alloc::Global;

/// What the text of an audit means: a program with its inputs, and a record of a run of it in which each thread started so many
/// instructions at most.
#[derive(Drop)]
pub struct Audited {
    pub program: Program,
    pub inputs: Inputs,
    pub steps: u32,
    pub record: Record,
}

/// What a text means: a program, which ends before the first line whose first word is `record`, and from there on a record; or the text's
/// first fault. A fault of the program comes before each of the record. The lines of the record are counted on from those of the
/// program; that there is no `done` is a fault in line 0.
pub fn read_audit(alloc: Global, text: &[u8]) -> Result<Audited, TextError>
    ensures ok { IfOk result (λ a. IsAuditText text.now a.program a.inputs a.steps a.record) }
    ensures fault { IfErr result (TellsFirst text.now) }
{
    if text.len() > AUDIT_BYTES {
        return Err(TextError::Fault(TextFault {
            line: 0,
            kind: TOO_LONG,
        }));
    }
    let cut = cut_text(text);
    let (program_part, record_part) = parts_at(text, cut.at);
    let assembled = assemble(alloc, program_part)?;
    match read_record(alloc, record_part, 1 + cut.lines) {
        Ok((steps, record)) => Ok(Audited {
            program: assembled.program,
            inputs: assembled.inputs,
            steps,
            record,
        }),
        Err(error) => Err(error),
    }
}
