// The command `audit`.
ghost use Rattle.std.specs.Prelude.{◌≡◌, ℕ, List, IfOk, string_bytes};
ghost use Rattle.gl_audited.specs.Meaning.{IsAuditText};
ghost use Rattle.gl_run.specs.Audits.{AuditsText, finding_line, finding_status};
ghost use Rattle.gl_run.specs.Replies.{IsVerdict};

use crate::page::{Page, refused};
use crate::status::{ALL_WELL, NOT_LAWFUL};
use gl_audit::Finding;
use gl_audited::{Audited, read_audit};
use gl_text::TextError;
use std::alloc::{AllocError, Global};

// The status of a finding.
fn status_of(finding: Finding) -> u8
    ensures value { result ≡ finding_status finding }
    ensures few { IsVerdict result }
{
    match finding {
        Finding::Lawful => ALL_WELL,
        Finding::Not { .. } => NOT_LAWFUL,
    }
}

// The line of a finding.
fn line_of(alloc: Global, finding: Finding) -> Result<String, AllocError>
    ensures { IfOk result (λ t. string_bytes t ≡ finding_line finding) }
{
    match finding {
        Finding::Lawful => String::from_str(alloc, "lawful\n"),
        Finding::Not {
            thread,
            index,
            clause,
        } => format!(in alloc; "not {thread} {index} {clause}\n"),
    }
}

// What a text is answered that says this program and this record.
fn page_of(alloc: Global, audited: Audited) -> Result<Page, AllocError>
    ensures answer { (input : List ℕ) → IsAuditText input audited.program audited.inputs audited.steps audited.record → IfOk result (λ p. AuditsText input p.status p.text.items p.kept) }
    ensures status { IfOk result (λ p. IsVerdict p.status) }
{
    let Audited {
        program,
        inputs,
        steps,
        record,
    } = audited;
    record.keeps();
    let finding = gl_audit::audit(alloc, &program, &inputs, steps, &record)?;
    Ok(Page {
        status: status_of(finding),
        text: line_of(alloc, finding)?.into_bytes(),
        kept: None,
    })
}

// What a text is answered.
pub fn audit(alloc: Global, input: &[u8]) -> Result<Page, AllocError>
    ensures answer { IfOk result (λ p. AuditsText input.now p.status p.text.items p.kept) }
    ensures status { IfOk result (λ p. IsVerdict p.status) }
{
    match read_audit(alloc, input) {
        Ok(audited) => page_of(alloc, audited),
        Err(TextError::Fault(fault)) => refused(alloc, fault.line, fault.kind),
        Err(TextError::Memory(error)) => Err(error),
    }
}
