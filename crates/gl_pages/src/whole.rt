// A whole text of an audit.
ghost use Rattle.std.specs.Prelude.{◌≡◌, ◌==◌, if◌then◌else◌, IfOk};
ghost use Rattle.gl_audited.specs.Meaning.{IsAuditText};
ghost use Rattle.gl_bytecode.specs.Lawful.{Lawful};
ghost use Rattle.gl_model.specs.Lists.{lists_of};
ghost use Rattle.gl_pages.specs.Answers.{ExplainsAudit, ExplainsRun};

use crate::page::not_lawful;
use crate::run::Run;
use crate::text::{push_all, push_ending};
use gl_audit::{Finding, audit};
use gl_audited::{Audited, program_text, read_audit};
use gl_explain::{Page, refused};
use gl_names::names_of;
use gl_text::TextError;
use std::alloc::{AllocError, Global};

// The status where there are so many races.
fn status_of(races: usize) -> u8
    ensures { result ≡ (if races == 0 then 0 else 6) }
{
    if races == 0 { 0 } else { 6 }
}

// The page of a record that is lawful.
fn lawful_page(alloc: Global, input: &[u8], audited: &Audited) -> Result<Page, AllocError>
    requires meaning { IsAuditText input.now audited.now.program audited.now.inputs audited.now.steps audited.now.record }
    requires lawful { Lawful audited.now.program audited.now.inputs audited.now.steps (lists_of audited.now.record) }
    ensures { IfOk result (λ p. ExplainsRun input.now p.status p.text.items) }
{
    let run = Run::new(alloc, program_text(input), audited)?;
    let explained = run.explained(alloc)?;
    let names = names_of(alloc, input)?;
    let mut text = Vec::new(alloc);
    push_all(&mut text, &names, &explained)?;
    let races = explained.len();
    push_ending(&mut text, races)?;
    Ok(Page {
        status: status_of(races),
        text,
    })
}

// The page of a text that says this.
fn page_of(alloc: Global, input: &[u8], audited: &Audited) -> Result<Page, AllocError>
    requires { IsAuditText input.now audited.now.program audited.now.inputs audited.now.steps audited.now.record }
    ensures { IfOk result (λ p. ExplainsAudit input.now p.status p.text.items) }
{
    audited.record.keeps();
    let finding = audit(
        alloc,
        &audited.program,
        &audited.inputs,
        audited.steps,
        &audited.record,
    )?;
    match finding {
        Finding::Lawful => lawful_page(alloc, input, audited),
        Finding::Not {
            thread,
            index,
            clause,
        } => not_lawful(alloc, thread, index, clause),
    }
}

/// What the text of an audit is answered: why each race of its record is one, with the names that the text gives; or what `audit` says of
/// it, where the record is not lawful; or the text's first fault.
pub fn explain_run(alloc: Global, input: &[u8]) -> Result<Page, AllocError>
    ensures { IfOk result (λ p. ExplainsAudit input.now p.status p.text.items) }
{
    match read_audit(alloc, input) {
        Ok(audited) => page_of(alloc, input, &audited),
        Err(TextError::Fault(fault)) => refused(alloc, fault.line, fault.kind),
        Err(TextError::Memory(error)) => Err(error),
    }
}
