// The command `run`.
ghost use Rattle.std.specs.Prelude.{◌≡◌, ◌++◌, ℤ, List, IfOk, OnOk, map};
ghost use Rattle.std.specs.List.{list_any};
ghost use Rattle.gl_bytecode.specs.Programs.{Bytecode};
ghost use Rattle.gl_journal.specs.Written.{AllEntries, IsStamped, NamesFew};
ghost use Rattle.gl_model.specs.Kept.{IsRecord};
ghost use Rattle.gl_model.specs.Entries.{seen};
ghost use Rattle.gl_report.specs.Lines.{is_raised};
ghost use Rattle.gl_threads.specs.Options.{AreOptions};
ghost use Rattle.gl_run.specs.Replies.{IsVerdict};
ghost use Rattle.gl_run.specs.Runs.{AnswersRun, IsReadBack, IsRunOf, RunsText, entries_status, is_unhalted, journal_of, run_status, run_text};

use crate::kept::Kept;
use crate::options::RunOptions;
use crate::page::{Page, refused};
use crate::status::{ALL_WELL, NOT_HALTED, RACES};
use gl_asm::{Assembled, assemble};
use gl_journal::write_record;
use gl_model::{Ending, Entry, Record};
use gl_report::{entries_of, is_raised, report_of_entries};
use gl_shortcut::Cuts;
use gl_table::Sealed;
use gl_text::TextError;
use gl_threads::{Gate, run_program};
use std::alloc::{AllocError, Global};
use std::sync::Wait;
use std::thread::Threads;

// Whether the entry is the end of a thread that did not halt.
fn is_unhalted(entry: &Entry) -> bool
    ensures { result ≡ is_unhalted (seen entry.now) }
{
    match entry {
        Entry::Over(Ending::Uncaught(_)) | Entry::Over(Ending::Spent) => true,
        _ => false,
    }
}

fn has_raised(entries: &[(u8, &Entry)]) -> bool
    ensures { result ≡ list_any (λ p. is_raised (seen p.1.now)) entries.now }
{
    entries.iter().any(|(_, entry)| is_raised(entry))
}

fn has_unhalted(entries: &[(u8, &Entry)]) -> bool
    ensures { result ≡ list_any (λ p. is_unhalted (seen p.1.now)) entries.now }
{
    entries.iter().any(|(_, entry)| is_unhalted(entry))
}

// The status of a run that left these entries.
#[tactic(auto, using(crate::proofs::Entries::any_map))]
pub(crate) fn entries_status(entries: &[(u8, &Entry)]) -> u8
    ensures value { result ≡ entries_status (map (λ p. seen p.1.now) entries.now) }
    ensures few { IsVerdict result }
{
    if has_raised(entries) {
        return RACES;
    }
    if has_unhalted(entries) {
        NOT_HALTED
    } else {
        ALL_WELL
    }
}

// Adds the journal of a run that left this record, where it is asked for.
fn add_journal(
    alloc: Global,
    text: &mut Vec<u8>,
    asked: RunOptions,
    made: &Record,
) -> Result<(), AllocError>
    ensures text { OnOk result (text.new.items ≡ text.old.items ++ journal_of asked made.now) }
    ensures read_back { OnOk result (IsStamped asked.threads.steps made.now → AllEntries NamesFew made.now → IsReadBack asked made.now) }
{
    if asked.journal {
        let journal = write_record(alloc, asked.threads.steps, made)?;
        text.extend_from_slice(&journal)?;
    }
    Ok(())
}

// The status and the text of a run that left this table. Its entries are laid out once.
fn told(alloc: Global, asked: RunOptions, sealed: &Sealed) -> Result<(u8, Vec<u8>), AllocError>
    requires { AreOptions asked.threads }
    ensures status { IfOk result (λ r. r.0 ≡ run_status sealed.now.entries) }
    ensures few { IfOk result (λ r. IsVerdict r.0) }
    ensures text { IfOk result (λ r. r.1.items ≡ run_text asked sealed.now.entries) }
    ensures read_back { OnOk result (IsRecord sealed.now.entries → AllEntries NamesFew sealed.now.entries → IsReadBack asked sealed.now.entries) }
{
    let entries = entries_of(alloc, sealed.record())?;
    let mut text = report_of_entries(alloc, &entries)?.into_bytes();
    add_journal(alloc, &mut text, asked, sealed.record())?;
    Ok((entries_status(&entries), text))
}

// The page of a run that left this table.
fn page_of(alloc: Global, asked: RunOptions, sealed: Sealed) -> Result<Page, AllocError>
    requires { AreOptions asked.threads }
    ensures answer { (program : Bytecode) (inputs : List ℤ) → IsRunOf program inputs asked.threads sealed → IfOk result (λ p. AnswersRun program inputs asked p.status p.text.items p.kept) }
    ensures status { IfOk result (λ p. IsVerdict p.status) }
{
    let (status, text) = told(alloc, asked, &sealed)?;
    Ok(Page {
        status,
        text,
        kept: Some(Kept::Run(sealed)),
    })
}

// What a program is answered.
fn ran<G: Gate, R: Threads + Wait + Sync>(
    rt: &R,
    alloc: Global,
    assembled: Assembled,
    asked: RunOptions,
    cuts: &Cuts,
    gate: &G,
) -> Result<Page, AllocError>
    requires { AreOptions asked.threads }
    ensures answer { IfOk result (λ p. AnswersRun assembled.program assembled.inputs asked p.status p.text.items p.kept) }
    ensures status { IfOk result (λ p. IsVerdict p.status) }
{
    let Assembled { program, inputs } = assembled;
    let sealed = run_program(rt, alloc, &program, inputs, &asked.threads, cuts, gate)?;
    sealed.record().keeps();
    page_of(alloc, asked, sealed)
}

// What a text is answered.
pub fn run<G: Gate, R: Threads + Wait + Sync>(
    rt: &R,
    alloc: Global,
    input: &[u8],
    asked: RunOptions,
    cuts: &Cuts,
    gate: &G,
) -> Result<Page, AllocError>
    requires { AreOptions asked.threads }
    ensures answer { IfOk result (λ p. RunsText asked input.now p.status p.text.items p.kept) }
    ensures status { IfOk result (λ p. IsVerdict p.status) }
{
    match assemble(alloc, input) {
        Ok(assembled) => ran(rt, alloc, assembled, asked, cuts, gate),
        Err(TextError::Fault(fault)) => refused(alloc, fault.line, fault.kind),
        Err(TextError::Memory(error)) => Err(error),
    }
}
