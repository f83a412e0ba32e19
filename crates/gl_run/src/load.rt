// The command `load`.
ghost use Rattle.std.specs.Prelude.{◌≡◌, [], IfOk};
ghost use Rattle.gl_gen.specs.Bank.{bank_program};
ghost use Rattle.gl_model.specs.Report.{summary_of};
ghost use Rattle.gl_threads.specs.Options.{AreOptions};
ghost use Rattle.gl_run.specs.Loads.{AnswersLoad, bank_options};
ghost use Rattle.gl_run.specs.Options.{IsLoad};
ghost use Rattle.gl_run.specs.Replies.{IsVerdict};
ghost use Rattle.gl_run.specs.Runs.{IsRunOf, run_status};
ghost use Rattle.gl_run.specs.declared.options.LoadOptions.{LoadOptions};

use crate::kept::Kept;
use crate::options::LoadOptions;
use crate::page::Page;
use crate::run::entries_status;
use gl_gen::bank;
use gl_model::Inputs;
use gl_report::{entries_of, summary_of_entries};
use gl_segments::Ring;
use gl_shortcut::Cuts;
use gl_table::Sealed;
use gl_threads::{Gate, Options, run_program};
use std::alloc::{AllocError, Global};
use std::sync::Wait;
use std::thread::Threads;

/// The most instructions that a thread of a load may start.
pub const LOAD_STEPS: u32 = 1_000_000;

impl LoadOptions {
    // The options with which the bank is run.
    fn bank_options(self) -> Options
        requires { IsLoad self }
        ensures value { result ≡ bank_options self }
        ensures valid { AreOptions result }
    {
        Options {
            workers: self.workers,
            steps: LOAD_STEPS,
            ring: Ring::standard(),
        }
    }
}

// The status and the summary of a load that left this table. Its entries are laid out once.
fn told(alloc: Global, sealed: &Sealed) -> Result<(u8, Vec<u8>), AllocError>
    ensures status { IfOk result (λ r. r.0 ≡ run_status sealed.now.entries) }
    ensures few { IfOk result (λ r. IsVerdict r.0) }
    ensures summary { IfOk result (λ r. r.1.items ≡ summary_of sealed.now.entries) }
{
    let entries = entries_of(alloc, sealed.record())?;
    let text = summary_of_entries(alloc, &entries)?;
    Ok((entries_status(&entries), text.into_bytes()))
}

// The page of a load that left this table.
fn page_of(alloc: Global, sealed: Sealed) -> Result<Page, AllocError>
    ensures answer { (asked : LoadOptions) → IsRunOf (bank_program asked.size) [] (bank_options asked) sealed → IfOk result (λ p. AnswersLoad asked p.status p.text.items p.kept) }
    ensures status { IfOk result (λ p. IsVerdict p.status) }
{
    let (status, text) = told(alloc, &sealed)?;
    Ok(Page {
        status,
        text,
        kept: Some(Kept::Run(sealed)),
    })
}

// What a load is answered.
pub fn load<G: Gate, R: Threads + Wait + Sync>(
    rt: &R,
    alloc: Global,
    asked: LoadOptions,
    cuts: &Cuts,
    gate: &G,
) -> Result<Page, AllocError>
    requires { IsLoad asked }
    ensures answer { IfOk result (λ p. AnswersLoad asked p.status p.text.items p.kept) }
    ensures status { IfOk result (λ p. IsVerdict p.status) }
{
    let program = bank(alloc, asked.size)?;
    let options = asked.bank_options();
    let sealed = run_program(
        rt,
        alloc,
        &program,
        Inputs::empty(alloc),
        &options,
        cuts,
        gate,
    )?;
    sealed.record().keeps();
    page_of(alloc, sealed)
}
