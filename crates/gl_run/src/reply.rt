// What a command, or words that are none, and the input are answered.
ghost use Rattle.std.specs.Prelude.{◌≡◌, ℕ, List, Option, IfOk, IfSome, OnOk, None, Some};
ghost use Rattle.std.specs.Io.KnownBytes.{IsAtEnd};
ghost use Rattle.gl_asm.specs.declared.limits.TheConstants.{LONGEST};
ghost use Rattle.gl_threads.specs.Options.{AreOptions};
ghost use Rattle.gl_run.specs.Command.{HasRead, IsAccepted, ReadsNothing};
ghost use Rattle.gl_run.specs.Options.{IsLoad};
ghost use Rattle.gl_run.specs.Output.{usage};
ghost use Rattle.gl_run.specs.Replies.{IsVerdict, ReplyCause, RepliesTo};
ghost use Rattle.gl_run.specs.Texts.{AnswersText, AnswersLonger};
ghost use Rattle.gl_run.specs.Words.{HasLimits, most_of, run_part};
ghost use Rattle.gl_run.specs.declared.words.Command.TheVariants as commands;

use crate::audits::audit;
use crate::check::check;
use crate::keep::Keep;
use crate::listed::list;
use crate::load::load;
use crate::options::{LoadOptions, RunOptions};
use crate::output::usage;
use crate::page::{Page, Stop, refused};
use crate::run::run;
use crate::status::{NO_COMMAND, REFUSED};
use crate::words::{Command, PROGRAM_BYTES};
use gl_io::{ReadStop, Source, read_all};
use gl_shortcut::Cuts;
use gl_text::kinds::TOO_LONG;
use gl_threads::Gate;
use std::alloc::{AllocError, Global};
use std::sync::Wait;
use std::thread::Threads;

// What words that are no command are answered.
fn no_command(alloc: Global) -> Result<Page, AllocError>
    ensures status { IfOk result (λ p. p.status ≡ NO_COMMAND) }
    ensures text { IfOk result (λ p. p.text.items ≡ usage) }
    ensures kept { IfOk result (λ p. p.kept ≡ None) }
{
    Ok(Page {
        status: NO_COMMAND,
        text: usage(alloc)?.into_bytes(),
        kept: None,
    })
}

// What a command that runs nothing answers for a text.
fn answer_text(
    alloc: Global,
    command: Command,
    input: &[u8],
    cuts: &Cuts,
    keep: Keep,
) -> Result<Page, AllocError>
    requires { run_part (Some command) ≡ None }
    ensures answer { IfOk result (λ p. AnswersText keep command input.now p.status p.text.items p.kept) }
    ensures status { IfOk result (λ p. IsVerdict p.status) }
{
    match command {
        Command::Check => check(alloc, input, cuts, keep),
        Command::List => list(alloc, input),
        Command::Audit => audit(alloc, input),
        Command::Run(_) | Command::Load(_) => unreachable!(),
    }
}

// What a command answers for a text of more bytes than it reads.
fn answer_longer(alloc: Global, command: Command) -> Result<Page, AllocError>
    ensures answer { IfOk result (λ p. AnswersLonger command p.status p.text.items p.kept) }
    ensures status { IfOk result (λ p. p.status ≡ REFUSED) }
{
    refused(alloc, 0, TOO_LONG)
}

// What a command that runs nothing, or words that are none, and all that the source has are answered.
pub fn text_reply<S: Source>(
    alloc: Global,
    asked: Option<Command>,
    source: &mut S,
    cuts: &Cuts,
    keep: Keep,
) -> Result<Page, Stop>
    requires { run_part asked ≡ None }
    ensures cause { ReplyCause asked (S.faults source.old) (S.faults source.new) result }
    ensures unread { ReadsNothing asked → S.left source.new ≡ S.left source.old }
    ensures accepted { (most : ℕ) → most_of asked ≡ Some most → IfOk result (λ p. IsAccepted p.status → IsAtEnd (S.left source.new)) }
    ensures read { (most : ℕ) → most_of asked ≡ Some most → OnOk result (HasRead most (S.left source.old) (S.left source.new)) }
    ensures page { IfOk result (RepliesTo keep asked (S.left source.old)) }
{
    match asked {
        None => no_command(alloc).map_err(|_| Stop::Memory),
        Some(command) => match read_all(alloc, source, command.most()) {
            Ok(input) => {
                answer_text(alloc, command, &input, cuts, keep).map_err(|_| Stop::Memory)
            }
            Err(ReadStop::TooLong) => answer_longer(alloc, command).map_err(|_| Stop::Memory),
            Err(ReadStop::Fault) => Err(Stop::Read),
            Err(ReadStop::Memory(_)) => Err(Stop::Memory),
        },
    }
}

// What a run with these options, and all that the source has, are answered.
fn run_reply<S: Source, G: Gate, R: Threads + Wait + Sync>(
    rt: &R,
    alloc: Global,
    asked: RunOptions,
    source: &mut S,
    cuts: &Cuts,
    gate: &G,
) -> Result<Page, Stop>
    requires { AreOptions asked.threads }
    ensures cause { ReplyCause (Some (commands.Run asked)) (S.faults source.old) (S.faults source.new) result }
    ensures accepted { IfOk result (λ p. IsAccepted p.status → IsAtEnd (S.left source.new)) }
    ensures read { OnOk result (HasRead LONGEST (S.left source.old) (S.left source.new)) }
    ensures page { (keep : Keep) → IfOk result (RepliesTo keep (Some (commands.Run asked)) (S.left source.old)) }
{
    match read_all(alloc, source, PROGRAM_BYTES) {
        Ok(input) => run(rt, alloc, &input, asked, cuts, gate).map_err(|_| Stop::Memory),
        Err(ReadStop::TooLong) => {
            answer_longer(alloc, Command::Run(asked)).map_err(|_| Stop::Memory)
        }
        Err(ReadStop::Fault) => Err(Stop::Read),
        Err(ReadStop::Memory(_)) => Err(Stop::Memory),
    }
}

// What a load with these options is answered. Nothing is read.
fn load_reply<G: Gate, R: Threads + Wait + Sync>(
    rt: &R,
    alloc: Global,
    options: LoadOptions,
    cuts: &Cuts,
    gate: &G,
) -> Result<Page, Stop>
    requires { IsLoad options }
    ensures cause { (count : ℕ) → ReplyCause (Some (commands.Load options)) count count result }
    ensures page { (keep : Keep) (left : Option (List ℕ)) → IfOk result (RepliesTo keep (Some (commands.Load options)) left) }
{
    load(rt, alloc, options, cuts, gate).map_err(|_| Stop::Memory)
}

// What a command, or words that are none, and all that the source has are answered.
pub fn reply<S: Source, G: Gate, R: Threads + Wait + Sync>(
    rt: &R,
    alloc: Global,
    asked: Option<Command>,
    source: &mut S,
    cuts: &Cuts,
    gate: &G,
    keep: Keep,
) -> Result<Page, Stop>
    requires { IfSome asked HasLimits }
    ensures cause { ReplyCause asked (S.faults source.old) (S.faults source.new) result }
    ensures unread { ReadsNothing asked → S.left source.new ≡ S.left source.old }
    ensures accepted { (most : ℕ) → most_of asked ≡ Some most → IfOk result (λ p. IsAccepted p.status → IsAtEnd (S.left source.new)) }
    ensures read { (most : ℕ) → most_of asked ≡ Some most → OnOk result (HasRead most (S.left source.old) (S.left source.new)) }
    ensures page { IfOk result (RepliesTo keep asked (S.left source.old)) }
{
    match asked {
        Some(Command::Run(options)) => run_reply(rt, alloc, options, source, cuts, gate),
        Some(Command::Load(options)) => load_reply(rt, alloc, options, cuts, gate),
        other => text_reply(alloc, other, source, cuts, keep),
    }
}
