// The words of the command line.
ghost use Rattle.std.specs.Prelude.{◌≡◌, IfOk, IfSome, None, Some, string_bytes, map};
ghost use Rattle.gl_run.specs.Words.{HasLimits, alone, command_named, command_of, most_of, run_command_of, run_part, text_command_of, text_part};

use crate::options::{LoadOptions, RunOptions, load_options, run_options};
use gl_audited::AUDIT_BYTES;
use gl_trace::TRACE_BYTES;
use std::alloc::{AllocError, Global};

/// A command.
#[derive(Clone, Copy)]
pub enum Command {
    /// Says of each access of a trace whether it completes a race.
    Check,
    /// Lists a program in its canonical form.
    List,
    /// Runs a program.
    Run(RunOptions),
    /// Makes a bank and runs it.
    Load(LoadOptions),
    /// Audits a record against its program.
    Audit,
}

/// The most bytes of a program text.
pub const PROGRAM_BYTES: usize = 1_048_576;

impl Command {
    // The most bytes that a command reads which runs nothing.
    pub fn most(self) -> usize
        requires { run_part (Some self) ≡ None }
        ensures { most_of (Some self) ≡ Some result }
    {
        match self {
            Command::Check => TRACE_BYTES,
            Command::List => PROGRAM_BYTES,
            Command::Audit => AUDIT_BYTES,
            Command::Run(_) | Command::Load(_) => unreachable!(),
        }
    }
}

// A command without options.
fn alone(options: &[String], command: Command) -> Option<Command>
    ensures value { result ≡ alone (map string_bytes options.now) command }
    ensures limits { HasLimits command → IfSome result HasLimits }
{
    match options {
        [] => Some(command),
        _ => None,
    }
}

// The command of this name with these options.
fn command_named(
    alloc: Global,
    word: &[u8],
    options: &[String],
) -> Result<Option<Command>, AllocError>
    ensures value { IfOk result (λ asked. asked ≡ command_named word.now (map string_bytes options.now)) }
    ensures limits { IfOk result (λ asked. IfSome asked HasLimits) }
{
    match word {
        b"check" => Ok(alone(options, Command::Check)),
        b"list" => Ok(alone(options, Command::List)),
        b"run" => match run_options(alloc, options)? {
            Some(options) => Ok(Some(Command::Run(options))),
            None => Ok(None),
        },
        b"load" => match load_options(alloc, options)? {
            Some(options) => Ok(Some(Command::Load(options))),
            None => Ok(None),
        },
        b"audit" => Ok(alone(options, Command::Audit)),
        _ => Ok(None),
    }
}

// The command that the words ask for, if they are one of the stated forms.
pub fn command_of(alloc: Global, words: &[String]) -> Result<Option<Command>, AllocError>
    ensures value { IfOk result (λ asked. asked ≡ command_of (map string_bytes words.now)) }
    ensures limits { IfOk result (λ asked. IfSome asked HasLimits) }
{
    match words {
        [] | [_] => Ok(None),
        [_, word, options @ ..] => command_named(alloc, word.as_bytes(), options),
    }
}

// The command of this name, if it is one that reads a text and runs nothing.
fn text_command_named(word: &[u8], options: &[String]) -> Option<Command>
    ensures value { result ≡ text_part (command_named word.now (map string_bytes options.now)) }
    ensures runs_nothing { run_part result ≡ None }
{
    match word {
        b"check" => alone(options, Command::Check),
        b"list" => alone(options, Command::List),
        b"audit" => alone(options, Command::Audit),
        _ => None,
    }
}

// The command, if it is one that reads a text and runs nothing. The options of another are not looked at.
pub fn text_command_of(words: &[String]) -> Option<Command>
    ensures value { result ≡ text_command_of (map string_bytes words.now) }
    ensures runs_nothing { run_part result ≡ None }
{
    match words {
        [] | [_] => None,
        [_, word, options @ ..] => text_command_named(word.as_bytes(), options),
    }
}

// The command, if it is one that runs a program.
pub fn run_command_of(alloc: Global, words: &[String]) -> Result<Option<Command>, AllocError>
    ensures value { IfOk result (λ asked. asked ≡ run_command_of (map string_bytes words.now)) }
    ensures limits { IfOk result (λ asked. IfSome asked HasLimits) }
{
    match command_of(alloc, words)? {
        Some(Command::Run(options)) => Ok(Some(Command::Run(options))),
        Some(Command::Load(options)) => Ok(Some(Command::Load(options))),
        _ => Ok(None),
    }
}
