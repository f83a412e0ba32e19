// The entry that a line says.
ghost use Rattle.std.specs.Prelude.{◌≡◌, ◌<◌, ◌-◌, MatchResult, IfOk, IfErr, Ok, Err};
ghost use Rattle.gl_model.specs.Entries.{seen};
ghost use Rattle.gl_model.specs.Kept.{IsEntryInRange};
ghost use Rattle.gl_model.specs.declared.limits.TheConstants.{VARIABLES};
ghost use Rattle.gl_journal.specs.Fields.{natural_in};
ghost use Rattle.gl_journal.specs.Refused.{Refused};
ghost use Rattle.gl_journal.specs.EntryLines.{sync_in, commit_in, plain_in, changed_in, raised_in, trim_in, uncaught_in, entry_in};

use crate::fields::{choice_in, natural_in, value_in};
use crate::forms::EntryForm;
use crate::limits::MOST_STAMP;
use crate::refusal::Refusal;
use crate::sync_kinds::kind_told;
use crate::transactions::tx_in;
use gl_model::{Ending, Entry, VARIABLES, Why};
use gl_text::Words;
use gl_text::kinds::WORD_COUNT;
use std::alloc::Global;

// A variable.
fn variable_in(word: &[u8]) -> Result<u16, u8>
    ensures value { result ≡ natural_in (VARIABLES - 1) word.now }
    ensures bound { IfOk result (λ var. var < VARIABLES) }
{
    let var = natural_in(u64::from(VARIABLES - 1), word)?;
    Ok(var as u16)
}

// A synchronization: its position, its kind, the number of the act, and its value.
#[tactic(auto, unfolding(crate::specs::EntryLines::sync_in))]
fn sync_in(mut words: Words<'_>) -> Result<Entry, u8>
    ensures value { MatchResult result (λ e. sync_in words.entry ≡ Ok (seen e)) (λ kind. sync_in words.entry ≡ Err kind) }
    ensures range { IfOk result (λ e. IsEntryInRange (seen e)) }
{
    let at = natural_in(MOST_STAMP, words.next().ok_or(WORD_COUNT)?)?;
    let kind = kind_told(words.next().ok_or(WORD_COUNT)?)?;
    let number = natural_in(u64::from(kind.most()), words.next().ok_or(WORD_COUNT)?)?;
    let value = value_in(words.next().ok_or(WORD_COUNT)?)?;
    Ok(Entry::Sync {
        at,
        act: kind.act(number as u16),
        value,
    })
}

// A commit: its position and its transaction.
#[tactic(auto, unfolding(crate::specs::EntryLines::commit_in))]
fn commit_in(alloc: Global, mut words: Words<'_>) -> Result<Entry, Refusal>
    ensures ok { IfOk result (λ e. commit_in words.entry ≡ Ok (seen e)) }
    ensures fault { IfErr result (Refused (commit_in words.entry)) }
    ensures range { IfOk result (λ e. IsEntryInRange (seen e)) }
{
    let at = natural_in(MOST_STAMP, words.next().ok_or(WORD_COUNT)?)?;
    let tx = tx_in(alloc, words)?;
    Ok(Entry::Commit { at, tx })
}

// A plain access: its variable, its number, whether it writes, its value, whether it is a repeat, and whether it was refused.
#[tactic(auto, unfolding(crate::specs::EntryLines::plain_in))]
fn plain_in(mut words: Words<'_>) -> Result<Entry, u8>
    ensures value { MatchResult result (λ e. plain_in words.entry ≡ Ok (seen e)) (λ kind. plain_in words.entry ≡ Err kind) }
    ensures range { IfOk result (λ e. IsEntryInRange (seen e)) }
{
    let var = variable_in(words.next().ok_or(WORD_COUNT)?)?;
    let nth = natural_in(MOST_STAMP, words.next().ok_or(WORD_COUNT)?)?;
    let write = choice_in(b"rd", b"wr", words.next().ok_or(WORD_COUNT)?)?;
    let value = value_in(words.next().ok_or(WORD_COUNT)?)?;
    let cached = choice_in(b"own", b"cached", words.next().ok_or(WORD_COUNT)?)?;
    let raised = choice_in(b"ok", b"race", words.next().ok_or(WORD_COUNT)?)?;
    Ok(Entry::Plain {
        var,
        nth,
        cached,
        write,
        value,
        raised,
    })
}

// An attempt that found a variable changed: the variable, the value that was read and the one that was found, and its transaction.
#[tactic(auto, unfolding(crate::specs::EntryLines::changed_in))]
fn changed_in(alloc: Global, mut words: Words<'_>) -> Result<Entry, Refusal>
    ensures ok { IfOk result (λ e. changed_in words.entry ≡ Ok (seen e)) }
    ensures fault { IfErr result (Refused (changed_in words.entry)) }
    ensures range { IfOk result (λ e. IsEntryInRange (seen e)) }
{
    let var = variable_in(words.next().ok_or(WORD_COUNT)?)?;
    let read = value_in(words.next().ok_or(WORD_COUNT)?)?;
    let found = value_in(words.next().ok_or(WORD_COUNT)?)?;
    let tx = tx_in(alloc, words)?;
    let why = Why::Changed { var, read, found };
    Ok(Entry::Abort { tx, why })
}

// An attempt that was refused for a race: the variable, and its transaction.
#[tactic(auto, unfolding(crate::specs::EntryLines::raised_in))]
fn raised_in(alloc: Global, mut words: Words<'_>) -> Result<Entry, Refusal>
    ensures ok { IfOk result (λ e. raised_in words.entry ≡ Ok (seen e)) }
    ensures fault { IfErr result (Refused (raised_in words.entry)) }
    ensures range { IfOk result (λ e. IsEntryInRange (seen e)) }
{
    let var = variable_in(words.next().ok_or(WORD_COUNT)?)?;
    let tx = tx_in(alloc, words)?;
    let why = Why::Raised { var };
    Ok(Entry::Abort { tx, why })
}

// How far the list was trimmed.
#[tactic(auto, unfolding(crate::specs::EntryLines::trim_in))]
fn trim_in(mut words: Words<'_>) -> Result<Entry, u8>
    ensures value { MatchResult result (λ e. trim_in words.entry ≡ Ok (seen e)) (λ kind. trim_in words.entry ≡ Err kind) }
    ensures range { IfOk result (λ e. IsEntryInRange (seen e)) }
{
    let low = natural_in(MOST_STAMP, words.next().ok_or(WORD_COUNT)?)?;
    Ok(Entry::Trim { low })
}

// The end by an exception that nothing catches: its code.
#[tactic(auto, unfolding(crate::specs::EntryLines::uncaught_in))]
fn uncaught_in(mut words: Words<'_>) -> Result<Entry, u8>
    ensures value { MatchResult result (λ e. uncaught_in words.entry ≡ Ok (seen e)) (λ kind. uncaught_in words.entry ≡ Err kind) }
    ensures range { IfOk result (λ e. IsEntryInRange (seen e)) }
{
    let code = natural_in(u64::from(u8::MAX), words.next().ok_or(WORD_COUNT)?)?;
    Ok(Entry::Over(Ending::Uncaught(code as u8)))
}

/// The entry that a line of this form says, by the words behind those that tell the form.
pub fn entry_in(alloc: Global, form: EntryForm, words: Words<'_>) -> Result<Entry, Refusal>
    ensures ok { IfOk result (λ e. entry_in form words.entry ≡ Ok (seen e)) }
    ensures fault { IfErr result (Refused (entry_in form words.entry)) }
    ensures range { IfOk result (λ e. IsEntryInRange (seen e)) }
{
    match form {
        EntryForm::Sync => Ok(sync_in(words)?),
        EntryForm::Commit => commit_in(alloc, words),
        EntryForm::Plain => Ok(plain_in(words)?),
        EntryForm::Changed => changed_in(alloc, words),
        EntryForm::Raised => raised_in(alloc, words),
        EntryForm::Trim => Ok(trim_in(words)?),
        EntryForm::Halt => Ok(Entry::Over(Ending::Halt)),
        EntryForm::Spent => Ok(Entry::Over(Ending::Spent)),
        EntryForm::Uncaught => Ok(uncaught_in(words)?),
    }
}
