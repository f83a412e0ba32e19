// What a line's words say, apart from the lines before it.
ghost use Rattle.std.specs.Prelude.{◌≡◌, ◌<◌, IfOk, OnOk, IfSome, MatchResult, Ok, Err};
ghost use Rattle.gl_model.specs.TraceSteps.{IsStep, IsLineItem};
ghost use Rattle.gl_trace.specs.Phrase.{only_of, fixed, verb_said, lists_of, commit_said, form_said, step_said, step_with, said};
ghost use Rattle.gl_trace.specs.Kept.{IsItemKept};

use crate::form::{Form, Verb, form_told};
use crate::ids::{ids, operand};
use gl_model::{Item, THREADS};
use gl_text::Words;
use gl_text::kinds::{BAD_SET, UNKNOWN_WORD, WORD_COUNT};

// The only word that is left.
fn only(mut others: Words<'_>) -> Result<&[u8], u8>
    ensures { MatchResult result (λ word. only_of others.entry ≡ Ok word.now) (λ kind. only_of others.entry ≡ Err kind) }
{
    match (others.next(), others.next()) {
        (Some(word), None) => Ok(word),
        _ => Err(WORD_COUNT),
    }
}

// A word that has to stand where it stands.
fn told(expected: &[u8], word: &[u8]) -> Result<(), u8>
    ensures { result ≡ fixed expected.now word.now }
{
    if word == expected {
        Ok(())
    } else {
        Err(UNKNOWN_WORD)
    }
}

// What a line with one operand says.
#[tactic(auto, unfolding(crate::specs::Phrase::verb_said))]
fn verb_item(verb: Verb, others: Words<'_>, item: &mut Item) -> Result<(), u8>
    ensures value { MatchResult result (λ x. verb_said verb others.entry ≡ Ok item.new) (λ kind. verb_said verb others.entry ≡ Err kind) }
    ensures range { OnOk result (IsLineItem item.new) }
    ensures set { OnOk result (IsItemKept item.new) }
{
    let word = only(others)?;
    let n = operand(word, verb.most())?;
    *item = verb.with(n);
    Ok(())
}

// The two lists of a commit.
#[tactic(auto, unfolding(crate::specs::Phrase::lists_of))]
fn lists<'a>(mut others: Words<'a>) -> Result<(&'a [u8], &'a [u8]), u8>
    ensures { MatchResult result (λ x. lists_of others.entry ≡ Ok (x.0.now, x.1.now)) (λ kind. lists_of others.entry ≡ Err kind) }
{
    told(b"r", others.next().ok_or(WORD_COUNT)?)?;
    let reads = others.next().ok_or(WORD_COUNT)?;
    told(b"w", others.next().ok_or(WORD_COUNT)?)?;
    let writes = only(others)?;
    Ok((reads, writes))
}

// What a commit says.
#[tactic(auto, unfolding(crate::specs::Phrase::commit_said))]
fn commit_item(others: Words<'_>, item: &mut Item) -> Result<(), u8>
    ensures value { MatchResult result (λ x. commit_said others.entry ≡ Ok item.new) (λ kind. commit_said others.entry ≡ Err kind) }
    ensures range { OnOk result (IsLineItem item.new) }
    ensures set { OnOk result (IsItemKept item.new) }
{
    let (reads, writes) = lists(others)?;
    let reads = ids(reads)?;
    let writes = ids(writes)?;
    match (reads, writes) {
        (Some(reads), Some(writes)) => {
            *item = Item::Commit { reads, writes };
            Ok(())
        }
        _ => Err(BAD_SET),
    }
}

fn form_item(form: Form, others: Words<'_>, item: &mut Item) -> Result<(), u8>
    ensures value { MatchResult result (λ x. form_said form others.entry ≡ Ok item.new) (λ kind. form_said form others.entry ≡ Err kind) }
    ensures range { OnOk result (IsLineItem item.new) }
    ensures set { OnOk result (IsItemKept item.new) }
{
    match form {
        Form::One(verb) => verb_item(verb, others, item),
        Form::Commit => commit_item(others, item),
    }
}

// The step of a line whose first word is `first`: its thread, and its item.
#[tactic(auto, unfolding(crate::specs::Phrase::step_said))]
fn step(first: &[u8], mut others: Words<'_>, item: &mut Item) -> Result<u8, u8>
    ensures value { MatchResult result (λ t. step_said first.now others.entry ≡ Ok (t, item.new)) (λ kind. step_said first.now others.entry ≡ Err kind) }
    ensures range { IfOk result (λ t. IsStep (t, item.new)) }
    ensures set { OnOk result (IsItemKept item.new) }
{
    let thread = operand(first, u16::from(THREADS) - 1)?;
    let form = form_told(others.next().ok_or(WORD_COUNT)?)?;
    form_item(form, others, item)?;
    Ok(thread as u8)
}

/// What the words of a line say: nothing, a step, whose thread is answered and whose item is written to its place, or the kind of a
/// fault. An item takes so much room that it is written once.
pub fn said_by(mut words: Words<'_>, item: &mut Item) -> Result<Option<u8>, u8>
    ensures value { MatchResult result (λ o. said words.entry ≡ Ok (step_with item.new o)) (λ kind. said words.entry ≡ Err kind) }
    ensures range { IfOk result (λ o. IfSome o (λ t. IsStep (t, item.new))) }
    ensures set { IfOk result (λ o. IfSome o (λ t. IsItemKept item.new)) }
{
    match words.next() {
        None => Ok(None),
        Some(first) => Ok(Some(step(first, words, item)?)),
    }
}
