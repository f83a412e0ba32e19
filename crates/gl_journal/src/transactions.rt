// The transaction of a line.
ghost use Rattle.std.specs.Prelude.{◌≡◌, MatchResult, IfOk, IfErr, Ok, Err, true, ◌<◌};
ghost use Rattle.std.specs.List.{AllByRecursion};
ghost use Rattle.gl_model.specs.declared.limits.TheConstants.{VARIABLES};
ghost use Rattle.gl_journal.specs.Parts.{is_set};
ghost use Rattle.gl_journal.specs.Refused.{Refused};
ghost use Rattle.gl_journal.specs.Transactions.{lists_of, names_few, tx_in, vars_of};

use crate::fields::told;
use crate::parts::{Part, PartForm, is_set, list_in, looks_of, numbers_of, pairs_of};
use crate::refusal::Refusal;
use gl_model::{Tx, VarSet};
use gl_text::Words;
use gl_text::kinds::{BAD_NUMBER, BAD_SET, WORD_COUNT};
use std::alloc::{AllocError, Global};

// The three lists, behind an r, a w and an n.
#[tactic(auto, unfolding(crate::specs::Transactions::lists_of))]
fn lists_of(mut words: Words<'_>) -> Result<(&[u8], &[u8], &[u8]), u8>
    ensures { MatchResult result (λ l. lists_of words.entry ≡ Ok (l.0.now, l.1.now, l.2.now)) (λ kind. lists_of words.entry ≡ Err kind) }
{
    told(BAD_NUMBER, b"r", words.next().ok_or(WORD_COUNT)?)?;
    let looks = words.next().ok_or(WORD_COUNT)?;
    told(BAD_NUMBER, b"w", words.next().ok_or(WORD_COUNT)?)?;
    let writes = words.next().ok_or(WORD_COUNT)?;
    told(BAD_NUMBER, b"n", words.next().ok_or(WORD_COUNT)?)?;
    let numbers = words.next().ok_or(WORD_COUNT)?;
    Ok((looks, writes, numbers))
}

// The variables of a list.
fn vars_of(parts: &[Part]) -> VarSet
    requires set { is_set parts.now ≡ true }
    requires range { AllByRecursion (λ p. p.var < VARIABLES) parts.now }
    ensures { result ≡ vars_of parts.now }
{
    let mut vars = VarSet::empty();
    for part in parts {
        match vars.insert(part.var) {
            Ok(()) => {}
            Err(_) => unreachable!(),
        }
    }
    vars
}

// Whether two lists together name at most as many variables as a transaction may have.
fn names_few(looks: &[Part], writes: &[Part]) -> bool
    requires looks { is_set looks.now ≡ true }
    requires looks_range { AllByRecursion (λ p. p.var < VARIABLES) looks.now }
    requires writes { is_set writes.now ≡ true }
    requires writes_range { AllByRecursion (λ p. p.var < VARIABLES) writes.now }
    ensures { result ≡ names_few looks.now writes.now }
{
    match vars_of(looks).union(&vars_of(writes)) {
        Some(_) => true,
        None => false,
    }
}

fn boxed(alloc: Global, tx: Tx) -> Result<Box<Tx>, AllocError>
    ensures { IfOk result (λ b. b.value ≡ tx) }
{
    Ok(Box::new(alloc, tx)?)
}

/// The transaction that the words say.
#[tactic(auto, unfolding(crate::specs::Transactions::tx_in))]
pub fn tx_in(alloc: Global, words: Words<'_>) -> Result<Box<Tx>, Refusal>
    ensures ok { IfOk result (λ tx. tx_in words.entry ≡ Ok tx.value) }
    ensures fault { IfErr result (Refused (tx_in words.entry)) }
{
    let (looks, writes, numbers) = lists_of(words)?;
    let looks = list_in(alloc, PartForm::Look, looks)?;
    let writes = list_in(alloc, PartForm::Pair, writes)?;
    let numbers = list_in(alloc, PartForm::Number, numbers)?;
    if is_set(&looks) && is_set(&writes) && is_set(&numbers) && names_few(&looks, &writes) {
        let tx = Tx {
            looks: looks_of(&looks),
            writes: pairs_of(&writes),
            numbers: numbers_of(&numbers),
        };
        return Ok(boxed(alloc, tx)?);
    }
    Err(Refusal::Kind(BAD_SET))
}
