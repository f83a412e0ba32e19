// What a line adds to a program.
ghost use Rattle.std.specs.Prelude.{ℕ, ◌<◌, ◌≡◌, ◌≤◌, IfOk, MatchResult, Ok, Err, Some, None, true, option_map};
ghost use Rattle.gl_asm.specs.Definitions.{first_definition};
ghost use Rattle.gl_asm.specs.Words.{operand_of};
ghost use Rattle.gl_bytecode.specs.Faults.{ThrowsInRange};
ghost use Rattle.gl_asm.specs.Sayings.{IsFunction};
ghost use Rattle.gl_asm.specs.Additions.{IsPlaced, with_nothing, with_value, with_index, with_both, with_code, with_meaning, is_before, label_of_line, catch_of, class_of, count_of, function_of, instruction_of, meaning_of, new_name, none_of, one_of, room_for, three_of, two_of, value_of, with_operands};

use crate::definitions::{DefinedNames, Scope};
use crate::forms::Counts;
use crate::limits::{LEAST_VALUE, MOST_INDEX, MOST_VALUE};
use crate::names::is_name;
use crate::table::{Operand, filled, operand_of};
use gl_bytecode::{CATCHES, Catch, Instr, LEAST_THROWN, LOCALS, MOST_THROWN};
use gl_model::{CLASSES, FUNCTIONS, Inputs, VARIABLES, VOLATILES};
use gl_text::kinds::{BAD_NAME, BAD_NUMBER, NAME_TAKEN, NAME_UNKNOWN, TOO_MANY, WORD_COUNT};
use gl_text::{Words, number};

/// What a line adds.
#[derive(Drop)]
pub enum Addition {
    Nothing,
    Class(u16, u16),
    Function(u8, u8),
    Instruction(Instr),
    Catch(Catch),
    Inputs(Inputs),
}

fn none_of(mut words: Words<'_>) -> Result<(), u8>
    ensures { result ≡ none_of words.entry }
{
    match words.next() {
        None => Ok(()),
        Some(_) => Err(WORD_COUNT),
    }
}

fn one_of(mut words: Words<'_>) -> Result<&[u8], u8>
    ensures { MatchResult result (λ word. one_of words.entry ≡ Ok word.now) (λ kind. one_of words.entry ≡ Err kind) }
{
    match (words.next(), words.next()) {
        (Some(one), None) => Ok(one),
        _ => Err(WORD_COUNT),
    }
}

fn two_of(mut words: Words<'_>) -> Result<(&[u8], &[u8]), u8>
    ensures { MatchResult result (λ w. two_of words.entry ≡ Ok (w.0.now, w.1.now)) (λ kind. two_of words.entry ≡ Err kind) }
{
    match (words.next(), words.next(), words.next()) {
        (Some(one), Some(two), None) => Ok((one, two)),
        _ => Err(WORD_COUNT),
    }
}

fn three_of(mut words: Words<'_>) -> Result<(&[u8], &[u8], &[u8]), u8>
    ensures { MatchResult result (λ w. three_of words.entry ≡ Ok (w.0.now, w.1.now, w.2.now)) (λ kind. three_of words.entry ≡ Err kind) }
{
    match (words.next(), words.next(), words.next(), words.next()) {
        (Some(one), Some(two), Some(three), None) => Ok((one, two, three)),
        _ => Err(WORD_COUNT),
    }
}

// A number from `least` to `most`.
fn count_of(least: u16, most: u16, word: &[u8]) -> Result<u16, u8>
    ensures value { result ≡ count_of least most word.now }
    ensures bound { IfOk result (λ n. (least ≤ n) × (n ≤ most)) }
{
    match number(word, i64::from(least), i64::from(most)) {
        Some(n) => Ok(n as u16),
        None => Err(BAD_NUMBER),
    }
}

pub fn value_of(word: &[u8]) -> Result<i64, u8>
    ensures { result ≡ value_of word.now }
{
    number(word, LEAST_VALUE, MOST_VALUE).ok_or(BAD_NUMBER)
}

// Does an earlier line define the name?
fn is_taken<'a>(table: &DefinedNames<'a>, scope: Scope, line: u32, name: &'a [u8]) -> bool
    ensures { result ≡ is_before line (first_definition table.now scope name.now) }
{
    match table.first(scope, name) {
        Some((first, _)) => first < line,
        None => false,
    }
}

// The checks of a name that a line defines.
fn new_name<'a>(
    table: &DefinedNames<'a>,
    scope: Scope,
    line: u32,
    room: bool,
    name: &'a [u8],
) -> Result<(), u8>
    ensures { result ≡ new_name table.now scope line room name.now }
{
    if !is_name(name) {
        return Err(BAD_NAME);
    }
    if !room {
        return Err(TOO_MANY);
    }
    if is_taken(table, scope, line, name) {
        return Err(NAME_TAKEN);
    }
    Ok(())
}

// What a name stands for.
fn meaning_of<'a>(table: &DefinedNames<'a>, scope: Scope, name: &'a [u8]) -> Result<u16, u8>
    ensures { result ≡ meaning_of table.now scope name.now }
{
    match table.first(scope, name) {
        Some((_, number)) => Ok(number),
        None => Err(NAME_UNKNOWN),
    }
}

/// What a class line adds, by the words behind its first.
#[tactic(auto, unfolding(crate::specs::Additions::class_of))]
pub fn class_of<'a>(
    table: &DefinedNames<'a>,
    counts: Counts,
    line: u32,
    others: Words<'a>,
) -> Result<Addition, u8>
    ensures value { result ≡ class_of table.now counts line others.entry }
    ensures placed { IfOk result (λ a. (functions room : ℕ) → IsPlaced functions room a) }
{
    let (name, plain, volatile) = three_of(others)?;
    new_name(table, Scope::Classes, line, counts.classes < CLASSES, name)?;
    let plain = count_of(0, VARIABLES, plain)?;
    let volatile = count_of(0, VOLATILES, volatile)?;
    Ok(Addition::Class(plain, volatile))
}

/// What a function's header adds, by the words behind its first.
#[tactic(auto, unfolding(crate::specs::Additions::function_of))]
pub fn function_of<'a>(
    table: &DefinedNames<'a>,
    counts: Counts,
    line: u32,
    others: Words<'a>,
) -> Result<Addition, u8>
    ensures value { result ≡ function_of table.now counts line others.entry }
    ensures starts { IfOk result IsFunction }
    ensures placed { IfOk result (λ a. (functions room : ℕ) → IsPlaced functions room a) }
{
    let (name, args, locals) = three_of(others)?;
    new_name(
        table,
        Scope::Functions,
        line,
        counts.functions < FUNCTIONS,
        name,
    )?;
    let args = count_of(0, LOCALS as u16, args)?;
    let locals = count_of(0, LOCALS as u16, locals)?;
    Ok(Addition::Function(args as u8, locals as u8))
}

/// What a label adds: nothing, if it is in order.
#[tactic(auto, unfolding(crate::specs::Additions::label_of_line))]
pub fn label_of_line<'a>(
    table: &DefinedNames<'a>,
    counts: Counts,
    line: u32,
    name: Option<&'a [u8]>,
) -> Result<Addition, u8>
    ensures value { result ≡ label_of_line table.now counts line (option_map (λ w. w.now) name.entry) }
    ensures placed { IfOk result (λ a. (functions room : ℕ) → IsPlaced functions room a) }
{
    if let Some(name) = name {
        new_name(table, Scope::Labels(counts.functions), line, true, name)?;
    }
    Ok(Addition::Nothing)
}

pub fn room_for(room: bool) -> Result<(), u8>
    ensures { result ≡ room_for room }
{
    if room { Ok(()) } else { Err(TOO_MANY) }
}

/// What a catch adds, by the words behind its first.
#[tactic(auto, unfolding(crate::specs::Additions::catch_of))]
pub fn catch_of<'a>(
    table: &DefinedNames<'a>,
    counts: Counts,
    others: Words<'a>,
) -> Result<Addition, u8>
    ensures value { result ≡ catch_of table.now counts others.entry }
    ensures placed { IfOk result (λ a. (functions room : ℕ) → 0 < functions → IsPlaced functions room a) }
{
    let (from, to, target) = three_of(others)?;
    room_for(usize::from(counts.catches) < CATCHES)?;
    let from = meaning_of(table, Scope::Labels(counts.functions), from)?;
    let to = meaning_of(table, Scope::Labels(counts.functions), to)?;
    let target = meaning_of(table, Scope::Labels(counts.functions), target)?;
    Ok(Addition::Catch(Catch { from, to, target }))
}

// An instruction that has no operand.
fn with_nothing(instr: Instr, others: Words<'_>) -> Result<Instr, u8>
    ensures value { result ≡ with_nothing instr others.entry }
    ensures thrown { ThrowsInRange instr → IfOk result ThrowsInRange }
{
    none_of(others)?;
    Ok(instr)
}

fn with_value(instr: Instr, others: Words<'_>) -> Result<Instr, u8>
    ensures value { result ≡ with_value instr others.entry }
    ensures thrown { ThrowsInRange instr → IfOk result ThrowsInRange }
{
    let value = value_of(one_of(others)?)?;
    Ok(filled(instr, 0, value))
}

fn with_index(instr: Instr, others: Words<'_>) -> Result<Instr, u8>
    ensures value { result ≡ with_index instr others.entry }
    ensures thrown { ThrowsInRange instr → IfOk result ThrowsInRange }
{
    let index = count_of(0, MOST_INDEX, one_of(others)?)?;
    Ok(filled(instr, index, 0))
}

fn with_both(instr: Instr, others: Words<'_>) -> Result<Instr, u8>
    ensures value { result ≡ with_both instr others.entry }
    ensures thrown { ThrowsInRange instr → IfOk result ThrowsInRange }
{
    let (index, value) = two_of(others)?;
    let index = count_of(0, MOST_INDEX, index)?;
    let value = value_of(value)?;
    Ok(filled(instr, index, value))
}

fn with_code(others: Words<'_>) -> Result<Instr, u8>
    ensures value { result ≡ with_code others.entry }
    ensures thrown { IfOk result ThrowsInRange }
{
    let code = count_of(
        u16::from(LEAST_THROWN),
        u16::from(MOST_THROWN),
        one_of(others)?,
    )?;
    Ok(Instr::Throw(code as u8))
}

fn with_meaning<'a>(
    table: &DefinedNames<'a>,
    scope: Scope,
    instr: Instr,
    others: Words<'a>,
) -> Result<Instr, u8>
    ensures value { result ≡ with_meaning table.now scope instr others.entry }
    ensures thrown { ThrowsInRange instr → IfOk result ThrowsInRange }
{
    let number = meaning_of(table, scope, one_of(others)?)?;
    Ok(filled(instr, number, 0))
}

// An instruction with its operands.
#[tactic(auto, unfolding(crate::specs::Additions::with_operands))]
fn with_operands<'a>(
    table: &DefinedNames<'a>,
    counts: Counts,
    instr: Instr,
    others: Words<'a>,
) -> Result<Instr, u8>
    ensures value { result ≡ with_operands table.now counts instr (operand_of instr) others.entry }
    ensures thrown { ThrowsInRange instr → IfOk result ThrowsInRange }
{
    match operand_of(instr) {
        Operand::Nothing => with_nothing(instr, others),
        Operand::Value(_) => with_value(instr, others),
        Operand::Index(_) => with_index(instr, others),
        Operand::IndexAndValue(_, _) => with_both(instr, others),
        Operand::Code(_) => with_code(others),
        Operand::Label(_) => with_meaning(table, Scope::Labels(counts.functions), instr, others),
        Operand::Function(_) => with_meaning(table, Scope::Functions, instr, others),
        Operand::Class(_) => with_meaning(table, Scope::Classes, instr, others),
    }
}

/// What an instruction's line adds, by the words behind its first.
#[tactic(auto, unfolding(crate::specs::Additions::instruction_of))]
pub fn instruction_of<'a>(
    table: &DefinedNames<'a>,
    counts: Counts,
    instr: Instr,
    others: Words<'a>,
) -> Result<Addition, u8>
    ensures value { result ≡ instruction_of table.now counts instr others.entry }
    ensures placed { ThrowsInRange instr → IfOk result (λ a. (functions room : ℕ) → 0 < functions → IsPlaced functions room a) }
{
    let instr = with_operands(table, counts, instr, others)?;
    Ok(Addition::Instruction(instr))
}
