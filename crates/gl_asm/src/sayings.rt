// What a line says, behind the lines before it.
ghost use Rattle.std.specs.Prelude.{◌≡◌, ◌≤◌, ◌<◌, ◌-◌, ◌+◌, not, is_some, slice_get, length, IfOk, IfErr, Ok, Err, Some, None, ℕ, true};
ghost use Rattle.gl_model.specs.declared.limits.TheConstants.{INPUTS};
ghost use Rattle.gl_text.specs.Text.{words};
ghost use Rattle.gl_asm.specs.Additions.{IsPlaced, inputs_of, rest_of, values_of};
ghost use Rattle.gl_asm.specs.Forms.{form_of};
ghost use Rattle.gl_asm.specs.Sayings.{IsNoInputs, ThrowsIn, Refused, StartsFunction, form_says, is_in_section, is_placed, said};

use crate::additions::{
    Addition, catch_of, class_of, function_of, instruction_of, label_of_line, room_for, value_of,
};
use crate::definitions::{DefinedNames, defined_word};
use crate::forms::{Counts, Form, form_of};
use crate::refusal::Refusal;
use gl_model::{INPUTS, Inputs};
use gl_text::kinds::{BAD_BYTE, MISPLACED, UNKNOWN_WORD};
use gl_text::{Line, Words};
use std::alloc::Global;

// The words behind the first.
fn rest_of<'a>(line: &Line<'a>) -> Words<'a>
    ensures { result ≡ rest_of (words line.now.text) }
{
    let mut words = line.words();
    words.next();
    words
}

// Is there room for the inputs of a line, where there are so many?
fn has_room(have: usize, line: &Line<'_>) -> bool
    requires { have ≤ INPUTS }
    ensures { result ≡ not (is_some (slice_get (words line.now.text) (INPUTS - have + 1))) }
{
    match line.word(INPUTS - have + 1) {
        Some(_) => false,
        None => true,
    }
}

// The values of some words.
fn values_of(alloc: Global, mut words: Words<'_>) -> Result<Inputs, Refusal>
    requires { length words ≤ INPUTS }
    ensures ok { IfOk result (λ values. values_of words.entry ≡ Ok values) }
    ensures count { IfOk result (λ values. length values ≡ length words.entry) }
    ensures err { IfErr result (Refused (values_of words.entry)) }
{
    let mut values = Inputs::empty(alloc);
    while let Some(word) = words.next() {
        let value = value_of(word).map_err(|kind| Refusal::Kind(kind))?;
        values.push(value).map_err(|error| Refusal::Memory(error))?;
    }
    Ok(values)
}

// What a line of inputs says.
#[tactic(auto, unfolding(crate::specs::Additions::inputs_of))]
fn inputs_of(alloc: Global, have: usize, line: &Line<'_>) -> Result<Addition, Refusal>
    requires { have ≤ INPUTS }
    ensures ok { IfOk result (λ a. inputs_of have (words line.now.text) ≡ Ok a) }
    ensures err { IfErr result (Refused (inputs_of have (words line.now.text))) }
    ensures placed { IfOk result (λ a. (functions : ℕ) → IsPlaced functions (INPUTS - have) a) }
{
    room_for(has_room(have, line)).map_err(|kind| Refusal::Kind(kind))?;
    let values = values_of(alloc, rest_of(line))?;
    Ok(Addition::Inputs(values))
}

// May a line of this form stand in this section?
fn is_in_section(counts: Counts, form: Form) -> bool
    ensures { result ≡ is_in_section counts form }
{
    match form {
        Form::Blank | Form::Function | Form::Inputs => true,
        Form::Class => counts.functions == 0,
        Form::Label | Form::Catch | Form::Instruction(_) => counts.functions != 0,
    }
}

/// May a line of this form stand here?
pub fn is_placed(counts: Counts, form: Option<Form>) -> bool
    ensures { result ≡ is_placed counts form }
{
    match form {
        None => !counts.given,
        Some(Form::Blank) | Some(Form::Inputs) => true,
        Some(form) => !counts.given && is_in_section(counts, form),
    }
}

// What a line says that is no line of inputs.
fn form_says<'a>(
    table: &DefinedNames<'a>,
    counts: Counts,
    form: Option<Form>,
    line: &Line<'a>,
) -> Result<Addition, u8>
    requires thrown { ThrowsIn form }
    requires other { IsNoInputs form }
    ensures value { (have : ℕ) → result ≡ form_says table.now counts line.now.number have form (words line.now.text) }
    ensures placed { is_placed counts form ≡ true → IfOk result (λ a. (room : ℕ) → IsPlaced counts.functions room a) }
    ensures starts { IfOk result (StartsFunction form) }
{
    match form {
        None => Err(UNKNOWN_WORD),
        Some(Form::Blank) | Some(Form::Inputs) => Ok(Addition::Nothing),
        Some(Form::Class) => class_of(table, counts, line.number(), rest_of(line)),
        Some(Form::Function) => function_of(table, counts, line.number(), rest_of(line)),
        Some(Form::Label) => {
            let name = defined_word(form, line.words());
            label_of_line(table, counts, line.number(), name)
        }
        Some(Form::Catch) => catch_of(table, counts, rest_of(line)),
        Some(Form::Instruction(instr)) => instruction_of(table, counts, instr, rest_of(line)),
    }
}

/// What a line says, where the lines before it have these counts and so many inputs.
#[tactic(auto, unfolding(crate::specs::Sayings::said))]
pub fn said<'a>(
    alloc: Global,
    table: &DefinedNames<'a>,
    counts: Counts,
    have: usize,
    line: &Line<'a>,
) -> Result<Addition, Refusal>
    requires { have ≤ INPUTS }
    ensures ok { IfOk result (λ a. said table.now counts line.now.number have line.now.text ≡ Ok a) }
    ensures err { IfErr result (Refused (said table.now counts line.now.number have line.now.text)) }
    ensures placed { IfOk result (IsPlaced counts.functions (INPUTS - have)) }
    ensures starts { IfOk result (StartsFunction (form_of (words line.now.text))) }
{
    if line.bad() {
        return Err(Refusal::Kind(BAD_BYTE));
    }
    let form = form_of(line.words());
    if !is_placed(counts, form) {
        return Err(Refusal::Kind(MISPLACED));
    }
    if let Some(Form::Inputs) = form {
        return inputs_of(alloc, have, line);
    }
    form_says(table, counts, form, line).map_err(|kind| Refusal::Kind(kind))
}
