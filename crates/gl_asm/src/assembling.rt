// The program and the inputs of a text.
ghost use Rattle.std.specs.Prelude.{◌≡◌, ◌≤◌, ◌<◌, ◌+◌, ◌++◌, length, IfOk, IfErr, OnOk, Ok, None, Some, Result, List, ℤ, option_map, codes};
ghost use Rattle.std.specs.Str.Lines.{lines};
ghost use Rattle.gl_model.specs.declared.limits.TheConstants.{INPUTS};
ghost use Rattle.gl_asm.specs.declared.definitions.Scope.TheVariants.{Functions};
ghost use Rattle.gl_asm.specs.Definitions.{definitions, first_definition};
ghost use Rattle.gl_asm.specs.Sayings.{HasFunction, refused_at};
ghost use Rattle.gl_asm.specs.Texts.{IsText, IsTextBy, LineFault, TellsFirst, TellsFirstBy, TellsLine, added, inputs_in, lines_read, start, text_read};
ghost use Rattle.gl_bytecode.specs.Programs.{Draft};
ghost use Rattle.gl_text.specs.declared.fault.TextError.TheVariants.{Fault};

use crate::additions::Addition;
use crate::definitions::{DefinedNames, Scope, definitions};
use crate::forms::{Counts, form_of};
use crate::limits::LONGEST;
use crate::places::fault_line;
use crate::refusal::Refusal;
use crate::sayings::said;
use gl_bytecode::{Parts, ProgError, Program, validate};
use gl_model::Inputs;
use gl_text::kinds::{PROGRAM_FAULT_BASE, TOO_LONG};
use gl_text::{Lines, TextError, TextFault};
use std::alloc::{AllocError, Global};

/// What a program text means.
#[derive(Drop)]
pub struct Assembled {
    pub program: Program,
    pub inputs: Inputs,
}

// What the lines of a text add.
#[derive(Drop)]
struct Read {
    parts: Parts,
    inputs: Inputs,
}

// The function of main.
fn main_of(table: &DefinedNames<'_>) -> Option<u16>
    ensures { result ≡ option_map (λ d. d.number) (first_definition table.now Functions (codes "main")) }
{
    match table.first(Scope::Functions, b"main") {
        Some((_, number)) => Some(number),
        None => None,
    }
}

// Parts in which nothing but main is told.
fn started(alloc: Global, table: &DefinedNames<'_>) -> Parts
    ensures { result ≡ start table.now }
{
    let mut parts = Parts::new(alloc);
    if let Some(number) = main_of(table) {
        parts.main_is(number);
    }
    parts
}

// Adds to the parts what a line adds.
fn add(parts: &mut Parts, addition: &Addition) -> Result<(), AllocError>
    requires { HasFunction (length parts.old.functions) addition.now }
    ensures { OnOk result (parts.new ≡ added parts.old addition.now) }
{
    match addition {
        Addition::Nothing | Addition::Inputs(_) => Ok(()),
        Addition::Class(plain, volatile) => parts.class(*plain, *volatile),
        Addition::Function(args, locals) => parts.function(*args, *locals),
        Addition::Instruction(instr) => parts.instr(*instr),
        Addition::Catch(catch) => parts.catch(catch.from, catch.to, catch.target),
    }
}

// Puts values behind the inputs.
fn give_all(inputs: &mut Inputs, values: &Inputs) -> Result<(), AllocError>
    requires { length inputs.old + length values.now ≤ INPUTS }
    ensures { OnOk result (inputs.new ≡ inputs.old ++ values.now) }
{
    let mut i = 0;
    while let Some(value) = values.get(i) {
        inputs.push(value)?;
        i += 1;
    }
    Ok(())
}

// Puts what a line gives behind the inputs.
fn give(inputs: &mut Inputs, addition: &Addition) -> Result<(), AllocError>
    requires { length inputs.old + length (inputs_in addition.now) ≤ INPUTS }
    ensures { OnOk result (inputs.new ≡ inputs.old ++ inputs_in addition.now) }
{
    if let Addition::Inputs(values) = addition {
        give_all(inputs, values)?;
    }
    Ok(())
}

// The error of a line that is refused.
fn refused_at(line: u32, refusal: Refusal) -> TextError
    ensures { result ≡ refused_at line refusal }
{
    match refusal {
        Refusal::Kind(kind) => TextError::Fault(TextFault { line, kind }),
        Refusal::Memory(error) => TextError::Memory(error),
    }
}

// What the lines of a text add, or the first fault of a line.
fn read_lines<'a>(
    alloc: Global,
    table: &DefinedNames<'a>,
    text: &'a [u8],
) -> Result<Read, TextError>
    requires short { length text.now < u32.MAX }
    requires names { table.now ≡ definitions (lines text.now) }
    ensures ok { IfOk result (λ read. lines_read (lines text.now) ≡ Ok (read.parts, read.inputs)) }
    ensures fault { IfErr result (TellsLine (lines_read (lines text.now))) }
{
    let mut parts = started(alloc, table);
    let mut inputs = Inputs::empty(alloc);
    let mut counts = Counts::none_yet();
    let mut lines = Lines::new(text);
    while let Some(line) = lines.next_line() {
        let have = inputs.len();
        let addition = match said(alloc, table, counts, have, &line) {
            Ok(addition) => addition,
            Err(refusal) => return Err(refused_at(line.number(), refusal)),
        };
        add(&mut parts, &addition).map_err(|error| TextError::Memory(error))?;
        give(&mut inputs, &addition).map_err(|error| TextError::Memory(error))?;
        counts = counts.counted(form_of(line.words()));
    }
    Ok(Read { parts, inputs })
}

// What the lines of a text add, where it is not too long, or the first fault of a line.
fn read_short(alloc: Global, bytes: &[u8]) -> Result<Read, TextError>
    requires { length bytes.now ≤ LONGEST }
    ensures ok { IfOk result (λ read. lines_read (lines bytes.now) ≡ Ok (read.parts, read.inputs)) }
    ensures fault { IfErr result (TellsLine (lines_read (lines bytes.now))) }
{
    let table = definitions(alloc, bytes).map_err(|error| TextError::Memory(error))?;
    read_lines(alloc, &table, bytes)
}

// The error of a text that is too long.
fn too_long() -> TextError
    ensures { result ≡ Fault (record { line = 0; kind = TOO_LONG }) }
{
    TextError::Fault(TextFault {
        line: 0,
        kind: TOO_LONG,
    })
}

// What a text means, apart from what is wrong with the program.
#[tactic(auto, unfolding(crate::specs::Texts::text_read))]
fn read_text(alloc: Global, bytes: &[u8]) -> Result<Read, TextError>
    ensures ok { IfOk result (λ read. text_read bytes.now ≡ Ok (read.parts, read.inputs)) }
    ensures fault { IfErr result (TellsLine (text_read bytes.now)) }
    ensures short { OnOk result (length bytes.now ≤ LONGEST) }
{
    if bytes.len() > LONGEST {
        return Err(too_long());
    }
    read_short(alloc, bytes)
}

// The program and the inputs that were read, or the first fault of the program.
fn program_of(alloc: Global, bytes: &[u8], read: Read) -> Result<Assembled, TextError>
    requires { length bytes.now ≤ LONGEST }
    ensures ok { (reading : Result (Draft × List ℤ) LineFault) → reading ≡ Ok (read.parts, read.inputs) → IfOk result (λ a. IsTextBy reading a.program a.inputs) }
    ensures fault { (reading : Result (Draft × List ℤ) LineFault) → reading ≡ Ok (read.parts, read.inputs) → IfErr result (TellsFirstBy reading bytes.now) }
{
    let Read { parts, inputs } = read;
    match validate(alloc, parts) {
        Ok(program) => Ok(Assembled { program, inputs }),
        Err(ProgError::Memory(error)) => Err(TextError::Memory(error)),
        Err(ProgError::Fault(fault)) => Err(TextError::Fault(TextFault {
            line: fault_line(bytes, fault),
            kind: PROGRAM_FAULT_BASE + fault.kind,
        })),
    }
}

/// The program and the inputs that a text means, or its first fault: that of the least line that has one, or else
/// that of the program.
pub fn assemble(alloc: Global, bytes: &[u8]) -> Result<Assembled, TextError>
    ensures ok { IfOk result (λ a. IsText bytes.now a.program a.inputs) }
    ensures fault { IfErr result (TellsFirst bytes.now) }
{
    let read = read_text(alloc, bytes)?;
    program_of(alloc, bytes, read)
}
