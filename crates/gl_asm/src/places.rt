// The lines of a program's faults.
ghost use Rattle.std.specs.Prelude.{◌≡◌, ◌==◌, ◌+◌, ◌<◌, length};
ghost use Rattle.std.specs.Str.Lines.{lines};
ghost use Rattle.gl_asm.specs.Texts.{catch_line_of, code_length, fault_line, header_line, is_at, is_code, line_of};

use crate::forms::{Counts, Form, form_of, more};
use gl_bytecode::{FALLS_OFF_END, NO_MAIN, ProgFault, STACK_DEPTH, TOO_LONG};
use gl_text::Lines;

/// A place of a program that a line adds: a function's header, an instruction or a catch of a function.
#[derive(Clone, Copy, Debug, PartialEq, Eq)]
pub enum Place {
    OfHeader(u16),
    OfInstruction(u16, u16),
    OfCatch(u16, u16),
}

// Are the lines before in the function with this number?
fn is_in(counts: Counts, function: u16) -> bool
    ensures { result ≡ (counts.functions == function + 1) }
{
    u32::from(counts.functions) == u32::from(function) + 1
}

// Does a line of this form, behind lines of these counts, add this place?
fn is_at(place: Place, counts: Counts, form: Option<Form>) -> bool
    ensures { result ≡ is_at place counts form }
{
    match (place, form) {
        (Place::OfHeader(f), Some(Form::Function)) => counts.functions == f,
        (Place::OfInstruction(f, at), Some(Form::Instruction(_))) => {
            is_in(counts, f) && counts.places == at
        }
        (Place::OfCatch(f, k), Some(Form::Catch)) => is_in(counts, f) && counts.catches == k,
        _ => false,
    }
}

// The first line that adds a place.
fn line_of(text: &[u8], place: Place) -> Option<u32>
    requires { length text.now < u32.MAX }
    ensures { result ≡ line_of (lines text.now) place }
{
    let mut counts = Counts::none_yet();
    let mut lines = Lines::new(text);
    while let Some(line) = lines.next_line() {
        let form = form_of(line.words());
        if is_at(place, counts, form) {
            return Some(line.number());
        }
        counts = counts.counted(form);
    }
    None
}

// Does a line of this form, behind lines of these counts, add an instruction to the function?
fn is_code(function: u16, counts: Counts, form: Option<Form>) -> bool
    ensures { result ≡ is_code function counts form }
{
    match form {
        Some(Form::Instruction(_)) => is_in(counts, function),
        _ => false,
    }
}

// How many instructions a function has.
fn code_length(text: &[u8], function: u16) -> u16
    requires { length text.now < u32.MAX }
    ensures { result ≡ code_length (lines text.now) function }
{
    let mut count: u16 = 0;
    let mut counts = Counts::none_yet();
    let mut lines = Lines::new(text);
    while let Some(line) = lines.next_line() {
        let form = form_of(line.words());
        if is_code(function, counts, form) {
            count = more(count);
        }
        counts = counts.counted(form);
    }
    count
}

fn header_line(text: &[u8], fault: ProgFault) -> u32
    requires { length text.now < u32.MAX }
    ensures { result ≡ header_line (lines text.now) fault }
{
    match line_of(text, Place::OfHeader(fault.function)) {
        Some(line) => line,
        None => 0,
    }
}

fn catch_line_of(text: &[u8], fault: ProgFault) -> u32
    requires { length text.now < u32.MAX }
    ensures { result ≡ catch_line_of (lines text.now) fault }
{
    let before = code_length(text, fault.function);
    match line_of(
        text,
        Place::OfCatch(fault.function, fault.at.saturating_sub(before)),
    ) {
        Some(line) => line,
        None => 0,
    }
}

/// The line of a program's fault in the text of the program, or 0 where it is of the whole.
pub fn fault_line(text: &[u8], fault: ProgFault) -> u32
    requires { length text.now < u32.MAX }
    ensures { result ≡ fault_line (lines text.now) fault }
{
    if fault.kind == NO_MAIN {
        return 0;
    }
    if fault.kind == TOO_LONG {
        return 0;
    }
    if fault.kind == STACK_DEPTH {
        return header_line(text, fault);
    }
    if let Some(line) = line_of(text, Place::OfInstruction(fault.function, fault.at)) {
        return line;
    }
    if fault.kind == FALLS_OFF_END {
        return header_line(text, fault);
    }
    catch_line_of(text, fault)
}
