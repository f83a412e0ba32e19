// The canonical listing of a program.
ghost use Rattle.std.specs.Prelude.{◌≡◌, ◌++◌, ◌<◌, IfOk, OnOk, string_bytes, []};
ghost use Rattle.std.specs.List.{flat_map, list_any};
ghost use Rattle.gl_bytecode.specs.Programs.{function_at, Function};
ghost use Rattle.gl_asm.specs.Code.{IsShort, catches_of, code_of, text_of};
ghost use Rattle.gl_asm.specs.Words.{operand_of};
ghost use Rattle.gl_asm.specs.Listable.{AreTyped, IsTyped, OperandsAreTyped};
ghost use Rattle.gl_asm.specs.Texts.{IsText};
ghost use Rattle.gl_asm.specs.Listing.{each_from, function_name, operand_text, instr_line, is_label, catch_names, is_named, label_line, code_line, catch_line, header, body, class_line, function_text, listing};

use crate::table::{Operand, operand_of, word_of};
use gl_bytecode::{CATCHES, CODE, Catch, Instr, Program};
use gl_model::CLASSES;
use std::alloc::{AllocError, Global};

// Adds the name of a function.
fn push_function_name(out: &mut String, main: u16, f: u16) -> Result<(), AllocError>
    ensures { OnOk result (string_bytes out.new ≡ string_bytes out.old ++ function_name main f) }
{
    if f == main {
        write!(out, "main")
    } else {
        write!(out, "f{f}")
    }
}

// Adds what stands behind an instruction's word.
fn push_operand(out: &mut String, main: u16, operand: Operand) -> Result<(), AllocError>
    ensures text { OnOk result (string_bytes out.new ≡ string_bytes out.old ++ operand_text main operand) }
    ensures typed { IsTyped operand }
{
    match operand {
        Operand::Nothing => Ok(()),
        Operand::Value(value) => write!(out, " {value}"),
        Operand::Index(k) => write!(out, " {k}"),
        Operand::IndexAndValue(k, value) => write!(out, " {k} {value}"),
        Operand::Code(code) => write!(out, " {code}"),
        Operand::Label(to) => write!(out, " L{to}"),
        Operand::Function(f) => {
            write!(out, " ")?;
            push_function_name(out, main, f)
        }
        Operand::Class(class) => write!(out, " c{class}"),
    }
}

// Adds the line of an instruction.
fn push_instr(out: &mut String, main: u16, instr: Instr) -> Result<(), AllocError>
    ensures text { OnOk result (string_bytes out.new ≡ string_bytes out.old ++ instr_line main instr) }
    ensures typed { OnOk result (IsTyped (operand_of instr)) }
{
    let word = word_of(instr);
    write!(out, "  {word}")?;
    push_operand(out, main, operand_of(instr))?;
    writeln!(out)
}

// Does the instruction name the label of this place?
fn is_label(at: usize, instr: Instr) -> bool
    ensures { result ≡ is_label at (operand_of instr) }
{
    match operand_of(instr) {
        Operand::Label(to) => usize::from(to) == at,
        _ => false,
    }
}

// Does the catch name the label of this place?
fn catch_names(at: usize, catch: Catch) -> bool
    ensures { result ≡ catch_names at catch }
{
    usize::from(catch.from) == at || usize::from(catch.to) == at || usize::from(catch.target) == at
}

// Does a jump name the label of this place?
fn has_jump_to(code: &[Instr], at: usize) -> bool
    ensures { result ≡ list_any (λ i. is_label at (operand_of i)) code.now }
{
    code.iter().any(|instr| is_label(at, *instr))
}

// Does one of the catches name the label of this place?
fn has_catch_of(catches: &[Catch], at: usize) -> bool
    ensures { result ≡ list_any (catch_names at) catches.now }
{
    catches.iter().any(|catch| catch_names(at, *catch))
}

// Adds the label of a place, if a jump or a catch names it.
fn push_label(
    out: &mut String,
    code: &[Instr],
    catches: &[Catch],
    at: usize,
) -> Result<(), AllocError>
    ensures { OnOk result (string_bytes out.new ≡ string_bytes out.old ++ label_line (is_named code.now catches.now at) at) }
{
    if has_jump_to(code, at) {
        return writeln!(out, "L{at}:");
    }
    if has_catch_of(catches, at) {
        return writeln!(out, "L{at}:");
    }
    Ok(())
}

// Adds an instruction, behind its label.
fn push_place(
    out: &mut String,
    main: u16,
    code: &[Instr],
    catches: &[Catch],
    at: usize,
    instr: Instr,
) -> Result<(), AllocError>
    ensures text { OnOk result (string_bytes out.new ≡ string_bytes out.old ++ code_line main code.now catches.now at instr) }
    ensures typed { OnOk result (IsTyped (operand_of instr)) }
{
    push_label(out, code, catches, at)?;
    push_instr(out, main, instr)
}

// Adds the instructions.
fn push_code(
    out: &mut String,
    main: u16,
    code: &[Instr],
    catches: &[Catch],
) -> Result<(), AllocError>
    ensures text { OnOk result (string_bytes out.new ≡ string_bytes out.old ++ each_from (code_line main code.now catches.now) 0 code.now) }
    ensures typed { OnOk result (AreTyped code.now) }
{
    for (at, instr) in code.iter().enumerate() {
        push_place(out, main, code, catches, at, *instr)?;
    }
    Ok(())
}

// Adds the line of a catch.
fn push_catch(out: &mut String, catch: Catch) -> Result<(), AllocError>
    ensures { OnOk result (string_bytes out.new ≡ string_bytes out.old ++ catch_line catch) }
{
    let Catch { from, to, target } = catch;
    writeln!(out, "  catch L{from} L{to} L{target}")
}

// Adds the catches.
fn push_catches(out: &mut String, catches: &[Catch]) -> Result<(), AllocError>
    ensures { OnOk result (string_bytes out.new ≡ string_bytes out.old ++ flat_map catch_line catches.now) }
{
    for catch in catches {
        push_catch(out, *catch)?;
    }
    Ok(())
}

// Adds the header of a function.
fn push_header(out: &mut String, main: u16, f: u16, args: u8, locals: u8) -> Result<(), AllocError>
    ensures { OnOk result (string_bytes out.new ≡ string_bytes out.old ++ header main f args locals) }
{
    write!(out, "func ")?;
    push_function_name(out, main, f)?;
    writeln!(out, " {args} {locals}")
}

// Adds what stands under the header of a function.
fn push_body(
    out: &mut String,
    main: u16,
    code: &[Instr],
    catches: &[Catch],
) -> Result<(), AllocError>
    ensures text { OnOk result (string_bytes out.new ≡ string_bytes out.old ++ body main code.now catches.now) }
    ensures typed { OnOk result (AreTyped code.now) }
{
    push_code(out, main, code, catches)?;
    push_label(out, code, catches, code.len())?;
    push_catches(out, catches)
}

// The instructions of a function.
fn code_of(alloc: Global, program: &Program, f: u16) -> Result<Vec<Instr>, AllocError>
    requires { IsShort program.now }
    ensures { IfOk result (λ v. v.items ≡ code_of (function_at program.now f)) }
{
    let mut code = Vec::new(alloc);
    for at in 0..CODE as u16 {
        match program.instr(f, at) {
            Some(instr) => code.push(instr)?,
            None => return Ok(code),
        }
    }
    Ok(code)
}

// The catches of a function.
fn catches_of(alloc: Global, program: &Program, f: u16) -> Result<Vec<Catch>, AllocError>
    requires { IsShort program.now }
    ensures { IfOk result (λ v. v.items ≡ catches_of (function_at program.now f)) }
{
    let mut catches = Vec::new(alloc);
    for i in 0..CATCHES {
        match program.catch(f, i) {
            Some((from, to, target)) => catches.push(Catch { from, to, target })?,
            None => return Ok(catches),
        }
    }
    Ok(catches)
}

// Adds a function, if it is there.
fn push_function(
    out: &mut String,
    alloc: Global,
    program: &Program,
    main: u16,
    f: u16,
) -> Result<(), AllocError>
    requires { IsShort program.now }
    ensures text { OnOk result (string_bytes out.new ≡ string_bytes out.old ++ text_of main f (function_at program.now f)) }
    ensures typed { OnOk result (AreTyped (code_of (function_at program.now f))) }
{
    let Some((args, locals)) = program.shape(f) else {
        return Ok(());
    };
    let code = code_of(alloc, program, f)?;
    let catches = catches_of(alloc, program, f)?;
    push_header(out, main, f, args, locals)?;
    push_body(out, main, &code, &catches)?;
    Ok(())
}

// Adds the functions.
fn push_functions(
    out: &mut String,
    alloc: Global,
    program: &Program,
    main: u16,
) -> Result<(), AllocError>
    requires { IsShort program.now }
    ensures text { OnOk result (string_bytes out.new ≡ string_bytes out.old ++ each_from (function_text main) 0 program.now.functions) }
    ensures typed { OnOk result (OperandsAreTyped program.now) }
{
    for f in 0..program.functions() {
        push_function(out, alloc, program, main, f)?;
    }
    Ok(())
}

// Adds the line of a class.
fn push_class(out: &mut String, class: u16, plain: u16, volatile: u16) -> Result<(), AllocError>
    ensures { OnOk result (string_bytes out.new ≡ string_bytes out.old ++ class_line class (record { plain = plain; volatile = volatile })) }
{
    writeln!(out, "class c{class} {plain} {volatile}")
}

// Adds the classes.
fn push_classes(out: &mut String, program: &Program) -> Result<(), AllocError>
    requires { IsShort program.now }
    ensures { OnOk result (string_bytes out.new ≡ string_bytes out.old ++ each_from class_line 0 program.now.classes) }
{
    for class in 0..CLASSES {
        match program.class_of(class) {
            Some((plain, volatile)) => push_class(out, class, plain, volatile)?,
            None => return Ok(()),
        }
    }
    Ok(())
}

/// The canonical listing of a program: a text of the same program, and of no inputs.
pub fn list(alloc: Global, program: &Program) -> Result<Vec<u8>, AllocError>
    ensures listing { IfOk result (λ bytes. bytes.items ≡ listing program.now) }
    ensures text { IfOk result (λ bytes. IsText bytes.items program.now []) }
{
    let main = program.main();
    let mut out = String::new(alloc);
    push_classes(&mut out, program)?;
    push_functions(&mut out, alloc, program, main)?;
    Ok(out.into_bytes())
}
