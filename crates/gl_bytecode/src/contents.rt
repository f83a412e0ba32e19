ghost use Rattle.gl_bytecode.specs.References.{first_variable, first_volatile, object_number, object_of};
ghost use Rattle.gl_bytecode.specs.Catches.{covers};
ghost use Rattle.std.specs.Prelude.{IfSome, ◌+◌, ◌≤◌, ◌/◌, ◌%◌, slice_get, find, ◌≡◌, option_map};
ghost use Rattle.std.specs.Option.{option_and_then};

use crate::function::Function;
use crate::instr::{Catch, Instr};
use crate::object::{CLASS_UNIT, Fields, Object, VARIABLE_UNIT, VOLATILE_UNIT};
use gl_model::{VARIABLES, VOLATILES};
use std::marker::Model;

/// What a program consists of, whether it is valid or not.
#[derive(Drop)]
pub(crate) struct Contents {
    pub classes: Vec<Fields>,
    pub functions: Vec<Function>,
    pub main: u16,
}

impl Model for Contents {
    ghost use Rattle.gl_bytecode.specs.Programs.{Bytecode};

    ghost Value = { Bytecode };

    ghost view = { λ c. record { classes = c.classes.items; functions = c.functions.items; main = c.main } };
}

impl Contents {
    ghost use Rattle.gl_bytecode.specs.Programs.{function_at, instr_at};
    ghost use Rattle.gl_bytecode.specs.Instructions.{args_of, needs};
    ghost use Rattle.gl_bytecode.specs.Machine.{handler_at};
    ghost use Rattle.gl_bytecode.specs.References.{object_at};

    /// The instruction of a function at a place.
    pub fn instr(&self, function: u16, at: u16) -> Option<Instr>
        ensures { result ≡ instr_at self.now function at }
    {
        match self.functions.get(function as usize) {
            Some(f) => f.code.get(at as usize).copied(),
            None => None,
        }
    }

    /// How many arguments a function has.
    pub fn args(&self, function: u16) -> u8
        ensures { result ≡ args_of (function_at self.now function) }
    {
        match self.functions.get(function as usize) {
            Some(f) => f.args,
            None => 0,
        }
    }

    /// How many operands an instruction takes.
    pub fn needs(&self, instr: Instr) -> usize
        ensures { result ≡ needs self.now instr }
    {
        match instr {
            Instr::Swap
            | Instr::Add
            | Instr::Sub
            | Instr::Mul
            | Instr::Div
            | Instr::Rem
            | Instr::Eq
            | Instr::Lt
            | Instr::Le
            | Instr::And
            | Instr::Or
            | Instr::Xor
            | Instr::Put(_)
            | Instr::Vput(_) => 2,
            Instr::Pop
            | Instr::Dup
            | Instr::Store(_)
            | Instr::Neg
            | Instr::Not
            | Instr::Jz(_)
            | Instr::Jnz(_)
            | Instr::Ret
            | Instr::Get(_)
            | Instr::Vget(_)
            | Instr::Enter
            | Instr::Exit
            | Instr::Fork(_)
            | Instr::Join
            | Instr::Print => 1,
            Instr::Call(function) => self.args(function) as usize,
            _ => 0,
        }
    }

    /// The first catch of a function that covers the instruction at a place.
    pub fn handler(&self, function: u16, at: u16) -> Option<Catch>
        ensures { result ≡ handler_at self.now function at }
    {
        match self.functions.get(function as usize) {
            Some(f) => first_over(&f.catches, at),
            None => None,
        }
    }

    /// How many fields an object of a class has.
    fn fields(&self, class: u16) -> Option<Fields>
        ensures { result ≡ slice_get self.now.classes class }
    {
        self.classes.get(class as usize).copied()
    }

    /// How many data fields and how many volatile fields an object of a class has.
    pub fn class_of(&self, class: u16) -> Option<(u16, u16)>
        ensures { result ≡ option_map (λ c. (c.plain, c.volatile)) (slice_get self.now.classes class) }
    {
        match self.fields(class) {
            Some(fields) => Some((fields.plain, fields.volatile)),
            None => None,
        }
    }

    /// How many arguments and how many locals a function has.
    pub fn shape(&self, function: u16) -> Option<(u8, u8)>
        ensures { result ≡ option_map (λ F. (F.args, F.locals)) (function_at self.now function) }
    {
        match self.functions.get(function as usize) {
            Some(f) => Some((f.args, f.locals)),
            None => None,
        }
    }

    /// Where the catch of a function with this number begins and ends, and where its handler is.
    pub fn catch(&self, function: u16, i: usize) -> Option<(u16, u16, u16)>
        ensures { result ≡ option_map (λ c. (c.from, c.to, c.target)) (option_and_then (λ F. slice_get F.catches i) (function_at self.now function)) }
    {
        match self.functions.get(function as usize) {
            Some(f) => f.catch(i),
            None => None,
        }
    }

    /// What a number refers to, if it is a reference.
    pub fn object(&self, value: i64) -> Option<Object>
        ensures value { result ≡ object_at self.now value }
        ensures within { IfSome result (λ o. (o.variables + o.fields.plain ≤ VARIABLES) × (o.volatiles + o.fields.volatile ≤ VOLATILES)) }
    {
        if value <= 0 {
            return None;
        }
        let parts = value as u64 - 1;
        match self.fields((parts % VARIABLE_UNIT / CLASS_UNIT) as u16) {
            Some(fields) => laid_out(parts, fields),
            None => None,
        }
    }
}

// The object whose numbers are laid side by side, where all its fields are there.
fn laid_out(parts: u64, fields: Fields) -> Option<Object>
    ensures value { result ≡ object_of (object_number parts) (first_variable parts) (first_volatile parts) (Some fields) }
    ensures within { IfSome result (λ o. (o.variables + o.fields.plain ≤ VARIABLES) × (o.volatiles + o.fields.volatile ≤ VOLATILES)) }
{
    let variables = parts % VOLATILE_UNIT / VARIABLE_UNIT;
    let volatiles = parts / VOLATILE_UNIT;
    if variables + fields.plain as u64 <= VARIABLES as u64
        && volatiles + fields.volatile as u64 <= VOLATILES as u64
    {
        Some(Object {
            monitor: (parts % CLASS_UNIT) as u16,
            fields,
            variables: variables as u16,
            volatiles: volatiles as u16,
        })
    } else {
        None
    }
}

// The first of these catches that covers the place.
fn first_over(catches: &[Catch], at: u16) -> Option<Catch>
    ensures { result ≡ find (covers at) catches.now }
{
    catches.iter().copied().find(|c| c.covers(at))
}
