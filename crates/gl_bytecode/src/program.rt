ghost use Rattle.std.specs.Prelude.{IfSome, ◌+◌, ◌≤◌, slice_get, ◌≡◌, length, option_map};
ghost use Rattle.std.specs.Option.{option_and_then};

use crate::contents::Contents;
use crate::instr::{Catch, Instr};
use crate::object::Object;
use gl_model::{VARIABLES, VOLATILES};
use std::marker::Model;

/// A valid program: run by the instruction table it never lacks an operand and never leaves its code.
#[derive(Drop)]
pub struct Program {
    contents: Contents,
}

impl Model for Program {
    ghost use Rattle.gl_bytecode.specs.Programs.{Bytecode};

    ghost Value = { Bytecode };

    ghost use Rattle.gl_bytecode.specs.Faults.{AllThrowInRange, IsFaultless};

    ghost view = { λ p. p.contents };

    ghost invariant = { λ p. IsFaultless p.contents × AllThrowInRange p.contents.functions };
}

impl Program {
    ghost use Rattle.gl_bytecode.specs.Programs.{function_at, instr_at};
    ghost use Rattle.gl_bytecode.specs.Faults.{AllThrowInRange, IsFaultless};
    ghost use Rattle.gl_bytecode.specs.Instructions.{args_of, needs};
    ghost use Rattle.gl_bytecode.specs.Machine.{handler_at};
    ghost use Rattle.gl_bytecode.specs.References.{object_at};
    ghost use Rattle.gl_bytecode.specs.Validity.{IsValid};

    // The program of contents that nothing is wrong with.
    pub(crate) fn new(contents: Contents) -> Program
        requires faultless { IsFaultless contents }
        requires thrown { AllThrowInRange contents.functions }
        ensures { result ≡ contents }
    {
        Program { contents }
    }

    /// How many functions there are.
    pub fn functions(&self) -> u16
        ensures { result ≡ length self.now.functions }
    {
        self.contents.functions.len() as u16
    }

    /// How many arguments and how many locals a function has.
    pub fn shape(&self, function: u16) -> Option<(u8, u8)>
        ensures { result ≡ option_map (λ F. (F.args, F.locals)) (function_at self.now function) }
    {
        self.contents.shape(function)
    }

    /// The instruction of a function at a place.
    pub fn instr(&self, function: u16, at: u16) -> Option<Instr>
        ensures { result ≡ instr_at self.now function at }
    {
        self.contents.instr(function, at)
    }

    /// Where the catch of a function with this number begins and ends, and where its handler is.
    pub fn catch(&self, function: u16, i: usize) -> Option<(u16, u16, u16)>
        ensures { result ≡ option_map (λ c. (c.from, c.to, c.target)) (option_and_then (λ F. slice_get F.catches i) (function_at self.now function)) }
    {
        self.contents.catch(function, i)
    }

    /// How many data fields and how many volatile fields an object of a class has.
    pub fn class_of(&self, class: u16) -> Option<(u16, u16)>
        ensures { result ≡ option_map (λ c. (c.plain, c.volatile)) (slice_get self.now.classes class) }
    {
        self.contents.class_of(class)
    }

    /// The function of main. A program is faultless, and so it is valid.
    pub fn main(&self) -> u16
        ensures value { result ≡ self.now.main }
        ensures valid { IsValid self.now }
        ensures faultless { IsFaultless self.now }
        ensures thrown { AllThrowInRange self.now.functions }
    {
        self.contents.main
    }

    /// How many arguments a function has.
    pub fn args(&self, function: u16) -> u8
        ensures { result ≡ args_of (function_at self.now function) }
    {
        self.contents.args(function)
    }

    /// How many operands an instruction takes.
    pub fn needs(&self, instr: Instr) -> usize
        ensures { result ≡ needs self.now instr }
    {
        self.contents.needs(instr)
    }

    /// The first catch of a function that covers the instruction at a place.
    pub fn handler(&self, function: u16, at: u16) -> Option<Catch>
        ensures { result ≡ handler_at self.now function at }
    {
        self.contents.handler(function, at)
    }

    /// What a number refers to, if it is a reference.
    pub fn object(&self, value: i64) -> Option<Object>
        ensures value { result ≡ object_at self.now value }
        ensures within { IfSome result (λ o. (o.variables + o.fields.plain ≤ VARIABLES) × (o.volatiles + o.fields.volatile ≤ VOLATILES)) }
    {
        self.contents.object(value)
    }
}
