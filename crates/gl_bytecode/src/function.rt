ghost use Rattle.std.specs.Prelude.{◌≡◌, ◌++◌, ◌∷◌, [], OnErr, OnOk, MatchOption, option_map, slice_get};
ghost use Rattle.gl_bytecode.specs.Faults.{unless, catch_fault, falls_off, is_long_function};
ghost use Rattle.gl_bytecode.specs.Searches.{IsAllRight, IsFirstWrong};

use crate::fault::BAD_JUMP;
use crate::instr::{Catch, Instr};
use crate::limits::{CATCHES, LOCALS};
use std::alloc::{AllocError, Global};
use std::marker::Model;

/// A function: how many arguments and locals it has, its instructions, and its catches.
#[derive(Drop)]
pub(crate) struct Function {
    pub args: u8,
    pub locals: u8,
    pub code: Vec<Instr>,
    pub catches: Vec<Catch>,
}

impl Model for Function {
    ghost use Rattle.gl_bytecode.specs.Programs.{Function as Routine};

    ghost Value = { Routine };

    ghost view = { λ f. record { args = f.args; locals = f.locals; code = f.code.items; catches = f.catches.items } };
}

impl Function {
    /// A function without instructions and catches.
    pub fn new(alloc: Global, args: u8, locals: u8) -> Function
        ensures { result ≡ record { args = args; locals = locals; code = []; catches = [] } }
    {
        Function {
            args,
            locals,
            code: Vec::new(alloc),
            catches: Vec::new(alloc),
        }
    }

    /// Adds an instruction.
    pub fn push(&mut self, instr: Instr) -> Result<(), AllocError>
        ensures ok { OnOk result (self.new ≡ record self.old { code = self.old.code ++ instr ∷ [] }) }
        ensures err { OnErr result (self.new ≡ self.old) }
    {
        self.code.push(instr)?;
        Ok(())
    }

    /// Adds a catch.
    pub fn push_catch(&mut self, catch: Catch) -> Result<(), AllocError>
        ensures ok { OnOk result (self.new ≡ record self.old { catches = self.old.catches ++ catch ∷ [] }) }
        ensures err { OnErr result (self.new ≡ self.old) }
    {
        self.catches.push(catch)?;
        Ok(())
    }

    /// Where the catch with this number begins and ends, and where its handler is.
    pub fn catch(&self, i: usize) -> Option<(u16, u16, u16)>
        ensures { result ≡ option_map (λ c. (c.from, c.to, c.target)) (slice_get self.now.catches i) }
    {
        match self.catches.get(i) {
            Some(c) => Some((c.from, c.to, c.target)),
            None => None,
        }
    }

    /// What is wrong with a catch?
    fn catch_fault(&self, catch: Catch) -> Option<u8>
        ensures { result ≡ catch_fault self.now catch }
    {
        let length = self.code.len();
        unless(
            (catch.target as usize) < length
                && catch.from <= catch.to
                && catch.to as usize <= length,
            BAD_JUMP,
        )
    }

    /// The number of the first catch with which something is wrong, and the kind of that fault.
    pub fn wrong_catch(&self) -> Option<(usize, u8)>
        ensures { MatchOption result (IsAllRight (catch_fault self.now) self.now.catches) (λ r. IsFirstWrong (catch_fault self.now) self.now.catches r.0 r.1) }
    {
        for (i, catch) in self.catches.iter().enumerate() {
            if let Some(kind) = self.catch_fault(*catch) {
                return Some((i, kind));
            }
        }
        None
    }

    /// May the function be run past its last instruction?
    pub fn falls_off(&self) -> bool
        ensures { result ≡ falls_off self.now }
    {
        match self.code.last() {
            Some(instr) => !instr.flow().is_closed(),
            None => true,
        }
    }

    /// Does the function pass a limit?
    pub fn is_long(&self) -> bool
        ensures { result ≡ is_long_function self.now }
    {
        self.catches.len() > CATCHES || self.args > self.locals || self.locals as usize > LOCALS
    }
}

/// This kind of fault, but where a test holds.
pub(crate) fn unless(holds: bool, kind: u8) -> Option<u8>
    ensures { result ≡ unless holds kind }
{
    if holds { None } else { Some(kind) }
}
