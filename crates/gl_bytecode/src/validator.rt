ghost use Rattle.std.specs.Prelude.{◌≡◌, ℕ, ◌≤◌, ◌<◌, length, nat_lt, sum_by, false, IfErr, IfOk, MatchOption, Some};
ghost use Rattle.std.specs.List.{list_any};
ghost use Rattle.gl_bytecode.specs.Faults.{of_whole, has_args, instr_fault, is_long_class, is_long_function, is_too_long, IsFaultless, IsFirstIn, IsFirstOfFunctions, IsRight, NamesWrong, TellsFirst, TellsKind, fault_at, falls_off};
ghost use Rattle.gl_bytecode.specs.Programs.{Function as Routine, draft_of, function_at};
ghost use Rattle.gl_bytecode.specs.declared.fault.ProgError.TheVariants.{Fault};
ghost use Rattle.gl_bytecode.specs.Searches.{IsAllRight, IsFirstWrong};

use crate::contents::Contents;
use crate::fault::{
    BAD_CLASS, BAD_FUNCTION, BAD_JUMP, BAD_LOCAL, FALLS_OFF_END, NO_MAIN, ProgError, ProgFault,
    STACK_DEPTH, TOO_LONG,
};
use crate::function::{Function, unless};
use crate::instr::Instr;
use crate::limits::{CATCHES, CODE};
use crate::object::Fields;
use crate::parts::Parts;
use crate::program::Program;
use gl_model::{CLASSES, FUNCTIONS, VARIABLES, VOLATILES};
use std::alloc::{AllocError, Global};

/// The program that the parts make, or their first fault. The depths are found in memory of `alloc`; if that is
/// wanting, so is the answer, and the parts are gone.
#[tactic(auto, using(crate::proofs::FaultKinds::of_functions))]
pub fn validate(alloc: Global, parts: Parts) -> Result<Program, ProgError>
    ensures same { IfOk result (λ p. parts ≡ draft_of p) }
    ensures faultless { IfOk result (λ p. IsFaultless p) }
    ensures fault { IfErr result (λ e. TellsFirst parts e) }
    ensures kind { IfErr result (λ e. TellsKind e) }
{
    let Parts {
        classes,
        functions,
        main,
        ..
    } = parts;
    let Some(main) = main else {
        return Err(of_whole(NO_MAIN));
    };
    let contents = Contents {
        classes,
        functions,
        main,
    };
    if !contents.has_args(main, 0) {
        return Err(of_whole(NO_MAIN));
    }
    if contents.is_too_long() {
        return Err(of_whole(TOO_LONG));
    }
    match contents.first_fault(alloc) {
        Ok(None) => Ok(Program::new(contents)),
        Ok(Some(fault)) => Err(ProgError::Fault(fault)),
        Err(error) => Err(ProgError::Memory(error)),
    }
}

// A fault of the whole program.
fn of_whole(kind: u8) -> ProgError
    ensures { result ≡ Fault (of_whole kind) }
{
    ProgError::Fault(ProgFault {
        kind,
        function: 0,
        at: 0,
    })
}

// Does a class pass a limit?
fn is_long_class(class: Fields) -> bool
    ensures { result ≡ is_long_class class }
{
    class.plain > VARIABLES || class.volatile > VOLATILES
}

impl Contents {
    // Is there a function, and has it so many arguments?
    fn has_args(&self, function: u16, args: u8) -> bool
        ensures { result ≡ has_args args (function_at self.now function) }
    {
        match self.functions.get(function as usize) {
            Some(f) => f.args == args,
            None => false,
        }
    }

    // Are there more instructions than a program may have?
    fn has_long_code(&self) -> bool
        ensures { result ≡ nat_lt CODE (sum_by (λ F. length F.code) self.now.functions) }
    {
        let mut room = CODE;
        for function in self.functions.iter() {
            let length = function.code.len();
            if length > room {
                return true;
            }
            room -= length;
        }
        false
    }

    fn has_long_function(&self) -> bool
        ensures { result ≡ list_any is_long_function self.now.functions }
    {
        self.functions.iter().any(|f| f.is_long())
    }

    fn has_long_class(&self) -> bool
        ensures { result ≡ list_any is_long_class self.now.classes }
    {
        self.classes.iter().any(|c| is_long_class(*c))
    }

    // Is a limit passed?
    fn is_too_long(&self) -> bool
        ensures { result ≡ is_too_long self.now }
    {
        self.has_long_code()
            || self.functions.len() > FUNCTIONS as usize
            || self.classes.len() > CLASSES as usize
            || self.has_long_function()
            || self.has_long_class()
    }

    // What is wrong with an instruction of a function?
    fn instr_fault(&self, function: &Function, instr: Instr) -> Option<u8>
        ensures { result ≡ instr_fault self.now function.now instr }
    {
        match instr {
            Instr::Jump(to) | Instr::Jz(to) | Instr::Jnz(to) => {
                unless((to as usize) < function.code.len(), BAD_JUMP)
            }
            Instr::Call(f) => unless((f as usize) < self.functions.len(), BAD_FUNCTION),
            Instr::Fork(f) => unless(self.has_args(f, 1), BAD_FUNCTION),
            Instr::New(c) => unless((c as usize) < self.classes.len(), BAD_CLASS),
            Instr::Load(k) | Instr::Store(k) | Instr::Inc(k, _) => {
                unless(k < function.locals as u16, BAD_LOCAL)
            }
            _ => None,
        }
    }

    // The index of the first instruction with which something is wrong, and the kind of that fault.
    fn wrong_instr(&self, function: &Function) -> Option<(usize, u8)>
        ensures { MatchOption result (IsAllRight (instr_fault self.now function.now) function.now.code) (λ r. IsFirstWrong (instr_fault self.now function.now) function.now.code r.0 r.1) }
    {
        for (at, instr) in function.code.iter().enumerate() {
            if let Some(kind) = self.instr_fault(function, *instr) {
                return Some((at, kind));
            }
        }
        None
    }

    // The first place of a function where something that is named is not there, and the kind of that fault.
    fn first_named(&self, function: &Function) -> Option<(u16, u8)>
        requires code { length function.now.code ≤ CODE }
        requires catches { length function.now.catches ≤ CATCHES }
        ensures { MatchOption result ((k : ℕ) → fault_at self.now function.now k ≡ None) (λ r. NamesWrong self.now function.now r.1 r.0) }
    {
        match self.wrong_instr(function) {
            Some((at, kind)) => Some((at as u16, kind)),
            None => match function.wrong_catch() {
                Some((i, kind)) => Some(((function.code.len() + i) as u16, kind)),
                None => None,
            },
        }
    }

    // The first fault of a function.
    fn function_fault(
        &self,
        alloc: Global,
        number: u16,
        function: &Function,
    ) -> Result<Option<ProgFault>, AllocError>
        requires code { length function.now.code ≤ CODE }
        requires catches { length function.now.catches ≤ CATCHES }
        ensures { IfOk result (λ o. MatchOption o (IsRight self.now function.now) (λ x. (x.function ≡ number) × IsFirstIn self.now function.now x.kind x.at)) }
    {
        if let Some((at, kind)) = self.first_named(function) {
            return Ok(Some(ProgFault {
                kind,
                function: number,
                at,
            }));
        }
        if function.falls_off() {
            return Ok(Some(ProgFault {
                kind: FALLS_OFF_END,
                function: number,
                at: function.code.len().saturating_sub(1) as u16,
            }));
        }
        if self.has_depths(alloc, function)? {
            return Ok(None);
        }
        Ok(Some(ProgFault {
            kind: STACK_DEPTH,
            function: number,
            at: 0,
        }))
    }

    // The first fault of the first function that has one.
    fn first_fault(&self, alloc: Global) -> Result<Option<ProgFault>, AllocError>
        requires { is_too_long self.now ≡ false }
        ensures { IfOk result (λ o. MatchOption o ((f : ℕ) (F : Routine) → function_at self.now f ≡ Some F → IsRight self.now F) (IsFirstOfFunctions self.now)) }
    {
        for (number, function) in self.functions.iter().enumerate() {
            if let Some(fault) = self.function_fault(alloc, number as u16, function)? {
                return Ok(Some(fault));
            }
        }
        Ok(None)
    }
}
