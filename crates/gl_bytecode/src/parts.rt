ghost use Rattle.std.specs.Prelude.{◌≡◌, ◌<◌, ◌++◌, ◌∷◌, [], length, OnErr, OnOk};

use crate::function::Function;
use crate::instr::{Catch, Instr};
use crate::object::Fields;
use std::alloc::{AllocError, Global};
use std::marker::Model;

/// A program in the making: its classes, its functions, and which of them is main. They are looked at by `validate`.
#[derive(Drop)]
pub struct Parts {
    pub(crate) classes: Vec<Fields>,
    pub(crate) functions: Vec<Function>,
    pub(crate) main: Option<u16>,
    pub(crate) alloc: Global,
}

impl Model for Parts {
    ghost use Rattle.gl_bytecode.specs.Programs.{Draft};

    ghost Value = { Draft };

    ghost use Rattle.gl_bytecode.specs.Faults.{AllThrowInRange};

    ghost view = { λ p. record { classes = p.classes.items; functions = p.functions.items; main = p.main } };

    ghost invariant = { λ p. AllThrowInRange p.functions.items };
}

impl Parts {
    ghost use Rattle.gl_bytecode.specs.Programs.{with_catch, with_instr};
    ghost use Rattle.gl_bytecode.specs.Faults.{ThrowsInRange};

    /// Parts without a class, a function and a main. What is added is allocated by `alloc`.
    pub fn new(alloc: Global) -> Parts
        ensures { result ≡ record { classes = []; functions = []; main = None } }
    {
        Parts {
            classes: Vec::new(alloc),
            functions: Vec::new(alloc),
            main: None,
            alloc,
        }
    }

    /// Adds a class whose objects have so many data fields and volatile fields.
    pub fn class(&mut self, plain: u16, volatile: u16) -> Result<(), AllocError>
        ensures ok { OnOk result (self.new ≡ record self.old { classes = self.old.classes ++ (record { plain = plain; volatile = volatile }) ∷ [] }) }
        ensures err { OnErr result (self.new ≡ self.old) }
    {
        self.classes.push(Fields { plain, volatile })?;
        Ok(())
    }

    /// Adds a function with so many arguments and locals, the arguments among the locals.
    pub fn function(&mut self, args: u8, locals: u8) -> Result<(), AllocError>
        ensures ok { OnOk result (self.new ≡ record self.old { functions = self.old.functions ++ (record { args = args; locals = locals; code = []; catches = [] }) ∷ [] }) }
        ensures err { OnErr result (self.new ≡ self.old) }
    {
        self.functions
            .push(Function::new(self.alloc, args, locals))?;
        Ok(())
    }

    /// Adds an instruction to the last function. A code that it throws is 100 to 199.
    pub fn instr(&mut self, instr: Instr) -> Result<(), AllocError>
        requires there { 0 < length self.old.functions }
        requires thrown { ThrowsInRange instr }
        ensures ok { OnOk result (self.new ≡ with_instr instr self.old) }
        ensures err { OnErr result (self.new ≡ self.old) }
    {
        let last = self.functions.len() - 1;
        let function = &mut self.functions[last];
        function.push(instr)
    }

    /// Adds a catch to the last function: it covers the instructions from `from` to before `to`, and its handler is
    /// at `target`.
    pub fn catch(&mut self, from: u16, to: u16, target: u16) -> Result<(), AllocError>
        requires { 0 < length self.old.functions }
        ensures ok { OnOk result (self.new ≡ with_catch (record { from = from; to = to; target = target }) self.old) }
        ensures err { OnErr result (self.new ≡ self.old) }
    {
        let last = self.functions.len() - 1;
        let function = &mut self.functions[last];
        function.push_catch(Catch { from, to, target })
    }

    /// Names the function of main. It need not be there yet.
    pub fn main_is(&mut self, function: u16)
        ensures { self.new ≡ record self.old { main = Some function } }
    {
        self.main = Some(function);
    }
}
