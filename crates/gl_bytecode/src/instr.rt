ghost use Rattle.std.specs.Prelude.{◌≡◌, ◌↔◌, IsTrue};

use crate::limits::{LEAST_THROWN, MOST_THROWN};

/// An instruction with its operands.
#[derive(Clone, Copy, Debug, PartialEq, Eq)]
pub enum Instr {
    /// Puts the number on the stack.
    Push(i64),
    /// Takes a value off the stack.
    Pop,
    /// Puts the top of the stack there once more.
    Dup,
    /// Exchanges the two topmost values.
    Swap,
    /// Puts the local's value on the stack.
    Load(u16),
    /// Takes a value into the local.
    Store(u16),
    /// Adds the number to the local, wrapping.
    Inc(u16, i64),
    /// The sum of the two topmost values, wrapping.
    Add,
    /// The second value less the top, wrapping.
    Sub,
    /// The product of the two topmost values, wrapping.
    Mul,
    /// The second value by the top, towards zero; the least number by -1 is the least number. Raises Divide by 0.
    Div,
    /// What that division leaves.
    Rem,
    /// The top's opposite, wrapping.
    Neg,
    /// 1 where the two topmost values are equal, else 0.
    Eq,
    /// 1 where the second value is less than the top, else 0.
    Lt,
    /// 1 where the second value is at most the top, else 0.
    Le,
    /// 1 where the top is 0, else 0.
    Not,
    /// The two topmost values, and by bits.
    And,
    /// The two topmost values, or by bits.
    Or,
    /// The two topmost values, exclusive or by bits.
    Xor,
    /// Goes on at the instruction.
    Jump(u16),
    /// Takes a value, and goes on at the instruction where it is 0.
    Jz(u16),
    /// Takes a value, and goes on at the instruction where it is not 0.
    Jnz(u16),
    /// Calls the function: the arguments become its first locals, in the order in which they were pushed.
    Call(u16),
    /// Answers the top to the caller; in the last frame the thread ends.
    Ret,
    /// Ends the thread.
    Halt,
    /// Raises the exception with this code, 100 to 199.
    Throw(u8),
    /// Does nothing.
    Nop,
    /// A new object of the class.
    New(u16),
    /// The object's data field.
    Get(u16),
    /// Takes a value into the data field of the object below it.
    Put(u16),
    /// The object's volatile field.
    Vget(u16),
    /// Takes a value into the volatile field of the object below it.
    Vput(u16),
    /// Enters the object's monitor.
    Enter,
    /// Leaves the object's monitor.
    Exit,
    /// Starts a thread in the function, with the top as its argument, and gives the thread's number.
    Fork(u16),
    /// Waits for the end of the thread with this number.
    Join,
    /// The number of the running thread.
    SelfId,
    /// Begins a transaction.
    Txbegin,
    /// Ends the transaction.
    Commit,
    /// Prints the top.
    Print,
    /// Takes the next input.
    Input,
}

/// How an instruction goes on within its function.
#[derive(Clone, Copy, Debug, PartialEq, Eq)]
pub enum Flow {
    /// It leaves the function.
    Leaves,
    /// The next instruction follows.
    Next,
    /// That instruction follows.
    Always(u16),
    /// That instruction follows or the next one.
    Either(u16),
}

impl Flow {
    ghost use Rattle.gl_bytecode.specs.Faults.{is_closed};

    /// Is what follows in the code not gone on to?
    pub fn is_closed(self) -> bool
        ensures { result ≡ is_closed self }
    {
        matches!(self, Flow::Leaves | Flow::Always(_))
    }
}

/// The instructions from `from` to before `to` have their exceptions handled at `target`.
#[derive(Clone, Copy, Debug, PartialEq, Eq)]
pub struct Catch {
    pub from: u16,
    pub to: u16,
    pub target: u16,
}

impl Catch {
    ghost use Rattle.gl_bytecode.specs.Catches.{covers};

    /// Is the instruction at this place covered?
    pub fn covers(&self, at: u16) -> bool
        ensures { result ≡ covers at self.now }
    {
        self.from <= at && at < self.to
    }
}

impl Instr {
    ghost use Rattle.gl_bytecode.specs.Faults.{ThrowsInRange};
    ghost use Rattle.gl_bytecode.specs.Instructions.{flow, gives, is_barred};

    /// Does a transaction refuse the instruction?
    pub fn is_barred(self) -> bool
        ensures { result ≡ is_barred self }
    {
        matches!(
            self,
            Instr::Halt
                | Instr::New(_)
                | Instr::Vget(_)
                | Instr::Vput(_)
                | Instr::Enter
                | Instr::Exit
                | Instr::Fork(_)
                | Instr::Join
                | Instr::Txbegin
                | Instr::Print
                | Instr::Input
        )
    }

    /// How many values the instruction leaves in its operands' place.
    pub fn gives(self) -> usize
        ensures { result ≡ gives self }
    {
        match self {
            Instr::Dup | Instr::Swap => 2,
            Instr::Push(_)
            | Instr::Load(_)
            | Instr::Add
            | Instr::Sub
            | Instr::Mul
            | Instr::Div
            | Instr::Rem
            | Instr::Neg
            | Instr::Eq
            | Instr::Lt
            | Instr::Le
            | Instr::Not
            | Instr::And
            | Instr::Or
            | Instr::Xor
            | Instr::Call(_)
            | Instr::New(_)
            | Instr::Get(_)
            | Instr::Vget(_)
            | Instr::Fork(_)
            | Instr::SelfId
            | Instr::Input => 1,
            _ => 0,
        }
    }

    /// How the instruction goes on within its function.
    pub fn flow(self) -> Flow
        ensures { result ≡ flow self }
    {
        match self {
            Instr::Jump(to) => Flow::Always(to),
            Instr::Jz(to) | Instr::Jnz(to) => Flow::Either(to),
            Instr::Ret | Instr::Halt | Instr::Throw(_) => Flow::Leaves,
            _ => Flow::Next,
        }
    }

    /// Is the code 100 to 199, where it is thrown?
    pub fn throws_in_range(self) -> bool
        ensures { IsTrue result ↔ ThrowsInRange self }
    {
        match self {
            Instr::Throw(code) => LEAST_THROWN <= code && code <= MOST_THROWN,
            _ => true,
        }
    }
}
