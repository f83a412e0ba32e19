// The words of the instructions, and what stands behind them.
ghost use Rattle.std.specs.Prelude.{◌≡◌, IfSome};
ghost use Rattle.gl_bytecode.specs.Faults.{ThrowsInRange};
ghost use Rattle.gl_asm.specs.Words.{word_of, operand_of, filled, template_of};

use crate::names::same;
use gl_bytecode::{Instr, LEAST_THROWN};

/// What stands behind an instruction's word.
#[derive(Clone, Copy, Debug, PartialEq, Eq)]
pub enum Operand {
    Nothing,
    Value(i64),
    Index(u16),
    IndexAndValue(u16, i64),
    Code(u8),
    Label(u16),
    Function(u16),
    Class(u16),
}

/// An instruction for each word, with any operands. None is left out, or listings would not be texts of their programs (`listing_is_text`).
pub const INSTRUCTIONS: [Instr; 42] = [
    Instr::Push(0),
    Instr::Pop,
    Instr::Dup,
    Instr::Swap,
    Instr::Load(0),
    Instr::Store(0),
    Instr::Inc(0, 0),
    Instr::Add,
    Instr::Sub,
    Instr::Mul,
    Instr::Div,
    Instr::Rem,
    Instr::Neg,
    Instr::Eq,
    Instr::Lt,
    Instr::Le,
    Instr::Not,
    Instr::And,
    Instr::Or,
    Instr::Xor,
    Instr::Jump(0),
    Instr::Jz(0),
    Instr::Jnz(0),
    Instr::Call(0),
    Instr::Ret,
    Instr::Halt,
    Instr::Throw(LEAST_THROWN),
    Instr::Nop,
    Instr::New(0),
    Instr::Get(0),
    Instr::Put(0),
    Instr::Vget(0),
    Instr::Vput(0),
    Instr::Enter,
    Instr::Exit,
    Instr::Fork(0),
    Instr::Join,
    Instr::SelfId,
    Instr::Txbegin,
    Instr::Commit,
    Instr::Print,
    Instr::Input,
];

/// The word of an instruction: a table, with a row for each.
pub fn word_of(instr: Instr) -> &'static str
    ensures { result.now ≡ word_of instr }
{
    match instr {
        Instr::Push(_) => "push",
        Instr::Pop => "pop",
        Instr::Dup => "dup",
        Instr::Swap => "swap",
        Instr::Load(_) => "load",
        Instr::Store(_) => "store",
        Instr::Inc(_, _) => "inc",
        Instr::Add => "add",
        Instr::Sub => "sub",
        Instr::Mul => "mul",
        Instr::Div => "div",
        Instr::Rem => "rem",
        Instr::Neg => "neg",
        Instr::Eq => "eq",
        Instr::Lt => "lt",
        Instr::Le => "le",
        Instr::Not => "not",
        Instr::And => "and",
        Instr::Or => "or",
        Instr::Xor => "xor",
        Instr::Jump(_) => "jump",
        Instr::Jz(_) => "jz",
        Instr::Jnz(_) => "jnz",
        Instr::Call(_) => "call",
        Instr::Ret => "ret",
        Instr::Halt => "halt",
        Instr::Throw(_) => "throw",
        Instr::Nop => "nop",
        Instr::New(_) => "new",
        Instr::Get(_) => "get",
        Instr::Put(_) => "put",
        Instr::Vget(_) => "vget",
        Instr::Vput(_) => "vput",
        Instr::Enter => "enter",
        Instr::Exit => "exit",
        Instr::Fork(_) => "fork",
        Instr::Join => "join",
        Instr::SelfId => "self",
        Instr::Txbegin => "txbegin",
        Instr::Commit => "commit",
        Instr::Print => "print",
        Instr::Input => "input",
    }
}

/// What stands behind the word of an instruction: a table of the kinds of operands.
pub fn operand_of(instr: Instr) -> Operand
    ensures { result ≡ operand_of instr }
{
    match instr {
        Instr::Push(value) => Operand::Value(value),
        Instr::Inc(local, value) => Operand::IndexAndValue(local, value),
        Instr::Load(k)
        | Instr::Store(k)
        | Instr::Get(k)
        | Instr::Put(k)
        | Instr::Vget(k)
        | Instr::Vput(k) => Operand::Index(k),
        Instr::Throw(code) => Operand::Code(code),
        Instr::Jump(to) | Instr::Jz(to) | Instr::Jnz(to) => Operand::Label(to),
        Instr::Call(function) | Instr::Fork(function) => Operand::Function(function),
        Instr::New(class) => Operand::Class(class),
        Instr::Pop
        | Instr::Dup
        | Instr::Swap
        | Instr::Add
        | Instr::Sub
        | Instr::Mul
        | Instr::Div
        | Instr::Rem
        | Instr::Neg
        | Instr::Eq
        | Instr::Lt
        | Instr::Le
        | Instr::Not
        | Instr::And
        | Instr::Or
        | Instr::Xor
        | Instr::Ret
        | Instr::Halt
        | Instr::Nop
        | Instr::Enter
        | Instr::Exit
        | Instr::Join
        | Instr::SelfId
        | Instr::Txbegin
        | Instr::Commit
        | Instr::Print
        | Instr::Input => Operand::Nothing,
    }
}

/// The instruction of the same word with these operands, of which it takes those that it has: a table, with a row for each that has any.
pub fn filled(instr: Instr, index: u16, value: i64) -> Instr
    ensures value { result ≡ filled instr index value }
    ensures thrown { ThrowsInRange instr → ThrowsInRange result }
{
    match instr {
        Instr::Push(_) => Instr::Push(value),
        Instr::Load(_) => Instr::Load(index),
        Instr::Store(_) => Instr::Store(index),
        Instr::Inc(_, _) => Instr::Inc(index, value),
        Instr::Jump(_) => Instr::Jump(index),
        Instr::Jz(_) => Instr::Jz(index),
        Instr::Jnz(_) => Instr::Jnz(index),
        Instr::Call(_) => Instr::Call(index),
        Instr::New(_) => Instr::New(index),
        Instr::Get(_) => Instr::Get(index),
        Instr::Put(_) => Instr::Put(index),
        Instr::Vget(_) => Instr::Vget(index),
        Instr::Vput(_) => Instr::Vput(index),
        Instr::Fork(_) => Instr::Fork(index),
        Instr::Pop
        | Instr::Dup
        | Instr::Swap
        | Instr::Add
        | Instr::Sub
        | Instr::Mul
        | Instr::Div
        | Instr::Rem
        | Instr::Neg
        | Instr::Eq
        | Instr::Lt
        | Instr::Le
        | Instr::Not
        | Instr::And
        | Instr::Or
        | Instr::Xor
        | Instr::Ret
        | Instr::Halt
        | Instr::Throw(_)
        | Instr::Nop
        | Instr::Enter
        | Instr::Exit
        | Instr::Join
        | Instr::SelfId
        | Instr::Txbegin
        | Instr::Commit
        | Instr::Print
        | Instr::Input => instr,
    }
}

// The instruction of a word.
fn instr_of(word: &[u8]) -> Option<Instr>
    ensures { result ≡ template_of word.now }
{
    INSTRUCTIONS
        .iter()
        .copied()
        .find(|instr| same(word_of(*instr).as_bytes(), word))
}

/// The instruction of a word, with any operands.
pub fn template_of(word: &[u8]) -> Option<Instr>
    ensures value { result ≡ template_of word.now }
    ensures thrown { IfSome result ThrowsInRange }
{
    instr_of(word)
}
