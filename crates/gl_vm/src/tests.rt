ghost use Rattle.std.specs.Prelude.{◌<◌, length, IsTrue};
ghost use Rattle.gl_bytecode.specs.Fits.{StartsRight};

use crate::{Ask, Machine, Reply};
use gl_bytecode::Instr::*;
use gl_bytecode::{Instr, Parts, Program, validate};
use std::alloc::{AllocError, Global};
use std::test::Fail;

// A catch: from, to and target.
type Handler = (u16, u16, u16);

// A reference to object 5 of class 1, with data variables from 7 on and volatiles from 3 on.
const OBJECT: i64 = 12885360902;

// An instruction at place 1 that throws, and a handler at place 3.
const CAUGHT: [Instr; 5] = [Nop, Throw(100), Halt, Print, Halt];

// The replies, and a word for each.
const REPLIES: [(Reply, &str); 16] = [
    (Reply::Go, "go"),
    (Reply::Value(0), "value"),
    (Reply::Start { func: 0, value: 0 }, "start"),
    (Reply::Retry, "retry"),
    (Reply::Raise(1), "1"),
    (Reply::Raise(2), "2"),
    (Reply::Raise(3), "3"),
    (Reply::Raise(4), "4"),
    (Reply::Raise(5), "5"),
    (Reply::Raise(6), "6"),
    (Reply::Raise(7), "7"),
    (Reply::Raise(8), "8"),
    (Reply::Raise(9), "9"),
    (Reply::Raise(10), "10"),
    (Reply::Raise(11), "11"),
    (Reply::Raise(12), "12"),
];

// The functions 1 to 9, each with its arguments and locals, its instructions and its catches.
const FUNCTIONS: [((u8, u8), &[Instr], &[Handler]); 9] = [
    // takes its second argument from its first, and leaves a third local that is not 0
    (
        (2, 3),
        &[
            Load(0),
            Load(1),
            Sub,
            Load(2),
            Add,
            Push(100),
            Store(2),
            Ret,
        ],
        &[],
    ),
    // calls what calls what divides by 0
    ((0, 0), &[Call(3), Ret], &[]),
    ((0, 0), &[Call(4), Ret], &[]),
    ((0, 0), &[Push(1), Push(0), Div, Ret], &[]),
    // calls itself so many times, and answers 77
    (
        (1, 1),
        &[
            Load(0),
            Jz(7),
            Load(0),
            Push(1),
            Sub,
            Call(5),
            Ret,
            Push(77),
            Ret,
        ],
        &[],
    ),
    // prints its argument and its thread, and joins itself
    (
        (1, 1),
        &[Load(0), Print, SelfId, Print, SelfId, Join, Push(0), Ret],
        &[],
    ),
    // throws 120 when it has divided by 0
    (
        (0, 0),
        &[Push(1), Push(0), Div, Ret, Throw(120)],
        &[(0, 3, 4)],
    ),
    // commits its caller's attempt, and answers 1
    ((0, 0), &[Commit, Push(1), Ret], &[]),
    // enters the monitors 5 and 2, three times each: 14 instructions
    (
        (0, 0),
        &[
            Push(6),
            Enter,
            Push(6),
            Enter,
            Push(6),
            Enter,
            Push(3),
            Enter,
            Push(3),
            Enter,
            Push(3),
            Enter,
            Push(0),
            Ret,
        ],
        &[],
    ),
];

// Two numbers, an instruction on them, and the top of the stack after it.
const VALUES: &[(i64, i64, Instr, i64)] = &[
    (1, 2, Push(-3), -3),
    (1, 2, Pop, 1),
    (1, 2, Dup, 2),
    (1, 2, Swap, 1),
    (1, 2, Nop, 2),
    (1, 2, Load(0), 0),
    (1, 2, SelfId, 0),
    (1, 2, Add, 3),
    (i64::MAX, 1, Add, i64::MIN),
    (1, 2, Sub, -1),
    (i64::MIN, 1, Sub, i64::MAX),
    (-3, 2, Mul, -6),
    (i64::MIN, -1, Mul, i64::MIN),
    (7, 2, Div, 3),
    (-7, 2, Div, -3),
    (7, -2, Div, -3),
    (-7, -2, Div, 3),
    (i64::MIN, -1, Div, i64::MIN),
    (7, 2, Rem, 1),
    (-7, 2, Rem, -1),
    (7, -2, Rem, 1),
    (i64::MIN, -1, Rem, 0),
    (1, 2, Neg, -2),
    (1, i64::MIN, Neg, i64::MIN),
    (3, 3, Eq, 1),
    (3, 4, Eq, 0),
    (3, 3, Lt, 0),
    (3, 4, Lt, 1),
    (4, 3, Lt, 0),
    (-1, 0, Lt, 1),
    (3, 3, Le, 1),
    (3, 4, Le, 1),
    (4, 3, Le, 0),
    (1, 0, Not, 1),
    (1, 2, Not, 0),
    (12, 10, And, 8),
    (12, 10, Or, 14),
    (12, 10, Xor, 6),
    (-1, 5, Xor, -6),
];

// Instructions of main, replies, and the code of the exception that ends the thread.
const EXCEPTIONS: &[(&[Instr], &[Reply], u8)] = &[
    (&[Push(0), Get(2), Halt], &[], 2),
    (&[Push(-1), Get(0), Halt], &[], 2),
    // of a third class
    (&[Push(513), Get(0), Halt], &[], 2),
    // data variables 1023 and 1024, volatile 256
    (&[Push(67043585), Get(0), Halt], &[], 2),
    (&[Push(1099511628033), Get(0), Halt], &[], 2),
    (&[Push(OBJECT), Get(2), Halt], &[], 3),
    (&[Push(OBJECT), Get(1), Halt], &[Reply::Raise(1)], 1),
    (&[Push(0), Push(1), Put(2), Halt], &[], 2),
    (&[Push(OBJECT), Push(1), Put(2), Halt], &[], 3),
    (
        &[Push(OBJECT), Push(1), Put(1), Halt],
        &[Reply::Raise(1)],
        1,
    ),
    (&[Push(0), Vget(1), Halt], &[], 2),
    (&[Push(OBJECT), Vget(1), Halt], &[], 3),
    (&[Push(0), Push(1), Vput(1), Halt], &[], 2),
    (&[Push(OBJECT), Push(1), Vput(1), Halt], &[], 3),
    (&[Push(0), Enter, Halt], &[], 2),
    (&[Push(0), Exit, Halt], &[], 2),
    (&[Push(OBJECT), Exit, Halt], &[Reply::Raise(5)], 5),
    (&[New(1), Halt], &[Reply::Raise(6)], 6),
    (&[Push(4), Fork(6), Halt], &[Reply::Raise(7)], 7),
    (&[Input, Halt], &[Reply::Raise(8)], 8),
    (&[Push(0), Join, Halt], &[], 11),
    (&[Push(-1), Join, Halt], &[], 11),
    (&[Push(16), Join, Halt], &[], 11),
    (&[Push(15), Join, Halt], &[Reply::Raise(11)], 11),
    (&[Push(1), Push(0), Div, Halt], &[], 4),
    (&[Push(1), Push(0), Rem, Halt], &[], 4),
    (&[Throw(100)], &[], 100),
    (&[Throw(199)], &[], 199),
    (&[Commit, Halt], &[], 10),
    (&[Txbegin, Halt], &[], 10),
    (&[Txbegin, Push(1), Ret], &[], 10),
    (&[Txbegin, New(1), Halt], &[], 10),
    (&[Txbegin, Push(0), Vget(0), Halt], &[], 10),
    (&[Txbegin, Push(0), Push(1), Vput(0), Halt], &[], 10),
    (&[Txbegin, Push(0), Enter, Halt], &[], 10),
    (&[Txbegin, Push(0), Exit, Halt], &[], 10),
    (&[Txbegin, Push(4), Fork(6), Halt], &[], 10),
    (&[Txbegin, Push(0), Join, Halt], &[], 10),
    (&[Txbegin, Txbegin, Halt], &[], 10),
    (&[Txbegin, Push(1), Print, Halt], &[], 10),
    (&[Txbegin, Input, Halt], &[], 10),
    (&[Txbegin, Push(0), Get(0), Halt], &[], 2),
    (&[Txbegin, Push(OBJECT), Get(2), Halt], &[], 3),
    (
        &[Txbegin, Push(OBJECT), Get(0), Halt],
        &[Reply::Go, Reply::Raise(9)],
        9,
    ),
    (
        &[Txbegin, Push(OBJECT), Push(1), Put(0), Halt],
        &[Reply::Go, Reply::Raise(9)],
        9,
    ),
    (&[Txbegin, Push(1), Push(0), Rem, Halt], &[], 4),
    (&[Txbegin, Throw(150)], &[], 150),
    (&[Txbegin, Throw(150)], &[Reply::Go, Reply::Raise(1)], 1),
    (&[Txbegin, Commit, Halt], &[Reply::Go, Reply::Raise(1)], 1),
    (&[Push(63), Call(5), Halt], &[], 12),
    (&[Call(2), Halt], &[], 4),
    (&[Call(7), Halt], &[], 120),
    (&[Txbegin, Push(63), Call(5), Halt], &[], 12),
];

// Instructions and catches of main, replies, and what is asked.
const ASKS: &[(&[Instr], &[Handler], &[Reply], &str)] = &[
    (&[Halt], &[], &[], "End go; Over(Halt)"),
    (&[Push(7), Ret], &[], &[], "End go; Over(Halt)"),
    (
        &[Push(5), Push(6), Swap, Print, Print, Halt],
        &[],
        &[],
        "Print { value: 5 } go; Print { value: 6 } go; End go; Over(Halt)",
    ),
    (
        &[Push(5), Dup, Print, Print, Halt],
        &[],
        &[],
        "Print { value: 5 } go; Print { value: 5 } go; End go; Over(Halt)",
    ),
    (
        &[
            Push(i64::MAX),
            Store(0),
            Inc(0, 1),
            Load(0),
            Print,
            Inc(1, -4),
            Load(1),
            Print,
            Halt,
        ],
        &[],
        &[],
        "Print { value: -9223372036854775808 } go; Print { value: -4 } go; End go; Over(Halt)",
    ),
    // each jump, taken and passed
    (
        &[
            Push(0),
            Jz(3),
            Throw(100),
            Push(7),
            Jz(2),
            Push(0),
            Jnz(2),
            Push(-1),
            Jnz(10),
            Throw(101),
            Jump(12),
            Throw(102),
            Halt,
        ],
        &[],
        &[],
        "End go; Over(Halt)",
    ),
    // the last variable and the last volatile that a reference of class 1 reaches
    (
        &[
            Push(66978049),
            Get(1),
            Pop,
            Push(1095216660737),
            Vget(0),
            Halt,
        ],
        &[],
        &[Reply::Value(1), Reply::Value(2)],
        "Read { var: 1023 } value 1; VRead { field: 255 } value; End go; Over(Halt)",
    ),
    // the top is what is written
    (
        &[
            Push(OBJECT),
            Push(9),
            Put(0),
            Push(OBJECT),
            Push(8),
            Vput(0),
            Push(2),
            Join,
            Halt,
        ],
        &[],
        &[],
        "Write { var: 7, value: 9 } go 1; VWrite { field: 3, value: 8 } go; Join { thread: 2 } go 11; End go; Over(Halt)",
    ),
    (
        &[Txbegin, Push(OBJECT), Push(9), Put(1), Commit, Halt],
        &[],
        &[],
        "TxBegin go; in Write { var: 8, value: 9 } go 9; in TxEnd { keep: true } go retry 1; End go; Over(Halt)",
    ),
    // what is answered goes on the stack
    (
        &[New(1), Print, Input, Print, Push(4), Fork(6), Print, Halt],
        &[],
        &[
            Reply::Value(262),
            Reply::Go,
            Reply::Value(-8),
            Reply::Go,
            Reply::Value(1),
        ],
        "Alloc { class: 1 } value 6; Print { value: 262 } go; Input value 8; Print { value: -8 } go; Fork { func: 6, value: 4 } value 7; Print { value: 1 } go; End go; Over(Halt)",
    ),
    // arguments in order, and other locals 0, also in a frame that was used before
    (
        &[
            Push(10),
            Push(3),
            Call(1),
            Print,
            Push(3),
            Push(10),
            Call(1),
            Print,
            Halt,
        ],
        &[],
        &[],
        "Print { value: 7 } go; Print { value: -7 } go; End go; Over(Halt)",
    ),
    // 64 frames, and the 65th
    (
        &[Push(62), Call(5), Print, Halt],
        &[],
        &[],
        "Print { value: 77 } go; End go; Over(Halt)",
    ),
    (
        &[Push(63), Call(5), Print, Halt, Print, Halt],
        &[(1, 2, 4)],
        &[],
        "Print { value: 12 } go; End go; Over(Halt)",
    ),
    // an exception that leaves three frames
    (
        &[Call(2), Print, Halt, Print, Halt],
        &[(0, 1, 3)],
        &[],
        "Print { value: 4 } go; End go; Over(Halt)",
    ),
    (
        &[Call(2), Print, Halt, Print, Halt],
        &[(1, 5, 3)],
        &[],
        "End go; Over(Uncaught(4))",
    ),
    // a handler that throws, in the same frame and in one above
    (
        &[Throw(100), Pop, Throw(101), Print, Halt],
        &[(0, 1, 1), (0, 3, 3)],
        &[],
        "Print { value: 101 } go; End go; Over(Halt)",
    ),
    (
        &[Call(7), Print, Halt, Print, Halt],
        &[(0, 1, 3)],
        &[],
        "Print { value: 120 } go; End go; Over(Halt)",
    ),
    // a catch that begins, ends, or both, at the instruction; and those beside it
    (
        &CAUGHT,
        &[(1, 3, 3)],
        &[],
        "Print { value: 100 } go; End go; Over(Halt)",
    ),
    (
        &CAUGHT,
        &[(0, 2, 3)],
        &[],
        "Print { value: 100 } go; End go; Over(Halt)",
    ),
    (
        &CAUGHT,
        &[(1, 2, 3)],
        &[],
        "Print { value: 100 } go; End go; Over(Halt)",
    ),
    (&CAUGHT, &[(2, 5, 3)], &[], "End go; Over(Uncaught(100))"),
    (&CAUGHT, &[(0, 1, 3)], &[], "End go; Over(Uncaught(100))"),
    (&CAUGHT, &[(1, 1, 3)], &[], "End go; Over(Uncaught(100))"),
    // a monitor that was never entered counts nothing below 0
    (
        &[Push(6), Exit, Push(6), Enter, Halt],
        &[],
        &[],
        "Exit { monitor: 5 } go 5; Enter { monitor: 5 } go; Exit { monitor: 5 } go; End go; Over(Halt)",
    ),
    // one level is left before the end
    (
        &[Push(6), Enter, Push(6), Enter, Push(6), Exit, Halt],
        &[],
        &[],
        "Enter { monitor: 5 } go; Enter { monitor: 5 } go; Exit { monitor: 5 } go 5; Exit { monitor: 5 } go; End go; Over(Halt)",
    ),
    // an attempt that is made again begins with its locals, its stack and its frames
    (
        &[
            Push(5),
            Txbegin,
            Inc(0, 1),
            Pop,
            Push(9),
            Commit,
            Print,
            Load(0),
            Print,
            Halt,
        ],
        &[],
        &[Reply::Go, Reply::Retry],
        "TxBegin go; in TxEnd { keep: true } go retry 1; TxBegin go; in TxEnd { keep: true } go retry 1; Print { value: 9 } go; Print { value: 1 } go; End go; Over(Halt)",
    ),
    (
        &[Txbegin, Call(8), Print, Push(0), Ret],
        &[],
        &[Reply::Go, Reply::Retry],
        "TxBegin go; in TxEnd { keep: true } go retry 1; TxBegin go; in TxEnd { keep: true } go retry 1; Print { value: 1 } go; End go; Over(Halt)",
    ),
    // only the frame that began it may not return
    (
        &[Txbegin, Push(3), Push(1), Call(1), Commit, Print, Halt],
        &[],
        &[],
        "TxBegin go; in TxEnd { keep: true } go retry 1; Print { value: 2 } go; End go; Over(Halt)",
    ),
    (
        &[Txbegin, Push(OBJECT), Get(0), Pop, Throw(100), Print, Halt],
        &[(1, 5, 5)],
        &[Reply::Go, Reply::Value(1), Reply::Go],
        "TxBegin go; in Read { var: 7 } value 9; in TxEnd { keep: false } go retry 1; Print { value: 100 } go; End go; Over(Halt)",
    ),
    // an exception of a function that was called goes out of the attempt, and a function above it may catch it
    (
        &[Txbegin, Call(3), Commit, Halt, Print, Halt],
        &[(1, 2, 4)],
        &[],
        "TxBegin go; in TxEnd { keep: false } go retry 1; Print { value: 4 } go; End go; Over(Halt)",
    ),
    (
        &[Txbegin, Call(3), Commit, Halt, Print, Halt],
        &[(1, 2, 4)],
        &[Reply::Go, Reply::Raise(1)],
        "TxBegin go; in TxEnd { keep: false } go retry 1; Print { value: 1 } go; End go; Over(Halt)",
    ),
    // a handler of an attempt that has failed runs outside it
    (
        &[Txbegin, Throw(100), Txbegin, Commit, Halt],
        &[(1, 2, 2)],
        &[],
        "TxBegin go; in TxEnd { keep: false } go retry 1; TxBegin go; in TxEnd { keep: true } go retry 1; End go; Over(Halt)",
    ),
    // the last thread is forked, and one more
    (
        &[
            Push(4),
            Fork(6),
            Print,
            Push(4),
            Fork(6),
            Print,
            Halt,
            Print,
            Halt,
        ],
        &[(4, 5, 7)],
        &[Reply::Value(15), Reply::Go, Reply::Raise(7)],
        "Fork { func: 6, value: 4 } value 7; Print { value: 15 } go; Fork { func: 6, value: 4 } value 7; Print { value: 7 } go; End go; Over(Halt)",
    ),
    (
        &[Txbegin, Throw(100)],
        &[],
        &[Reply::Go, Reply::Retry],
        "TxBegin go; in TxEnd { keep: false } go retry 1; TxBegin go; in TxEnd { keep: false } go retry 1; End go; Over(Uncaught(100))",
    ),
    (
        &[Txbegin, Commit, Halt, Print, Halt],
        &[(1, 2, 3)],
        &[Reply::Go, Reply::Raise(1)],
        "TxBegin go; in TxEnd { keep: true } go retry 1; Print { value: 1 } go; End go; Over(Halt)",
    ),
];

// Instructions of main, steps, replies, and what is asked.
const ENDINGS: &[(&[Instr], u32, &[Reply], &str)] = &[
    // the steps reach the last instruction, or end before it
    (
        &[Push(5), Print, Halt],
        3,
        &[],
        "Print { value: 5 } go; End go; Over(Halt)",
    ),
    (
        &[Push(5), Print, Halt],
        2,
        &[],
        "Print { value: 5 } go; End go; Over(Spent)",
    ),
    (&[Push(5), Print, Halt], 1, &[], "End go; Over(Spent)"),
    (&[Push(5), Print, Halt], 0, &[], "End go; Over(Spent)"),
    // they are looked at before the instruction, and inside an attempt its looks are committed first
    (&[Push(0), Get(0), Halt], 1, &[], "End go; Over(Spent)"),
    (
        &[Txbegin, Nop, Halt],
        1,
        &[],
        "TxBegin go; in TxEnd { keep: false } go retry 1; End go; Over(Spent)",
    ),
    (
        &[Txbegin, Nop, Halt],
        1,
        &[Reply::Go, Reply::Raise(1)],
        "TxBegin go; in TxEnd { keep: false } go retry 1; End go; Over(Spent)",
    ),
    (
        &[Txbegin, Nop, Halt],
        1,
        &[Reply::Go, Reply::Retry],
        "TxBegin go; in TxEnd { keep: false } go retry 1; End go; Over(Spent)",
    ),
    // the steps of an attempt that was dropped count too
    (
        &[Txbegin, Nop, Commit, Halt],
        4,
        &[Reply::Go, Reply::Retry],
        "TxBegin go; in TxEnd { keep: true } go retry 1; TxBegin go; in TxEnd { keep: false } go retry 1; End go; Over(Spent)",
    ),
    // where they are spent after it was dropped, it is not begun again
    (
        &[Txbegin, Nop, Commit, Halt],
        3,
        &[Reply::Go, Reply::Retry],
        "TxBegin go; in TxEnd { keep: true } go retry 1; End go; Over(Spent)",
    ),
    // an instruction that is refused inside an attempt counts, and where the steps are spent it is not looked at
    (
        &[Txbegin, Txbegin, Halt],
        2,
        &[],
        "TxBegin go; in TxEnd { keep: false } go retry 1; End go; Over(Uncaught(10))",
    ),
    (
        &[Txbegin, Txbegin, Halt],
        1,
        &[],
        "TxBegin go; in TxEnd { keep: false } go retry 1; End go; Over(Spent)",
    ),
    // each ending leaves the monitors 5 and 2, which are owned to depth 3
    (
        &[Call(9), Halt],
        500,
        &[],
        "Enter { monitor: 5 } go; Enter { monitor: 5 } go; Enter { monitor: 5 } go; Enter { monitor: 2 } go; Enter { monitor: 2 } go; Enter { monitor: 2 } go; Exit { monitor: 2 } go; Exit { monitor: 2 } go; Exit { monitor: 2 } go; Exit { monitor: 5 } go; Exit { monitor: 5 } go; Exit { monitor: 5 } go; End go; Over(Halt)",
    ),
    (
        &[Call(9), Throw(150)],
        500,
        &[],
        "Enter { monitor: 5 } go; Enter { monitor: 5 } go; Enter { monitor: 5 } go; Enter { monitor: 2 } go; Enter { monitor: 2 } go; Enter { monitor: 2 } go; Exit { monitor: 2 } go; Exit { monitor: 2 } go; Exit { monitor: 2 } go; Exit { monitor: 5 } go; Exit { monitor: 5 } go; Exit { monitor: 5 } go; End go; Over(Uncaught(150))",
    ),
    (
        &[Call(9), Pop, Nop, Halt],
        15,
        &[],
        "Enter { monitor: 5 } go; Enter { monitor: 5 } go; Enter { monitor: 5 } go; Enter { monitor: 2 } go; Enter { monitor: 2 } go; Enter { monitor: 2 } go; Exit { monitor: 2 } go; Exit { monitor: 2 } go; Exit { monitor: 2 } go; Exit { monitor: 5 } go; Exit { monitor: 5 } go; Exit { monitor: 5 } go; End go; Over(Spent)",
    ),
];

// Adds a function.
#[tactic(auto, using(gl_bytecode::proofs::Drafts::length_with_last))]
fn add(
    parts: &mut Parts,
    shape: (u8, u8),
    code: &[Instr],
    catches: &[Handler],
) -> Result<(), AllocError> {
    parts.function(shape.0, shape.1)?;
    add_code(parts, code)?;
    for (from, to, target) in catches {
        parts.catch(*from, *to, *target)?;
    }
    Ok(())
}

// Adds instructions to the last function.
#[tactic(auto, using(gl_bytecode::proofs::Drafts::length_with_last))]
fn add_code(parts: &mut Parts, code: &[Instr]) -> Result<(), AllocError>
    requires { 0 < length parts.old.functions }
    ensures { 0 < length parts.new.functions }
{
    for instr in code {
        if instr.throws_in_range() {
            parts.instr(*instr)?;
        }
    }
    Ok(())
}

// A program with this main of 2 locals, a class 0 of one data field, a class 1 of two data fields and a volatile one, and
// FUNCTIONS.
fn program(alloc: Global, code: &[Instr], catches: &[Handler]) -> Result<Program, Fail> {
    let mut parts = Parts::new(alloc);
    parts.class(1, 0)?;
    parts.class(2, 1)?;
    add(&mut parts, (0, 2), code, catches)?;
    for (shape, code, catches) in FUNCTIONS {
        add(&mut parts, shape, code, catches)?;
    }
    parts.main_is(0);
    Ok(validate(alloc, parts)?)
}

// What a thread begins with: thread 0 in main, another one in function 6 with 42.
fn start_of(thread: u8) -> Reply {
    if thread == 0 {
        Reply::Start { func: 0, value: 0 }
    } else {
        Reply::Start { func: 6, value: 42 }
    }
}

// Is a function that is started there, with one argument at most?
fn starts_right(program: &Program, reply: &Reply) -> bool
    ensures { IsTrue result → StartsRight program.now reply.now }
{
    match reply {
        Reply::Start { func, .. } => match program.shape(*func) {
            Some((args, _)) => args < 2,
            None => false,
        },
        _ => true,
    }
}

// The replies that fit, each behind a blank.
fn fitting(alloc: Global, machine: &Machine) -> Result<String, AllocError> {
    let mut words = String::new(alloc);
    for (reply, word) in REPLIES {
        if machine.takes(&reply) {
            write!(words, " {word}")?;
        }
    }
    Ok(words)
}

// Adds what is asked, `in` before it inside an attempt, and the replies that fit; but not the asks to go on and to begin,
// if their own reply alone fits.
fn note(alloc: Global, text: &mut String, machine: &Machine) -> Result<(), AllocError> {
    let ask = machine.asked();
    let replies = fitting(alloc, machine)?;
    match (ask, replies.as_str()) {
        (Ask::Go, " go") | (Ask::Begin, " start") => return Ok(()),
        _ => (),
    }
    if !text.is_empty() {
        text.push_str("; ")?;
    }
    if machine.in_tx() {
        text.push_str("in ")?;
    }
    write!(text, "{ask:?}{replies}")
}

// What a thread asks in so many steps, when it is given these replies and is told to go on after them.
fn asked(
    alloc: Global,
    program: &Program,
    thread: u8,
    steps: u32,
    replies: &[Reply],
) -> Result<String, AllocError> {
    let mut machine = Machine::new(alloc, program, thread, steps)?;
    let mut text = String::new(alloc);
    let mut left = replies.iter();
    for _ in 0..1000 {
        note(alloc, &mut text, &machine)?;
        let reply = match machine.asked() {
            Ask::Go | Ask::End => Reply::Go,
            Ask::Begin => start_of(thread),
            _ => left.next().copied().unwrap_or(Reply::Go),
        };
        if !machine.takes(&reply) || !starts_right(program, &reply) {
            break;
        }
        machine.step(program, reply);
    }
    Ok(text)
}

#[test]
fn values(rt: HostRuntime) -> Result<(), Fail> {
    let alloc = rt.alloc();
    for (below, top, instr, value) in VALUES {
        let program = program(alloc, &[Push(*below), Push(*top), *instr, Print, Halt], &[])?;
        let wanted = format!(in alloc; "Print {{ value: {value} }} go; End go; Over(Halt)")?;
        let text = asked(alloc, &program, 0, 500, &[])?;
        assert_eq!(rt; text.as_str(), wanted.as_str(), "{below} {top} {instr:?}");
    }
    Ok(())
}

#[test]
fn exceptions(rt: HostRuntime) -> Result<(), Fail> {
    let alloc = rt.alloc();
    for (code, replies, exception) in EXCEPTIONS {
        let program = program(alloc, code, &[])?;
        let wanted = format!(in alloc; "End go; Over(Uncaught({exception}))")?;
        let text = asked(alloc, &program, 0, 500, replies)?;
        assert!(rt; text.ends_with(wanted.as_str()), "{code:?} {text}");
    }
    Ok(())
}

#[test]
fn asks(rt: HostRuntime) -> Result<(), Fail> {
    let alloc = rt.alloc();
    for (code, catches, replies, wanted) in ASKS {
        let program = program(alloc, code, catches)?;
        let text = asked(alloc, &program, 0, 500, replies)?;
        assert_eq!(rt; text.as_str(), *wanted, "{code:?} {catches:?}");
    }
    Ok(())
}

#[test]
fn endings(rt: HostRuntime) -> Result<(), Fail> {
    let alloc = rt.alloc();
    for (code, steps, replies, wanted) in ENDINGS {
        let program = program(alloc, code, &[])?;
        let text = asked(alloc, &program, 0, *steps, replies)?;
        assert_eq!(rt; text.as_str(), *wanted, "{code:?} {steps}");
    }
    Ok(())
}

#[test]
fn another_thread(rt: HostRuntime) -> Result<(), Fail> {
    let alloc = rt.alloc();
    let program = program(alloc, &[Halt], &[])?;
    let text = asked(alloc, &program, 3, 500, &[])?;
    assert_eq!(rt;
        text.as_str(),
        "Print { value: 42 } go; Print { value: 3 } go; End go; Over(Uncaught(11))"
    );
    Ok(())
}
