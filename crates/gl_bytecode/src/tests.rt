ghost use Rattle.std.specs.Prelude.{◌<◌, length};

use crate::{Instr, Parts, ProgError, validate};
use std::alloc::{AllocError, Global};
use std::test::Fail;

// A catch: from, to and target.
type Handler = (u16, u16, u16);

// A fault: kind, function and place.
type Told = Option<(u8, u16, u16)>;

// Adds a function.
#[tactic(auto, using(crate::proofs::Drafts::length_with_last))]
fn add(
    parts: &mut Parts,
    args: u8,
    locals: u8,
    code: &[Instr],
    catches: &[Handler],
) -> Result<(), AllocError> {
    parts.function(args, locals)?;
    add_code(parts, code)?;
    for (from, to, target) in catches {
        parts.catch(*from, *to, *target)?;
    }
    Ok(())
}

// Adds instructions to the last function.
#[tactic(auto, using(crate::proofs::Drafts::length_with_last))]
fn add_code(parts: &mut Parts, code: &[Instr]) -> Result<(), AllocError>
    requires { 0 < length parts.old.functions }
    ensures { 0 < length parts.new.functions }
{
    for instr in code {
        if instr.throws_in_range() {
            parts.instr(*instr)?;
        }
    }
    Ok(())
}

// What validate tells of these parts.
fn told(alloc: Global, parts: Parts) -> Result<Told, AllocError> {
    match validate(alloc, parts) {
        Ok(_) => Ok(None),
        Err(ProgError::Fault(fault)) => Ok(Some((fault.kind, fault.function, fault.at))),
        Err(ProgError::Memory(error)) => Err(error),
    }
}

// What is told of a program with this main, a class 0, a function 1 of two arguments and a function 2 of one.
fn told_of_main(alloc: Global, code: &[Instr], catches: &[Handler]) -> Result<Told, AllocError> {
    let mut parts = Parts::new(alloc);
    parts.class(2, 1)?;
    add(&mut parts, 0, 1, code, catches)?;
    add(&mut parts, 2, 2, &[Instr::Load(0), Instr::Ret], &[])?;
    add(&mut parts, 1, 1, &[Instr::Load(0), Instr::Ret], &[])?;
    parts.main_is(0);
    told(alloc, parts)
}

// What is told of a program of this many classes of so many fields, and of this many functions with so many arguments,
// locals, instructions and catches each, the second of which is main.
fn told_of_sizes(
    alloc: Global,
    classes: (u16, u16, u16),
    functions: (u16, u8, u8),
    sizes: (u16, u16),
) -> Result<Told, AllocError> {
    let mut parts = Parts::new(alloc);
    for _ in 0..classes.0 {
        parts.class(classes.1, classes.2)?;
    }
    for _ in 0..functions.0 {
        let mut code = Vec::new(alloc);
        for _ in 0..sizes.0 {
            code.push(Instr::Halt)?;
        }
        let mut catches = Vec::new(alloc);
        for _ in 0..sizes.1 {
            catches.push((0, 1, 1))?;
        }
        add(&mut parts, functions.1, functions.2, &code, &catches)?;
    }
    parts.main_is(1);
    told(alloc, parts)
}

// Code and catches of main, and what is told.
const ROWS: [(&[Instr], &[Handler], Told); 26] = [
    (&[Instr::Jump(0)], &[], None),
    (&[Instr::Jump(1)], &[], Some((1, 0, 0))),
    (&[Instr::Call(3), Instr::Halt], &[], Some((2, 0, 0))),
    (
        &[Instr::Push(0), Instr::Fork(1), Instr::Pop, Instr::Halt],
        &[],
        Some((2, 0, 1)),
    ),
    (
        &[Instr::Push(0), Instr::Fork(2), Instr::Pop, Instr::Halt],
        &[],
        None,
    ),
    (&[Instr::New(1), Instr::Halt], &[], Some((3, 0, 0))),
    (&[Instr::Load(1), Instr::Halt], &[], Some((4, 0, 0))),
    (&[], &[], Some((6, 0, 0))),
    (&[Instr::Push(0), Instr::Jz(0)], &[], Some((6, 0, 1))),
    (&[Instr::Ret], &[], Some((5, 0, 0))),
    (
        &[Instr::Push(0), Instr::Call(1), Instr::Halt],
        &[],
        Some((5, 0, 0)),
    ),
    (
        &[Instr::Push(0), Instr::Push(0), Instr::Call(1), Instr::Halt],
        &[],
        None,
    ),
    (
        &[Instr::Push(0), Instr::Jz(3), Instr::Push(1), Instr::Halt],
        &[],
        Some((5, 0, 0)),
    ),
    (
        &[Instr::Halt, Instr::Pop, Instr::Pop, Instr::Halt],
        &[],
        None,
    ),
    (
        &[Instr::Halt, Instr::Pop, Instr::Pop, Instr::Halt],
        &[(0, 1, 1)],
        Some((5, 0, 0)),
    ),
    (
        &[
            Instr::Load(1),
            Instr::New(1),
            Instr::Call(3),
            Instr::Jump(9),
        ],
        &[],
        Some((4, 0, 0)),
    ),
    (
        &[Instr::New(1), Instr::Call(3), Instr::Jump(9)],
        &[],
        Some((3, 0, 0)),
    ),
    (&[Instr::Call(3), Instr::Jump(9)], &[], Some((2, 0, 0))),
    (&[Instr::Jump(9)], &[(0, 1, 1)], Some((1, 0, 0))),
    (&[Instr::Nop], &[(0, 1, 1)], Some((1, 0, 1))),
    (&[Instr::Pop], &[], Some((6, 0, 0))),
    (
        &[Instr::Halt, Instr::Pop, Instr::Halt],
        &[(0, 3, 1), (3, 3, 1)],
        None,
    ),
    (
        &[Instr::Halt, Instr::Pop, Instr::Halt],
        &[(0, 3, 3)],
        Some((1, 0, 3)),
    ),
    (
        &[Instr::Halt, Instr::Pop, Instr::Halt],
        &[(0, 3, 1), (0, 4, 1)],
        Some((1, 0, 4)),
    ),
    (
        &[Instr::Halt, Instr::Pop, Instr::Halt],
        &[(4, 4, 1)],
        Some((1, 0, 3)),
    ),
    (
        &[Instr::Halt, Instr::Pop, Instr::Halt],
        &[(2, 1, 1)],
        Some((1, 0, 3)),
    ),
];

#[test]
fn faults_of_main(rt: HostRuntime) -> Result<(), Fail> {
    for (code, catches, want) in ROWS {
        assert_eq!(rt;
            told_of_main(rt.alloc(), code, catches)?,
            want,
            "{code:?} {catches:?}"
        );
    }
    Ok(())
}

#[test]
fn faults_of_sizes(rt: HostRuntime) -> Result<(), Fail> {
    let rows = [
        ((64, 1024, 256), (64, 0, 32), (64, 16), None),
        ((65, 0, 0), (2, 0, 0), (2, 0), Some((7, 0, 0))),
        ((1, 1025, 0), (2, 0, 0), (2, 0), Some((7, 0, 0))),
        ((1, 0, 257), (2, 0, 0), (2, 0), Some((7, 0, 0))),
        ((0, 0, 0), (65, 0, 0), (2, 0), Some((7, 0, 0))),
        ((0, 0, 0), (2, 0, 33), (2, 0), Some((7, 0, 0))),
        ((0, 0, 0), (2, 0, 0), (2, 17), Some((7, 0, 0))),
        ((0, 0, 0), (2, 0, 0), (2048, 0), None),
        ((0, 0, 0), (2, 0, 0), (2049, 0), Some((7, 0, 0))),
        ((0, 0, 0), (2, 1, 0), (2, 0), Some((8, 0, 0))),
        ((0, 0, 0), (1, 0, 33), (2, 0), Some((8, 0, 0))),
        ((0, 0, 0), (2, 0, 33), (0, 0), Some((7, 0, 0))),
    ];
    for (classes, functions, sizes, want) in rows {
        let told = told_of_sizes(rt.alloc(), classes, functions, sizes)?;
        assert_eq!(rt; told, want, "{classes:?} {functions:?} {sizes:?}");
    }
    Ok(())
}

#[test]
fn depths_and_functions_in_order(rt: HostRuntime) -> Result<(), Fail> {
    let alloc = rt.alloc();
    for (pushes, want) in [(256, None), (257, Some((5, 0, 0)))] {
        let mut code = Vec::new(alloc);
        for _ in 0..pushes {
            code.push(Instr::Push(0))?;
        }
        code.push(Instr::Halt)?;
        assert_eq!(rt; told_of_main(alloc, &code, &[])?, want, "{pushes}");
    }
    let mut parts = Parts::new(alloc);
    add(&mut parts, 0, 0, &[Instr::Pop, Instr::Halt], &[])?;
    add(&mut parts, 0, 0, &[Instr::Jump(1)], &[])?;
    parts.main_is(0);
    assert_eq!(rt; told(alloc, parts)?, Some((5, 0, 0)));
    Ok(())
}

#[test]
fn reads_a_program(rt: HostRuntime) -> Result<(), Fail> {
    let alloc = rt.alloc();
    let mut parts = Parts::new(alloc);
    parts.class(3, 2)?;
    add(
        &mut parts,
        1,
        2,
        &[Instr::Load(1), Instr::Ret],
        &[(0, 1, 1)],
    )?;
    add(&mut parts, 0, 0, &[Instr::Halt], &[])?;
    parts.main_is(1);
    let program = validate(alloc, parts)?;
    assert_eq!(rt; (program.functions(), program.main()), (2, 1));
    assert_eq!(rt; program.class_of(0), Some((3, 2)));
    assert_eq!(rt; program.class_of(1), None);
    assert_eq!(rt; program.shape(0), Some((1, 2)));
    assert_eq!(rt; program.shape(2), None);
    assert_eq!(rt; program.instr(0, 1), Some(Instr::Ret));
    assert_eq!(rt; program.instr(0, 2), None);
    assert_eq!(rt; program.instr(2, 0), None);
    assert_eq!(rt; program.catch(0, 0), Some((0, 1, 1)));
    assert_eq!(rt; program.catch(0, 1), None);
    assert_eq!(rt; program.catch(2, 0), None);
    Ok(())
}
