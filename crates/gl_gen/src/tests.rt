use crate::bank;
use gl_asm::{assemble, list};
use gl_bytecode::Instr;
use std::alloc::{AllocError, Global};
use std::test::Fail;

// Main of the bank, `;` for the end of a line.
const MAIN: &str = "class Bank 8 0;func main 0 9;new Bank;store 0;\
    load 0;push 1000;put 0;load 0;push 1000;put 1;load 0;push 1000;put 2;load 0;push 1000;put 3;\
    load 0;push 1000;put 4;load 0;push 1000;put 5;load 0;push 1000;put 6;load 0;push 1000;put 7;\
    load 0;fork w0;store 1;load 0;fork w1;store 2;load 0;fork w2;store 3;load 0;fork w3;store 4;\
    load 0;fork w4;store 5;load 0;fork w5;store 6;load 0;fork w6;store 7;load 0;fork w7;store 8;\
    load 1;join;load 2;join;load 3;join;load 4;join;load 5;join;load 6;join;load 7;join;load 8;join;\
    load 0;get 0;load 0;get 1;add;load 0;get 2;add;load 0;get 3;add;load 0;get 4;add;load 0;get 5;add;\
    load 0;get 6;add;load 0;get 7;add;print;halt;";

// Adds the bytes of a text, with `;` for the end of a line.
fn add_lines(text: &mut Vec<u8>, lines: &str) -> Result<(), AllocError> {
    for byte in lines.as_bytes() {
        text.push(if *byte == b';' { b'\n' } else { *byte })?;
    }
    Ok(())
}

// The text of the bank with so many transfers, written from the formats.
fn text_of(alloc: Global, transfers: &str) -> Result<Vec<u8>, AllocError> {
    let mut text = Vec::new(alloc);
    add_lines(&mut text, MAIN)?;
    for (i, j) in [
        (0, 1),
        (1, 2),
        (2, 3),
        (3, 4),
        (4, 5),
        (5, 6),
        (6, 7),
        (7, 0u8),
    ] {
        let lines = format!(in alloc;
            "func w{i} 1 2;push {transfers};store 1;a:;txbegin;load 0;load 0;get {i};push 1;sub;put {i};load 0;load 0;get {j};push 1;add;put {j};commit;inc 1 -1;load 1;jnz a;push 0;ret;"
        )?;
        add_lines(&mut text, &lines)?;
    }
    Ok(text)
}

// The bank is the program of that text: both have one listing.
#[test]
fn is_the_program_of_its_text(rt: HostRuntime) -> Result<(), Fail> {
    let alloc = rt.alloc();
    for (transfers, text) in [(1, "1"), (1000, "1000"), (10_000, "10000")] {
        let made = list(alloc, &bank(alloc, transfers)?)?;
        let bytes = text_of(alloc, text)?;
        match assemble(alloc, &bytes) {
            Ok(assembled) => {
                let read = list(alloc, &assembled.program)?;
                assert!(rt; made.as_slice() == read.as_slice(), "{text}");
            }
            Err(_) => return Err(Fail::from("the text is refused")),
        }
    }
    Ok(())
}

#[test]
fn shape(rt: HostRuntime) -> Result<(), Fail> {
    let program = bank(rt.alloc(), 1)?;
    assert_eq!(rt; (program.functions(), program.main()), (9, 0));
    assert_eq!(rt; program.class_of(0), Some((8, 0)));
    assert_eq!(rt; program.class_of(1), None);
    assert_eq!(rt; program.shape(0), Some((0, 9)));
    assert_eq!(rt; program.shape(8), Some((1, 2)));
    assert_eq!(rt; program.instr(0, 90), Some(Instr::Halt));
    assert_eq!(rt; program.instr(0, 91), None);
    assert_eq!(rt; program.instr(8, 0), Some(Instr::Push(1)));
    assert_eq!(rt; program.instr(8, 5), Some(Instr::Get(7)));
    assert_eq!(rt; program.instr(8, 11), Some(Instr::Get(0)));
    assert_eq!(rt; program.instr(8, 20), Some(Instr::Ret));
    assert_eq!(rt; program.instr(8, 21), None);
    Ok(())
}
