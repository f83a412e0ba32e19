use super::*;
use gl_text::TextError;
use std::alloc::Global;
use std::test::Fail;

// The line and the kind of a text's first fault, or two zeros.
fn fault_of(alloc: Global, text: &[u8]) -> Result<(u32, u8), Fail> {
    match read_trace(alloc, text) {
        Ok(_) => Ok((0, 0)),
        Err(TextError::Fault(fault)) => Ok((fault.line, fault.kind)),
        Err(TextError::Memory(refused)) => Err(Fail::from(refused)),
    }
}

// Each row: a text, and the line and the kind of its first fault.
const ROWS: &[(&[u8], u32, u8)] = &[
    // no fault
    (b"", 0, 0),
    (b"\n \n\t\n# a comment\n", 0, 0),
    (b"0 rd 1023", 0, 0),
    (b"  0\twr   1023 # and so on\n", 0, 0),
    (b"0 rd 1#2\n", 0, 0),
    (b"00 rd 0004\r\n", 0, 0),
    (b"-0 wr -0\n", 0, 0),
    (b"0 acq 255\n0 acq 255\n0 rel 255\n0 rel 255\n", 0, 0),
    (b"0 vr 255\n0 vw 0\n", 0, 0),
    (b"0 fork 15\n15 fork 1\n15 join 0\n1 rd 1\n", 0, 0),
    (b"0 fork 1\n0 join 1\n0 join 1\n", 0, 0),
    (b"0 commit r - w -\n", 0, 0),
    (b"0 commit r 0,1,2 w 2,1023\n", 0, 0),
    (b"0 commit r -0 w 1\n", 0, 0),
    (
        b"0 commit r 0,1,2,3,4,5,6,7,8,9,10,11,12,13,14,15 w 0,1,2,3,4,5,6,7,8,9,10,11,12,13,14,15\n",
        0,
        0,
    ),
    // a byte that no line may have
    (b"0 rd 1\x01\n", 1, 2),
    (b"# \x7f\n", 1, 2),
    (b"\n\xc3\xa4\n", 2, 2),
    (b"0 rd 1\r", 1, 2),
    (b"0 rd 1\r\r\n", 1, 2),
    (b"0 rd \r1\n", 1, 2),
    (b"x foo \x00\n", 1, 2),
    // the thread's number, the word of the form, the number of words
    (b"x", 1, 6),
    (b"x foo\n", 1, 6),
    (b"16 rd 0\n", 1, 6),
    (b"-1 rd 0\n", 1, 6),
    (b"+0 rd 0\n", 1, 6),
    (b"00000000000000000000 rd 0\n", 1, 6),
    (b"0\n", 1, 5),
    (b"0 # rd 1\n", 1, 5),
    (b"0 foo\n", 1, 4),
    (b"0 ac", 1, 4),
    (b"0 RD 1\n", 1, 4),
    (b"0 foo 1 2 3\n", 1, 4),
    (b"0 va 1\n", 1, 4),
    (b"0 rd\n", 1, 5),
    (b"0 rd 1 2\n", 1, 5),
    (b"0 rd x y\n", 1, 5),
    (b"0 commit\n", 1, 5),
    (b"0 commit x\n", 1, 4),
    (b"0 commit r\n", 1, 5),
    (b"0 commit r -\n", 1, 5),
    (b"0 commit r - x\n", 1, 4),
    (b"0 commit w - r -\n", 1, 4),
    (b"0 commit r - w\n", 1, 5),
    (b"0 commit r - w - -\n", 1, 5),
    (b"0 commit r x w - -\n", 1, 5),
    // the other numbers
    (b"0 rd 1024\n", 1, 6),
    (b"0 acq 256\n", 1, 6),
    (b"0 vw 256\n", 1, 6),
    (b"0 fork 16\n", 1, 6),
    (b"0 join -1\n", 1, 6),
    (b"0 rd 1x\n", 1, 6),
    (b"3 rd x\n", 1, 6),
    (b"0 commit r 1024 w -\n", 1, 6),
    (b"0 commit r 1,,2 w -\n", 1, 6),
    (b"0 commit r 1,-,2 w -\n", 1, 6),
    (b"0 commit r , w -\n", 1, 6),
    (b"0 commit r 2,1 w x\n", 1, 6),
    (b"0 commit r 2,1,x w -\n", 1, 6),
    // a list that is no set
    (b"0 commit r 2,1 w -\n", 1, 25),
    (b"0 commit r - w 1,1\n", 1, 25),
    (
        b"0 commit r 0,1,2,3,4,5,6,7,8,9,10,11,12,13,14,15,16 w -\n",
        1,
        25,
    ),
    (
        b"0 commit r 0,1,2,3,4,5,6,7 w 8,9,10,11,12,13,14,15,16\n",
        1,
        25,
    ),
    (b"1 commit r 2,1 w -\n", 1, 25),
    (
        b"1 commit r 0,1,2,3,4,5,6,7 w 8,9,10,11,12,13,14,15,16\n",
        1,
        25,
    ),
    // behind earlier lines
    (b"1 rd 0\n", 1, 22),
    (b"1 fork 0\n", 1, 22),
    (b"1 join 1\n", 1, 22),
    (b"0 join 1\n", 1, 22),
    (b"0 acq 0\n1 acq 0\n", 2, 22),
    (b"1 rel 0\n", 1, 22),
    (b"1 commit r 1 w -\n", 1, 22),
    (b"0 fork 1\n1 wr 3\n0 join 1\n0 rd 3\n1 rd 3\n", 5, 22),
    (b"0 fork 0\n", 1, 23),
    (b"0 fork 1\n0 fork 1\n", 2, 23),
    (b"0 fork 1\n0 join 1\n0 fork 1\n", 3, 23),
    (b"0 join 0\n", 1, 24),
    (b"0 fork 1\n0 acq 0\n1 acq 0\n", 3, 20),
    (b"0 rel 0\n", 1, 21),
    (b"0 fork 1\n0 acq 0\n1 rel 0\n", 3, 21),
    (b"0 acq 0\n0 rel 0\n0 rel 0\n", 3, 21),
    (b"0 fork 1\n0 acq 0\n0 acq 0\n0 rel 0\n1 acq 0\n", 5, 20),
    // the least line that has one
    (b"0 rd 1\n0 foo\n\x01\n", 2, 4),
    (b"0 join 0\n0 rd x\n", 1, 24),
];

#[test]
fn first_faults(rt: HostRuntime) -> Result<(), Fail> {
    for (place, (text, line, kind)) in ROWS.iter().enumerate() {
        assert_eq!(rt; fault_of(rt.alloc(), text)?, (*line, *kind), "row {place}");
    }
    Ok(())
}

// This many times a piece, and a tail.
fn long(alloc: Global, piece: &[u8], count: usize, tail: &[u8]) -> Result<Vec<u8>, Fail> {
    let mut text = Vec::new(alloc);
    for _ in 0..count {
        text.extend_from_slice(piece)?;
    }
    text.extend_from_slice(tail)?;
    Ok(text)
}

#[test]
fn limits(rt: HostRuntime) -> Result<(), Fail> {
    let rows: [(&[u8], usize, &[u8], u32, u8); 7] = [
        (b"0 rd 1\n", 16_384, b"", 0, 0),
        (b"\n", 16_384, b"\n", 16_385, 3),
        (b"0 rd 1\n", 16_384, b"x", 16_385, 3),
        (b"0 rd 1\n", 16_384, b"\x01", 16_385, 2),
        (b"\n", 16_384, b"\n\x01\n", 16_385, 3),
        (b"# 345678", 131_072, b"", 0, 0),
        (b"# 345678", 131_072, b"\x01", 0, 1),
    ];
    for (piece, count, tail, line, kind) in rows {
        let text = long(rt.alloc(), piece, count, tail)?;
        assert_eq!(rt;
            fault_of(rt.alloc(), &text)?,
            (line, kind),
            "{count} and {line}"
        );
    }
    Ok(())
}
