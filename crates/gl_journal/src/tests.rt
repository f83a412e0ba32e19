use super::*;
use gl_model::{Act, Ending, Entry, Look, Looks, Number, Numbers, Pair, Pairs, Record, Tx, Why};
use gl_text::TextError;
use std::alloc::Global;
use std::test::Fail;

// The line and the kind of a text's first fault, or two zeros.
fn fault_of(alloc: Global, text: &[u8], first_line: u32) -> Result<(u32, u8), Fail> {
    if first_line == 0 || first_line > 1_000 || text.len() > 10_000 {
        return Ok((u32::MAX, 0));
    }
    match read_record(alloc, text, first_line) {
        Ok(_) => Ok((0, 0)),
        Err(TextError::Fault(fault)) => Ok((fault.line, fault.kind)),
        Err(TextError::Memory(refused)) => Err(Fail::from(refused)),
    }
}

// The text of what a text means.
fn text_again(alloc: Global, text: &[u8]) -> Result<Vec<u8>, Fail> {
    if text.len() > 10_000 {
        return Ok(Vec::new(alloc));
    }
    let (steps, record) = read_record(alloc, text, 1)?;
    Ok(write_record(alloc, steps, &record)?)
}

// Each row: a text, and the line and the kind of its first fault.
const ROWS: &[(&[u8], u32, u8)] = &[
    // no fault
    (b"record 1 1\ndone", 0, 0),
    (
        b"# a record\n\n record\t1  01000000 # steps\r\nthread 0\nthread 15\ndone\n\n# end\n",
        0,
        0,
    ),
    (b"record 1 5\nthread 2\nover halt\nover spent\ndone\n", 0, 0),
    // a byte that no line may have
    (b"record 1 1\n\x00\ndone\n", 2, 2),
    (b"record 1 1\ndone\n# \x7f\n", 3, 2),
    (b"record 1 1\ndone\r", 2, 2),
    // the header
    (b"record 2 1\ndone\n", 1, 30),
    (b"\n\nthread 0\ndone\n", 3, 30),
    (b"foo\n", 1, 30),
    (b"record 1\ndone\n", 1, 30),
    (b"record 1 0\ndone\n", 1, 30),
    (b"record 1 1000001\ndone\n", 1, 30),
    (b"record 1 1 1\ndone\n", 1, 30),
    (b"record 01 1\ndone\n", 1, 30),
    // the order of the lines
    (b"record 1 1\nrecord 1 1\ndone\n", 2, 31),
    (b"record 1 1\nover halt\ndone\n", 2, 31),
    (b"record 1 1\nsync\ndone\n", 2, 31),
    (b"record 1 1\nthread 1\nthread 1\ndone\n", 3, 31),
    (b"record 1 1\nthread 1\nthread 0 2\ndone\n", 3, 31),
    (b"record 1 1\ndone\ndone\n", 3, 31),
    (b"record 1 1\ndone\nfoo\n", 3, 31),
    // the words of the form
    (b"record 1 1\nfoo\ndone\n", 2, 4),
    (b"record 1 1\nabort x\ndone\n", 2, 4),
    (b"record 1 1\nthread 0\nover x\ndone\n", 3, 4),
    (b"record 1 1\nthread 0\nabort\ndone\n", 3, 5),
    (b"record 1 1\nover\ndone\n", 2, 5),
    // the number of words
    (b"record 1 1\nthread\ndone\n", 2, 5),
    (b"record 1 1\nthread x y\ndone\n", 2, 5),
    (b"record 1 1\nthread 0\nsync 0 begin 0\ndone\n", 3, 5),
    (b"record 1 1\nthread 0\nsync x vadd 0 0 0\ndone\n", 3, 5),
    (b"record 1 1\nthread 0\nover halt 1\ndone\n", 3, 5),
    (b"record 1 1\nthread 0\nover uncaught\ndone\n", 3, 5),
    (b"record 1 1\nthread 0\ntrim\ndone\n", 3, 5),
    (b"record 1 1\nthread 0\ndone 1\n", 3, 5),
    // numbers, and words that are none of those of their places
    (b"record 1 1\nthread 16\ndone\n", 2, 6),
    (b"record 1 1\nthread 3\nthread x\ndone\n", 3, 6),
    (
        b"record 1 1\nthread 0\nsync 9223372036854775808 end 0 0\ndone\n",
        3,
        6,
    ),
    (b"record 1 1\nthread 0\nsync 0 vadd 0 0\ndone\n", 3, 6),
    (b"record 1 1\nthread 0\nsync 0 begin 64 0\ndone\n", 3, 6),
    (b"record 1 1\nthread 0\nsync 0 end 1 0\ndone\n", 3, 6),
    (b"record 1 1\nthread 0\nsync 0 fork 1024 0\ndone\n", 3, 6),
    (b"record 1 1\nthread 0\nsync 0 fail 256 0\ndone\n", 3, 6),
    (
        b"record 1 1\nthread 0\nsync 0 print 0 9223372036854775808\ndone\n",
        3,
        6,
    ),
    (
        b"record 1 1\nthread 0\nplain 1024 0 rd 0 own ok\ndone\n",
        3,
        6,
    ),
    (b"record 1 1\nthread 0\nplain 0 0 rw 0 own ok\ndone\n", 3, 6),
    (
        b"record 1 1\nthread 0\nplain 0 0 rd 0 mine ok\ndone\n",
        3,
        6,
    ),
    (b"record 1 1\nthread 0\nover uncaught 256\ndone\n", 3, 6),
    (b"record 1 1\nthread 0\ntrim -1\ndone\n", 3, 6),
    (b"record 1 1\nthread 0\ncommit 0 x - w - n -\ndone\n", 3, 6),
    (
        b"record 1 1\nthread 0\ncommit 0 r 0:0 w - n -\ndone\n",
        3,
        6,
    ),
    (
        b"record 1 1\nthread 0\ncommit 0 r 1:0:0,0:0:0 w , n -\ndone\n",
        3,
        6,
    ),
    (
        b"record 1 1\nthread 0\nabort raised 1024 r - w - n 1:0,0:0\ndone\n",
        3,
        6,
    ),
    // lists
    (
        b"record 1 1\nthread 0\ncommit 0 r 1:0:0,0:0:0 w - n -\ndone\n",
        3,
        25,
    ),
    (
        b"record 1 1\nthread 0\ncommit 0 r - w 1:0,1:1 n -\ndone\n",
        3,
        25,
    ),
    (
        b"record 1 1\nthread 0\nabort raised 0 r - w - n 0:0,1:0,2:0,3:0,4:0,5:0,6:0,7:0,8:0,9:0,10:0,11:0,12:0,13:0,14:0,15:0,16:0\ndone\n",
        3,
        25,
    ),
    // ten looks and eight writes, of which one is of a look's variable: seventeen variables
    (
        b"record 1 1\nthread 0\ncommit 0 r 0:0:0,1:0:0,2:0:0,3:0:0,4:0:0,5:0:0,6:0:0,7:0:0,8:0:0,9:0:0 w 9:0,10:0,11:0,12:0,13:0,14:0,15:0,16:0 n -\ndone\n",
        3,
        25,
    ),
    // sixteen
    (
        b"record 1 1\nthread 0\ncommit 0 r 0:0:0,1:0:0,2:0:0,3:0:0,4:0:0,5:0:0,6:0:0,7:0:0,8:0:0,9:0:0 w 8:0,9:0,10:0,11:0,12:0,13:0,14:0,15:0 n -\ndone\n",
        0,
        0,
    ),
    // no end
    (b"", 0, 32),
    (b"# nothing\n\n", 0, 32),
    (b"record 1 1\nthread 0\n", 0, 32),
];

#[test]
fn first_faults(rt: HostRuntime) -> Result<(), Fail> {
    for (text, line, kind) in ROWS {
        assert_eq!(rt; fault_of(rt.alloc(), text, 1)?, (*line, *kind));
    }
    Ok(())
}

#[test]
fn lines_go_on(rt: HostRuntime) -> Result<(), Fail> {
    let text = b"record 1 1\nfoo\ndone\n";
    assert_eq!(rt; fault_of(rt.alloc(), text, 41)?, (42, 4));
    assert_eq!(rt; fault_of(rt.alloc(), b"record 1 1\n", 41)?, (0, 32));
    Ok(())
}

// The record of the program that prints 5.
const PRINTS: &[u8] =
    b"record 1 200000\nthread 0\nsync 0 begin 0 0\nsync 1 print 0 5\nsync 2 end 0 0\nover halt\ndone\n";

#[test]
fn program_that_prints(rt: HostRuntime) -> Result<(), Fail> {
    let mut record = Record::empty(rt.alloc());
    let acts = [(Act::Begin(0), 0), (Act::Print, 5), (Act::End, 0)];
    let mut at = 0;
    for (act, value) in acts {
        record
            .push(0, Entry::Sync { at, act, value })
            .map_err(|refused| refused.1)?;
        at = if at < 3 { at + 1 } else { 0 };
    }
    record
        .push(0, Entry::Over(Ending::Halt))
        .map_err(|refused| refused.1)?;
    let text = write_record(rt.alloc(), 200_000, &record)?;
    assert_eq!(rt; text.as_slice(), PRINTS);
    let again = text_again(rt.alloc(), PRINTS)?;
    assert_eq!(rt; again.as_slice(), PRINTS);
    Ok(())
}

#[test]
fn steps_and_entries_are_read(rt: HostRuntime) -> Result<(), Fail> {
    let (steps, record) = read_record(
        rt.alloc(),
        b"record 1 200000\nthread 3\nplain 7 2 wr -4 own race\ndone\n",
        1,
    )?;
    assert_eq!(rt; steps, 200_000);
    assert!(rt; record.thread(0).is_none());
    let entries = record.thread(3).ok_or("no list")?;
    assert_eq!(rt; entries.len(), 1);
    match &entries[0] {
        Entry::Plain {
            var,
            nth,
            cached,
            write,
            value,
            raised,
        } => {
            assert_eq!(rt; (*var, *nth, *value), (7, 2, -4));
            assert_eq!(rt; (*cached, *write, *raised), (false, true, true));
        }
        _ => assert!(rt; false),
    }
    Ok(())
}

// A transaction with a look, two writes and two numbers.
fn transaction(alloc: Global) -> Result<Box<Tx>, Fail> {
    let mut looks = Looks::empty();
    let _ = looks.put(Look {
        var: 3,
        value: -2,
        nth: 1,
    });
    let mut writes = Pairs::empty();
    let _ = writes.put(Pair {
        var: 1023,
        value: 9,
    });
    let _ = writes.put(Pair { var: 3, value: 6 });
    let mut numbers = Numbers::empty();
    let _ = numbers.put(Number { var: 3, nth: 2 });
    let _ = numbers.put(Number { var: 1023, nth: 0 });
    let tx = Tx {
        looks,
        writes,
        numbers,
    };
    Ok(Box::new(alloc, tx)?)
}

#[test]
fn transactions_are_written(rt: HostRuntime) -> Result<(), Fail> {
    let mut record = Record::empty(rt.alloc());
    let tx = transaction(rt.alloc())?;
    record
        .push(4, Entry::Commit { at: 1, tx })
        .map_err(|refused| refused.1)?;
    let tx = transaction(rt.alloc())?;
    let why = Why::Changed {
        var: 3,
        read: -2,
        found: 0,
    };
    record
        .push(4, Entry::Abort { tx, why })
        .map_err(|refused| refused.1)?;
    let text = write_record(rt.alloc(), 1, &record)?;
    let expected =
        b"record 1 1\nthread 4\ncommit 1 r 3:-2:1 w 3:6,1023:9 n 3:2,1023:0\nabort changed 3 -2 0 r 3:-2:1 w 3:6,1023:9 n 3:2,1023:0\ndone\n";
    assert_eq!(rt; text.as_slice(), expected.as_slice());
    Ok(())
}

// Each form of line, with the ends of its ranges.
const FORMS: &[u8] =
    b"record 1 1000000\nthread 0\nsync 9223372036854775807 begin 63 -9223372036854775808\nsync 1 acq 255 0\nsync 2 rel 0 0\nsync 3 vread 255 9223372036854775807\nsync 4 vwrite 1 -1\nsync 5 fork 1023 7\nsync 6 join 15 0\nsync 7 alloc 63 8\nsync 8 input 0 4\nsync 9 fail 255 2\nplain 1023 9223372036854775807 rd 0 own race\nplain 7 1 wr -5 cached ok\ncommit 10 r - w - n -\nabort raised 1023 r 0:5:0,3:-2:1 w 0:6,1023:9 n 0:1\ntrim 9223372036854775807\nover uncaught 255\nthread 15\nover spent\ndone\n";

#[test]
fn each_form_both_ways(rt: HostRuntime) -> Result<(), Fail> {
    let again = text_again(rt.alloc(), FORMS)?;
    assert_eq!(rt; again.as_slice(), FORMS);
    Ok(())
}
