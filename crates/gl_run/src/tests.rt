use super::*;
use gl_io::{MemorySink, MemorySource, ReaderSource, WriterSink};
use gl_shortcut::Cuts;
use gl_threads::Open;
use std::alloc::Global;
use std::io;
use std::sync::Wait;
use std::test::Fail;
use std::thread::Threads;

// The words of a command line.
pub(crate) fn words(alloc: Global, given: &[&str]) -> Result<Vec<String>, Fail> {
    let mut words = Vec::new(alloc);
    for word in given {
        words.push(String::from_str(alloc, word)?)?;
    }
    Ok(words)
}

const CHECK: &[&str] = &["goldi", "check"];

const LIST: &[&str] = &["goldi", "list"];

const AUDIT: &[&str] = &["goldi", "audit"];

// A command over a source of 8 bytes a call and a sink of 4 bytes a call, which fail at these calls: the status, and
// whether these bytes were written.
fn checked<R: Threads + Wait + Sync>(
    rt: &R,
    alloc: Global,
    command: &[&str],
    input: &str,
    source_fails: &[u64],
    sink_fails: &[u64],
    written: &[u8],
) -> Result<(u8, bool), Fail> {
    let bytes = input.as_bytes().to_vec(alloc)?;
    let mut source = MemorySource::new(bytes, source_fails.to_vec(alloc)?, 8);
    let mut sink = match MemorySink::new(alloc, 200, sink_fails.to_vec(alloc)?, 4) {
        Ok(sink) => sink,
        Err((_, refused)) => return Err(Fail::from(refused)),
    };
    let words = words(alloc, command)?;
    let answer = goldi(
        rt,
        alloc,
        &words,
        &mut source,
        &mut sink,
        &Cuts::none(),
        &Open {},
    );
    Ok((answer.status, sink.written() == written))
}

// Each row: the trace, the status, and what is written.
#[test]
fn traces(rt: HostRuntime) -> Result<(), Fail> {
    let rows: [(&str, u8, &str); 18] = [
        ("", 0, "races 0\n"),
        ("0 fork 1\n0 wr 1\n1 rd 1\n", 6, "2 ok\n3 race\nraces 1\n"),
        ("0 wr 1\n0 fork 1\n1 rd 1\n", 0, "1 ok\n3 ok\nraces 0\n"),
        (
            "0 fork 1\n0 acq 0\n0 wr 7\n0 rel 0\n1 acq 0\n1 acq 1\n1 rel 0\n1 wr 7\n1 rel 1\n0 acq 1\n0 rd 7\n",
            0,
            "3 ok\n8 ok\n11 ok\nraces 0\n",
        ),
        (
            "0 fork 1\n0 fork 2\n0 wr 4\n1 wr 4\n0 acq 0\n0 rel 0\n2 acq 0\n2 rd 4\n",
            6,
            "3 ok\n4 race\n8 ok\nraces 1\n",
        ),
        ("0 fork 1\n0 acq 0\n1 acq 0\n", 4, "refused 3 20\n"),
        ("0 acq 0\n0 acq 0\n0 rel 0\n0 rel 0\n", 0, "races 0\n"),
        ("0 ac", 4, "refused 1 4\n"),
        ("0 vw 0", 0, "races 0\n"),
        (
            "0 fork 1\n1 wr 3\n0 join 1\n0 rd 3\n",
            0,
            "2 ok\n4 ok\nraces 0\n",
        ),
        (
            "0 fork 1\n1 wr 3\n0 join 1\n0 rd 3\n1 rd 3\n",
            4,
            "refused 5 22\n",
        ),
        (
            "0 fork 1\n0 wr 2\n0 vw 0\n1 vw 0\n1 rd 2\n",
            6,
            "2 ok\n5 race\nraces 1\n",
        ),
        (
            "0 fork 1\n0 fork 2\n2 rd 3\n1 rd 3\n1 vw 0\n0 vr 0\n0 wr 3\n",
            6,
            "3 ok\n4 ok\n7 race\nraces 1\n",
        ),
        (
            "0 fork 1\n0 wr 5\n0 commit r - w 2\n1 commit r 2 w 5\n",
            0,
            "2 ok\n3 ok\n4 ok\nraces 0\n",
        ),
        (
            "0 fork 1\n0 wr 5\n0 commit r - w 2\n1 commit r 3 w 5\n",
            6,
            "2 ok\n3 ok\n4 race\nraces 1\n",
        ),
        ("0 commit r 2,1 w -", 4, "refused 1 25\n"),
        ("0 join 0", 4, "refused 1 24\n"),
        ("0 zz 1", 4, "refused 1 4\n"),
    ];
    for (input, status, written) in rows {
        assert_eq!(rt;
            checked(&rt, rt.alloc(), CHECK, input, &[], &[], written.as_bytes())?,
            (status, true),
            "at {input}"
        );
    }
    Ok(())
}

// Each row: the program, the status, and what `list` writes.
#[test]
fn programs(rt: HostRuntime) -> Result<(), Fail> {
    let one = "func main 0 0\n  push 5\n  print\n  halt\n";
    let rows: [(&str, u8, &str); 3] = [
        (one, 0, one),
        ("func main 0 0", 4, "refused 1 46\n"),
        ("", 4, "refused 0 48\n"),
    ];
    for (input, status, written) in rows {
        assert_eq!(rt;
            checked(&rt, rt.alloc(), LIST, input, &[], &[], written.as_bytes())?,
            (status, true),
            "at {input}"
        );
    }
    Ok(())
}

// Each row: the program, the record, the status, and what `audit` writes.
#[test]
fn audits(rt: HostRuntime) -> Result<(), Fail> {
    let one = "func main 0 0\n  push 5\n  print\n  halt\n";
    let rows: [(&str, &str, u8, &str); 9] = [
        (
            one,
            "record 1 200000\nthread 0\nsync 0 begin 0 0\nsync 1 print 0 5\nsync 2 end 0 0\nover halt\ndone\n",
            0,
            "lawful\n",
        ),
        (
            one,
            "record 1 200000\nthread 0\nsync 0 begin 0 0\nsync 1 print 0 6\nsync 2 end 0 0\nover halt\ndone\n",
            8,
            "not 0 1 7\n",
        ),
        (
            one,
            "record 1 200000\nthread 0\nsync 0 begin 0 0\nsync 1 print 0 5\nsync 3 end 0 0\nover halt\ndone\n",
            8,
            "not 0 2 2\n",
        ),
        (one, "record 1 200000\ndone\n", 8, "not 0 0 1\n"),
        (
            one,
            "record 1 200000\nthread 16\ndone\n",
            4,
            "refused 6 6\n",
        ),
        (one, "record 1 200000\nthread 0\n", 4, "refused 0 32\n"),
        (
            "func main 0 0\n  stop\n",
            "record 1 200000\nthread 16\ndone\n",
            4,
            "refused 2 4\n",
        ),
        ("", "record 1 200000\ndone\n", 4, "refused 0 48\n"),
        ("", "", 4, "refused 0 48\n"),
    ];
    for (program, record, status, written) in rows {
        let mut input = String::from_str(rt.alloc(), program)?;
        input.push_str(record)?;
        assert_eq!(rt;
            checked(&rt, rt.alloc(), AUDIT, &input, &[], &[], written.as_bytes())?,
            (status, true),
            "at {input}"
        );
    }
    Ok(())
}

// A write that fails takes the place of the status, and a beginning of the line was written.
#[test]
fn a_finding_is_cut(rt: HostRuntime) -> Result<(), Fail> {
    let input = "func main 0 0\nhalt\nrecord 1 5\ndone\n";
    assert_eq!(rt;
        checked(&rt, rt.alloc(), AUDIT, input, &[], &[2], b"not ")?,
        (3, true)
    );
    assert_eq!(rt;
        checked(&rt, rt.alloc(), AUDIT, input, &[1], &[], b"")?,
        (2, true)
    );
    assert_eq!(rt;
        checked(
            &rt,
            rt.alloc(),
            &["goldi", "audit", "x"],
            input,
            &[1],
            &[],
            b"usage: goldi check|list|run|load|audit\n"
        )?,
        (1, true)
    );
    Ok(())
}

// A thread that is forked with 7 prints it.
const FORKS: &str =
    "func main 0 0\n push 7\n fork f\n join\n halt\nfunc f 1 1\n load 0\n print\n push 0\n ret\n";

// Each row: the words, the program, the status, and what `run` writes.
#[test]
fn runs(rt: HostRuntime) -> Result<(), Fail> {
    let one = "func main 0 0\n  push 5\n  print\n  halt\n";
    let two = "func main 0 0\npush 1\nprint\npush 2\nprint\nhalt\n";
    let rows: [(&[&str], &str, u8, &str); 8] = [
        (&["goldi", "run"], one, 0, "out 5\nend 0 halt\nraces 0\n"),
        (
            &["goldi", "run", "--journal", "--steps", "7"],
            one,
            0,
            "out 5\nend 0 halt\nraces 0\nrecord 1 7\nthread 0\nsync 0 begin 0 0\nsync 1 print 0 5\nsync 2 end 0 0\nover halt\ndone\n",
        ),
        (
            &["goldi", "run", "--steps=3"],
            one,
            0,
            "out 5\nend 0 halt\nraces 0\n",
        ),
        (
            &["goldi", "run", "--steps", "3"],
            two,
            7,
            "out 1\nend 0 spent\nraces 0\n",
        ),
        (
            &["goldi", "run", "--steps", "0"],
            one,
            1,
            "usage: goldi check|list|run|load|audit\n",
        ),
        (
            &["goldi", "run"],
            "func main 0 0\ninput\nprint\nhalt\ninput 41\n",
            0,
            "out 41\nend 0 halt\nraces 0\n",
        ),
        (
            &[
                "goldi",
                "run",
                "--workers=16",
                "--segments",
                "2",
                "--cells",
                "4",
            ],
            FORKS,
            0,
            "out 7\nend 0 halt\nend 1 halt\nraces 0\n",
        ),
        (
            &["goldi", "run", "--steps=5", "--workers", "2"],
            "func main 0 0\ntxbegin\ncommit\npush 3\nprint\nhalt\n",
            0,
            "out 3\nend 0 halt\nraces 0\n",
        ),
    ];
    for (given, input, status, written) in rows {
        assert_eq!(rt;
            checked(&rt, rt.alloc(), given, input, &[], &[], written.as_bytes())?,
            (status, true),
            "at {input}"
        );
    }
    Ok(())
}

// Each row: the options of a run, and the status. The text is refused, so nothing is run.
#[test]
fn options(rt: HostRuntime) -> Result<(), Fail> {
    let rows: [(&[&str], u8); 26] = [
        (&["goldi", "run"], 4),
        (&["goldi", "run", "--workers", "1"], 4),
        (&["goldi", "run", "--workers=16", "--steps=1000000"], 4),
        (&["goldi", "run", "--cells", "4", "--segments=2"], 4),
        (
            &[
                "goldi",
                "run",
                "--segments=64",
                "--cells=64",
                "--steps",
                "1",
                "--workers",
                "0004",
            ],
            4,
        ),
        (&["goldi", "run", "--workers", "0"], 1),
        (&["goldi", "run", "--workers", "17"], 1),
        (&["goldi", "run", "--steps=1000001"], 1),
        (&["goldi", "run", "--segments=1"], 1),
        (&["goldi", "run", "--cells=65"], 1),
        (&["goldi", "run", "--workers", "2", "--workers", "2"], 1),
        (&["goldi", "run", "--workers", "2", "--steps"], 1),
        (&["goldi", "run", "--"], 1),
        (&["goldi", "run", "--", "--steps", "2"], 1),
        (&["goldi", "run", "--workers", "00000004"], 1),
        (&["goldi", "list", "--workers", "2"], 1),
        (&["goldi", "run", "--size", "3"], 1),
        (&["goldi", "run", "--journal"], 4),
        (
            &["goldi", "run", "--workers", "2", "--journal", "--steps=3"],
            4,
        ),
        (&["goldi", "run", "--journal", "--journal"], 1),
        (&["goldi", "run", "--journal", "1"], 1),
        (&["goldi", "run", "--journal=1"], 1),
        (&["goldi", "run", "--workers", "--journal"], 1),
        (&["goldi", "load", "--size", "3", "--journal"], 1),
        (&["goldi", "load", "--size", "3", "--steps=2"], 1),
        (&["goldi", "load", "--size=10001"], 1),
    ];
    for (given, status) in rows {
        let (came, _) = checked(&rt, rt.alloc(), given, "halt\n", &[], &[], &[])?;
        assert_eq!(rt; came, status);
    }
    Ok(())
}

// Each row: the options of a load, the calls at which the sink fails, the status, and what is written. The source fails at its first call,
// which is never made.
#[test]
fn loads(rt: HostRuntime) -> Result<(), Fail> {
    let rows: [(&[&str], &[u64], u8, &str); 4] = [
        (
            &["goldi", "load", "--size", "1"],
            &[],
            0,
            "total 8000\ncommits 8\nraces 0\n",
        ),
        (
            &["goldi", "load", "--workers=2", "--size=3"],
            &[],
            0,
            "total 8000\ncommits 24\nraces 0\n",
        ),
        (&["goldi", "load", "--size=1"], &[3], 3, "total 80"),
        (
            &["goldi", "load", "--size", "0"],
            &[],
            1,
            "usage: goldi check|list|run|load|audit\n",
        ),
    ];
    for (given, fails, status, written) in rows {
        assert_eq!(rt;
            checked(
                &rt,
                rt.alloc(),
                given,
                "0 rd 1\n",
                &[1],
                fails,
                written.as_bytes()
            )?,
            (status, true),
            "at {written}"
        );
    }
    Ok(())
}

// `goldi_run` serves a load and keeps its table; to `goldi_text` it is no command.
#[test]
fn loads_are_kept(rt: HostRuntime) -> Result<(), Fail> {
    let alloc = rt.alloc();
    let words = words(alloc, &["goldi", "load", "--size", "2"])?;
    let mut out = Vec::new(alloc);
    let answer = goldi_run(
        &rt,
        alloc,
        &words,
        &mut ReaderSource::new("".as_bytes()),
        &mut WriterSink::new(&mut out),
        &Cuts::none(),
        &Open {},
    );
    assert_eq!(rt; answer.status, 0);
    assert_eq!(rt; matches!(answer.kept, Some(Kept::Run(_))), true);
    assert_eq!(rt; &out[..], "total 8000\ncommits 16\nraces 0\n".as_bytes());
    let answer = goldi_text(
        alloc,
        &words,
        &mut ReaderSource::new("".as_bytes()),
        &mut WriterSink::new(&mut out),
        &Cuts::none(),
    );
    assert_eq!(rt; answer.status, 1);
    assert_eq!(rt; answer.kept.is_some(), false);
    Ok(())
}

// The source and the sink fail at each call in turn.
#[test]
fn faults(rt: HostRuntime) -> Result<(), Fail> {
    let input = "0 wr 1\n0 fork 1\n1 rd 1\n";
    let written = "1 ok\n3 ok\nraces 0\n".as_bytes();
    for call in 1..=4 {
        assert_eq!(rt;
            checked(&rt, rt.alloc(), CHECK, input, &[call], &[], &[])?,
            (2, true)
        );
    }
    assert_eq!(rt;
        checked(&rt, rt.alloc(), CHECK, input, &[5], &[], written)?,
        (0, true)
    );
    for call in 1..=5 {
        let part = &written[..4 * (call as usize - 1)];
        assert_eq!(rt;
            checked(&rt, rt.alloc(), CHECK, input, &[], &[call], part)?,
            (3, true)
        );
    }
    assert_eq!(rt;
        checked(&rt, rt.alloc(), CHECK, input, &[], &[6], written)?,
        (0, true)
    );
    Ok(())
}

// A writer whose flush fails.
#[derive(Drop)]
struct Unflushed;

impl io::Write for Unflushed {
    fn write(&mut self, buf: &[u8]) -> io::Result<usize> {
        Ok(buf.len())
    }

    fn flush(&mut self) -> io::Result<()> {
        Err(io::Error::from(io::ErrorKind::Other))
    }
}

// Readers and writers of std.
#[test]
fn adapters(rt: HostRuntime) -> Result<(), Fail> {
    let alloc = rt.alloc();
    let words = words(alloc, CHECK)?;
    let input = "0 wr 1\n".as_bytes();
    let mut out = Vec::new(alloc);
    let answer = goldi_text(
        alloc,
        &words,
        &mut ReaderSource::new(input),
        &mut WriterSink::new(&mut out),
        &Cuts::none(),
    );
    assert_eq!(rt; answer.status, 0);
    assert_eq!(rt; answer.kept.is_some(), true);
    assert_eq!(rt; &out[..], "1 ok\nraces 0\n".as_bytes());
    let mut alone = Vec::new(alloc);
    let answer = goldi_without_trace(
        &rt,
        alloc,
        &words,
        &mut ReaderSource::new(input),
        &mut WriterSink::new(&mut alone),
        &Cuts::none(),
        &Open {},
    );
    assert_eq!(rt; answer.status, 0);
    assert_eq!(rt; answer.kept.is_some(), false);
    assert_eq!(rt; &alone[..], &out[..]);
    let mut narrow = [0u8; 3];
    let answer = goldi_text(
        alloc,
        &words,
        &mut ReaderSource::new(input),
        &mut WriterSink::new(&mut narrow[..]),
        &Cuts::none(),
    );
    assert_eq!(rt; answer.status, 3);
    assert_eq!(rt; &narrow[..], "1 o".as_bytes());
    let answer = goldi_text(
        alloc,
        &words,
        &mut ReaderSource::new(input),
        &mut WriterSink::new(Unflushed),
        &Cuts::none(),
    );
    assert_eq!(rt; answer.status, 3);
    Ok(())
}

// A writer that takes one byte a call. What it was given goes on to what stands behind it at a flush, which can fail.
#[derive(Drop)]
struct Narrow {
    given: Vec<u8>,
    behind: Vec<u8>,
    fails: bool,
}

impl Narrow {
    fn new(alloc: Global, fails: bool) -> Narrow {
        Narrow {
            given: Vec::new(alloc),
            behind: Vec::new(alloc),
            fails,
        }
    }
}

impl io::Write for Narrow {
    fn write(&mut self, buf: &[u8]) -> io::Result<usize> {
        match buf.first() {
            Some(byte) => match self.given.push(*byte) {
                Ok(()) => Ok(1),
                Err(_) => Err(io::Error::from(io::ErrorKind::OutOfMemory)),
            },
            None => Ok(0),
        }
    }

    fn flush(&mut self) -> io::Result<()> {
        if self.fails {
            return Err(io::Error::from(io::ErrorKind::Other));
        }
        match self.behind.extend_from_slice(&self.given) {
            Ok(()) => {
                self.given.clear();
                Ok(())
            }
            Err(_) => Err(io::Error::from(io::ErrorKind::OutOfMemory)),
        }
    }
}

// What stands behind a writer has all bytes where each flush is good, and none where the first fails. `goldi_run` serves a run.
#[test]
fn narrow_writers(rt: HostRuntime) -> Result<(), Fail> {
    let alloc = rt.alloc();
    let words = words(alloc, &["goldi", "run"])?;
    let program = "func main 0 0\n  push 5\n  print\n  halt\n".as_bytes();
    let mut writer = Narrow::new(alloc, false);
    let answer = goldi_run(
        &rt,
        alloc,
        &words,
        &mut ReaderSource::new(program),
        &mut WriterSink::new(&mut writer),
        &Cuts::none(),
        &Open {},
    );
    assert_eq!(rt; answer.status, 0);
    assert_eq!(rt; answer.kept.is_some(), true);
    assert_eq!(rt;
        &writer.behind[..],
        "out 5\nend 0 halt\nraces 0\n".as_bytes()
    );
    let mut writer = Narrow::new(alloc, true);
    let answer = goldi_run(
        &rt,
        alloc,
        &words,
        &mut ReaderSource::new(program),
        &mut WriterSink::new(&mut writer),
        &Cuts::none(),
        &Open {},
    );
    assert_eq!(rt; answer.status, 3);
    assert_eq!(rt; writer.behind.len(), 0);
    Ok(())
}
