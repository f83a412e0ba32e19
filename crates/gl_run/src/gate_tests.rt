// Runs whose threads a gate holds, so that they fall in one way.
use super::*;
use crate::tests::words;
use gl_io::{ReaderSource, WriterSink};
use gl_shortcut::Cuts;
use gl_threads::Gate;
use gl_threads::kinds::{COMMIT, JOIN, LOOK, PLAIN_READ, PLAIN_WRITE, TX_BEGIN};
use std::alloc::Global;
use std::sync::Wait;
use std::sync::atomic::{AtomicU64, Ordering};
use std::test::Fail;
use std::thread;
use std::thread::Threads;

// How often a gate looks before it gives up.
const MOST_LOOKS: u64 = 100_000_000;

// Whether the word came to be this number or more, before the gate gave up.
fn comes_to(word: &AtomicU64, number: u64) -> bool {
    for _ in 0..MOST_LOOKS {
        if number <= word.load(Ordering::SeqCst) {
            return true;
        }
        thread::yield_now();
    }
    false
}

// A thread and a kind of its asks: these are held until those of another came so often.
#[derive(Drop)]
struct Hold {
    held: (u8, u8),
    until: (u8, u8),
    times: u64,
    came: AtomicU64,
}

impl Hold {
    fn new(held: (u8, u8), times: u64, until: (u8, u8)) -> Hold {
        Hold {
            held,
            until,
            times,
            came: AtomicU64::new(0),
        }
    }
}

// A gate of holds. An ask counts where it is answered, or else where it comes to the gate.
#[derive(Drop)]
struct Staged<'a> {
    holds: &'a [Hold],
    counts_answers: bool,
    missed: AtomicU64,
}

impl<'a> Staged<'a> {
    fn new(holds: &'a [Hold], counts_answers: bool) -> Staged<'a> {
        Staged {
            holds,
            counts_answers,
            missed: AtomicU64::new(0),
        }
    }

    fn count(&self, thread: u8, kind: u8) {
        for hold in self.holds {
            if hold.until == (thread, kind) {
                hold.came.fetch_add(1, Ordering::SeqCst);
            }
        }
    }
}

impl<'a> Gate for Staged<'a> {
    fn before(&self, thread: u8, kind: u8) {
        if !self.counts_answers {
            self.count(thread, kind);
        }
        for hold in self.holds {
            if hold.held == (thread, kind) && !comes_to(&hold.came, hold.times) {
                self.missed.store(1, Ordering::SeqCst);
            }
        }
    }

    fn after(&self, thread: u8, kind: u8) {
        if self.counts_answers {
            self.count(thread, kind);
        }
    }
}

// Two threads add 1 to one field each, with nothing between them; an exception is printed.
const UNGUARDED: &str =
    "class C 1 0\nfunc main 0 3\n new C\n store 0\n load 0\n fork w\n store 1\n load 0\n fork w\n store 2\n\
     load 1\n join\n load 2\n join\n halt\n\
     func w 1 1\na:\n load 0\n load 0\n get 0\n push 1\n add\n put 0\nb:\n push 0\n ret\nh:\n print\n push 0\n ret\n catch a b h\n";

// Thread 1 writes 1 and 2 to field 0, and 7 to field 1 by a transaction; thread 2 reads both fields and writes 8 to field 1 by a
// transaction, and prints what it read of field 0.
const CHANGED: &str =
    "class D 2 0\nfunc main 0 3\n new D\n store 0\n load 0\n fork u\n store 1\n load 0\n fork t\n store 2\n\
     load 1\n join\n load 2\n join\n halt\n\
     func u 1 1\n load 0\n push 1\n put 0\n load 0\n push 2\n put 0\n txbegin\n load 0\n push 7\n put 1\n commit\n push 0\n ret\n\
     func t 1 2\n txbegin\n load 0\n get 0\n store 1\n load 0\n get 1\n pop\n load 0\n push 8\n put 1\n commit\n\
     load 1\n print\n push 0\n ret\n";

// A reader is forked before a field is written, and two threads enter and leave a monitor more often than the ring has cells.
const OLD_READER: &str =
    "class C 1 0\nfunc main 0 4\n new C\n store 0\n load 0\n fork r\n store 1\n load 0\n push 7\n put 0\n\
     load 0\n fork w\n store 2\n load 0\n fork w\n store 3\n load 2\n join\n load 3\n join\n load 1\n join\n halt\n\
     func r 1 1\na:\n load 0\n get 0\nb:\n print\n push 0\n ret\nh:\n print\n push 0\n ret\n catch a b h\n\
     func w 1 2\n push 2500\n store 1\nc:\n load 0\n enter\n load 0\n exit\n inc 1 -1\n load 1\n jnz c\n push 0\n ret\n";

// The program's run under the gate with four workers, which never gave up: its status, its report and its record.
fn ran<R: Threads + Wait + Sync>(
    rt: &R,
    alloc: Global,
    gate: &Staged<'_>,
    program: &str,
) -> Result<(u8, String), Fail> {
    let mut out = Vec::new(alloc);
    let answer = goldi_run(
        rt,
        alloc,
        &words(alloc, &["goldi", "run", "--workers=4", "--journal"])?,
        &mut ReaderSource::new(program.as_bytes()),
        &mut WriterSink::new(&mut out),
        &Cuts::none(),
        gate,
    );
    if gate.missed.load(Ordering::SeqCst) != 0 {
        return Err(Fail::from("the gate gave up"));
    }
    let text = String::from_utf8(out).map_err(|_| "no text")?;
    Ok((answer.status, text))
}

// Whether the text begins with the report and has these parts behind it, in this order.
fn says(text: &str, report: &str, parts: &[&str]) -> bool {
    let Some(mut left) = text.strip_prefix(report) else {
        return false;
    };
    for part in parts {
        match left.split_once(*part) {
            Some((_, behind)) => left = behind,
            None => return false,
        }
    }
    true
}

// The read that stands behind the other thread's write is the one that is raised.
#[test]
fn the_later_read_races(rt: HostRuntime) -> Result<(), Fail> {
    let holds = [Hold::new((2, PLAIN_READ), 1, (1, PLAIN_WRITE))];
    let gate = Staged::new(&holds, true);
    let (status, text) = ran(&rt, rt.alloc(), &gate, UNGUARDED)?;
    assert_eq!(rt; status, 6);
    let report = "out 1\nrace 2 0 read\nend 0 halt\nend 1 halt\nend 2 halt\nraces 1\nrecord ";
    assert_eq!(rt; says(&text, report, &[]), true);
    Ok(())
}

// What thread 1 keeps for itself is written back before its transaction begins: thread 2, which read the field before that, begins its
// own again.
#[test]
fn a_changed_look_begins_again(rt: HostRuntime) -> Result<(), Fail> {
    let holds = [
        Hold::new((2, LOOK), 2, (1, PLAIN_WRITE)),
        Hold::new((1, TX_BEGIN), 2, (2, LOOK)),
        Hold::new((2, COMMIT), 1, (1, COMMIT)),
    ];
    let gate = Staged::new(&holds, true);
    let (status, text) = ran(&rt, rt.alloc(), &gate, CHANGED)?;
    assert_eq!(rt; status, 0);
    let report = "out 2\nend 0 halt\nend 1 halt\nend 2 halt\nraces 0\nrecord ";
    let parts = [
        "\nthread 2\n",
        "\nabort changed 0 1 2 r 0:1:",
        "\ncommit ",
        " r 0:2:",
    ];
    assert_eq!(rt; says(&text, report, &parts), true);
    Ok(())
}

// A write that the ring no longer reaches back to still races with the read of a thread that was forked before it.
#[test]
fn a_late_read_of_an_old_thread_races(rt: HostRuntime) -> Result<(), Fail> {
    let holds = [Hold::new((1, PLAIN_READ), 2, (0, JOIN))];
    let gate = Staged::new(&holds, true);
    let (status, text) = ran(&rt, rt.alloc(), &gate, OLD_READER)?;
    assert_eq!(rt; status, 6);
    let report =
        "out 1\nrace 1 0 read\nend 0 halt\nend 1 halt\nend 2 halt\nend 3 halt\nraces 1\nrecord ";
    assert_eq!(rt; says(&text, report, &[]), true);
    Ok(())
}

// Two threads are in the midst of a read at one time: a body that runs one thread after another cannot come there. The record of that run
// is lawful.
#[test]
fn threads_run_side_by_side(rt: HostRuntime) -> Result<(), Fail> {
    let alloc = rt.alloc();
    let holds = [
        Hold::new((1, PLAIN_READ), 1, (2, PLAIN_READ)),
        Hold::new((2, PLAIN_READ), 1, (1, PLAIN_READ)),
    ];
    let gate = Staged::new(&holds, false);
    let (status, text) = ran(&rt, alloc, &gate, UNGUARDED)?;
    assert_eq!(rt; status, 6);
    let (_, record) = text.split_once("\nrecord ").ok_or("no record")?;
    let input = format!(in alloc; "{UNGUARDED}record {record}")?;
    let mut out = Vec::new(alloc);
    let answer = goldi_text(
        alloc,
        &words(alloc, &["goldi", "audit"])?,
        &mut ReaderSource::new(input.as_bytes()),
        &mut WriterSink::new(&mut out),
        &Cuts::none(),
    );
    assert_eq!(rt; answer.status, 0);
    assert_eq!(rt; &out[..], "lawful\n".as_bytes());
    Ok(())
}
