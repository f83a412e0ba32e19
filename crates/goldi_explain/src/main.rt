//! The program: why each race of the trace on standard input is one, or a picture round the first, or why each race of a run is one.
#![tactic(auto)]

mod serving;
mod words;

use crate::serving::{WRITE_FAILED, explain};
use crate::words::asked_form;
use gl_io::{ReaderSource, WriterSink, write_all};
use std::process::ExitCode;

// What is said of other words.
const USAGE: &[u8] = b"usage: explain [--picture] < TRACE, or explain --run < PROGRAM_AND_RECORD\n";

// The status of other words.
const NO_FORM: u8 = 1;

// The statuses are those of `goldi check`, and of a run those of `goldi audit`: 1 for other words, 2 where a read failed, 3 where a write
// failed, 4 for bad input, 5 where memory ran out, 6 where there is a race, 8 where the record of a run is not lawful, else 0.
fn main(rt: HostRuntime) -> ExitCode {
    let mut sink = WriterSink::new(rt.stdout());
    let mut source = ReaderSource::new(rt.stdin());
    match asked_form(&rt) {
        Some(form) => ExitCode::from(explain(rt.alloc(), form, &mut source, &mut sink)),
        None => match write_all(&mut sink, USAGE) {
            Ok(()) => ExitCode::from(NO_FORM),
            Err(_) => ExitCode::from(WRITE_FAILED),
        },
    }
}
