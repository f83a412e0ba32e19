// What is read, answered and written.
ghost use Rattle.std.specs.Prelude.{◌≡◌, IfOk};
ghost use Rattle.goldi_explain.specs.Answers.{IsAnswered, most_of};
ghost use Rattle.goldi_explain.specs.Serving.{IsPageOf, Serves, Stops};

use crate::words::Form;
use gl_audited::AUDIT_BYTES;
use gl_explain::{Page, explain_text, refused};
use gl_io::{ReadStop, Sink, Source, read_all, write_all};
use gl_pages::explain_run;
use gl_picture::picture_page;
use gl_shortcut::Cuts;
use gl_text::kinds::TOO_LONG;
use gl_trace::TRACE_BYTES;
use std::alloc::{AllocError, Global};

/// The status where a read failed.
pub const READ_FAILED: u8 = 2;

/// The status where a write failed.
pub const WRITE_FAILED: u8 = 3;

/// The status where memory ran out.
pub const NO_MEMORY: u8 = 5;

/// Why nothing is written.
#[derive(Clone, Copy)]
pub enum Stop {
    /// A read failed.
    Read,
    /// Memory ran out.
    Memory,
}

// The most bytes that are read.
fn most_of(form: Form) -> usize
    ensures { result ≡ most_of form }
{
    match form {
        Form::Text | Form::Picture => TRACE_BYTES,
        Form::Run => AUDIT_BYTES,
    }
}

// What the text is answered.
fn answer(alloc: Global, input: &[u8], form: Form) -> Result<Page, AllocError>
    ensures { IfOk result (λ p. IsAnswered form input.now p.status p.text.items) }
{
    match form {
        Form::Text => explain_text(alloc, input, &Cuts::none()),
        Form::Picture => picture_page(alloc, input, &Cuts::none()),
        Form::Run => explain_run(alloc, input),
    }
}

// The page of what is read, or why there is none.
fn page<S: Source>(alloc: Global, source: &mut S, form: Form) -> Result<Page, Stop>
    ensures page { IfOk result (λ p. IsPageOf form (S.left source.old) p.status p.text.items) }
    ensures stops { Stops (S.faults source.old) (S.faults source.new) result }
{
    match read_all(alloc, source, most_of(form)) {
        Ok(input) => match answer(alloc, &input, form) {
            Ok(page) => Ok(page),
            Err(_) => Err(Stop::Memory),
        },
        Err(ReadStop::TooLong) => match refused(alloc, 0, TOO_LONG) {
            Ok(page) => Ok(page),
            Err(_) => Err(Stop::Memory),
        },
        Err(ReadStop::Fault) => Err(Stop::Read),
        Err(ReadStop::Memory(_)) => Err(Stop::Memory),
    }
}

/// Reads a text, and writes what it is answered. The status is that of the page, or says what failed.
pub fn explain<S: Source, K: Sink>(alloc: Global, form: Form, source: &mut S, sink: &mut K) -> u8
    ensures { Serves form (S.left source.old) (S.faults source.old) (S.faults source.new) result (K.faults sink.old) (K.faults sink.new) (K.written sink.old) (K.written sink.new) }
{
    match page(alloc, source, form) {
        Ok(Page { status, text }) => match write_all(sink, &text) {
            Ok(()) => status,
            Err(_) => WRITE_FAILED,
        },
        Err(Stop::Read) => READ_FAILED,
        Err(Stop::Memory) => NO_MEMORY,
    }
}
