// A whole record text, line by line.
ghost use Rattle.std.specs.Prelude.{◌≡◌, ◌+◌, ◌<◌, ◌≤◌, ◌^◌, length, IfOk, IfErr, IfSome, OnOk, Ok, Some, None, true};
ghost use Rattle.std.specs.Str.Lines.{lines};
ghost use Rattle.gl_text.specs.Text.{words};
ghost use Rattle.gl_model.specs.Entries.{seen};
ghost use Rattle.gl_model.specs.Kept.{IsEntryInRange};
ghost use Rattle.gl_model.specs.declared.limits.TheConstants.{THREADS};
ghost use Rattle.gl_journal.specs.Refused.{Refused};
ghost use Rattle.gl_journal.specs.Meaning.{steps_in, header_in, nothing, is_next, thread_in, may_stand, with_entry, form_read, body_read, some_read, line_read, outcome, said, AreClean, refused_at, FaultsFirst, IsRecordText, TellsFirst};

use crate::entries::entry_in;
use crate::fields::{has_words, natural_in, none_of, told};
use crate::forms::{Form, form_of, operands_of};
use crate::limits::{LEAST_STEPS, MOST_STEPS};
use crate::refusal::Refusal;
use gl_model::{Entry, Record, THREADS};
use gl_text::kinds::{BAD_BYTE, BAD_HEADER, BAD_ORDER, NO_DONE, WORD_COUNT};
use gl_text::{Line, Lines, TextError, TextFault, Words};
use std::alloc::{AllocError, Global};

/// What the lines of a record text have said so far.
#[derive(Drop)]
pub struct Standing {
    // The number of steps, once the header was read.
    steps: Option<u32>,
    // The thread of the last thread line.
    thread: Option<u8>,
    // The entries of each thread.
    lists: Record,
    // Whether the last line was read.
    done: bool,
}

// A number of steps.
fn steps_in(word: &[u8]) -> Result<u32, u8>
    ensures { result ≡ steps_in word.now }
{
    match natural_in(u64::from(MOST_STEPS), word) {
        Ok(n) => {
            if n < u64::from(LEAST_STEPS) {
                return Err(BAD_HEADER);
            }
            Ok(n as u32)
        }
        Err(_) => Err(BAD_HEADER),
    }
}

// The number of steps that a header gives.
#[tactic(auto, unfolding(crate::specs::Meaning::header_in))]
fn header_in(mut words: Words<'_>) -> Result<u32, u8>
    ensures { result ≡ header_in words.entry }
{
    told(BAD_HEADER, b"record", words.next().ok_or(BAD_HEADER)?)?;
    told(BAD_HEADER, b"1", words.next().ok_or(BAD_HEADER)?)?;
    let steps = steps_in(words.next().ok_or(BAD_HEADER)?)?;
    none_of(BAD_HEADER, words)?;
    Ok(steps)
}

// The number of a thread.
fn thread_in(mut words: Words<'_>) -> Result<u8, u8>
    ensures value { result ≡ thread_in words.entry }
    ensures bound { IfOk result (λ t. t < THREADS) }
{
    let thread = natural_in(u64::from(THREADS - 1), words.next().ok_or(WORD_COUNT)?)?;
    Ok(thread as u8)
}

// Whether a thread is above the last one.
fn is_next(last: Option<u8>, number: Result<u8, u8>) -> bool
    ensures { result ≡ is_next last number }
{
    match (last, number) {
        (None, _) => true,
        (Some(last), Ok(next)) => last < next,
        (Some(_), Err(_)) => true,
    }
}

impl Standing {
    // Nothing was said yet.
    fn new(alloc: Global) -> Standing
        ensures { result ≡ nothing }
    {
        Standing {
            steps: None,
            thread: None,
            lists: Record::empty(alloc),
            done: false,
        }
    }

    // Whether a line of this form may stand here.
    fn may_stand(&self, form: Form, operands: Words<'_>) -> bool
        ensures { result ≡ may_stand self.now form operands.entry }
    {
        match form {
            Form::Header => false,
            Form::Thread => is_next(self.thread, thread_in(operands)),
            Form::Entry(_) => self.thread.is_some(),
            Form::Done => true,
        }
    }

    // Puts an entry behind those of the last thread.
    fn put(&mut self, entry: Entry) -> Result<(), AllocError>
        requires thread { IfSome self.old.thread (λ t. t < THREADS) }
        requires entry { IsEntryInRange (seen entry) }
        ensures { OnOk result (self.new ≡ with_entry self.old self.old.thread (seen entry)) }
    {
        if let Some(thread) = self.thread {
            self.lists.push(thread, entry).map_err(|refused| refused.1)?;
        }
        Ok(())
    }

    // Reads a line of this form, by its operands.
    fn read_form(&mut self, alloc: Global, form: Form, operands: Words<'_>) -> Result<(), Refusal>
        requires { IfSome self.old.thread (λ t. t < THREADS) }
        ensures ok { OnOk result (form_read self.old form operands.entry ≡ Ok self.new) }
        ensures fault { IfErr result (Refused (form_read self.old form operands.entry)) }
        ensures thread { OnOk result (IfSome self.new.thread (λ t. t < THREADS)) }
    {
        match form {
            Form::Header => return Err(Refusal::Kind(BAD_ORDER)),
            Form::Thread => self.thread = Some(thread_in(operands)?),
            Form::Entry(form) => {
                let entry = entry_in(alloc, form, operands)?;
                self.put(entry)?;
            }
            Form::Done => self.done = true,
        }
        Ok(())
    }

    // Reads a line behind the header.
    fn read_body(&mut self, alloc: Global, line: &Line<'_>) -> Result<(), Refusal>
        requires { IfSome self.old.thread (λ t. t < THREADS) }
        ensures ok { OnOk result (body_read self.old (words line.now.text) ≡ Ok self.new) }
        ensures fault { IfErr result (Refused (body_read self.old (words line.now.text))) }
        ensures thread { OnOk result (IfSome self.new.thread (λ t. t < THREADS)) }
    {
        if self.done {
            return Err(Refusal::Kind(BAD_ORDER));
        }
        let form = form_of(line.words())?;
        if !self.may_stand(form, operands_of(form, line.words())) {
            return Err(Refusal::Kind(BAD_ORDER));
        }
        if !has_words(line, form.count()) {
            return Err(Refusal::Kind(WORD_COUNT));
        }
        self.read_form(alloc, form, operands_of(form, line.words()))
    }

    // Reads a line that has words.
    fn read_words(&mut self, alloc: Global, line: &Line<'_>) -> Result<(), Refusal>
        requires { IfSome self.old.thread (λ t. t < THREADS) }
        ensures ok { OnOk result (some_read self.old self.old.steps (words line.now.text) ≡ Ok self.new) }
        ensures fault { IfErr result (Refused (some_read self.old self.old.steps (words line.now.text))) }
        ensures thread { OnOk result (IfSome self.new.thread (λ t. t < THREADS)) }
    {
        match self.steps {
            None => {
                self.steps = Some(header_in(line.words())?);
                Ok(())
            }
            Some(_) => self.read_body(alloc, line),
        }
    }

    // Reads a line.
    #[tactic(auto, unfolding(crate::specs::Meaning::line_read))]
    fn read_line(&mut self, alloc: Global, line: &Line<'_>) -> Result<(), Refusal>
        requires { IfSome self.old.thread (λ t. t < THREADS) }
        ensures ok { OnOk result (line_read self.old line.now.text ≡ Ok self.new) }
        ensures fault { IfErr result (Refused (line_read self.old line.now.text)) }
        ensures thread { OnOk result (IfSome self.new.thread (λ t. t < THREADS)) }
    {
        if line.bad() {
            return Err(Refusal::Kind(BAD_BYTE));
        }
        match line.words().next() {
            None => Ok(()),
            Some(_) => self.read_words(alloc, line),
        }
    }

    // What was said in all: the number of steps and the record, where there is a header and an end.
    fn outcome(self) -> Option<(u32, Record)>
        ensures { result ≡ outcome self }
    {
        match (self.steps, self.done) {
            (Some(steps), true) => Some((steps, self.lists)),
            _ => None,
        }
    }
}

// The error of a line that is refused.
fn refused_at(line: u32, refusal: Refusal) -> TextError
    ensures { result ≡ refused_at line refusal }
{
    match refusal {
        Refusal::Kind(kind) => TextError::Fault(TextFault { line, kind }),
        Refusal::Memory(error) => TextError::Memory(error),
    }
}

// What the lines of a text say, or the first fault of a line.
fn read_lines(alloc: Global, bytes: &[u8], first_line: u32) -> Result<Standing, TextError>
    requires first { 1 ≤ first_line }
    requires last { first_line + length bytes.now < 2 ^ 32 }
    ensures ok { IfOk result (λ standing. standing ≡ said (lines bytes.now)) }
    ensures clean { OnOk result (AreClean (lines bytes.now)) }
    ensures fault { IfErr result (FaultsFirst (lines bytes.now) first_line) }
{
    let mut standing = Standing::new(alloc);
    let mut lines = Lines::new(bytes);
    while let Some(line) = lines.next_line() {
        match standing.read_line(alloc, &line) {
            Ok(()) => {}
            Err(refusal) => return Err(refused_at(first_line + (line.number() - 1), refusal)),
        }
    }
    Ok(standing)
}

/// The number of steps and the record that a record text means, or its first fault: that of the least line that has one, or else, in
/// line 0, that the text has no end. The lines are counted from `first_line` on.
pub fn read_record(alloc: Global, bytes: &[u8], first_line: u32) -> Result<(u32, Record), TextError>
    requires first { 1 ≤ first_line }
    requires last { first_line + length bytes.now < 2 ^ 32 }
    ensures ok { IfOk result (λ said. IsRecordText bytes.now said.0 said.1) }
    ensures fault { IfErr result (TellsFirst bytes.now first_line) }
{
    let standing = read_lines(alloc, bytes, first_line)?;
    match standing.outcome() {
        Some(said) => Ok(said),
        None => Err(TextError::Fault(TextFault {
            line: 0,
            kind: NO_DONE,
        })),
    }
}
