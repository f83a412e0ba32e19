// The forms of lines, by the words that tell each.
ghost use Rattle.std.specs.Prelude.{◌≡◌, ◌<◌};
ghost use Rattle.gl_journal.specs.Forms.{form_by, form_of, abort_form, over_form, operands_of, count_of};

use gl_text::Words;
use gl_text::kinds::{UNKNOWN_WORD, WORD_COUNT};

/// A line that says an entry.
#[derive(Clone, Copy, Debug, PartialEq, Eq)]
pub enum EntryForm {
    Sync,
    Commit,
    Plain,
    Changed,
    Raised,
    Trim,
    Halt,
    Spent,
    Uncaught,
}

/// What a line is.
#[derive(Clone, Copy, Debug, PartialEq, Eq)]
pub enum Form {
    Header,
    Thread,
    Entry(EntryForm),
    Done,
}

fn abort_form(word: &[u8]) -> Result<Form, u8>
    ensures { result ≡ abort_form word.now }
{
    match word {
        b"changed" => Ok(Form::Entry(EntryForm::Changed)),
        b"raised" => Ok(Form::Entry(EntryForm::Raised)),
        _ => Err(UNKNOWN_WORD),
    }
}

fn over_form(word: &[u8]) -> Result<Form, u8>
    ensures { result ≡ over_form word.now }
{
    match word {
        b"halt" => Ok(Form::Entry(EntryForm::Halt)),
        b"spent" => Ok(Form::Entry(EntryForm::Spent)),
        b"uncaught" => Ok(Form::Entry(EntryForm::Uncaught)),
        _ => Err(UNKNOWN_WORD),
    }
}

// The form of a line with this first word and these others.
fn form_by(first: &[u8], mut others: Words<'_>) -> Result<Form, u8>
    ensures { result ≡ form_by first.now others.entry }
{
    match first {
        b"record" => Ok(Form::Header),
        b"thread" => Ok(Form::Thread),
        b"sync" => Ok(Form::Entry(EntryForm::Sync)),
        b"commit" => Ok(Form::Entry(EntryForm::Commit)),
        b"plain" => Ok(Form::Entry(EntryForm::Plain)),
        b"abort" => abort_form(others.next().ok_or(WORD_COUNT)?),
        b"trim" => Ok(Form::Entry(EntryForm::Trim)),
        b"over" => over_form(others.next().ok_or(WORD_COUNT)?),
        b"done" => Ok(Form::Done),
        _ => Err(UNKNOWN_WORD),
    }
}

/// The form that the words of a line tell: its first, and after `abort` and `over` its second.
pub fn form_of(mut words: Words<'_>) -> Result<Form, u8>
    ensures { result ≡ form_of words.entry }
{
    match words.next() {
        None => Err(WORD_COUNT),
        Some(first) => form_by(first, words),
    }
}

/// The words of a line of this form behind those that tell it.
pub fn operands_of(form: Form, mut words: Words<'_>) -> Words<'_>
    ensures { result ≡ operands_of form words.entry }
{
    words.next();
    match form {
        Form::Entry(
            EntryForm::Changed
            | EntryForm::Raised
            | EntryForm::Halt
            | EntryForm::Spent
            | EntryForm::Uncaught,
        ) => {
            words.next();
        }
        Form::Entry(EntryForm::Sync | EntryForm::Commit | EntryForm::Plain | EntryForm::Trim)
        | Form::Header
        | Form::Thread
        | Form::Done => {}
    }
    words
}

impl Form {
    /// How many words a line of the form has.
    pub fn count(self) -> usize
        ensures value { result ≡ count_of self }
        ensures some { 0 < result }
    {
        match self {
            Form::Header => 3,
            Form::Thread => 2,
            Form::Done => 1,
            Form::Entry(EntryForm::Sync) => 5,
            Form::Entry(EntryForm::Commit) => 8,
            Form::Entry(EntryForm::Plain) => 7,
            Form::Entry(EntryForm::Changed) => 11,
            Form::Entry(EntryForm::Raised) => 9,
            Form::Entry(EntryForm::Trim) => 2,
            Form::Entry(EntryForm::Halt) => 2,
            Form::Entry(EntryForm::Spent) => 2,
            Form::Entry(EntryForm::Uncaught) => 3,
        }
    }
}
