// The forms of lines, and how many lines of each form there are.
ghost use Rattle.std.specs.Prelude.{◌≡◌, IfSome};
ghost use Rattle.gl_asm.specs.Forms.{ThrowsForm, counted, form_of, more, none_yet, word_form};

use crate::limits::MOST_COUNT;
use crate::names::{label_of, same};
use crate::table::template_of;
use gl_bytecode::Instr;
use gl_text::Words;

/// What a line is, as its words tell.
#[derive(Clone, Copy, Debug, PartialEq, Eq)]
pub enum Form {
    Blank,
    Class,
    Function,
    Label,
    Catch,
    Inputs,
    /// The instruction has any operands.
    Instruction(Instr),
}

// What the first word tells.
fn word_form(word: &[u8], alone: bool) -> Option<Form>
    ensures value { result ≡ word_form word.now alone }
    ensures thrown { IfSome result ThrowsForm }
{
    if same(word, b"class") {
        return Some(Form::Class);
    }
    if same(word, b"func") {
        return Some(Form::Function);
    }
    if same(word, b"catch") {
        return Some(Form::Catch);
    }
    if same(word, b"input") && !alone {
        return Some(Form::Inputs);
    }
    match template_of(word) {
        Some(instr) => Some(Form::Instruction(instr)),
        None => None,
    }
}

/// The form of a line of these words, if they tell one.
pub fn form_of(mut words: Words<'_>) -> Option<Form>
    ensures value { result ≡ form_of words.entry }
    ensures thrown { IfSome result ThrowsForm }
{
    match (words.next(), words.next()) {
        (None, _) => Some(Form::Blank),
        (Some(word), None) => match label_of(word) {
            Some(_) => Some(Form::Label),
            None => word_form(word, true),
        },
        (Some(word), Some(_)) => word_form(word, false),
    }
}

/// A count with one more, up to `MOST_COUNT`.
pub fn more(count: u16) -> u16
    ensures { result ≡ more count }
{
    if count < MOST_COUNT { count + 1 } else { count }
}

/// How many lines of each form stand before a line.
#[derive(Clone, Copy, Debug, PartialEq, Eq)]
pub struct Counts {
    pub classes: u16,
    pub functions: u16,
    /// The instructions of the last function.
    pub places: u16,
    /// The catches of the last function.
    pub catches: u16,
    /// There was a line of inputs.
    pub given: bool,
}

impl Counts {
    ghost use Rattle.gl_asm.specs.Forms.{counted, none_yet};

    /// Before the first line.
    pub fn none_yet() -> Counts
        ensures { result ≡ none_yet }
    {
        Counts {
            classes: 0,
            functions: 0,
            places: 0,
            catches: 0,
            given: false,
        }
    }

    /// Behind a line of this form.
    pub fn counted(self, form: Option<Form>) -> Counts
        ensures { result ≡ counted self form }
    {
        let mut counts = self;
        match form {
            None | Some(Form::Blank) | Some(Form::Label) => {}
            Some(Form::Class) => counts.classes = more(self.classes),
            Some(Form::Function) => {
                counts.functions = more(self.functions);
                counts.places = 0;
                counts.catches = 0;
            }
            Some(Form::Catch) => counts.catches = more(self.catches),
            Some(Form::Inputs) => counts.given = true,
            Some(Form::Instruction(_)) => counts.places = more(self.places),
        }
        counts
    }
}
