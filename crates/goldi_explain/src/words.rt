// The words of the command line.
ghost use Rattle.std.specs.Prelude.{◌≡◌};
ghost use Rattle.goldi_explain.specs.Words.{form_of};

use std::env::FillError;
use std::rt::Env;

// Room for the one word that there is.
const WORD_BYTES: usize = 10;

/// What is asked for.
#[derive(Clone, Copy)]
pub enum Form {
    /// Why each race of a trace is one.
    Text,
    /// A picture round the first race of a trace.
    Picture,
    /// Why each race of a run is one: of a program's text and its record's text behind it.
    Run,
}

// Whether there is a word at the place.
fn has_word(rt: &impl Env, place: usize) -> bool {
    let mut bytes = [0u8; 1];
    match rt.arg(place, &mut bytes) {
        Ok(_) | Err(FillError::TooLong) => true,
        Err(FillError::NotPresent) => false,
    }
}

// What a word asks for.
fn form_of(word: &[u8]) -> Option<Form>
    ensures { result ≡ form_of word.now }
{
    if word == b"--picture".as_slice() {
        Some(Form::Picture)
    } else if word == b"--run".as_slice() {
        Some(Form::Run)
    } else {
        None
    }
}

/// What the words behind the program's name ask for: no word for the text, one for each other form, and any others for nothing.
pub fn asked_form(rt: &impl Env) -> Option<Form> {
    let mut bytes = [0u8; WORD_BYTES];
    match rt.arg(1, &mut bytes) {
        Ok(count) => {
            let form = form_of(&bytes[..count]);
            if has_word(rt, 2) { None } else { form }
        }
        Err(FillError::TooLong) => None,
        Err(FillError::NotPresent) => Some(Form::Text),
    }
}
