// The forms of lines, by the word that tells each.
ghost use Rattle.std.specs.Prelude.{◌≡◌, ◌≤◌};
ghost use Rattle.gl_model.specs.TraceSteps.{IsLineItem};
ghost use Rattle.gl_trace.specs.Form.{form_of, most_of, item_of};

use gl_model::{Act, Item, MONITORS, THREADS, VARIABLES, VOLATILES};
use gl_text::kinds::UNKNOWN_WORD;

/// What a line with one operand says.
#[derive(Clone, Copy, Debug, PartialEq, Eq)]
pub enum Verb {
    Read,
    Write,
    Acquire,
    Release,
    VolatileRead,
    VolatileWrite,
    Fork,
    Join,
}

impl Verb {
    /// The greatest operand.
    pub fn most(self) -> u16
        ensures { result ≡ most_of self }
    {
        match self {
            Verb::Read | Verb::Write => VARIABLES - 1,
            Verb::Acquire | Verb::Release => MONITORS - 1,
            Verb::VolatileRead | Verb::VolatileWrite => VOLATILES - 1,
            Verb::Fork | Verb::Join => u16::from(THREADS) - 1,
        }
    }

    /// What the line says of this operand.
    pub fn with(self, operand: u16) -> Item
        requires { operand ≤ most_of self }
        ensures value { result ≡ item_of self operand }
        ensures range { IsLineItem result }
    {
        match self {
            Verb::Read => Item::Access {
                var: operand,
                write: false,
            },
            Verb::Write => Item::Access {
                var: operand,
                write: true,
            },
            Verb::Acquire => Item::Act(Act::Acq(operand)),
            Verb::Release => Item::Act(Act::Rel(operand)),
            Verb::VolatileRead => Item::Act(Act::VRead(operand)),
            Verb::VolatileWrite => Item::Act(Act::VWrite(operand)),
            Verb::Fork => Item::Act(Act::Fork {
                child: operand as u8,
                func: 0,
            }),
            Verb::Join => Item::Act(Act::Join(operand as u8)),
        }
    }
}

/// A line with one operand, or a commit.
#[derive(Clone, Copy, Debug, PartialEq, Eq)]
pub enum Form {
    One(Verb),
    Commit,
}

/// The form that a word tells.
pub fn form_told(word: &[u8]) -> Result<Form, u8>
    ensures { result ≡ form_of word.now }
{
    match word {
        b"rd" => Ok(Form::One(Verb::Read)),
        b"wr" => Ok(Form::One(Verb::Write)),
        b"acq" => Ok(Form::One(Verb::Acquire)),
        b"rel" => Ok(Form::One(Verb::Release)),
        b"vr" => Ok(Form::One(Verb::VolatileRead)),
        b"vw" => Ok(Form::One(Verb::VolatileWrite)),
        b"fork" => Ok(Form::One(Verb::Fork)),
        b"join" => Ok(Form::One(Verb::Join)),
        b"commit" => Ok(Form::Commit),
        _ => Err(UNKNOWN_WORD),
    }
}
