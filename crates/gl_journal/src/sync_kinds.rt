// The kinds of synchronization, by the word that tells each.
ghost use Rattle.std.specs.Prelude.{◌≡◌, ◌≤◌, ◌+◌, ◌*◌, ◌<◌};
ghost use Rattle.gl_model.specs.Elements.{IsActInRange};
ghost use Rattle.gl_journal.specs.Written.{IsActTyped};
ghost use Rattle.gl_journal.specs.SyncKinds.{kind_in, word_of, most_of, act_of, kind_of, arg_of};

use gl_model::{Act, CLASSES, FUNCTIONS, MONITORS, THREADS, VOLATILES};
use gl_text::kinds::BAD_NUMBER;

/// What a line of synchronization says that its thread does.
#[derive(Clone, Copy, Debug, PartialEq, Eq)]
pub enum SyncKind {
    Begin,
    End,
    Acq,
    Rel,
    VRead,
    VWrite,
    Fork,
    Join,
    Alloc,
    Print,
    Input,
    Fail,
}

/// The kind that a word tells.
pub fn kind_told(word: &[u8]) -> Result<SyncKind, u8>
    ensures { result ≡ kind_in word.now }
{
    match word {
        b"begin" => Ok(SyncKind::Begin),
        b"end" => Ok(SyncKind::End),
        b"acq" => Ok(SyncKind::Acq),
        b"rel" => Ok(SyncKind::Rel),
        b"vread" => Ok(SyncKind::VRead),
        b"vwrite" => Ok(SyncKind::VWrite),
        b"fork" => Ok(SyncKind::Fork),
        b"join" => Ok(SyncKind::Join),
        b"alloc" => Ok(SyncKind::Alloc),
        b"print" => Ok(SyncKind::Print),
        b"input" => Ok(SyncKind::Input),
        b"fail" => Ok(SyncKind::Fail),
        _ => Err(BAD_NUMBER),
    }
}

impl SyncKind {
    /// The word that tells it.
    pub fn word(self) -> &'static str
        ensures { result.now ≡ word_of self }
    {
        match self {
            SyncKind::Begin => "begin",
            SyncKind::End => "end",
            SyncKind::Acq => "acq",
            SyncKind::Rel => "rel",
            SyncKind::VRead => "vread",
            SyncKind::VWrite => "vwrite",
            SyncKind::Fork => "fork",
            SyncKind::Join => "join",
            SyncKind::Alloc => "alloc",
            SyncKind::Print => "print",
            SyncKind::Input => "input",
            SyncKind::Fail => "fail",
        }
    }

    /// The greatest number of such an act.
    pub fn most(self) -> u16
        ensures { result ≡ most_of self }
    {
        match self {
            SyncKind::Begin => FUNCTIONS - 1,
            SyncKind::Acq | SyncKind::Rel => MONITORS - 1,
            SyncKind::VRead | SyncKind::VWrite => VOLATILES - 1,
            SyncKind::Fork => u16::from(THREADS) * FUNCTIONS - 1,
            SyncKind::Join => u16::from(THREADS) - 1,
            SyncKind::Alloc => CLASSES - 1,
            SyncKind::Fail => u16::from(u8::MAX),
            SyncKind::End | SyncKind::Print | SyncKind::Input => 0,
        }
    }

    /// The act of this kind and this number.
    pub fn act(self, number: u16) -> Act
        requires { number ≤ most_of self }
        ensures value { result ≡ act_of self number }
        ensures range { IsActInRange result }
    {
        match self {
            SyncKind::Begin => Act::Begin(number),
            SyncKind::End => Act::End,
            SyncKind::Acq => Act::Acq(number),
            SyncKind::Rel => Act::Rel(number),
            SyncKind::VRead => Act::VRead(number),
            SyncKind::VWrite => Act::VWrite(number),
            SyncKind::Fork => Act::Fork {
                child: (number % u16::from(THREADS)) as u8,
                func: number / u16::from(THREADS),
            },
            SyncKind::Join => Act::Join(number as u8),
            SyncKind::Alloc => Act::Alloc(number),
            SyncKind::Print => Act::Print,
            SyncKind::Input => Act::Input,
            SyncKind::Fail => Act::Fail(number as u8),
        }
    }
}

/// The kind of an act.
pub fn kind_of(act: Act) -> SyncKind
    ensures { result ≡ kind_of act }
{
    match act {
        Act::Begin(_) => SyncKind::Begin,
        Act::End => SyncKind::End,
        Act::Acq(_) => SyncKind::Acq,
        Act::Rel(_) => SyncKind::Rel,
        Act::VRead(_) => SyncKind::VRead,
        Act::VWrite(_) => SyncKind::VWrite,
        Act::Fork { .. } => SyncKind::Fork,
        Act::Join(_) => SyncKind::Join,
        Act::Alloc(_) => SyncKind::Alloc,
        Act::Print => SyncKind::Print,
        Act::Input => SyncKind::Input,
        Act::Fail(_) => SyncKind::Fail,
    }
}

/// The number of an act, 0 where it has none.
pub fn number_of(act: Act) -> u32
    ensures value { result ≡ arg_of act }
    ensures typed { IsActTyped act }
{
    match act {
        Act::Begin(func) => u32::from(func),
        Act::Acq(monitor) | Act::Rel(monitor) => u32::from(monitor),
        Act::VRead(volatile) | Act::VWrite(volatile) => u32::from(volatile),
        Act::Fork { child, func } => u32::from(child) + u32::from(THREADS) * u32::from(func),
        Act::Join(other) => u32::from(other),
        Act::Alloc(class) => u32::from(class),
        Act::Fail(code) => u32::from(code),
        Act::End | Act::Print | Act::Input => 0,
    }
}
