// What can have a name.
ghost use Rattle.std.specs.Prelude.{◌≡◌};
ghost use Rattle.gl_names.specs.Names.{count_of, word_of};

use gl_model::{MONITORS, THREADS, VARIABLES, VOLATILES};

/// The most bytes of a name.
pub const NAME_BYTES: usize = 40;

/// What can have a name: each of a kind by its number.
#[derive(Clone, Copy, Debug, PartialEq, Eq)]
pub enum Kind {
    Thread,
    Monitor,
    Volatile,
    Variable,
}

impl Kind {
    /// The word for it in a line.
    pub fn word(self) -> &'static [u8]
        ensures { result.now ≡ word_of self }
    {
        match self {
            Kind::Thread => b"thread",
            Kind::Monitor => b"monitor",
            Kind::Volatile => b"volatile",
            Kind::Variable => b"var",
        }
    }

    /// How many of them there are.
    pub fn count(self) -> u16
        ensures { result ≡ count_of self }
    {
        match self {
            Kind::Thread => u16::from(THREADS),
            Kind::Monitor => MONITORS,
            Kind::Volatile => VOLATILES,
            Kind::Variable => VARIABLES,
        }
    }
}
