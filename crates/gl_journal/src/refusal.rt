ghost use Rattle.std.specs.Prelude.{◌≡◌};
ghost use Rattle.gl_journal.specs.declared.refusal.Refusal.TheVariants.{Kind, Memory};

use std::alloc::AllocError;

/// Why a line adds nothing.
#[derive(Debug, Drop)]
pub enum Refusal {
    /// The line has a fault of this kind.
    Kind(u8),
    /// There was not enough memory.
    Memory(AllocError),
}

impl From<u8> for Refusal {
    ghost from_gives = { λ kind refusal. refusal ≡ Kind kind };

    fn from(kind: u8) -> Refusal {
        Refusal::Kind(kind)
    }
}

impl From<AllocError> for Refusal {
    ghost from_gives = { λ error refusal. refusal ≡ Memory error };

    fn from(error: AllocError) -> Refusal {
        Refusal::Memory(error)
    }
}
